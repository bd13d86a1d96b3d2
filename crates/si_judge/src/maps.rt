//! Many entries at once, put into a map or taken out.

ghost use Rattle.std.specs.Prelude.{◌≡◌, ◌∷◌, [], OnOk};
ghost use Rattle.std.specs.Option.{option_to_list};
ghost use Rattle.std.specs.Ordering.{eq_by_cmp};
ghost use Rattle.si_model.specs.Versions.{last_write};
ghost use Rattle.si_judge.specs.Indexes.{other_writes_of, others_among};
ghost use Rattle.si_judge.specs.Maps.{AreInserted, AreTakenOut};
ghost use Rattle.si_judge.specs.Values.{at_value, value_cmp};

use crate::reads::{Write, write_at};
use si_model::{OutOfMemory, Part, Value};
use si_sorted::SortedMap;

/// Puts those writes of the transaction in that install no version, each under its value. The last one is of `last`.
pub fn insert_writes(
    map: &mut SortedMap<Value, Write>,
    part: &Part,
    last: Option<Value>,
) -> Result<(), OutOfMemory>
    requires { last ≡ last_write part.now.accesses }
    ensures { OnOk result (AreInserted (eq_by_cmp value_cmp) (at_value map.old) (other_writes_of part.now) (at_value map.new)) }
{
    for placed in part.accesses.as_slice() {
        insert_other(map, write_at(part, last, *placed))?;
    }
    Ok(())
}

fn insert_other(
    map: &mut SortedMap<Value, Write>,
    write: Option<(Value, Write)>,
) -> Result<(), OutOfMemory>
    ensures { OnOk result (AreInserted (eq_by_cmp value_cmp) (at_value map.old) (others_among (option_to_list write)) (at_value map.new)) }
{
    if let Some((value, write)) = write {
        if write.fate.is_other() {
            map.insert(value, write)?;
        }
    }
    Ok(())
}

/// Takes those of the writes out that installed no version.
pub fn remove_writes(map: &mut SortedMap<Value, Write>, writes: &[(Value, Write)])
    ensures { AreTakenOut (eq_by_cmp value_cmp) (at_value map.old) (others_among writes.now) (at_value map.new) }
{
    for write in writes {
        remove_other(map, *write);
    }
}

fn remove_other(map: &mut SortedMap<Value, Write>, write: (Value, Write))
    ensures { AreTakenOut (eq_by_cmp value_cmp) (at_value map.old) (others_among (write ∷ [])) (at_value map.new) }
{
    if write.1.fate.is_other() {
        map.remove(write.0);
    }
}
