//! The values that free reads of a key returned.

ghost use Rattle.std.specs.Prelude.{◌≡◌, ◌&&◌, ◌||◌, true, not, nat_eq, Some, OnOk, IfOk, IsSorted};
ghost use Rattle.std.specs.List.{list_any};
ghost use Rattle.std.specs.Option.{option_eq};
ghost use Rattle.std.specs.Ordering.{nat_cmp};
ghost use Rattle.si_model.specs.declared.numbers.Value.{Value};
ghost use Rattle.si_model.specs.Chances.{is_committed};
ghost use Rattle.si_model.specs.Operations.{same_value};
ghost use Rattle.si_chances.specs.Summaries.{Rise, RiseAll};
ghost use Rattle.si_chances.specs.Values.{returns_other};

use crate::summaries::{is_committed, summary_of};
use si_model::{Access, OutOfMemory, Part, Value};
use std::alloc::Global;

/// The values that free reads returned, in order, but of no transaction its own last one.
pub fn returned(alloc: Global, parts: &[Part]) -> Result<Vec<u64>, OutOfMemory>
    requires { RiseAll parts.now }
    ensures sorted { IfOk result (λ found. IsSorted nat_cmp found.items) }
    ensures values { IfOk result (λ found. (v : Value) → list_any (λ m. nat_eq m v.0) found.items ≡ list_any (returns_other v) parts.now) }
{
    let mut found = Vec::new(alloc);
    for part in parts {
        if is_committed(part.status) {
            add_returned(&mut found, part)?;
        }
    }
    found.sort_unstable();
    Ok(found)
}

/// Adds those that free reads of this transaction returned, which committed.
fn add_returned(found: &mut Vec<u64>, part: &Part) -> Result<(), OutOfMemory>
    requires rise { Rise part.now.accesses }
    requires committed { is_committed part.now.status ≡ true }
    ensures { OnOk result ((v : Value) → list_any (λ m. nat_eq m v.0) found.new.items ≡ (list_any (λ m. nat_eq m v.0) found.old.items || returns_other v part.now)) }
{
    let last = summary_of(part).last;
    let mut wrote = false;
    for placed in part.accesses.as_slice() {
        match placed.access {
            Access::Write(_) => wrote = true,
            Access::Read(read) => {
                if !wrote {
                    add_other(found, read, last)?;
                }
            }
        }
    }
    Ok(())
}

/// Adds what a read returned, where that is a value and not the last one of its own transaction.
fn add_other(
    found: &mut Vec<u64>,
    read: Option<Value>,
    last: Option<Value>,
) -> Result<(), OutOfMemory>
    ensures { OnOk result ((v : Value) → list_any (λ m. nat_eq m v.0) found.new.items
        ≡ (list_any (λ m. nat_eq m v.0) found.old.items || (option_eq same_value read (Some v) && not (option_eq same_value last (Some v))))) }
{
    if let Some(value) = read {
        if last != Some(value) {
            found.push(value.0)?;
        }
    }
    Ok(())
}
