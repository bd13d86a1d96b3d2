//! The writers of one key's values.

ghost use Rattle.std.specs.Prelude.{◌≡◌, [], IfOk, None, OnErr, OnOk, Some};
ghost use Rattle.std.specs.Ordering.{nat_cmp};
ghost use Rattle.si_accept.specs.Pairs.{one_pair};
ghost use Rattle.si_sorted.specs.Entries.{Sets, value_at};

use si_model::OutOfMemory;
use si_sorted::SortedMap;
use std::alloc::Global;
use std::marker::Model;

/// The writers of one key's values, by the values. Contracts see the entries in the order of the values.
///
/// In some logs nearly each key is written once, so the first writer takes no memory of its own.
#[derive(Drop)]
pub struct Pairs {
    form: PairForm,
}

#[derive(Drop)]
enum PairForm {
    Empty,
    /// One value and its writer.
    One(u64, u64),
    Many(SortedMap<u64, u64>),
}

impl Model for Pairs {
    ghost use Rattle.std.specs.Prelude.{List, ℕ};
    ghost use Rattle.si_accept.specs.Pairs.{pairs_in};

    ghost Value = { List (ℕ × ℕ) };

    ghost view = { λ p. pairs_in p.form };
}

impl Pairs {
    /// No value is written.
    pub fn new() -> Self
        ensures { result ≡ [] }
    {
        Pairs {
            form: PairForm::Empty,
        }
    }

    /// The writer of the value.
    pub fn get(&self, value: u64) -> Option<u64>
        ensures { result ≡ value_at nat_cmp self.now value }
    {
        match &self.form {
            PairForm::Empty => None,
            PairForm::One(only, id) if *only == value => Some(*id),
            PairForm::One(..) => None,
            PairForm::Many(all) => all.get(value),
        }
    }

    /// The writer of the value is this one from now on.
    pub fn insert(&mut self, alloc: Global, value: u64, id: u64) -> Result<(), OutOfMemory>
        ensures sets { OnOk result (Sets nat_cmp value (Some id) self.old self.new) }
        ensures err { OnErr result (self.new ≡ self.old) }
    {
        match &mut self.form {
            PairForm::Empty => self.form = PairForm::One(value, id),
            PairForm::One(only, first) if *only == value => *first = id,
            PairForm::One(only, first) => {
                let all = both(alloc, (*only, *first), (value, id))?;
                self.form = PairForm::Many(all);
            }
            PairForm::Many(all) => all.insert(value, id)?,
        }
        Ok(())
    }

    /// The value has no writer from now on.
    pub fn remove(&mut self, value: u64)
        ensures { Sets nat_cmp value None self.old self.new }
    {
        match &mut self.form {
            PairForm::Empty => {}
            PairForm::One(only, _) => {
                if *only == value {
                    self.form = PairForm::Empty;
                }
            }
            PairForm::Many(all) => {
                let _former = all.remove(value);
            }
        }
    }
}

/// The two values with their writers.
fn both(
    alloc: Global,
    first: (u64, u64),
    second: (u64, u64),
) -> Result<SortedMap<u64, u64>, OutOfMemory>
    ensures { IfOk result (λ all. Sets nat_cmp second.0 (Some second.1) (one_pair first) all) }
{
    let mut all = SortedMap::new(alloc);
    all.insert(first.0, first.1)?;
    all.insert(second.0, second.1)?;
    Ok(all)
}
