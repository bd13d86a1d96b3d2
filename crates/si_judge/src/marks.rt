//! The reads of a key that are still to be judged again.

ghost use Rattle.std.specs.Prelude.{◌≡◌, ◌↔◌, ◌++◌, [], IsTrue, OnOk};
ghost use Rattle.si_judge.specs.Marks.{AddsMark, least_mark};

use si_model::{OutOfMemory, Stamp, Value};
use si_sorted::{Choice, SortedMap};
use std::alloc::Global;
use std::marker::Model;
use std::ops::Bound;

/// The reads that returned the value, by readers that started after the stamp, if there is one.
pub type Mark = (Option<Value>, Option<Stamp>);

/// Every entry.
#[derive(Clone, Copy, Debug)]
struct EveryMark;

impl Choice<Option<Value>, Option<Stamp>, Mark> for EveryMark {
    ghost use Rattle.std.specs.Prelude.{Some};

    ghost tells = { λ _ value after. Some (value, after) };

    fn told(&self, value: Option<Value>, after: Option<Stamp>) -> Option<Mark> {
        Some((value, after))
    }
}

/// The marks, of which each value has one: the least that was put on it.
///
/// Contracts see their list.
#[derive(Drop)]
pub struct Marks {
    all: SortedMap<Option<Value>, Option<Stamp>>,
}

impl Model for Marks {
    ghost use Rattle.si_judge.specs.Marks.{Marked};

    ghost Value = { Marked };

    ghost view = { λ s. s.all };
}

impl Marks {
    /// None. It takes no memory.
    pub fn new(alloc: Global) -> Self
        ensures { result ≡ [] }
    {
        Marks {
            all: SortedMap::new(alloc),
        }
    }

    /// Whether there is none.
    pub fn is_empty(&self) -> bool
        ensures { IsTrue result ↔ (self.now ≡ []) }
    {
        self.all.is_empty()
    }

    /// Marks the reads that returned the value, by readers that started after the stamp, if there is one.
    pub fn mark(&mut self, value: Option<Value>, after: Option<Stamp>) -> Result<(), OutOfMemory>
        ensures { OnOk result (AddsMark value after self.old self.new) }
    {
        let least = least_mark(self.all.get(value), after);
        self.all.insert(value, least)?;
        Ok(())
    }

    /// Adds the marks.
    pub fn add_to(&self, out: &mut Vec<Mark>) -> Result<(), OutOfMemory>
        ensures { OnOk result (out.new.items ≡ out.old.items ++ self.now) }
    {
        self.all
            .add_between(Bound::Unbounded, Bound::Unbounded, &EveryMark, out)?;
        Ok(())
    }
}

/// The lesser of two marks of one value, if there is a first.
fn least_mark(first: Option<Option<Stamp>>, second: Option<Stamp>) -> Option<Stamp>
    ensures { result ≡ least_mark first second }
{
    match (first, second) {
        (None, second) => second,
        (Some(Some(first)), Some(second)) => Some(if first < second { first } else { second }),
        (Some(_), _) => None,
    }
}
