//! What came and what went on a key.

ghost use Rattle.std.specs.Prelude.{◌≡◌, [], OnOk};
ghost use Rattle.si_judge.specs.Notes.{IsNotedBy};

use si_model::{Kind, OutOfMemory};
use std::alloc::Global;

/// Kinds of findings that came, and that went, in no order. One that came and went stands in both.
#[derive(Drop)]
pub struct Notes {
    pub came: Vec<Kind>,
    pub went: Vec<Kind>,
}

impl Notes {
    /// Nothing came and nothing went. It takes no memory.
    pub fn new(alloc: Global) -> Self
        ensures came { result.came.items ≡ [] }
        ensures went { result.went.items ≡ [] }
    {
        Notes {
            came: Vec::new(alloc),
            went: Vec::new(alloc),
        }
    }

    /// Notes that this is found in one place, and that was found there before.
    pub fn note(&mut self, former: Option<Kind>, now: Option<Kind>) -> Result<(), OutOfMemory>
        ensures { OnOk result (IsNotedBy former now self.old self.new) }
    {
        if former == now {
            return Ok(());
        }
        if let Some(kind) = former {
            self.went.push(kind)?;
        }
        if let Some(kind) = now {
            self.came.push(kind)?;
        }
        Ok(())
    }
}
