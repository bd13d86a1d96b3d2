//! The steps of the core's machine and the replies that they get.

ghost use Rattle.std.specs.Prelude.{◌≡◌};
ghost use Rattle.si_core.specs.Worlds.{world_fault_code};

use si_model::{Edit, Number, Refusal};
use thiserror::Error;

/// A step of the machine.
#[derive(Debug, Drop)]
pub enum Step {
    /// The book accepts or refuses the edit.
    Accept(Edit),
    /// The shard of this number applies the next edit of the journal.
    Apply(usize),
    /// Each shard applies all that is left, by rising number.
    Settle,
}

/// What a step is answered.
#[derive(Clone, Copy, Debug, PartialEq, Eq)]
pub enum Reply {
    /// The edit was accepted, and has this number in the journal.
    Accepted(Number),
    /// The edit was refused for this reason, and nothing changed.
    Refused(Refusal),
    /// The shard applied its next edit, and has applied so many.
    Applied(u64),
    /// The shard has applied the whole journal, or there is no shard of that number.
    Idle,
    /// Each shard has applied the whole journal, which has so many edits.
    Settled(u64),
    /// The growth of some memory was refused. What was applied before stands, and nothing else changed.
    NoMemory,
    /// The shard is spoiled, by this step or before. What was applied before stands.
    Spoiled(usize),
}

/// Why the machine doesn't tell its findings.
#[derive(Clone, Copy, Debug, PartialEq, Eq, Error)]
pub enum WorldFault {
    /// Memory was refused to an application by this shard, and no rebuild came since. Its number is the least of those.
    #[error("shard {0} is spoiled")]
    Spoiled(usize),
    /// Some shard has applied so many edits and no more, the least of all, and the journal has more.
    #[error("unsettled at {0}")]
    Unsettled(u64),
    /// The growth of some memory was refused.
    #[error("out of memory")]
    OutOfMemory,
}

impl WorldFault {
    /// The number of the fault, where it has one.
    pub fn code(&self) -> Option<u64>
        ensures { result ≡ world_fault_code self.now }
    {
        match self {
            WorldFault::Spoiled(_) => Some(41),
            WorldFault::Unsettled(_) => Some(42),
            WorldFault::OutOfMemory => None,
        }
    }
}
