//! Why a finding isn't explained.

ghost use Rattle.std.specs.Prelude.{◌≡◌};
ghost use Rattle.si_graph.specs.Explanations.{fault_code};

use std::alloc::AllocError;
use thiserror::Error;

/// Why a finding wasn't explained.
#[derive(Clone, Copy, Debug, PartialEq, Eq, Error)]
pub enum ExplainFault {
    /// It isn't a finding of that history.
    #[error("it isn't a finding of that history")]
    NotAFinding,
    /// It is a finding, of a kind that concerns form and is no phenomenon.
    #[error("the finding concerns form alone")]
    FormFinding,
    /// The growth of some memory was refused.
    #[error("out of memory")]
    OutOfMemory,
}

impl ExplainFault {
    /// The number of the fault, where it has one.
    pub fn code(&self) -> Option<u64>
        ensures { result ≡ fault_code self.now }
    {
        match self {
            ExplainFault::NotAFinding => Some(31),
            ExplainFault::FormFinding => Some(32),
            ExplainFault::OutOfMemory => None,
        }
    }
}

impl From<AllocError> for ExplainFault {
    ghost use Rattle.std.specs.Prelude.{◌≡◌};
    ghost use Rattle.si_graph.specs.declared.faults.ExplainFault.TheVariants.{OutOfMemory};

    ghost from_gives = { λ _ fault. fault ≡ OutOfMemory };

    fn from(_error: AllocError) -> Self {
        ExplainFault::OutOfMemory
    }
}
