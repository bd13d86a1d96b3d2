//! Why the book didn't accept an edit.

use si_model::Refusal;
use std::alloc::{AllocError, AllocFailed};
use thiserror::Error;

/// Why an edit wasn't accepted.
#[derive(Clone, Copy, Debug, PartialEq, Eq, Error)]
pub enum AcceptFault {
    /// The edit is refused, and this is the first reason against it.
    #[error("the edit is refused: {0:?}")]
    Refused(Refusal),
    /// The growth of some memory was refused.
    #[error("out of memory")]
    OutOfMemory,
}

impl From<AllocError> for AcceptFault {
    ghost use Rattle.std.specs.Prelude.{◌≡◌};
    ghost use Rattle.si_accept.specs.declared.faults.AcceptFault.TheVariants.{OutOfMemory};

    ghost from_gives = { λ _ fault. fault ≡ OutOfMemory };

    fn from(_error: AllocError) -> Self {
        AcceptFault::OutOfMemory
    }
}

impl<T: Drop> From<AllocFailed<T>> for AcceptFault {
    ghost use Rattle.std.specs.Prelude.{◌≡◌};
    ghost use Rattle.si_accept.specs.declared.faults.AcceptFault.TheVariants.{OutOfMemory};

    ghost from_gives = { λ _ fault. fault ≡ OutOfMemory };

    fn from(_error: AllocFailed<T>) -> Self {
        AcceptFault::OutOfMemory
    }
}
