//! Why a run ended before its inputs did.

use si_checker::OpenFault;
use si_text::DeviceFailed;
use std::alloc::AllocError;
use thiserror::Error;

/// Why a run didn't come to its end.
#[derive(Clone, Copy, Debug, PartialEq, Eq, Error)]
pub enum RunFault {
    /// The source of that number, counted from 0, failed or was read too often.
    #[error("cannot read source {0}")]
    Input(usize),
    /// The options are out of their range.
    #[error("{0}")]
    Open(OpenFault),
    /// The writer failed.
    #[error("cannot write")]
    Output,
    /// The growth of some memory was refused.
    #[error("out of memory")]
    Memory,
}

impl From<AllocError> for RunFault {
    ghost use Rattle.std.specs.Prelude.{◌≡◌};
    ghost use Rattle.si_run.specs.declared.faults.RunFault.TheVariants as faults;

    ghost from_gives = { λ _ fault. fault ≡ faults.Memory };

    fn from(_refused: AllocError) -> RunFault {
        RunFault::Memory
    }
}

impl From<DeviceFailed> for RunFault {
    ghost use Rattle.std.specs.Prelude.{◌≡◌};
    ghost use Rattle.si_run.specs.declared.faults.RunFault.TheVariants as faults;

    ghost from_gives = { λ _ fault. fault ≡ faults.Output };

    fn from(_failed: DeviceFailed) -> RunFault {
        RunFault::Output
    }
}

impl From<OpenFault> for RunFault {
    ghost use Rattle.std.specs.Prelude.{◌≡◌};
    ghost use Rattle.si_run.specs.Faults.{fault_of_opening};

    ghost from_gives = { λ opening fault. fault ≡ fault_of_opening opening };

    fn from(fault: OpenFault) -> RunFault {
        match fault {
            OpenFault::OutOfMemory => RunFault::Memory,
            fault => RunFault::Open(fault),
        }
    }
}
