//! Why a script isn't read.

use std::alloc::{AllocError, AllocFailed};
use thiserror::Error;

/// Why a text gave nothing.
#[derive(Clone, Copy, Debug, PartialEq, Eq, Error)]
pub enum ScriptFault {
    /// Something else stands there.
    #[error("{0} is wanted")]
    Wanted(&'static str),
    /// The growth of some memory was refused.
    #[error("out of memory")]
    OutOfMemory,
}

impl From<AllocError> for ScriptFault {
    fn from(_error: AllocError) -> Self {
        ScriptFault::OutOfMemory
    }
}

impl<T: Drop> From<AllocFailed<T>> for ScriptFault {
    fn from(_error: AllocFailed<T>) -> Self {
        ScriptFault::OutOfMemory
    }
}
