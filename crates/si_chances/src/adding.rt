//! Sums that may be too large to be kept.

ghost use Rattle.std.specs.Prelude.{◌≡◌, ◌+◌, IfOk};

use si_model::OutOfMemory;
use std::alloc::AllocError;

/// The sum of two counts of operations. Where no number holds it, no memory holds so many operations either.
pub fn added(a: usize, b: usize) -> Result<usize, OutOfMemory>
    ensures { IfOk result (λ sum. sum ≡ a + b) }
{
    match a.checked_add(b) {
        Some(sum) => Ok(sum),
        None => Err(AllocError),
    }
}
