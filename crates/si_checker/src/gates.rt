//! Where a caller may hold threads: tests hold them there, and the program does nothing.

use si_model::Number;

/// A place that a thread has come to.
#[derive(Clone, Copy, Debug, PartialEq, Eq)]
pub enum Place {
    /// The shard is about to apply edits, of which the first has this number. Its lock is held, and the book's isn't.
    Apply { shard: usize, number: Number },
    /// The shard has published what it applied, up to the edit of this number. Its lock is held still.
    Published { shard: usize, number: Number },
    /// The item of this line is about to be put.
    Put { source: usize, line: u64 },
    /// The item of this line was decided.
    Decided { source: usize, line: u64 },
}

/// What threads tell where they are.
pub trait Gate {
    /// The thread goes on once this returns.
    fn at(&self, place: Place);
}

/// The gate that holds nobody.
#[derive(Clone, Copy)]
pub struct Open;

impl Gate for Open {
    fn at(&self, _place: Place) {}
}
