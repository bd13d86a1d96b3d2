//! Transactions, and what becomes of them.

ghost use Rattle.std.specs.Prelude.{◌≡◌, IfOk};
ghost use Rattle.si_model.specs.Parts.{writes_some};
ghost use Rattle.si_model.specs.Versions.{commit_of};
ghost use Rattle.si_model.specs.Edits.{status_after};

use crate::{Ops, OutOfMemory, Stamp, TxnId};

/// What became of a transaction, as far as it is known.
#[derive(Clone, Copy, Debug, PartialEq, Eq)]
pub enum Status {
    /// It committed at this stamp.
    Committed(Stamp),
    Aborted,
    /// It isn't known yet whether it committed.
    InDoubt,
}

impl Status {
    /// The commit stamp, where the transaction committed.
    pub fn commit(self) -> Option<Stamp>
        ensures { result ≡ commit_of self }
    {
        match self {
            Status::Committed(commit) => Some(commit),
            Status::Aborted | Status::InDoubt => None,
        }
    }
}

/// What a transaction in doubt is resolved to.
#[derive(Clone, Copy, Debug, PartialEq, Eq)]
pub enum Outcome {
    /// It committed at this stamp.
    Committed(Stamp),
    Aborted,
}

impl Outcome {
    /// The status of the transaction once it is resolved.
    pub fn status(self) -> Status
        ensures { result ≡ status_after self }
    {
        match self {
            Outcome::Committed(commit) => Status::Committed(commit),
            Outcome::Aborted => Status::Aborted,
        }
    }
}

/// One transaction as a tester logged it.
#[derive(Debug, PartialEq, Drop)]
pub struct Txn {
    pub id: TxnId,
    /// When its snapshot was taken.
    pub start: Stamp,
    pub status: Status,
    pub ops: Ops,
}

impl Txn {
    /// Whether it writes at all.
    pub fn writes(&self) -> bool
        ensures { result ≡ writes_some self.now }
    {
        self.ops.has_write()
    }

    /// The same transaction, which shares its operations.
    pub fn try_clone(&self) -> Result<Self, OutOfMemory>
        ensures { IfOk result (λ txn. txn ≡ self.now) }
    {
        Ok(Txn {
            id: self.id,
            start: self.start,
            status: self.status,
            ops: self.ops.try_clone()?,
        })
    }
}
