//! The edits of a history, and how many a journal may have.

ghost use Rattle.std.specs.Prelude.{◌≡◌, IfOk};

use crate::{Key, OutOfMemory, Outcome, Txn, TxnId, Value};

/// The most edits that a journal may have.
pub const MOST_EDITS: usize = 16_777_216;

/// A change of what is present.
#[derive(Debug, PartialEq, Drop)]
pub enum Edit {
    /// The transaction was logged.
    Arrive(Txn),
    /// The transaction was in doubt, and this became of it.
    Resolve(TxnId, Outcome),
    /// The record of the transaction was false.
    Withdraw(TxnId),
    /// The key had this value before the run: its initial version returns it.
    SetUp(Key, Value),
}

impl Edit {
    /// The same edit, which shares its transaction's operations.
    pub fn try_clone(&self) -> Result<Self, OutOfMemory>
        ensures { IfOk result (λ edit. edit ≡ self.now) }
    {
        Ok(match self {
            Edit::Arrive(txn) => Edit::Arrive(txn.try_clone()?),
            Edit::Resolve(id, outcome) => Edit::Resolve(*id, *outcome),
            Edit::Withdraw(id) => Edit::Withdraw(*id),
            Edit::SetUp(key, value) => Edit::SetUp(key.try_clone()?, *value),
        })
    }
}
