//! The transactions that are present after some edits, for those who have these edits and no book.

ghost use Rattle.std.specs.Prelude.{◌≡◌, [], nat_eq, OnOk, IfOk};
ghost use Rattle.std.specs.HashMap.{get};
ghost use Rattle.si_shard.specs.PresentTxns.{AreById, EntersTxn, txn_asked};

use si_hashing::NumberHash;
use si_model::{Edit, OutOfMemory, Txn};
use std::alloc::Global;
use std::collections::HashMap;
use std::hash::RandomState;

/// The transactions that are present, by their ids: copies, which share the operations.
#[derive(Drop)]
pub struct PresentTxns {
    by_id: HashMap<u64, Txn, NumberHash>,
}

impl PresentTxns {
    /// Before any edit.
    pub fn new(alloc: Global, hash: RandomState) -> Self
        ensures { AreById [] (get nat_eq result.by_id) }
    {
        PresentTxns {
            by_id: HashMap::with_hasher(alloc, NumberHash::with_secret(hash)),
        }
    }

    /// Enters the edit, and answers with the transaction that it resolves or withdraws, as it was before.
    pub fn enter(&mut self, edit: &Edit) -> Result<Option<Txn>, OutOfMemory>
        ensures before { IfOk result (λ before. before ≡ txn_asked edit.now (get nat_eq self.old.by_id)) }
        ensures entered { OnOk result (EntersTxn edit.now (get nat_eq self.old.by_id) (get nat_eq self.new.by_id)) }
    {
        match edit {
            Edit::Arrive(txn) => {
                self.by_id.insert(txn.id.0, txn.try_clone()?)?;
                Ok(None)
            }
            Edit::Resolve(id, outcome) => {
                let Some(txn) = self.by_id.get_mut(&id.0) else {
                    return Ok(None);
                };
                let before = txn.try_clone()?;
                txn.status = outcome.status();
                Ok(Some(before))
            }
            Edit::Withdraw(id) => Ok(self.by_id.remove(&id.0)),
            Edit::SetUp(..) => Ok(None),
        }
    }
}
