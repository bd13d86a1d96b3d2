//! The indexes of what is present: who has which stamp, and who writes which pair of key and value.

ghost use Rattle.std.specs.Prelude.{◌≡◌, Some, None, true, false, OnOk, OnErr};
ghost use Rattle.si_model.specs.declared.numbers.Stamp.{Stamp};
ghost use Rattle.si_model.specs.declared.numbers.TxnId.{TxnId};
ghost use Rattle.si_model.specs.declared.operations.Op.{Op};
ghost use Rattle.si_model.specs.Parts.{writes_some};
ghost use Rattle.si_model.specs.Versions.{commit_of};
ghost use Rattle.si_accept.specs.Stamps.{has, IsLeast, Sets, SameHolders, lesser_of};
ghost use Rattle.si_accept.specs.Writers.{writer_of};
ghost use Rattle.si_accept.specs.Indexes.{SetsTxn, SetsStamp, SameIndexes, LacksTxn, has_any};

use crate::stamps::Stamps;
use crate::writers::Writers;
use si_model::{Key, Op, OutOfMemory, Stamp, Txn, TxnId, Value};
use std::alloc::Global;
use std::hash::RandomState;
use std::marker::Model;

/// Indexes of stamps and one of written pairs.
///
/// A commit is in one of two indexes, since the stamp of a transaction that writes is its own, and others may share theirs.
#[derive(Drop)]
pub struct Index {
    starts: Stamps,
    // The commits of transactions that write.
    installs: Stamps,
    // The commits of those that write nothing.
    others: Stamps,
    writers: Writers,
}

impl Model for Index {
    ghost use Rattle.si_accept.specs.Indexes.{Indexes};

    ghost Value = { Indexes };

    ghost view = { λ i. record { starts = i.starts; installs = i.installs; others = i.others; written = i.writers } };
}

impl Index {
    /// Indexes that say nothing of any transaction.
    pub fn new(alloc: Global, hash: RandomState) -> Self
        ensures starts { (s : Stamp) (u : TxnId) → has result.starts s u ≡ false }
        ensures installs { (s : Stamp) (u : TxnId) → has result.installs s u ≡ false }
        ensures others { (s : Stamp) (u : TxnId) → has result.others s u ≡ false }
        ensures writers { (op : Op) → writer_of result.written op ≡ None }
    {
        Index {
            starts: Stamps::new(alloc),
            installs: Stamps::new(alloc),
            others: Stamps::new(alloc),
            writers: Writers::new(alloc, hash),
        }
    }

    /// The least id of those that write and commit at the stamp.
    pub fn least_that_installs_at(&self, stamp: Stamp) -> Option<TxnId>
        ensures { IsLeast (has self.now.installs stamp) result }
    {
        self.installs.least(stamp)
    }

    /// The least id of those that start or commit at the stamp.
    pub fn least_with_stamp(&self, stamp: Stamp) -> Option<TxnId>
        ensures { IsLeast (has_any self.now stamp) result }
    {
        let commits = lesser_of(self.installs.least(stamp), self.others.least(stamp));
        lesser_of(self.starts.least(stamp), commits)
    }

    /// The writer of the value to the key.
    pub fn writer(&self, key: &Key, value: Value) -> Option<TxnId>
        ensures { result ≡ writer_of self.now.written (Op.Write key.now value) }
    {
        self.writers.writer_of_pair(key, value)
    }

    /// From now on the indexes have the transaction's stamps and pairs, of which they had nothing.
    pub fn add(&mut self, txn: &Txn) -> Result<(), OutOfMemory>
        requires { LacksTxn txn.now self.old }
        ensures ok { OnOk result (SetsTxn txn.now true (Some txn.now.id) self.old self.new) }
        ensures err { OnErr result (SameIndexes self.old self.new) }
    {
        self.writers.add_all(txn.ops.as_slice(), txn.id)?;
        if let Err(refused) = self.add_stamps(txn) {
            self.writers.remove_all(txn.ops.as_slice());
            return Err(refused);
        }
        Ok(())
    }

    /// Adds the transaction's start, and its commit if it has one, or neither.
    fn add_stamps(&mut self, txn: &Txn) -> Result<(), OutOfMemory>
        requires { has self.old.starts txn.now.start txn.now.id ≡ false }
        ensures starts { OnOk result (Sets txn.now.start txn.now.id true self.old.starts self.new.starts) }
        ensures commit { OnOk result (SetsStamp (writes_some txn.now) (commit_of txn.now.status) txn.now.id true self.old self.new) }
        ensures written { self.new.written ≡ self.old.written }
        ensures err { OnErr result (SameHolders self.old.starts self.new.starts) }
        ensures same { OnErr result (self.new ≡ record self.old { starts = self.new.starts }) }
    {
        self.starts.add(txn.start, txn.id)?;
        if let Err(refused) = self.add_commit(txn.status.commit(), txn.writes(), txn.id) {
            self.starts.remove(txn.start, txn.id);
            return Err(refused);
        }
        Ok(())
    }

    /// From now on the transaction, which writes or doesn't, commits at the stamp if there is one.
    pub fn add_commit(
        &mut self,
        commit: Option<Stamp>,
        writes: bool,
        id: TxnId,
    ) -> Result<(), OutOfMemory>
        ensures commit { OnOk result (SetsStamp writes commit id true self.old self.new) }
        ensures rest { OnOk result (self.new ≡ record self.old { installs = self.new.installs; others = self.new.others }) }
        ensures err { OnErr result (self.new ≡ self.old) }
    {
        match commit {
            Some(stamp) if writes => self.installs.add(stamp, id),
            Some(stamp) => self.others.add(stamp, id),
            None => Ok(()),
        }
    }

    /// From now on the indexes have none of the transaction's stamps and pairs.
    pub fn remove(&mut self, txn: &Txn)
        ensures { SetsTxn txn.now false None self.old self.new }
    {
        self.writers.remove_all(txn.ops.as_slice());
        self.starts.remove(txn.start, txn.id);
        self.remove_commit(txn);
    }

    fn remove_commit(&mut self, txn: &Txn)
        ensures commit { SetsStamp (writes_some txn.now) (commit_of txn.now.status) txn.now.id false self.old self.new }
        ensures rest { self.new ≡ record self.old { installs = self.new.installs; others = self.new.others } }
    {
        match txn.status.commit() {
            Some(commit) if txn.writes() => self.installs.remove(commit, txn.id),
            Some(commit) => self.others.remove(commit, txn.id),
            None => {}
        }
    }
}

/// The lesser of two ids, or the one that there is.
fn lesser_of(first: Option<TxnId>, second: Option<TxnId>) -> Option<TxnId>
    ensures { result ≡ lesser_of first second }
{
    match (first, second) {
        (Some(first), Some(second)) if second < first => Some(second),
        (Some(first), _) => Some(first),
        (None, second) => second,
    }
}
