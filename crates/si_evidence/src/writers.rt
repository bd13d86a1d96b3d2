//! Transactions by the keys that they write: in buckets, so that few are walked.

ghost use Rattle.std.specs.Prelude.{◌≡◌, ◌++◌, ◌∷◌, [], ◌<◌, OnOk, IfOk, length, slice_set};
ghost use Rattle.std.specs.List.{list_all};
ghost use Rattle.si_model.specs.KeyTexts.{shard_number};
ghost use Rattle.si_graph.specs.EvidenceTests.{stays_out};
ghost use Rattle.si_evidence.specs.Writers.{AreBuckets, AreEmpty, Puts, bucket_of};

use si_graph::versions::stays_out;
use si_model::{Key, Op, OutOfMemory, Stamp, Txn, VersionId, shard_of};
use std::alloc::Global;
use std::marker::Model;

/// The transactions that write one of some keys. Contracts see their list.
#[derive(Drop)]
pub struct Bucket {
    // Copies, which share the operations.
    txns: Vec<Txn>,
}

impl Model for Bucket {
    ghost use Rattle.std.specs.Prelude.{List};
    ghost use Rattle.si_model.specs.declared.transactions.Txn.{Txn};

    ghost Value = { List Txn };

    ghost view = { λ b. b.txns.items };
}

impl Bucket {
    fn new(alloc: Global) -> Self
        ensures { result ≡ [] }
    {
        Bucket {
            txns: Vec::new(alloc),
        }
    }

    fn push(&mut self, txn: &Txn) -> Result<(), OutOfMemory>
        ensures ok { OnOk result (self.new ≡ self.old ++ txn.now ∷ []) }
    {
        self.txns.push(txn.try_clone()?)?;
        Ok(())
    }

    /// Whether none of them installs a version of the key between these two.
    fn all_stay_out(&self, key: &Key, after: VersionId, commit: Stamp) -> bool
        ensures { result ≡ list_all (stays_out key.now after commit) self.now }
    {
        self.txns
            .iter()
            .all(|txn| stays_out(key, after, commit, txn))
    }
}

/// The most buckets that there are.
const MOST_BUCKETS: usize = 1_048_576;

/// Transactions in buckets, by the hashes of the keys that they write. Contracts see the lists.
#[derive(Drop)]
pub struct Writers {
    buckets: Vec<Bucket>,
}

impl Model for Writers {
    ghost use Rattle.std.specs.Prelude.{List, ◌<◌, length};
    ghost use Rattle.si_model.specs.declared.transactions.Txn.{Txn};

    ghost Value = { List (List Txn) };

    ghost view = { λ w. w.buckets.items };

    ghost invariant = { λ w. 0 < length w.buckets.items };
}

impl Writers {
    /// The writers among these transactions.
    pub fn of(alloc: Global, txns: &[Txn]) -> Result<Self, OutOfMemory>
        ensures { IfOk result (AreBuckets txns.now) }
    {
        let mut writers = Writers::new(alloc, txns.len().min(MOST_BUCKETS))?;
        for txn in txns {
            writers.add_txn(txn)?;
        }
        Ok(writers)
    }

    /// So many empty buckets, and one more.
    fn new(alloc: Global, more: usize) -> Result<Self, OutOfMemory>
        ensures { IfOk result AreEmpty }
    {
        let mut buckets = Vec::new(alloc);
        buckets.push(Bucket::new(alloc))?;
        for _turn in 0..more {
            buckets.push(Bucket::new(alloc))?;
        }
        Ok(Writers { buckets })
    }

    /// Puts the transaction into the buckets of the keys that it writes.
    fn add_txn(&mut self, txn: &Txn) -> Result<(), OutOfMemory>
        ensures { OnOk result (Puts txn.now txn.now.ops self.old self.new) }
    {
        for op in txn.ops.as_slice() {
            self.add_op(txn, op)?;
        }
        Ok(())
    }

    /// Puts the transaction into the bucket of the operation's key, if it writes that.
    fn add_op(&mut self, txn: &Txn, op: &Op) -> Result<(), OutOfMemory>
        ensures { OnOk result (Puts txn.now (op.now ∷ []) self.old self.new) }
    {
        match op {
            Op::Read(..) => Ok(()),
            Op::Write(key, _) => self.put(key, txn),
        }
    }

    /// Puts the transaction into the bucket of the key.
    fn put(&mut self, key: &Key, txn: &Txn) -> Result<(), OutOfMemory>
        ensures within { shard_number key.now (length self.old) < length self.old }
        ensures ok { OnOk result (self.new ≡ slice_set self.old (shard_number key.now (length self.old)) (bucket_of key.now self.old ++ txn.now ∷ [])) }
    {
        let number = shard_of(key, self.buckets.len());
        self.buckets[number].push(txn)?;
        Ok(())
    }

    /// Whether none of those in the key's bucket installs a version of it between these two.
    pub fn all_stay_out(&self, key: &Key, after: VersionId, commit: Stamp) -> bool
        ensures { result ≡ list_all (stays_out key.now after commit) (bucket_of key.now self.now) }
    {
        let number = shard_of(key, self.buckets.len());
        self.buckets[number].all_stay_out(key, after, commit)
    }
}
