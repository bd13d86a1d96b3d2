//! An index of stamps: who has which, with the least of those that have the same.

ghost use Rattle.std.specs.Prelude.{◌≡◌, [], OnOk, OnErr, true, false};
ghost use Rattle.si_accept.specs.Stamps.{has, IsLeast, Sets};

use si_model::{OutOfMemory, Stamp, TxnId};
use si_sorted::SortedMap;
use std::alloc::Global;
use std::marker::Model;

/// Stamps with the transactions that have them. Contracts see the pairs.
#[derive(Drop)]
pub struct Stamps {
    // Pairs of a stamp and the id of a transaction that has it, so that the least id of a stamp comes first. Stamps mostly rise,
    // so that the last pair is the one to look at.
    holders: SortedMap<(u64, u64), ()>,
}

impl Model for Stamps {
    ghost use Rattle.std.specs.Prelude.{List, ℕ};
    ghost use Rattle.std.specs.Map.{keys_of};

    ghost Value = { List (ℕ × ℕ) };

    ghost view = { λ s. keys_of s.holders };
}

impl Stamps {
    /// No transaction has a stamp.
    pub fn new(alloc: Global) -> Self
        ensures { result ≡ [] }
    {
        Stamps {
            holders: SortedMap::new(alloc),
        }
    }

    /// The least id of the transactions that have the stamp.
    pub fn least(&self, stamp: Stamp) -> Option<TxnId>
        ensures { IsLeast (has self.now stamp) result }
    {
        match self.holders.from((stamp.0, 0)) {
            Some(((found, id), ())) => {
                if found == stamp.0 {
                    Some(TxnId(id))
                } else {
                    None
                }
            }
            None => None,
        }
    }

    /// The transaction has the stamp from now on.
    pub fn add(&mut self, stamp: Stamp, id: TxnId) -> Result<(), OutOfMemory>
        ensures ok { OnOk result (Sets stamp id true self.old self.new) }
        ensures err { OnErr result (self.new ≡ self.old) }
    {
        self.holders.insert((stamp.0, id.0), ())?;
        Ok(())
    }

    /// The transaction doesn't have the stamp any more.
    pub fn remove(&mut self, stamp: Stamp, id: TxnId)
        ensures { Sets stamp id false self.old self.new }
    {
        let _was_there = self.holders.remove((stamp.0, id.0));
    }
}
