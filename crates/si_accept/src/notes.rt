//! Which transactions the resolutions and withdrawals of the journal are about, as they were before: what is present tells that only
//! until the edit is accepted.

ghost use Rattle.std.specs.Prelude.{◌≡◌, ◌≤◌, ◌↔◌, ℕ, nat_eq, if◌then◌else◌, Some, None, OnErr, OnOk, length, List, [], max};
ghost use Rattle.std.specs.Option.{option_copied};
ghost use Rattle.std.specs.HashMap.{get, IsUnchanged, Updates};
ghost use Rattle.si_model.specs.declared.edits.Edit.{Edit as AnEdit};
ghost use Rattle.si_accept.specs.Notes.{AreNotes, noted_at};

use si_hashing::NumberHash;
use si_model::{OutOfMemory, Txn};
use std::alloc::Global;
use std::collections::HashMap;
use std::hash::RandomState;
use std::mem;

/// Notes of transactions by the places of the edits. They go in two parts: the older one is let go as a whole once nobody asks for its
/// places, and the newer one becomes the older then. So a note costs nothing to let go, and few stay longer than they are asked for.
#[derive(Drop)]
pub struct Notes {
    alloc: Global,
    hash: RandomState,
    older: HashMap<u64, Txn, NumberHash>,
    newer: HashMap<u64, Txn, NumberHash>,
    // From this place on all that was added is kept.
    pub from: usize,
    // Notes of places before this one are among the older.
    middle: usize,
}

impl Notes {
    /// None.
    pub fn new(alloc: Global, hash: RandomState) -> Self
        ensures notes { AreNotes [] result }
        ensures from { result.from ≡ 0 }
    {
        Notes {
            alloc,
            hash,
            older: HashMap::with_hasher(alloc, NumberHash::with_secret(hash)),
            newer: HashMap::with_hasher(alloc, NumberHash::with_secret(hash)),
            from: 0,
            middle: 0,
        }
    }

    /// The transaction is noted for that place. After refused memory nothing changes.
    pub fn add(&mut self, place: usize, txn: Txn) -> Result<(), OutOfMemory>
        ensures others { self.new ≡ record self.old { newer = self.new.newer } }
        ensures ok { OnOk result (Updates nat_eq self.old.newer self.new.newer place (Some txn)) }
        ensures err { OnErr result (IsUnchanged self.old.newer self.new.newer) }
    {
        self.newer.insert(place as u64, txn)?;
        Ok(())
    }

    /// The transaction that is noted for that place.
    pub fn get(&self, place: usize) -> Option<&Txn>
        ensures { option_copied result ≡ noted_at self.now place }
    {
        if place < self.middle {
            self.older.get(&(place as u64))
        } else {
            self.newer.get(&(place as u64))
        }
    }

    /// Lets notes of places before the first one go. So many edits are in the journal.
    pub fn forget(&mut self, first: usize, edits: usize)
        ensures notes { (J : List AnEdit) → AreNotes J self.old → length J ≡ edits → AreNotes J self.new }
        ensures onward { self.old.from ≤ self.old.middle → self.old.from ≤ self.new.from }
        ensures kept { self.new.from ≤ max self.old.from first }
    {
        if self.middle > first || self.middle >= edits {
            return;
        }
        let empty = HashMap::with_hasher(self.alloc, NumberHash::with_secret(self.hash));
        self.older = mem::replace(&mut self.newer, empty);
        self.from = self.middle;
        self.middle = edits;
    }
}
