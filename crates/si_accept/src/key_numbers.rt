//! Numbers for keys, so that an index by keys needs no copy of a key for a look-up, and its entries are small.

ghost use Rattle.std.specs.Prelude.{◌≡◌, [], Some, IfOk, IfSome, OnOk, OnErr, length};
ghost use Rattle.si_accept.specs.KeyNumbers.{number_of, with_key};

use indexmap::IndexSet;
use si_hashing::{Hints, KeyHash};
use si_model::{Key, OutOfMemory};
use std::alloc::Global;
use std::hash::RandomState;
use std::marker::Model;

/// Keys with numbers in the order in which they were first seen, from 0. A key keeps its number.
#[derive(Drop)]
pub struct KeyNumbers {
    keys: IndexSet<Key, KeyHash>,
    hints: Hints,
}

impl Model for KeyNumbers {
    ghost use Rattle.std.specs.Prelude.{List, ℕ};

    ghost Value = { List (List ℕ) };

    ghost view = { λ k. k.keys.keys };
}

impl KeyNumbers {
    /// No key has a number.
    pub fn new(alloc: Global, hash: RandomState) -> Self
        ensures { result ≡ [] }
    {
        KeyNumbers {
            keys: IndexSet::with_hasher(alloc, KeyHash::with_secret(hash)),
            hints: Hints::new(alloc),
        }
    }

    /// The number of the key, if it has one.
    pub fn number(&self, key: &Key) -> Option<usize>
        ensures { result ≡ number_of self.now key.now }
    {
        match self.hinted(key) {
            Some(number) => Some(number),
            None => self.keys.get_index_of(key),
        }
    }

    /// The number of the key, where a hint leads to it.
    fn hinted(&self, key: &Key) -> Option<usize>
        ensures { IfSome result (λ number. number_of self.now key.now ≡ Some number) }
    {
        let number = self.hints.place(key.shard_hash());
        match self.keys.as_slice().get(number) {
            Some(there) if there == key => Some(number),
            _ => None,
        }
    }

    /// How many keys have numbers.
    pub fn len(&self) -> usize
        ensures { result ≡ length self.now }
    {
        self.keys.len()
    }

    /// The number of the key, which gets one if it has none.
    pub fn add(&mut self, key: &Key) -> Result<usize, OutOfMemory>
        ensures number { IfOk result (λ number. number_of self.new key.now ≡ Some number) }
        ensures ok { OnOk result (self.new ≡ with_key self.old key.now) }
        ensures err { OnErr result (self.new ≡ self.old) }
    {
        if let Some(number) = self.hinted(key) {
            return Ok(number);
        }
        let (number, _is_new) = self.keys.insert_full(key.try_clone()?)?;
        self.hints.note(key.shard_hash(), number, self.keys.len());
        Ok(number)
    }
}
