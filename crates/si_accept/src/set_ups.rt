//! The values that keys were set up with, found by the key.

ghost use Rattle.std.specs.Prelude.{◌≡◌, [], ◌∷◌, ◌++◌, None, OnOk, OnErr, IfOk};
ghost use Rattle.si_model.specs.Parts.{set_up_value};

use indexmap::IndexMap;
use si_hashing::KeyHash;
use si_model::{Key, OutOfMemory, Value};
use std::alloc::Global;
use std::hash::RandomState;
use std::marker::Model;

/// The values that keys were set up with, in the order of arrival. Contracts see the pairs.
#[derive(Drop)]
pub struct SetUps {
    alloc: Global,
    values: IndexMap<Key, Value, KeyHash>,
}

impl Model for SetUps {
    ghost use Rattle.si_accept.specs.SetUps.{KeyValues};

    ghost Value = { KeyValues };

    ghost view = { λ s. s.values.entries };
}

impl SetUps {
    /// No key is set up.
    pub fn new(alloc: Global, hash: RandomState) -> Self
        ensures { result ≡ [] }
    {
        SetUps {
            alloc,
            values: IndexMap::with_hasher(alloc, KeyHash::with_secret(hash)),
        }
    }

    /// The value that the key was set up with.
    #[tactic(auto, using(crate::proofs::SetUpFinds::set_up_found))]
    pub fn value(&self, key: &Key) -> Option<Value>
        ensures { result ≡ set_up_value key.now self.now }
    {
        // Mostly no key is set up, and then none is hashed.
        if self.values.is_empty() {
            return None;
        }
        self.values.get(key).copied()
    }

    /// The key is set up with the value. It must not be set up already.
    #[tactic(auto, using(crate::proofs::SetUpFinds::set_up_found))]
    pub fn add(&mut self, key: Key, value: Value) -> Result<(), OutOfMemory>
        requires { set_up_value key self.old ≡ None }
        ensures ok { OnOk result (self.new ≡ self.old ++ (key, value) ∷ []) }
        ensures err { OnErr result (self.new ≡ self.old) }
    {
        self.values.insert(key, value)?;
        Ok(())
    }

    /// Copies of the pairs, in the order of arrival.
    pub fn to_vec(&self) -> Result<Vec<(Key, Value)>, OutOfMemory>
        ensures { IfOk result (λ pairs. pairs.items ≡ self.now) }
    {
        let mut copies = Vec::with_capacity(self.alloc, self.values.len())?;
        for (key, value) in &self.values {
            copies.push((key.try_clone()?, *value))?;
        }
        Ok(copies)
    }
}
