//! The longer keys that were read, so that one that comes again shares the text of the first.
//!
//! A history names the same keys again and again. Copies that share one text take less memory. A short text stands in the key
//! itself, so that there is nothing to share.

ghost use Rattle.std.specs.Prelude.{◌≡◌, ◌⊎◌, ◌∷◌, ◌++◌, [], IfOk, length, take};
ghost use Rattle.si_model.specs.KeyTexts.{IsKeyText};

use indexmap::IndexMap;
use json::Scratch;
use si_model::keys::MOST_INLINE_BYTES;
use si_model::{Key, Op, OutOfMemory};
use std::alloc::Global;
use std::hash::{BuildHasher, RandomState};
use std::marker::Model;

/// Longer keys that were read, in the order in which each came first. Contracts see the list of their texts.
#[derive(Drop)]
pub struct KnownKeys {
    pub(crate) shared: SharedKeys,
    /// The memory by which a line is read token by token, kept from line to line.
    pub(crate) scratch: Scratch,
    /// The list in which a line's operations are gathered, kept too.
    pub(crate) ops: Vec<Op>,
}

impl Model for KnownKeys {
    ghost use Rattle.std.specs.Prelude.{List, ℕ};

    ghost Value = { List (List ℕ) };

    ghost view = { λ k. k.shared };
}

impl KnownKeys {
    /// No key is known yet. The secret key of the hash is what keeps a text from being chosen for the hash of another.
    pub fn new(alloc: Global, hash: RandomState) -> Self
        ensures { result ≡ [] }
    {
        KnownKeys {
            shared: SharedKeys::new(alloc, Some(hash)),
            scratch: Scratch::new(alloc),
            ops: Vec::new(alloc),
        }
    }

    /// No key is ever known: each one gets a text of its own.
    pub(crate) fn none(alloc: Global) -> Self
        ensures { result ≡ [] }
    {
        KnownKeys {
            shared: SharedKeys::new(alloc, None),
            scratch: Scratch::new(alloc),
            ops: Vec::new(alloc),
        }
    }

    /// The key with this text. Of a longer one it is a copy of the known one, which shares its text, or else a new one, which is
    /// known from then on unless another known text has its hash.
    pub fn key(&mut self, text: &str) -> Result<Key, OutOfMemory>
        requires { IsKeyText text.now }
        ensures key { IfOk result (λ key. key ≡ text.now) }

        // What is known stays so in its place.
        ensures known { (self.new ≡ self.old) ⊎ (self.new ≡ self.old ++ text.now ∷ []) }
    {
        self.shared.key(text)
    }

    /// How many keys are known.
    pub fn len(&self) -> usize
        ensures { result ≡ length self.now }
    {
        self.shared.len()
    }

    /// Forgets the keys that came after the first so many.
    pub fn truncate(&mut self, len: usize)
        ensures { self.new ≡ take len self.old }
    {
        self.shared.truncate(len);
    }
}

/// The keys themselves, apart from the scratch, which is lent out while a line is read.
#[derive(Drop)]
pub(crate) struct SharedKeys {
    alloc: Global,
    /// What a text's hash is computed by; none where no key is to be known.
    hash: Option<RandomState>,
    /// The keys by the hashes of their texts, so that a look-up makes no key of its own.
    known: IndexMap<u64, Key>,
}

impl Model for SharedKeys {
    ghost use Rattle.std.specs.Prelude.{List, ℕ};
    ghost use Rattle.indexmap.specs.IndexMap.{values};

    ghost Value = { List (List ℕ) };

    ghost view = { λ k. values k.known };
}

impl SharedKeys {
    fn new(alloc: Global, hash: Option<RandomState>) -> Self
        ensures { result ≡ [] }
    {
        SharedKeys {
            alloc,
            hash,
            known: IndexMap::new(alloc),
        }
    }

    /// As that of `KnownKeys`.
    pub(crate) fn key(&mut self, text: &str) -> Result<Key, OutOfMemory>
        requires { IsKeyText text.now }
        ensures key { IfOk result (λ key. key ≡ text.now) }
        ensures known { (self.new ≡ self.old) ⊎ (self.new ≡ self.old ++ text.now ∷ []) }
    {
        let Some(builder) = self.hash else {
            return Key::new(self.alloc, text);
        };
        if text.len() <= MOST_INLINE_BYTES {
            return Key::new(self.alloc, text);
        }
        let hash = builder.hash_one(text);
        match self.known.get(&hash) {
            Some(known) if known.as_str() == text => return known.try_clone(),
            Some(_) => return Key::new(self.alloc, text),
            None => {}
        }
        let key = Key::new(self.alloc, text)?;
        self.known.insert(hash, key.try_clone()?)?;
        Ok(key)
    }

    fn len(&self) -> usize
        ensures { result ≡ length self.now }
    {
        self.known.len()
    }

    fn truncate(&mut self, len: usize)
        ensures { self.new ≡ take len self.old }
    {
        self.known.truncate(len);
    }
}
