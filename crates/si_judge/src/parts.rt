//! The transactions on a key, found by their ids.

ghost use Rattle.std.specs.Prelude.{◌≡◌, ◌≢◌, ◌↔◌, ◌++◌, ◌∷◌, [], IsTrue, OnOk};
ghost use Rattle.std.specs.List.{Contains};
ghost use Rattle.si_model.specs.declared.parts.Part.{Part};
ghost use Rattle.si_model.specs.Laws.{HaveSame};
ghost use Rattle.si_judge.specs.KeyParts.{AreNamedApart, IsLeftBy};

use si_model::{OutOfMemory, Part, TxnId};
use std::alloc::Global;
use std::collections::BTreeMap;
use std::marker::Model;

/// The transactions on a key, under their ids. Contracts see their list, whose order means nothing.
#[derive(Drop)]
pub struct KeyParts {
    parts: BTreeMap<TxnId, Part>,
}

impl Model for KeyParts {
    ghost use Rattle.std.specs.Prelude.{List};
    ghost use Rattle.std.specs.BTreeMap.{values};
    ghost use Rattle.si_model.specs.declared.parts.Part.{Part as Seen};
    ghost use Rattle.si_judge.specs.KeyParts.{AreById};

    ghost Value = { List Seen };

    ghost view = { λ p. values p.parts };

    ghost invariant = { λ p. AreById p.parts };
}

impl KeyParts {
    /// No transaction.
    pub fn new(alloc: Global) -> Self
        ensures { result ≡ [] }
    {
        KeyParts {
            parts: BTreeMap::new(alloc),
        }
    }

    /// Puts a transaction in, whose id none has.
    pub fn insert(&mut self, part: Part) -> Result<(), OutOfMemory>
        requires { (X : Part) → Contains self.old X → X.id ≢ part.id }
        ensures same { OnOk result (HaveSame (self.old ++ part ∷ []) self.new) }
        ensures named { OnOk result (AreNamedApart self.new) }
    {
        drop(self.parts.insert(part.id, part)?);
        Ok(())
    }

    /// Takes the transaction of that id out.
    pub fn remove(&mut self, id: TxnId) -> Part
        requires { (T : Part) × Contains self.old T × (T.id ≡ id) }
        ensures id { result.id ≡ id }
        ensures left { IsLeftBy result self.old self.new }
        ensures named { AreNamedApart self.new }
    {
        self.parts.remove(&id).unwrap()
    }

    /// Whether there is none.
    pub fn is_empty(&self) -> bool
        ensures { IsTrue result ↔ (self.now ≡ []) }
    {
        self.parts.is_empty()
    }
}
