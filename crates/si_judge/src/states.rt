//! The state of one key: its findings with the transactions beside them, so that an edit is asked for by an id, and whether memory was
//! refused to one.

ghost use Rattle.std.specs.Prelude.{◌≡◌, ◌↔◌, List, [], None, Option, Err, false, true, IfErr, IfOk, IsTrue, OnErr, OnOk};
ghost use Rattle.std.specs.List.{Contains};
ghost use Rattle.si_model.specs.declared.parts.OnKey.{OnKey};
ghost use Rattle.si_model.specs.declared.findings.Finding.{Finding};
ghost use Rattle.si_model.specs.Findings.{findings_on};
ghost use Rattle.si_model.specs.History.{IsOfHistory};
ghost use Rattle.si_model.specs.KeyEdits.{arrived_on, resolved_on, set_up_on, withdrawn_on};
ghost use Rattle.si_judge.specs.declared.states.KeyFault.TheVariants as fault;
ghost use Rattle.si_judge.specs.Touched.{IsTouched, IsTouchedBySetUp};
ghost use Rattle.si_judge.specs.States.{HasDoubt, HasPart, IsMended, IsSpoiledBy, key_fault_code};

use crate::Judge;
use crate::key_findings::KeyFindings;
use crate::parts::KeyParts;
use si_model::{Finding, Key, Outcome, Part, TxnId, Value};
use std::alloc::{AllocError, AllocFailed, Global};
use std::marker::Model;
use thiserror::Error;

/// Why a call on the state of a key gave nothing.
#[derive(Clone, Copy, Debug, PartialEq, Eq, Error)]
pub enum KeyFault {
    /// Memory was refused to an earlier edit, and the call changed nothing. A key's state stays spoiled for good, a shard until it is
    /// rebuilt.
    #[error("spoiled")]
    Spoiled,
    /// The growth of some memory was refused. An edit that answers this has spoiled the state; `findings` leaves it as it was.
    #[error("out of memory")]
    OutOfMemory,
}

impl KeyFault {
    /// The number of the fault, where it has one.
    pub fn code(&self) -> Option<u64>
        ensures { result ≡ key_fault_code self.now }
    {
        match self {
            KeyFault::Spoiled => Some(41),
            KeyFault::OutOfMemory => None,
        }
    }
}

impl From<AllocError> for KeyFault {
    ghost use Rattle.std.specs.Prelude.{◌≡◌};
    ghost use Rattle.si_judge.specs.declared.states.KeyFault.TheVariants.{OutOfMemory};

    ghost from_gives = { λ _ fault. fault ≡ OutOfMemory };

    fn from(_error: AllocError) -> Self {
        KeyFault::OutOfMemory
    }
}

impl<T: Drop> From<AllocFailed<T>> for KeyFault {
    ghost use Rattle.std.specs.Prelude.{◌≡◌};
    ghost use Rattle.si_judge.specs.declared.states.KeyFault.TheVariants.{OutOfMemory};

    ghost from_gives = { λ _ fault. fault ≡ OutOfMemory };

    fn from(_error: AllocFailed<T>) -> Self {
        KeyFault::OutOfMemory
    }
}

/// What is on one key, and the findings there, mended after each edit.
///
/// An edit for which the growth of some memory is refused spoils the state for good: what is on the key is then not known, and
/// every later edit and `findings` answers `Spoiled`.
#[derive(Drop)]
pub struct KeyState<J: Judge + Drop> {
    findings: KeyFindings<J>,
    // The transactions on the key.
    parts: KeyParts,
    // True from the beginning of an edit until it is whole, and so for good once memory was refused to one.
    spoiled: bool,
}

impl<J: Judge + Drop> Model for KeyState<J> {
    ghost use Rattle.std.specs.Prelude.{◌≡◌, false};
    ghost use Rattle.si_judge.specs.Kept.{Shows};
    ghost use Rattle.si_judge.specs.States.{State, present_of};

    ghost Value = { State };

    ghost view = { λ s. record {
      key = s.findings.key;
      present = present_of s.findings s.parts;
      judged = s.findings.judged;
      spoiled = s.spoiled;
    } };

    ghost invariant = { λ s. s.spoiled ≡ false → Shows J.rules (present_of s.findings s.parts) s.findings };
}

impl<J: Judge + Drop> KeyState<J> {
    /// The state of a key on which nothing is. It takes no memory.
    pub fn new(alloc: Global, key: Key, judge: J) -> Self
        ensures { result ≡ record {
          key = key;
          present = record { initial = None; parts = [] };
          judged = J.answers judge;
          spoiled = false;
        } }
    {
        KeyState {
            findings: KeyFindings::new(alloc, key, judge),
            parts: KeyParts::new(alloc),
            spoiled: false,
        }
    }

    /// A transaction arrives that does this on the key.
    ///
    /// `Spoiled` says that memory was refused to an earlier edit, and the state stays as it is; `OutOfMemory` that the growth of some
    /// memory was refused, and the state is spoiled from then on.
    pub fn arrive(&mut self, part: Part) -> Result<(), KeyFault>
        requires { self.old.spoiled ≡ false → IsOfHistory (arrived_on part self.old.present) }
        ensures ok { OnOk result (IsMended (IsTouched self.old.present self.new.present part.id) (arrived_on part self.old.present) self.old self.new) }
        ensures spoiled { (result ≡ Err fault.Spoiled) ↔ (self.old.spoiled ≡ true) }
        ensures unchanged { self.old.spoiled ≡ true → self.new ≡ self.old }
        ensures wanting { OnErr result (IsSpoiledBy self.old self.new) }
    {
        begin(&mut self.spoiled)?;
        self.findings.arrive(&part)?;
        self.parts.insert(part)?;
        self.spoiled = false;
        Ok(())
    }

    /// The transaction, which is in doubt, is resolved.
    ///
    /// `Spoiled` says that memory was refused to an earlier edit, and the state stays as it is; `OutOfMemory` that the growth of some
    /// memory was refused, and the state is spoiled from then on.
    pub fn resolve(&mut self, id: TxnId, outcome: Outcome) -> Result<(), KeyFault>
        requires { self.old.spoiled ≡ false → HasDoubt self.old.present id × IsOfHistory (resolved_on id outcome self.old.present) }
        ensures ok { OnOk result (IsMended (IsTouched self.old.present self.new.present id) (resolved_on id outcome self.old.present) self.old self.new) }
        ensures spoiled { (result ≡ Err fault.Spoiled) ↔ (self.old.spoiled ≡ true) }
        ensures unchanged { self.old.spoiled ≡ true → self.new ≡ self.old }
        ensures wanting { OnErr result (IsSpoiledBy self.old self.new) }
    {
        begin(&mut self.spoiled)?;
        let mut part = self.parts.remove(id);
        self.findings.resolve(&mut part, outcome)?;
        self.parts.insert(part)?;
        self.spoiled = false;
        Ok(())
    }

    /// The transaction is withdrawn.
    ///
    /// `Spoiled` says that memory was refused to an earlier edit, and the state stays as it is; `OutOfMemory` that the growth of some
    /// memory was refused, and the state is spoiled from then on.
    pub fn withdraw(&mut self, id: TxnId) -> Result<(), KeyFault>
        requires { self.old.spoiled ≡ false → HasPart self.old.present id }
        ensures ok { OnOk result (IsMended (IsTouched self.old.present self.new.present id) (withdrawn_on id self.old.present) self.old self.new) }
        ensures spoiled { (result ≡ Err fault.Spoiled) ↔ (self.old.spoiled ≡ true) }
        ensures unchanged { self.old.spoiled ≡ true → self.new ≡ self.old }
        ensures wanting { OnErr result (IsSpoiledBy self.old self.new) }
    {
        begin(&mut self.spoiled)?;
        let part = self.parts.remove(id);
        self.findings.withdraw(&part)?;
        self.spoiled = false;
        Ok(())
    }

    /// The key is set up with the value.
    ///
    /// `Spoiled` says that memory was refused to an earlier edit, and the state stays as it is; `OutOfMemory` that the growth of some
    /// memory was refused, and the state is spoiled from then on.
    pub fn set_up(&mut self, value: Value) -> Result<(), KeyFault>
        requires { self.old.spoiled ≡ false → (self.old.present.initial ≡ None) × IsOfHistory (set_up_on value self.old.present) }
        ensures ok { OnOk result (IsMended (IsTouchedBySetUp self.new.present value) (set_up_on value self.old.present) self.old self.new) }
        ensures spoiled { (result ≡ Err fault.Spoiled) ↔ (self.old.spoiled ≡ true) }
        ensures unchanged { self.old.spoiled ≡ true → self.new ≡ self.old }
        ensures wanting { OnErr result (IsSpoiledBy self.old self.new) }
    {
        begin(&mut self.spoiled)?;
        self.findings.set_up(value)?;
        self.spoiled = false;
        Ok(())
    }

    /// The findings on the key, in order.
    ///
    /// `Spoiled` says that memory was refused to an earlier edit, `OutOfMemory` that the growth of some memory was refused for them. The
    /// state stays as it is.
    pub fn findings(&self) -> Result<Vec<Finding>, KeyFault>
        ensures ok { IfOk result (λ found. found.items ≡ findings_on J.rules self.now.key self.now.present) }
        ensures spoiled { (result ≡ Err fault.Spoiled) ↔ (self.now.spoiled ≡ true) }
    {
        if self.spoiled {
            return Err(KeyFault::Spoiled);
        }
        Ok(self.findings.findings()?)
    }

    /// How many answers the judge has given, in this state's time and before it.
    pub fn judged(&self) -> u64
        ensures { result ≡ self.now.judged }
    {
        self.findings.judged()
    }

    /// Whether memory was refused to an edit. It stays so for good.
    pub fn is_spoiled(&self) -> bool
        ensures { result ≡ self.now.spoiled }
    {
        self.spoiled
    }

    /// Whether nothing is on the key: no transaction and no set-up value. It means nothing of a spoiled state.
    pub fn is_empty(&self) -> bool
        ensures { IsTrue result ↔ ((self.now.present.parts ≡ []) × (self.now.present.initial ≡ None)) }
    {
        self.parts.is_empty() && self.findings.initial() == None
    }

    /// Whether anything is found on the key. It means nothing of a spoiled state.
    pub fn has_findings(&self) -> bool
        ensures { self.now.spoiled ≡ false → IsTrue result ↔ ((f : Finding) × Contains (findings_on J.rules self.now.key self.now.present) f) }
    {
        self.findings.has_findings()
    }
}

/// Begins an edit of a key's state, which is spoiled until the edit is whole. Where an earlier one has spoiled it, none begins.
fn begin(spoiled: &mut bool) -> Result<(), KeyFault>
    ensures ok { OnOk result (spoiled.old ≡ false) }
    ensures spoiled { (result ≡ Err fault.Spoiled) ↔ (spoiled.old ≡ true) }
    ensures begun { spoiled.new ≡ true }
{
    if *spoiled {
        return Err(KeyFault::Spoiled);
    }
    *spoiled = true;
    Ok(())
}
