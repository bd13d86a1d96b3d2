//! The state of one key, and beside it what is present as the plain program has it.

ghost use Rattle.std.specs.Prelude.{◌≡◌, ◌↔◌, IfOk, IsTrue, OnOk};
ghost use Rattle.si_model.specs.declared.edits.Edit.TheVariants as edit;
ghost use Rattle.si_model.specs.Edits.{IsAcceptable, after};
ghost use Rattle.si_model.specs.History.{IsHistory};
ghost use Rattle.si_model.specs.Parts.{Present, on_key};
ghost use Rattle.si_judge.specs.Following.{IsStateOf};
ghost use Rattle.si_judge.specs.States.{HasPart};

use super::bounds::most_judgements;
use super::*;
use si_judge::{Cases, KeyFault, KeyState};
use si_model::parts::{on_key, part_of};
use si_model::plain::{Walked, change, find_with_id};
use si_model::{
    Edit, Finding, Key, OnKey, OutOfMemory, Outcome, Refusal, Txn, TxnId, Value, findings_of,
    refusal_on,
};
use std::alloc::Global;
use std::marker::Model;

/// The state of one key, and what is present.
#[derive(Drop)]
pub(super) struct Beside {
    alloc: Global,
    key: Key,
    pub(super) state: KeyState<Cases>,
    txns: Vec<Txn>,
    initial: Vec<(Key, Value)>,
    // False from the beginning of an edit until both have it.
    whole: bool,
}

impl Model for Beside {
    ghost use Rattle.std.specs.Prelude.{◌≡◌, Bool, true};
    ghost use Rattle.si_model.specs.History.{IsHistory};
    ghost use Rattle.si_judge.specs.Following.{IsStateOf};

    ghost Value = { Bool };

    ghost view = { λ b. b.whole };

    ghost invariant = { λ b. b.whole ≡ true → IsHistory (record { txns = b.txns.items; initial = b.initial.items })
        × IsStateOf (record { txns = b.txns.items; initial = b.initial.items }) b.key b.state };
}

impl Beside {
    pub(super) fn new(alloc: Global, key: Key) -> Result<Beside, OutOfMemory> {
        Ok(Beside {
            alloc,
            state: KeyState::new(alloc, key.try_clone()?, Cases::new()),
            key,
            txns: Vec::new(alloc),
            initial: Vec::new(alloc),
            whole: true,
        })
    }

    /// Gives the edit to both, where no reason is against it.
    pub(super) fn give(
        &mut self,
        rt: &impl Abort,
        edit: &Edit,
    ) -> Result<Option<Refusal>, KeyFault> {
        assert!(rt; self.whole);
        let refusal = reason(&self.txns, &self.initial, edit);
        if refusal.is_some() {
            return Ok(refusal);
        }
        self.whole = false;
        follow(
            self.alloc,
            &self.key,
            &mut self.state,
            &self.txns,
            &self.initial,
            edit,
        )?;
        change(&mut self.txns, &mut self.initial, edit.try_clone()?)?;
        self.whole = true;
        Ok(None)
    }

    /// The state alone.
    pub(super) fn into_state(self) -> KeyState<Cases> {
        let Beside { state, .. } = self;
        state
    }

    /// Gives the edit to both. The findings are then those of the plain program, and the judgements within the bound.
    pub(super) fn compare(&mut self, rt: &impl Abort, edit: &Edit) -> Option<Refusal> {
        let before = self.on_key(rt);
        let judged = self.state.judged();
        let refusal = self.give(rt, edit).expect(rt, "memory");
        let now = self.on_key(rt);
        let most = most_judgements(&before, &now, edit);
        assert!(rt; self.state.judged() <= judged.saturating_add(most));
        self.assert_same_findings(rt);
        self.assert_same_fill(rt, &now);
        drop(before);
        drop(now);
        refusal
    }

    /// What is on the key, by a walk over all that is present.
    fn on_key(&self, rt: &impl Abort) -> OnKey {
        let on = on_key(self.alloc, &self.txns, &self.initial, &self.key);
        on.expect(rt, "memory")
    }

    /// What the state finds, of which nothing is said: tests look at that.
    pub(super) fn found(&self, rt: &impl Abort) -> Vec<Finding> {
        self.state.findings().expect(rt, "findings")
    }

    fn plainly_found(&self, rt: &impl Abort) -> Vec<Finding> {
        assert!(rt; self.whole);
        findings_of(self.alloc, &self.txns, &self.initial).expect(rt, "memory")
    }

    /// The state shows what the plain program finds on the key.
    fn assert_same_findings(&self, rt: &impl Abort) {
        let found = self.found(rt);
        let plain = self.plainly_found(rt);
        assert!(rt; are_those_on(&found, &plain, &self.key));
        are_same(rt, self.state.has_findings(), !found.is_empty());
        drop(found);
        drop(plain);
    }

    /// The state is empty where nothing is on the key, and it is not spoiled.
    fn assert_same_fill(&self, rt: &impl Abort, on: &OnKey) {
        let empty = on.parts.as_slice().is_empty() && on.initial == None;
        are_same(rt, self.state.is_empty(), empty);
        assert!(rt; !self.state.is_spoiled());
    }
}

/// Whether these are the findings on the key among all of them, in their order.
fn are_those_on(found: &[Finding], all: &[Finding], key: &Key) -> bool {
    let mut count = 0usize;
    for finding in all {
        if finding.key == *key {
            if found.get(count) != Some(finding) {
                return false;
            }
            count = count.saturating_add(1);
        }
    }
    count == found.len()
}

fn reason(txns: &[Txn], initial: &[(Key, Value)], edit: &Edit) -> Option<Refusal>
    ensures { (result ≡ None) → IsAcceptable (record { txns = txns.now; initial = initial.now }) edit.now }
{
    refusal_on(&Walked { txns, initial }, edit)
}

/// Does to the state of the key what the edit does on the key.
fn follow(
    alloc: Global,
    key: &Key,
    state: &mut KeyState<Cases>,
    txns: &[Txn],
    initial: &[(Key, Value)],
    edit: &Edit,
) -> Result<(), KeyFault>
    requires history { IsHistory (record { txns = txns.now; initial = initial.now }) }
    requires acceptable { IsAcceptable (record { txns = txns.now; initial = initial.now }) edit.now }
    requires state { IsStateOf (record { txns = txns.now; initial = initial.now }) key.now state.old }
    ensures { OnOk result (IsStateOf (after edit.now (record { txns = txns.now; initial = initial.now })) key.now state.new) }
{
    match edit {
        Edit::Arrive(txn) => arrive(alloc, key, state, txns, initial, txn),
        Edit::Resolve(id, outcome) => resolve(alloc, key, state, txns, initial, *id, *outcome),
        Edit::Withdraw(id) => withdraw(alloc, key, state, txns, initial, *id),
        Edit::SetUp(other, value) => set_up(key, state, txns, initial, other, *value),
    }
}

fn arrive(
    alloc: Global,
    key: &Key,
    state: &mut KeyState<Cases>,
    txns: &[Txn],
    initial: &[(Key, Value)],
    txn: &Txn,
) -> Result<(), KeyFault>
    requires history { IsHistory (record { txns = txns.now; initial = initial.now }) }
    requires acceptable { IsAcceptable (record { txns = txns.now; initial = initial.now }) (edit.Arrive txn.now) }
    requires state { IsStateOf (record { txns = txns.now; initial = initial.now }) key.now state.old }
    ensures { OnOk result (IsStateOf (after (edit.Arrive txn.now) (record { txns = txns.now; initial = initial.now })) key.now state.new) }
{
    if let Some(part) = part_of(alloc, txn, key)? {
        state.arrive(part)?;
    }
    Ok(())
}

/// Whether the transaction is present and does something on the key.
fn is_on(
    alloc: Global,
    key: &Key,
    txns: &[Txn],
    initial: &[(Key, Value)],
    id: TxnId,
) -> Result<bool, KeyFault>
    requires { IsHistory (record { txns = txns.now; initial = initial.now }) }
    ensures { IfOk result (λ on. IsTrue on ↔ HasPart (on_key key.now (record { txns = txns.now; initial = initial.now })) id) }
{
    let Some(txn) = find_with_id(txns, id) else {
        return Ok(false);
    };
    Ok(part_of(alloc, txn, key)?.is_some())
}

fn resolve(
    alloc: Global,
    key: &Key,
    state: &mut KeyState<Cases>,
    txns: &[Txn],
    initial: &[(Key, Value)],
    id: TxnId,
    outcome: Outcome,
) -> Result<(), KeyFault>
    requires history { IsHistory (record { txns = txns.now; initial = initial.now }) }
    requires acceptable { IsAcceptable (record { txns = txns.now; initial = initial.now }) (edit.Resolve id outcome) }
    requires state { IsStateOf (record { txns = txns.now; initial = initial.now }) key.now state.old }
    ensures { OnOk result (IsStateOf (after (edit.Resolve id outcome) (record { txns = txns.now; initial = initial.now })) key.now state.new) }
{
    if is_on(alloc, key, txns, initial, id)? {
        state.resolve(id, outcome)?;
    }
    Ok(())
}

fn withdraw(
    alloc: Global,
    key: &Key,
    state: &mut KeyState<Cases>,
    txns: &[Txn],
    initial: &[(Key, Value)],
    id: TxnId,
) -> Result<(), KeyFault>
    requires history { IsHistory (record { txns = txns.now; initial = initial.now }) }
    requires acceptable { IsAcceptable (record { txns = txns.now; initial = initial.now }) (edit.Withdraw id) }
    requires state { IsStateOf (record { txns = txns.now; initial = initial.now }) key.now state.old }
    ensures { OnOk result (IsStateOf (after (edit.Withdraw id) (record { txns = txns.now; initial = initial.now })) key.now state.new) }
{
    if is_on(alloc, key, txns, initial, id)? {
        state.withdraw(id)?;
    }
    Ok(())
}

fn set_up(
    key: &Key,
    state: &mut KeyState<Cases>,
    txns: &[Txn],
    initial: &[(Key, Value)],
    other: &Key,
    value: Value,
) -> Result<(), KeyFault>
    requires history { IsHistory (record { txns = txns.now; initial = initial.now }) }
    requires acceptable { IsAcceptable (record { txns = txns.now; initial = initial.now }) (edit.SetUp other.now value) }
    requires state { IsStateOf (record { txns = txns.now; initial = initial.now }) key.now state.old }
    ensures { OnOk result (IsStateOf (after (edit.SetUp other.now value) (record { txns = txns.now; initial = initial.now })) key.now state.new) }
{
    if other == key {
        state.set_up(value)?;
    }
    Ok(())
}
