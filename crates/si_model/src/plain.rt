//! The plain program of acceptance: what is present as two lists, each reason found by walking them, and what an edit makes
//! of them. Faster programs are compared with it by tests.

ghost use Rattle.std.specs.Prelude.{◌≡◌, map, OnOk, OnErr};
ghost use Rattle.std.specs.List.{filter, find, list_any};
ghost use Rattle.std.specs.Option.{option_copied};
ghost use Rattle.si_model.specs.Operations.{same_write};
ghost use Rattle.si_model.specs.Parts.{Present, writes_pair_of};
ghost use Rattle.si_model.specs.Edits.{with_id, installs_at, has_stamp, lesser, least_id, first_at, twice_at, resolved, is_another, after};

use crate::holders::{has_stamp, installs_at, writes_pair};
use crate::parts::set_up_value;
use crate::{Edit, Holders, Key, Op, OutOfMemory, Outcome, Refusal, Stamp, Txn, TxnId, Value};

/// What is present, walked to find who holds what.
#[derive(Clone, Copy)]
pub struct Walked<'a> {
    pub txns: &'a [Txn],
    pub initial: &'a [(Key, Value)],
}

impl<'a> Holders for Walked<'a> {
    ghost use Rattle.si_model.specs.Parts.{Present};

    ghost present = { λ w. record { txns = w.txns.now; initial = w.initial.now } };

    fn with_id(&self, id: TxnId) -> Option<&Txn> {
        find_with_id(self.txns, id)
    }

    fn least_that_installs_at(&self, stamp: Stamp) -> Option<TxnId> {
        least_that_installs_at(self.txns, stamp)
    }

    fn least_with_stamp(&self, stamp: Stamp) -> Option<TxnId> {
        least_with_stamp(self.txns, stamp)
    }

    fn writer(&self, key: &Key, value: Value) -> Option<TxnId> {
        match find_writer(self.txns, key, value) {
            Some(txn) => Some(txn.id),
            None => None,
        }
    }

    fn set_up_value(&self, key: &Key) -> Option<Value> {
        set_up_value(self.initial, key)
    }

    fn twice_refusal(&self, ops: &[Op]) -> Option<Refusal> {
        twice_refusal(ops)
    }
}

/// The transaction with that id.
pub fn find_with_id(txns: &[Txn], id: TxnId) -> Option<&Txn>
    ensures { option_copied result ≡ with_id txns.now id }
{
    txns.iter().find(|txn| txn.id == id)
}

#[tactic(auto, unfolding(crate::specs::Edits::least_id))]
fn least_that_installs_at(txns: &[Txn], stamp: Stamp) -> Option<TxnId>
    ensures { result ≡ least_id (installs_at stamp) txns.now }
{
    txns.iter().fold(None, |least, txn| {
        if installs_at(txn, stamp) {
            lesser(least, txn.id)
        } else {
            least
        }
    })
}

#[tactic(auto, unfolding(crate::specs::Edits::least_id))]
fn least_with_stamp(txns: &[Txn], stamp: Stamp) -> Option<TxnId>
    ensures { result ≡ least_id (has_stamp stamp) txns.now }
{
    txns.iter().fold(None, |least, txn| {
        if has_stamp(txn, stamp) {
            lesser(least, txn.id)
        } else {
            least
        }
    })
}

fn lesser(least: Option<TxnId>, id: TxnId) -> Option<TxnId>
    ensures { result ≡ lesser least id }
{
    match least {
        Some(least) if least <= id => Some(least),
        _ => Some(id),
    }
}

fn find_writer<'a>(txns: &'a [Txn], key: &Key, value: Value) -> Option<&'a Txn>
    ensures { option_copied result ≡ find (writes_pair_of (Op.Write key.now value)) txns.now }
{
    txns.iter().find(|txn| writes_pair(txn, key, value))
}

/// The first of the operations writes a pair which an earlier one writes, each compared with each.
pub fn twice_refusal(ops: &[Op]) -> Option<Refusal>
    ensures { result ≡ first_at (twice_at ops.now) 0 ops.now }
{
    for (place, op) in ops.iter().enumerate() {
        if writes_again(&ops[..place], op) {
            return Some(Refusal::ValueTwice { op: place });
        }
    }
    None
}

fn writes_again(ops: &[Op], op: &Op) -> bool
    ensures { result ≡ list_any (same_write op.now) ops.now }
{
    ops.iter().any(|other| op.writes_same(other))
}

/// Makes the lists what is present after the edit. If memory is refused, they stay as they were.
#[tactic(auto, unfolding(crate::specs::Edits::after))]
pub fn change(
    txns: &mut Vec<Txn>,
    initial: &mut Vec<(Key, Value)>,
    edit: Edit,
) -> Result<(), OutOfMemory>
    ensures ok { OnOk result (record { txns = txns.new.items; initial = initial.new.items }
        ≡ after edit (record { txns = txns.old.items; initial = initial.old.items })) }
    ensures err { OnErr result ((txns.new.items ≡ txns.old.items) × (initial.new.items ≡ initial.old.items)) }
{
    match edit {
        Edit::Arrive(txn) => txns.push(txn)?,
        Edit::Resolve(id, outcome) => resolve(txns, id, outcome),
        Edit::Withdraw(id) => withdraw(txns, id),
        Edit::SetUp(key, value) => initial.push((key, value))?,
    }
    Ok(())
}

fn resolve(txns: &mut Vec<Txn>, id: TxnId, outcome: Outcome)
    ensures { txns.new.items ≡ map (resolved id outcome) txns.old.items }
{
    for txn in txns.iter_mut() {
        resolve_one(txn, id, outcome);
    }
}

fn resolve_one(txn: &mut Txn, id: TxnId, outcome: Outcome)
    ensures { txn.new ≡ resolved id outcome txn.old }
{
    if txn.id == id {
        txn.status = outcome.status();
    }
}

fn withdraw(txns: &mut Vec<Txn>, id: TxnId)
    ensures { txns.new.items ≡ filter (is_another id) txns.old.items }
{
    txns.retain(|txn| txn.id != id);
}
