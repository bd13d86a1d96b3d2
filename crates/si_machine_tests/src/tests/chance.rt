//! Edits drawn by chance, and a tally of what they came to.

use super::*;
use si_model::{Edit, Finding, Key, Kind, Op, Ops, Outcome, Stamp, Status, Txn, TxnId, Value};
use si_scripts::{Dice, key, ops_of};

/// Among how few ids, stamps, values and keys edits are drawn, so that transactions meet, and how many of 16 that aren't
/// withdrawals or set-ups are arrivals.
#[derive(Clone, Copy)]
pub(super) struct Few<'a> {
    pub(super) ids: u64,
    pub(super) starts: u64,
    pub(super) commits: u64,
    pub(super) values: u64,
    pub(super) keys: &'a [&'a str],
    pub(super) arrivals: u64,
}

/// How many edits of each kind were accepted, and which kinds of findings there were, as bits.
#[derive(Clone, Copy)]
pub(super) struct Tally {
    pub(super) arrivals: u64,
    pub(super) resolutions: u64,
    pub(super) withdrawals: u64,
    pub(super) set_ups: u64,
    pub(super) kinds: u64,
}

impl Tally {
    pub(super) fn new() -> Tally {
        Tally {
            arrivals: 0,
            resolutions: 0,
            withdrawals: 0,
            set_ups: 0,
            kinds: 0,
        }
    }

    pub(super) fn count_edit(&mut self, edit: &Edit) {
        let kind = match edit {
            Edit::Arrive(_) => &mut self.arrivals,
            Edit::Resolve(..) => &mut self.resolutions,
            Edit::Withdraw(_) => &mut self.withdrawals,
            Edit::SetUp(..) => &mut self.set_ups,
        };
        *kind = kind.saturating_add(1);
    }

    pub(super) fn count_findings(&mut self, found: &[Finding]) {
        for finding in found {
            self.kinds |= bit_of(finding.kind);
        }
    }
}

/// So many came at least.
pub(super) fn came(rt: &impl Abort, count: u64, least: u64, what: &str) {
    assert!(rt; least <= count, "too few {what}");
}

fn bit_of(kind: Kind) -> u64 {
    match kind {
        Kind::Unknown { .. } => 1,
        Kind::Doubt { .. } => 2,
        Kind::Own { .. } => 4,
        Kind::Aborted { .. } => 8,
        Kind::Intermediate { .. } => 16,
        Kind::Future { .. } => 32,
        Kind::Stale { .. } => 64,
        Kind::Overlap { .. } => 128,
    }
}

/// One of the keys. One that stands there more often comes more often.
fn some_key(rt: &(impl Abort + AllocGlobal), dice: &mut Dice, few: Few<'_>) -> Key {
    let place = dice.below(few.keys.len() as u64) as usize;
    let text = few.keys.get(place).expect(rt, "a key");
    key(rt, text).expect(rt, "a key")
}

fn some_op(rt: &(impl Abort + AllocGlobal), dice: &mut Dice, few: Few<'_>) -> Op {
    let key = some_key(rt, dice, few);
    let value = Value(dice.below(few.values));
    match dice.below(5) {
        0 | 1 => Op::Write(key, value),
        2 => Op::Read(key, None),
        _ => Op::Read(key, Some(value)),
    }
}

fn some_ops(rt: &(impl Abort + AllocGlobal), dice: &mut Dice, few: Few<'_>) -> Ops {
    let mut ops = Vec::new(rt.alloc());
    for _ in 0..dice.below(5) {
        ops.push(some_op(rt, dice, few)).expect(rt, "memory");
    }
    ops_of(ops).expect(rt, "operations")
}

/// A commit soon after the start, or sometimes before it.
fn some_status(dice: &mut Dice, start: u64) -> Status {
    match dice.below(6) {
        0 => Status::Aborted,
        1 | 2 => Status::InDoubt,
        _ => {
            let commit = start.saturating_add(dice.below(9)).saturating_sub(1);
            Status::Committed(Stamp(commit))
        }
    }
}

fn some_arrival(rt: &(impl Abort + AllocGlobal), dice: &mut Dice, few: Few<'_>) -> Edit {
    let start = dice.below(few.starts);
    let status = some_status(dice, start);
    let ops = some_ops(rt, dice, few);
    Edit::Arrive(Txn {
        id: TxnId(dice.below(few.ids)),
        start: Stamp(start),
        status,
        ops,
    })
}

fn some_outcome(dice: &mut Dice, few: Few<'_>) -> Outcome {
    match dice.below(4) {
        0 => Outcome::Aborted,
        _ => Outcome::Committed(Stamp(dice.below(few.commits))),
    }
}

/// Some edit.
pub(super) fn some_edit(rt: &(impl Abort + AllocGlobal), dice: &mut Dice, few: Few<'_>) -> Edit {
    match dice.below(20) {
        19 => Edit::SetUp(some_key(rt, dice, few), Value(dice.below(few.values))),
        16..=18 => Edit::Withdraw(TxnId(dice.below(few.ids))),
        kind if kind < few.arrivals => some_arrival(rt, dice, few),
        _ => Edit::Resolve(TxnId(dice.below(few.ids)), some_outcome(dice, few)),
    }
}
