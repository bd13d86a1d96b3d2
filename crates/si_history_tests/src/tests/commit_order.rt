//! Histories in commit order drawn by chance: their findings beside a serial run of the committed transactions, one after another in
//! the order of their commits.

use super::findings::found_in;
use super::*;
use si_model::{Finding, Key, Kind, Op, Ops, Stamp, Status, Txn, TxnId, Value, is_history};
use si_scripts::{Dice, History, key, ops_of};

/// How many operations a transaction has at most.
const PLACES: usize = 3;

/// How many histories are drawn, of which some are none, or not in commit order.
const DRAWN: u64 = 6000;

/// What a transaction does at a place, and to which key.
#[derive(Clone, Copy)]
enum Slot {
    Nothing,
    Read(u64),
    Write(u64),
}

/// A read of a transaction: its id, and the place of the operation.
type ReadOf = (TxnId, usize);

fn numbered_key(rt: &(impl Abort + AllocGlobal), number: u64) -> Key {
    key(rt, if number == 0 { "x" } else { "y" }).expect(rt, "a key")
}

/// What a key holds: the value that was put last.
fn held(pairs: &[(Key, Value)], key: &Key) -> Option<Value> {
    let mut held = None;
    for pair in pairs {
        if pair.0 == *key {
            held = Some(pair.1);
        }
    }
    held
}

// ---- what is drawn

fn some_slot(dice: &mut Dice) -> Slot {
    let number = dice.below(2);
    match dice.below(5) {
        0 => Slot::Nothing,
        1 | 2 => Slot::Read(number),
        _ => Slot::Write(number),
    }
}

/// What a read of the key returned: what some place writes to it, what it was set up with, or nothing.
fn some_value(
    dice: &mut Dice,
    slots: &[Slot],
    number: u64,
    set_up: Option<Value>,
) -> Option<Value> {
    let place = dice.below((slots.len() as u64).saturating_add(2)) as usize;
    match slots.get(place) {
        Some(Slot::Write(written)) if *written == number => Some(value_at(place)),
        Some(_) => set_up,
        None => None,
    }
}

/// The value that is written at a place, there alone.
fn value_at(place: usize) -> Value {
    Value((place as u64).saturating_add(1))
}

fn ops_from(
    rt: &(impl Abort + AllocGlobal),
    dice: &mut Dice,
    slots: &[Slot],
    initial: &[(Key, Value)],
    first: usize,
) -> Ops {
    let mut ops = Vec::new(rt.alloc());
    for place in first..first.saturating_add(PLACES) {
        let op = match slots.get(place) {
            Some(Slot::Read(number)) => {
                let key = numbered_key(rt, *number);
                let set_up = held(initial, &key);
                Op::Read(key, some_value(dice, slots, *number, set_up))
            }
            Some(Slot::Write(number)) => Op::Write(numbered_key(rt, *number), value_at(place)),
            _ => continue,
        };
        ops.push(op).expect(rt, "memory");
    }
    ops_of(ops).expect(rt, "operations")
}

/// Committed soon after the start, or at it; in one case of four not committed.
fn some_status(dice: &mut Dice, start: u64) -> Status {
    match dice.below(8) {
        0 => Status::Aborted,
        1 => Status::InDoubt,
        _ => Status::Committed(Stamp(start.saturating_add(dice.below(3)))),
    }
}

fn some_slots(rt: &(impl Abort + AllocGlobal), dice: &mut Dice) -> Vec<Slot> {
    let mut slots = Vec::new(rt.alloc());
    for _ in 0..dice
        .below(3)
        .saturating_add(2)
        .saturating_mul(PLACES as u64)
    {
        slots.push(some_slot(dice)).expect(rt, "memory");
    }
    slots
}

fn some_initial(rt: &(impl Abort + AllocGlobal), dice: &mut Dice) -> Vec<(Key, Value)> {
    let mut initial = Vec::new(rt.alloc());
    for number in 0..2u64 {
        if dice.below(3) == 0 {
            let pair = (numbered_key(rt, number), Value(number.saturating_add(100)));
            initial.push(pair).expect(rt, "memory");
        }
    }
    initial
}

/// Two to four transactions over one or two keys, some of which were set up.
fn some_history(rt: &(impl Abort + AllocGlobal), dice: &mut Dice) -> History {
    let initial = some_initial(rt, dice);
    let slots = some_slots(rt, dice);
    let mut txns = Vec::new(rt.alloc());
    for first in (0..slots.len()).step_by(PLACES) {
        let start = dice.below(10);
        let txn = Txn {
            id: TxnId(first as u64),
            start: Stamp(start),
            status: some_status(dice, start),
            ops: ops_from(rt, dice, &slots, &initial, first),
        };
        txns.push(txn).expect(rt, "memory");
    }
    drop(slots);
    History { txns, initial }
}

// ---- what is in commit order

/// The other one writes, and commits from the start of this one on and before its commit.
fn is_between(other: &Txn, txn: &Txn) -> bool {
    match (other.status.commit(), txn.status.commit()) {
        (Some(between), Some(commit)) => {
            other.writes() && other.id != txn.id && txn.start <= between && between < commit
        }
        _ => false,
    }
}

fn is_in_commit_order(txns: &[Txn]) -> bool {
    txns.iter()
        .all(|txn| !txns.iter().any(|other| is_between(other, txn)))
}

// ---- the serial run

/// The commit stamps with the places of their transactions, in order.
fn in_order(rt: &(impl Abort + AllocGlobal), txns: &[Txn]) -> Vec<(u64, usize)> {
    let mut order = Vec::new(rt.alloc());
    for (place, txn) in txns.iter().enumerate() {
        if let Some(commit) = txn.status.commit() {
            order.push((commit.0, place)).expect(rt, "memory");
        }
    }
    order.sort().expect(rt, "memory");
    order
}

/// Runs a transaction on what the keys hold, and adds its reads that returned something else.
fn run_one(
    rt: &(impl Abort + AllocGlobal),
    txn: &Txn,
    pairs: &mut Vec<(Key, Value)>,
    wrong: &mut Vec<ReadOf>,
) {
    for (place, op) in txn.ops.as_slice().iter().enumerate() {
        match op {
            Op::Read(key, read) => {
                if held(pairs, key) != *read {
                    wrong.push((txn.id, place)).expect(rt, "memory");
                }
            }
            Op::Write(key, value) => {
                let key = key.try_clone().expect(rt, "memory");
                pairs.push((key, *value)).expect(rt, "memory");
            }
        }
    }
}

fn copied(rt: &(impl Abort + AllocGlobal), pairs: &[(Key, Value)]) -> Vec<(Key, Value)> {
    let mut copies = Vec::new(rt.alloc());
    for pair in pairs {
        let key = pair.0.try_clone().expect(rt, "memory");
        copies.push((key, pair.1)).expect(rt, "memory");
    }
    copies
}

/// The reads that returned something else than the serial run gives them, in order.
fn wrong_in_the_run(rt: &(impl Abort + AllocGlobal), history: &History) -> Vec<ReadOf> {
    let mut pairs = copied(rt, &history.initial);
    let mut wrong = Vec::new(rt.alloc());
    for (_, place) in in_order(rt, &history.txns) {
        let txn = history.txns.get(place).expect(rt, "a transaction");
        run_one(rt, txn, &mut pairs, &mut wrong);
    }
    drop(pairs);
    wrong.sort().expect(rt, "memory");
    wrong
}

// ---- the findings

fn commit_of(rt: &impl Abort, txns: &[Txn], id: TxnId) -> Stamp {
    let txn = txns.iter().find(|txn| txn.id == id);
    txn.expect(rt, "a transaction")
        .status
        .commit()
        .expect(rt, "a commit")
}

/// The read that a finding is of. None is an overlap, and a read of the future is one of a transaction that commits after the reader.
fn read_of(rt: &impl Abort, txns: &[Txn], kind: Kind) -> ReadOf {
    match kind {
        Kind::Future {
            txn,
            op,
            writer,
            ..
        } => {
            assert!(rt; commit_of(rt, txns, txn) < commit_of(rt, txns, writer));
            (txn, op)
        }
        Kind::Unknown { txn, op, .. }
        | Kind::Doubt { txn, op, .. }
        | Kind::Own { txn, op, .. }
        | Kind::Aborted { txn, op, .. }
        | Kind::Intermediate { txn, op, .. }
        | Kind::Stale { txn, op, .. } => (txn, op),
        Kind::Overlap { .. } => panic!(rt; "an overlap"),
    }
}

fn reads_of(rt: &(impl Abort + AllocGlobal), txns: &[Txn], found: &[Finding]) -> Vec<ReadOf> {
    let mut reads = Vec::new(rt.alloc());
    for finding in found {
        reads
            .push(read_of(rt, txns, finding.kind))
            .expect(rt, "memory");
    }
    reads.sort().expect(rt, "memory");
    reads
}

/// Whether the history has a finding. Its findings are those of the reads that are wrong in the serial run.
fn is_found(rt: &(impl Abort + AllocGlobal), history: &History) -> bool {
    let found = found_in(rt, &history.txns, &history.initial);
    let reads = reads_of(rt, &history.txns, &found);
    let wrong = wrong_in_the_run(rt, history);
    let is_found = !wrong.is_empty();
    are_same(rt, reads, wrong);
    drop(found);
    is_found
}

#[test]
fn findings_in_commit_order_are_the_reads_that_no_serial_run_gives(rt: HostRuntime) {
    let mut dice = Dice::new(1);
    let mut clean = 0u64;
    let mut faulty = 0u64;
    for _ in 0..DRAWN {
        let history = some_history(&rt, &mut dice);
        if is_history(&history.txns, &history.initial) && is_in_commit_order(&history.txns) {
            let count = if is_found(&rt, &history) {
                &mut faulty
            } else {
                &mut clean
            };
            *count = count.saturating_add(1);
        }
        drop(history);
    }
    assert!(rt; 1000 <= clean, "too few without a finding");
    assert!(rt; 1000 <= faulty, "too few with a finding");
}
