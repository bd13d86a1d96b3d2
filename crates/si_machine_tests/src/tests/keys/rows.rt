//! Edits on one key that were worked out by hand: each with the most judgements that it may cost, where that is written
//! down, and what is found after it.

use super::*;
use scripts::{answers, new_beside};

#[test]
fn a_version_comes_between_a_version_and_its_reader(rt: HostRuntime) {
    let script = "
        arrive 1 1 2 x=1 ||
        arrive 3 7 8 x?1 ||
        arrive 2 3 4 x=2 | 3 | Stale { txn: TxnId(3), op: 0, read: Some(Value(1)), missed: TxnId(2) }
        withdraw 2 | 3 |
        withdraw 1 | 3 | Unknown { txn: TxnId(3), op: 0, read: Some(Value(1)) }";
    answers(&rt, "x", script);
}

#[test]
fn versions_overlap_with_their_neighbours(rt: HostRuntime) {
    let script = "
        arrive 1 1 10 x=1 ||
        arrive 2 11 20 x=2 ||
        arrive 3 9 30 x=3 || Overlap { first: TxnId(2), second: TxnId(3) }
        withdraw 2 || Overlap { first: TxnId(1), second: TxnId(3) }";
    answers(&rt, "x", script);
}

#[test]
fn a_doubt_is_resolved(rt: HostRuntime) {
    let on_x = "
        arrive 1 1 indoubt x=1 y?7 ||
        arrive 2 5 6 x?1 || Doubt { txn: TxnId(2), op: 0, read: Some(Value(1)), writer: TxnId(1) }
        resolve 1 3 ||";
    let on_y = "
        arrive 1 1 indoubt x=1 y?7 ||
        arrive 2 5 6 x?1 ||
        resolve 1 3 || Unknown { txn: TxnId(1), op: 1, read: Some(Value(7)) }";
    answers(&rt, "x", on_x);
    answers(&rt, "y", on_y);
}

#[test]
fn a_key_is_set_up_among_its_readers(rt: HostRuntime) {
    let script = "
        arrive 1 1 2 x?5 || Unknown { txn: TxnId(1), op: 0, read: Some(Value(5)) }
        arrive 2 3 4 x?null || Unknown { txn: TxnId(1), op: 0, read: Some(Value(5)) }
        setup x=5 || Unknown { txn: TxnId(2), op: 0, read: None }
        arrive 3 5 6 x=7 || Unknown { txn: TxnId(2), op: 0, read: None }
        arrive 4 7 8 x?5 || Unknown { txn: TxnId(2), op: 0, read: None } Stale { txn: TxnId(4), op: 0, read: Some(Value(5)), missed: TxnId(3) }
        setup x=9 || SetUpTwice";
    answers(&rt, "x", script);
}

#[test]
fn a_read_of_an_own_write_counts_once(rt: HostRuntime) {
    let script = "
        arrive 1 1 2 x=1 ||
        arrive 3 5 6 x=3 ||
        arrive 2 3 4 x=2 x?2 | 3 |";
    answers(&rt, "x", script);
}

fn give(rt: &(impl Abort + AllocGlobal), beside: &mut Beside, line: &str) {
    let answer = beside.give(rt, &edit(rt, line));
    are_same(rt, answer, Ok(None));
}

/// Readers of 1, each with stamps of its own. The plain program of acceptance walks all that is present for each, so that this
/// takes minutes where a run is compiled with checks (`rt try --test --seconds 600`).
fn read_often(rt: &(impl Abort + AllocGlobal), beside: &mut Beside) {
    for reader in 100..10_100u64 {
        let start = reader.saturating_sub(95).saturating_mul(2);
        let commit = start.saturating_add(1);
        let line = format!(in rt.alloc(); "arrive {reader} {start} {commit} x?1");
        give(rt, beside, line.expect(rt, "memory").as_str());
    }
}

#[test]
fn many_readers_are_left_alone(rt: HostRuntime) {
    let mut beside = new_beside(&rt, "x");
    leave_alone(&rt, &mut *beside);
    drop(beside);
}

fn leave_alone(rt: &(impl Abort + AllocGlobal), beside: &mut Beside) {
    give(rt, beside, "arrive 1 1 2 x=1");
    read_often(rt, beside);
    give(rt, beside, "arrive 2 30000 30001 x=2");
    let judged = beside.state.judged();
    give(rt, beside, "arrive 3 30002 30003 x=3");
    assert!(rt; beside.state.judged() <= judged.saturating_add(2));
    assert!(rt; beside.found(rt).is_empty());
}
