//! Histories with their findings. What the program's own rows have doesn't stand here once more.

use super::*;
use si_model::{Finding, Key, Txn, Value, findings_of, is_history};
use si_scripts::{present, trimmed};

/// What is found in what is present, of which nothing is said: tests look at that.
pub(super) fn found_in(
    rt: &(impl Abort + AllocGlobal),
    txns: &[Txn],
    initial: &[(Key, Value)],
) -> Vec<Finding> {
    assert!(rt; is_history(txns, initial));
    findings_of(rt.alloc(), txns, initial).expect(rt, "memory")
}

/// The findings, a line for each.
fn text_of(rt: &(impl Abort + AllocGlobal), found: &[Finding]) -> String {
    let mut text = String::new(rt.alloc());
    for finding in found {
        let kind = shown_as(rt, finding.kind);
        writeln!(text, "{} {kind}", finding.key).expect(rt, "memory");
    }
    text
}

/// The lines are a history, and these are its findings, in whatever order the transactions come.
fn finds(rt: &(impl Abort + AllocGlobal), lines: &str, wanted: &str) {
    let mut history = present(rt, lines).expect(rt, "a history");
    let wanted = trimmed(rt, wanted).expect(rt, "memory");
    for _ in 0..2 {
        let found = found_in(rt, &history.txns, &history.initial);
        are_same_at(rt, text_of(rt, &found).as_str(), wanted.as_str(), lines);
        history.txns.reverse();
    }
    drop(history);
}

fn find(rt: &(impl Abort + AllocGlobal), rows: &[(&str, &str)]) {
    for row in rows {
        finds(rt, row.0, row.1);
    }
}

#[test]
fn who_does_not_commit_installs_nothing(rt: HostRuntime) {
    let history = "
        1 1 10 x=1 x=4
        2 2 aborted x=2
        3 2 indoubt x=3";
    finds(&rt, history, "");
}

#[test]
fn what_commits_before_the_start_is_missed(rt: HostRuntime) {
    let missed = "
        1 1 2 x=1
        2 3 4 x=2 y=1
        3 5 6 y?1 x?null";
    let stale = "x Stale { txn: TxnId(3), op: 1, read: None, missed: TxnId(1) }";
    // what commits after the start isn't missed, whenever it starts
    let later = "
        1 5 6 x=1
        2 5 9 x?null y?null
        3 2 8 y=1";
    find(&rt, &[(missed, stale), (later, "")]);
}

#[test]
fn each_value_of_an_aborted_writer(rt: HostRuntime) {
    let history = "
        1 1 aborted x=1 x=2
        2 3 4 x?1 x?2";
    let wanted = "
        x Aborted { txn: TxnId(2), op: 0, read: Some(Value(1)), writer: TxnId(1) }
        x Aborted { txn: TxnId(2), op: 1, read: Some(Value(2)), writer: TxnId(1) }";
    finds(&rt, history, wanted);
}

#[test]
fn beside_a_later_own_write_the_own_value_is_to_return(rt: HostRuntime) {
    let history = "
        1 1 2 x=1 x?1 x=2
        2 3 4 y=1 y?2 y=2
        3 5 6 z?null z=1 z=2 z?1";
    let wanted = "
        y Own { txn: TxnId(2), op: 1, read: Some(Value(2)), own: Some(Value(1)) }
        z Own { txn: TxnId(3), op: 3, read: Some(Value(1)), own: Some(Value(2)) }";
    finds(&rt, history, wanted);
}

/// On a key they stand by the kind's number, then by the first transaction, then by the place.
#[test]
fn findings_stand_in_order(rt: HostRuntime) {
    let history = "
        1 10 20 x=1
        2 1 2 x?1 x?9 x?8
        3 21 22 x?null x?7
        4 15 30 x=2";
    let wanted = "
        x Unknown { txn: TxnId(2), op: 1, read: Some(Value(9)) }
        x Unknown { txn: TxnId(2), op: 2, read: Some(Value(8)) }
        x Unknown { txn: TxnId(3), op: 1, read: Some(Value(7)) }
        x Future { txn: TxnId(2), op: 0, read: Some(Value(1)), writer: TxnId(1) }
        x Stale { txn: TxnId(3), op: 0, read: None, missed: TxnId(1) }
        x Overlap { first: TxnId(1), second: TxnId(4) }";
    finds(&rt, history, wanted);
}

#[test]
fn values_from_before_the_run(rt: HostRuntime) {
    // the initial version returns the value, and null no more
    let history = "
        setup y=1
        setup x=5
        1 1 2 x?5
        2 3 4 x?null
        3 5 6 x=7
        4 7 8 x?5 z?null";
    let wanted = "
        x Unknown { txn: TxnId(2), op: 0, read: None }
        x Stale { txn: TxnId(4), op: 0, read: Some(Value(5)), missed: TxnId(3) }";
    // a value that was set up for one key is unknown on another
    let another = "
        setup x=5
        1 1 2 y?5";
    let unknown = "y Unknown { txn: TxnId(1), op: 0, read: Some(Value(5)) }";
    // what the reader itself wrote comes first
    let own = "
        setup x=5
        1 1 2 x=6 x?5 x?null";
    let not_own = "
        x Own { txn: TxnId(1), op: 1, read: Some(Value(5)), own: Some(Value(6)) }
        x Own { txn: TxnId(1), op: 2, read: None, own: Some(Value(6)) }";
    find(
        &rt,
        &[(history, wanted), (another, unknown), (own, not_own)],
    );
}
