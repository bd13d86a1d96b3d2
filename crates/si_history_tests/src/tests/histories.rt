//! What is a history, and what isn't.

use super::*;
use si_model::is_history;
use si_scripts::{History, present};

fn is_one(history: &History) -> bool {
    is_history(&history.txns, &history.initial)
}

/// The lines of each row are a history, or those of none are, in whatever order the transactions come.
fn are_all(rt: &(impl Abort + AllocGlobal), rows: &str, wanted: bool) {
    for lines in rows.split('#') {
        let mut history = present(rt, lines).expect(rt, "lines");
        are_same_at(rt, is_one(&history), wanted, lines);
        history.txns.reverse();
        are_same_at(rt, is_one(&history), wanted, lines);
        drop(history);
    }
}

/// Nothing is one. Two starts may be equal, beside set-ups too. Readers of one snapshot share its stamp, and with the start of a writer.
const HISTORIES: &str = "
    #
    1 1 4 x=1
    2 1 5 y=1 x=2
    #
    setup x=3
    setup z=1
    1 1 4 x=1
    2 1 5 y=1 x=2
    #
    1 3 3 x?null
    2 3 3
    3 2 3 x?null
    4 3 4 x=1";

#[test]
fn what_is_a_history(rt: HostRuntime) {
    are_all(&rt, HISTORIES, true);
}

/// A writer's commit at its start, and one before it; an id twice; a commit and a start at a writer's commit, and a writer's commit
/// at a start.
const STAMPS: &str = "
    1 1 4 x=1
    2 5 5 y=1
    #
    1 1 4 x=1
    2 6 5
    #
    1 1 4 x=1
    1 2 5
    #
    1 1 4 x=1
    2 2 4
    #
    1 1 4 x=1
    2 4 indoubt
    #
    1 1 4 x=1
    2 0 1 y=1";

#[test]
fn stamps_and_ids_that_make_no_history(rt: HostRuntime) {
    are_all(&rt, STAMPS, false);
}

/// A pair of two writers, and a pair twice.
const PAIRS: &str = "
    1 1 4 x=1
    2 2 aborted y=1 x=1
    #
    1 1 4 x=1
    2 2 aborted y=1 y?null y=1";

#[test]
fn pairs_that_make_no_history(rt: HostRuntime) {
    are_all(&rt, PAIRS, false);
}

/// A pair that a transaction writes too, and a key twice.
const SET_UPS: &str = "
    setup z=1
    setup x=5
    1 1 indoubt y=1 x=5
    #
    setup x=1
    setup y=1
    setup x=2";

#[test]
fn set_ups_that_make_no_history(rt: HostRuntime) {
    are_all(&rt, SET_UPS, false);
}
