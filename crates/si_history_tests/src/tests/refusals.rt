//! The plain program of acceptance: what it answers to edits, and what is present then.

use super::books::{changed, plain_refusal};
use super::*;
use si_scripts::{History, asked, edit_of, present};

/// `accepted`, or the first reason as its variant stands in code.
fn answer(rt: &(impl Abort + AllocGlobal), history: &mut History, line: &str) -> String {
    let edit = edit_of(rt, line).expect(rt, "an edit");
    match plain_refusal(&history.txns, &history.initial, &edit) {
        Some(refusal) => shown_as(rt, refusal),
        None => {
            changed(&mut history.txns, &mut history.initial, edit).expect(rt, "memory");
            String::from_str(rt.alloc(), "accepted").expect(rt, "memory")
        }
    }
}

/// What became of each transaction, and how many keys are set up.
fn left(rt: &(impl Abort + AllocGlobal), history: &History) -> String {
    let mut text = String::new(rt.alloc());
    write!(text, "{} set up", history.initial.len()).expect(rt, "memory");
    for txn in &history.txns {
        let status = shown_as(rt, txn.status);
        write!(text, ", {} {status}", txn.id.0).expect(rt, "memory");
    }
    text
}

/// Compares what is answered to the edit before the bar with what stands behind it.
fn give(rt: &(impl Abort + AllocGlobal), history: &mut History, line: &str) {
    let (question, wanted) = asked(line).expect(rt, "an answer");
    let told = match question {
        "left" => left(rt, history),
        line => answer(rt, history, line),
    };
    are_same_at(rt, told.as_str(), wanted, line);
}

#[test]
fn the_plain_program_of_acceptance(rt: HostRuntime) {
    let script = "
        arrive 1 1 indoubt x?null | accepted
        resolve 1 0 | StampOrder
        resolve 1 1 | accepted
        resolve 1 aborted | NotInDoubt
        arrive 2 3 3 x=1 | StampOrder
        arrive 2 3 4 x=1 y?null | accepted
        arrive 3 4 9 | StampTaken { stamp: Stamp(4), holder: TxnId(2) }
        arrive 3 2 4 | StampTaken { stamp: Stamp(4), holder: TxnId(2) }
        setup x=1 | SetUpTaken { holder: TxnId(2) }
        setup x=5 | accepted
        setup x=6 | SetUpTwice
        arrive 4 5 aborted y=5 x=5 | ValueSetUp { op: 1 }
        withdraw 2 | accepted
        withdraw 2 | NoSuch
        arrive 1 7 aborted | IdPresent
        left | 1 set up, 1 Committed(Stamp(1))";
    let mut history = present(&rt, "").expect(&rt, "memory");
    for line in script.trim().lines() {
        give(&rt, &mut history, line.trim());
    }
    drop(history);
}
