//! What a book answers to edits that were worked out by hand, and beside the plain program.

use super::book_scripts::{accept, answers, present_in, set_up_in};
use super::*;
use si_accept::{AcceptFault, Book};
use si_model::plain::{Walked, change};
use si_model::{
    Edit, Key, MOST_EDITS, Op, Ops, OutOfMemory, Outcome, Refusal, Stamp, Status, Txn, TxnId,
    Value, refusal_on,
};
use si_scripts::{key, next_number, ops_of};
use std::alloc::Global;
use std::hash::RandomState;

/// What new books of as many edits as there may be are given and answer: rows with a title each, between `#`.
const ROWS: &str = "each reason comes in its place
    arrive 1 1 2 x=1 | 1
    arrive 1 1 2 x=1 | IdPresent
    resolve 9 3 | NoSuch
    resolve 1 3 | NotInDoubt
    arrive 2 4 3 | StampOrder
    arrive 2 2 3 x=1 | StampTaken { stamp: Stamp(2), holder: TxnId(1) }
    arrive 2 0 1 z=1 | StampTaken { stamp: Stamp(1), holder: TxnId(1) }
    arrive 2 3 4 x=1 x=2 x=2 | ValueTwice { op: 2 }
    arrive 2 3 4 y=1 x=1 | ValueTaken { op: 1, holder: TxnId(1) }
    journal | 1
    present | 1
    # a withdrawal frees values
    empty | true
    arrive 1 1 2 x=5 | 1
    arrive 2 3 4 x=5 | ValueTaken { op: 0, holder: TxnId(1) }
    withdraw 1 | 2
    arrive 2 3 4 x=5 | 3
    status 1 | absent
    present | 2
    # a withdrawn writer may have been read
    arrive 1 1 2 x=1 | 1
    arrive 2 3 4 | 2
    withdraw 1 | 3
    present | 2
    # a resolution meets the stamps
    arrive 1 1 indoubt x=1 | 1
    arrive 2 2 5 | 2
    resolve 1 5 | StampTaken { stamp: Stamp(5), holder: TxnId(2) }
    resolve 1 1 | StampOrder
    resolve 1 aborted | 3
    withdraw 1 | 4
    arrive 3 1 6 x=1 | 5
    present | 2 3
    # present keeps the order of arrival
    arrive 7 1 indoubt | 1
    arrive 5 1 10 | 2
    arrive 9 11 20 | 3
    arrive 3 9 30 | 4
    resolve 7 40 | 5
    present | 7 5 9 3
    status 7 | Committed(Stamp(40))
    withdraw 5 | 6
    arrive 5 1 2 | 7
    present | 7 9 3 5
    # the least holder of a stamp is named
    arrive 8 5 6 | 1
    arrive 4 5 7 | 2
    arrive 6 5 8 | 3
    arrive 1 2 5 x=1 | StampTaken { stamp: Stamp(5), holder: TxnId(4) }
    withdraw 4 | 4
    arrive 1 2 5 x=1 | StampTaken { stamp: Stamp(5), holder: TxnId(6) }
    present | 8 6
    # readers may have one stamp and share it
    arrive 1 1 2 x=1 | 1
    arrive 2 3 3 | 2
    arrive 3 4 4 | 3
    arrive 4 5 5 x=2 | StampOrder
    arrive 5 3 3 | 4
    arrive 6 0 3 x=2 | StampTaken { stamp: Stamp(3), holder: TxnId(2) }
    arrive 7 2 9 | StampTaken { stamp: Stamp(2), holder: TxnId(1) }
    arrive 7 0 2 | StampTaken { stamp: Stamp(2), holder: TxnId(1) }
    present | 1 2 3 5
    # a resolution to the start is of a reader
    arrive 1 4 indoubt | 1
    resolve 1 3 | StampOrder
    resolve 1 4 | 2
    arrive 2 6 indoubt x=1 | 3
    resolve 2 6 | StampOrder
    present | 1 2
    # a key is set up once
    arrive 1 1 2 | 1
    arrive 2 3 4 | 2
    setup x=5 | 3
    arrive 3 5 6 x=7 | 4
    arrive 4 7 8 | 5
    setup x=9 | SetUpTwice
    present | 1 2 3 4
    # a set up value is written by no transaction
    arrive 1 1 2 x=5 | 1
    setup x=5 | SetUpTaken { holder: TxnId(1) }
    setup y=1 | 2
    arrive 2 3 4 x=6 y=1 | ValueSetUp { op: 1 }
    initial | y=1
    present | 1";

#[test]
fn edits_are_answered(rt: HostRuntime) {
    for row in ROWS.split('#') {
        let (title, script) = row.split_once('\n').expect(&rt, "a title");
        answers(&rt, MOST_EDITS, title, script);
    }
}

#[test]
fn a_full_journal_comes_first(rt: HostRuntime) {
    let script = "
        arrive 1 1 2 x=1 | 1
        arrive 2 3 4 | 2
        arrive 3 5 6 y=3 | 3
        arrive 1 1 2 x=1 | Full
        withdraw 1 | Full
        limit | 3
        present | 1 2 3";
    answers(&rt, 3, "a full journal", script);
}

/// 4,096 writes of a key, of which the last two are of one value.
fn many_writes(rt: &(impl Abort + AllocGlobal)) -> String {
    let mut line = String::new(rt.alloc());
    line.push_str("arrive 1 1 indoubt").expect(rt, "memory");
    for place in 0..4096u64 {
        write!(line, " x={}", place.min(4094)).expect(rt, "memory");
    }
    line.push_str(" | ValueTwice { op: 4095 }")
        .expect(rt, "memory");
    line
}

#[test]
fn many_operations_are_compared_too(rt: HostRuntime) {
    let script = many_writes(&rt);
    answers(&rt, MOST_EDITS, "many operations", script.as_str());
}

fn some_status(state: u64, commit: u64) -> Status {
    match (state >> 32) % 4 {
        0 => Status::InDoubt,
        1 => Status::Aborted,
        _ => Status::Committed(Stamp(commit)),
    }
}

fn some_outcome(state: u64, commit: u64) -> Outcome {
    match (state >> 34) % 2 {
        0 => Outcome::Aborted,
        _ => Outcome::Committed(Stamp(commit)),
    }
}

fn write(rt: &(impl Abort + AllocGlobal), text: &str, number: u64) -> Op {
    let key = key(rt, text).expect(rt, "a key");
    Op::Write(key, Value(number % 100))
}

/// No operations, or three writes.
fn some_ops(rt: &(impl Abort + AllocGlobal), state: u64, none: bool) -> Ops {
    let mut ops = Vec::new(rt.alloc());
    if !none {
        for (text, bits) in [("x", 36), ("y", 42), ("x", 48)] {
            ops.push(write(rt, text, state >> bits))
                .expect(rt, "memory");
        }
    }
    ops_of(ops).expect(rt, "operations")
}

fn some_set_up(rt: &(impl Abort + AllocGlobal), value: u64, few: bool) -> Edit {
    let text = if few { "x" } else { "z" };
    Edit::SetUp(key(rt, text).expect(rt, "a key"), Value(value))
}

/// Some edit among few ids, stamps, keys and values, so that each reason comes up.
fn some_edit(rt: &(impl Abort + AllocGlobal), state: u64) -> Edit {
    let id = TxnId((state >> 8) % 24);
    let commit = (state >> 24) % 150;
    let few = (state >> 52) % 4 == 0;
    match (state >> 60) % 8 {
        0 | 1 => Edit::Withdraw(id),
        2 | 3 => Edit::Resolve(id, some_outcome(state, commit)),
        4 => some_set_up(rt, commit, few),
        _ => Edit::Arrive(Txn {
            id,
            start: Stamp((state >> 16) % 100),
            status: some_status(state, commit),
            ops: some_ops(rt, state, few),
        }),
    }
}

/// The first reason that walking the lists finds.
pub(super) fn plain_refusal(
    txns: &[Txn],
    initial: &[(Key, Value)],
    edit: &Edit,
) -> Option<Refusal> {
    let walked = Walked { txns, initial };
    refusal_on(&walked, edit)
}

/// Calls `change` and says nothing of what it does.
pub(super) fn changed(
    txns: &mut Vec<Txn>,
    initial: &mut Vec<(Key, Value)>,
    edit: Edit,
) -> Result<(), OutOfMemory> {
    change(txns, initial, edit)
}

/// A book, and what is present as the plain program has it.
#[derive(Drop)]
struct Both {
    book: Book,
    txns: Vec<Txn>,
    initial: Vec<(Key, Value)>,
}

impl Both {
    fn new(alloc: Global, hash: RandomState) -> Both {
        Both {
            book: Book::new(alloc, hash, MOST_EDITS),
            txns: Vec::new(alloc),
            initial: Vec::new(alloc),
        }
    }

    /// Gives the edit to both, and compares what they answer and what is present then.
    fn give(&mut self, rt: &impl Abort, edit: Edit) {
        if self.both_accept(rt, &edit) {
            changed(&mut self.txns, &mut self.initial, edit).expect(rt, "memory");
        }
        assert_same_txns(rt, &self.book, &self.txns);
        assert_same_initial(rt, &self.book, &self.initial);
    }

    /// Whether both accept; they refuse for one reason. The book has the edit then, and the lists don't have it yet.
    fn both_accept(&mut self, rt: &impl Abort, edit: &Edit) -> bool {
        let refusal = plain_refusal(self.txns.as_slice(), self.initial.as_slice(), edit);
        let copy = edit.try_clone().expect(rt, "memory");
        let fault = accept(&mut self.book, copy).err();
        are_same(rt, fault, refusal.map(AcceptFault::Refused));
        refusal.is_none()
    }
}

fn assert_same_txns(rt: &impl Abort, book: &Book, txns: &[Txn]) {
    let present = present_in(book).expect(rt, "memory");
    assert!(rt; present.as_slice() == txns);
}

fn assert_same_initial(rt: &impl Abort, book: &Book, initial: &[(Key, Value)]) {
    let set_up = set_up_in(book).expect(rt, "memory");
    assert!(rt; set_up.as_slice() == initial);
}

fn give_some(rt: &(impl Abort + AllocGlobal), both: &mut Both) {
    let mut state = 1u64;
    for _ in 0..2000 {
        state = next_number(state);
        both.give(rt, some_edit(rt, state));
    }
}

/// Many edits were accepted.
fn is_long(rt: &impl Abort, book: &Book) {
    assert!(rt; book.journal().len() > 200);
}

#[test]
fn the_book_answers_as_the_plain_program(rt: HostRuntime) {
    let hash = RandomState::new(&rt).expect(&rt, "random bytes");
    let mut both = Both::new(rt.alloc(), hash);
    give_some(&rt, &mut both);
    is_long(&rt, &both.book);
    drop(both);
}

#[test]
fn a_fault_is_printed(rt: HostRuntime) {
    let refused = AcceptFault::Refused(Refusal::Full);
    for (fault, wanted) in [
        (AcceptFault::OutOfMemory, "out of memory"),
        (refused, "the edit is refused: Full"),
    ] {
        let text = format!(in rt.alloc(); "{fault}").expect(&rt, "memory");
        are_same(&rt, text.as_str(), wanted);
    }
}
