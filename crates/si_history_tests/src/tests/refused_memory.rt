//! What a book shows after the growth of some memory was refused inside `accept`.
//!
//! A plain run refuses no memory, and these tests then see only that each edit is accepted. With
//! `rt try --test --fail-alloc N` the Nth allocation of each test is refused. Where `accept` told of it the test writes
//! `refused`, and the book is compared with what it was. Where that memory was wanted elsewhere, the call is made again. The end is
//! the same whatever was refused.

use super::book_scripts::{accept, present_in, set_up_in};
use super::chances::{LINES, THERE, counted};
use super::*;
use si_accept::{AcceptFault, Book};
use si_model::{
    Edit, Finding, Key, MOST_EDITS, Number, Refusal, Txn, TxnId, Value, findings_of, is_history,
};
use si_scripts::{
    History, OVERLAP_AFTER_WITHDRAWAL, RESOLUTION, RowLine, STALE_READ, VALUE_FREE_AGAIN,
    WorkedRow, edit_of, found_text, present, row_line,
};
use std::hash::RandomState;
use std::random::RandomSource;

/// What a book has accepted, and what is present before and after one more edit: edits, and transactions as they would
/// arrive, a line for each.
#[derive(Clone, Copy)]
struct Case<'a> {
    accepted: &'a str,
    before: &'a str,
    after: &'a str,
    // How long the journal is, and how many keys are set up, before and after.
    journal: (usize, usize),
    set_up: (usize, usize),
}

/// The edit that the words say. Where memory is refused they are read again.
fn edit(rt: &(impl Abort + AllocGlobal), words: &str) -> Edit {
    match edit_of(rt, words) {
        Ok(edit) => edit,
        Err(_) => edit_of(rt, words).expect(rt, "an edit"),
    }
}

fn copy_of(rt: &impl Abort, edit: &Edit) -> Edit {
    match edit.try_clone() {
        Ok(copy) => copy,
        Err(_) => edit.try_clone().expect(rt, "memory"),
    }
}

fn all_of(rt: &(impl Abort + AllocGlobal), lines: &str) -> History {
    match present(rt, lines) {
        Ok(history) => history,
        Err(_) => present(rt, lines).expect(rt, "a history"),
    }
}

fn txns_in(rt: &impl Abort, book: &Book) -> Vec<Txn> {
    match present_in(book) {
        Ok(txns) => txns,
        Err(_) => present_in(book).expect(rt, "memory"),
    }
}

fn values_in(rt: &impl Abort, book: &Book) -> Vec<(Key, Value)> {
    match set_up_in(book) {
        Ok(values) => values,
        Err(_) => set_up_in(book).expect(rt, "memory"),
    }
}

/// The book finds the transaction by its id, or none where none has it.
fn assert_found_at(rt: &impl Abort, book: &Book, wanted: &[Txn], id: u64) {
    for txn in wanted {
        if txn.id.0 == id {
            are_same_at(rt, book.get(TxnId(id)), Some(txn), id);
            return;
        }
    }
    are_same_at(rt, book.get(TxnId(id)), None, id);
}

/// The book shows these transactions, and finds each by its id and no other.
fn assert_found(rt: &impl Abort, book: &Book, wanted: &[Txn]) {
    are_same(rt, book.len(), wanted.len());
    assert!(rt; txns_in(rt, book).as_slice() == wanted);
    for id in 0..12u64 {
        assert_found_at(rt, book, wanted, id);
    }
}

/// The book shows exactly these transactions, so many keys that are set up, and a journal of that length.
fn assert_shown(
    rt: &(impl Abort + AllocGlobal),
    book: &Book,
    lines: &str,
    journal: usize,
    set_up: usize,
) {
    are_same(rt, values_in(rt, book).len(), set_up);
    are_same(rt, book.journal().len(), journal);
    let wanted = all_of(rt, lines);
    assert_found(rt, book, &wanted.txns);
    drop(wanted);
}

/// Gives the book the edit. Where memory is refused, the book has to be as before and is given the edit again.
fn give_in_the_end(
    rt: &(impl Abort + AllocGlobal + Print),
    book: &mut Book,
    case: Case<'_>,
    edit: &Edit,
) {
    let mut answer = accept(book, copy_of(rt, edit));
    if answer == Err(AcceptFault::OutOfMemory) {
        println!(rt; "refused").expect(rt, "output");
        assert_shown(rt, book, case.before, case.journal.0, case.set_up.0);
        answer = accept(book, copy_of(rt, edit));
    }
    are_same(rt, answer, Ok(Number(case.journal.1 as u64)));
}

/// Gives the edit. Where memory is refused, it is given again.
fn give(rt: &(impl Abort + AllocGlobal), book: &mut Book, line: &str) {
    if accept(book, edit(rt, line)).is_err() {
        are_same_at(rt, accept(book, edit(rt, line)).is_ok(), true, line);
    }
}

/// The book accepts what the case says, and the edit in the end.
fn give_case(
    rt: &(impl Abort + AllocGlobal + Print),
    book: &mut Book,
    case: Case<'_>,
    edit: &Edit,
) {
    for line in case.accepted.trim().lines() {
        give(rt, book, line.trim());
    }
    give_in_the_end(rt, book, case, edit);
    assert_shown(rt, book, case.after, case.journal.1, case.set_up.1);
    assert!(rt; book.journal().last() == Some(edit));
}

fn accept_in_the_end(
    rt: &(impl Abort + AllocGlobal + Print + RandomSource),
    case: Case<'_>,
    line: &str,
) {
    let hash = RandomState::new(rt).expect(rt, "random bytes");
    let mut book = Book::new(rt.alloc(), hash, MOST_EDITS);
    let edit = edit(rt, line);
    give_case(rt, &mut book, case, &edit);
    drop(edit);
    drop(book);
}

#[test]
fn an_arrival_is_accepted_in_the_end(rt: HostRuntime) {
    // The first edit of a book: the journal, what is present and each index have to grow.
    let case = Case {
        accepted: "",
        before: "",
        after: "5 3 10 x=1 y=1",
        journal: (0, 1),
        set_up: (0, 0),
    };
    accept_in_the_end(&rt, case, "arrive 5 3 10 x=1 y=1");
}

/// The words with this between them. Where memory is refused they are joined again.
fn joined(rt: &(impl Abort + AllocGlobal), front: &str, between: &str, back: &str) -> String {
    match format!(in rt.alloc(); "{front}{between}{back}") {
        Ok(text) => text,
        Err(_) => format!(in rt.alloc(); "{front}{between}{back}").expect(rt, "memory"),
    }
}

/// A transaction with over 32 operations, which writes each value to both of two keys.
const MANY_WRITES: &str =
    "6 3 11 a=0 b=0 a=1 b=1 a=2 b=2 a=3 b=3 a=4 b=4 a=5 b=5 a=6 b=6 a=7 b=7 a=8 b=8 a=9 b=9 a=10 b=10 a=11 b=11 \
    a=12 b=12 a=13 b=13 a=14 b=14 a=15 b=15 a=16 b=16 a=17 b=17 a=18 b=18 a=19 b=19 a=20 b=20 a=21 b=21 a=22 b=22 a=23 b=23";

#[test]
fn many_operations_are_accepted_in_the_end(rt: HostRuntime) {
    // Over 32 operations are looked up in an index of their own.
    let before = "5 3 10 a=24";
    let after = joined(&rt, before, "\n", MANY_WRITES);
    let arrival = joined(&rt, "arrive", " ", MANY_WRITES);
    let case = Case {
        accepted: "arrive 5 3 10 a=24",
        before,
        after: after.as_str(),
        journal: (1, 2),
        set_up: (0, 0),
    };
    accept_in_the_end(&rt, case, arrival.as_str());
}

#[test]
fn a_resolution_is_accepted_in_the_end(rt: HostRuntime) {
    // After four edits the journal has to grow, and no transaction has a commit yet.
    let case = Case {
        accepted: "
            arrive 7 1 indoubt x=1
            arrive 5 1 indoubt
            arrive 9 11 aborted
            arrive 3 9 indoubt",
        before: "
            7 1 indoubt x=1
            5 1 indoubt
            9 11 aborted
            3 9 indoubt",
        after: "
            7 1 indoubt x=1
            5 1 40
            9 11 aborted
            3 9 indoubt",
        journal: (4, 5),
        set_up: (0, 0),
    };
    accept_in_the_end(&rt, case, "resolve 5 40");
}

#[test]
fn a_withdrawal_is_accepted_in_the_end(rt: HostRuntime) {
    // After eight edits the journal has to grow.
    let case = Case {
        accepted: "
            arrive 7 1 indoubt
            arrive 5 1 10 x=1
            arrive 9 11 20
            arrive 3 9 aborted
            arrive 4 9 30
            withdraw 7
            withdraw 9
            withdraw 4",
        before: "
            5 1 10 x=1
            3 9 aborted",
        after: "3 9 aborted",
        journal: (8, 9),
        set_up: (0, 0),
    };
    accept_in_the_end(&rt, case, "withdraw 5");
}

#[test]
fn a_set_up_is_accepted_in_the_end(rt: HostRuntime) {
    // The first key that is set up: the journal and the values have to grow.
    let case = Case {
        accepted: "",
        before: "",
        after: "",
        journal: (0, 1),
        set_up: (0, 1),
    };
    accept_in_the_end(&rt, case, "setup x=1");
}

#[test]
fn chances_are_counted_in_the_end(rt: HostRuntime) {
    let mut book = Book::new(rt.alloc(), secret_key(&rt), MOST_EDITS);
    for line in LINES.trim().lines() {
        give(&rt, &mut book, line.trim());
    }
    let mut answer = counted(&rt, &book, secret_key(&rt));
    if answer.is_err() {
        println!(rt; "refused").expect(&rt, "output");
        answer = counted(&rt, &book, secret_key(&rt));
    }
    are_same(&rt, answer, Ok(THERE));
    drop(book);
}

/// What a book shows.
fn shown_by(rt: &impl Abort, book: &Book) -> History {
    History {
        txns: txns_in(rt, book),
        initial: values_in(rt, book),
    }
}

/// The book shows this, and has a journal of that length.
fn is_shown(rt: &impl Abort, book: &Book, before: &History, journal: u64) {
    are_same(rt, book.journal().len() as u64, journal);
    are_same(rt, values_in(rt, book).len(), before.initial.len());
    assert_found(rt, book, &before.txns);
}

/// Gives the book an edit of a row, before which it accepted so many, and which is refused where there is a reason. Where memory is
/// refused, the book has to be as before and is given the edit again. Answers how many it accepted then.
fn give_in_turn(
    rt: &(impl Abort + AllocGlobal + Print),
    book: &mut Book,
    (words, reason): (&str, Option<Refusal>),
    accepted: u64,
) -> u64 {
    let before = shown_by(rt, book);
    let mut answer = accept(book, edit(rt, words));
    if answer == Err(AcceptFault::OutOfMemory) {
        println!(rt; "refused").expect(rt, "output");
        is_shown(rt, book, &before, accepted);
        answer = accept(book, edit(rt, words));
    }
    drop(before);
    if let Some(refusal) = reason {
        assert!(rt; answer == Err(AcceptFault::Refused(refusal)));
        return accepted;
    }
    let after = accepted.saturating_add(1);
    are_same(rt, answer, Ok(Number(after)));
    after
}

/// What the plain program finds, which is asked again where memory is refused.
fn plainly_found(rt: &(impl Abort + AllocGlobal), shown: &History) -> Vec<Finding> {
    assert!(rt; is_history(&shown.txns, &shown.initial));
    match findings_of(rt.alloc(), &shown.txns, &shown.initial) {
        Ok(found) => found,
        Err(_) => findings_of(rt.alloc(), &shown.txns, &shown.initial).expect(rt, "memory"),
    }
}

/// The plain program finds these on what the book shows.
fn are_found(rt: &(impl Abort + AllocGlobal), shown: &History, wanted: &str) {
    let found = plainly_found(rt, shown);
    let text = match found_text(rt, &found) {
        Ok(text) => text,
        Err(_) => found_text(rt, &found).expect(rt, "memory"),
    };
    are_same(rt, text.as_str(), wanted);
    drop(text);
    drop(found);
}

/// Plays the row on the book.
fn play_on(rt: &(impl Abort + AllocGlobal + Print), book: &mut Book, row: WorkedRow) {
    let mut accepted = 0;
    for line in row.script.trim().lines() {
        match row_line(line.trim()).expect(rt, "a line of a row") {
            RowLine::Edit(words, reason) => {
                accepted = give_in_turn(rt, book, (words, reason), accepted);
            }
            RowLine::Found(found) => are_found(rt, &shown_by(rt, book), found),
        }
    }
    let shown = shown_by(rt, book);
    are_same(rt, (shown.txns.len(), shown.initial.len()), row.present);
    are_found(rt, &shown, row.found);
    drop(shown);
}

fn play(rt: &(impl Abort + AllocGlobal + Print + RandomSource), row: WorkedRow) {
    let hash = RandomState::new(rt).expect(rt, "random bytes");
    let mut book = Book::new(rt.alloc(), hash, MOST_EDITS);
    play_on(rt, &mut book, row);
    drop(book);
}

#[test]
fn a_stale_read_is_accepted_in_the_end(rt: HostRuntime) {
    play(&rt, STALE_READ);
}

#[test]
fn an_overlap_after_a_withdrawal_is_accepted_in_the_end(rt: HostRuntime) {
    play(&rt, OVERLAP_AFTER_WITHDRAWAL);
}

#[test]
fn what_is_read_in_doubt_is_accepted_in_the_end(rt: HostRuntime) {
    play(&rt, RESOLUTION);
}

#[test]
fn a_value_is_free_again_in_the_end(rt: HostRuntime) {
    play(&rt, VALUE_FREE_AGAIN);
}
