//! What a book answers to edits that are written as text.

use super::*;
use si_accept::{AcceptFault, Book};
use si_model::{Edit, Key, MOST_EDITS, Number, OutOfMemory, Txn, TxnId, Value};
use si_scripts::{asked, edit_of};
use std::hash::RandomState;
use std::random::RandomSource;

/// Calls `accept` and says nothing of what it does: tests look at that, and their proofs needn't.
pub(super) fn accept(book: &mut Book, edit: Edit) -> Result<Number, AcceptFault> {
    book.accept(edit)
}

/// What is present, of which nothing is said either.
pub(super) fn present_in(book: &Book) -> Result<Vec<Txn>, OutOfMemory> {
    book.present()
}

pub(super) fn set_up_in(book: &Book) -> Result<Vec<(Key, Value)>, OutOfMemory> {
    book.initial()
}

/// A number, or the reason as its variant stands in code.
fn answer(rt: &(impl Abort + AllocGlobal), book: &mut Book, line: &str) -> String {
    let edit = edit_of(rt, line).expect(rt, "an edit");
    match accept(book, edit) {
        Ok(number) => shown_as(rt, number.0),
        Err(AcceptFault::Refused(refusal)) => shown_as(rt, refusal),
        Err(AcceptFault::OutOfMemory) => panic!(rt; "memory is wanted"),
    }
}

/// The ids of what is present, in order.
fn present_text(rt: &(impl Abort + AllocGlobal), book: &Book) -> String {
    let txns = present_in(book).expect(rt, "memory");
    are_same(rt, txns.len(), book.len());
    let mut text = String::new(rt.alloc());
    for txn in &txns {
        write!(text, "{} ", txn.id.0).expect(rt, "memory");
    }
    text
}

/// The keys that are set up with their values, in order.
fn initial_text(rt: &(impl Abort + AllocGlobal), book: &Book) -> String {
    let mut text = String::new(rt.alloc());
    for pair in &set_up_in(book).expect(rt, "memory") {
        write!(text, "{}={} ", pair.0.as_str(), pair.1.0).expect(rt, "memory");
    }
    text
}

/// What became of the transaction with that id, if it is present.
fn status_text(rt: &(impl Abort + AllocGlobal), book: &Book, id: &str) -> String {
    let id = id.parse::<u64>().ok().expect(rt, "an id");
    match book.get(TxnId(id)) {
        Some(txn) => shown_as(rt, txn.status),
        None => String::from_str(rt.alloc(), "absent").expect(rt, "memory"),
    }
}

/// What the book shows: `present`, `initial`, `journal`, `limit`, `empty` or `status 7`; or what it answers to an edit.
fn told(rt: &(impl Abort + AllocGlobal), book: &mut Book, line: &str) -> String {
    if let Some(id) = line.strip_prefix("status ") {
        return status_text(rt, book, id);
    }
    match line {
        "present" => present_text(rt, book),
        "initial" => initial_text(rt, book),
        "journal" => shown_as(rt, book.journal().len()),
        "limit" => shown_as(rt, book.limit()),
        "empty" => shown_as(rt, book.is_empty()),
        _ => answer(rt, book, line),
    }
}

/// Compares what the book tells of what stands before the bar with what stands behind it.
fn give(rt: &(impl Abort + AllocGlobal), book: &mut Book, title: &str, line: &str) {
    let (question, wanted) = asked(line).expect(rt, "an answer");
    let told = told(rt, book, question);
    are_same_in(rt, told.trim(), wanted, (title, line));
}

fn new_book(rt: &(impl Abort + AllocGlobal + RandomSource), limit: usize) -> Book {
    assert!(rt; 1 <= limit && limit <= MOST_EDITS);
    let hash = RandomState::new(rt).expect(rt, "random bytes");
    Book::new(rt.alloc(), hash, limit)
}

/// A new book of that limit answers so, line after line.
pub(super) fn answers(
    rt: &(impl Abort + AllocGlobal + RandomSource),
    limit: usize,
    title: &str,
    script: &str,
) {
    let mut book = new_book(rt, limit);
    for line in script.trim().lines() {
        give(rt, &mut book, title, line.trim());
    }
    drop(book);
}
