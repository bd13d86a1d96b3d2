//! What the state of a key answers to edits that are written as text.

use super::*;
use si_model::Finding;
use si_scripts::key;

/// The kinds of what is found on the key, in order.
fn told(rt: &(impl Abort + AllocGlobal), found: &[Finding]) -> String {
    let mut text = String::new(rt.alloc());
    for finding in found {
        let kind = shown_as(rt, finding.kind);
        write!(text, "{kind} ").expect(rt, "memory");
    }
    text
}

/// Gives an edit, and tells what is found then, or the reason against it.
fn answer(rt: &(impl Abort + AllocGlobal), beside: &mut Beside, words: &str) -> String {
    match beside.compare(rt, &edit(rt, words)) {
        Some(refusal) => shown_as(rt, refusal),
        None => told(rt, &beside.found(rt)),
    }
}

/// Gives an edit, and compares how many judgements it cost, where a number stands for the most that it may, and what is
/// found then, or the reason against it.
fn give(rt: &(impl Abort + AllocGlobal), beside: &mut Beside, line: &str) {
    let (words, rest) = line.split_once('|').expect(rt, "a number");
    let (most, wanted) = rest.split_once('|').expect(rt, "findings");
    let judged = beside.state.judged();
    let answer = answer(rt, beside, words.trim());
    are_same_at(rt, answer.trim(), wanted.trim(), line);
    let cost = beside.state.judged().saturating_sub(judged);
    is_at_most(rt, cost, most.trim(), line);
}

/// The count is at most the number, where one stands there.
fn is_at_most(rt: &impl Abort, count: u64, most: &str, line: &str) {
    if !most.is_empty() {
        let most = most.parse::<u64>().ok().expect(rt, "a number");
        are_same_at(rt, count <= most, true, line);
    }
}

/// The state of the key of that name, on which nothing is. In a box it is a pointer to its owner, of which less has to be proved.
pub(super) fn new_beside(rt: &(impl Abort + AllocGlobal), name: &str) -> Box<Beside> {
    let key = key(rt, name).expect(rt, "a key");
    let beside = Beside::new(rt.alloc(), key).expect(rt, "memory");
    Box::new(rt.alloc(), beside).expect(rt, "memory")
}

/// Gives the edits of a script to the state of a key on which nothing is.
pub(super) fn answers(rt: &(impl Abort + AllocGlobal), name: &str, script: &str) {
    let mut beside = new_beside(rt, name);
    for line in script.trim().lines() {
        give(rt, &mut *beside, line.trim());
    }
    drop(beside);
}
