//! The order in which items are decided, as the gate tells it, and the text of one source that has their lines in that order.

use super::{Host, are_same, ended, ended_gated};
use si_run::{Gate, Options, Place};
use si_text::memory::MemorySink;
use std::mem;
use std::sync::{Mutex, Wait};

/// The source and the line of an item.
type Decided = (usize, u64);

/// The items that were decided, in their order, where there was memory for all.
#[derive(Drop)]
struct Noted {
    items: Vec<Decided>,
    is_whole: bool,
}

/// Notes the items that are decided.
#[derive(Drop)]
struct Noting<'a, R> {
    rt: &'a R,
    noted: Mutex<Noted>,
}

impl<'a, R: Wait> Gate for Noting<'a, R> {
    fn at(&self, place: Place) {
        if let Place::Decided { source, line } = place {
            let mut guard = self.noted.lock(self.rt);
            let noted = &mut *guard;
            if noted.items.push((source, line)).is_err() {
                noted.is_whole = false;
            }
        }
    }
}

/// A gate that has noted nothing.
fn new_gate<R: Host>(rt: &R) -> Noting<'_, R> {
    let noted = Mutex::new(Noted {
        items: Vec::new(rt.alloc()),
        is_whole: true,
    });
    Noting { rt, noted }
}

/// What was noted, of all items.
fn order_of<R: Host>(rt: &R, gate: &Noting<'_, R>) -> Vec<Decided> {
    let mut guard = gate.noted.lock(rt);
    let noted = &mut *guard;
    assert!(rt; noted.is_whole);
    mem::replace(&mut noted.items, Vec::new(rt.alloc()))
}

/// The text of a run over these texts, and the order in which their lines were decided.
fn run_noted<R: Host>(rt: &R, texts: &[&str], options: Options) -> (MemorySink, Vec<Decided>) {
    let gate = new_gate(rt);
    let ended = ended_gated(rt, texts, (50, 100), options, &gate);
    assert!(rt; ended.status.is_ok());
    (ended.out, order_of(rt, &gate))
}

/// The line of that number, counted from 1.
fn line_at(text: &str, number: u64) -> Option<&str> {
    for (at, line) in text.lines().enumerate() {
        if at as u64 == number.wrapping_sub(1) {
            return Some(line);
        }
    }
    None
}

/// The lines in that order, as one text.
fn in_order(rt: &impl Host, texts: &[&str], order: &[Decided]) -> String {
    let mut all = String::new(rt.alloc());
    for (source, number) in order {
        let text = texts.get(*source).expect(rt, "a source");
        let line = line_at(text, *number).expect(rt, "a line of the source");
        all.push_str(line).expect(rt, "memory");
        all.push('\n').expect(rt, "memory");
    }
    all
}

/// The item of that place in that order, counted from 1.
fn item_at(rt: &impl Host, place: &str, order: &[Decided]) -> Decided {
    let place = place.parse::<usize>().ok().expect(rt, "a number");
    *order
        .get(place.wrapping_sub(1))
        .expect(rt, "one of the lines")
}

/// What is told of a refused item, with its source and line in place of the place that it has in that order.
fn refusal_put_back(rt: &impl Host, told: &str, order: &[Decided]) -> String {
    let (place, reason) = told.split_once(' ').expect(rt, "a reason");
    let (source, line) = item_at(rt, place, order);
    format!(in rt.alloc(); "refused source={source} line={line} {reason}\n").expect(rt, "memory")
}

/// The line with the source and line of a refused item put back, where it tells of one.
fn row_put_back(rt: &impl Host, row: &str, order: &[Decided]) -> String {
    match row.strip_prefix("refused source=0 line=") {
        Some(told) => refusal_put_back(rt, told, order),
        None => format!(in rt.alloc(); "{row}\n").expect(rt, "memory"),
    }
}

/// The text with each line put back.
fn put_back(rt: &impl Host, text: &str, order: &[Decided]) -> String {
    let mut all = String::new(rt.alloc());
    for row in text.lines() {
        let row = row_put_back(rt, row, order);
        all.push_str(row.as_str()).expect(rt, "memory");
    }
    all
}

/// The lines of the source in the order in which they were decided.
fn lines_decided(rt: &impl Host, order: &[Decided], source: usize) -> Vec<u64> {
    let mut taken = Vec::new(rt.alloc());
    for (from, line) in order {
        if *from == source {
            taken.push(*line).expect(rt, "memory");
        }
    }
    taken
}

/// The numbers of the lines that aren't blank.
fn lines_given(rt: &impl Host, text: &str) -> Vec<u64> {
    let mut wanted = Vec::new(rt.alloc());
    for (at, line) in text.lines().enumerate() {
        if !line.is_empty() {
            wanted
                .push((at as u64).wrapping_add(1))
                .expect(rt, "memory");
        }
    }
    wanted
}

/// The lines of each text were decided, each once and in their order.
fn are_decided(rt: &impl Host, texts: &[&str], order: &[Decided]) {
    for (source, text) in texts.iter().enumerate() {
        are_same(rt, lines_decided(rt, order, source), lines_given(rt, text));
    }
}

/// What a run over this one text writes, put back to the sources and lines in that order.
fn written_in_order(rt: &impl Host, lines: &str, options: Options, order: &[Decided]) -> String {
    let one = ended(rt, [lines].as_slice(), (4096, 4096), options);
    assert!(rt; one.status.is_ok());
    let text = str::from_utf8(one.out.as_slice()).expect(rt, "the output is text");
    put_back(rt, text, order)
}

/// What was written is what one source would give that has the lines in that order.
fn is_of_order(
    rt: &impl Host,
    written: &[u8],
    texts: &[&str],
    options: Options,
    order: &[Decided],
) {
    let lines = in_order(rt, texts, order);
    let wanted = written_in_order(rt, lines.as_str(), options, order);
    are_same(rt, written, wanted.as_bytes());
}

/// A run over these texts, in which blank lines are empty, decides all their lines, each once and those of a source in their order,
/// and writes what one source would give that has them in the order in which they were decided.
pub(super) fn check_order(rt: &impl Host, texts: &[&str], options: Options) {
    let (out, order) = run_noted(rt, texts, options);
    are_decided(rt, texts, order.as_slice());
    is_of_order(rt, out.as_slice(), texts, options, order.as_slice());
}
