//! What was worked out by hand: histories with their findings and evidence, what is answered to edits, what lines say, and what is
//! written.

mod book_scripts;
mod books;
mod chances;
mod commit_order;
mod devices;
mod evidence;
mod findings;
mod histories;
mod inputs;
mod known_keys;
mod large;
mod partitions;
mod readings;
mod refusals;
mod refused_memory;
mod texts;
mod values;

ghost use Rattle.std.specs.Prelude.{[]};

use si_text::Foreseen;
use std::alloc::AllocGlobal;
use std::fmt::{Debug, Display};
use std::hash::RandomState;
use std::process::Abort;
use std::random::RandomSource;

/// What the tests of lines and texts need.
trait Host: AllocGlobal + Abort + RandomSource {}

impl<R: AllocGlobal + Abort + RandomSource> Host for R {}

/// Some bytes: what sources give is seen by the tests.
struct Any;

impl Foreseen for Any {
    ghost bytes = { λ _. [] };
}

/// A secret key for the hash maps.
fn secret_key(rt: &impl Host) -> RandomState {
    RandomState::new(rt).expect(rt, "a secret key")
}

/// The two are the same. They are moved here, so that no other proof sees how they are compared and let go.
fn are_same<T: PartialEq + Debug + Drop>(rt: &impl Abort, found: T, wanted: T) {
    assert_eq!(rt; found, wanted);
}

/// The two are the same, at that place of a test.
fn are_same_at<T: PartialEq + Debug + Drop>(
    rt: &impl Abort,
    found: T,
    wanted: T,
    place: impl Display + Drop,
) {
    assert_eq!(rt; found, wanted, "at {place}");
}

/// The two are the same, in that line of what the title names.
fn are_same_in<T: PartialEq + Debug + Drop>(
    rt: &impl Abort,
    found: T,
    wanted: T,
    (title, line): (&str, &str),
) {
    assert_eq!(rt; found, wanted, "{title}: {line}");
}

/// The bytes of the text.
fn bytes_of(rt: &impl Host, text: &str) -> Vec<u8> {
    Vec::from_slice(rt.alloc(), text.as_bytes()).expect(rt, "memory")
}

/// What was written, which is text.
fn text_of<'a>(rt: &impl Host, written: &'a [u8]) -> &'a str {
    str::from_utf8(written).expect(rt, "text")
}

/// This text was written.
fn is_text(rt: &impl Host, written: &[u8], text: &str) {
    are_same(rt, text_of(rt, written), text);
}

/// The part so many times.
fn repeated(rt: &impl Host, part: &str, count: usize) -> String {
    let mut text = String::new(rt.alloc());
    for _ in 0..count {
        text.push_str(part).expect(rt, "memory");
    }
    text
}

/// What stands before the bar, and behind it.
fn halves<'a>(rt: &impl Host, row: &'a str) -> (&'a str, &'a str) {
    let (before, behind) = row.split_once('|').expect(rt, "a bar");
    (before.trim(), behind.trim())
}

/// The value as it stands in code.
fn shown_as(rt: &(impl Abort + AllocGlobal), value: impl Debug + Drop) -> String {
    format!(in rt.alloc(); "{value:?}").expect(rt, "memory")
}
