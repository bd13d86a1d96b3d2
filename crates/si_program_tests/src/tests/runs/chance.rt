//! Lines by chance, in two to eight sources.

use super::orders::check_order;
use super::{Host, PLAIN};
use si_run::Options;
use si_scripts::chance::Dice;
use si_text::{Asked, ExpectedPlaces};
use std::fmt::Display;
use std::num::NonZeroU64;

/// How many runs there are.
const ROUNDS: u64 = 40;

fn op(rt: &impl Host, kind: &str, key: &str, value: impl Display + Drop) -> String {
    format!(in rt.alloc(); "[\"{kind}\",\"{key}\",{value}]").expect(rt, "memory")
}

/// An operation on one of two keys.
fn op_by(rt: &impl Host, dice: &mut Dice) -> String {
    let key = if dice.below(2) == 0 { "x" } else { "y" };
    let value = dice.below(4);
    match dice.below(4) {
        0 => op(rt, "r", key, "null"),
        1 => op(rt, "r", key, value),
        _ => op(rt, "w", key, value),
    }
}

fn committed(rt: &impl Host, commit: u64) -> String {
    format!(in rt.alloc(); "\"committed\",\"commit\":{commit}").expect(rt, "memory")
}

fn string(rt: &impl Host, text: &str) -> String {
    String::from_str(rt.alloc(), text).expect(rt, "memory")
}

/// A status, of a transaction that starts there.
fn status_by(rt: &impl Host, dice: &mut Dice, start: u64) -> String {
    match dice.below(6) {
        0 => string(rt, "\"aborted\""),
        1 => string(rt, "\"indoubt\""),
        _ => committed(rt, start.saturating_add(dice.below(4))),
    }
}

fn txn(rt: &impl Host, (id, start): (u64, u64), status: &str, ops: (&str, &str)) -> String {
    let (first, second) = ops;
    format!(in rt.alloc();
        "{{\"do\":\"txn\",\"id\":{id},\"start\":{start},\"status\":{status},\"ops\":[{first},{second}]}}"
    ).expect(rt, "memory")
}

/// A transaction, of which nothing makes sure that it will be accepted.
fn txn_by(rt: &impl Host, dice: &mut Dice) -> String {
    let id = dice.below(9);
    let start = dice.below(16);
    let status = status_by(rt, dice, start);
    let first = op_by(rt, dice);
    let second = op_by(rt, dice);
    let ops = (first.as_str(), second.as_str());
    txn(rt, (id, start), status.as_str(), ops)
}

/// The line of that kind, where it is no transaction, with `#` in place of an id and `%` in place of another number.
fn pattern(kind: u64) -> Option<&'static str> {
    match kind {
        0 => Some(""),
        1 => Some("[%]"),
        2 => Some("{\"do\":\"withdraw\",\"id\":#}"),
        3 => Some("{\"do\":\"setup\",\"key\":\"x\",\"value\":%}"),
        4 => Some("{\"do\":\"resolve\",\"id\":#,\"status\":\"aborted\"}"),
        5 => Some("{\"do\":\"resolve\",\"id\":#,\"status\":\"committed\",\"commit\":%}"),
        _ => None,
    }
}

/// The line with this number in place of that mark.
fn with_number(rt: &impl Host, line: &str, mark: &str, number: u64) -> String {
    let number = format!(in rt.alloc(); "{number}").expect(rt, "memory");
    line.replace(rt.alloc(), mark, number.as_str())
        .expect(rt, "memory")
}

fn with_numbers(rt: &impl Host, line: &str, id: u64, number: u64) -> String {
    with_number(rt, with_number(rt, line, "#", id).as_str(), "%", number)
}

/// A line of any kind.
fn line_by(rt: &impl Host, dice: &mut Dice) -> String {
    let id = dice.below(9);
    let number = dice.below(16);
    match pattern(dice.below(12)) {
        Some(line) => with_numbers(rt, line, id, number),
        None => txn_by(rt, dice),
    }
}

/// The text of a source of up to twelve lines.
fn text_by(rt: &impl Host, dice: &mut Dice) -> String {
    let mut text = String::new(rt.alloc());
    for _ in 0..dice.below(13) {
        let line = line_by(rt, dice);
        text.push_str(line.as_str()).expect(rt, "memory");
        text.push('\n').expect(rt, "memory");
    }
    text
}

/// The texts of two to eight sources.
fn texts_by(rt: &impl Host, dice: &mut Dice) -> Vec<String> {
    let mut texts = Vec::new(rt.alloc());
    for _ in 0..dice.below(7) + 2 {
        texts.push(text_by(rt, dice)).expect(rt, "memory");
    }
    texts
}

/// Options of any kind.
fn options_by(dice: &mut Dice) -> Options {
    Options {
        shards: dice.below(16) as usize + 1,
        every: NonZeroU64::new(dice.below(4)),
        explain: dice.below(2) == 0,
        only_new: dice.below(2) == 0,
        expected: expected_by(dice),
        asked: asked_by(dice),
        ..PLAIN
    }
}

/// Something asked of what could have been found, or nothing.
fn asked_by(dice: &mut Dice) -> Asked {
    Asked {
        tells: dice.below(2) == 0,
        expected: ExpectedPlaces {
            own: None,
            aborted: None,
            intermediate: None,
            future: expected_by(dice),
            stale: expected_by(dice),
            overlap: None,
        },
    }
}

/// No number, or a small one.
fn expected_by(dice: &mut Dice) -> Option<u64> {
    match dice.below(3) {
        0 => None,
        _ => Some(dice.below(20)),
    }
}

fn parts_of<'a>(rt: &impl Host, texts: &'a [String]) -> Vec<&'a str> {
    let mut parts = Vec::new(rt.alloc());
    for text in texts {
        parts.push(text.as_str()).expect(rt, "memory");
    }
    parts
}

/// A run over these texts, with options by chance.
fn check_texts(rt: &impl Host, dice: &mut Dice, texts: &[String]) {
    let parts = parts_of(rt, texts);
    check_order(rt, parts.as_slice(), options_by(dice));
}

#[test]
fn lines_of_many_sources(rt: HostRuntime) {
    for round in 0..ROUNDS {
        let mut dice = Dice::new(round);
        let texts = texts_by(&rt, &mut dice);
        check_texts(&rt, &mut dice, texts.as_slice());
    }
}
