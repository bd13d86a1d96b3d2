//! From a line to the evidence that it is: only from the very text as which that is printed.

ghost use Rattle.std.specs.Prelude.{◌≡◌, ◌≤◌, length, IfOk};
ghost use Rattle.std.specs.Option.{IfSome};
ghost use Rattle.si_text.specs.Texts.{shown_text};

use crate::explaining::put_shown;
use serde_json::Value;
use si_model::{Edge, Evidence, Key, KeyedEdge, Knot, Label, OutOfMemory, TxnId, Walk};
use std::alloc::{AllocError, Global};

/// The evidence of which this is the line, without its line feed; none where it is no line of one.
pub fn read_evidence(alloc: Global, line: &[u8]) -> Result<Option<Evidence>, OutOfMemory>
    ensures { IfOk result (λ read. IfSome read (λ evidence. shown_text evidence ≡ line.now)) }
{
    match evidence_in(alloc, line)? {
        Some(evidence) => only_as_printed(alloc, evidence, line),
        None => Ok(None),
    }
}

/// The evidence, if the line is what is printed of it.
fn only_as_printed(
    alloc: Global,
    evidence: Evidence,
    line: &[u8],
) -> Result<Option<Evidence>, OutOfMemory>
    ensures { IfOk result (λ read. IfSome read (λ evidence. shown_text evidence ≡ line.now)) }
{
    let mut text = Vec::new(alloc);
    put_shown(&mut text, &evidence)?;
    if text.as_slice() == line {
        Ok(Some(evidence))
    } else {
        Ok(None)
    }
}

/// The evidence that the line is perhaps.
fn evidence_in(alloc: Global, line: &[u8]) -> Result<Option<Evidence>, OutOfMemory> {
    if let Some(rest) = behind(line, b"  knot") {
        return knot_in(alloc, rest);
    }
    if let Some(rest) = behind(line, b"  fork key=") {
        return fork_in(alloc, rest);
    }
    if let Some(rest) = behind(line, b"  G-SI(b)") {
        return missed_in(alloc, rest);
    }
    if let Some(rest) = behind(line, b"  G-SI(a) ") {
        return Ok(interference_in(rest));
    }
    if let Some(rest) = behind(line, b"  G1a reader=") {
        return Ok(aborted_read_in(rest));
    }
    if let Some(rest) = behind(line, b"  G1b reader=") {
        return Ok(intermediate_read_in(rest));
    }
    Ok(None)
}

// ---- each evidence

fn aborted_read_in(bytes: &[u8]) -> Option<Evidence> {
    let (reader, op, writer) = read_from_in(bytes)?;
    Some(Evidence::AbortedRead { reader, op, writer })
}

fn intermediate_read_in(bytes: &[u8]) -> Option<Evidence> {
    let (reader, op, writer) = read_from_in(bytes)?;
    Some(Evidence::IntermediateRead { reader, op, writer })
}

/// A reader, the place of its read and a writer, and nothing behind them.
fn read_from_in(bytes: &[u8]) -> Option<(TxnId, usize, TxnId)> {
    let (reader, rest) = number_in(bytes)?;
    let (op, rest) = number_in(behind(rest, b" op=")?)?;
    let (writer, _) = number_in(behind(rest, b" writer=")?)?;
    Some((TxnId(reader), op as usize, TxnId(writer)))
}

fn interference_in(bytes: &[u8]) -> Option<Evidence> {
    let (edge, _) = edge_in(bytes)?;
    Some(Evidence::Interference(edge))
}

fn missed_in(alloc: Global, bytes: &[u8]) -> Result<Option<Evidence>, OutOfMemory> {
    let mut edges = Vec::new(alloc);
    let mut rest = bytes;
    for _ in 0..bytes.len() {
        let Some((edge, more)) = next_edge_in(rest) else {
            break;
        };
        edges.push(edge)?;
        rest = more;
    }
    Ok(Some(Evidence::Missed(Walk::from_vec(edges))))
}

fn next_edge_in(bytes: &[u8]) -> Option<(Edge, &[u8])> {
    edge_in(behind(bytes, b" ")?)
}

fn fork_in(alloc: Global, bytes: &[u8]) -> Result<Option<Evidence>, OutOfMemory> {
    let Some((key, rest)) = key_in(alloc, bytes)? else {
        return Ok(None);
    };
    let Some((first, second)) = two_in(rest) else {
        return Ok(None);
    };
    Ok(Some(Evidence::Fork { key, first, second }))
}

/// Two transactions, each behind a space.
fn two_in(bytes: &[u8]) -> Option<(TxnId, TxnId)> {
    let (first, rest) = number_in(behind(bytes, b" ")?)?;
    let (second, _) = number_in(behind(rest, b" ")?)?;
    Some((TxnId(first), TxnId(second)))
}

fn knot_in(alloc: Global, bytes: &[u8]) -> Result<Option<Evidence>, OutOfMemory> {
    let mut edges = Vec::new(alloc);
    let mut rest = bytes;
    for _ in 0..bytes.len() {
        let Some((keyed, more)) = keyed_edge_in(alloc, rest)? else {
            break;
        };
        edges.push(keyed)?;
        rest = behind(more, b",").unwrap_or(b"");
    }
    Ok(Some(Evidence::Knot(Knot::from_vec(edges))))
}

/// An edge behind a space, and its key.
fn keyed_edge_in(alloc: Global, bytes: &[u8]) -> Result<Option<(KeyedEdge, &[u8])>, OutOfMemory> {
    let Some((edge, text)) = edge_with_key_in(bytes) else {
        return Ok(None);
    };
    match key_in(alloc, text)? {
        Some((key, rest)) => Ok(Some((KeyedEdge { edge, key }, rest))),
        None => Ok(None),
    }
}

/// An edge behind a space, and what stands behind ` key=`.
fn edge_with_key_in(bytes: &[u8]) -> Option<(Edge, &[u8])> {
    let (edge, rest) = next_edge_in(bytes)?;
    Some((edge, behind(rest, b" key=")?))
}

// ---- their parts

/// What stands behind the word, where the bytes begin with it.
fn behind<'a>(bytes: &'a [u8], word: &[u8]) -> Option<&'a [u8]> {
    if bytes.len() < word.len() {
        return None;
    }
    let (front, rest) = bytes.split_at(word.len());
    if front == word { Some(rest) } else { None }
}

/// The number that the bytes begin with, and what stands behind it.
fn number_in(bytes: &[u8]) -> Option<(u64, &[u8])> {
    let (digits, rest) = bytes.split_at(digits_in(bytes));
    Some((value_of(digits)?, rest))
}

/// How many digits the bytes begin with.
fn digits_in(bytes: &[u8]) -> usize
    ensures { result ≤ length bytes.now }
{
    for (place, byte) in bytes.iter().enumerate() {
        if !matches!(*byte, b'0'..=b'9') {
            return place;
        }
    }
    bytes.len()
}

/// The value of digits, where it isn't too great.
fn value_of(digits: &[u8]) -> Option<u64> {
    let mut value: u64 = 0;
    for digit in digits {
        let tens = value.checked_mul(10)?;
        value = tens.checked_add(u64::from(digit.saturating_sub(b'0')))?;
    }
    Some(value)
}

/// The edge that the bytes begin with, and what stands behind it.
fn edge_in(bytes: &[u8]) -> Option<(Edge, &[u8])> {
    let (from, rest) = number_in(bytes)?;
    let (label, rest) = label_in(rest)?;
    let (to, rest) = number_in(rest)?;
    let edge = Edge {
        from: TxnId(from),
        to: TxnId(to),
        label,
    };
    Some((edge, rest))
}

fn label_in(bytes: &[u8]) -> Option<(Label, &[u8])> {
    let label = match bytes.get(1)? {
        b'r' => Label::Rw,
        b's' => Label::St,
        _ => match bytes.get(2)? {
            b'r' => Label::Wr,
            _ => Label::Ww,
        },
    };
    if bytes.len() < 5 {
        return None;
    }
    Some((label, bytes.split_at(5).1))
}

/// The key whose JSON text the bytes begin with, and what stands behind it.
fn key_in(alloc: Global, bytes: &[u8]) -> Result<Option<(Key, &[u8])>, OutOfMemory> {
    let (text, rest) = bytes.split_at(length_of_text(bytes));
    let value = match Value::from_slice(alloc, text) {
        Ok(value) => value,
        Err(error) if error.is_memory() => return Err(AllocError),
        Err(_) => return Ok(None),
    };
    let Some(text) = value.as_str() else {
        return Ok(None);
    };
    if !Key::fits(text) {
        return Ok(None);
    }
    Ok(Some((Key::new(alloc, text)?, rest)))
}

/// How many bytes a text in quotes has that the bytes begin with.
fn length_of_text(bytes: &[u8]) -> usize
    ensures { result ≤ length bytes.now }
{
    let mut is_escaped = false;
    for (place, byte) in bytes.iter().enumerate() {
        if is_escaped {
            is_escaped = false;
        } else if *byte == b'\\' {
            is_escaped = true;
        } else if *byte == b'"' && place > 0 {
            return place + 1;
        }
    }
    bytes.len()
}
