//! Edits as words.

use crate::ScriptFault;
use crate::lines::{halves, number};
use si_model::operations::MOST_OPS;
use si_model::{Edit, Key, Op, Ops, Outcome, Stamp, Status, Txn, TxnId, Value};
use std::alloc::AllocGlobal;
use std::str::SplitAsciiWhitespace;

/// The key with that text.
pub fn key(rt: &impl AllocGlobal, text: &str) -> Result<Key, ScriptFault> {
    if !Key::fits(text) {
        return Err(ScriptFault::Wanted("a key"));
    }
    Ok(Key::new(rt.alloc(), text)?)
}

/// Operations as a transaction has them.
pub fn ops_of(ops: Vec<Op>) -> Result<Ops, ScriptFault> {
    if ops.len() > MOST_OPS {
        return Err(ScriptFault::Wanted("fewer operations"));
    }
    Ok(Ops::from_vec(ops)?)
}

/// A key and a value, as `x=5`.
pub(crate) fn pair_of(rt: &impl AllocGlobal, word: &str) -> Result<(Key, Value), ScriptFault> {
    let (text, value) = halves(word, '=', "a pair")?;
    Ok((key(rt, text)?, Value(number(value)?)))
}

/// What a read returned: a value, or `null`.
fn returned(word: &str) -> Result<Option<Value>, ScriptFault> {
    Ok(match word {
        "null" => None,
        value => Some(Value(number(value)?)),
    })
}

/// A write, as `x=5`, or a read, as `x?5`.
pub fn op_of(rt: &impl AllocGlobal, word: &str) -> Result<Op, ScriptFault> {
    match word.split_once('?') {
        Some((text, read)) => Ok(Op::Read(key(rt, text)?, returned(read)?)),
        None => {
            let (key, value) = pair_of(rt, word)?;
            Ok(Op::Write(key, value))
        }
    }
}

/// A commit stamp, `aborted` or `indoubt`.
fn status_of(word: &str) -> Result<Status, ScriptFault> {
    Ok(match word {
        "aborted" => Status::Aborted,
        "indoubt" => Status::InDoubt,
        commit => Status::Committed(Stamp(number(commit)?)),
    })
}

/// The word, or what is wanted where it is missing.
fn word<'a>(next: Option<&'a str>, wanted: &'static str) -> Result<&'a str, ScriptFault> {
    next.ok_or(ScriptFault::Wanted(wanted))
}

/// The operations of these words.
fn all_ops(rt: &impl AllocGlobal, words: SplitAsciiWhitespace<'_>) -> Result<Vec<Op>, ScriptFault> {
    let mut ops = Vec::new(rt.alloc());
    for word in words {
        ops.push(op_of(rt, word)?)?;
    }
    Ok(ops)
}

/// An id, a start stamp, a status and the operations, as `1 3 6 x?null y=2`.
pub fn txn_of(rt: &impl AllocGlobal, text: &str) -> Result<Txn, ScriptFault> {
    let mut words = text.split_ascii_whitespace();
    let id = number(word(words.next(), "an id")?)?;
    let start = number(word(words.next(), "a start")?)?;
    let status = status_of(word(words.next(), "a status")?)?;
    Ok(Txn {
        id: TxnId(id),
        start: Stamp(start),
        status,
        ops: ops_of(all_ops(rt, words)?)?,
    })
}

/// An id, and a commit stamp or `aborted`.
fn resolution_of(text: &str) -> Result<Edit, ScriptFault> {
    let (id, became) = halves(text, ' ', "a status")?;
    let outcome = match status_of(became)? {
        Status::Committed(commit) => Outcome::Committed(commit),
        Status::Aborted => Outcome::Aborted,
        Status::InDoubt => return Err(ScriptFault::Wanted("an outcome")),
    };
    Ok(Edit::Resolve(TxnId(number(id)?), outcome))
}

/// `arrive 1 3 6 x=1 y=2`, `resolve 1 6`, `withdraw 1` or `setup x=5`.
pub fn edit_of(rt: &impl AllocGlobal, line: &str) -> Result<Edit, ScriptFault> {
    let (kind, rest) = halves(line, ' ', "an edit")?;
    Ok(match kind {
        "arrive" => Edit::Arrive(txn_of(rt, rest)?),
        "resolve" => resolution_of(rest)?,
        "withdraw" => Edit::Withdraw(TxnId(number(rest)?)),
        "setup" => {
            let (key, value) = pair_of(rt, rest)?;
            Edit::SetUp(key, value)
        }
        _ => return Err(ScriptFault::Wanted("an edit")),
    })
}
