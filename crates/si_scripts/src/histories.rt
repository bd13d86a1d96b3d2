//! What a script leaves present, by the plain definition.

use crate::ScriptFault;
use crate::edits::{pair_of, txn_of};
use si_model::{Key, Txn, Value};
use std::alloc::AllocGlobal;

/// What is present.
#[derive(Drop)]
pub struct History {
    pub txns: Vec<Txn>,
    pub initial: Vec<(Key, Value)>,
}

/// Adds what a line of a history says: a transaction, or a set-up value as `setup x=5`.
fn add(rt: &impl AllocGlobal, history: &mut History, line: &str) -> Result<(), ScriptFault> {
    match line.strip_prefix("setup ") {
        Some(pair) => history.initial.push(pair_of(rt, pair)?)?,
        None => history.txns.push(txn_of(rt, line)?)?,
    }
    Ok(())
}

/// What the lines say, which may be no history.
pub fn present(rt: &impl AllocGlobal, lines: &str) -> Result<History, ScriptFault> {
    let mut history = History {
        txns: Vec::new(rt.alloc()),
        initial: Vec::new(rt.alloc()),
    };
    for line in lines.trim().lines() {
        add(rt, &mut history, line.trim())?;
    }
    Ok(history)
}
