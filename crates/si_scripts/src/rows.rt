//! Worked rows that several crates of tests play, and findings as text.

use crate::ScriptFault;
use crate::lines::number;
use si_model::{Finding, Refusal, TxnId};
use std::alloc::AllocGlobal;

/// Edits with what is found of them, all worked out by hand.
#[derive(Clone, Copy)]
pub struct WorkedRow {
    /// A line for each edit, and for what is found on the way.
    pub script: &'static str,
    /// What is found in the end.
    pub found: &'static str,
    /// How many transactions are present in the end, and how many set-up values.
    pub present: (usize, usize),
}

/// What a line of a row says.
#[derive(Clone, Copy)]
pub enum RowLine<'a> {
    /// The words of an edit, and the reason against it, if it is refused.
    Edit(&'a str, Option<Refusal>),
    /// What is found by then.
    Found(&'a str),
}

/// `findings | ..`; an edit; or one that is refused since a transaction holds the value of its first operation, as
/// `arrive 2 3 4 x=5 | taken by 1`.
pub fn row_line(line: &str) -> Result<RowLine<'_>, ScriptFault> {
    if let Some(found) = line.strip_prefix("findings | ") {
        return Ok(RowLine::Found(found));
    }
    Ok(match line.split_once(" | taken by ") {
        None => RowLine::Edit(line, None),
        Some((words, holder)) => RowLine::Edit(words, Some(taken_by(number(holder)?))),
    })
}

fn taken_by(holder: u64) -> Refusal {
    Refusal::ValueTaken {
        op: 0,
        holder: TxnId(holder),
    }
}

/// 2 misses what 1 wrote.
pub const STALE_READ: WorkedRow = WorkedRow {
    script: "
        arrive 1 1 2 x=1
        arrive 2 3 4 x?null",
    found: "x Stale { txn: TxnId(2), op: 0, read: None, missed: TxnId(1) }",
    present: (2, 0),
};

/// 3 overlaps 2, and 1 once 2 is withdrawn.
pub const OVERLAP_AFTER_WITHDRAWAL: WorkedRow = WorkedRow {
    script: "
        arrive 1 1 10 x=1
        arrive 2 11 20 x=2
        arrive 3 9 30 x=3
        findings | x Overlap { first: TxnId(2), second: TxnId(3) }
        withdraw 2",
    found: "x Overlap { first: TxnId(1), second: TxnId(3) }",
    present: (2, 0),
};

/// 2 reads from 1 while that is in doubt. Once it is resolved its own read counts, of what nobody wrote.
pub const RESOLUTION: WorkedRow = WorkedRow {
    script: "
        arrive 1 1 indoubt x=1 y?7
        arrive 2 5 6 x?1
        findings | x Doubt { txn: TxnId(2), op: 0, read: Some(Value(1)), writer: TxnId(1) }
        resolve 1 3",
    found: "y Unknown { txn: TxnId(1), op: 1, read: Some(Value(7)) }",
    present: (2, 0),
};

/// The value of 1 can't be written again until that is withdrawn.
pub const VALUE_FREE_AGAIN: WorkedRow = WorkedRow {
    script: "
        arrive 1 1 2 x=5
        arrive 2 3 4 x=5 | taken by 1
        withdraw 1
        arrive 2 3 4 x=5",
    found: "",
    present: (1, 0),
};

/// Several at once, on keys of their own: 2 misses what 1 wrote; 3 is in doubt while 4 reads from it, and reads itself what
/// nobody wrote; 6 reads what `z` was set up with after 5 had written; 9 overlaps 8, and 7 once 8 is withdrawn; and the value of
/// 10 can't be written again until that is withdrawn.
pub const SEVERAL_ROWS: WorkedRow = WorkedRow {
    script: "
        arrive 1 1 2 x=1
        arrive 2 3 4 x?null
        arrive 3 5 indoubt y=3 v?7
        arrive 4 7 8 y?3
        setup z=5
        arrive 5 9 10 z?5 z=6
        arrive 6 11 12 z?5
        arrive 7 13 22 w=7
        arrive 8 23 24 w=8
        arrive 9 21 30 w=9
        arrive 10 31 32 u=5
        arrive 11 33 34 u=5 | taken by 10
        withdraw 10
        arrive 11 33 34 u=5
        resolve 3 6
        withdraw 8",
    found: "v Unknown { txn: TxnId(3), op: 1, read: Some(Value(7)) } w Overlap { first: TxnId(7), second: TxnId(9) } \
        x Stale { txn: TxnId(2), op: 0, read: None, missed: TxnId(1) } z Stale { txn: TxnId(6), op: 0, read: Some(Value(5)), missed: TxnId(5) }",
    present: (9, 1),
};

/// The findings as text: of each its key, and its kind as it stands in code.
pub fn found_text(rt: &impl AllocGlobal, findings: &[Finding]) -> Result<String, ScriptFault> {
    let mut text = String::new(rt.alloc());
    for finding in findings {
        let words = format!(in rt.alloc(); "{} {:?}", finding.key, finding.kind)?;
        if !text.is_empty() {
            text.push(' ')?;
        }
        text.push_str(words.as_str())?;
    }
    Ok(text)
}
