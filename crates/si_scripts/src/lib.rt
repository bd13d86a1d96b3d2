//! What the crates of tests share: edits and histories as text, some of them that several crates run, and numbers that look random.
//!
//! No program uses it. It makes what a line says, or tells what is wanted in its place; whether that is a history or an
//! edit that is accepted is what tests ask of others. It stands on `si_model` and `thiserror`.
#![tactic(auto)]

pub mod chance;
pub mod edits;
pub mod faults;
pub mod histories;
pub mod lines;
pub mod rows;

pub use chance::{Dice, next_number};
pub use edits::{edit_of, key, op_of, ops_of, txn_of};
pub use faults::ScriptFault;
pub use histories::{History, present};
pub use lines::{asked, trimmed};
pub use rows::{
    OVERLAP_AFTER_WITHDRAWAL, RESOLUTION, RowLine, SEVERAL_ROWS, STALE_READ, VALUE_FREE_AGAIN,
    WorkedRow, found_text, row_line,
};
