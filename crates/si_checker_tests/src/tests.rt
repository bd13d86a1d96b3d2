//! The checker on rows that were worked out by hand, and on real threads.

mod callers;
mod each_growth;
mod large;
mod long_runs;
mod openings;
mod threads;
mod turns;
mod words;

use callers::{
    Alone, Caller, Row, are_found, are_same, assert_plain, assert_report, edit, next, play,
};
use si_checker::gates::Open;
use si_checker::{AcceptFault, Checker, Gate, Name, Place, Report, Worked};
use si_model::{Edit, Number, Refusal, TxnId};
use std::alloc::AllocGlobal;
use std::process::Abort;
use std::sync::Wait;
use std::thread::{Threads, join};

/// The one finding of a transaction 2 that read nothing from `x`, where it should have seen what transaction 1 wrote.
const STALE: &str = "x Stale { txn: TxnId(2), op: 0, read: None, missed: TxnId(1) }";
