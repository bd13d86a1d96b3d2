//! The shared checker: callers and workers on any threads, and one journal for all of them.
//!
//! It carries the promise that each report is exact for a journal that begins with all that its caller had seen, and that what
//! lies under each lock agrees with what the seat beside it knows of that journal. It stands on `si_model`, `si_graph`,
//! `si_accept`, `si_shard`, `si_core` and `si_words`.
#![tactic(auto)]

pub mod blocks;
pub mod checkers;
pub mod gates;
pub mod laws;
pub mod locked_books;
pub mod locked_shards;
pub mod names;
pub mod openings;
mod positions;
pub mod reports;
pub mod workers;

pub use checkers::Checker;
pub use gates::{Gate, Place};
pub use names::Name;
pub use openings::{OpenFault, Parts, open};
pub use reports::{Report, ReportFault, SettledChanges, SettledFindings, ShardReport, Statuses};
pub use si_accept::AcceptFault;
pub use si_words::Pass;
pub use workers::Worked;
