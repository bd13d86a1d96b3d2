//! Evidence beside a log: each line of an answer that is evidence is judged by what the log leaves present.
//!
//! It carries the promise that a line is told to fail exactly where its evidence doesn't hold. It stands on `si_graph` for what an
//! evidence shows, on `si_accept` for the book, which is the index, on `si_text` for lines, and on `si_run` for what a run writes of a
//! log.
#![tactic(auto)]

pub mod indexed;
pub mod judges;
pub mod judging;
pub mod logs;
pub mod runs;
pub mod writers;

pub use indexed::Indexed;
pub use judges::{JudgeFault, Judged, judge_answer};
pub use runs::{judge, log_of};
pub use writers::Writers;
