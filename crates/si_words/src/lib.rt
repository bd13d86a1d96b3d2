//! The words by which many threads share one journal: a ticket that counts it, a word that says it is closed, and a
//! watermark for each shard.
//!
//! It carries the promise that between any two steps what each thread knows fits one journal: what it has seen begins that
//! journal, and the entries in it that bear a pass are those that the pass has issued, each once and in order. No step
//! waits, tries again or takes memory. It stands on `si_model`, of which it takes the edit alone, and on `atomic_table`.
#![tactic(auto)]

mod badges;
mod book_steps;
mod joining;
pub mod laws;
mod looks;
mod opening;
pub mod rule;
pub mod seats;
mod shard_steps;
mod steps;
pub mod views;
pub mod words;

pub use seats::{BookSeat, Pass, ShardSeat};
pub use words::Words;
