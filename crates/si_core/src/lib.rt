//! The core: the book and its shards as one machine over lists of steps, on one thread.
//!
//! It carries the headline: after every list of steps the findings of a settled machine are exactly those defined from scratch
//! on what is present, and there are none exactly where that is well formed and shows neither G1 nor G-SI. It stands on
//! `si_model`, `si_graph`, `si_accept` and `si_shard`.
#![tactic(auto)]

pub mod laws;
pub mod steps;
pub mod worlds;

pub use steps::{Reply, Step, WorldFault};
pub use worlds::World;
