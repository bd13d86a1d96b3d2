//! Partitions of the keys: what each of several processes keeps of one log, so that together they find what one finds.
//!
//! It carries the laws that what is present is a history exactly where each partition of it is one, that edits are accepted exactly where
//! each partition accepts them, and that the findings on a partition's keys are those of the partition. It stands on `si_model` for
//! the definitions, and its proofs on `si_lists`.
#![tactic(auto)]

pub mod laws;
pub mod partitions;
pub mod projecting;

pub use partitions::{MOST_PARTITIONS, Partition};
pub use projecting::project_edit;
