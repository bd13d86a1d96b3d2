//! The start-ordered serialization graph of a history: its edges, its cycles, the phenomena that snapshot isolation forbids,
//! and the evidence that a finding stands for one of them.
//!
//! It carries the promise that each finding that breaks snapshot isolation is explained by an evidence, that an evidence is
//! checked by itself and without memory, and that a checked one is a phenomenon; and that a history in commit order has none
//! exactly where its committed transactions run one after another in that order. It stands on `si_model` and `thiserror`, and
//! its proofs on `si_lists`.
#![tactic(auto)]

pub mod checks;
mod dependencies;
pub mod explanations;
pub mod faults;
mod keys;
pub mod laws;
pub mod lookups;
mod unstamped;
pub mod versions;

pub use checks::{check_evidence, check_evidence_by};
pub use explanations::explain;
pub use faults::ExplainFault;
pub use lookups::Lookup;
pub use si_model::{Edge, Evidence, KeyedEdge, Knot, Label, Walk, evidence_of};
