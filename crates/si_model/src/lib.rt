//! The model of a history under snapshot isolation: its types, its definitions (in `specs/`) and the plain slow checker.
//!
//! It carries the promise that `findings_of` is exactly what the definitions say, and that acceptance of edits means
//! what they say. It stands on std, and its proofs on `si_lists`.
#![tactic(auto)]

use std::alloc::AllocError;

pub mod cases;
pub mod chances;
pub mod edits;
pub mod evidence;
pub mod findings;
pub mod history;
pub mod holders;
pub mod keys;
pub mod kinds;
pub mod laws;
pub mod numbers;
pub mod operations;
pub mod parts;
pub mod plain;
pub mod reads;
pub mod refusals;
pub mod sights;
pub mod sorting;
pub mod transactions;
pub mod versions;

pub use chances::{Chances, Count};
pub use edits::{Edit, MOST_EDITS};
pub use evidence::{Edge, Evidence, KeyedEdge, Knot, Label, Walk, evidence_of};
pub use findings::{Finding, findings_of};
pub use history::is_history;
pub use keys::{Key, shard_of};
pub use kinds::Kind;
pub use numbers::{Number, Stamp, TxnId, Value};
pub use operations::{Op, Ops};
pub use parts::{Access, Accesses, OnKey, Part, Parts, Placed};
pub use refusals::{Holders, Refusal, refusal_on};
pub use sights::{Installer, Sight, Source, VersionId};
pub use transactions::{Outcome, Status, Txn};

/// The growth of some memory was refused.
pub type OutOfMemory = AllocError;
