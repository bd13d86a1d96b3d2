//! One shard's keys: the findings on them, mended by each edit of the journal in turn.
//!
//! It carries the promise that a shard's findings are those of what is present after the edits that it applied, on its keys. It
//! stands on `si_model`, `si_accept`, `si_judge`, `si_hashing` and `indexmap`, and its proofs on `si_lists`.
#![tactic(auto)]

mod aheads;
mod applied_edits;
mod journal_shards;
mod key_changes;
mod key_notes;
mod key_states;
pub mod laws;
mod merging;
mod present_txns;
mod shard_ids;
pub mod shards;
mod single_edits;
mod told_edits;

pub use journal_shards::JournalShard;
pub use key_notes::Changes;
pub use shards::{MOST_SHARDS, Shard, put_all_in_order, put_changes_in_order};
pub use si_judge::KeyFault;
pub use told_edits::{SharedEdits, ToldEdit, told_edit};
