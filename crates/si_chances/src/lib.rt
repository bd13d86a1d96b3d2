//! What a clean verdict could have found: at how many places a likely fault of a database would have shown a finding of each kind.
//!
//! It carries the promise that the counts are those of the definitions of `si_model`. Operations are put into groups by their keys in
//! one pass, and each key is counted by itself: a transaction's reads and writes of the key once or a few times, and the others that ran at
//! the same time by searches among sorted stamps. It stands on `si_model` for the definitions, on `si_hashing` for the hash of keys, and
//! its proofs on `si_lists`.
#![tactic(auto)]

pub mod adding;
pub mod counting;
pub mod grouping;
pub mod on_keys;
pub mod regrouping;
pub mod searches;
pub mod spans;
pub mod summaries;
pub mod values;

pub use counting::chances_of;
