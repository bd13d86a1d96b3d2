//! The versions of one key.
//!
//! It carries the promise that the versions stand in the order of their installers' commit stamps, and that the nearest one
//! before and after a stamp is found. It stands on `si_model` and `si_sorted`, and its proofs on `si_lists`.
#![tactic(auto)]

pub mod risings;
pub mod timelines;
pub mod versions;

pub use risings::of_rising;
pub use timelines::Timeline;
pub use versions::Version;
