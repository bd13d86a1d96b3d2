//! Several sources of items to one accepter, over one bounded queue.
//!
//! It carries the promise that what the accepter takes is an interleaving of what the sources put: each source's items
//! whole, once and in its order. It stands on `si_model` and `si_text` for what an item holds, on `crossbeam_queue` for the
//! queue and its rule, and on `crossbeam_utils` for the sleep of who waits.
#![tactic(auto)]

pub mod accepters;
pub mod gatherings;
pub mod hand_over;
pub mod items;
pub mod laws;
pub mod openings;
pub mod rule;
pub mod source_ends;
pub mod views;

pub use accepters::Accepter;
pub use gatherings::{Taken, gather};
pub use items::{Item, What};
pub use openings::{MOST_SOURCES, open};
pub use source_ends::SourceEnd;
