//! Maps in the order of their keys, whose entries stand side by side while few have to move.
//!
//! It carries no promise of the checker's own: contracts see the list of entries in rising order, as they do of a tree.
#![tactic(auto)]

mod finds;
mod flat;
mod forms;
pub mod runs;
pub mod sorted_maps;
mod trees;

pub use finds::ValueTest;
pub use runs::Choice;
pub use sorted_maps::SortedMap;
