//! The book: the journal of accepted edits, and what is present after them: transactions and set-up values.
//!
//! It carries the promise that an edit is refused exactly where the definition of a refusal gives that refusal, and
//! that a refused edit changes nothing. No edit walks over all that is present. It stands on `si_model`, `si_sorted`,
//! `si_hashing`, `indexmap` and `thiserror`, and its proofs on `si_lists`.
#![tactic(auto)]

mod arrivals;
pub mod books;
mod contents;
pub mod faults;
mod index;
mod key_numbers;
mod notes;
mod pairs;
mod set_ups;
mod stamps;
mod twice;
mod writers;

pub use books::Book;
pub use faults::AcceptFault;
