//! What is found on one key, mended after each edit: by `KeyFindings`, which keeps no transaction, and by `KeyState`, which keeps those
//! on the key beside it. Both ask a `Judge`; that of snapshot isolation is `Cases`.
//!
//! It carries the promise that for every judge the findings are those of the definitions after each edit, and that the judge is asked
//! no more often than the edit touches reads, and twice more; but for the edits that may leave reads marked, which `settle` judges. A
//! judge's answers are functions of what it looks at and are counted. It stands on `si_model`, `si_sorted` and
//! `si_timeline`, and its proofs on `si_lists`.
#![tactic(auto)]

mod found_pairs;
mod found_reads;
mod indexes;
mod judgements;
pub mod judges;
mod kept_reads;
pub mod key_findings;
pub mod laws;
mod maps;
mod marks;
mod notes;
mod parts;
mod reads;
pub mod states;
mod versions;

pub use judges::{Cases, Judge};
pub use key_findings::KeyFindings;
pub use notes::Notes;
pub use states::{KeyFault, KeyState};
