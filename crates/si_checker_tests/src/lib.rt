//! The words by which threads share one journal, and the shared checker, on rows that were worked out by hand, by chance and on real
//! threads: the tests of `si_words` and `si_checker`.
//!
//! It has no function. A crate is proved a second time with its tests, so these stand here, where there is nothing to prove
//! twice.
#![tactic(auto)]

#[cfg(test)]
mod tests;
