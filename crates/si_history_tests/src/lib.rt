//! Small histories with their answers, lines and texts: the tests of `si_model`, `si_graph`, `si_accept` and `si_text`.
//!
//! It has no function. A crate is proved a second time with its tests, so the tests of the lower crates stand here,
//! where there is nothing to prove twice.
#![tactic(auto)]

#[cfg(test)]
mod tests;
