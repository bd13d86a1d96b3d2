//! Several sources on real threads, and runs of the program with what they are worth: the tests of `si_intake`, `si_run` and
//! `si_cli`.
//!
//! It has no function. A crate is proved a second time with its tests, so these stand here, where there is nothing to prove
//! twice.
#![tactic(auto)]

#[cfg(test)]
mod tests;
