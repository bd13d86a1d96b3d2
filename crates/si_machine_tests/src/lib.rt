//! A timeline, a judge, the state of a key and the machine, by hand and by chance: the tests of `si_timeline`, `si_judge` and
//! `si_core`.
//!
//! It has no function. A crate is proved a second time with its tests, so these stand here, where there is nothing to prove
//! twice.
#![tactic(auto)]

#[cfg(test)]
mod tests;
