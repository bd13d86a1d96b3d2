//! Lemmas on lists that the crates above share: what lists contain that are made from other lists, what tests of lists
//! say, lists whose elements differ pairwise in a name, and lists that grow at their end. It has no function.
#![tactic(auto)]
