//! Which findings an edit can change, what it may cost, and how the state of a key follows what is present. Each law is the
//! contract of a function with an empty body.

ghost use Rattle.std.specs.Prelude.{◌≡◌};
ghost use Rattle.si_model.specs.Findings.{cases};
ghost use Rattle.si_judge.specs.Following.{EditsFollow, NothingIsOfHistory, OthersAreNotHad, OthersPass, PartsAreHad, ResolutionsFollow, SameIsSame, SetUpsFollow};
ghost use Rattle.si_judge.specs.Touched.{OtherReadsStay, UntouchedCostsTwo, UntouchedPairsStay, UntouchedReadsStay};

use crate::{Cases, Judge};

/// The judge of snapshot isolation judges by the cases of the definitions.
pub fn judge_has_the_cases()
    ensures { ⟦<Cases as Judge>⟧.rules ≡ cases }
{}

/// What is seen at a read stays as it was through an edit on another transaction that neither writes the value that the read
/// returned nor installs a version that the reader missed, before the edit as after it.
pub fn untouched_reads_stay()
    ensures { UntouchedReadsStay }
{}

/// Two versions of one key, one next after the other, stay so through an edit on another transaction that installs no version
/// next after the first, before the edit as after it.
pub fn untouched_pairs_stay()
    ensures { UntouchedPairsStay }
{}

/// What is seen at a read stays as it was when the key is set up, where the read returned neither `null` nor that value.
pub fn other_reads_stay()
    ensures { OtherReadsStay }
{}

/// An edit that touches no read may cost the judgements of two neighbouring pairs, and no more.
pub fn untouched_costs_two()
    ensures { UntouchedCostsTwo }
{}

/// To have the same on a key, in whatever order, is an equivalence.
#[tactic(auto, using(crate::proofs::Following::same_is_same))]
pub fn same_is_same()
    ensures { SameIsSame }
{}

/// Before any edit nothing is on any key, and this is of a history.
#[tactic(auto, using(crate::proofs::Following::nothing_of_history))]
pub fn nothing_is_of_history()
    ensures { NothingIsOfHistory }
{}

/// An acceptable edit of what is present makes of a key the same as of the state of the key.
pub fn edits_follow()
    ensures { EditsFollow }
{}

/// An edit of a transaction that is not on the key leaves the key as it is.
#[tactic(auto, using(crate::proofs::Following::others_pass))]
pub fn others_pass()
    ensures { OthersPass }
{}

/// A present transaction that does something on the key is on it.
pub fn parts_are_had()
    ensures { PartsAreHad }
{}

/// A present transaction that does nothing on the key is not on it.
pub fn others_are_not_had()
    ensures { OthersAreNotHad }
{}

/// A transaction that may be resolved is in doubt on each key that it is on.
pub fn resolutions_follow()
    ensures { ResolutionsFollow }
{}

/// A key that may be set up is not set up yet.
pub fn set_ups_follow()
    ensures { SetUpsFollow }
{}
