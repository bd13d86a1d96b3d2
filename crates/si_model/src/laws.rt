//! The laws of the definitions. Each is the contract of a function with an empty body: to call one is to have its fact.

ghost use Rattle.si_model.specs.Laws.{FindingsAreExact, KeyFindingsAreExact, FormIsFound, OrderIsStrict, ListIsUnique, OrderIsFree, KeyOrderIsFree, JournalOrderIsFree, KeysAreApart, KeysAreOfHistory, PartsAreOfTransactions, AccessesAreOperations, PartsDiffer, KeyEditsAreEdits, TestsDecide, LastWriteIsFinal, OwnValueIsLast, LaterIsLater, WriterIsFound, IdIsFound, InstallIsExact, NextIsExact, SourceIsExact, SightIsExact, LeastIsLeast, FirstIsFirst, PresentGrows, AcceptedGrows, AcceptedBegins, PresentIsHistory, AcceptanceIsExact, StrictJournalsAreAccepted, ViolationsStay, PhenomenaStay};
ghost use Rattle.si_model.specs.ChanceLaws.{PlacesAreExact, KeysAreExact, NoPlaceElsewhere, ChancesAreChanges};
ghost use Rattle.si_model.specs.HorizonLaws.{CarriedIsExact, CarriedIsHistory, HistoriesAreMade, CarryingTwice, LateEditsCarry, LateJournalsCarry, NothingIsLost, FinalsStay, NothingComesBelow, FinalsAreFinal};
ghost use Rattle.si_model.specs.HorizonRuns.{HorizonsLoseNothing, ViolationsAreTold};

/// Of a history, the list of the findings is in strict order and has exactly what the relation says.
pub fn findings_are_exact()
    ensures { FindingsAreExact }
{}

/// The same for one key, whatever the rules.
pub fn key_findings_are_exact()
    ensures { KeyFindingsAreExact }
{}

/// A history is well formed exactly where no finding concerns form.
pub fn form_is_found()
    ensures { FormIsFound }
{}

/// The order of findings is total, and only equal findings tie.
#[tactic(auto, using(crate::proofs::FindingOrder::findings_order))]
pub fn order_is_strict()
    ensures { OrderIsStrict }
{}

/// Findings have one list in strict order.
#[tactic(auto, using(crate::proofs::Orderless::unique_list))]
pub fn list_is_unique()
    ensures { ListIsUnique }
{}

/// The order of what is present does not matter.
#[tactic(auto, using(crate::proofs::Orderless::order_free))]
pub fn order_is_free()
    ensures { OrderIsFree }
{}

/// Nor does the order of what is on a key, whatever the rules.
#[tactic(auto, using(crate::proofs::Orderless::key_order_free))]
pub fn key_order_is_free()
    ensures { KeyOrderIsFree }
{}

/// Two accepted journals that leave the same present have equal findings.
#[tactic(auto, using(crate::proofs::Orderless::journal_order_free))]
pub fn journal_order_is_free()
    ensures { JournalOrderIsFree }
{}

/// The findings on a key depend on what is on that key alone.
#[tactic(auto, using(crate::proofs::Exact::keys_are_apart))]
pub fn keys_are_apart()
    ensures { KeysAreApart }
{}

/// What is on a key of a history is of a history.
pub fn keys_are_of_history()
    ensures { KeysAreOfHistory }
{}

/// The parts on a key are what the transactions do there.
pub fn parts_are_of_transactions()
    ensures { PartsAreOfTransactions }
{}

/// The accesses of a key are the operations on it, at their places.
pub fn accesses_are_operations()
    ensures { AccessesAreOperations }
{}

/// Of a history, one id is of one part on a key, one value of one writer, one commit stamp of one installer.
#[tactic(auto, using(crate::proofs::Histories::parts_apart))]
pub fn parts_differ()
    ensures { PartsDiffer }
{}

/// What an edit makes of what is on a key.
#[tactic(auto, using(crate::proofs::KeyEditing::key_edits))]
pub fn key_edits_are_edits()
    ensures { KeyEditsAreEdits }
{}

/// The tests of equality tell equality.
#[tactic(auto, using(crate::proofs::Equalities::tests_decide))]
pub fn tests_decide()
    ensures { TestsDecide }
{}

/// The last write is the final one: none is later.
pub fn last_write_is_final()
    ensures { LastWriteIsFinal }
{}

/// The own value is that of the last write before the read.
pub fn own_value_is_last()
    ensures { OwnValueIsLast }
{}

/// A later write is a write after the read.
#[tactic(auto, using(crate::proofs::LastWrites::later_are))]
pub fn later_is_later()
    ensures { LaterIsLater }
{}

/// The transaction that is found writes the value.
pub fn writer_is_found()
    ensures { WriterIsFound }
{}

/// The transaction that is found has the id.
pub fn id_is_found()
    ensures { IdIsFound }
{}

/// A transaction is taken for an installer exactly where it installs a version.
pub fn install_is_exact()
    ensures { InstallIsExact }
{}

/// The version that is found is the next one.
#[tactic(auto, using(crate::proofs::NextVersions::next_exact))]
pub fn next_is_exact()
    ensures { NextIsExact }
{}

/// The source that is found is where the value comes from.
#[tactic(auto, using(crate::proofs::Sources::source_law))]
pub fn source_is_exact()
    ensures { SourceIsExact }
{}

/// The sight that is found is what is seen at the read.
pub fn sight_is_exact()
    ensures { SightIsExact }
{}

/// The id that is found is the least that passes the test.
#[tactic(auto, using(crate::proofs::Acceptance::least_found))]
pub fn least_is_least()
    ensures { LeastIsLeast }
{}

/// The refusal that is found is that of the first operation that has one.
#[tactic(auto, using(crate::proofs::Acceptance::first_found))]
pub fn first_is_first()
    ensures { FirstIsFirst }
{}

/// What is present after one more edit.
#[tactic(auto, using(crate::proofs::Acceptance::present_push))]
pub fn present_grows()
    ensures { PresentGrows }
{}

/// An accepted journal with one more acceptable edit is accepted, and with another is not.
#[tactic(auto, using(crate::proofs::Acceptance::accepted_push))]
pub fn accepted_grows()
    ensures { AcceptedGrows }
{}

/// The beginning of an accepted journal is accepted.
#[tactic(auto, using(crate::proofs::Acceptance::accepted_begins))]
pub fn accepted_begins()
    ensures { AcceptedBegins }
{}

/// What is present after an accepted journal is a history.
pub fn present_is_history()
    ensures { PresentIsHistory }
{}

/// Of a history, an edit is acceptable exactly where it asks rightly and leaves a history.
#[tactic(auto, using(crate::proofs::PresentHistories::acceptance_exact))]
pub fn acceptance_is_exact()
    ensures { AcceptanceIsExact }
{}

/// A journal without set-up values is accepted if each of its edits asked rightly and left a history in which each commit is greater
/// than its start and equals no start or commit of another transaction.
pub fn strict_journals_are_accepted()
    ensures { StrictJournalsAreAccepted }
{}

/// A violation is told again on its key, whatever is accepted later, where nothing is withdrawn and the key is not set up.
pub fn violations_stay()
    ensures { ViolationsStay }
{}

/// An accepted journal that shows a phenomenon shows one still, whatever is accepted later, where nothing is withdrawn and no
/// key is set up.
pub fn phenomena_stay()
    ensures { PhenomenaStay }
{}

/// Of a history, the lists of places on a key have exactly what the relations say, each place once.
pub fn places_are_exact()
    ensures { PlacesAreExact }
{}

/// The keys that places are counted on are those that some operation is on, each once.
pub fn keys_are_exact()
    ensures { KeysAreExact }
{}

/// On a key that no operation is on, no place is counted.
pub fn no_place_elsewhere()
    ensures { NoPlaceElsewhere }
{}

/// Of a history, a place of each kind is where one change of the history gives a finding of that kind there.
pub fn chances_are_changes()
    ensures { ChancesAreChanges }
{}

/// Of a history, what is carried over a horizon is what the relation says.
#[tactic(auto, using(crate::proofs::Carrying::carried_exact))]
pub fn carried_is_exact()
    ensures { CarriedIsExact }
{}

/// And it is a history.
pub fn carried_is_history()
    ensures { CarriedIsHistory }
{}

/// The edits that make a history are accepted and leave it.
pub fn histories_are_made()
    ensures { HistoriesAreMade }
{}

/// Carrying over one horizon and then over another that is no less is carrying over the other.
pub fn carrying_twice()
    ensures { CarryingTwice }
{}

/// Of a history without doubt below a horizon, a late edit that is acceptable is so on what is carried over, and carrying commutes with it.
pub fn late_edits_carry()
    ensures { LateEditsCarry }
{}

/// The same of the late edits that follow those of a journal.
pub fn late_journals_carry()
    ensures { LateJournalsCarry }
{}

/// Of a history, no finding is lost over a horizon but those of what lies below it, and none is new but as unknown in another's place.
pub fn nothing_is_lost()
    ensures { NothingIsLost }
{}

/// What a final finding was of has a finding still, whatever late edits are accepted later, and a violation stays one.
pub fn finals_stay()
    ensures { FinalsStay }
{}

/// Nothing that lies below a horizon has a finding later that had none at the horizon.
pub fn nothing_comes_below()
    ensures { NothingComesBelow }
{}

/// What is final at a second horizon is final there of the whole history.
pub fn finals_are_final()
    ensures { FinalsAreFinal }
{}

/// Horizons lose nothing: where all edits of a run are accepted without horizons too, they have a finding exactly where the run tells one,
/// and a violation where it tells one.
pub fn horizons_lose_nothing()
    ensures { HorizonsLoseNothing }
{}

/// Where a run finds a violation at a horizon, it tells one of the same read or second version, whatever comes later.
pub fn violations_are_told()
    ensures { ViolationsAreTold }
{}
