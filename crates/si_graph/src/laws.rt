//! The laws of the definitions. Each is the contract of a function that does nothing: to call one is to have its fact. Some
//! call the laws of `si_model` that they rest on.

ghost use Rattle.si_graph.specs.Installers.{InstallerIsWriter};
ghost use Rattle.si_graph.specs.Writers.{WritersAreEnough};
ghost use Rattle.si_graph.specs.Emptiness.{AbortedReadsAreFound, CircularFlowInterferes, EmptinessIsExact, InterferenceIsFound, IntermediateReadsAreFound, MissedEffectsAreFound};
ghost use Rattle.si_graph.specs.Laws.{CircularWalksHaveCycles, MissedWalksHaveCycles, ShownIsThere, NothingIsShown, ExplainedIsShown, ModelLaws};
ghost use Rattle.si_graph.specs.HorizonOrder.{CarryingKeepsOrder};
ghost use Rattle.si_graph.specs.SerialLaws.{SerialReadsAreClean, SerialIsClean, RunsAreSerial, CleanIsARun, NoneOverlaps, FutureIsLater, CleanIsSerializable, CommitOrderIsThere, UnmovedIsSerial};
ghost use Rattle.si_graph.specs.SnapshotLaws.{AlarmsAreTrue, SnapshotReadsAreClean, ApartIsClean, SnapshotsAreClean, SnapshotsAreExact};
ghost use Rattle.si_graph.specs.UnstampedLaws.{NoStampsMendForks, NoStampsMendKnots};
ghost use Rattle.si_graph.specs.VersionOrders.{AnyVersionOrder, CommitOrderIsOurs, PassingOrdersAreByCommits};

use si_model::laws::{
    accesses_are_operations, carried_is_exact, findings_are_exact, form_is_found, id_is_found,
    install_is_exact, keys_are_of_history, last_write_is_final, later_is_later, next_is_exact,
    own_value_is_last, parts_are_of_transactions, parts_differ, sight_is_exact, source_is_exact,
    tests_decide,
};

/// A history has no finding exactly where it is well formed and PL-SI.
pub fn emptiness_is_exact()
    ensures { EmptinessIsExact }
{
    model_laws();
}

/// Of a well-formed history, G1a is there exactly where a finding is an aborted read.
pub fn aborted_reads_are_found()
    ensures { AbortedReadsAreFound }
{
    model_laws();
}

/// Of a well-formed history without an aborted read, G1b is there exactly where a finding is an intermediate read.
pub fn intermediate_reads_are_found()
    ensures { IntermediateReadsAreFound }
{
    model_laws();
}

/// Of a well-formed history, G-SI(a) is there exactly where a finding is a read of the future or an overlap.
pub fn interference_is_found()
    ensures { InterferenceIsFound }
{
    model_laws();
}

/// Of a well-formed history without G-SI(a), G1c is not there.
pub fn circular_flow_interferes()
    ensures { CircularFlowInterferes }
{
    model_laws();
}

/// Of a well-formed history without G-SI(a), G-SI(b) is there exactly where a finding is a stale read.
pub fn missed_effects_are_found()
    ensures { MissedEffectsAreFound }
{
    model_laws();
}

/// A closed walk of ww and wr edges is there exactly where a cycle of them is, G1c.
pub fn circular_walks_have_cycles()
    ensures { CircularWalksHaveCycles }
{}

/// A closed walk with exactly one rw edge is there exactly where a cycle with exactly one is, G-SI(b).
pub fn missed_walks_have_cycles()
    ensures { MissedWalksHaveCycles }
{}

/// An evidence that holds of a history is of a phenomenon that is there, or of what no stamps mend.
pub fn shown_is_there()
    ensures { ShownIsThere }
{
    model_laws();
}

/// No evidence holds of a history of snapshot isolation, if that is well formed where it is a fork or a knot.
pub fn nothing_is_shown()
    ensures { NothingIsShown }
{
    model_laws();
}

/// The evidence for a finding of a history holds of it.
pub fn explained_is_shown()
    ensures { ExplainedIsShown }
{
    model_laws();
}

/// Of a history in commit order, a read of a committed transaction has no finding exactly where it returned what the serial run
/// in the order of commits gives it.
pub fn serial_reads_are_clean()
    ensures { SerialReadsAreClean }
{
    model_laws();
}

/// A history in commit order has no finding exactly where each read of a committed transaction returned what the serial run gives it.
pub fn serial_is_clean()
    ensures { SerialIsClean }
{
    model_laws();
}

/// Of any history, each of these reads returned that exactly where the committed transactions run one after another in the order of
/// their commits.
pub fn runs_are_serial()
    ensures { RunsAreSerial }
{
    model_laws();
}

/// So a history in commit order has no finding exactly where its committed transactions run one after another in that order.
pub fn clean_is_a_run()
    ensures { CleanIsARun }
{
    model_laws();
}

/// No finding of a history in commit order is an overlap.
pub fn none_overlaps()
    ensures { NoneOverlaps }
{
    model_laws();
}

/// In a history in commit order a read of the future is one of a transaction that commits after the reader.
pub fn future_is_later()
    ensures { FutureIsLater }
{
    model_laws();
}

/// A history in commit order without a finding has no cycle of ww, wr and rw edges, and is PL-3.
pub fn clean_is_serializable()
    ensures { CleanIsSerializable }
{
    model_laws();
}

/// Each history can be put in commit order.
pub fn commit_order_is_there()
    ensures { CommitOrderIsThere }
{}

/// A history without a finding has a free read across another's commit exactly where the same history in commit order has a finding.
pub fn unmoved_is_serial()
    ensures { UnmovedIsSerial }
{
    model_laws();
}

/// Of any history, a read of a committed transaction has no finding exactly where it returned what the snapshot at the
/// transaction's start gives it.
pub fn snapshot_reads_are_clean()
    ensures { SnapshotReadsAreClean }
{
    model_laws();
}

/// A history has no overlap exactly where, of two committed transactions that write one key, one commits before the other one starts.
pub fn apart_is_clean()
    ensures { ApartIsClean }
{
    model_laws();
}

/// So a history has no finding exactly where its committed transactions read snapshots and no two that write one key overlap.
pub fn snapshots_are_clean()
    ensures { SnapshotsAreClean }
{
    model_laws();
}

/// They read snapshots and don't overlap exactly where the history is well formed and PL-SI.
pub fn snapshots_are_exact()
    ensures { SnapshotsAreExact }
{
    model_laws();
}

/// Each finding of a history tells a read that isn't what its snapshot gives it, or two writers of one key that overlap.
pub fn alarms_are_true()
    ensures { AlarmsAreTrue }
{
    model_laws();
}

/// Where two committed transactions each read one version of a key before they wrote it, the history has a finding whatever its stamps are.
pub fn no_stamps_mend_forks()
    ensures { NoStampsMendForks }
{
    model_laws();
}

/// So it has where wr edges, and rw edges whose writers read what they replaced, lead round in a circle without two rw edges side by side.
pub fn no_stamps_mend_knots()
    ensures { NoStampsMendKnots }
{
    model_laws();
}

/// Of a history, who installs a value is its writer, if that one installs it: so an index of writers finds it.
pub fn installer_is_writer()
    ensures { InstallerIsWriter }
{
    model_laws();
}

/// Whether no transaction installs a version of a key between two can be asked of those alone that write the key.
pub fn writers_are_enough()
    ensures { WritersAreEnough }
{
    model_laws();
}

/// A version order by which a history is PL-SI is that of the commit stamps.
pub fn passing_orders_are_by_commits()
    ensures { PassingOrdersAreByCommits }
{
    model_laws();
}

/// By the order of the commit stamps, a history is PL-SI in the thesis's sense exactly where it is in this project's.
pub fn commit_order_is_ours()
    ensures { CommitOrderIsOurs }
{
    model_laws();
}

/// So a history is PL-SI by some version order exactly where it is so by commit stamps.
pub fn any_version_order()
    ensures { AnyVersionOrder }
{
    model_laws();
}

/// What is carried over a horizon of a history in commit order is in commit order.
pub fn carrying_keeps_order()
    ensures { CarryingKeepsOrder }
{
    carried_is_exact();
}

/// The laws of `si_model` that these rest on.
pub(crate) fn model_laws()
    ensures { ModelLaws }
{
    findings_are_exact();
    form_is_found();
    keys_are_of_history();
    parts_are_of_transactions();
    accesses_are_operations();
    parts_differ();
    tests_decide();
    last_write_is_final();
    own_value_is_last();
    later_is_later();
    id_is_found();
    install_is_exact();
    next_is_exact();
    source_is_exact();
    sight_is_exact();
}
