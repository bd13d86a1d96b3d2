//! The laws of the output. Each is the contract of a function with an empty body: to call one is to have its fact.

ghost use Rattle.si_run.specs.GateLaws.{ExpectAdds, GateIsExact, ViolationIsExact};
ghost use Rattle.si_run.specs.Laws.{ChangesAreText, ChangesEndAlike, ChangesTellAll, PlainOutputIsExact};

use si_graph::laws::snapshots_are_clean;
use si_model::laws::{accepted_grows, present_is_history};

/// Where no reports on the way are asked for, the output is the lines of the refused items, in order, and then one report, of
/// what is present after all of them.
pub fn plain_output_is_exact()
    ensures { PlainOutputIsExact }
{}

/// Where reports on the way tell only what changed, what is written for one that is due is the lines of what came and of what is gone, and
/// the summary.
pub fn changes_are_text()
    ensures { ChangesAreText }
{}

/// Where reports on the way tell only what changed, the violations that were told and that aren't gone since are, at each report,
/// exactly those of that moment.
pub fn changes_tell_all()
    ensures { ChangesTellAll }
{}

/// Whether reports on the way tell only what changed makes no difference to the last report, or to the status.
pub fn changes_end_alike()
    ensures { ChangesEndAlike }
{}

/// The status is 0 exactly where no line is refused, the transactions that are present in the end read snapshots and write apart, and,
/// where a number is expected, so many of them are committed and none is in doubt.
pub fn gate_is_exact()
    ensures { GateIsExact }
{
    snapshots_are_clean();
    present_is_history();
    accepted_grows();
}

/// The status is 20 exactly where a violation is found in what is present in the end.
pub fn violation_is_exact()
    ensures { ViolationIsExact }
{}

/// A number that is expected changes the status of a clean run alone, from 0 to 10, and adds one line, if any.
pub fn expect_adds()
    ensures { ExpectAdds }
{}
