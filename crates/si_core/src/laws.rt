//! The laws of the machine. Each is the contract of a function with an empty body: to call one is to have its fact.

ghost use Rattle.si_core.specs.Laws.{ApplicationsAreRun, JournalStays, ManyAreRun, ReachedIsSound, RebuildKeepsSound, RunIsFunction, RunsJoin, RunsKeepSound, SoundIsReached};

/// No application and no settling changes the limit or the journal, or how many shards there are.
pub fn journal_stays()
    ensures { JournalStays }
{}

/// Two runs of the same steps from the same state, in which no memory was refused, have the same replies and the same end.
pub fn run_is_function()
    ensures { RunIsFunction }
{}

/// In every state that a run reaches from the beginning the journal is accepted and within the limit, no shard has applied more
/// than there is, and a spoiled one has an edit left.
pub fn reached_is_sound()
    ensures { ReachedIsSound }
{}

/// The same of every run from a state where that is so.
pub fn runs_keep_sound()
    ensures { RunsKeepSound }
{}

/// A run is one of its first steps and then one of the others, so what is so at the end of each run is so after each step.
pub fn runs_join()
    ensures { RunsJoin }
{}

/// A state where that is so stays such a one under a rebuild.
pub fn rebuild_keeps_sound()
    ensures { RebuildKeepsSound }
{}

/// Many applications at once are a run of single ones, between one and as many as were asked for, and the answer is the last
/// reply that tells of an application, or the only reply where none does.
pub fn many_are_run()
    ensures { ManyAreRun }
{}

/// Every state in which the journal is accepted and within the limit, no shard has applied more than there is, and a spoiled one
/// has an edit left, is reached by a run from the beginning.
pub fn sound_is_reached()
    ensures { SoundIsReached }
{}

/// Of a shard that isn't spoiled, so many applications as edits are left for it, or fewer, are a run in which no memory was
/// refused.
pub fn applications_are_run()
    ensures { ApplicationsAreRun }
{}
