//! The laws of the rule. Each is the contract of a function that does nothing: to call one is to have its fact.
ghost use Rattle.si_words.specs.Laws.{OneJournalForAll, BeginningsAgree, EntriesStayInOrder, EachEntryIsOfOnePass, LonePassIssuesAll, NoPartIsShared, EditsKeepLength, EditsAppend, EditsBegin};

/// Between any two steps there is one journal for all seats: each seat's list is a beginning of it, the entries that bear a
/// pass are that pass's own, every entry bears a pass, and no mark goes beyond it.
pub fn one_journal_for_all()
    ensures { OneJournalForAll }
{}

/// Of two beginnings of one journal, one begins the other.
pub fn beginnings_agree()
    ensures { BeginningsAgree }
{}

/// The entries of a pass are in the order of the journal, and stay so where it goes on.
pub fn entries_stay_in_order()
    ensures { EntriesStayInOrder }
{}

/// Each entry of a journal is of just one pass.
pub fn each_entry_is_of_one_pass()
    ensures { EachEntryIsOfOnePass }
{}

/// Where there is one pass, the journal is what it has issued.
pub fn lone_pass_issues_all()
    ensures { LonePassIssuesAll }
{}

/// No two seats know of the book, of one shard or of one pass.
pub fn no_part_is_shared()
    ensures { NoPartIsShared }
{}

/// There are as many edits as entries.
pub fn edits_keep_length()
    ensures { EditsKeepLength }
{}

/// The edits of a list and of what follows it are those of the one and then those of the other.
pub fn edits_append()
    ensures { EditsAppend }
{}

/// Where a list of entries begins another, the first edits of the one are those of the other.
pub fn edits_begin()
    ensures { EditsBegin }
{}
