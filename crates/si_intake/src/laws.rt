//! The laws of the definitions. Each is the contract of a function that does nothing: to call one is to have its fact.
ghost use Rattle.si_intake.specs.Laws.{SourcesAppend, LastsAppend, LoneSourceIsWhole, NewEndsAreAll};

/// The items that come from a source, of a list and what follows it, are those of the one and then those of the other.
pub fn sources_append()
    ensures { SourcesAppend }
{}

/// A last item is among a list and what follows it where it is in the one or in the other.
pub fn lasts_append()
    ensures { LastsAppend }
{}

/// What was taken of one source alone is what it has put.
pub fn lone_source_is_whole()
    ensures { LoneSourceIsWhole }
{}

/// The ends of an opening are all ends of its accepter.
pub fn new_ends_are_all()
    ensures { NewEndsAreAll }
{}
