//! The laws of the definitions. Each is the contract of a function with an empty body: to call one is to have its fact.

ghost use Rattle.std.specs.Prelude.{◌≡◌};
ghost use Rattle.si_text.specs.Laws.{LeastFaultIsTold, EditsHaveNoFault, ReadEditsAreTold, WrittenEditsReadBack};

use crate::devices::{ByteSink, ByteSource};

/// A lent source tells what its owner tells.
pub fn lent_sources_tell<'a, S: ByteSource>(source: &'a mut S)
    ensures { ⟦<&'a mut S as ByteSource>⟧.seen source.entry ≡ S.seen source.old }
{}

/// A lent sink tells what its owner tells.
pub fn lent_sinks_tell<'a, W: ByteSink>(sink: &'a mut W)
    ensures { ⟦<&'a mut W as ByteSink>⟧.seen sink.entry ≡ W.seen sink.old }
{}

/// The fault of a line is the one of least number whose condition holds.
pub fn least_fault_is_told()
    ensures { LeastFaultIsTold }
{}

/// A line is an edit exactly where no condition holds.
pub fn edits_have_no_fault()
    ensures { EditsHaveNoFault }
{}

/// A line with the members of an edit that keeps the limits is read as that edit, whatever other members it has.
pub fn written_edits_read_back()
    ensures { WrittenEditsReadBack }
{}

/// A line that is read as an edit has that edit's members, and the edit keeps the limits.
pub fn read_edits_are_told()
    ensures { ReadEditsAreTold }
{}
