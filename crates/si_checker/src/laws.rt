//! The law that ties the words to the core's machine. It is the contract of a function that does nothing: to call it is to have
//! its fact.

ghost use Rattle.si_checker.specs.Laws.{WordsAreMachine};

use si_core::laws::sound_is_reached;
use si_words::laws::one_journal_for_all;

/// Between any two steps of any threads the journal of the book's seat and the watermarks are a state of the core's machine that
/// some run reaches.
pub fn words_are_machine()
    ensures { WordsAreMachine }
{
    one_journal_for_all();
    sound_is_reached();
}
