//! The table of the words, and the rule that holds of it between any two steps.

use crate::views::View;
use atomic_table::{Seat, Table, TableRule};
use std::alloc::Global;

/// The place of the ticket, the number of accepted edits.
pub(crate) const TICKET: usize = 0;

/// The place of the word that is 0, or 1 once closed.
pub(crate) const CLOSED: usize = 1;

/// The place of the first shard's watermark, the number of edits that the shard has applied.
pub(crate) const MARKS: usize = 2;

/// One journal for all seats. The table is told how many shards and passes there are.
pub struct OneJournal;

impl TableRule<(), View, (usize, usize)> for OneJournal {
    ghost use Rattle.si_words.specs.Rule.{IsKept};
    ghost use Rattle.si_words.specs.Views.{opening_view};

    ghost holds = { λ about. IsKept about.0 about.1 };

    ghost first = { λ about. opening_view about.0 about.1 };
}

pub(crate) type WordTable = Table<(), View, (usize, usize), OneJournal, Global>;

pub(crate) type TableSeat = Seat<(), View>;
