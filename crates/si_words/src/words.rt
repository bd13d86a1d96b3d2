//! The words.

use crate::rule::WordTable;
use std::marker::Model;

/// The words that threads share by reference. To a contract they are their table, with the number of shards and of passes.
#[derive(Drop)]
pub struct Words {
    pub(crate) table: WordTable,
    pub(crate) shards: usize,
}

impl Model for Words {
    ghost use Rattle.std.specs.Prelude.{◌≡◌, ◌+◌, ◌<◌, ◌≤◌};
    ghost use Rattle.si_words.specs.Seats.{Board};

    ghost Value = { Board };

    ghost view = { λ w. record { table = w.table.shared.table_id; shards = w.table.shared.key.0; passes = w.table.shared.key.1 } };

    ghost invariant = { λ w. (0 < w.shards) × (w.shards ≤ 16) × (w.shards ≡ w.table.shared.key.0) × (w.table.shared.table_id.words ≡ 2 + w.shards) };
}
