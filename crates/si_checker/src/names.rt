//! Which checker it is. Nothing is known of a value under a lock but what its type says, so the types behind all locks of one
//! checker bear one name.

use std::marker::Brand;

/// Names the parts of one opening. Functions that make or take a checker are generic in it, and are called with `Brand`.
pub trait Name {
    ghost use Rattle.std.specs.Prelude.{ℕ};
    ghost use Rattle.si_words.specs.Seats.{Board};

    /// The table of its words, and how many shards and passes there are.
    ghost board: { Board };

    /// How many edits its journal may have.
    ghost limit: { ℕ };
}

impl Name for Brand {
    ghost use Rattle.si_checker.specs.Names.{no_board};

    ghost board = { no_board };

    ghost limit = { 0 };
}
