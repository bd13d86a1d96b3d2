//! Parts of the journal that were copied once, for all shards that ask for them.
ghost use Rattle.std.specs.Prelude.{◌≡◌, ◌+◌, ◌-◌, ◌<◌, ◌≤◌, length, drop, IfOk, IfSome};
ghost use Rattle.std.specs.Vec.{vec_len};

use si_model::{MOST_EDITS, OutOfMemory};
use si_shard::{SharedEdits, ToldEdit};
use std::marker::Model;

/// A part of the journal. Contracts see where it begins, and its edits.
#[derive(Drop)]
pub struct Block {
    first: u64,
    // Where it ends, so that a block that doesn't cover a position is passed without a look at what threads share.
    end: u64,
    edits: SharedEdits,
}

impl Model for Block {
    ghost use Rattle.std.specs.Prelude.{◌≡◌, ◌+◌, length};
    ghost use Rattle.si_checker.specs.Blocks.{BlockState};

    ghost Value = { BlockState };

    ghost view = { λ b. record { first = b.first; edits = b.edits } };

    ghost invariant = { λ b. b.end ≡ b.first + length b.edits };
}

impl Block {
    /// The block of these edits, which begins at this position. It fails where memory is refused.
    pub fn new(first: u64, edits: Vec<ToldEdit>) -> Result<Self, OutOfMemory>
        requires { first + vec_len edits ≤ MOST_EDITS }
        ensures { IfOk result (λ block. block ≡ record { first = first; edits = edits.items }) }
    {
        let end = first + edits.len() as u64;
        Ok(Block {
            first,
            end,
            edits: SharedEdits::from_vec(edits)?,
        })
    }

    /// Where it ends: the position behind its last edit.
    pub fn end(&self) -> u64
        ensures { result ≡ self.now.first + length self.now.edits }
    {
        self.end
    }

    /// Its edits from this position on, if it covers that. They are shared and not copied; there are none where the count of those who share
    /// them can't go up.
    pub fn copied_from(&self, position: u64) -> Option<SharedEdits>
        ensures begins { IfSome result (λ edits. self.now.first ≤ position) }
        ensures some { IfSome result (λ edits. position < self.now.first + length self.now.edits) }
        ensures edits { IfSome result (λ edits. edits ≡ drop (position - self.now.first) self.now.edits) }
    {
        if position < self.first || self.end <= position {
            return None;
        }
        self.edits.rest((position - self.first) as usize)
    }
}
