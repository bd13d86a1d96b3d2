//! Edits of a journal, each with the transaction that it is about.

ghost use Rattle.std.specs.Prelude.{◌≡◌, ◌<◌, ◌≤◌, length, take, drop, IfOk, IfSome};
ghost use Rattle.si_shard.specs.ToldEdits.{IsToldAt};

use si_accept::Book;
use si_model::{Edit, OutOfMemory, Txn};
use std::marker::Model;
use std::sync::ArcSlice;

/// An edit, and the transaction that it resolves or withdraws as it was before.
#[derive(Drop)]
pub struct ToldEdit {
    pub edit: Edit,
    pub before: Option<Txn>,
}

/// A copy of the edit at this place of the book's journal, with a copy of its transaction.
pub fn told_edit(book: &Book, place: usize) -> Result<ToldEdit, OutOfMemory>
    requires noted { book.now.noted ≤ place }
    requires within { place < length book.now.journal }
    ensures { IfOk result (IsToldAt book.now.journal place) }
{
    let before = match book.before(place) {
        Some(txn) => Some(txn.try_clone()?),
        None => None,
    };
    let edit = book.journal()[place].try_clone()?;
    Ok(ToldEdit { edit, before })
}

/// Edits that were copied once, and that several shards may apply. Contracts see the list.
#[derive(Drop)]
pub struct SharedEdits {
    edits: ArcSlice<ToldEdit>,
    // Of those that were copied they are the ones from this place on.
    from: usize,
}

impl Model for SharedEdits {
    ghost use Rattle.std.specs.Prelude.{◌≤◌, List, length, drop};
    ghost use Rattle.std.specs.Arc.{arc_slice_items};
    ghost use Rattle.si_shard.specs.declared.told_edits.ToldEdit.{ToldEdit};

    ghost Value = { List ToldEdit };

    ghost view = { λ s. drop s.from (arc_slice_items s.edits) };

    ghost invariant = { λ s. s.from ≤ length (arc_slice_items s.edits) };
}

impl SharedEdits {
    /// These edits, which may be shared from now on.
    pub fn from_vec(edits: Vec<ToldEdit>) -> Result<Self, OutOfMemory>
        ensures { IfOk result (λ s. s ≡ edits.items) }
    {
        Ok(SharedEdits {
            edits: ArcSlice::from_vec(edits)?,
            from: 0,
        })
    }

    /// The edits.
    pub fn as_slice(&self) -> &[ToldEdit]
        ensures { result.now ≡ self.now }
    {
        &self.edits.as_slice()[self.from..]
    }

    /// Those behind the first so many, which are shared and not copied. There are none where the count of those who share them can't go
    /// up.
    pub fn rest(&self, skip: usize) -> Option<Self>
        ensures { IfSome result (λ s. s ≡ drop skip self.now) }
    {
        let Ok(edits) = self.edits.clone() else {
            return None;
        };
        Some(SharedEdits {
            edits,
            from: self.from + skip.min(self.as_slice().len()),
        })
    }
}
