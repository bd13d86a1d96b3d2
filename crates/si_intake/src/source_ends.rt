//! The end of a source, to which it puts what it has to tell.
ghost use Rattle.std.specs.Prelude.{◌≡◌, false, ◌++◌, ◌∷◌, []};
ghost use Rattle.si_intake.specs.Items.{has_last};

use crate::hand_over::HandOver;
use crate::items::Item;
use crate::rule::Place;
use std::alloc::Global;
use std::marker::Model;
use std::sync::{Arc, Wait};

/// The end of one source. To a contract it is the intake that it is of, the source's number, and what it has put.
#[derive(Drop)]
pub struct SourceEnd {
    pub(crate) shared: Arc<HandOver, Global>,
    pub(crate) place: Place,
    pub(crate) source: usize,
}

impl Model for SourceEnd {
    ghost use Rattle.std.specs.Prelude.{◌≡◌};
    ghost use Rattle.std.specs.Arc.{arc_value};
    ghost use Rattle.crossbeam_queue.specs.Passes.{view as pass_view, IsPassOf};
    ghost use Rattle.si_intake.specs.Ends.{Putting};
    ghost use Rattle.si_intake.specs.Views.{source_view};

    ghost Value = { Putting };

    ghost view = { λ e. record { intake = e.place.table_id; source = e.source; put = (pass_view e.place).put } };

    ghost invariant = { λ e. IsPassOf (arc_value e.shared).queue e.place × (pass_view e.place ≡ source_view e.source (pass_view e.place).put) };
}

impl SourceEnd {
    /// The number of the source.
    pub fn source(&self) -> usize
        ensures { result ≡ self.now.source }
    {
        self.source
    }

    /// Puts the item. It waits while the queue is full, and so until the accepter takes.
    pub fn put<R: Wait>(&mut self, rt: &R, item: Item)
        requires source { item.source ≡ self.old.source }
        requires unended { has_last self.old.put ≡ false }
        ensures put { self.new ≡ record self.old { put = self.old.put ++ item ∷ [] } }
    {
        self.shared.put(rt, &mut self.place, item);
    }
}
