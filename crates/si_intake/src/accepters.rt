//! The accepter, which takes what the sources put.
ghost use Rattle.std.specs.Prelude.{◌≡◌, ◌<◌, ◌↔◌, false, ◌++◌, ◌∷◌, [], MatchOption, IfSome, IsNone};
ghost use Rattle.si_intake.specs.Ends.{AllEnded};
ghost use Rattle.si_intake.specs.Items.{has_last, of_source};

use crate::hand_over::HandOver;
use crate::items::Item;
use crate::rule::Place;
use std::alloc::Global;
use std::marker::Model;
use std::sync::{Arc, Wait};

/// The one end at which the items come out. To a contract it is the intake that it is of, how many sources that has, and what
/// was taken.
#[derive(Drop)]
pub struct Accepter {
    pub(crate) shared: Arc<HandOver, Global>,
    pub(crate) place: Place,
    /// How many sources there are.
    pub(crate) sources: usize,
    /// Of how many no last item was taken.
    pub(crate) unended: usize,
    /// Once in so many takes the sources are called.
    pub(crate) half: usize,
    /// After so many takes they are called again.
    pub(crate) to_call: usize,
}

impl Model for Accepter {
    ghost use Rattle.std.specs.Prelude.{◌≡◌, ◌+◌, ◌<◌, [], All};
    ghost use Rattle.std.specs.Arc.{arc_value};
    ghost use Rattle.crossbeam_queue.specs.Passes.{view as pass_view, IsPassOf};
    ghost use Rattle.si_intake.specs.Ends.{Accepting};
    ghost use Rattle.si_intake.specs.Endings.{ended_below};
    ghost use Rattle.si_intake.specs.Views.{accepter_view};

    ghost Value = { Accepting };

    ghost view = { λ a. record { intake = a.place.table_id; sources = a.sources; taken = (pass_view a.place).got } };

    ghost invariant = { λ a.
        IsPassOf (arc_value a.shared).queue a.place
        × (pass_view a.place ≡ accepter_view a.sources (pass_view a.place).got [])
        × (a.unended + ended_below a.sources (pass_view a.place).got ≡ a.sources)
        × All (λ item. item.source < a.sources) (pass_view a.place).got };
}

impl Accepter {
    /// How many sources there are.
    pub fn sources(&self) -> usize
        ensures { result ≡ self.now.sources }
    {
        self.sources
    }

    /// The next item, of any source: it waits until there is one. None once the last item of each source was taken.
    ///
    /// Whoever has an accepter has to take until then, since a source waits while the queue is full.
    pub fn take<R: Wait>(&mut self, rt: &R) -> Option<Item>
        ensures taken { MatchOption result
            (self.new ≡ self.old)
            (λ item. self.new ≡ record self.old { taken = self.old.taken ++ item ∷ [] }) }
        ensures end { IsNone result ↔ AllEnded self.old }
        ensures source { IfSome result (λ item. item.source < self.old.sources) }
        ensures unended { IfSome result (λ item. has_last (of_source item.source self.old.taken) ≡ false) }
    {
        if self.unended == 0 {
            return None;
        }
        let item = self.next(rt);
        self.make_room();
        Some(item)
    }

    /// Takes the next item, and counts the last ones.
    fn next<R: Wait>(&mut self, rt: &R) -> Item
        ensures taken { self.new ≡ record self.old { taken = self.old.taken ++ result ∷ [] } }
        ensures source { result.source < self.old.sources }
        ensures unended { has_last (of_source result.source self.old.taken) ≡ false }
    {
        let item = self.shared.take(rt, &mut self.place);
        if item.is_last() {
            self.unended -= 1;
        }
        item
    }

    /// Calls the sources, where it took half of a queue since it called them.
    fn make_room(&mut self)
        ensures { self.new ≡ self.old }
    {
        if self.to_call > 1 {
            self.to_call -= 1;
        } else {
            self.to_call = self.half;
            self.shared.call_sources();
        }
    }
}
