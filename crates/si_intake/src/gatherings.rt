//! The ends are gathered once all is taken.
ghost use Rattle.std.specs.Prelude.{◌≡◌};
ghost use Rattle.crossbeam_queue.specs.Passes.{view, IsPassOf};
ghost use Rattle.si_intake.specs.Ends.{AreAllEndsOf, AllEnded, all_put};
ghost use Rattle.si_intake.specs.Interleavings.{IsInterleaving};

use crate::accepters::Accepter;
use crate::rule::{Compares, Place, TakeIn};
use crate::source_ends::SourceEnd;
use std::marker::Model;

/// What went through an intake. To a contract it is what was taken and what each source has put, and the one is an interleaving of
/// the others.
#[derive(Drop)]
pub struct Taken {
    place: Place,
}

impl Model for Taken {
    ghost use Rattle.crossbeam_queue.specs.Passes.{view as pass_view};
    ghost use Rattle.si_intake.specs.Ends.{Passed};
    ghost use Rattle.si_intake.specs.Interleavings.{IsInterleaving};

    ghost Value = { Passed };

    ghost view = { λ t. record { taken = (pass_view t.place).got; put = (pass_view t.place).known } };

    ghost invariant = { λ t. IsInterleaving (pass_view t.place).got (pass_view t.place).known };
}

/// Gathers the ends of all sources, in the order of their numbers, once the accepter has answered that there is no more: what was
/// taken is an interleaving of what each source has put.
pub fn gather(ends: Vec<SourceEnd>, accepter: Accepter) -> Taken
    requires ends { AreAllEndsOf accepter ends.items }
    requires ended { AllEnded accepter }
    ensures taken { result.taken ≡ accepter.taken }
    ensures put { result.put ≡ all_put ends.items }
    ensures interleaving { IsInterleaving accepter.taken (all_put ends.items) }
{
    let Accepter {
        shared,
        mut place,
        ..
    } = accepter;
    for end in ends {
        let SourceEnd { place: theirs, .. } = end;
        shared.queue.absorb::<TakeIn>(&mut place, theirs);
    }
    shared.queue.learn_as::<Compares>(&mut place);
    Taken { place }
}
