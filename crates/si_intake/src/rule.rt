//! The rule of the queue, and what each step tells.

use crate::items::Item;
use crate::views::View;
use crossbeam_queue::protocol::{Join, Lesson, Outcome, Protocol, Split};
use crossbeam_queue::{Pass, RuledArrayQueue};

/// What was taken of a source, and then what the queue holds of it, is what it has put.
pub struct EachInOrder;

impl Protocol<Item, View> for EachInOrder {
    ghost use Rattle.std.specs.Prelude.{[]};
    ghost use Rattle.si_intake.specs.Rule.{IsKept};
    ghost use Rattle.si_intake.specs.Views.{accepter_view};

    ghost holds = { IsKept };

    ghost first = { accepter_view 0 [] [] };
}

pub(crate) type Queue = RuledArrayQueue<Item, View, EachInOrder>;

pub(crate) type Place = Pass<Item, View>;

/// The accepter's pass makes that of the next source.
pub(crate) struct NextSource;

impl Split<View> for NextSource {
    ghost use Rattle.si_intake.specs.Views.{one_more, next_source};

    ghost left = { one_more };

    ghost right = { next_source };
}

/// The accepter's pass takes in that of a source, and knows what the source has put.
pub(crate) struct TakeIn;

impl Join<View> for TakeIn {
    ghost use Rattle.si_intake.specs.Views.{with_known, spent_view};

    ghost both = { λ accepter source. with_known source.put accepter };

    ghost spent = { spent_view };
}

/// A source puts an item.
pub(crate) struct Puts;

impl Outcome<Item, View> for Puts {
    ghost use Rattle.std.specs.Prelude.{◌≡◌};
    ghost use Rattle.si_intake.specs.Views.{with_put};

    ghost then = { λ before item after. after ≡ with_put item before };
}

impl Lesson<Item, View> for Puts {
    ghost use Rattle.std.specs.Prelude.{⊤};

    ghost fact = { λ _ _. ⊤ };
}

/// The accepter takes an item: it is of one of the sources, which has not ended before.
pub(crate) struct Takes;

impl Outcome<Item, View> for Takes {
    ghost use Rattle.si_intake.specs.Rule.{IsTakenFrom};

    ghost then = { IsTakenFrom };
}

impl Lesson<Item, View> for Takes {
    ghost use Rattle.std.specs.Prelude.{⊤};

    ghost fact = { λ _ _. ⊤ };
}

/// What the accepter's pass learns of the sources that it has taken in.
pub(crate) struct Compares;

impl Lesson<Item, View> for Compares {
    ghost use Rattle.si_intake.specs.Rule.{IsOnItsWay};

    ghost fact = { IsOnItsWay };
}
