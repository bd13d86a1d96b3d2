//! The seats that threads step with. Each has no bytes but its number, and to a contract it is the table that it is of and
//! what it knows.

ghost use Rattle.std.specs.Prelude.{◌≡◌};

use crate::rule::TableSeat;
use crate::views::{BookView, PassView, ShardView, View};
use atomic_table::Badge;
use std::marker::Model;

/// The seat of the book. It lies under the book's lock.
#[derive(Drop)]
pub struct BookSeat {
    pub(crate) place: TableSeat,
}

impl Model for BookSeat {
    ghost use Rattle.std.specs.Prelude.{◌≡◌, []};
    ghost use Rattle.si_words.specs.declared.views.BookView.{BookView};
    ghost use Rattle.si_words.specs.Seats.{Seated, seated, book_in};
    ghost use Rattle.si_words.specs.Views.{book_view};

    ghost Value = { Seated BookView };

    ghost view = { λ s. seated s.place.table_id (book_in s.place.me.0) };

    ghost invariant = { λ s. s.place.me ≡ (book_view (book_in s.place.me.0), []) };
}

/// The seat of one shard. It lies under the shard's lock.
#[derive(Drop)]
pub struct ShardSeat {
    pub(crate) number: usize,
    pub(crate) badge: Badge<View>,
}

impl Model for ShardSeat {
    ghost use Rattle.si_words.specs.declared.views.ShardView.{ShardView};
    ghost use Rattle.si_words.specs.Seats.{Seated, seated, first_shard, IsShardBadge};

    ghost Value = { Seated ShardView };

    ghost view = { λ s. seated s.badge.table_id (first_shard s.badge.views) };

    ghost invariant = { λ s. IsShardBadge s.badge.views s.number s.badge.table_id.words };
}

impl ShardSeat {
    /// Which shard it is of.
    pub fn number(&self) -> usize
        ensures { result ≡ self.now.view.number }
    {
        self.number
    }
}

/// What one caller of the words knows, and steps with.
#[derive(Drop)]
pub struct Pass {
    pub(crate) badge: Badge<View>,
}

impl Model for Pass {
    ghost use Rattle.si_words.specs.declared.views.PassView.{PassView};
    ghost use Rattle.si_words.specs.Seats.{Seated, seated, first_pass, IsPassBadge};

    ghost Value = { Seated PassView };

    ghost view = { λ s. seated s.badge.table_id (first_pass s.badge.views) };

    ghost invariant = { λ s. IsPassBadge s.badge.views s.badge.table_id.words };
}
