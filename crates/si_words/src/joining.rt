//! Two seats are made one for a step, and parted after it.
ghost use Rattle.std.specs.Prelude.{◌≡◌, [], ◌∷◌};
ghost use Rattle.si_words.specs.Seats.{book_in, shard_in, pass_in, first_shard, first_pass};
ghost use Rattle.si_words.specs.Views.{book_view, shard_view, pass_view, book_and_pass, book_and_shard, shard_and_pass};

use crate::badges::take_seat;
use crate::rule::TableSeat;
use crate::steps::{PassApart, ShardApart, Together};
use crate::views::View;
use crate::words::Words;
use atomic_table::Badge;

impl Words {
    /// The pass comes to the book's seat.
    pub(crate) fn join_pass(&self, book: &mut TableSeat, pass: &mut Badge<View>)
        requires book { (book.old.table_id ≡ self.now.table) × (book.old.me ≡ (book_view (book_in book.old.me.0), [])) }
        requires pass { (pass.old.table_id ≡ self.now.table) × (pass.old.views ≡ pass_view (first_pass pass.old.views) ∷ []) }
        ensures { (book.new.table_id ≡ self.now.table) × (book.new.me ≡ (book_and_pass (book_in book.old.me.0) (first_pass pass.old.views), [])) }
    {
        let seat = take_seat(pass);
        self.table.shared.join_seat::<Together>(book, seat);
    }

    /// The pass leaves the book's seat.
    pub(crate) fn part_pass(&self, book: &mut TableSeat, pass: &mut Badge<View>)
        requires { (book.old.table_id ≡ self.now.table) × (book.old.me ≡ (book_and_pass (book_in book.old.me.0) (pass_in book.old.me.0), [])) }
        ensures book { (book.new.table_id ≡ self.now.table) × (book.new.me ≡ (book_view (book_in book.old.me.0), [])) }
        ensures pass { (pass.new.table_id ≡ self.now.table) × (pass.new.views ≡ pass_view (pass_in book.old.me.0) ∷ []) }
    {
        *pass = self.table.shared.split_seat::<PassApart>(book).into_badge();
    }

    /// The shard's seat comes to the book's.
    pub(crate) fn join_shard(&self, book: &mut TableSeat, shard: &mut Badge<View>)
        requires book { (book.old.table_id ≡ self.now.table) × (book.old.me ≡ (book_view (book_in book.old.me.0), [])) }
        requires shard { (shard.old.table_id ≡ self.now.table) × (shard.old.views ≡ shard_view (first_shard shard.old.views) ∷ []) }
        ensures { (book.new.table_id ≡ self.now.table) × (book.new.me ≡ (book_and_shard (book_in book.old.me.0) (first_shard shard.old.views), [])) }
    {
        let seat = take_seat(shard);
        self.table.shared.join_seat::<Together>(book, seat);
    }

    /// The shard's seat leaves the book's.
    pub(crate) fn part_shard(&self, book: &mut TableSeat, shard: &mut Badge<View>)
        requires { (book.old.table_id ≡ self.now.table) × (book.old.me ≡ (book_and_shard (book_in book.old.me.0) (shard_in book.old.me.0), [])) }
        ensures book { (book.new.table_id ≡ self.now.table) × (book.new.me ≡ (book_view (book_in book.old.me.0), [])) }
        ensures shard { (shard.new.table_id ≡ self.now.table) × (shard.new.views ≡ shard_view (shard_in book.old.me.0) ∷ []) }
    {
        *shard = self
            .table
            .shared
            .split_seat::<ShardApart>(book)
            .into_badge();
    }

    /// The pass comes to the shard's seat.
    pub(crate) fn join_learner(&self, shard: &mut TableSeat, pass: &mut Badge<View>)
        requires shard { (shard.old.table_id ≡ self.now.table) × (shard.old.me ≡ (shard_view (shard_in shard.old.me.0), [])) }
        requires pass { (pass.old.table_id ≡ self.now.table) × (pass.old.views ≡ pass_view (first_pass pass.old.views) ∷ []) }
        ensures { (shard.new.table_id ≡ self.now.table) × (shard.new.me ≡ (shard_and_pass (shard_in shard.old.me.0) (first_pass pass.old.views), [])) }
    {
        let seat = take_seat(pass);
        self.table.shared.join_seat::<Together>(shard, seat);
    }

    /// The pass leaves the shard's seat.
    pub(crate) fn part_learner(&self, shard: &mut TableSeat, pass: &mut Badge<View>)
        requires { (shard.old.table_id ≡ self.now.table) × (shard.old.me ≡ (shard_and_pass (shard_in shard.old.me.0) (pass_in shard.old.me.0), [])) }
        ensures shard { (shard.new.table_id ≡ self.now.table) × (shard.new.me ≡ (shard_view (shard_in shard.old.me.0), [])) }
        ensures pass { (pass.new.table_id ≡ self.now.table) × (pass.new.views ≡ pass_view (pass_in shard.old.me.0) ∷ []) }
    {
        *pass = self
            .table
            .shared
            .split_seat::<PassApart>(shard)
            .into_badge();
    }
}
