//! What is done with the book's seat, under the book's lock, and what a pass learns at a shard's seat, under the shard's.
ghost use Rattle.std.specs.Prelude.{◌≡◌, ℕ, ◌<◌, ◌≤◌, All, Some, length, slice_index};
ghost use Rattle.si_words.specs.Entries.{IsBeginning, entry, made_by};
ghost use Rattle.si_words.specs.Views.{with_entry, with_mine, with_due, with_seen, with_learned, book_closed};

use crate::badges::take_seat;
use crate::rule::{CLOSED, MARKS, TICKET};
use crate::seats::{BookSeat, Pass, ShardSeat};
use crate::steps::{Close, Issue, Learn, Named, Pull, See};
use crate::words::Words;
use si_model::{Edit, MOST_EDITS};
use std::marker::Brand;
use std::snapshot::Snapshot;

impl Words {
    /// The pass issues the edit: it is the journal's last, and bears the pass. All that the pass has seen, and as much as it
    /// has counted, stood in the journal before.
    pub fn issue(&self, book: &mut BookSeat, pass: &mut Pass, edit: Snapshot<Edit>)
        requires book { book.old.table ≡ self.now.table }
        requires pass { pass.old.table ≡ self.now.table }
        requires room { length book.old.view.journal < MOST_EDITS }
        ensures book { book.new ≡ record book.old { view = with_entry (entry pass.old.view.number edit.value) book.old.view } }
        ensures pass { pass.new ≡ record pass.old { view = with_mine (entry pass.old.view.number edit.value) pass.old.view } }
        ensures seen { IsBeginning pass.old.view.seen book.old.view.journal }
        ensures count { pass.old.view.count ≤ length book.old.view.journal }
    {
        self.issue_as::<Brand>(book, pass, edit);
    }

    fn issue_as<N: Named>(&self, book: &mut BookSeat, pass: &mut Pass, edit: Snapshot<Edit>)
        requires named { N.edit ≡ Some edit.value }
        requires book { book.old.table ≡ self.now.table }
        requires pass { pass.old.table ≡ self.now.table }
        requires room { length book.old.view.journal < MOST_EDITS }
        ensures book { book.new ≡ record book.old { view = with_entry (entry pass.old.view.number edit.value) book.old.view } }
        ensures pass { pass.new ≡ record pass.old { view = with_mine (entry pass.old.view.number edit.value) pass.old.view } }
        ensures seen { IsBeginning pass.old.view.seen book.old.view.journal }
        ensures count { pass.old.view.count ≤ length book.old.view.journal }
    {
        self.join_pass(&mut book.place, &mut pass.badge);
        self.table
            .shared
            .fetch_add::<Issue<N>>(&mut book.place, TICKET, 1);
        self.part_pass(&mut book.place, &mut pass.badge);
    }

    /// The shard is due the journal, which goes on where its list ended.
    pub fn pull(&self, shard: &mut ShardSeat, book: &mut BookSeat)
        requires shard { shard.old.table ≡ self.now.table }
        requires book { book.old.table ≡ self.now.table }
        ensures shard { shard.new ≡ record shard.old { view = with_due book.old.view.journal shard.old.view } }
        ensures book { book.new ≡ book.old }
        ensures due { IsBeginning shard.old.view.due book.old.view.journal }
        ensures done { shard.old.view.done ≤ length shard.old.view.due }
    {
        self.join_shard(&mut book.place, &mut shard.badge);
        self.table.shared.load::<Pull>(&mut book.place, TICKET);
        self.part_shard(&mut book.place, &mut shard.badge);
    }

    /// The pass sees the journal, which goes on where its list ended. The entries in it that bear the pass are its own, and
    /// each entry bears a pass of these words.
    pub fn see(&self, pass: &mut Pass, book: &mut BookSeat)
        requires pass { pass.old.table ≡ self.now.table }
        requires book { book.old.table ≡ self.now.table }
        ensures pass { pass.new ≡ record pass.old { view = with_seen book.old.view.journal pass.old.view } }
        ensures book { book.new ≡ book.old }
        ensures seen { IsBeginning pass.old.view.seen book.old.view.journal }
        ensures count { pass.old.view.count ≤ length book.old.view.journal }
        ensures marks { (k : ℕ) → k < self.now.shards → slice_index pass.old.view.marks k ≤ length book.old.view.journal }
        ensures mine { pass.old.view.mine ≡ made_by pass.old.view.number book.old.view.journal }
        ensures bearers { All (λ e. e.by < book.old.view.passes) book.old.view.journal }
    {
        self.join_pass(&mut book.place, &mut pass.badge);
        self.table.shared.load::<See>(&mut book.place, TICKET);
        self.part_pass(&mut book.place, &mut pass.badge);
    }

    /// The pass learns how much the shard has applied, and sees what the shard was due where that is more than it has seen.
    pub fn learn(&self, pass: &mut Pass, shard: &mut ShardSeat)
        requires pass { pass.old.table ≡ self.now.table }
        requires shard { shard.old.table ≡ self.now.table }
        ensures pass { pass.new ≡ record pass.old { view = with_learned shard.old.view shard.old.view.done pass.old.view } }
        ensures shard { shard.new ≡ shard.old }
        ensures mark { slice_index pass.new.view.marks shard.old.view.number ≡ shard.old.view.done }
        ensures rises { slice_index pass.old.view.marks shard.old.view.number ≤ shard.old.view.done }
        ensures seen { IsBeginning pass.old.view.seen pass.new.view.seen }
        ensures due { IsBeginning shard.old.view.due pass.new.view.seen }
        ensures done { shard.old.view.done ≤ length shard.old.view.due }
    {
        let mut place = take_seat(&mut shard.badge);
        self.join_learner(&mut place, &mut pass.badge);
        self.table
            .shared
            .load::<Learn>(&mut place, MARKS + shard.number);
        self.part_learner(&mut place, &mut pass.badge);
        shard.badge = place.into_badge();
    }

    /// The words are closed from now on.
    pub fn close(&self, book: &mut BookSeat)
        requires own { book.old.table ≡ self.now.table }
        ensures { book.new ≡ record book.old { view = book_closed book.old.view } }
    {
        self.table.shared.store::<Close>(&mut book.place, CLOSED, 1);
    }
}
