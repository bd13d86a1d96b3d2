//! What a pass finds in the words by itself. None of these calls waits for another.
ghost use Rattle.std.specs.Prelude.{◌≡◌, ℕ, ◌+◌, ◌<◌, ◌≤◌, true, length, slice_index, EachIndex, SomeIndex};
ghost use Rattle.si_words.specs.Views.{with_mark, with_marks, with_count, pass_closed};

use crate::badges::take_seat;
use crate::rule::{CLOSED, MARKS, TICKET};
use crate::seats::Pass;
use crate::steps::{AskClosed, CountIssued, Look};
use crate::words::Words;
use si_model::MOST_EDITS;

impl Words {
    /// How many edits were issued. It is at least what the pass has seen.
    pub fn issued(&self, pass: &mut Pass) -> u64
        requires own { pass.old.table ≡ self.now.table }
        ensures view { pass.new ≡ record pass.old { view = with_count result pass.old.view } }
        ensures rises { pass.old.view.count ≤ result }
        ensures seen { length pass.old.view.seen ≤ pass.old.view.count }
        ensures within { result ≤ MOST_EDITS }
    {
        let mut place = take_seat(&mut pass.badge);
        let found = self.table.shared.load::<CountIssued>(&mut place, TICKET);
        pass.badge = place.into_badge();
        found
    }

    /// How many edits the shard has applied.
    pub fn shard_mark(&self, pass: &mut Pass, k: usize) -> u64
        requires own { pass.old.table ≡ self.now.table }
        requires shard { k < self.now.shards }
        ensures view { pass.new ≡ record pass.old { view = with_mark k result pass.old.view } }
        ensures mark { slice_index pass.new.view.marks k ≡ result }
        ensures rises { slice_index pass.old.view.marks k ≤ result }
        ensures all_marks { length pass.new.view.marks ≡ self.now.shards }
        ensures within { result ≤ MOST_EDITS }
    {
        let mut place = take_seat(&mut pass.badge);
        let found = self.table.shared.load::<Look>(&mut place, MARKS + k);
        pass.badge = place.into_badge();
        found
    }

    /// The least mark, after a look at each shard's word: every shard has applied at least so many edits.
    pub fn watermark(&self, pass: &mut Pass) -> u64
        requires own { pass.old.table ≡ self.now.table }
        ensures view { pass.new ≡ record pass.old { view = with_marks pass.new.view.marks pass.old.view } }
        ensures all_marks { length pass.new.view.marks ≡ self.now.shards }
        ensures rises { (k : ℕ) → k < self.now.shards → slice_index pass.old.view.marks k ≤ slice_index pass.new.view.marks k }
        ensures least { (k : ℕ) → k < self.now.shards → result ≤ slice_index pass.new.view.marks k }
        ensures mark { (k : ℕ) × (k < self.now.shards) × (slice_index pass.new.view.marks k ≡ result) }
        ensures within { result ≤ MOST_EDITS }
    {
        let shards = self.shards;
        let mut least = self.shard_mark(pass, 0);
        for k in 1..shards {
            let mark = self.shard_mark(pass, k);
            if mark < least {
                least = mark;
            }
        }
        least
    }

    /// Whether the words are closed. Once a pass has found them closed it finds them so.
    pub fn is_closed(&self, pass: &mut Pass) -> bool
        requires own { pass.old.table ≡ self.now.table }
        ensures view { pass.new ≡ record pass.old { view = pass_closed result pass.old.view } }
        ensures stays { pass.old.view.closed ≡ true → result ≡ true }
    {
        let mut place = take_seat(&mut pass.badge);
        let found = self.table.shared.load::<AskClosed>(&mut place, CLOSED);
        pass.badge = place.into_badge();
        found == 1
    }
}
