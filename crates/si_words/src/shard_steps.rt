//! What is done with a shard's seat, under the shard's lock.
ghost use Rattle.std.specs.Prelude.{◌≡◌, ◌≤◌, true, length};
ghost use Rattle.si_words.specs.Entries.{IsBeginning};
ghost use Rattle.si_words.specs.Views.{with_done, shard_closed, shard_counted};

use crate::badges::take_seat;
use crate::rule::{CLOSED, MARKS, TICKET};
use crate::seats::ShardSeat;
use crate::steps::{AskClosed, CountIssued, Publish};
use crate::words::Words;
use si_model::MOST_EDITS;

impl Words {
    /// The shard has applied what it is due up to this position.
    pub fn publish(&self, shard: &mut ShardSeat, position: u64)
        requires own { shard.old.table ≡ self.now.table }
        requires onward { shard.old.view.done ≤ position }
        requires due { position ≤ length shard.old.view.due }
        ensures { shard.new ≡ record shard.old { view = with_done position shard.old.view } }
    {
        let mut place = take_seat(&mut shard.badge);
        self.table
            .shared
            .fetch_max::<Publish>(&mut place, MARKS + shard.number, position);
        shard.badge = place.into_badge();
    }

    /// How many edits were issued. It is at least what the shard is due, and does not go back.
    pub fn issued_at(&self, shard: &mut ShardSeat) -> u64
        requires own { shard.old.table ≡ self.now.table }
        ensures view { shard.new ≡ record shard.old { view = shard_counted result shard.old.view } }
        ensures rises { shard.old.view.count ≤ result }
        ensures due { length shard.old.view.due ≤ result }
        ensures within { result ≤ MOST_EDITS }
    {
        let mut place = take_seat(&mut shard.badge);
        let found = self.table.shared.load::<CountIssued>(&mut place, TICKET);
        shard.badge = place.into_badge();
        found
    }

    /// Whether the words are closed. Once a shard's seat has found them closed it finds them so.
    pub fn is_closed_at(&self, shard: &mut ShardSeat) -> bool
        requires own { shard.old.table ≡ self.now.table }
        ensures view { shard.new ≡ record shard.old { view = shard_closed result shard.old.view } }
        ensures stays { shard.old.view.closed ≡ true → result ≡ true }
    {
        let mut place = take_seat(&mut shard.badge);
        let found = self.table.shared.load::<AskClosed>(&mut place, CLOSED);
        shard.badge = place.into_badge();
        found == 1
    }
}
