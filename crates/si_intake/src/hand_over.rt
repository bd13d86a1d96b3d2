//! The queue between the sources and the accepter, and the sleep of who waits for it.
//!
//! Who waits tries a few times, and then sleeps until it is called. It is never left asleep, whatever the schedule:
//!
//! - Before it sleeps it announces itself, and then it tries once more. So where it sleeps, the queue was full (to a source) or
//!   empty (to the accepter) at a moment after its announcement, and any change of that comes after the announcement too.
//! - A source calls the accepter after each put. So the first item that comes into the empty queue is followed by a call, which
//!   finds the announcement.
//! - The accepter calls the sources once in so many takes, half of the queue's room. Between the moment at which a source found
//!   the queue full and the next at which the queue is empty, it takes as many items as the queue has room for. So it calls
//!   before it could sleep itself, and that call finds the announcement.
//!
//! A call costs one load where nobody is announced. A source that finds the queue full is called again when there is room for
//! about half a queue, so it puts many items for one call. Of the sources that find the accepter announced, one calls.
ghost use Rattle.std.specs.Prelude.{◌≡◌, false, [], MatchResult, MatchOption};
ghost use Rattle.crossbeam_queue.specs.Passes.{view, IsPassOf};
ghost use Rattle.si_intake.specs.Items.{has_last};
ghost use Rattle.si_intake.specs.Rule.{IsTakenFrom};
ghost use Rattle.si_intake.specs.Views.{source_view, accepter_view, with_put};

use crate::items::Item;
use crate::rule::{Place, Puts, Queue, Takes};
use crossbeam_utils::Backoff;
use crossbeam_utils::sync::EventCount;
use std::sync::Wait;
use std::sync::atomic::{AtomicU64, Ordering};

/// What the ends share.
#[derive(Drop)]
pub(crate) struct HandOver {
    pub(crate) queue: Queue,
    /// Calls the accepter.
    filled: EventCount,
    /// 1 where the accepter has announced itself, and no source has called it since.
    announced: AtomicU64,
    /// Calls the sources.
    room: EventCount,
}

impl HandOver {
    /// Hands items over by this queue.
    pub(crate) fn new(queue: Queue) -> HandOver
        ensures { result.queue ≡ queue }
    {
        HandOver {
            queue,
            filled: EventCount::new(),
            announced: AtomicU64::new(0),
            room: EventCount::new(),
        }
    }

    /// Puts the item, once there is room for it.
    pub(crate) fn put<R: Wait>(&self, rt: &R, place: &mut Place, item: Item)
        requires own { IsPassOf self.now.queue place.old }
        requires source { view place.old ≡ source_view item.source (view place.old).put }
        requires unended { has_last (view place.old).put ≡ false }
        ensures own { IsPassOf self.now.queue place.new }
        ensures id { place.new.table_id ≡ place.old.table_id }
        ensures put { view place.new ≡ with_put item (view place.old) }
    {
        if let Err(back) = self.try_put(rt, place, item) {
            self.put_at_last(rt, place, back);
        }
        self.call_accepter();
    }

    /// Puts the item, once there is room for it: there was none.
    #[inline(never)]
    fn put_at_last<R: Wait>(&self, rt: &R, place: &mut Place, item: Item)
        requires own { IsPassOf self.now.queue place.old }
        requires source { view place.old ≡ source_view item.source (view place.old).put }
        requires unended { has_last (view place.old).put ≡ false }
        ensures own { IsPassOf self.now.queue place.new }
        ensures id { place.new.table_id ≡ place.old.table_id }
        ensures put { view place.new ≡ with_put item (view place.old) }
    {
        let backoff = Backoff::new();
        let mut item = item;
        for _ in rt.forever() {
            backoff.snooze();
            let tried = if backoff.is_completed() {
                self.put_or_sleep(rt, place, item)
            } else {
                self.try_put(rt, place, item)
            };
            match tried {
                Ok(()) => return,
                Err(back) => item = back,
            }
        }
    }

    /// The item comes back where the queue was full.
    fn try_put<R: Wait>(&self, rt: &R, place: &mut Place, item: Item) -> Result<(), Item>
        requires own { IsPassOf self.now.queue place.old }
        requires source { view place.old ≡ source_view item.source (view place.old).put }
        requires unended { has_last (view place.old).put ≡ false }
        ensures own { IsPassOf self.now.queue place.new }
        ensures id { place.new.table_id ≡ place.old.table_id }
        ensures put { MatchResult result
            (λ _. view place.new ≡ with_put item (view place.old))
            (λ back. (back ≡ item) × (view place.new ≡ view place.old)) }
    {
        self.queue.push_as::<Puts, R>(rt, place, item)
    }

    /// The same, and where the queue was full it sleeps until the accepter calls.
    fn put_or_sleep<R: Wait>(&self, rt: &R, place: &mut Place, item: Item) -> Result<(), Item>
        requires own { IsPassOf self.now.queue place.old }
        requires source { view place.old ≡ source_view item.source (view place.old).put }
        requires unended { has_last (view place.old).put ≡ false }
        ensures own { IsPassOf self.now.queue place.new }
        ensures id { place.new.table_id ≡ place.old.table_id }
        ensures put { MatchResult result
            (λ _. view place.new ≡ with_put item (view place.old))
            (λ back. (back ≡ item) × (view place.new ≡ view place.old)) }
    {
        let call = self.room.prepare_wait();
        let tried = self.try_put(rt, place, item);
        if tried.is_err() {
            call.wait(rt);
        }
        tried
    }

    /// Takes the next item, once there is one.
    pub(crate) fn take<R: Wait>(&self, rt: &R, place: &mut Place) -> Item
        requires own { IsPassOf self.now.queue place.old }
        requires accepter { view place.old ≡ accepter_view (view place.old).made (view place.old).got [] }
        ensures own { IsPassOf self.now.queue place.new }
        ensures id { place.new.table_id ≡ place.old.table_id }
        ensures taken { IsTakenFrom (view place.old) result (view place.new) }
    {
        match self.try_take(rt, place) {
            Some(item) => item,
            None => self.take_at_last(rt, place),
        }
    }

    /// Takes the next item, once there is one: there was none.
    #[inline(never)]
    fn take_at_last<R: Wait>(&self, rt: &R, place: &mut Place) -> Item
        requires own { IsPassOf self.now.queue place.old }
        requires accepter { view place.old ≡ accepter_view (view place.old).made (view place.old).got [] }
        ensures own { IsPassOf self.now.queue place.new }
        ensures id { place.new.table_id ≡ place.old.table_id }
        ensures taken { IsTakenFrom (view place.old) result (view place.new) }
    {
        let backoff = Backoff::new();
        for _ in rt.forever() {
            backoff.snooze();
            let tried = if backoff.is_completed() {
                self.take_or_sleep(rt, place)
            } else {
                self.try_take(rt, place)
            };
            if let Some(item) = tried {
                return item;
            }
        }
        unreachable!()
    }

    /// The next item, or none where the queue was empty.
    fn try_take<R: Wait>(&self, rt: &R, place: &mut Place) -> Option<Item>
        requires own { IsPassOf self.now.queue place.old }
        requires accepter { view place.old ≡ accepter_view (view place.old).made (view place.old).got [] }
        ensures own { IsPassOf self.now.queue place.new }
        ensures id { place.new.table_id ≡ place.old.table_id }
        ensures taken { MatchOption result
            (view place.new ≡ view place.old)
            (λ item. IsTakenFrom (view place.old) item (view place.new)) }
    {
        self.queue.pop_as::<Takes, R>(rt, place)
    }

    /// The same, and where the queue was empty it sleeps until a source calls.
    fn take_or_sleep<R: Wait>(&self, rt: &R, place: &mut Place) -> Option<Item>
        requires own { IsPassOf self.now.queue place.old }
        requires accepter { view place.old ≡ accepter_view (view place.old).made (view place.old).got [] }
        ensures own { IsPassOf self.now.queue place.new }
        ensures id { place.new.table_id ≡ place.old.table_id }
        ensures taken { MatchOption result
            (view place.new ≡ view place.old)
            (λ item. IsTakenFrom (view place.old) item (view place.new)) }
    {
        let call = self.filled.prepare_wait();
        self.announced.store(1, Ordering::SeqCst);
        let tried = self.try_take(rt, place);
        if tried.is_none() {
            call.wait(rt);
        }
        tried
    }

    /// Of the sources that find the accepter announced, one calls it.
    fn call_accepter(&self) {
        let announced = &self.announced;
        if announced.load(Ordering::SeqCst) != 0 && announced.swap(0, Ordering::SeqCst) != 0 {
            self.filled.notify_one();
        }
    }

    /// Calls the sources that are announced.
    pub(crate) fn call_sources(&self) {
        self.room.notify_all();
    }
}
