//! The intake on items that were written out by hand, and on real threads.
ghost use Rattle.std.specs.Prelude.{◌≡◌, ◌<◌, ◌≤◌, false, length, All};
ghost use Rattle.si_intake.specs.Ends.{AllEnded, AreAllEndsOf, Accepting};
ghost use Rattle.si_intake.specs.Items.{has_last, is_last};

use super::are_same;
use si_intake::laws::{lasts_append, lone_source_is_whole, new_ends_are_all, sources_append};
use si_intake::{Accepter, Item, MOST_SOURCES, SourceEnd, What, gather, open};
use si_model::{Edit, TxnId};
use si_text::LineFault;
use std::alloc::Global;
use std::process::Abort;
use std::sync::Wait;
use std::sync::atomic::{AtomicU64, Ordering};
use std::thread;
use std::thread::{Threads, join};
use std::time::{Clock, Duration};

/// How often a thread looks before it gives up.
const MOST_TURNS: u64 = 1_000_000;

fn line(number: u64, read: Result<Edit, LineFault>) -> Item
    ensures source { result.source ≡ 0 }
    ensures last { is_last result ≡ false }
{
    Item {
        source: 0,
        what: What::Line((number, read)),
    }
}

/// Whether an item that has this to tell is its source's last.
fn is_told_last(what: What) -> bool {
    let item = Item { source: 5, what };
    item.is_last()
}

#[test]
fn the_last_items_are_told(rt: HostRuntime) {
    assert!(rt; !is_told_last(What::Line((3, Err(LineFault::NotJson)))));
    assert!(rt; is_told_last(What::ReadFault));
    assert!(rt; is_told_last(What::NoMemory));
    assert!(rt; is_told_last(What::End));
}

#[test]
fn room_that_no_memory_has_is_refused(rt: HostRuntime) {
    assert!(rt; open(rt.alloc(), 1, usize::MAX).is_err());
}

/// The accepter takes this.
fn takes(rt: &(impl Wait + Abort), accepter: &mut Accepter, wanted: Option<Item>) {
    are_same(rt, accepter.take(rt), wanted);
}

/// The source puts two lines, and its last item once the first line was taken.
fn take_by_turns(rt: &(impl Wait + Abort), end: &mut SourceEnd, accepter: &mut Accepter)
    requires source { end.old.source ≡ 0 }
    requires unended { has_last end.old.put ≡ false }
{
    lasts_append();
    end.put(rt, line(7, Ok(Edit::Withdraw(TxnId(5)))));
    end.put(rt, line(9, Err(LineFault::NotJson)));
    takes(rt, accepter, Some(line(7, Ok(Edit::Withdraw(TxnId(5))))));
    let last = Item {
        source: 0,
        what: What::End,
    };
    end.put(rt, last);
    takes(rt, accepter, Some(line(9, Err(LineFault::NotJson))));
    let last = Item {
        source: 0,
        what: What::End,
    };
    takes(rt, accepter, Some(last));
    takes(rt, accepter, None);
}

#[test]
fn one_source_by_turns(rt: HostRuntime) {
    let opened = open(rt.alloc(), 1, 2);
    let (mut ends, mut accepter) = opened.expect(&rt, "memory");
    let mut end = ends.pop().expect(&rt, "an end");
    assert!(rt; end.source() == 0);
    assert!(rt; accepter.sources() == 1);
    take_by_turns(&rt, &mut end, &mut accepter);
}

/// Two laws of one source and of several, which have nothing to run.
#[test]
fn laws_are_called() {
    sources_append();
    lone_source_is_whole();
}

/// What a source has to tell at this place: so many lines, and then its last item.
fn item_at(source: usize, place: u64, lines: u64) -> Item
    ensures source { result.source ≡ source }
    ensures line { place < lines → is_last result ≡ false }
{
    let what = if place < lines {
        What::Line((place + 1, Ok(Edit::Withdraw(TxnId(place)))))
    } else {
        last_of(source)
    };
    Item { source, what }
}

/// Each kind of last item is some source's.
fn last_of(source: usize) -> What {
    match source {
        0 => What::ReadFault,
        1 => What::NoMemory,
        _ => What::End,
    }
}

#[test]
fn each_source_comes_whole_and_in_its_order(rt: HostRuntime) {
    for (sources, room) in [(2, 1), (2, 16), (4, 1), (4, 5)] {
        pass_through(&rt, rt.alloc(), sources, room, 300, Duration::ZERO);
    }
}

#[test]
fn slow_sources_are_waited_for(rt: HostRuntime) {
    pass_through(&rt, rt.alloc(), 2, 4, 5, Duration::from_millis(3));
}

/// The sources put so many lines each, after a pause before each, and the accepter takes all.
fn pass_through<R: Threads + Wait + Abort + Clock + Sync>(
    rt: &R,
    alloc: Global,
    sources: usize,
    room: usize,
    lines: u64,
    pause: Duration,
) {
    assert!(rt; 1 <= sources && sources <= MOST_SOURCES && 1 <= room);
    new_ends_are_all();
    match open(alloc, sources, room) {
        Ok((ends, accepter)) => {
            let (ends, accepter) = put_and_take(rt, alloc, ends, accepter, lines, pause);
            gather(ends, accepter);
        }
        Err(_) => panic!(rt; "memory is wanted"),
    }
}

/// The accepter takes on this thread while the sources put.
fn put_and_take<R: Threads + Wait + Abort + Clock + Sync>(
    rt: &R,
    alloc: Global,
    ends: Vec<SourceEnd>,
    accepter: Accepter,
    lines: u64,
    pause: Duration,
) -> (Vec<SourceEnd>, Accepter)
    requires unended { All (λ end. has_last end.put ≡ false) ends.items }
    requires all { AreAllEndsOf accepter ends.items }
    ensures all { AreAllEndsOf result.1 result.0.items }
    ensures ended { AllEnded result.1 }
{
    join(
        rt,
        move || -> Vec<SourceEnd>
            requires { All (λ end. has_last end.put ≡ false) ends.items }
            ensures { (a : Accepting) → AreAllEndsOf a ends.items → AreAllEndsOf a result.items }
        { put_each(rt, ends, lines, pause) },
        move || -> Accepter
            ensures { AllEnded result × (result.intake ≡ accepter.intake) × (result.sources ≡ accepter.sources) }
        { take_all(rt, alloc, accepter, lines) },
    )
}

/// Each source puts its items from a thread of its own.
fn put_each<R: Threads + Wait + Clock + Sync>(
    rt: &R,
    mut ends: Vec<SourceEnd>,
    lines: u64,
    pause: Duration,
) -> Vec<SourceEnd>
    requires { All (λ end. has_last end.put ≡ false) ends.items }
    ensures { (a : Accepting) → AreAllEndsOf a ends.items → AreAllEndsOf a result.items }
{
    let threads = ends.len();
    if threads > 0 {
        thread::for_each_mut(
            rt,
            &mut ends,
            threads,
            &|_, end: &mut SourceEnd| put_all(rt, end, lines, pause),
        );
    }
    ends
}

fn put_all<R: Wait + Clock>(rt: &R, end: &mut SourceEnd, lines: u64, pause: Duration)
    requires { has_last end.old.put ≡ false }
    ensures intake { end.new.intake ≡ end.old.intake }
    ensures source { end.new.source ≡ end.old.source }
{
    lasts_append();
    let source = end.source();
    for place in 0..lines {
        if !pause.is_zero() {
            thread::sleep(rt, pause);
        }
        end.put(rt, item_at(source, place, lines));
    }
    end.put(rt, item_at(source, lines, lines));
}

/// Takes until there is no more. Of each source come its lines and its last item, in order, and nothing behind.
fn take_all<R: Wait + Abort>(rt: &R, alloc: Global, mut accepter: Accepter, lines: u64) -> Accepter
    ensures ended { AllEnded result }
    ensures intake { result.intake ≡ accepter.intake }
    ensures sources { result.sources ≡ accepter.sources }
{
    let mut places = Vec::from_elem(alloc, 0u64, accepter.sources()).expect(rt, "memory");
    for _ in rt.forever() {
        if !takes_next(rt, &mut accepter, places.as_mut_slice(), lines) {
            break;
        }
    }
    for place in &places {
        assert!(rt; *place == lines.wrapping_add(1));
    }
    accepter
}

/// Whether there was one more to take. It is what its source has to tell at the place that it has come to.
fn takes_next<R: Wait + Abort>(
    rt: &R,
    accepter: &mut Accepter,
    places: &mut [u64],
    lines: u64,
) -> bool
    ensures ended { result ≡ false → AllEnded accepter.new }
    ensures intake { accepter.new.intake ≡ accepter.old.intake }
    ensures sources { accepter.new.sources ≡ accepter.old.sources }
{
    match accepter.take(rt) {
        Some(item) => {
            count_item(rt, item, places, lines);
            true
        }
        None => false,
    }
}

fn count_item(rt: &impl Abort, item: Item, places: &mut [u64], lines: u64) {
    let source = item.source;
    let place = places.get_mut(source).expect(rt, "a source");
    are_same(rt, item, item_at(source, *place, lines));
    *place = place.wrapping_add(1);
}

#[test]
fn a_full_queue_holds_a_source_back(rt: HostRuntime) {
    for room in [1, 4] {
        hold_back(&rt, rt.alloc(), room);
    }
}

/// How many lines the source puts that is held back.
const HELD_LINES: u64 = 20;

fn hold_back<R: Threads + Wait + Abort + Clock + Sync>(rt: &R, alloc: Global, room: usize)
    requires { 1 ≤ room }
{
    let (mut ends, accepter) = open(alloc, 1, room).expect(rt, "memory");
    let end = ends.pop().expect(rt, "an end");
    put_while_held(rt, end, accepter, room as u64);
}

fn put_while_held<R: Threads + Wait + Abort + Clock + Sync>(
    rt: &R,
    end: SourceEnd,
    accepter: Accepter,
    room: u64,
)
    requires source { end.source ≡ 0 }
    requires unended { has_last end.put ≡ false }
{
    let counter = AtomicU64::new(0);
    let put = &counter;
    join(
        rt,
        move || -> ()
            requires { (end.source ≡ 0) × (has_last end.put ≡ false) }
        { put_counted(rt, end, put) },
        move || take_counted(rt, accepter, put, room),
    );
}

/// Counts what was put.
fn put_counted<R: Wait>(rt: &R, mut end: SourceEnd, put: &AtomicU64)
    requires source { end.source ≡ 0 }
    requires unended { has_last end.put ≡ false }
{
    lasts_append();
    for place in 0..HELD_LINES {
        end.put(rt, item_at(0, place, HELD_LINES));
        put.store(place + 1, Ordering::SeqCst);
    }
    end.put(rt, item_at(0, HELD_LINES, HELD_LINES));
}

/// Takes no item before the queue is full and the source could have put more. No more are put than there is room for.
fn take_counted<R: Wait + Abort + Clock>(
    rt: &R,
    mut accepter: Accepter,
    put: &AtomicU64,
    room: u64,
) {
    assert!(rt; comes_to(put, room));
    thread::sleep(rt, Duration::from_millis(5));
    for taken in 0..HELD_LINES {
        assert!(rt; put.load(Ordering::SeqCst) <= taken.saturating_add(room));
        takes(rt, &mut accepter, Some(item_at(0, taken, HELD_LINES)));
    }
    takes(rt, &mut accepter, Some(item_at(0, HELD_LINES, HELD_LINES)));
    takes(rt, &mut accepter, None);
}

/// Whether this comes to the number, within so many turns.
fn comes_to(word: &AtomicU64, number: u64) -> bool {
    for _ in 0..MOST_TURNS {
        if word.load(Ordering::SeqCst) >= number {
            return true;
        }
        thread::yield_now();
    }
    false
}
