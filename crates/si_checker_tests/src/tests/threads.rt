//! Workers on threads of their own, of which one is held.
ghost use Rattle.std.specs.Prelude.{◌<◌};

use super::turns::numbered;
use super::*;
use std::sync::atomic::{AtomicU64, Ordering};
use std::thread;

/// How often a held thread looks before it gives up.
const MOST_TURNS: u64 = 1_000_000;

/// Holds the first shard's worker at its first edit until it is let go, and notes what it published since. It counts what has
/// come: that worker to its first edit, and the second shard's to have published the third.
#[derive(Drop)]
struct Holding {
    is_open: AtomicU64,
    gave_up: AtomicU64,
    published: AtomicU64,
    come: AtomicU64,
}

impl Holding {
    fn new() -> Self {
        Holding {
            is_open: AtomicU64::new(0),
            gave_up: AtomicU64::new(0),
            published: AtomicU64::new(0),
            come: AtomicU64::new(0),
        }
    }

    /// Returns once this is so much, and else gives up.
    fn wait_for(&self, word: &AtomicU64, wanted: u64) {
        for _ in 0..MOST_TURNS {
            if word.load(Ordering::SeqCst) == wanted {
                return;
            }
            thread::yield_now();
        }
        self.gave_up.store(1, Ordering::SeqCst);
    }

    fn note(&self, number: u64) {
        let before = self.published.load(Ordering::SeqCst);
        let after = before.wrapping_mul(100).wrapping_add(number);
        self.published.store(after, Ordering::SeqCst);
    }
}

impl Gate for Holding {
    fn at(&self, place: Place) {
        match place {
            Place::Apply {
                shard: 0,
                number: Number(1),
            } => {
                self.come.fetch_add(1, Ordering::SeqCst);
                self.wait_for(&self.is_open, 1);
            }
            Place::Published { shard: 0, number } => self.note(number.0),
            Place::Published {
                shard: 1,
                number: Number(3),
            } => {
                self.come.fetch_add(1, Ordering::SeqCst);
            }
            _ => {}
        }
    }
}

/// A worker for each shard. True if all end because the checker is closed.
pub(super) fn work_all<
    N: Name + Send + Sync,
    G: Gate + Sync,
    R: Threads + Wait + AllocGlobal + Sync,
>(rt: &R, checker: &Checker<N>, gate: &G) -> bool {
    let ended = thread::map_indices(
        rt,
        rt.alloc(),
        checker.shards(),
        &|k: usize| -> Worked
            requires { k < N.board.shards }
        { checker.work(rt, k, gate) },
    );
    match ended {
        Ok(ended) => ended.iter().all(|worked| *worked == Worked::Closed),
        Err(_) => false,
    }
}

/// A shard is held while another works.
pub(super) fn held_shard<N: Name + Send + Sync, R: Threads + Wait + Abort + AllocGlobal + Sync>(
    rt: &R,
    mut callers: Vec<Caller<'_, N>>,
) {
    let first = next(rt, &mut callers);
    let mut second = next(rt, &mut callers);
    hold_first_shard(rt, first);
    // The finding is on a key of the first shard, and each shard has applied all.
    second.look_at_shard(rt, 0, 3, STALE);
    second.look_at_shard(rt, 1, 3, "");
}

/// Three edits are submitted and worked off while the first shard's worker is held.
fn hold_first_shard<N: Name + Send + Sync, R: Threads + Wait + Abort + AllocGlobal + Sync>(
    rt: &R,
    mut caller: Caller<'_, N>,
) {
    are_same(rt, caller.checker().shards(), 2);
    submit_three(rt, &mut caller);
    let gate = Holding::new();
    assert!(rt; are_worked_and_looked_on(rt, &gate, caller));
    are_same(rt, gate.gave_up.load(Ordering::SeqCst), 0);
}

/// Whether all workers end because the checker is closed, while another thread looks on and closes it.
fn are_worked_and_looked_on<N: Name + Send + Sync, R: Threads + Wait + Abort + AllocGlobal + Sync>(
    rt: &R,
    gate: &Holding,
    caller: Caller<'_, N>,
) -> bool {
    let checker = caller.checker();
    let (all_closed, closed) = join(
        rt,
        || work_all(rt, checker, gate),
        move || look_on(rt, gate, caller),
    );
    all_closed && closed
}

/// Submits the three edits that the journal takes, and one more.
fn submit_three<N: Name, R: Wait + Abort + AllocGlobal>(rt: &R, caller: &mut Caller<'_, N>) {
    caller.submits(rt, edit(rt, "arrive 1 1 2 x=1"), 1);
    caller.submits(rt, edit(rt, "arrive 2 3 4 x?null"), 2);
    caller.submits(rt, edit(rt, "arrive 3 5 6 y=3"), 3);
    let refused = caller.submit(rt, edit(rt, "arrive 1 1 2 x=1"));
    assert!(rt; refused == Err(AcceptFault::Refused(Refusal::Full)));
}

/// Looks while the first shard's worker is held, lets it go, reports and closes. Tells whether the checker is closed then.
fn look_on<N: Name, R: Wait + Abort + AllocGlobal>(
    rt: &R,
    gate: &Holding,
    mut caller: Caller<'_, N>,
) -> bool {
    gate.wait_for(&gate.come, 2);
    are_same(rt, caller.shard_mark(rt, 1), 3);
    are_same(rt, caller.shard_mark(rt, 0), 0);
    are_same(rt, caller.watermark(), 0);
    are_same(rt, caller.issued(), 3);
    gate.is_open.store(1, Ordering::SeqCst);
    look_at_all(rt, &mut caller);
    are_same(rt, caller.watermark(), 3);
    are_same(rt, caller.is_closed(), false);
    caller.close(rt);
    caller.is_closed()
}

/// All three are reported with the one finding, which is what the plain program finds.
fn look_at_all<N: Name, R: Wait + Abort + AllocGlobal>(rt: &R, caller: &mut Caller<'_, N>) {
    let report = caller.settled(rt).expect(rt, "a report");
    assert_report(rt, &report, (3, 3, 0), STALE);
    assert_plain(rt, &report);
    drop(report);
}

#[test]
fn a_shard_is_held_while_another_works(rt: HostRuntime) {
    play(&rt, (2, 2, 3), Row::HeldShard);
}

/// What was left is applied at once.
pub(super) fn left<N: Name + Send + Sync, R: Threads + Wait + Abort + AllocGlobal + Sync>(
    rt: &R,
    mut callers: Vec<Caller<'_, N>>,
) {
    let mut caller = next(rt, &mut callers);
    caller.submits(rt, numbered(rt, 1), 1);
    let gate = Holding::new();
    assert!(rt; are_worked_and_submitted(rt, &gate, caller));
    are_same(rt, gate.gave_up.load(Ordering::SeqCst), 0);
    are_same(rt, gate.published.load(Ordering::SeqCst), 111);
}

/// Whether all workers end because the checker is closed, while another thread submits and closes it.
fn are_worked_and_submitted<N: Name + Send + Sync, R: Threads + Wait + Abort + AllocGlobal + Sync>(
    rt: &R,
    gate: &Holding,
    caller: Caller<'_, N>,
) -> bool {
    let checker = caller.checker();
    let (all_closed, ()) = join(
        rt,
        || work_all(rt, checker, gate),
        move || submit_more(rt, gate, caller),
    );
    all_closed
}

/// Submits ten more while the worker is held, lets it go and closes.
fn submit_more<N: Name, R: Wait + Abort + AllocGlobal>(
    rt: &R,
    gate: &Holding,
    mut caller: Caller<'_, N>,
) {
    gate.wait_for(&gate.come, 1);
    for id in 2..12 {
        caller.submits(rt, numbered(rt, id), id);
    }
    gate.is_open.store(1, Ordering::SeqCst);
    caller.close(rt);
}

#[test]
fn what_was_left_is_applied_at_once(rt: HostRuntime) {
    play(&rt, (1, 1, 100), Row::Left);
}
