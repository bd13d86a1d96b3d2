//! Threads that are held until others have come somewhere: each is a thread of its own.

use super::{DOUBT, Host, PLAIN, RESOLUTION, are_same, ended_gated, is_resolved_or_not};
use si_model::Number;
use si_run::{ExitStatus, Gate, Options, Place};
use std::num::NonZeroU64;
use std::sync::atomic::{AtomicU64, Ordering};
use std::thread;

/// How often a held thread looks before it gives up.
const MOST_TURNS: u64 = 1_000_000;

/// What was told so far, and whether a thread gave up.
#[derive(Drop)]
struct Told {
    first: AtomicU64,
    second: AtomicU64,
    gave_up: AtomicU64,
}

impl Told {
    fn new() -> Self {
        Told {
            first: AtomicU64::new(0),
            second: AtomicU64::new(0),
            gave_up: AtomicU64::new(0),
        }
    }

    /// Returns once this was told, and else gives up.
    fn wait_for(&self, word: &AtomicU64) {
        for _ in 0..MOST_TURNS {
            if word.load(Ordering::SeqCst) == 1 {
                return;
            }
            thread::yield_now();
        }
        self.gave_up.store(1, Ordering::SeqCst);
    }

    /// Tells the one, and returns once the other was told.
    fn meet(&self, mine: &AtomicU64, other: &AtomicU64) {
        mine.store(1, Ordering::SeqCst);
        self.wait_for(other);
    }
}

/// Holds line 1 of each of two sources until both have come to it.
#[derive(Drop)]
struct BothPut(Told);

impl Gate for BothPut {
    fn at(&self, place: Place) {
        match place {
            Place::Put { source: 0, line: 1 } => self.0.meet(&self.0.first, &self.0.second),
            Place::Put { source: 1, line: 1 } => self.0.meet(&self.0.second, &self.0.first),
            _ => {}
        }
    }
}

/// Holds each of two workers at its first edit, and line 2 of the source, until both workers have come there.
#[derive(Drop)]
struct BothApply(Told);

impl Gate for BothApply {
    fn at(&self, place: Place) {
        match place {
            Place::Apply { shard: 0, .. } => self.0.meet(&self.0.first, &self.0.second),
            Place::Apply { shard: 1, .. } => self.0.meet(&self.0.second, &self.0.first),
            Place::Put { source: 0, line: 2 } => {
                self.0.wait_for(&self.0.first);
                self.0.wait_for(&self.0.second);
            }
            _ => {}
        }
    }
}

/// Holds line 2 of the source until the one worker has published line 1.
#[derive(Drop)]
struct OnePublished(Told);

impl Gate for OnePublished {
    fn at(&self, place: Place) {
        match place {
            Place::Published {
                shard: 0,
                number: Number(1),
            } => {
                self.0.first.store(1, Ordering::SeqCst);
            }
            Place::Put { source: 0, line: 2 } => self.0.wait_for(&self.0.first),
            _ => {}
        }
    }
}

/// Nobody gave up, and that was told.
fn was_told(rt: &impl Host, told: &Told, word: &AtomicU64) {
    are_same(rt, told.gave_up.load(Ordering::SeqCst), 0);
    are_same(rt, word.load(Ordering::SeqCst), 1);
}

#[test]
fn both_sources_are_held(rt: HostRuntime) {
    let gate = BothPut(Told::new());
    let texts = [DOUBT, RESOLUTION];
    let ended = ended_gated(&rt, texts.as_slice(), (4096, 4096), PLAIN, &gate);
    was_told(&rt, &gate.0, &gate.0.first);
    is_resolved_or_not(&rt, &ended);
}

const PAIR: &str =
    "{\"do\":\"txn\",\"id\":1,\"start\":1,\"status\":\"committed\",\"commit\":2,\"ops\":[[\"w\",\"x\",1]]}
{\"do\":\"txn\",\"id\":2,\"start\":3,\"status\":\"committed\",\"commit\":4,\"ops\":[[\"r\",\"x\",1]]}
";

/// A run over the pair is clean, and writes this text.
fn is_clean<R: Host, G: Gate + Sync>(rt: &R, options: Options, gate: &G, text: &str) {
    let ended = ended_gated(rt, [PAIR].as_slice(), (4096, 4096), options, gate);
    are_same(rt, ended.status, Ok(ExitStatus::Clean));
    are_same(rt, ended.out.as_slice(), text.as_bytes());
}

const CLEAN: &str = "transactions=2 findings=0 refused=0 verdict=clean\n";

#[test]
fn both_workers_are_held(rt: HostRuntime) {
    let gate = BothApply(Told::new());
    is_clean(&rt, Options { shards: 2, ..PLAIN }, &gate, CLEAN);
    was_told(&rt, &gate.0, &gate.0.second);
}

const TWICE: &str =
    "transactions=2 findings=0 refused=0 verdict=clean\ntransactions=2 findings=0 refused=0 verdict=clean\n";

#[test]
fn workers_run_beside_reports_on_the_way(rt: HostRuntime) {
    let gate = OnePublished(Told::new());
    let options = Options {
        shards: 1,
        every: NonZeroU64::new(2),
        ..PLAIN
    };
    is_clean(&rt, options, &gate, TWICE);
    was_told(&rt, &gate.0, &gate.0.first);
}
