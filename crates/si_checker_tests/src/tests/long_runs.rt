//! A long run by chance: four threads submit, four work and one looks on.

use super::threads::work_all;
use super::*;
use si_model::{Finding, Txn};
use si_scripts::Dice;
use std::sync::atomic::{AtomicU64, Ordering};
use std::thread;
use std::time::Duration;

/// How many threads submit.
const PLACES: u64 = 4;

const SHARDS: usize = 4;

/// How many rounds there are, with a report in each, and how many edits each of them submits in a round.
const ROUNDS: u64 = 20;

const EDITS: u64 = 250;

/// How many transactions it leaves present at least, once it has submitted as many.
const LEFT: usize = 30;

/// How many rounds all threads have submitted together, and how many reports there were. Nobody runs ahead of the others by more
/// than two rounds, so that reports come in the midst of submissions on each machine.
#[derive(Drop)]
struct Pace {
    rounds: AtomicU64,
    reports: AtomicU64,
    // Who waits sleeps on it. It stays 0.
    rest: AtomicU64,
}

impl Pace {
    /// Returns once the word is so much.
    fn wait_for<R: Wait>(&self, rt: &R, word: &AtomicU64, least: u64) {
        for _ in rt.forever() {
            if word.load(Ordering::SeqCst) >= least {
                break;
            }
            self.rest.park_timeout(rt, 0, Duration::from_micros(200));
        }
    }
}

/// What a thread submits by chance, and what of its own is present, in its order. It stands beside the caller, so that what makes words
/// has no caller to prove anything of.
#[derive(Drop)]
struct Drawn {
    dice: Dice,
    // The next id, which leaves the place of the thread.
    id: u64,
    own: Vec<u64>,
}

impl Drawn {
    fn new<R: AllocGlobal>(rt: &R, place: u64) -> Self {
        Drawn {
            dice: Dice::new(place),
            id: PLACES + place % PLACES,
            own: Vec::new(rt.alloc()),
        }
    }

    /// The id of one of its present transactions, and 0 where there is none.
    fn some_own(&mut self) -> u64 {
        let place = self.dice.below(self.own.len() as u64) as usize;
        self.own.get(place).copied().unwrap_or(0)
    }

    fn status(&mut self, rt: &(impl Abort + AllocGlobal), commit: u64) -> String {
        let status = match self.dice.below(8) {
            0 => String::from_str(rt.alloc(), "indoubt"),
            1 => String::from_str(rt.alloc(), "aborted"),
            _ => format!(in rt.alloc(); "{commit}"),
        };
        status.expect(rt, "memory")
    }

    /// A transaction that reads what an earlier one may have written, and writes its id to a key.
    fn arrival(&mut self, rt: &(impl Abort + AllocGlobal)) -> String {
        let id = self.id;
        self.id = id.saturating_add(PLACES);
        let start = id.saturating_mul(8).saturating_add(self.dice.below(40));
        let commit = start.saturating_add(self.dice.below(60));
        let read = id.saturating_sub(self.dice.below(60));
        let status = self.status(rt, commit);
        let (from, to) = (read % 6, id % 6);
        let words = format!(in rt.alloc();
            "arrive {id} {start} {status} k{from}?{read} k{to}={id}"
        );
        words.expect(rt, "memory")
    }

    fn resolution(&mut self, rt: &(impl Abort + AllocGlobal), id: u64) -> String {
        let commit = id.saturating_mul(8).saturating_add(self.dice.below(200));
        let words = format!(in rt.alloc(); "resolve {id} {commit}");
        words.expect(rt, "memory")
    }

    fn set_up(&mut self, rt: &(impl Abort + AllocGlobal)) -> String {
        let (key, value) = (self.dice.below(9), self.id);
        let words = format!(in rt.alloc(); "setup k{key}={value}");
        words.expect(rt, "memory")
    }

    /// Whether what is present of its own is what it has left, in its order.
    fn finds_own(&self, present: &[Txn]) -> bool {
        let place = self.id % PLACES;
        let mut count = 0usize;
        for txn in present {
            if txn.id.0 % PLACES == place {
                if self.own.get(count).copied() != Some(txn.id.0) {
                    return false;
                }
                count = count.saturating_add(1);
            }
        }
        count == self.own.len()
    }
}

/// A caller that submits by chance, and how many edits were accepted and refused.
#[derive(Drop)]
struct Submitter<'a, N: Name> {
    caller: Caller<'a, N>,
    drawn: Drawn,
    last: u64,
    refused: u64,
}

impl<'a, N: Name> Submitter<'a, N> {
    fn new<R: AllocGlobal>(rt: &R, caller: Caller<'a, N>, place: u64) -> Self {
        Submitter {
            caller,
            drawn: Drawn::new(rt, place),
            last: 0,
            refused: 0,
        }
    }

    fn submit_all<R: Wait + Abort + AllocGlobal>(&mut self, rt: &R, pace: &Pace) {
        for round in 0..ROUNDS {
            pace.wait_for(rt, &pace.reports, round.saturating_sub(1));
            for _ in 0..EDITS {
                self.submit_one(rt);
            }
            pace.rounds.fetch_add(1, Ordering::SeqCst);
        }
    }

    fn submit_one<R: Wait + Abort + AllocGlobal>(&mut self, rt: &R) {
        let id = self.drawn.some_own();
        match self.drawn.dice.below(16) {
            0 => {
                let words = self.drawn.set_up(rt);
                self.is_accepted(rt, words.as_str());
            }
            1 | 2 => {
                let words = self.drawn.resolution(rt, id);
                self.is_accepted(rt, words.as_str());
            }
            3..=8 if self.drawn.own.len() > LEFT => self.withdraw(rt, id),
            _ => self.arrive(rt),
        }
    }

    /// Whether the edit was accepted, with a number above those before. Nothing but a reason of the edit's own refuses it.
    fn is_accepted<R: Wait + Abort + AllocGlobal>(&mut self, rt: &R, words: &str) -> bool {
        match self.caller.submit(rt, edit(rt, words)) {
            Ok(number) => {
                assert!(rt; self.last < number.0);
                self.last = number.0;
                true
            }
            Err(AcceptFault::Refused(_)) => {
                self.refused = self.refused.saturating_add(1);
                false
            }
            Err(AcceptFault::OutOfMemory) => panic!(rt; "memory is wanted"),
        }
    }

    fn arrive<R: Wait + Abort + AllocGlobal>(&mut self, rt: &R) {
        let id = self.drawn.id;
        let words = self.drawn.arrival(rt);
        if self.is_accepted(rt, words.as_str()) {
            self.drawn.own.push(id).expect(rt, "memory");
        }
    }

    /// No other thread knows of the transaction, so it is present.
    fn withdraw<R: Wait + Abort + AllocGlobal>(&mut self, rt: &R, id: u64) {
        let words = format!(in rt.alloc(); "withdraw {id}").expect(rt, "memory");
        assert!(rt; self.is_accepted(rt, words.as_str()));
        self.drawn.own.retain(|own| *own != id);
    }
}

fn submitters_of<'a, N: Name, R: Abort + AllocGlobal>(
    rt: &R,
    mut callers: Vec<Caller<'a, N>>,
) -> Vec<Submitter<'a, N>> {
    let mut submitters = Vec::new(rt.alloc());
    for place in 0..PLACES {
        let submitter = Submitter::new(rt, next(rt, &mut callers), place);
        submitters.push(submitter).expect(rt, "memory");
    }
    submitters
}

/// Each submits from a thread of its own.
fn submit_each<'a, N: Name + Send + Sync, R: Threads + Wait + Abort + AllocGlobal + Sync>(
    rt: &R,
    mut submitters: Vec<Submitter<'a, N>>,
    pace: &Pace,
) -> Vec<Submitter<'a, N>> {
    let threads = submitters.len();
    if threads > 0 {
        thread::for_each_mut(
            rt,
            &mut submitters,
            threads,
            &|_, submitter: &mut Submitter<'_, N>| submitter.submit_all(rt, pace),
        );
    }
    submitters
}

/// Of each thread ids rise.
fn assert_in_order<R: Abort>(rt: &R, present: &[Txn]) {
    for place in 0..PLACES {
        let mut last = 0;
        for txn in present {
            if txn.id.0 % PLACES == place {
                assert!(rt; last < txn.id.0);
                last = txn.id.0;
            }
        }
    }
}

/// Asks for a report in each round, and returns in how many of them something was found. Each is exact, and none is of an earlier
/// journal than one before.
fn look_on<N: Name, R: Wait + Abort + AllocGlobal>(
    rt: &R,
    looker: &mut Caller<'_, N>,
    pace: &Pace,
) -> u64 {
    let mut number = 0;
    let mut found = 0u64;
    for round in 0..ROUNDS {
        pace.wait_for(rt, &pace.rounds, round.saturating_mul(PLACES));
        let report = look(rt, looker, (round % 4) as usize);
        assert!(rt; number <= report.number);
        number = report.number;
        found = found.saturating_add(u64::from(!report.findings.is_empty()));
        drop(report);
        pace.reports.fetch_add(1, Ordering::SeqCst);
    }
    found
}

/// A report of a shard, and one of all, which is exact.
fn look<N: Name, R: Wait + Abort + AllocGlobal>(
    rt: &R,
    looker: &mut Caller<'_, N>,
    shard: usize,
) -> Report {
    let position = looker.of_shard(rt, shard).expect(rt, "a report").position;
    let report = looker.settled(rt).expect(rt, "a report");
    assert!(rt; position <= report.number);
    assert_plain(rt, &report);
    assert_in_order(rt, &report.present);
    report
}

/// All is looked at once more: what each has left, and each shard before and after it is rebuilt.
fn look_at_end<N: Name, R: Wait + Abort + AllocGlobal>(
    rt: &R,
    looker: &mut Caller<'_, N>,
    submitters: &[Submitter<'_, N>],
) {
    let report = looker.settled(rt).expect(rt, "a report");
    assert_plain(rt, &report);
    for submitter in submitters {
        look_at_own(rt, submitter, &report.present);
    }
    look_after_rebuild(rt, looker, report.number, &report.findings);
    drop(report);
}

/// What the thread has left is present, and enough of its edits were accepted and refused.
fn look_at_own<N: Name, R: Abort>(rt: &R, submitter: &Submitter<'_, N>, present: &[Txn]) {
    assert!(rt; submitter.drawn.finds_own(present));
    assert!(rt; submitter.refused >= 100, "too little was refused");
    assert!(rt; submitter.last >= 4_000, "too little was accepted");
}

/// Once each shard was rebuilt a report is of as many edits, and finds the same, as the shards do together.
fn look_after_rebuild<N: Name, R: Wait + Abort>(
    rt: &R,
    looker: &mut Caller<'_, N>,
    number: u64,
    found: &[Finding],
) {
    for shard in 0..SHARDS {
        looker.rebuild(rt, shard).expect(rt, "memory");
    }
    let again = looker.settled(rt).expect(rt, "a report");
    are_same(rt, again.number, number);
    are_same(rt, again.findings.as_slice(), found);
    drop(again);
    let count = findings_of_shards(rt, looker, number);
    assert!(rt; count == found.len());
}

/// How much all shards find together, each after all edits.
fn findings_of_shards<N: Name, R: Wait + Abort>(
    rt: &R,
    looker: &mut Caller<'_, N>,
    number: u64,
) -> usize {
    let mut found = 0usize;
    for shard in 0..SHARDS {
        let report = looker.of_shard(rt, shard).expect(rt, "a report");
        are_same(rt, report.position, number);
        found = found.saturating_add(report.findings.len());
        drop(report);
    }
    found
}

/// Four threads submit, four work and one looks on.
pub(super) fn long_run<N: Name + Send + Sync, R: Threads + Wait + Abort + AllocGlobal + Sync>(
    rt: &R,
    mut callers: Vec<Caller<'_, N>>,
) {
    let looker = next(rt, &mut callers);
    let submitters = submitters_of(rt, callers);
    let checker = looker.checker();
    let (all_closed, ()) = join(
        rt,
        || work_all(rt, checker, &Open),
        move || submit_and_look(rt, looker, submitters),
    );
    assert!(rt; all_closed);
}

/// Four submit while one looks on. All is looked at once more when they have ended, and the checker is closed.
fn submit_and_look<'a, N: Name + Send + Sync, R: Threads + Wait + Abort + AllocGlobal + Sync>(
    rt: &R,
    mut looker: Caller<'a, N>,
    submitters: Vec<Submitter<'a, N>>,
) {
    let pace = Pace {
        rounds: AtomicU64::new(0),
        reports: AtomicU64::new(0),
        rest: AtomicU64::new(0),
    };
    let shared = &pace;
    let (submitters, (mut looker, found)) = join(
        rt,
        move || submit_each(rt, submitters, shared),
        move || {
            let found = look_on(rt, &mut looker, shared);
            (looker, found)
        },
    );
    assert!(rt; found >= ROUNDS - 2, "too little is found");
    look_at_end(rt, &mut looker, &submitters);
    looker.close(rt);
    drop(submitters);
    drop(looker);
}

#[test]
fn a_long_run_is_exact_at_every_report(rt: HostRuntime) {
    play(&rt, (SHARDS, 5, 20_000), Row::LongRun);
}
