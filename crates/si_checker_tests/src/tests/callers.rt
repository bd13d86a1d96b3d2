//! Passes, each with its checker.
//!
//! The contracts of a checker's calls are long, and each call in a test costs a proof. So each is called here once, by methods
//! that have no clause: tests look at what they return.
ghost use Rattle.std.specs.Prelude.{◌≡◌, All};

use super::each_growth::{by_report, by_turns};
use super::large::{many_edits, many_in_doubt, many_reads, most_of_all};
use super::long_runs::long_run;
use super::threads::{held_shard, left};
use super::turns::{elsewhere, no_workers, turns};
use si_checker::{
    AcceptFault, Checker, Gate, Name, Parts, Pass, Report, ReportFault, ShardReport, Statuses,
    Worked, open,
};
use si_model::{Edit, Finding, Key, Number, OutOfMemory, Txn, Value, findings_of, is_history};
use si_scripts::{WorkedRow, edit_of, found_text};
use std::alloc::AllocGlobal;
use std::fmt::Debug;
use std::hash::RandomState;
use std::marker::Brand;
use std::process::Abort;
use std::random::RandomSource;
use std::sync::Wait;
use std::thread::Threads;

/// A pass and its checker.
#[derive(Drop)]
pub(super) struct Caller<'a, N: Name> {
    checker: &'a Checker<N>,
    pass: Pass,
    ghost own: { pass.table ≡ N.board.table },
}

impl<'a, N: Name> Caller<'a, N> {
    fn new(checker: &'a Checker<N>, pass: Pass) -> Self
        requires { pass.table ≡ N.board.table }
    {
        Caller { checker, pass }
    }

    pub(super) fn checker(&self) -> &'a Checker<N> {
        self.checker
    }

    pub(super) fn submit<R: Wait>(&mut self, rt: &R, edit: Edit) -> Result<Number, AcceptFault> {
        self.checker.submit(rt, &mut self.pass, edit)
    }

    pub(super) fn settled<R: Wait>(&mut self, rt: &R) -> Result<Report, ReportFault> {
        self.checker.settled_report(rt, &mut self.pass)
    }

    /// The edit is accepted, and has this number.
    pub(super) fn submits<R: Wait + Abort>(&mut self, rt: &R, edit: Edit, number: u64) {
        are_same(rt, self.submit(rt, edit), Ok(Number(number)));
    }

    /// The settled report is of so many edits, transactions and set-up values, and finds these.
    pub(super) fn look<R: Wait + Abort + AllocGlobal>(
        &mut self,
        rt: &R,
        counts: (u64, usize, usize),
        found: &str,
    ) {
        let report = self.settled(rt).expect(rt, "a report");
        assert_report(rt, &report, counts, found);
    }

    /// The shard's report is of so many edits, and finds these.
    pub(super) fn look_at_shard<R: Wait + Abort + AllocGlobal>(
        &mut self,
        rt: &R,
        shard: usize,
        position: u64,
        found: &str,
    ) {
        let report = self.of_shard(rt, shard).expect(rt, "a report");
        are_same(rt, report.position, position);
        are_found(rt, &report.findings, found);
    }

    /// Why there is no settled report, if there is none.
    pub(super) fn fault<R: Wait>(&mut self, rt: &R) -> Option<ReportFault> {
        match self.settled(rt) {
            Ok(_) => None,
            Err(fault) => Some(fault),
        }
    }

    pub(super) fn of_shard<R: Wait + Abort>(
        &mut self,
        rt: &R,
        shard: usize,
    ) -> Result<ShardReport, ReportFault> {
        assert!(rt; shard < self.checker.shards());
        self.checker.shard_report(rt, &mut self.pass, shard)
    }

    pub(super) fn statuses<R: Wait>(&mut self, rt: &R) -> Result<Statuses, OutOfMemory> {
        self.checker.statuses(rt, &mut self.pass)
    }

    pub(super) fn await_workers<R: Wait>(&mut self, rt: &R) {
        self.checker.await_workers(rt, &mut self.pass);
    }

    pub(super) fn rebuild<R: Wait + Abort>(&self, rt: &R, shard: usize) -> Result<(), OutOfMemory> {
        assert!(rt; shard < self.checker.shards());
        self.checker.rebuild(rt, shard)
    }

    pub(super) fn work_one<R: Wait + Abort, G: Gate>(
        &self,
        rt: &R,
        shard: usize,
        gate: &G,
    ) -> Worked {
        assert!(rt; shard < self.checker.shards());
        self.checker.work_one(rt, shard, gate)
    }

    pub(super) fn close<R: Wait>(&mut self, rt: &R) {
        self.checker.close(rt, &mut self.pass);
    }

    pub(super) fn issued(&mut self) -> u64 {
        self.checker.issued(&mut self.pass)
    }

    pub(super) fn watermark(&mut self) -> u64 {
        self.checker.watermark(&mut self.pass)
    }

    pub(super) fn shard_mark<R: Abort>(&mut self, rt: &R, shard: usize) -> u64 {
        assert!(rt; shard < self.checker.shards());
        self.checker.shard_mark(&mut self.pass, shard)
    }

    pub(super) fn is_closed(&mut self) -> bool {
        self.checker.is_closed(&mut self.pass)
    }
}

/// The report is of so many edits, transactions and set-up values, and finds these.
///
/// A report is a fat value, and a proof looks at it anew in each call, so this is the one place that compares it.
pub(super) fn assert_report(
    rt: &(impl Abort + AllocGlobal),
    report: &Report,
    counts: (u64, usize, usize),
    found: &str,
) {
    let shown = (report.number, report.present.len(), report.initial.len());
    are_same(rt, shown, counts);
    are_found(rt, &report.findings, found);
}

/// The findings with their keys are these. Where memory is refused their text is made again.
pub(super) fn are_found(rt: &(impl Abort + AllocGlobal), findings: &[Finding], wanted: &str) {
    let text = match found_text(rt, findings) {
        Ok(text) => text,
        Err(_) => found_text(rt, findings).expect(rt, "memory"),
    };
    are_same(rt, text.as_str(), wanted);
}

/// The findings are those of the plain program.
pub(super) fn assert_plain<R: Abort + AllocGlobal>(rt: &R, report: &Report) {
    let plain = plainly_found(rt, &report.present, &report.initial);
    assert!(rt; report.findings.as_slice() == plain.as_slice());
}

fn plainly_found<R: Abort + AllocGlobal>(
    rt: &R,
    txns: &[Txn],
    initial: &[(Key, Value)],
) -> Vec<Finding> {
    assert!(rt; is_history(txns, initial));
    findings_of(rt.alloc(), txns, initial).expect(rt, "memory")
}

/// The two are the same. They are moved here, so that no other proof sees how they are compared and let go.
pub(super) fn are_same<T: PartialEq + Debug + Drop>(rt: &impl Abort, found: T, wanted: T) {
    assert_eq!(rt; found, wanted);
}

/// A test on a checker that was opened for it.
#[derive(Clone, Copy)]
pub(super) enum Row {
    Alone(Alone),
    Elsewhere,
    HeldShard,
    Left,
    MostOfAll,
    LongRun,
}

/// A test by one caller.
#[derive(Clone, Copy)]
pub(super) enum Alone {
    Turns,
    ByReport(WorkedRow),
    ByTurns(WorkedRow),
    ManyEdits,
    ManyReads,
    ManyInDoubt,
    NoWorkers,
}

/// Plays the row on a new checker of so many shards and passes, whose journal takes so many edits.
///
/// Where memory is refused before the row begins, another checker is opened.
pub(super) fn play<R: Threads + Wait + Abort + AllocGlobal + RandomSource + Print + Sync>(
    rt: &R,
    counts: (usize, usize, usize),
    row: Row,
) {
    if !was_played(rt, counts, row) {
        assert!(rt; was_played(rt, counts, row));
    }
}

fn was_played<R: Threads + Wait + Abort + AllocGlobal + RandomSource + Print + Sync>(
    rt: &R,
    counts: (usize, usize, usize),
    row: Row,
) -> bool {
    let (shards, passes, limit) = counts;
    let hash = RandomState::new(rt).expect(rt, "random bytes");
    match open(rt.alloc(), hash, shards, passes, limit) {
        Ok((parts, passes)) => play_on::<Brand, _>(rt, parts, passes, row),
        Err(_) => false,
    }
}

/// Plays the row on the checker of these parts.
fn play_on<N: Name + Send + Sync, R: Threads + Wait + Abort + AllocGlobal + Print + Sync>(
    rt: &R,
    parts: Parts,
    passes: Vec<Pass>,
    row: Row,
) -> bool
    requires board { parts.board ≡ N.board }
    requires limit { parts.limit ≡ N.limit }
    requires own { All (λ p. p.table ≡ N.board.table) passes.items }
{
    match Checker::<N>::new(rt.alloc(), parts) {
        Ok(checker) => play_over(rt, &checker, passes, row),
        Err(_) => false,
    }
}

/// A checker is a fat value, and a proof that owns one looks at it anew in each call and branch. So this borrows it.
fn play_over<N: Name + Send + Sync, R: Threads + Wait + Abort + AllocGlobal + Print + Sync>(
    rt: &R,
    checker: &Checker<N>,
    passes: Vec<Pass>,
    row: Row,
) -> bool
    requires own { All (λ p. p.table ≡ N.board.table) passes.items }
{
    match callers_of(rt, checker, passes) {
        Some(callers) => {
            play_with(rt, callers, row);
            true
        }
        None => false,
    }
}

fn play_with<N: Name + Send + Sync, R: Threads + Wait + Abort + AllocGlobal + Print + Sync>(
    rt: &R,
    callers: Vec<Caller<'_, N>>,
    row: Row,
) {
    match row {
        Row::Alone(row) => play_alone(rt, callers, row),
        Row::Elsewhere => elsewhere(rt, callers),
        Row::HeldShard => held_shard(rt, callers),
        Row::Left => left(rt, callers),
        Row::MostOfAll => most_of_all(rt, callers),
        Row::LongRun => long_run(rt, callers),
    }
}

/// This owns the caller, and the rows borrow it.
fn play_alone<N: Name, R: Wait + Abort + AllocGlobal + Print>(
    rt: &R,
    mut callers: Vec<Caller<'_, N>>,
    row: Alone,
) {
    let mut caller = next(rt, &mut callers);
    match row {
        Alone::Turns => turns(rt, &mut caller),
        Alone::ByReport(row) => by_report(rt, &mut caller, row),
        Alone::ByTurns(row) => by_turns(rt, &mut caller, row),
        Alone::ManyEdits => many_edits(rt, &mut caller),
        Alone::ManyReads => many_reads(rt, &mut caller),
        Alone::ManyInDoubt => many_in_doubt(rt, &mut caller),
        Alone::NoWorkers => no_workers(rt, &mut caller),
    }
    drop(caller);
    drop(callers);
}

/// A caller for each pass, the last one first, if there is memory for them.
fn callers_of<'a, N: Name, R: AllocGlobal>(
    rt: &R,
    checker: &'a Checker<N>,
    mut passes: Vec<Pass>,
) -> Option<Vec<Caller<'a, N>>>
    requires own { All (λ p. p.table ≡ N.board.table) passes.items }
{
    let mut callers = Vec::new(rt.alloc());
    for _ in 0..passes.len() {
        let Some(pass) = passes.pop() else {
            break;
        };
        if callers.push(Caller::new(checker, pass)).is_err() {
            return None;
        }
    }
    Some(callers)
}

/// The next caller. The first is that of the first pass.
pub(super) fn next<'a, N: Name, R: Abort>(
    rt: &R,
    callers: &mut Vec<Caller<'a, N>>,
) -> Caller<'a, N> {
    callers.pop().expect(rt, "a caller")
}

/// The edit that the words say. Where memory is refused they are read again.
pub(super) fn edit(rt: &(impl Abort + AllocGlobal), words: &str) -> Edit {
    match edit_of(rt, words) {
        Ok(edit) => edit,
        Err(_) => edit_of(rt, words).expect(rt, "an edit"),
    }
}
