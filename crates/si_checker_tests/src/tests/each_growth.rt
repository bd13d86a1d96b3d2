//! What is asked again after each refused growth.
//!
//! A plain run refuses no memory. `tests/refused_allocations` runs each of these tests once for each of its allocations, which is
//! refused in that run. What wanted it is told, and asked again, after a rebuild where a shard was spoiled. The end is the same
//! whatever was refused.

use super::*;
use si_checker::{ReportFault, ShardReport};
use si_scripts::{
    OVERLAP_AFTER_WITHDRAWAL, RESOLUTION, RowLine, SEVERAL_ROWS, STALE_READ, VALUE_FREE_AGAIN,
    WorkedRow, row_line,
};
use std::random::RandomSource;

fn told(rt: &(impl Abort + Print), what: &str) {
    println!(rt; "refused: {what}").expect(rt, "output");
}

/// Submits the edit, before which so many were, and which is refused where there is a reason. Where memory is refused nothing was
/// submitted, and it is submitted again. Answers how many were submitted then.
fn submit_in_the_end<N: Name, R: Wait + Abort + AllocGlobal + Print>(
    rt: &R,
    caller: &mut Caller<'_, N>,
    (words, reason): (&str, Option<Refusal>),
    before: u64,
) -> u64 {
    let mut answer = caller.submit(rt, edit(rt, words));
    if answer == Err(AcceptFault::OutOfMemory) {
        told(rt, "a submission");
        are_same(rt, caller.issued(), before);
        answer = caller.submit(rt, edit(rt, words));
    }
    if let Some(refusal) = reason {
        assert!(rt; answer == Err(AcceptFault::Refused(refusal)));
        return before;
    }
    let after = before.saturating_add(1);
    are_same(rt, answer, Ok(Number(after)));
    after
}

/// Rebuilds the shard, which stays as it was where memory is refused.
fn rebuild_in_the_end<N: Name, R: Wait + Abort + Print>(
    rt: &R,
    caller: &Caller<'_, N>,
    shard: usize,
) {
    if caller.rebuild(rt, shard).is_err() {
        told(rt, "a rebuild");
        caller.rebuild(rt, shard).expect(rt, "memory");
    }
}

/// Nothing but a rebuild mends a spoiled shard.
fn mend<N: Name, R: Wait + Abort + Print>(rt: &R, caller: &mut Caller<'_, N>, fault: ReportFault) {
    match fault {
        ReportFault::OutOfMemory => told(rt, "a report"),
        ReportFault::Spoiled(shard) => {
            told(rt, "an application");
            are_same(rt, caller.fault(rt), Some(fault));
            are_same(rt, caller.work_one(rt, shard, &Open), Worked::Spoiled);
            rebuild_in_the_end(rt, caller, shard);
        }
    }
}

fn settle_in_the_end<N: Name, R: Wait + Abort + Print>(
    rt: &R,
    caller: &mut Caller<'_, N>,
) -> Report {
    match caller.settled(rt) {
        Ok(report) => report,
        Err(fault) => {
            mend(rt, caller, fault);
            caller.settled(rt).expect(rt, "a report")
        }
    }
}

/// The settled report is of so many edits, transactions and set-up values, and finds these. Answers how many.
fn look_in_the_end<N: Name, R: Wait + Abort + AllocGlobal + Print>(
    rt: &R,
    caller: &mut Caller<'_, N>,
    (submitted, row): (u64, WorkedRow),
) -> usize {
    let report = settle_in_the_end(rt, caller);
    let (transactions, set_up) = row.present;
    assert_report(rt, &report, (submitted, transactions, set_up), row.found);
    report.findings.len()
}

/// What is found on the way.
fn look_on_the_way<N: Name, R: Wait + Abort + AllocGlobal + Print>(
    rt: &R,
    caller: &mut Caller<'_, N>,
    found: &str,
) {
    let report = settle_in_the_end(rt, caller);
    are_found(rt, &report.findings, found);
    drop(report);
}

/// A report applies all that was submitted, and every shard is rebuilt afterwards.
pub(super) fn by_report<N: Name, R: Wait + Abort + AllocGlobal + Print>(
    rt: &R,
    caller: &mut Caller<'_, N>,
    row: WorkedRow,
) {
    let mut submitted = 0;
    for line in row.script.trim().lines() {
        match row_line(line.trim()).expect(rt, "a line of a row") {
            RowLine::Edit(words, reason) => {
                submitted = submit_in_the_end(rt, caller, (words, reason), submitted);
            }
            RowLine::Found(found) => look_on_the_way(rt, caller, found),
        }
    }
    look_in_the_end(rt, caller, (submitted, row));
    for shard in 0..caller.checker().shards() {
        rebuild_in_the_end(rt, caller, shard);
    }
    look_in_the_end(rt, caller, (submitted, row));
}

/// The shard applies what is left for it, turn after turn. Where memory is refused it has applied as much as before, or is
/// spoiled and rebuilt.
fn work_in_the_end<N: Name, R: Wait + Abort + Print>(
    rt: &R,
    caller: &mut Caller<'_, N>,
    shard: usize,
) {
    for _ in 0..10u64 {
        match caller.work_one(rt, shard, &Open) {
            Worked::Idle => return,
            Worked::Applied(_) => {}
            Worked::NoMemory => told(rt, "copies of edits"),
            Worked::Spoiled => mend(rt, caller, ReportFault::Spoiled(shard)),
            Worked::Closed => break,
        }
    }
    panic!(rt; "the shard has to come to an end");
}

/// How much all shards find together, each after so many edits.
fn look_at_shards<N: Name, R: Wait + Abort + Print>(
    rt: &R,
    caller: &mut Caller<'_, N>,
    submitted: u64,
) -> usize {
    let mut found = 0;
    for shard in 0..caller.checker().shards() {
        let report = of_shard_in_the_end(rt, caller, shard);
        are_same(rt, report.position, submitted);
        found = report.findings.len().saturating_add(found);
        drop(report);
    }
    found
}

fn of_shard_in_the_end<N: Name, R: Wait + Abort + Print>(
    rt: &R,
    caller: &mut Caller<'_, N>,
    shard: usize,
) -> ShardReport {
    match caller.of_shard(rt, shard) {
        Ok(report) => report,
        Err(fault) => {
            are_same(rt, fault, ReportFault::OutOfMemory);
            told(rt, "a shard's report");
            caller.of_shard(rt, shard).expect(rt, "a report")
        }
    }
}

/// Workers apply each edit by itself. What they find together is as much as a report finds in the end.
pub(super) fn by_turns<N: Name, R: Wait + Abort + AllocGlobal + Print>(
    rt: &R,
    caller: &mut Caller<'_, N>,
    row: WorkedRow,
) {
    let mut submitted = 0;
    for line in row.script.trim().lines() {
        match row_line(line.trim()).expect(rt, "a line of a row") {
            RowLine::Edit(words, reason) => {
                submitted = submit_in_the_end(rt, caller, (words, reason), submitted);
                work_all_in_the_end(rt, caller);
            }
            RowLine::Found(found) => look_on_the_way(rt, caller, found),
        }
    }
    let found = look_at_shards(rt, caller, submitted);
    are_same(rt, look_in_the_end(rt, caller, (submitted, row)), found);
}

fn work_all_in_the_end<N: Name, R: Wait + Abort + Print>(rt: &R, caller: &mut Caller<'_, N>) {
    for shard in 0..caller.checker().shards() {
        work_in_the_end(rt, caller, shard);
    }
}

/// The row on so many shards, by reports and by turns.
fn plays<R: Threads + Wait + Abort + AllocGlobal + RandomSource + Print + Sync>(
    rt: &R,
    shards: usize,
    row: WorkedRow,
) {
    play(rt, (shards, 1, 100), Row::Alone(Alone::ByReport(row)));
    play(rt, (shards, 1, 100), Row::Alone(Alone::ByTurns(row)));
}

#[test]
fn each_growth_for_several_rows_is_refused(rt: HostRuntime) {
    plays(&rt, 2, SEVERAL_ROWS);
}

#[test]
fn each_growth_for_a_stale_read_is_refused(rt: HostRuntime) {
    plays(&rt, 2, STALE_READ);
}

#[test]
fn each_growth_for_a_stale_read_in_one_shard_is_refused(rt: HostRuntime) {
    plays(&rt, 1, STALE_READ);
}

#[test]
fn each_growth_for_an_overlap_after_a_withdrawal_is_refused(rt: HostRuntime) {
    plays(&rt, 2, OVERLAP_AFTER_WITHDRAWAL);
}

#[test]
fn each_growth_for_a_resolution_is_refused(rt: HostRuntime) {
    plays(&rt, 2, RESOLUTION);
}

#[test]
fn each_growth_for_a_value_that_is_free_again_is_refused(rt: HostRuntime) {
    plays(&rt, 2, VALUE_FREE_AGAIN);
}
