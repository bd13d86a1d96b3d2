//! What one caller after another is told.

use super::*;
use si_model::Txn;

/// The turns of one worker: what was left for it, 1,024 edits at a time.
pub(super) fn turns<N: Name, R: Wait + Abort + AllocGlobal>(rt: &R, caller: &mut Caller<'_, N>) {
    are_same(rt, caller.work_one(rt, 0, &Open), Worked::Idle);
    submit_many(rt, caller, 1030);
    for wanted in [Worked::Applied(1024), Worked::Applied(1030), Worked::Idle] {
        are_same(rt, caller.work_one(rt, 0, &Open), wanted);
    }
    caller.close(rt);
    are_same(rt, caller.work_one(rt, 0, &Open), Worked::Closed);
}

/// The edit of this id: a transaction that starts at twice the id, commits one stamp later and writes the id to `x`.
pub(super) fn numbered(rt: &(impl Abort + AllocGlobal), id: u64) -> Edit {
    let start = id.saturating_mul(2);
    let words = format!(in rt.alloc(); "arrive {id} {start} {} x={id}", start.saturating_add(1));
    edit(rt, words.expect(rt, "memory").as_str())
}

fn submit_many<N: Name, R: Wait + Abort + AllocGlobal>(
    rt: &R,
    caller: &mut Caller<'_, N>,
    count: u64,
) {
    for id in 0..count {
        caller.submits(rt, numbered(rt, id), id.saturating_add(1));
    }
}

#[test]
fn one_worker_turns_by_turns(rt: HostRuntime) {
    play(&rt, (1, 1, 2000), Row::Alone(Alone::Turns));
}

/// Where nobody works, a caller that waits for workers returns, and what is left for them stays left.
pub(super) fn no_workers<N: Name, R: Wait + Abort + AllocGlobal>(
    rt: &R,
    caller: &mut Caller<'_, N>,
) {
    caller.await_workers(rt);
    submit_many(rt, caller, 70);
    caller.await_workers(rt);
    are_same(rt, (caller.issued(), caller.watermark()), (70, 0));
    caller.look(rt, (70, 70, 0), "");
    caller.await_workers(rt);
    are_same(rt, (caller.issued(), caller.watermark()), (70, 70));
}

#[test]
fn nobody_waits_for_workers_that_are_not_there(rt: HostRuntime) {
    for shards in [1, 2, 16] {
        play(&rt, (shards, 1, 100), Row::Alone(Alone::NoWorkers));
    }
}

/// A report shows what another thread submitted.
pub(super) fn elsewhere<N: Name + Send + Sync, R: Threads + Wait + Abort + AllocGlobal + Sync>(
    rt: &R,
    mut callers: Vec<Caller<'_, N>>,
) {
    let first = next(rt, &mut callers);
    let mut second = next(rt, &mut callers);
    submit_elsewhere(rt, first);
    look_from_here(rt, &mut second);
}

fn look_from_here<N: Name, R: Wait + Abort + AllocGlobal>(rt: &R, caller: &mut Caller<'_, N>) {
    are_same(rt, caller.issued(), 1);
    let report = caller.settled(rt).expect(rt, "a report");
    are_same(rt, first_id(&report.present), Some(TxnId(1)));
    assert_report(rt, &report, (1, 1, 0), "");
    caller.rebuild(rt, 0).expect(rt, "memory");
    caller.look_at_shard(rt, 0, 1, "");
}

fn first_id(txns: &[Txn]) -> Option<TxnId> {
    match txns.first() {
        Some(txn) => Some(txn.id),
        None => None,
    }
}

/// The edit is accepted on a thread of its own.
fn submit_elsewhere<N: Name + Send + Sync, R: Threads + Wait + Abort + AllocGlobal + Sync>(
    rt: &R,
    caller: Caller<'_, N>,
) {
    join(rt, move || submit_one(rt, caller), || ());
}

fn submit_one<N: Name, R: Wait + Abort + AllocGlobal>(rt: &R, mut caller: Caller<'_, N>) {
    caller.submits(rt, edit(rt, "arrive 1 1 2 x=1"), 1);
}

#[test]
fn a_report_shows_what_another_thread_submitted(rt: HostRuntime) {
    play(&rt, (1, 2, 10), Row::Elsewhere);
}
