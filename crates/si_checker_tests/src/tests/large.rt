//! More edits, reads, transactions in doubt, shards and passes than a body that gives up beyond some number would stand.

use super::turns::numbered;
use super::*;

/// How many edits are applied and then rebuilt.
const MANY: u64 = 5_000;

/// A transaction of this id that writes to one of 50 keys, and reads there what the one 50 ids before wrote.
///
/// The last one reads nothing, though many have written by then.
fn link(rt: &(impl Abort + AllocGlobal), id: u64) -> Edit {
    let read = match id {
        1..=50 | MANY => format!(in rt.alloc(); "null"),
        _ => format!(in rt.alloc(); "{}", id.saturating_sub(50)),
    };
    let read = read.expect(rt, "memory");
    let key = id % 50;
    let start = id.saturating_mul(2);
    let commit = start.saturating_add(1);
    let words = format!(in rt.alloc(); "arrive {id} {start} {commit} k{key}?{read} k{key}={id}");
    edit(rt, words.expect(rt, "memory").as_str())
}

/// The last transaction missed the first version of its key, which 50 wrote.
const MISSED: &str = "k0 Stale { txn: TxnId(5000), op: 0, read: None, missed: TxnId(50) }";

/// Many edits are applied, and rebuilt.
pub(super) fn many_edits<N: Name, R: Wait + Abort + AllocGlobal>(
    rt: &R,
    caller: &mut Caller<'_, N>,
) {
    for id in 1..=MANY {
        caller.submits(rt, link(rt, id), id);
    }
    caller.look(rt, (MANY, 5_000, 0), MISSED);
    caller.rebuild(rt, 0).expect(rt, "memory");
    caller.look(rt, (MANY, 5_000, 0), MISSED);
    caller.submits(rt, edit(rt, "withdraw 5000"), MANY + 1);
    let worked = caller.work_one(rt, 0, &Open);
    are_same(rt, worked, Worked::Applied(MANY + 1));
    caller.look(rt, (MANY + 1, 4_999, 0), "");
}

#[test]
fn many_edits_are_applied_and_rebuilt(rt: HostRuntime) {
    play(&rt, (1, 1, 10_000), Row::Alone(Alone::ManyEdits));
}

/// As many operations as a transaction may have.
const MOST_OPS: u64 = 4_096;

/// A transaction 2 that reads nothing from `x`, as often as it may.
fn submit_reads<N: Name, R: Wait + Abort + AllocGlobal>(rt: &R, caller: &mut Caller<'_, N>) {
    let mut words = String::new(rt.alloc());
    words.push_str("arrive 2 3 4").expect(rt, "memory");
    for _ in 0..MOST_OPS {
        words.push_str(" x?null").expect(rt, "memory");
    }
    caller.submits(rt, edit(rt, words.as_str()), 2);
}

/// The stale reads, in order.
fn stale_reads<R: Abort + AllocGlobal>(rt: &R) -> String {
    let mut text = String::from_str(rt.alloc(), STALE).expect(rt, "memory");
    for op in 1..MOST_OPS {
        let read = format!(in rt.alloc();
            " x Stale {{ txn: TxnId(2), op: {op}, read: None, missed: TxnId(1) }}"
        );
        let read = read.expect(rt, "memory");
        text.push_str(read.as_str()).expect(rt, "memory");
    }
    text
}

/// Many reads of one key come and go, and so does what they missed.
pub(super) fn many_reads<N: Name, R: Wait + Abort + AllocGlobal>(
    rt: &R,
    caller: &mut Caller<'_, N>,
) {
    let stale = stale_reads(rt);
    caller.submits(rt, edit(rt, "arrive 1 1 2 x=1"), 1);
    submit_reads(rt, caller);
    caller.look(rt, (2, 2, 0), stale.as_str());
    caller.look_at_shard(rt, 0, 2, stale.as_str());
    caller.submits(rt, edit(rt, "withdraw 1"), 3);
    caller.look(rt, (3, 1, 0), "");
    caller.submits(rt, edit(rt, "arrive 1 1 2 x=1"), 4);
    caller.look(rt, (4, 2, 0), stale.as_str());
    caller.submits(rt, edit(rt, "withdraw 2"), 5);
    caller.look(rt, (5, 1, 0), "");
    drop(stale);
}

#[test]
fn many_reads_of_one_key_come_and_go(rt: HostRuntime) {
    play(&rt, (2, 1, 100), Row::Alone(Alone::ManyReads));
}

/// How many transactions are in doubt.
const DOUBTFUL: u64 = 1_001;

/// Many transactions are in doubt, and each is told.
pub(super) fn many_in_doubt<N: Name, R: Wait + Abort + AllocGlobal>(
    rt: &R,
    caller: &mut Caller<'_, N>,
) {
    for id in 1..=DOUBTFUL {
        let words = format!(in rt.alloc(); "arrive {id} 1 indoubt").expect(rt, "memory");
        caller.submits(rt, edit(rt, words.as_str()), id);
    }
    let statuses = caller.statuses(rt).expect(rt, "memory");
    are_same(rt, statuses.committed, 0);
    are_from_one(rt, &statuses.in_doubt);
}

/// These are the ids from 1 on of all that are in doubt.
fn are_from_one(rt: &impl Abort, ids: &[TxnId]) {
    are_same(rt, ids.len() as u64, DOUBTFUL);
    let mut wanted = 0u64;
    for id in ids {
        wanted = wanted.saturating_add(1);
        are_same(rt, *id, TxnId(wanted));
    }
}

#[test]
fn each_of_many_in_doubt_is_told(rt: HostRuntime) {
    play(&rt, (1, 1, 2_000), Row::Alone(Alone::ManyInDoubt));
}

/// As many shards and passes as there may be.
pub(super) fn most_of_all<N: Name, R: Wait + Abort + AllocGlobal>(
    rt: &R,
    mut callers: Vec<Caller<'_, N>>,
) {
    are_same(rt, callers.len(), 16);
    let mut id = 0u64;
    for caller in callers.iter_mut() {
        id = id.saturating_add(1);
        caller.submits(rt, numbered(rt, id), id);
    }
    let mut first = next(rt, &mut callers);
    first.look(rt, (16, 16, 0), "");
    for caller in callers.iter_mut() {
        look_at_words(rt, caller);
    }
    drop(first);
    drop(callers);
}

/// Every word says that all 16 edits are issued and applied.
fn look_at_words<N: Name, R: Wait + Abort>(rt: &R, caller: &mut Caller<'_, N>) {
    assert!(rt; caller.issued() == 16);
    assert!(rt; caller.watermark() == 16);
    for shard in 0..16usize {
        assert!(rt; caller.shard_mark(rt, shard) == 16);
    }
}

#[test]
fn sixteen_passes_share_sixteen_shards(rt: HostRuntime) {
    play(&rt, (16, 16, 100), Row::MostOfAll);
}
