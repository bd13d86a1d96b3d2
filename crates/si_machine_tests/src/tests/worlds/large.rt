//! More edits than a body that gives up beyond some number would stand.

use super::*;
use si_model::Number;

/// The edit is accepted, as the one of this number.
fn accept(rt: &(impl Abort + AllocGlobal), world: &mut World, words: &str, number: u64) {
    let edit = edit_of(rt, words).expect(rt, "an edit");
    let reply = stepped(world, Step::Accept(edit));
    are_same(rt, reply, Reply::Accepted(Number(number)));
}

/// Settles, and so many edits are applied.
fn settle(rt: &impl Abort, world: &mut World, number: u64) {
    are_same(rt, stepped(world, Step::Settle), Reply::Settled(number));
}

fn set_up_many(rt: &(impl Abort + AllocGlobal), world: &mut World) {
    for key in 0..2_000u64 {
        let words = format!(in rt.alloc(); "setup k{key}={key}").expect(rt, "memory");
        accept(rt, world, words.as_str(), key.saturating_add(1));
    }
}

/// So many keys are set up.
fn sets_up(rt: &impl Abort, world: &World, count: usize) {
    let values = set_up_in(rt, world);
    are_same(rt, values.len(), count);
}

/// The one finding is the read of a value that nobody wrote.
fn finds_unknown(rt: &(impl Abort + AllocGlobal), world: &World) {
    let found = found_in(world).expect(rt, "findings");
    let text = found_text(rt, &found).expect(rt, "memory");
    let unknown = "k1999 Unknown { txn: TxnId(1), op: 2, read: Some(Value(7)) }";
    are_same(rt, text.as_str(), unknown);
    drop(text);
    drop(found);
}

fn many_keys(rt: &(impl Abort + AllocGlobal), world: &mut World) {
    set_up_many(rt, world);
    let words = "arrive 1 5 6 k0?0 k1999?1999 k1999?7";
    accept(rt, world, words, 2_001);
    settle(rt, world, 2_001);
    sets_up(rt, world, 2_000);
    finds_unknown(rt, world);
}

#[test]
fn many_keys_are_set_up(rt: HostRuntime) {
    play(&rt, 2, 10_000, Row::ManyKeys);
}

fn accept_many(rt: &(impl Abort + AllocGlobal), world: &mut World) {
    for id in 1..=5_000u64 {
        let start = id.saturating_mul(2);
        let commit = start.saturating_add(1);
        let words = format!(in rt.alloc(); "arrive {id} {start} {commit} x={id}");
        accept(rt, world, words.expect(rt, "memory").as_str(), id);
    }
}

/// The first shard applies at most 4,000 edits, up to that number.
fn apply_many(rt: &impl Abort, world: &mut World, number: u64) {
    let reply = many_applied(rt, world, 0, 4_000);
    are_same(rt, reply, Reply::Applied(number));
}

fn many_edits(rt: &(impl Abort + AllocGlobal), world: &mut World) {
    accept_many(rt, world);
    apply_many(rt, world, 4_000);
    are_same(rt, fault_of(world), Some(WorldFault::Unsettled(4_000)));
    apply_many(rt, world, 5_000);
    finds(rt, world, 0);
    assert!(rt; rebuilt(rt, world, 0));
    finds(rt, world, 0);
}

#[test]
fn many_edits_are_left_and_applied(rt: HostRuntime) {
    play(&rt, 1, 10_000, Row::ManyEdits);
}

/// A transaction 2 that reads nothing from `x`, 4,000 times.
fn reads_of_nothing(rt: &(impl Abort + AllocGlobal)) -> String {
    let mut words = String::new(rt.alloc());
    words.push_str("arrive 2 3 4").expect(rt, "memory");
    for _ in 0..4_000u64 {
        words.push_str(" x?null").expect(rt, "memory");
    }
    words
}

/// The edit is accepted as the one of this number, and so much is found then.
fn accept_and_find(
    rt: &(impl Abort + AllocGlobal),
    world: &mut World,
    words: &str,
    number: u64,
    found: usize,
) {
    accept(rt, world, words, number);
    settle(rt, world, number);
    finds(rt, world, found);
}

fn many_reads(rt: &(impl Abort + AllocGlobal), world: &mut World) {
    let reads = reads_of_nothing(rt);
    accept_and_find(rt, world, "arrive 1 1 2 x=1", 1, 0);
    accept_and_find(rt, world, reads.as_str(), 2, 4_000);
    accept_and_find(rt, world, "withdraw 1", 3, 0);
    accept_and_find(rt, world, "arrive 1 1 2 x=1", 4, 4_000);
    accept_and_find(rt, world, "withdraw 2", 5, 0);
    drop(reads);
}

#[test]
fn many_reads_come_and_go(rt: HostRuntime) {
    play(&rt, 2, 100, Row::ManyReads);
}

/// The transaction with that id reads what the one before it in the order of ids wrote, and overwrites it.
fn following(rt: &(impl Abort + AllocGlobal), id: u64) -> String {
    let start = id.saturating_mul(10);
    let before = id.saturating_sub(1);
    let commit = start.saturating_add(5);
    let words = format!(in rt.alloc(); "arrive {id} {start} {commit} x?{before} x={id}");
    words.expect(rt, "memory")
}

/// A number from 1 to 700, each once in 700 turns, since 701 is prime: with the step 1 in rising order, with 700 in falling order, and
/// else by leaps.
fn leap(turn: u64, step: u64) -> u64 {
    turn.saturating_mul(step) % 701
}

/// Settles, and compares the findings with those of the plain program.
fn compare_settled(rt: &(impl Abort + AllocGlobal), world: &mut World) {
    stepped(world, Step::Settle);
    compare_findings(rt, world);
}

/// The edit is accepted, and now and then the findings are compared.
fn accept_and_compare(
    rt: &(impl Abort + AllocGlobal),
    world: &mut World,
    words: &str,
    number: u64,
) {
    accept(rt, world, words, number);
    if number % 100 == 50 {
        compare_settled(rt, world);
    }
}

fn all_come(rt: &(impl Abort + AllocGlobal), world: &mut World, step: u64) {
    for turn in 1..=700u64 {
        let words = following(rt, leap(turn, step));
        accept_and_compare(rt, world, words.as_str(), turn.saturating_add(1));
    }
}

fn half_go(rt: &(impl Abort + AllocGlobal), world: &mut World, step: u64) {
    for turn in 1..=350u64 {
        let words = format!(in rt.alloc(); "withdraw {}", leap(turn, step));
        let words = words.expect(rt, "memory");
        accept_and_compare(rt, world, words.as_str(), turn.saturating_add(701));
    }
}

/// 700 versions of one key come, and 350 of them go again. Side by side they would move too many others, so they go over to a tree, at
/// an arrival or at the first withdrawal.
fn come_and_go(rt: &(impl Abort + AllocGlobal), world: &mut World, coming: u64, going: u64) {
    accept(rt, world, "setup x=0", 1);
    all_come(rt, world, coming);
    compare_settled(rt, world);
    half_go(rt, world, going);
    compare_settled(rt, world);
}

#[test]
fn versions_of_a_key_come_and_go_in_any_order(rt: HostRuntime) {
    for (coming, going) in [(1, 1), (1, 350), (700, 700), (263, 97)] {
        play(&rt, 1, 10_000, Row::Versions(coming, going));
    }
}

/// A test on a machine that was made for it.
#[derive(Clone, Copy)]
enum Row {
    ManyKeys,
    ManyEdits,
    ManyReads,
    Versions(u64, u64),
}

/// Plays the row on a new machine of so many shards, whose journal takes so many edits.
fn play(rt: &(impl Abort + AllocGlobal + RandomSource), shards: usize, limit: usize, row: Row) {
    let mut world = new_world(rt, shards, limit);
    play_on(rt, &mut *world, row);
    drop(world);
}

fn play_on(rt: &(impl Abort + AllocGlobal), world: &mut World, row: Row) {
    match row {
        Row::ManyKeys => many_keys(rt, world),
        Row::ManyEdits => many_edits(rt, world),
        Row::ManyReads => many_reads(rt, world),
        Row::Versions(coming, going) => come_and_go(rt, world, coming, going),
    }
}
