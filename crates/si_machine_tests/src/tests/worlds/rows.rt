//! Steps that were worked out by hand, each with what the machine answers.

use super::*;

/// `apply 1`, `settle` or an edit.
fn step_of(rt: &(impl Abort + AllocGlobal), line: &str) -> Step {
    if let Some(shard) = line.strip_prefix("apply ") {
        return Step::Apply(number(rt, shard));
    }
    match line {
        "settle" => Step::Settle,
        _ => Step::Accept(edit_of(rt, line).expect(rt, "an edit")),
    }
}

fn number(rt: &impl Abort, word: &str) -> usize {
    word.parse::<usize>().ok().expect(rt, "a number")
}

fn answer(rt: &(impl Abort + AllocGlobal), world: &mut World, line: &str) -> String {
    shown_as(rt, stepped(world, step_of(rt, line)))
}

/// So many edits by one shard at once, as `0 5`.
fn many_text(rt: &(impl Abort + AllocGlobal), world: &mut World, words: &str) -> String {
    let (shard, most) = words.split_once(' ').expect(rt, "a number");
    let most = match most {
        "all" => u64::MAX,
        most => number(rt, most) as u64,
    };
    shown_as(rt, many_applied(rt, world, number(rt, shard), most))
}

/// What is found, or why that isn't had.
fn findings_text(rt: &(impl Abort + AllocGlobal), world: &World) -> String {
    match found_in(world) {
        Ok(found) => found_text(rt, &found).expect(rt, "memory"),
        Err(fault) => shown_as(rt, fault),
    }
}

/// The ids of what is present, in order.
fn present_text(rt: &(impl Abort + AllocGlobal), world: &World) -> String {
    let txns = present_in(rt, world);
    are_same(rt, txns.len(), world.len());
    let mut text = String::new(rt.alloc());
    for txn in &txns {
        write!(text, "{} ", txn.id.0).expect(rt, "memory");
    }
    text
}

/// The keys that are set up with their values, in order.
fn initial_text(rt: &(impl Abort + AllocGlobal), world: &World) -> String {
    let mut text = String::new(rt.alloc());
    for pair in &set_up_in(rt, world) {
        write!(text, "{}={} ", pair.0.as_str(), pair.1.0).expect(rt, "memory");
    }
    text
}

/// What the machine shows: `findings`, `present`, `initial` or `shards`.
fn shown(rt: &(impl Abort + AllocGlobal), world: &World, line: &str) -> String {
    match line {
        "findings" => findings_text(rt, world),
        "present" => present_text(rt, world),
        "initial" => initial_text(rt, world),
        "shards" => shown_as(rt, world.shards()),
        _ => panic!(rt; "nothing to show: {line}"),
    }
}

/// What it answers to a step or to what is asked of one shard: `position 0`, `rebuild 0` or `many 0 5`.
fn told(rt: &(impl Abort + AllocGlobal), world: &mut World, line: &str) -> String {
    let (kind, rest) = line.split_once(' ').unwrap_or((line, ""));
    match kind {
        "arrive" | "withdraw" | "setup" | "apply" | "settle" => answer(rt, world, line),
        "many" => many_text(rt, world, rest),
        "position" => shown_as(rt, world.position(number(rt, rest))),
        "rebuild" => shown_as(rt, rebuilt(rt, world, number(rt, rest))),
        _ => shown(rt, world, line),
    }
}

/// Compares what the machine tells of what stands before the bar with what stands behind it.
fn give(rt: &(impl Abort + AllocGlobal), world: &mut World, line: &str) {
    let (question, wanted) = asked(line).expect(rt, "an answer");
    let told = told(rt, world, question);
    are_same_at(rt, told.trim(), wanted, line);
}

fn play(rt: &(impl Abort + AllocGlobal), world: &mut World, script: &str) {
    for line in script.trim().lines() {
        give(rt, world, line.trim());
    }
}

/// A new machine of so many shards, whose journal takes ten edits, answers so, line after line.
fn answers(rt: &(impl Abort + AllocGlobal + RandomSource), shards: usize, script: &str) {
    let mut world = new_world(rt, shards, 10);
    play(rt, &mut *world, script);
    drop(world);
}

fn steps_of(rt: &(impl Abort + AllocGlobal), script: &str) -> Vec<Step> {
    let mut steps = Vec::new(rt.alloc());
    for line in script.trim().lines() {
        let (question, _) = asked(line).expect(rt, "an answer");
        steps.push(step_of(rt, question)).expect(rt, "memory");
    }
    steps
}

/// Calls `run` and says nothing of what it does.
fn run_all(rt: &impl Abort, world: &mut World, steps: Vec<Step>) -> Vec<Reply> {
    world.run(steps).expect(rt, "memory")
}

/// The reply stands behind the bar.
fn is_reply(rt: &(impl Abort + AllocGlobal), reply: Reply, line: &str) {
    let (_, wanted) = asked(line).expect(rt, "an answer");
    are_same_at(rt, shown_as(rt, reply).as_str(), wanted, line);
}

/// Gives the steps all at once. The replies are as many, each as it stands behind the bar.
fn runs(rt: &(impl Abort + AllocGlobal), world: &mut World, script: &str) {
    let replies = run_all(rt, world, steps_of(rt, script));
    are_same(rt, replies.len(), script.trim().lines().count());
    for (reply, line) in replies.iter().zip(script.trim().lines()) {
        is_reply(rt, *reply, line);
    }
    drop(replies);
}

#[test]
fn a_machine_is_settled_step_by_step(rt: HostRuntime) {
    let script = "
        arrive 1 1 2 x=1 | Accepted(Number(1))
        arrive 3 5 6 y=3 | Accepted(Number(2))
        apply 1 | Applied(1)
        apply 1 | Applied(2)
        apply 1 | Idle
        apply 2 | Idle
        findings | Unsettled(0)
        arrive 1 1 2 x=1 | Refused(IdPresent)
        apply 0 | Applied(1)
        findings | Unsettled(1)
        position 0 | Some(1)
        position 2 | None
        settle | Settled(2)
        findings |
        present | 1 3
        shards | 2";
    answers(&rt, 2, script);
}

#[test]
fn a_value_is_free_after_a_withdrawal(rt: HostRuntime) {
    let mut world = new_world(&rt, 2, 10);
    let steps = "
        arrive 1 1 2 x=5 | Accepted(Number(1))
        withdraw 1 | Accepted(Number(2))
        arrive 2 3 4 x=5 | Accepted(Number(3))
        arrive 3 5 6 x?5 | Accepted(Number(4))
        apply 0 | Applied(1)
        settle | Settled(4)";
    runs(&rt, &mut *world, steps);
    let after = "
        findings |
        present | 2 3";
    play(&rt, &mut *world, after);
    drop(world);
}

#[test]
fn a_stale_read_is_found_once_it_is_settled(rt: HostRuntime) {
    let script = "
        arrive 1 1 2 x=1 | Accepted(Number(1))
        arrive 2 3 4 x?null | Accepted(Number(2))
        settle | Settled(2)
        findings | x Stale { txn: TxnId(2), op: 0, read: None, missed: TxnId(1) }
        setup y=1 | Accepted(Number(3))
        initial | y=1";
    answers(&rt, 16, script);
}

#[test]
fn many_edits_are_applied_at_once(rt: HostRuntime) {
    let script = "
        arrive 1 2 3 x=1 | Accepted(Number(1))
        arrive 2 4 5 x=2 | Accepted(Number(2))
        arrive 3 6 7 x=3 | Accepted(Number(3))
        many 0 2 | Applied(2)
        position 0 | Some(2)
        many 0 5 | Applied(3)
        many 0 5 | Idle
        many 7 1 | Idle
        findings |";
    answers(&rt, 1, script);
}

#[test]
fn all_that_is_left_is_applied_at_once(rt: HostRuntime) {
    let script = "
        arrive 1 1 2 x=1 | Accepted(Number(1))
        many 0 all | Applied(1)";
    answers(&rt, 1, script);
}

#[test]
fn set_up_values_are_told(rt: HostRuntime) {
    let script = "
        arrive 1 1 2 x=5 | Accepted(Number(1))
        setup x=5 | Refused(SetUpTaken { holder: TxnId(1) })
        setup y=1 | Accepted(Number(2))
        arrive 2 3 4 x=6 y=1 | Refused(ValueSetUp { op: 1 })
        initial | y=1";
    answers(&rt, 2, script);
}

#[test]
fn a_rebuilt_shard_is_where_it_was(rt: HostRuntime) {
    let script = "
        arrive 1 1 2 x=1 | Accepted(Number(1))
        arrive 2 3 4 x?null | Accepted(Number(2))
        arrive 3 5 6 y=1 | Accepted(Number(3))
        many 0 2 | Applied(2)
        rebuild 0 | true
        position 0 | Some(2)
        findings | Unsettled(2)
        settle | Settled(3)
        rebuild 0 | true
        findings | x Stale { txn: TxnId(2), op: 0, read: None, missed: TxnId(1) }";
    answers(&rt, 1, script);
}
