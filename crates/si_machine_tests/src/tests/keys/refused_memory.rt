//! What the state of a key answers after the growth of some memory was refused inside a call.
//!
//! A plain run refuses no memory, and these tests then see only that each call succeeds. With
//! `rt try --test --fail-alloc N` the Nth allocation of each test is refused. Where an edit of the state told of it the test
//! writes `refused`, and every later call has to answer that the state is spoiled. Where that memory was wanted by the plain program,
//! the test ends with an error and says nothing of the state.

use super::*;
use si_judge::{Cases, KeyFault, KeyState};
use si_model::{Accesses, Key, Outcome, Part, Stamp, Status, TxnId, Value};
use si_scripts::key;
use std::alloc::Global;
use std::test::Fail;

/// A part that does nothing, which takes no memory.
fn idle(alloc: Global) -> Part {
    Part {
        id: TxnId(90),
        start: Stamp(90),
        status: Status::Aborted,
        accesses: Accesses::new(alloc),
    }
}

// The contracts of these calls are long. Each is called in a function of its own, so that no proof has two of them.

fn arrive(rt: &impl Abort, state: &mut KeyState<Cases>, part: Part) -> Option<KeyFault> {
    assert!(rt; state.is_spoiled());
    state.arrive(part).err()
}

fn resolve(rt: &impl Abort, state: &mut KeyState<Cases>, id: TxnId) -> Option<KeyFault> {
    assert!(rt; state.is_spoiled());
    state.resolve(id, Outcome::Aborted).err()
}

fn withdraw(rt: &impl Abort, state: &mut KeyState<Cases>, id: TxnId) -> Option<KeyFault> {
    assert!(rt; state.is_spoiled());
    state.withdraw(id).err()
}

fn set_up(rt: &impl Abort, state: &mut KeyState<Cases>, value: Value) -> Option<KeyFault> {
    assert!(rt; state.is_spoiled());
    state.set_up(value).err()
}

fn fault_of(state: &KeyState<Cases>) -> Option<KeyFault> {
    state.findings().err()
}

/// Every call answers that the state is spoiled.
fn assert_spoiled(rt: &impl Abort, alloc: Global, state: &mut KeyState<Cases>) {
    let spoiled = Some(KeyFault::Spoiled);
    are_same(rt, arrive(rt, state, idle(alloc)), spoiled);
    are_same(rt, resolve(rt, state, TxnId(1)), spoiled);
    are_same(rt, withdraw(rt, state, TxnId(1)), spoiled);
    are_same(rt, set_up(rt, state, Value(5)), spoiled);
    are_same(rt, fault_of(state), spoiled);
    assert!(rt; state.is_spoiled());
}

fn x(rt: &(impl Abort + AllocGlobal)) -> Key {
    key(rt, "x").expect(rt, "a key")
}

/// The state of `x`, on which nothing is. Where memory is refused it is made again.
fn new_beside(rt: &(impl Abort + AllocGlobal)) -> Beside {
    match Beside::new(rt.alloc(), x(rt)) {
        Ok(beside) => beside,
        Err(_) => Beside::new(rt.alloc(), x(rt)).expect(rt, "memory"),
    }
}

fn give_all(
    rt: &(impl Abort + AllocGlobal),
    beside: &mut Beside,
    accepted: &str,
) -> Result<(), KeyFault> {
    for line in accepted.trim().lines() {
        are_same(rt, beside.give(rt, &edit(rt, line.trim()))?, None);
    }
    Ok(())
}

/// Gives one more. It succeeds, or spoils the state, which is answered.
fn is_spoiled_by(
    rt: &(impl Abort + AllocGlobal + Print),
    beside: &mut Beside,
    line: &str,
) -> Result<bool, KeyFault> {
    let answer = beside.give(rt, &edit(rt, line));
    let spoiled = beside.state.is_spoiled();
    if spoiled {
        println!(rt; "refused").expect(rt, "output");
        are_same(rt, answer, Err(KeyFault::OutOfMemory));
    } else {
        are_same(rt, answer?, None);
    }
    Ok(spoiled)
}

/// A key that has these edits is given one more. It succeeds, or spoils the state for good.
fn gives_or_spoils(
    rt: &(impl Abort + AllocGlobal + Print),
    accepted: &str,
    line: &str,
) -> Result<(), KeyFault> {
    let mut beside = new_beside(rt);
    let spoiled = is_spoiled_in_the_end(rt, &mut beside, accepted, line);
    let mut state = beside.into_state();
    let stayed = stays_spoiled(rt, &mut state, spoiled);
    drop(state);
    stayed
}

/// The same as [`is_spoiled_by`], of a key that is given these edits before.
fn is_spoiled_in_the_end(
    rt: &(impl Abort + AllocGlobal + Print),
    beside: &mut Beside,
    accepted: &str,
    line: &str,
) -> Result<bool, KeyFault> {
    give_all(rt, beside, accepted)?;
    is_spoiled_by(rt, beside, line)
}

/// Where the state is spoiled, it is so for good.
fn stays_spoiled(
    rt: &(impl Abort + AllocGlobal),
    state: &mut KeyState<Cases>,
    spoiled: Result<bool, KeyFault>,
) -> Result<(), KeyFault> {
    if spoiled? {
        assert_spoiled(rt, rt.alloc(), state);
    }
    Ok(())
}

const VERSIONS_AND_READERS: &str = "
    arrive 1 1 2 x=1
    arrive 9 3 20 x=9
    arrive 3 7 8 x?1
    arrive 4 9 10 x?2 x?null
    arrive 5 1 indoubt x=3 x=2 x?1";

#[test]
fn the_first_arrival_wants_memory(rt: HostRuntime) -> Result<(), Fail> {
    Ok(gives_or_spoils(&rt, "", "arrive 1 1 2 x=1 x?1")?)
}

#[test]
fn an_arrival_wants_memory(rt: HostRuntime) -> Result<(), Fail> {
    Ok(gives_or_spoils(&rt, VERSIONS_AND_READERS, "arrive 2 3 6 x?1 x=4 x?7")?)
}

#[test]
fn a_resolution_wants_memory(rt: HostRuntime) -> Result<(), Fail> {
    Ok(gives_or_spoils(&rt, VERSIONS_AND_READERS, "resolve 5 6")?)
}

#[test]
fn a_withdrawal_wants_memory(rt: HostRuntime) -> Result<(), Fail> {
    Ok(gives_or_spoils(&rt, VERSIONS_AND_READERS, "withdraw 1")?)
}

#[test]
fn a_set_up_wants_memory(rt: HostRuntime) -> Result<(), Fail> {
    Ok(gives_or_spoils(&rt, VERSIONS_AND_READERS, "setup x=5")?)
}
