//! Versions that come in any order, and the nearest ones.

use super::*;
use si_model::{Stamp, TxnId, Value};
use si_timeline::{Timeline, Version};

fn version(writer: u64, start: u64, value: u64) -> Version {
    Version {
        writer: TxnId(writer),
        start: Stamp(start),
        value: Value(value),
    }
}

/// The version nearest before the stamp. No proof but this one sees the contract of the call.
fn is_before(rt: &impl Abort, timeline: &Timeline, stamp: u64, nearest: Option<(Stamp, Version)>) {
    are_same_at(rt, timeline.before(Stamp(stamp)), nearest, stamp);
}

fn is_after(rt: &impl Abort, timeline: &Timeline, stamp: u64, nearest: Option<(Stamp, Version)>) {
    are_same_at(rt, timeline.after(Stamp(stamp)), nearest, stamp);
}

/// Versions at 10, 20 and 30 are told as the nearest ones.
fn three_are_told(rt: &impl Abort, timeline: &Timeline) {
    are_same(rt, timeline.len(), 3);
    let first = (Stamp(10), version(1, 1, 5));
    let second = (Stamp(20), version(2, 11, 6));
    let third = (Stamp(30), version(3, 9, 7));
    is_before(rt, timeline, 20, Some(first));
    is_before(rt, timeline, 21, Some(second));
    is_before(rt, timeline, 10, None);
    is_after(rt, timeline, 20, Some(third));
    is_after(rt, timeline, 19, Some(second));
    is_after(rt, timeline, 30, None);
}

#[test]
fn versions_stand_by_their_commits(rt: HostRuntime) {
    let mut timeline = Timeline::new(rt.alloc());
    assert!(rt; timeline.is_empty());
    is_before(&rt, &timeline, u64::MAX, None);
    is_after(&rt, &timeline, 0, None);
    let put = timeline.insert(Stamp(30), version(3, 9, 7));
    put.expect(&rt, "memory");
    let put = timeline.insert(Stamp(10), version(1, 1, 5));
    put.expect(&rt, "memory");
    let put = timeline.insert(Stamp(20), version(2, 11, 6));
    put.expect(&rt, "memory");
    three_are_told(&rt, &timeline);
    drop(timeline);
}

/// The version after 10 is that at 20, and is taken out.
fn take_second(rt: &impl Abort, timeline: &mut Timeline) {
    let Some((second, _)) = timeline.after(Stamp(10)) else {
        panic!(rt; "the second version is there");
    };
    are_same(rt, second, Stamp(20));
    are_same(rt, timeline.remove(second), version(2, 11, 6));
}

#[test]
fn a_version_that_is_taken_out_is_passed_over(rt: HostRuntime) {
    let mut timeline = Timeline::new(rt.alloc());
    let put = timeline.insert(Stamp(10), version(1, 1, 5));
    put.expect(&rt, "memory");
    let put = timeline.insert(Stamp(20), version(2, 11, 6));
    put.expect(&rt, "memory");
    let put = timeline.insert(Stamp(30), version(3, 9, 7));
    put.expect(&rt, "memory");
    take_second(&rt, &mut timeline);
    are_same(&rt, timeline.len(), 2);
    let third = Some((Stamp(30), version(3, 9, 7)));
    is_after(&rt, &timeline, 10, third);
    let first = Some((Stamp(10), version(1, 1, 5)));
    is_before(&rt, &timeline, 30, first);
    drop(timeline);
}

#[test]
fn the_greatest_and_the_least_stamp(rt: HostRuntime) {
    let mut timeline = Timeline::new(rt.alloc());
    let put = timeline.insert(Stamp(u64::MAX), version(1, 0, 0));
    put.expect(&rt, "memory");
    let greatest = Some((Stamp(u64::MAX), version(1, 0, 0)));
    is_after(&rt, &timeline, 0, greatest);
    is_after(&rt, &timeline, u64::MAX, None);
    is_before(&rt, &timeline, u64::MAX, None);
    is_before(&rt, &timeline, 0, None);
    drop(timeline);
}
