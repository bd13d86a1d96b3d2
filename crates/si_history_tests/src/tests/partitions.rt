//! Which partition has a key, and what a partition keeps of an edit.

use super::*;
use si_partitions::{Partition, project_edit};
use si_scripts::{edit_of, key};

/// Of so many partitions this one alone has the key.
fn assert_partition(rt: &(impl Abort + AllocGlobal), text: &str, count: u64, wanted: u64) {
    let key = key(rt, text).expect(rt, "a key");
    for index in 0..count {
        assert!(rt; count <= 16);
        are_same(rt, Partition { index, count }.has(&key), index == wanted);
    }
}

#[test]
fn partitions_of_keys(rt: HostRuntime) {
    for (text, count, wanted) in [
        ("x", 2, 0),
        ("y", 2, 1),
        ("ab", 4, 3),
        ("k1", 4, 1),
        ("x", 16, 2),
        ("y", 16, 12),
        ("ab", 16, 15),
        ("k1", 16, 4),
    ] {
        assert_partition(&rt, text, count, wanted);
    }
}

/// Of the edit of this line the partition at that place of two keeps that of the other line.
fn keeps(rt: &(impl Abort + AllocGlobal), line: &str, index: u64, wanted: &str) {
    let edit = edit_of(rt, line).expect(rt, "an edit");
    let kept = project_edit(rt.alloc(), edit, Partition { index, count: 2 });
    are_same(
        rt,
        kept.expect(rt, "memory"),
        edit_of(rt, wanted).expect(rt, "an edit"),
    );
}

#[test]
fn edits_of_partitions(rt: HostRuntime) {
    for (line, index, wanted) in [
        (
            "arrive 1 2 5 y=1 x?null y?1 x=2",
            0,
            "arrive 1 2 5 x?null x=2",
        ),
        ("arrive 1 2 5 y=1 x?null y?1 x=2", 1, "arrive 1 2 5 y=1 y?1"),
        ("arrive 1 2 aborted x=1", 1, "arrive 1 2 aborted"),
        ("resolve 1 7", 0, "resolve 1 7"),
        ("withdraw 1", 1, "withdraw 1"),
        ("setup y=3", 0, "setup y=3"),
    ] {
        keeps(&rt, line, index, wanted);
    }
}
