//! Values that no clause fixes, and calls that nothing else here makes.

use super::*;
use si_model::parts::{on_key, part_of};
use si_model::{
    Edit, Finding, Key, Kind, Op, Outcome, Status, TxnId, Value, evidence_of, findings_of, shard_of,
};
use si_scripts::{edit_of, key, op_of, present, txn_of};
use std::collections::{BTreeMap, HashMap};

/// What shows a finding of this kind is printed so.
fn is_shown_so(rt: &(impl Abort + AllocGlobal), kind: Kind, wanted: &str) {
    let found = evidence_of(rt.alloc(), kind).expect(rt, "memory");
    are_same(rt, shown_as(rt, found).as_str(), wanted);
}

#[test]
fn evidence_for_kinds(rt: HostRuntime) {
    let txn = TxnId(4);
    let own = Kind::Own {
        txn,
        op: 1,
        read: None,
        own: None,
    };
    let stale = Kind::Stale {
        txn,
        op: 0,
        read: Some(Value(5)),
        missed: TxnId(3),
    };
    let walk = "Some(Missed(Walk { edges: [Edge { from: TxnId(4), to: TxnId(3), label: Rw }, \
        Edge { from: TxnId(3), to: TxnId(4), label: St }] }))";
    is_shown_so(&rt, own, "None");
    is_shown_so(&rt, stale, walk);
}

/// Its hash, and its shard of two, of four and of sixteen.
fn assert_shards(
    rt: &(impl Abort + AllocGlobal),
    text: &str,
    hash: u32,
    shards: (usize, usize, usize),
) {
    let key = key(rt, text).expect(rt, "a key");
    are_same(rt, key.shard_hash(), hash);
    let found = (shard_of(&key, 2), shard_of(&key, 4), shard_of(&key, 16));
    are_same(rt, found, shards);
}

#[test]
fn shards_of_keys(rt: HostRuntime) {
    for (text, hash, shards) in [
        ("x", 120, (0, 0, 8)),
        ("y", 121, (1, 1, 9)),
        ("ab", 3105, (1, 1, 1)),
        ("k1", 3366, (0, 2, 6)),
    ] {
        assert_shards(&rt, text, hash, shards);
    }
}

/// All that is on the key of the history is printed so.
fn is_on_key(rt: &(impl Abort + AllocGlobal), lines: &str, key: &Key, wanted: &str) {
    let history = present(rt, lines).expect(rt, "a history");
    let found = on_key(rt.alloc(), &history.txns, &history.initial, key);
    let found = found.expect(rt, "memory");
    are_same(rt, shown_as(rt, found).as_str(), wanted);
    drop(history);
}

#[test]
fn parts_of_a_key(rt: HostRuntime) {
    let lines = "
        setup y=7
        setup x=3
        1 1 2 y=1
        2 3 aborted y?null x=1 x?1";
    let wanted = "OnKey { initial: Some(Value(3)), parts: Parts { items: [\
        Part { id: TxnId(2), start: Stamp(3), status: Aborted, accesses: Accesses { items: [\
        Placed { place: 1, access: Write(Value(1)) }, \
        Placed { place: 2, access: Read(Some(Value(1))) }] } }] } }";
    let x = key(&rt, "x").expect(&rt, "a key");
    is_on_key(&rt, lines, &x, wanted);
}

#[test]
fn a_transaction_has_no_part_on_another_key(rt: HostRuntime) {
    let txn = txn_of(&rt, "1 1 2 y=1").expect(&rt, "a transaction");
    let z = key(&rt, "z").expect(&rt, "a key");
    let part = part_of(rt.alloc(), &txn, &z).expect(&rt, "memory");
    assert!(rt; part.is_none());
}

#[test]
fn lengths_of_keys(rt: HostRuntime) {
    let mut text = String::new(rt.alloc());
    for length in 0..130 {
        are_same(&rt, Key::fits(text.as_str()), 1 <= length && length <= 128);
        text.push('k').expect(&rt, "memory");
    }
}

#[test]
fn copies_of_edits_are_equal(rt: HostRuntime) {
    for line in [
        "arrive 1 2 3 x?null y=4",
        "resolve 1 2",
        "withdraw 1",
        "setup x=5",
    ] {
        let edit = edit_of(&rt, line).expect(&rt, "an edit");
        are_same(&rt, edit.try_clone().expect(&rt, "memory"), edit);
    }
}

#[test]
fn copies_of_findings_are_equal(rt: HostRuntime) {
    let finding = Finding {
        key: key(&rt, "x").expect(&rt, "a key"),
        kind: Kind::Overlap {
            first: TxnId(1),
            second: TxnId(2),
        },
    };
    are_same(&rt, finding.try_clone().expect(&rt, "memory"), finding);
}

fn is_copied(rt: &impl Abort, op: &Op) {
    let copy = op.try_clone().expect(rt, "memory");
    assert!(rt; copy == *op);
}

#[test]
fn copies_of_operations_are_equal(rt: HostRuntime) {
    let write = op_of(&rt, "x=1").expect(&rt, "an operation");
    is_copied(&rt, &write);
    let copy = write.key().try_clone().expect(&rt, "memory");
    are_same(&rt, copy.as_str(), "x");
    are_same(&rt, Outcome::Aborted.status(), Status::Aborted);
}

/// Whether threads may share it is asked when this is compiled.
fn is_shared<T: Send + Sync>(_value: &T) {}

#[test]
fn threads_may_share_what_they_will_hold(rt: HostRuntime) {
    is_shared(&txn_of(&rt, "1 2 3 y=4").expect(&rt, "a transaction"));
    is_shared(&Edit::Withdraw(TxnId(1)));
    is_shared(&findings_of(rt.alloc(), &[], &[]).expect(&rt, "memory"));
}

#[test]
fn keys_stand_in_a_map_by_their_hash(rt: HostRuntime) {
    let mut map = HashMap::new(rt.alloc());
    for (text, place) in [("b", 1), ("a", 2), ("b", 3)] {
        let key = key(&rt, text).expect(&rt, "a key");
        let before: Result<_, _> = map.insert(key, place);
        before.expect(&rt, "memory");
    }
    let b = key(&rt, "b").expect(&rt, "a key");
    are_same(&rt, map.get(&b).copied(), Some(3));
}

fn own_key(rt: &(impl Abort + AllocGlobal), text: &str) -> Key {
    let key = key(rt, text).expect(rt, "a key");
    let owned = String::from_str(rt.alloc(), key.as_str()).expect(rt, "memory");
    Key::from_string(owned).expect(rt, "memory")
}

#[test]
fn keys_stand_in_a_map_by_their_order(rt: HostRuntime) {
    let mut map = BTreeMap::new(rt.alloc());
    for (text, place) in [("b", 1), ("a", 2), ("b", 3)] {
        let before: Result<_, _> = map.insert(own_key(&rt, text), place);
        before.expect(&rt, "memory");
    }
    let b = key(&rt, "b").expect(&rt, "a key");
    are_same(&rt, map.get(&b).copied(), Some(3));
    are_same(&rt, map.first_key_value().map(|entry| *entry.1), Some(2));
}
