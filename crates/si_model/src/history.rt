//! Whether what is present is a history.

ghost use Rattle.std.specs.Prelude.{◌≡◌, ◌↔◌, IsTrue};
ghost use Rattle.std.specs.List.{list_all, list_any};
ghost use Rattle.si_model.specs.Parts.{Present, writes_pair_of};
ghost use Rattle.si_model.specs.Edits.{has_stamp, install_stamp, is_forward};
ghost use Rattle.si_model.specs.History.{IsHistory};
ghost use Rattle.si_model.specs.HistoryTests.{goes_forward, pairwise, ops_apart, stamp_apart, apart_from_all, txns_apart, is_sound, keys_apart, is_unwritten, is_consistent};

use crate::holders::{has_stamp, install_stamp, writes_pair};
use crate::refusals::is_forward;
use crate::{Key, Op, Stamp, Txn, Value};

/// Whether a database can have had these transactions and set-up values: each commit isn't less than its start, and greater
/// where the transaction writes; ids are distinct; the commit stamp of a transaction that writes equals no stamp of
/// another; a pair of key and value is written by one write at most; a key is set up once at most, and with no value that
/// a transaction writes to it.
///
/// It is true of nothing, takes no memory, and compares all with all.
pub fn is_history(txns: &[Txn], initial: &[(Key, Value)]) -> bool
    ensures { IsTrue result ↔ IsHistory (record { txns = txns.now; initial = initial.now }) }
{
    is_consistent(txns, initial)
}

fn is_consistent(txns: &[Txn], initial: &[(Key, Value)]) -> bool
    ensures { result ≡ is_consistent (record { txns = txns.now; initial = initial.now }) }
{
    are_sound(txns)
        && are_txns_apart(txns)
        && are_keys_apart(initial)
        && are_unwritten(txns, initial)
}

fn are_sound(txns: &[Txn]) -> bool
    ensures { result ≡ list_all is_sound txns.now }
{
    txns.iter().all(is_sound)
}

fn is_sound(txn: &Txn) -> bool
    ensures { result ≡ is_sound txn.now }
{
    goes_forward(txn.writes(), txn.start, txn.status.commit()) && are_ops_apart(txn.ops.as_slice())
}

fn goes_forward(writes: bool, start: Stamp, commit: Option<Stamp>) -> bool
    ensures { result ≡ goes_forward writes start commit }
{
    match commit {
        None => true,
        Some(commit) => is_forward(writes, start, commit),
    }
}

fn are_ops_apart(ops: &[Op]) -> bool
    ensures { result ≡ pairwise ops_apart ops.now }
{
    for (place, op) in ops.iter().enumerate() {
        if !is_apart_from_all(&ops[place + 1..], op) {
            return false;
        }
    }
    true
}

fn are_txns_apart(txns: &[Txn]) -> bool
    ensures { result ≡ pairwise txns_apart txns.now }
{
    for (place, txn) in txns.iter().enumerate() {
        if !is_txn_apart(&txns[place + 1..], txn) {
            return false;
        }
    }
    true
}

fn is_txn_apart(others: &[Txn], txn: &Txn) -> bool
    ensures { result ≡ list_all (txns_apart txn.now) others.now }
{
    others.iter().all(|other| txns_apart(txn, other))
}

fn txns_apart(txn: &Txn, other: &Txn) -> bool
    ensures { result ≡ txns_apart txn.now other.now }
{
    txn.id != other.id
        && stamp_apart(install_stamp(txn), other)
        && stamp_apart(install_stamp(other), txn)
        && writes_apart(txn.ops.as_slice(), other.ops.as_slice())
}

fn stamp_apart(stamp: Option<Stamp>, txn: &Txn) -> bool
    ensures { result ≡ stamp_apart stamp txn.now }
{
    match stamp {
        None => true,
        Some(stamp) => !has_stamp(txn, stamp),
    }
}

fn writes_apart(ops: &[Op], others: &[Op]) -> bool
    ensures { result ≡ list_all (apart_from_all others.now) ops.now }
{
    ops.iter().all(|op| is_apart_from_all(others, op))
}

fn is_apart_from_all(others: &[Op], op: &Op) -> bool
    ensures { result ≡ apart_from_all others.now op.now }
{
    others.iter().all(|other| !op.writes_same(other))
}

fn are_keys_apart(pairs: &[(Key, Value)]) -> bool
    ensures { result ≡ pairwise keys_apart pairs.now }
{
    for (place, pair) in pairs.iter().enumerate() {
        if !is_key_apart(&pairs[place + 1..], pair) {
            return false;
        }
    }
    true
}

fn is_key_apart(others: &[(Key, Value)], pair: &(Key, Value)) -> bool
    ensures { result ≡ list_all (keys_apart pair.now) others.now }
{
    others.iter().all(|other| pair.0 != other.0)
}

fn are_unwritten(txns: &[Txn], initial: &[(Key, Value)]) -> bool
    ensures { result ≡ list_all (is_unwritten txns.now) initial.now }
{
    initial.iter().all(|pair| is_unwritten(txns, pair))
}

fn is_unwritten(txns: &[Txn], pair: &(Key, Value)) -> bool
    ensures { result ≡ is_unwritten txns.now pair.now }
{
    !is_written(txns, &pair.0, pair.1)
}

fn is_written(txns: &[Txn], key: &Key, value: Value) -> bool
    ensures { result ≡ list_any (writes_pair_of (Op.Write key.now value)) txns.now }
{
    txns.iter().any(|txn| writes_pair(txn, key, value))
}
