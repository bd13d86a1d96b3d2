//! What a transaction does on one key, found by walking its operations.

ghost use Rattle.std.specs.Prelude.{◌≡◌, None, fold};
ghost use Rattle.si_graph.specs.EvidenceTests.{is_committed, last_on, last_after, install_on, is_last_on};

use si_model::{Installer, Key, Op, Txn, Value};

/// Whether the transaction committed.
pub fn is_committed(txn: &Txn) -> bool
    ensures { result ≡ is_committed txn.now }
{
    txn.status.commit().is_some()
}

/// The value of the transaction's last write of the key.
pub fn last_on(key: &Key, txn: &Txn) -> Option<Value>
    ensures { result ≡ last_on key.now txn.now }
{
    last_among(key, txn.ops.as_slice())
}

fn last_among(key: &Key, ops: &[Op]) -> Option<Value>
    ensures { result ≡ fold (last_after key.now) None ops.now }
{
    ops.iter().fold(None, |last, op| last_after(key, last, op))
}

fn last_after(key: &Key, last: Option<Value>, op: &Op) -> Option<Value>
    ensures { result ≡ last_after key.now last op.now }
{
    if op.key() == key {
        op.access().written().or(last)
    } else {
        last
    }
}

/// The transaction as the installer of a version of the key, where it committed and writes the key.
pub fn install_on(key: &Key, txn: &Txn) -> Option<Installer>
    ensures { result ≡ install_on key.now txn.now }
{
    let commit = txn.status.commit()?;
    let _installed = last_on(key, txn)?;
    Some(Installer {
        txn: txn.id,
        start: txn.start,
        commit,
    })
}

/// Whether the transaction's last write of the key is of the value.
pub fn is_last_on(key: &Key, value: Value, txn: &Txn) -> bool
    ensures { result ≡ is_last_on key.now value txn.now }
{
    last_on(key, txn) == Some(value)
}
