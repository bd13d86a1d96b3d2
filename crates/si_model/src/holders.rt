//! What of a transaction stands in the way of an edit: its stamps and the pairs that it writes.

ghost use Rattle.std.specs.Prelude.{◌≡◌};
ghost use Rattle.std.specs.List.{list_any};
ghost use Rattle.si_model.specs.Operations.{same_write};
ghost use Rattle.si_model.specs.Parts.{writes_pair_of};
ghost use Rattle.si_model.specs.Edits.{install_stamp, installs_at, has_stamp};

use crate::{Key, Op, Stamp, Txn, Value};

/// The commit stamp of a transaction that writes, which is a stamp of its own.
pub fn install_stamp(txn: &Txn) -> Option<Stamp>
    ensures { result ≡ install_stamp txn.now }
{
    if txn.writes() {
        txn.status.commit()
    } else {
        None
    }
}

/// Whether the transaction writes and commits at the stamp.
pub fn installs_at(txn: &Txn, stamp: Stamp) -> bool
    ensures { result ≡ installs_at stamp txn.now }
{
    install_stamp(txn) == Some(stamp)
}

/// Whether the transaction starts or commits at the stamp.
pub fn has_stamp(txn: &Txn, stamp: Stamp) -> bool
    ensures { result ≡ has_stamp stamp txn.now }
{
    txn.start == stamp || txn.status.commit() == Some(stamp)
}

/// Whether the transaction writes the value to the key.
pub fn writes_pair(txn: &Txn, key: &Key, value: Value) -> bool
    ensures { result ≡ writes_pair_of (Op.Write key.now value) txn.now }
{
    txn.ops
        .as_slice()
        .iter()
        .any(|op| is_write_on(op, key, value))
}

fn is_write_on(op: &Op, key: &Key, value: Value) -> bool
    ensures { result ≡ same_write (Op.Write key.now value) op.now }
{
    match op {
        Op::Read(..) => false,
        Op::Write(other_key, other) => value == *other && key == other_key,
    }
}
