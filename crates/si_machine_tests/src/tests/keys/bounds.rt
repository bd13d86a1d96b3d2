//! How many judgements an edit of a key may cost, counted by walking all that is on the key.

use si_model::reads::{sight_of, version_of};
use si_model::versions::{next_after, writes};
use si_model::{Access, Edit, OnKey, Part, Placed, TxnId, Value};

/// The reads that the edit touches, each once, and two neighbouring pairs.
pub(super) fn most_judgements(before: &OnKey, now: &OnKey, edit: &Edit) -> u64 {
    let mut most = 2u64;
    for part in now.parts.as_slice() {
        most = most.saturating_add(touched_in(before, now, edit, part));
    }
    most
}

fn touched_in(before: &OnKey, now: &OnKey, edit: &Edit, reader: &Part) -> u64 {
    if reader.status.commit() == None {
        return 0;
    }
    let mut touched = 0u64;
    for placed in reader.accesses.as_slice() {
        if is_touched(before, now, edit, reader, *placed) {
            touched = touched.saturating_add(1);
        }
    }
    touched
}

fn is_touched(before: &OnKey, now: &OnKey, edit: &Edit, reader: &Part, placed: Placed) -> bool {
    let Access::Read(read) = placed.access else {
        return false;
    };
    match edit {
        Edit::Arrive(txn) => touches(before, now, txn.id, reader, read),
        Edit::Resolve(id, _) | Edit::Withdraw(id) => touches(before, now, *id, reader, read),
        Edit::SetUp(_, value) => read == None || read == Some(*value),
    }
}

/// A read of the transaction itself, or one that it touches before or after.
fn touches(before: &OnKey, now: &OnKey, id: TxnId, reader: &Part, read: Option<Value>) -> bool {
    reader.id == id || touches_in(before, id, reader, read) || touches_in(now, id, reader, read)
}

fn touches_in(on: &OnKey, id: TxnId, reader: &Part, read: Option<Value>) -> bool {
    writes_returned(on, id, read) || installs_next(on, id, reader, read)
}

/// The transaction writes the value that the read returned.
fn writes_returned(on: &OnKey, id: TxnId, read: Option<Value>) -> bool {
    let Some(value) = read else {
        return false;
    };
    for part in on.parts.as_slice() {
        if part.id == id && writes(part, value) {
            return true;
        }
    }
    false
}

/// The transaction installs the version next after the one that the read returned.
fn installs_next(on: &OnKey, id: TxnId, reader: &Part, read: Option<Value>) -> bool {
    let source = sight_of(on, reader, 0, read).source;
    let Some(version) = version_of(source) else {
        return false;
    };
    match next_after(on.parts.as_slice(), version) {
        Some(next) => next.txn == id,
        None => false,
    }
}
