//! Whether an edge is of the graph, found by walking operations.

ghost use Rattle.std.specs.Prelude.{◌≡◌};
ghost use Rattle.std.specs.List.{list_any};
ghost use Rattle.std.specs.Option.{option_copied};
ghost use Rattle.si_model.specs.Parts.{Present};
ghost use Rattle.si_graph.specs.EvidenceTests.{write_depends_at, write_depends_on, reads_last_of, precedes, one_precedes, initial_precedes, reads_before, is_before, connects, is_edge};

use crate::keys::{install_on, is_committed, is_last_on};
use crate::versions::{are_neighbours, follows};
use crate::{Edge, Label, Lookup};
use si_model::{Installer, Key, Op, Stamp, Txn, Value, VersionId};

/// Whether the edge is of the graph.
pub fn is_edge<L: Lookup>(lookup: &L, edge: Edge) -> bool
    ensures { result ≡ is_edge (L.present lookup.now) edge }
{
    if edge.from == edge.to {
        return false;
    }
    match (lookup.find(edge.from), lookup.find(edge.to)) {
        (Some(from), Some(to)) => connects(lookup, edge.label, from, to),
        _ => false,
    }
}

fn connects<L: Lookup>(lookup: &L, label: Label, from: &Txn, to: &Txn) -> bool
    ensures { result ≡ connects (L.present lookup.now) label from.now to.now }
{
    match label {
        Label::Ww => write_depends(lookup, from, to),
        Label::Wr => is_committed(from) && is_committed(to) && reads_last(from, to),
        Label::Rw => is_committed(from) && anti_depends(lookup, from, to),
        Label::St => is_before(from.status.commit(), to.start) && is_committed(to),
    }
}

fn write_depends<L: Lookup>(lookup: &L, from: &Txn, to: &Txn) -> bool
    ensures { result ≡ list_any (write_depends_at (L.present lookup.now).txns from.now to.now) from.now.ops }
{
    from.ops
        .as_slice()
        .iter()
        .any(|op| write_depends_on(lookup, from, to, op.key()))
}

fn write_depends_on<L: Lookup>(lookup: &L, from: &Txn, to: &Txn, key: &Key) -> bool
    ensures { result ≡ write_depends_on (L.present lookup.now).txns from.now to.now key.now }
{
    are_neighbours(lookup, key, install_on(key, from), install_on(key, to))
}

/// Whether one reads what the other wrote last to a key.
fn reads_last(from: &Txn, to: &Txn) -> bool
    ensures { result ≡ list_any (reads_last_of from.now) to.now.ops }
{
    to.ops.as_slice().iter().any(|op| reads_last_of(from, op))
}

fn reads_last_of(from: &Txn, op: &Op) -> bool
    ensures { result ≡ reads_last_of from.now op.now }
{
    match op {
        Op::Read(key, Some(value)) => is_last_on(key, *value, from),
        Op::Read(_, None) | Op::Write(..) => false,
    }
}

fn anti_depends<L: Lookup>(lookup: &L, from: &Txn, to: &Txn) -> bool
    ensures { result
        ≡ list_any (reads_before (L.present lookup.now) to.now) from.now.ops }
{
    from.ops
        .as_slice()
        .iter()
        .any(|op| reads_before(lookup, to, op))
}

/// Whether the operation read the version before the one that the other installs.
fn reads_before<L: Lookup>(lookup: &L, to: &Txn, op: &Op) -> bool
    ensures { result ≡ reads_before (L.present lookup.now) to.now op.now }
{
    match op {
        Op::Read(key, read) => {
            let next = install_on(key, to);
            initial_precedes(lookup, key, *read, next) || one_precedes(lookup, key, *read, next)
        }
        Op::Write(..) => false,
    }
}

/// Whether the initial version returns what was read, and the next version is the other's.
fn initial_precedes<L: Lookup>(
    lookup: &L,
    key: &Key,
    read: Option<Value>,
    next: Option<Installer>,
) -> bool
    ensures { result
        ≡ initial_precedes (L.present lookup.now) key.now read next }
{
    read == lookup.set_up(key) && follows(lookup, key, VersionId::Initial, next)
}

/// Whether a transaction installs what was read, and the next version is the other's.
fn one_precedes<L: Lookup>(
    lookup: &L,
    key: &Key,
    read: Option<Value>,
    next: Option<Installer>,
) -> bool
    ensures { result ≡ one_precedes (L.present lookup.now).txns key.now read next }
{
    match read {
        None => false,
        Some(value) => precedes(lookup, key, lookup.installer_of(key, value), next),
    }
}

/// Whether there is a transaction, and the version next after the one that it installs is this one.
fn precedes<L: Lookup>(lookup: &L, key: &Key, txn: Option<&Txn>, next: Option<Installer>) -> bool
    ensures { result ≡ precedes (L.present lookup.now).txns key.now (option_copied txn.entry) next }
{
    match txn {
        None => false,
        Some(txn) => are_neighbours(lookup, key, install_on(key, txn), next),
    }
}

fn is_before(commit: Option<Stamp>, start: Stamp) -> bool
    ensures { result ≡ is_before commit start }
{
    match commit {
        None => false,
        Some(commit) => commit < start,
    }
}
