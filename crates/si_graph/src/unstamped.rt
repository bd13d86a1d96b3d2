//! Whether two transactions are a fork, and edges a knot, found by walking operations. No stamp is looked at.

ghost use Rattle.std.specs.Prelude.{◌≡◌};
ghost use Rattle.std.specs.List.{list_all};
ghost use Rattle.si_model.specs.Parts.{Present};
ghost use Rattle.si_graph.specs.Unstamped.{edges_of};
ghost use Rattle.si_graph.specs.EvidenceTests.{is_closed, is_walk, is_write_of, write_key, read_first, read_alike, is_overwritten, are_forked, reads_some_first, is_by_value, are_joined, is_value_edge, is_no_rw_pair, are_spaced, has_no_rw_pair, is_fork, is_knot};

use crate::checks::is_rw_edge;
use crate::keys::{is_committed, last_on};
use crate::{Edge, Label, Lookup};
use si_model::{Key, KeyedEdge, Op, Txn, TxnId, Value};

// ---- forks

/// Whether the two are a fork on the key.
pub fn is_fork<L: Lookup>(lookup: &L, key: &Key, first: TxnId, second: TxnId) -> bool
    ensures { result ≡ is_fork (L.present lookup.now) key.now first second }
{
    first != second
        && match (lookup.find(first), lookup.find(second)) {
            (Some(first), Some(second)) => are_forked(key, first, second),
            _ => false,
        }
}

fn are_forked(key: &Key, first: &Txn, second: &Txn) -> bool
    ensures { result ≡ are_forked key.now first.now second.now }
{
    is_committed(first)
        && is_committed(second)
        && write_key(key, first.ops.as_slice())
        && is_overwritten(key, first, second)
}

/// Whether the other overwrote what the reader read of the key.
fn is_overwritten(key: &Key, reader: &Txn, other: &Txn) -> bool
    ensures { result ≡ is_overwritten key.now reader.now other.now }
{
    write_key(key, other.ops.as_slice())
        && read_alike(key, reader.ops.as_slice(), other.ops.as_slice())
}

fn write_key(key: &Key, ops: &[Op]) -> bool
    ensures { result ≡ write_key key.now ops.now }
{
    ops.iter().any(|op| is_write_of(key, op))
}

fn is_write_of(key: &Key, op: &Op) -> bool
    ensures { result ≡ is_write_of key.now op.now }
{
    match op {
        Op::Read(..) => false,
        Op::Write(written, _) => written == key,
    }
}

/// Whether the operations read the key before they write it, and that returned this.
fn read_first(key: &Key, value: Option<Value>, ops: &[Op]) -> bool
    ensures { result ≡ read_first key.now value ops.now }
{
    for op in ops {
        match op {
            Op::Read(read, returned) => {
                if read == key && *returned == value {
                    return true;
                }
            }
            Op::Write(written, _) => {
                if written == key {
                    return false;
                }
            }
        }
    }
    false
}

/// Whether the ones read of the key, before they write it, what the others so read too.
fn read_alike(key: &Key, ops: &[Op], others: &[Op]) -> bool
    ensures { result ≡ read_alike key.now ops.now others.now }
{
    for op in ops {
        match op {
            Op::Read(read, returned) => {
                if read == key && read_first(key, *returned, others) {
                    return true;
                }
            }
            Op::Write(written, _) => {
                if written == key {
                    return false;
                }
            }
        }
    }
    false
}

// ---- knots

/// Whether the edges are a knot.
pub fn is_knot<L: Lookup>(lookup: &L, edges: &[KeyedEdge]) -> bool
    ensures { result ≡ is_knot (L.present lookup.now) edges.now }
{
    is_circle(edges) && has_no_rw_pair(edges) && are_value_edges(lookup, edges)
}

fn are_value_edges<L: Lookup>(lookup: &L, edges: &[KeyedEdge]) -> bool
    ensures { result ≡ list_all (is_value_edge (L.present lookup.now)) edges.now }
{
    edges.iter().all(|edge| is_value_edge(lookup, edge))
}

fn is_value_edge<L: Lookup>(lookup: &L, keyed: &KeyedEdge) -> bool
    ensures { result ≡ is_value_edge (L.present lookup.now) keyed.now }
{
    let edge = keyed.edge;
    edge.from != edge.to
        && match (lookup.find(edge.from), lookup.find(edge.to)) {
            (Some(from), Some(to)) => are_joined(keyed, from, to),
            _ => false,
        }
}

fn are_joined(keyed: &KeyedEdge, from: &Txn, to: &Txn) -> bool
    ensures { result ≡ are_joined keyed.now from.now to.now }
{
    is_committed(from) && is_committed(to) && is_by_value(keyed.edge.label, &keyed.key, from, to)
}

fn is_by_value(label: Label, key: &Key, from: &Txn, to: &Txn) -> bool
    ensures { result ≡ is_by_value label key.now from.now to.now }
{
    match label {
        Label::Wr => reads_some_first(key, last_on(key, from), to),
        Label::Rw => is_overwritten(key, from, to),
        Label::Ww | Label::St => false,
    }
}

/// Whether the transaction read that value of the key, if there is one, before it wrote the key.
fn reads_some_first(key: &Key, value: Option<Value>, txn: &Txn) -> bool
    ensures { result ≡ reads_some_first key.now value txn.now }
{
    match value {
        None => false,
        Some(value) => read_first(key, Some(value), txn.ops.as_slice()),
    }
}

/// Whether the edges are a closed walk.
fn is_circle(edges: &[KeyedEdge]) -> bool
    ensures { result ≡ is_closed (edges_of edges.now) }
{
    match edges {
        [] => false,
        [first, rest @ ..] => is_path(first.edge.to, rest, first.edge.from),
    }
}

/// Whether the edges are a walk between the two.
fn is_path(from: TxnId, edges: &[KeyedEdge], to: TxnId) -> bool
    ensures { result ≡ is_walk from (edges_of edges.now) to }
{
    let mut at = from;
    for keyed in edges {
        if keyed.edge.from != at {
            return false;
        }
        at = keyed.edge.to;
    }
    at == to
}

/// Whether no two neighbours of the closed walk are rw edges.
fn has_no_rw_pair(edges: &[KeyedEdge]) -> bool
    ensures { result ≡ has_no_rw_pair (edges_of edges.now) }
{
    match edges {
        [] => true,
        [first, rest @ ..] => are_spaced(first.edge, rest),
    }
}

/// Whether no two neighbours are from the first edge on, up to it again.
fn are_spaced(first: Edge, edges: &[KeyedEdge]) -> bool
    ensures { result ≡ are_spaced first first (edges_of edges.now) }
{
    let mut before = first;
    for keyed in edges {
        if !is_no_rw_pair(before, keyed.edge) {
            return false;
        }
        before = keyed.edge;
    }
    is_no_rw_pair(before, first)
}

fn is_no_rw_pair(edge: Edge, next: Edge) -> bool
    ensures { result ≡ is_no_rw_pair edge next }
{
    !(is_rw_edge(&edge) && is_rw_edge(&next))
}
