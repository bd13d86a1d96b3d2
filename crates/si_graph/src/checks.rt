//! Whether an evidence holds, with no memory: by walking transactions and operations, or by what else finds the transactions.

ghost use Rattle.std.specs.Prelude.{◌≡◌, ◌↔◌, IsTrue};
ghost use Rattle.std.specs.List.{list_all, count_by};
ghost use Rattle.si_model.specs.Parts.{Present};
ghost use Rattle.si_model.specs.History.{IsHistory};
ghost use Rattle.si_graph.specs.Shown.{Shows};
ghost use Rattle.si_graph.specs.EvidenceTests.{is_edge, is_aborted, reads_write_of, reads_intermediate_of, is_aborted_read, is_intermediate_read, is_interference, commits_late, is_not_before, is_dependency, is_walk, is_closed, are_missed, holds};
ghost use Rattle.si_graph.specs.Walks.{is_rw_edge};

use crate::dependencies::is_edge;
use crate::keys::{is_committed, is_last_on};
use crate::laws::model_laws;
use crate::unstamped::{is_fork, is_knot};
use crate::{Edge, Evidence, Label, Lookup};
use si_model::holders::writes_pair;
use si_model::plain::Walked;
use si_model::{Key, Op, Stamp, Status, Txn, TxnId, Value};

/// Whether the evidence holds of these transactions and set-up values. A yes means that the phenomenon is there.
///
/// It takes no memory. For each edge it walks all transactions, and for ww and rw edges it does so for each operation of its ends.
pub fn check_evidence(txns: &[Txn], initial: &[(Key, Value)], evidence: &Evidence) -> bool
    requires { IsHistory (record { txns = txns.now; initial = initial.now }) }
    ensures { IsTrue result ↔ Shows (record { txns = txns.now; initial = initial.now }) evidence.now }
{
    model_laws();
    holds(&Walked { txns, initial }, evidence)
}

/// Whether the evidence holds of what is present, found by that: the same answer as that of [`check_evidence`].
pub fn check_evidence_by<L: Lookup>(lookup: &L, evidence: &Evidence) -> bool
    requires { IsHistory (L.present lookup.now) }
    ensures { IsTrue result ↔ Shows (L.present lookup.now) evidence.now }
{
    model_laws();
    holds(lookup, evidence)
}

fn holds<L: Lookup>(lookup: &L, evidence: &Evidence) -> bool
    ensures { result ≡ holds (L.present lookup.now) evidence.now }
{
    match evidence {
        Evidence::AbortedRead { reader, op, writer } => {
            match (lookup.find(*reader), lookup.find(*writer)) {
                (Some(reader), Some(writer)) => is_aborted_read(*op, reader, writer),
                _ => false,
            }
        }
        Evidence::IntermediateRead { reader, op, writer } => {
            match (lookup.find(*reader), lookup.find(*writer)) {
                (Some(reader), Some(writer)) => is_intermediate_read(*op, reader, writer),
                _ => false,
            }
        }
        Evidence::Interference(edge) => is_interference(lookup, *edge),
        Evidence::Missed(walk) => are_missed(lookup, walk.as_slice()),
        Evidence::Fork { key, first, second } => is_fork(lookup, key, *first, *second),
        Evidence::Knot(knot) => is_knot(lookup, knot.as_slice()),
    }
}

fn is_aborted_read(op: usize, reader: &Txn, writer: &Txn) -> bool
    ensures { result ≡ is_aborted_read op reader.now writer.now }
{
    is_committed(reader)
        && is_aborted(writer.status)
        && match reader.ops.as_slice().get(op) {
            None => false,
            Some(op) => reads_write_of(writer, op),
        }
}

fn is_intermediate_read(op: usize, reader: &Txn, writer: &Txn) -> bool
    ensures { result ≡ is_intermediate_read op reader.now writer.now }
{
    is_committed(reader)
        && writer.id != reader.id
        && match reader.ops.as_slice().get(op) {
            None => false,
            Some(op) => reads_intermediate_of(writer, op),
        }
}

fn is_aborted(status: Status) -> bool
    ensures { result ≡ is_aborted status }
{
    match status {
        Status::Aborted => true,
        Status::Committed(_) | Status::InDoubt => false,
    }
}

/// Whether the operation reads a value that the writer wrote.
fn reads_write_of(writer: &Txn, op: &Op) -> bool
    ensures { result ≡ reads_write_of writer.now op.now }
{
    match op {
        Op::Read(key, Some(value)) => writes_pair(writer, key, *value),
        Op::Read(_, None) | Op::Write(..) => false,
    }
}

/// Whether the operation reads a value that the writer replaced itself later.
fn reads_intermediate_of(writer: &Txn, op: &Op) -> bool
    ensures { result ≡ reads_intermediate_of writer.now op.now }
{
    match op {
        Op::Read(key, Some(value)) => {
            writes_pair(writer, key, *value) && !is_last_on(key, *value, writer)
        }
        Op::Read(_, None) | Op::Write(..) => false,
    }
}

fn is_interference<L: Lookup>(lookup: &L, edge: Edge) -> bool
    ensures { result ≡ is_interference (L.present lookup.now) edge }
{
    is_dependency(edge.label)
        && is_edge(lookup, edge)
        && match (lookup.find(edge.from), lookup.find(edge.to)) {
            (Some(from), Some(to)) => commits_late(from, to),
            _ => false,
        }
}

fn is_dependency(label: Label) -> bool
    ensures { result ≡ is_dependency label }
{
    match label {
        Label::Ww | Label::Wr => true,
        Label::Rw | Label::St => false,
    }
}

fn commits_late(from: &Txn, to: &Txn) -> bool
    ensures { result ≡ commits_late from.now to.now }
{
    is_not_before(from.status.commit(), to.start) && is_committed(to)
}

fn is_not_before(commit: Option<Stamp>, start: Stamp) -> bool
    ensures { result ≡ is_not_before commit start }
{
    match commit {
        None => false,
        Some(commit) => commit >= start,
    }
}

fn are_missed<L: Lookup>(lookup: &L, edges: &[Edge]) -> bool
    ensures { result ≡ are_missed (L.present lookup.now) edges.now }
{
    is_closed(edges) && count_of_rw(edges) == 1 && are_edges(lookup, edges)
}

fn count_of_rw(edges: &[Edge]) -> usize
    ensures { result ≡ count_by is_rw_edge edges.now }
{
    edges.iter().filter(|edge| is_rw_edge(edge)).count()
}

fn are_edges<L: Lookup>(lookup: &L, edges: &[Edge]) -> bool
    ensures { result ≡ list_all (is_edge (L.present lookup.now)) edges.now }
{
    edges.iter().all(|edge| is_edge(lookup, *edge))
}

pub fn is_rw_edge(edge: &Edge) -> bool
    ensures { result ≡ is_rw_edge edge.now }
{
    match edge.label {
        Label::Rw => true,
        Label::Ww | Label::Wr | Label::St => false,
    }
}

fn is_closed(edges: &[Edge]) -> bool
    ensures { result ≡ is_closed edges.now }
{
    match edges {
        [] => false,
        [first, rest @ ..] => is_walk(first.to, rest, first.from),
    }
}

/// Whether the edges are a walk between the two.
fn is_walk(from: TxnId, edges: &[Edge], to: TxnId) -> bool
    ensures { result ≡ is_walk from edges.now to }
{
    let mut at = from;
    for edge in edges {
        if edge.from != at {
            return false;
        }
        at = edge.to;
    }
    at == to
}
