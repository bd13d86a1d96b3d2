//! Evidence as text: a line behind its finding.

ghost use Rattle.std.specs.Prelude.{◌≡◌, ◌++◌, OnOk, OnErr};
ghost use Rattle.std.specs.List.{flat_map};
ghost use Rattle.si_text.specs.Printing.{Appends};
ghost use Rattle.si_text.specs.Texts.{edge_text, evidence_text, explanation_text, failure_text, fork_text, keyed_edge_text, knot_text, label_text, next_edge_text, read_from_text, shown_text, two_text};

use crate::appending::{put, put_number, whole_or_none};
use crate::printing::{put_json, put_key};
use si_model::{Edge, Evidence, Key, KeyedEdge, Kind, Label, OutOfMemory, TxnId, evidence_of};
use std::alloc::Global;

/// Appends the line of an evidence. If memory is refused, the bytes are as before.
pub fn print_evidence(
    _alloc: Global,
    out: &mut Vec<u8>,
    evidence: &Evidence,
) -> Result<(), OutOfMemory>
    ensures ok { OnOk result (out.new.items ≡ out.old.items ++ evidence_text evidence.now) }
    ensures err { OnErr result (out.new.items ≡ out.old.items) }
{
    let before = out.len();
    let appended = put_evidence(out, evidence);
    whole_or_none(out, before, appended)
}

/// Appends the line that an evidence fails, by the number of its own line. If memory is refused, the bytes are as before.
pub fn print_failure(_alloc: Global, out: &mut Vec<u8>, line: u64) -> Result<(), OutOfMemory>
    ensures ok { OnOk result (out.new.items ≡ out.old.items ++ failure_text line) }
    ensures err { OnErr result (out.new.items ≡ out.old.items) }
{
    let before = out.len();
    let appended = put_failure(out, line);
    whole_or_none(out, before, appended)
}

fn put_failure(out: &mut Vec<u8>, line: u64) -> Result<(), OutOfMemory>
    ensures { Appends result out.old.items out.new.items (failure_text line) }
{
    put_number(out, "fails line=", line)?;
    put(out, "\n")
}

/// Appends the line of the evidence for a finding of that kind; nothing where it has none.
pub(crate) fn put_explanation(
    alloc: Global,
    out: &mut Vec<u8>,
    kind: Kind,
) -> Result<(), OutOfMemory>
    ensures { Appends result out.old.items out.new.items (explanation_text kind) }
{
    match evidence_of(alloc, kind)? {
        Some(evidence) => put_evidence(out, &evidence),
        None => Ok(()),
    }
}

fn put_evidence(out: &mut Vec<u8>, evidence: &Evidence) -> Result<(), OutOfMemory>
    ensures { Appends result out.old.items out.new.items (evidence_text evidence.now) }
{
    put_shown(out, evidence)?;
    put(out, "\n")
}

pub(crate) fn put_shown(out: &mut Vec<u8>, evidence: &Evidence) -> Result<(), OutOfMemory>
    ensures { Appends result out.old.items out.new.items (shown_text evidence.now) }
{
    match evidence {
        Evidence::AbortedRead { reader, op, writer } => {
            put_read_from(out, "  G1a reader=", *reader, *op, *writer)
        }
        Evidence::IntermediateRead { reader, op, writer } => {
            put_read_from(out, "  G1b reader=", *reader, *op, *writer)
        }
        Evidence::Interference(edge) => {
            put(out, "  G-SI(a)")?;
            put_edge(out, *edge)
        }
        Evidence::Missed(walk) => {
            put(out, "  G-SI(b)")?;
            put_edges(out, walk.as_slice())
        }
        Evidence::Fork { key, first, second } => put_fork(out, key, *first, *second),
        Evidence::Knot(knot) => put_knot(out, knot.as_slice()),
    }
}

/// A read, and the writer of the value that it returned.
fn put_read_from(
    out: &mut Vec<u8>,
    label: &str,
    reader: TxnId,
    op: usize,
    writer: TxnId,
) -> Result<(), OutOfMemory>
    ensures { Appends result out.old.items out.new.items
        (read_from_text label.now reader op writer) }
{
    put_number(out, label, reader.0)?;
    put_number(out, " op=", op as u64)?;
    put_number(out, " writer=", writer.0)
}

fn put_edges(out: &mut Vec<u8>, edges: &[Edge]) -> Result<(), OutOfMemory>
    ensures { Appends result out.old.items out.new.items (flat_map edge_text edges.now) }
{
    for edge in edges {
        put_edge(out, *edge)?;
    }
    Ok(())
}

fn put_edge(out: &mut Vec<u8>, edge: Edge) -> Result<(), OutOfMemory>
    ensures { Appends result out.old.items out.new.items (edge_text edge) }
{
    put_number(out, " ", edge.from.0)?;
    put_number(out, label_of(edge.label), edge.to.0)
}

fn label_of(label: Label) -> &'static str
    ensures { result.now ≡ label_text label }
{
    match label {
        Label::Ww => "-ww->",
        Label::Wr => "-wr->",
        Label::Rw => "-rw->",
        Label::St => "-st->",
    }
}

fn put_fork(out: &mut Vec<u8>, key: &Key, first: TxnId, second: TxnId) -> Result<(), OutOfMemory>
    ensures { Appends result out.old.items out.new.items (fork_text key.now first second) }
{
    put_key(out, "  fork", key)?;
    put_two(out, first, second)
}

/// Two transactions, each behind a space.
fn put_two(out: &mut Vec<u8>, first: TxnId, second: TxnId) -> Result<(), OutOfMemory>
    ensures { Appends result out.old.items out.new.items (two_text first second) }
{
    put_number(out, " ", first.0)?;
    put_number(out, " ", second.0)
}

fn put_knot(out: &mut Vec<u8>, edges: &[KeyedEdge]) -> Result<(), OutOfMemory>
    ensures { Appends result out.old.items out.new.items (knot_text edges.now) }
{
    put(out, "  knot")?;
    match edges {
        [] => Ok(()),
        [first, rest @ ..] => {
            put_keyed_edge(out, first)?;
            put_next_edges(out, rest)
        }
    }
}

fn put_next_edges(out: &mut Vec<u8>, edges: &[KeyedEdge]) -> Result<(), OutOfMemory>
    ensures { Appends result out.old.items out.new.items (flat_map next_edge_text edges.now) }
{
    for edge in edges {
        put_next_edge(out, edge)?;
    }
    Ok(())
}

/// An edge that stands behind others.
fn put_next_edge(out: &mut Vec<u8>, keyed: &KeyedEdge) -> Result<(), OutOfMemory>
    ensures { Appends result out.old.items out.new.items (next_edge_text keyed.now) }
{
    put(out, ",")?;
    put_keyed_edge(out, keyed)
}

fn put_keyed_edge(out: &mut Vec<u8>, keyed: &KeyedEdge) -> Result<(), OutOfMemory>
    ensures { Appends result out.old.items out.new.items (keyed_edge_text keyed.now) }
{
    put_edge(out, keyed.edge)?;
    put(out, " key=")?;
    put_json(out, keyed.key.as_str())
}
