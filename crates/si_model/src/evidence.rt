//! What stands for a phenomenon: edges of the start-ordered serialization graph, walks of them, and evidence; and what no stamps mend,
//! forks and knots. Its meaning stands in `si_graph`; the types stand here, so that texts need no graph.

ghost use Rattle.std.specs.Prelude.{◌≡◌, IfOk};
ghost use Rattle.si_model.specs.Evidence.{edge, missed_walk, evidence_of};

use crate::{Key, Kind, OutOfMemory, TxnId};
use std::alloc::Global;
use std::marker::Model;

/// What an edge stands for.
#[derive(Clone, Copy, Debug, PartialEq, Eq)]
pub enum Label {
    /// A write dependency: the second transaction installs the version next after one of the first's.
    Ww,
    /// A read dependency: the second transaction read a version of the first's.
    Wr,
    /// An anti-dependency: the second transaction installs the version next after one that the first read.
    Rw,
    /// A start dependency: the first transaction commits before the second starts.
    St,
}

/// An edge from one transaction to another.
#[derive(Clone, Copy, Debug, PartialEq, Eq)]
pub struct Edge {
    pub from: TxnId,
    pub to: TxnId,
    pub label: Label,
}

/// Edges in their order. Contracts see the list.
#[derive(Debug, Drop)]
pub struct Walk {
    edges: Vec<Edge>,
}

impl Model for Walk {
    ghost use Rattle.std.specs.Prelude.{List};
    ghost use Rattle.si_model.specs.declared.evidence.Edge.{Edge};

    ghost Value = { List Edge };

    ghost view = { λ w. w.edges.items };
}

impl Walk {
    /// These edges, which aren't copied.
    pub fn from_vec(edges: Vec<Edge>) -> Self
        ensures { result ≡ edges.items }
    {
        Walk { edges }
    }

    /// The edges, each of which begins where the one before it ends, if it is a walk.
    pub fn as_slice(&self) -> &[Edge]
        ensures { result.now ≡ self.now }
    {
        self.edges.as_slice()
    }
}

impl PartialEq for Walk {
    ghost use Rattle.std.specs.Cmp.Lexicographic.{pointwise, lists_per};
    ghost use Rattle.si_model.specs.contracts.evidence.EdgePartialEq.TheImpl.Laws as of_edge;

    ghost eq = { pointwise (⟦<Edge as PartialEq>⟧.eq) };

    ghost laws = { lists_per of_edge.laws-law };

    fn eq(&self, other: &Self) -> bool {
        self.edges == other.edges
    }
}

/// An edge that is there by what was read and written to the key.
#[derive(Debug, PartialEq, Drop)]
pub struct KeyedEdge {
    pub edge: Edge,
    pub key: Key,
}

/// Edges with their keys, in their order. Contracts see the list.
#[derive(Debug, Drop)]
pub struct Knot {
    edges: Vec<KeyedEdge>,
}

impl Model for Knot {
    ghost use Rattle.std.specs.Prelude.{List};
    ghost use Rattle.si_model.specs.declared.evidence.KeyedEdge.{KeyedEdge};

    ghost Value = { List KeyedEdge };

    ghost view = { λ k. k.edges.items };
}

impl Knot {
    /// These edges, which aren't copied.
    pub fn from_vec(edges: Vec<KeyedEdge>) -> Self
        ensures { result ≡ edges.items }
    {
        Knot { edges }
    }

    /// The edges, each of which begins where the one before it ends, if it is a knot.
    pub fn as_slice(&self) -> &[KeyedEdge]
        ensures { result.now ≡ self.now }
    {
        self.edges.as_slice()
    }
}

impl PartialEq for Knot {
    ghost use Rattle.std.specs.Cmp.Lexicographic.{pointwise, lists_per};
    ghost use Rattle.si_model.specs.contracts.evidence.KeyedEdgePartialEq.TheImpl.Laws as of_edge;

    ghost eq = { pointwise (⟦<KeyedEdge as PartialEq>⟧.eq) };

    ghost laws = { lists_per of_edge.laws-law };

    fn eq(&self, other: &Self) -> bool {
        self.edges == other.edges
    }
}

/// What shows that a phenomenon is there, or that no stamps make the history clean.
#[derive(Debug, PartialEq, Drop)]
pub enum Evidence {
    /// The reader's operation read a value that the writer wrote, which aborted: G1a.
    AbortedRead {
        reader: TxnId,
        op: usize,
        writer: TxnId,
    },
    /// The reader's operation read a value that isn't the writer's last write of the key: G1b.
    IntermediateRead {
        reader: TxnId,
        op: usize,
        writer: TxnId,
    },
    /// A ww or wr edge with no start edge beside it: G-SI(a).
    Interference(Edge),
    /// A closed walk with exactly one rw edge: G-SI(b).
    Missed(Walk),
    /// Two committed transactions each read one and the same version of the key before they wrote it.
    Fork {
        key: Key,
        first: TxnId,
        second: TxnId,
    },
    /// A closed walk of edges that are there by what was read and written, in which no two rw edges stand side by side.
    Knot(Knot),
}

/// The evidence for a finding of that kind. None stands for a finding of form, and a fork or a knot for none.
///
/// It looks at no history, so that who has the findings needn't have them computed again.
pub fn evidence_of(alloc: Global, kind: Kind) -> Result<Option<Evidence>, OutOfMemory>
    ensures { IfOk result (λ evidence. evidence ≡ evidence_of kind) }
{
    Ok(match kind {
        Kind::Unknown { .. } | Kind::Doubt { .. } | Kind::Own { .. } => None,
        Kind::Aborted {
            txn: reader,
            op,
            writer,
            ..
        } => Some(Evidence::AbortedRead { reader, op, writer }),
        Kind::Intermediate {
            txn: reader,
            op,
            writer,
            ..
        } => Some(Evidence::IntermediateRead { reader, op, writer }),
        Kind::Future { txn, writer, .. } => {
            Some(Evidence::Interference(labelled(Label::Wr, writer, txn)))
        }
        Kind::Stale { txn, missed, .. } => Some(Evidence::Missed(missed_walk(alloc, txn, missed)?)),
        Kind::Overlap { first, second } => {
            Some(Evidence::Interference(labelled(Label::Ww, first, second)))
        }
    })
}

/// The walk from a reader to the installer of the version that it missed, and back.
fn missed_walk(alloc: Global, reader: TxnId, missed: TxnId) -> Result<Walk, OutOfMemory>
    ensures { IfOk result (λ walk. walk ≡ missed_walk reader missed) }
{
    let mut edges = Vec::new(alloc);
    edges.push(labelled(Label::Rw, reader, missed))?;
    edges.push(labelled(Label::St, missed, reader))?;
    Ok(Walk::from_vec(edges))
}

fn labelled(label: Label, from: TxnId, to: TxnId) -> Edge
    ensures { result ≡ edge label from to }
{
    Edge { from, to, label }
}
