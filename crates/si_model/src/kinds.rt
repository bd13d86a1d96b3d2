//! The kinds of findings, with what each names, and their order.

ghost use Rattle.std.specs.Prelude.{◌≡◌, ◌∷◌, []};
ghost use Rattle.std.proofs.Common.{rules};
ghost use Rattle.std.specs.Cmp.Rules.{comparing};
ghost use Rattle.std.specs.Cmp.Lexicographic.{nat_list_eq_equiv};
ghost use Rattle.si_model.specs.Order.{fields, presence, value_or_zero, kind_cmp, kind_eq};

use crate::{TxnId, Value};
use std::cmp::Ordering;

/// What is wrong with a read, or with two versions. The variants are in the order of their numbers, from 1.
#[derive(Clone, Copy, Debug)]
pub enum Kind {
    /// The initial version doesn't return what was read, and no present transaction writes it.
    Unknown {
        txn: TxnId,
        op: usize,
        read: Option<Value>,
    },
    /// The writer of the value read is in doubt.
    Doubt {
        txn: TxnId,
        op: usize,
        read: Option<Value>,
        writer: TxnId,
    },
    /// The read doesn't return the reader's own last write before it, or (`own` is `None`) returns a later one.
    Own {
        txn: TxnId,
        op: usize,
        read: Option<Value>,
        own: Option<Value>,
    },
    /// The writer of the value read aborted.
    Aborted {
        txn: TxnId,
        op: usize,
        read: Option<Value>,
        writer: TxnId,
    },
    /// The value read isn't its writer's last write of the key.
    Intermediate {
        txn: TxnId,
        op: usize,
        read: Option<Value>,
        writer: TxnId,
    },
    /// The version read was installed after the reader's start.
    Future {
        txn: TxnId,
        op: usize,
        read: Option<Value>,
        writer: TxnId,
    },
    /// A version next after the one read was installed before the reader's start.
    Stale {
        txn: TxnId,
        op: usize,
        read: Option<Value>,
        missed: TxnId,
    },
    /// The second installs the version next after the first's, and started before the first committed.
    Overlap {
        first: TxnId,
        second: TxnId,
    },
}

impl Kind {
    /// All that it says, in the order that findings on one key are in.
    #[tactic(auto, unfolding(crate::specs::Order::fields))]
    pub(crate) fn fields(&self) -> [u64; 7]
        ensures { result ≡ fields self.now }
    {
        match *self {
            Kind::Unknown { txn, op, read } => of_read(1, txn, op, read, 0, 0),
            Kind::Doubt {
                txn,
                op,
                read,
                writer,
            } => of_read(2, txn, op, read, writer.0, 0),
            Kind::Own { txn, op, read, own } => {
                of_read(3, txn, op, read, presence(own), value_or_zero(own))
            }
            Kind::Aborted {
                txn,
                op,
                read,
                writer,
            } => of_read(4, txn, op, read, writer.0, 0),
            Kind::Intermediate {
                txn,
                op,
                read,
                writer,
            } => of_read(5, txn, op, read, writer.0, 0),
            Kind::Future {
                txn,
                op,
                read,
                writer,
            } => of_read(6, txn, op, read, writer.0, 0),
            Kind::Stale {
                txn,
                op,
                read,
                missed,
            } => of_read(7, txn, op, read, missed.0, 0),
            Kind::Overlap { first, second } => [8, first.0, second.0, 0, 0, 0, 0],
        }
    }
}

fn of_read(
    number: u64,
    txn: TxnId,
    op: usize,
    read: Option<Value>,
    first: u64,
    second: u64,
) -> [u64; 7]
    ensures { result ≡ number ∷ txn.0 ∷ op ∷ presence read ∷ value_or_zero read ∷ first ∷ second ∷ [] }
{
    [
        number,
        txn.0,
        op as u64,
        presence(read),
        value_or_zero(read),
        first,
        second,
    ]
}

/// 1 for a value, and 0 for none.
fn presence(value: Option<Value>) -> u64
    ensures { result ≡ presence value }
{
    match value {
        None => 0,
        Some(_) => 1,
    }
}

fn value_or_zero(value: Option<Value>) -> u64
    ensures { result ≡ value_or_zero value }
{
    match value {
        None => 0,
        Some(value) => value.0,
    }
}

impl PartialEq for Kind {
    ghost eq = { kind_eq };

    ghost laws = { Prim.search (comparing, rules) };

    fn eq(&self, other: &Self) -> bool {
        self.fields() == other.fields()
    }
}

impl Eq for Kind {
    ghost laws = { Prim.search (comparing, rules) };
}

/// Kinds are in the order of their numbers, then of the first transaction, then of the operation or the second transaction.
impl Ord for Kind {
    ghost cmp = { kind_cmp };

    ghost total = { Prim.search (comparing, rules) };

    ghost matches_partial_cmp = { Prim.search (comparing, rules) };

    ghost matches_eq = { Prim.search (comparing, rules) };

    fn cmp(&self, other: &Self) -> Ordering {
        self.fields().cmp(&other.fields())
    }
}

impl PartialOrd for Kind {
    ghost use Rattle.std.specs.Cmp.{partial_order_from_own_ties};
    ghost use Rattle.std.specs.Ordering.{as_partial_cmp};

    ghost partial_cmp = { as_partial_cmp kind_cmp };

    ghost laws = { partial_order_from_own_ties (Prim.search (comparing, rules)) (Prim.search (comparing, rules)) };

    fn partial_cmp(&self, other: &Self) -> Option<Ordering> {
        Some(self.cmp(other))
    }
}
