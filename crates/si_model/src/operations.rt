//! Operations, and the list of a transaction's, whose copies share it.

ghost use Rattle.std.specs.Prelude.{◌≡◌, ◌≤◌, IfOk, length};
ghost use Rattle.std.specs.List.{list_any};
ghost use Rattle.si_model.specs.Operations.{key_of, access_of, is_write, same_write};

use crate::{Access, Key, OutOfMemory, Value};
use std::fmt;
use std::marker::Model;
use std::sync::ArcSlice;

/// The most operations that a transaction may have.
pub const MOST_OPS: usize = 4096;

/// What a transaction does at one place.
#[derive(Debug, PartialEq, Eq, Drop)]
pub enum Op {
    /// A read of a key, and what it returned: `None` for `null`.
    Read(Key, Option<Value>),
    /// A write of a value to a key.
    Write(Key, Value),
}

impl Op {
    /// The key that it reads or writes.
    pub fn key(&self) -> &Key
        ensures { result.now ≡ key_of self.now }
    {
        match self {
            Op::Read(key, _) | Op::Write(key, _) => key,
        }
    }

    /// Whether it is a write.
    pub fn is_write(&self) -> bool
        ensures { result ≡ is_write self.now }
    {
        match self {
            Op::Read(..) => false,
            Op::Write(..) => true,
        }
    }

    /// Whether both write the same value to the same key.
    pub fn writes_same(&self, other: &Op) -> bool
        ensures { result ≡ same_write self.now other.now }
    {
        match (self, other) {
            (Op::Write(key, value), Op::Write(other_key, other_value)) => {
                value == other_value && key == other_key
            }
            _ => false,
        }
    }

    /// The same operation, which shares its key's text.
    pub fn try_clone(&self) -> Result<Self, OutOfMemory>
        ensures { IfOk result (λ op. op ≡ self.now) }
    {
        Ok(match self {
            Op::Read(key, read) => Op::Read(key.try_clone()?, *read),
            Op::Write(key, value) => Op::Write(key.try_clone()?, *value),
        })
    }

    /// What it does to its key.
    pub fn access(&self) -> Access
        ensures { result ≡ access_of self.now }
    {
        match self {
            Op::Read(_, read) => Access::Read(*read),
            Op::Write(_, value) => Access::Write(*value),
        }
    }
}

/// The operations of a transaction in their order, at most 4,096. Contracts see the list.
///
/// Copies share the list, so that a copy costs a few words.
#[derive(Drop)]
pub struct Ops {
    items: ArcSlice<Op>,
    // Whether one of them is a write.
    writes: bool,
}

impl Model for Ops {
    ghost use Rattle.std.specs.Prelude.{◌≡◌, List, length, ◌≤◌};
    ghost use Rattle.std.specs.List.{list_any};
    ghost use Rattle.std.specs.Arc.{arc_slice_items};
    ghost use Rattle.si_model.specs.declared.operations.Op.{Op};
    ghost use Rattle.si_model.specs.declared.operations.TheConstants.{MOST_OPS};
    ghost use Rattle.si_model.specs.Operations.{is_write};

    ghost Value = { List Op };

    ghost view = { λ o. arc_slice_items o.items };

    ghost invariant = { λ o. (length (arc_slice_items o.items) ≤ MOST_OPS) × (o.writes ≡ list_any is_write (arc_slice_items o.items)) };
}

impl Ops {
    /// These operations, which aren't copied.
    pub fn from_vec(items: Vec<Op>) -> Result<Self, OutOfMemory>
        requires { length items.items ≤ MOST_OPS }
        ensures { IfOk result (λ ops. ops ≡ items.items) }
    {
        let writes = any_writes(&items);
        Ok(Ops {
            items: ArcSlice::from_vec(items)?,
            writes,
        })
    }

    /// Another owner of the same list.
    pub fn try_clone(&self) -> Result<Self, OutOfMemory>
        ensures { IfOk result (λ ops. ops ≡ self.now) }
    {
        Ok(Ops {
            items: self.items.clone()?,
            writes: self.writes,
        })
    }

    /// The operations, in the order of the transaction.
    pub fn as_slice(&self) -> &[Op]
        ensures items { result.now ≡ self.now }
        ensures within { length result.now ≤ MOST_OPS }
    {
        self.items.as_slice()
    }

    /// Whether one of them is a write. It was looked for when the list was made.
    pub fn has_write(&self) -> bool
        ensures { result ≡ list_any is_write self.now }
    {
        self.writes
    }
}

fn any_writes(ops: &[Op]) -> bool
    ensures { result ≡ list_any is_write ops.now }
{
    ops.iter().any(|op| op.is_write())
}

impl PartialEq for Ops {
    ghost use Rattle.std.specs.Cmp.Lexicographic.{pointwise, lists_per};
    ghost use Rattle.si_model.specs.contracts.operations.OpPartialEq.TheImpl.Laws as of_op;

    ghost eq = { pointwise (⟦<Op as PartialEq>⟧.eq) };

    ghost laws = { lists_per of_op.laws-law };

    fn eq(&self, other: &Self) -> bool {
        self.items == other.items
    }
}

impl fmt::Debug for Ops {
    fn fmt<W: fmt::Write>(&self, f: &mut fmt::Formatter<W>) -> fmt::Result {
        fmt::Debug::fmt(&self.items, f)
    }
}
