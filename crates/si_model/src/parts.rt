//! What is on one key: the accesses of each transaction there, and the value that it was set up with.

ghost use Rattle.std.specs.Prelude.{◌≡◌, ◌++◌, ◌∷◌, [], List, IfOk, OnOk, OnErr};
ghost use Rattle.std.specs.Option.{option_copied};
ghost use Rattle.std.specs.List.{find};
ghost use Rattle.si_model.specs.Operations.{same_key};
ghost use Rattle.si_model.specs.Parts.{Present, accesses, part, parts, set_up_value, on_key};
ghost use Rattle.si_model.specs.Versions.{written, is_write_of};

use crate::{Key, Op, OutOfMemory, Stamp, Status, Txn, TxnId, Value};
use smallvec::SmallVec;
use std::alloc::Global;
use std::marker::Model;

/// What a transaction does to one key at one place.
#[derive(Clone, Copy, Debug, PartialEq, Eq)]
pub enum Access {
    /// A read, and what it returned: `None` for `null`.
    Read(Option<Value>),
    Write(Value),
}

impl Access {
    /// The value that is written, if it is a write.
    pub fn written(self) -> Option<Value>
        ensures { result ≡ written self }
    {
        match self {
            Access::Read(_) => None,
            Access::Write(value) => Some(value),
        }
    }

    /// Whether it writes that value.
    pub fn is_write_of(self, value: Value) -> bool
        ensures { result ≡ is_write_of value self }
    {
        match self {
            Access::Read(_) => false,
            Access::Write(other) => other == value,
        }
    }
}

/// An access with the place of its operation in the transaction, counted from 0.
#[derive(Clone, Copy, Debug, PartialEq, Eq)]
pub struct Placed {
    pub place: usize,
    pub access: Access,
}

/// A read of `null` at the place 0, which fills a place that isn't used.
impl Default for Placed {
    ghost use Rattle.std.specs.Prelude.{◌≡◌, None};
    ghost use Rattle.si_model.specs.declared.parts.Access.TheVariants as access;

    ghost is_default = { λ p. p ≡ record { place = 0; access = access.Read None } };

    fn default() -> Self {
        Placed {
            place: 0,
            access: Access::Read(None),
        }
    }
}

/// The accesses of one key by one transaction. Contracts see the list.
///
/// Most transactions access a key once, and one access stands in the value itself, with no memory of its own.
#[derive(Debug, Drop)]
pub struct Accesses {
    items: SmallVec<Placed, 1>,
}

impl Model for Accesses {
    ghost use Rattle.std.specs.Prelude.{List};
    ghost use Rattle.si_model.specs.declared.parts.Placed.{Placed};

    ghost Value = { List Placed };

    ghost view = { λ a. a.items.items };
}

impl Accesses {
    /// No access. It takes no memory.
    pub fn new(alloc: Global) -> Self
        ensures { result ≡ [] }
    {
        Accesses {
            items: SmallVec::new(alloc),
        }
    }

    /// One more access, which comes last.
    ///
    /// If memory is refused, nothing changes.
    pub fn push(&mut self, placed: Placed) -> Result<(), OutOfMemory>
        ensures ok { OnOk result (self.new ≡ self.old ++ placed ∷ []) }
        ensures err { OnErr result (self.new ≡ self.old) }
    {
        self.items.push(placed)?;
        Ok(())
    }

    /// The accesses, in the order of the transaction.
    pub fn as_slice(&self) -> &[Placed]
        ensures { result.now ≡ self.now }
    {
        self.items.as_slice()
    }
}

/// What one transaction does on one key: its accesses of that key, in their order.
#[derive(Debug, Drop)]
pub struct Part {
    pub id: TxnId,
    pub start: Stamp,
    pub status: Status,
    pub accesses: Accesses,
}

/// What the present transactions do on one key. Contracts see the list.
#[derive(Debug, Drop)]
pub struct Parts {
    items: Vec<Part>,
}

impl Model for Parts {
    ghost use Rattle.std.specs.Prelude.{List};
    ghost use Rattle.si_model.specs.declared.parts.Part.{Part};

    ghost Value = { List Part };

    ghost view = { λ p. p.items.items };
}

impl Parts {
    /// These parts, which aren't copied.
    pub fn from_vec(items: Vec<Part>) -> Self
        ensures { result ≡ items.items }
    {
        Parts { items }
    }

    /// The parts, in their order.
    pub fn as_slice(&self) -> &[Part]
        ensures { result.now ≡ self.now }
    {
        self.items.as_slice()
    }
}

/// What is present on one key.
#[derive(Debug, Drop)]
pub struct OnKey {
    /// What the initial version returns: the value that the key was set up with, or `None` for `null`.
    pub initial: Option<Value>,
    /// What the present transactions do on the key, in the order of their arrival.
    pub parts: Parts,
}

/// What the transaction does on the key, if it does anything there.
#[tactic(auto, unfolding(crate::specs::Parts::part))]
pub fn part_of(alloc: Global, txn: &Txn, key: &Key) -> Result<Option<Part>, OutOfMemory>
    ensures { IfOk result (λ found. found ≡ part key.now txn.now) }
{
    let accesses = accesses_of(alloc, txn.ops.as_slice(), key)?;
    if accesses.as_slice().is_empty() {
        return Ok(None);
    }
    Ok(Some(Part {
        id: txn.id,
        start: txn.start,
        status: txn.status,
        accesses,
    }))
}

/// What is present on the key, of these transactions and set-up values.
pub fn on_key(
    alloc: Global,
    txns: &[Txn],
    initial: &[(Key, Value)],
    key: &Key,
) -> Result<OnKey, OutOfMemory>
    ensures { IfOk result
        (λ found. found ≡ on_key key.now (record { txns = txns.now; initial = initial.now })) }
{
    Ok(OnKey {
        initial: set_up_value(initial, key),
        parts: parts_of(alloc, txns, key)?,
    })
}

/// The value that the key was set up with.
#[tactic(auto, unfolding(crate::specs::Parts::set_up_value))]
pub fn set_up_value(initial: &[(Key, Value)], key: &Key) -> Option<Value>
    ensures { result ≡ set_up_value key.now initial.now }
{
    match pair_of(initial, key) {
        Some(pair) => Some(pair.1),
        None => None,
    }
}

fn pair_of<'a>(initial: &'a [(Key, Value)], key: &Key) -> Option<&'a (Key, Value)>
    ensures { option_copied result ≡ find (λ pair. same_key pair.0 key.now) initial.now }
{
    initial.iter().find(|pair| pair.0 == *key)
}

/// What the transactions do on the key, in their order.
fn parts_of(alloc: Global, txns: &[Txn], key: &Key) -> Result<Parts, OutOfMemory>
    ensures { IfOk result (λ found. found ≡ parts key.now txns.now) }
{
    let mut found = Vec::new(alloc);
    for txn in txns {
        if let Some(part) = part_of(alloc, txn, key)? {
            found.push(part)?;
        }
    }
    Ok(Parts::from_vec(found))
}

fn accesses_of(alloc: Global, ops: &[Op], key: &Key) -> Result<Accesses, OutOfMemory>
    ensures { IfOk result (λ found. found ≡ accesses key.now ops.now) }
{
    let mut found = Accesses::new(alloc);
    for (place, op) in ops.iter().enumerate() {
        if op.key() == key {
            found.push(Placed {
                place,
                access: op.access(),
            })?;
        }
    }
    Ok(found)
}
