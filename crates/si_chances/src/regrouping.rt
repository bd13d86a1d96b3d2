//! What the transactions do on one key, from the slots of its operations.

ghost use Rattle.std.specs.Prelude.{◌≡◌, true, map, OnOk, IfOk};
ghost use Rattle.std.specs.List.{fold};
ghost use Rattle.si_model.specs.declared.numbers.TxnId.{TxnId};
ghost use Rattle.si_chances.specs.Groups.{access_at, parts_at, with_access, with_slot, ends_with, to_last};

use crate::grouping::Slot;
use si_model::{Access, Accesses, OutOfMemory, Part, Placed, Txn};
use std::alloc::Global;

/// So many accesses are read together, so that a processor fetches them side by side: they lie far apart.
const MOST_AHEAD: usize = 128;

/// What the transactions do at these slots, which are those of one key.
pub fn parts_at(alloc: Global, txns: &[Txn], slots: &[Slot]) -> Result<Vec<Part>, OutOfMemory>
    ensures { IfOk result (λ parts. parts.items ≡ parts_at txns.now slots.now) }
{
    let few = slots.len().min(MOST_AHEAD);
    let mut parts = Vec::with_capacity(alloc, few)?;
    let mut read = Vec::with_capacity(alloc, few)?;
    let mut at = 0;
    while at < slots.len() {
        let end = slots.len().min(at + MOST_AHEAD);
        let some = &slots[at..end];
        read_all(txns, some, &mut read)?;
        add_all(alloc, &mut parts, txns, some, &read)?;
        at = end;
    }
    Ok(parts)
}

/// Reads the accesses at these slots.
fn read_all(txns: &[Txn], slots: &[Slot], read: &mut Vec<Option<Access>>) -> Result<(), OutOfMemory>
    ensures { OnOk result (read.new.items ≡ map (access_at txns.now) slots.now) }
{
    read.clear();
    for slot in slots {
        read.push(access_at(txns, *slot))?;
    }
    Ok(())
}

/// The access at the slot, if there is one.
fn access_at(txns: &[Txn], slot: Slot) -> Option<Access>
    ensures { result ≡ access_at txns.now slot }
{
    let txn = txns.get(slot.txn as usize)?;
    let op = txn.ops.as_slice().get(slot.op as usize)?;
    Some(op.access())
}

/// Adds the accesses at these slots, which were read.
fn add_all(
    alloc: Global,
    parts: &mut Vec<Part>,
    txns: &[Txn],
    slots: &[Slot],
    read: &[Option<Access>],
) -> Result<(), OutOfMemory>
    requires { read.now ≡ map (access_at txns.now) slots.now }
    ensures { OnOk result (parts.new.items ≡ fold (with_slot txns.now) parts.old.items slots.now) }
{
    for (number, slot) in slots.iter().enumerate() {
        add_slot(alloc, parts, txns, *slot, read[number])?;
    }
    Ok(())
}

/// Adds the access at the slot, if there is one.
fn add_slot(
    alloc: Global,
    parts: &mut Vec<Part>,
    txns: &[Txn],
    slot: Slot,
    access: Option<Access>,
) -> Result<(), OutOfMemory>
    requires { access ≡ access_at txns.now slot }
    ensures { OnOk result (parts.new.items ≡ with_slot txns.now parts.old.items slot) }
{
    if let (Some(txn), Some(access)) = (txns.get(slot.txn as usize), access) {
        let placed = Placed {
            place: slot.op as usize,
            access,
        };
        add_access(alloc, parts, txn, placed)?;
    }
    Ok(())
}

/// Adds the access to the last part, if that is of the transaction, and else a part of its own behind that.
fn add_access(
    alloc: Global,
    parts: &mut Vec<Part>,
    txn: &Txn,
    placed: Placed,
) -> Result<(), OutOfMemory>
    ensures { OnOk result (parts.new.items ≡ with_access txn.now placed parts.old.items) }
{
    if is_last(parts, txn) {
        return add_to_last(parts, placed);
    }
    let mut accesses = Accesses::new(alloc);
    accesses.push(placed)?;
    parts.push(Part {
        id: txn.id,
        start: txn.start,
        status: txn.status,
        accesses,
    })?;
    Ok(())
}

/// Whether the last part is of the transaction.
fn is_last(parts: &[Part], txn: &Txn) -> bool
    ensures { result ≡ ends_with txn.now.id parts.now }
{
    match parts.last() {
        Some(part) => part.id == txn.id,
        None => false,
    }
}

/// Adds the access to the last part.
fn add_to_last(parts: &mut [Part], placed: Placed) -> Result<(), OutOfMemory>
    requires { (id : TxnId) × (ends_with id parts.old ≡ true) }
    ensures { OnOk result (parts.new ≡ to_last placed parts.old) }
{
    let last = parts.len() - 1;
    parts[last].accesses.push(placed)
}
