//! The operations of all transactions, by their keys.

ghost use Rattle.std.specs.Prelude.{◌≡◌, ◌≤◌, ◌∷◌, [], None, OnOk, IfOk, length};
ghost use Rattle.std.specs.HashMap.{get};
ghost use Rattle.si_model.specs.Operations.{same_key};
ghost use Rattle.si_chances.specs.Groups.{AddsSlots, AreGroups, PutsSlots, slots_by, slots_in};

use indexmap::IndexMap;
use si_hashing::KeyHash;
use si_model::{Key, MOST_EDITS, Op, OutOfMemory, Txn};
use std::alloc::Global;
use std::hash::RandomState;

/// Where an operation stands: which transaction of the list, and which of its operations. Small, since there is one for each operation.
#[derive(Clone, Copy)]
pub struct Slot {
    pub txn: u32,
    pub op: u32,
}

/// The slots of each key's operations, in their order.
pub type Groups = IndexMap<Key, Vec<Slot>, KeyHash>;

/// The operations of these transactions by their keys.
pub fn groups_of(alloc: Global, hash: RandomState, txns: &[Txn]) -> Result<Groups, OutOfMemory>
    requires { length txns.now ≤ MOST_EDITS }
    ensures { IfOk result (AreGroups txns.now) }
{
    let mut groups = IndexMap::with_hasher(alloc, KeyHash::with_secret(hash));
    for (number, txn) in txns.iter().enumerate() {
        add_txn(alloc, &mut groups, number as u32, txn)?;
    }
    Ok(groups)
}

/// Adds the operations of the transaction of that number.
fn add_txn(alloc: Global, groups: &mut Groups, number: u32, txn: &Txn) -> Result<(), OutOfMemory>
    ensures { OnOk result (AddsSlots (λ x. slots_in x (number, txn.now)) groups.old groups.new) }
{
    for (place, op) in txn.ops.as_slice().iter().enumerate() {
        let slot = Slot {
            txn: number,
            op: place as u32,
        };
        add_slot(alloc, groups, op, slot)?;
    }
    Ok(())
}

/// Adds the slot of the operation to those of its key.
fn add_slot(alloc: Global, groups: &mut Groups, op: &Op, slot: Slot) -> Result<(), OutOfMemory>
    ensures { OnOk result (AddsSlots (λ x. slots_by x slot.txn (slot.op, op.now)) groups.old groups.new) }
{
    if let Some(slots) = groups.get_mut(op.key()) {
        slots.push(slot)?;
        return Ok(());
    }
    begin(alloc, groups, op.key(), slot)
}

/// Begins the group of the key, which has none.
fn begin(alloc: Global, groups: &mut Groups, key: &Key, slot: Slot) -> Result<(), OutOfMemory>
    requires { get same_key groups.old key.now ≡ None }
    ensures { OnOk result (PutsSlots key.now (slot ∷ []) groups.old groups.new) }
{
    let mut slots = Vec::new(alloc);
    slots.push(slot)?;
    drop(groups.insert(key.try_clone()?, slots)?);
    Ok(())
}
