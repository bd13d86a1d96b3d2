//! Edits that go straight to the keys of their transactions.

ghost use Rattle.std.specs.Prelude.{◌≡◌, ◌↔◌, ◌<◌, ◌≤◌, ◌==◌, ◌&&◌, ℕ, List, IsTrue, IfOk, OnOk, Some, Option, [], false, length, slice_get, take};
ghost use Rattle.si_model.specs.declared.edits.Edit.TheVariants as variant;
ghost use Rattle.si_model.specs.declared.numbers.Value.{Value as Written};
ghost use Rattle.si_model.specs.declared.operations.Op.{Op as Operation};
ghost use Rattle.si_model.specs.declared.parts.OnKey.{OnKey};
ghost use Rattle.si_model.specs.KeyTexts.{shard_hash};
ghost use Rattle.si_model.specs.Operations.{access_of, key_of, same_key};
ghost use Rattle.si_model.specs.Parts.{accesses};
ghost use Rattle.si_shard.specs.AppliedEdits.{TxnBefore, change_by, known};
ghost use Rattle.si_shard.specs.KeyChanges.{CanChange};
ghost use Rattle.si_shard.specs.KeyStates.{IsChangedAt, IsOn, KeepsNotesOf};
ghost use Rattle.si_shard.specs.SingleEdits.{AreByKey, AreHashed, CanBeMadeBy, IsKeyAt, IsMadeBy, is_accessed, is_first};

use crate::aheads::{Ahead, MOST_AHEAD};
use crate::key_changes::{Change, KnownTxn, TxnHead, change_by};
use crate::key_states::KeyStates;
use crate::shard_ids::ShardId;
use si_model::parts::Accesses;
use si_model::{Access, Edit, Key, Op, OutOfMemory, Placed, Value};
use std::alloc::Global;
use std::mem;

/// The operations of a transaction of at most so many are looked through for those on a key, and those of others put in order.
const MOST_LOOKED_THROUGH: usize = 16;

/// The hash that picks a key's shard, which tells most keys apart, the key, and the place of an operation on it.
pub type KeyPlace<'a> = (u32, &'a Key, usize);

/// Makes what the edit is on each key of the shard, whose transaction is this one, if it has one.
pub fn make_each(
    alloc: Global,
    keys: &mut KeyStates,
    ahead: &mut Ahead,
    txn: Option<KnownTxn<'_>>,
    edit: &Edit,
    id: ShardId,
) -> Result<(), OutOfMemory>
    requires shards { 0 < id.shards }
    requires can { CanBeMadeBy id (known txn) edit.now keys.old }
    ensures made { OnOk result (IsMadeBy id (known txn.entry) edit.now keys.old keys.new) }
    ensures noted { OnOk result (KeepsNotesOf keys.old keys.new) }
{
    if let Edit::SetUp(key, value) = edit {
        return make_set_up(keys, key, *value, id);
    }
    match txn {
        Some(txn) => make_accessed(alloc, keys, ahead, txn.ops, txn.head, edit, id),
        None => Ok(()),
    }
}

/// Sets up the key, if it is one of this shard.
fn make_set_up(
    keys: &mut KeyStates,
    key: &Key,
    value: Value,
    id: ShardId,
) -> Result<(), OutOfMemory>
    requires shards { 0 < id.shards }
    requires can { (t : Option TxnBefore) → CanBeMadeBy id t (variant.SetUp key.now value) keys.old }
    ensures made { OnOk result ((t : Option TxnBefore) → IsMadeBy id t (variant.SetUp key.now value) keys.old keys.new) }
    ensures noted { OnOk result (KeepsNotesOf keys.old keys.new) }
{
    if id.has(key) {
        keys.change(key, usize::MAX, &mut Change::SetUp(value))?;
    }
    Ok(())
}

/// Makes the edit on each key of this shard that the transaction accesses.
fn make_accessed(
    alloc: Global,
    keys: &mut KeyStates,
    ahead: &mut Ahead,
    ops: &[Op],
    head: TxnHead,
    edit: &Edit,
    id: ShardId,
) -> Result<(), OutOfMemory>
    requires shards { 0 < id.shards }
    requires other { (x : List ℕ) (v : Written) → edit.now ≡ variant.SetUp x v → ⊥ }
    requires can { CanBeMadeBy id (Some (head, ops.now)) edit.now keys.old }
    ensures made { OnOk result (IsMadeBy id (Some (head, ops.now)) edit.now keys.old keys.new) }
    ensures noted { OnOk result (KeepsNotesOf keys.old keys.new) }
{
    if ops.len() <= MOST_LOOKED_THROUGH {
        return make_few(alloc, keys, ahead, ops, head, edit, id);
    }
    make_many(alloc, keys, ahead, ops, head, edit, id)
}

/// Makes the edit on each key at the first operation on it.
fn make_few(
    alloc: Global,
    keys: &mut KeyStates,
    ahead: &Ahead,
    ops: &[Op],
    head: TxnHead,
    edit: &Edit,
    id: ShardId,
) -> Result<(), OutOfMemory>
    requires shards { 0 < id.shards }
    requires other { (x : List ℕ) (v : Written) → edit.now ≡ variant.SetUp x v → ⊥ }
    requires can { CanBeMadeBy id (Some (head, ops.now)) edit.now keys.old }
    ensures made { OnOk result (IsMadeBy id (Some (head, ops.now)) edit.now keys.old keys.new) }
    ensures noted { OnOk result (KeepsNotesOf keys.old keys.new) }
{
    for place in 0..ops.len() {
        let key = ops[place].key();
        if is_first(&ops[..place], key, id) {
            let accesses = accesses_from(alloc, ops, place, key)?;
            make_here(keys, ahead, key, accesses, head, edit)?;
        }
    }
    Ok(())
}

/// Makes the edit on the key, which its transaction accesses so.
fn make_here(
    keys: &mut KeyStates,
    ahead: &Ahead,
    key: &Key,
    accesses: Accesses,
    head: TxnHead,
    edit: &Edit,
) -> Result<(), OutOfMemory>
    requires { (Q : OnKey) × IsOn keys.old key.now Q × CanChange (change_by head edit.now accesses) Q }
    ensures made { OnOk result (IsChangedAt key.now (change_by head edit.now accesses) keys.old keys.new) }
    ensures noted { OnOk result (KeepsNotesOf keys.old keys.new) }
{
    let mut change = change_by(head, edit, accesses);
    keys.change(key, ahead.near(key), &mut change)
}

/// Whether the key is one of the shard, and none of these operations is on it.
fn is_first(before: &[Op], key: &Key, id: ShardId) -> bool
    requires { 0 < id.shards }
    ensures { result ≡ is_first id before.now key.now }
{
    id.has(key) && !is_accessed(before, key)
}

/// Whether one of the operations is on the key.
fn is_accessed(ops: &[Op], key: &Key) -> bool
    ensures { result ≡ is_accessed ops.now key.now }
{
    ops.iter().any(|op| has_key(op, key))
}

/// Whether the operation is on the key. The hashes of two keys mostly differ where the keys do.
fn has_key(op: &Op, key: &Key) -> bool
    ensures { result ≡ same_key (key_of op.now) key.now }
{
    op.key().shard_hash() == key.shard_hash() && op.key() == key
}

/// The accesses of the key, which the operation at that place is on, and none before it.
fn accesses_from(
    alloc: Global,
    ops: &[Op],
    first: usize,
    key: &Key,
) -> Result<Accesses, OutOfMemory>
    requires first { (p : Operation) × (slice_get ops.now first ≡ Some p) × (key_of p ≡ key.now) }
    requires none { is_accessed (take first ops.now) key.now ≡ false }
    ensures { IfOk result (λ found. found ≡ accesses key.now ops.now) }
{
    let mut found = Accesses::new(alloc);
    found.push(placed_at(ops, first))?;
    for place in first + 1..ops.len() {
        if has_key(&ops[place], key) {
            found.push(placed_at(ops, place))?;
        }
    }
    Ok(found)
}

/// What the operation at that place does to its key, with the place.
fn placed_at(ops: &[Op], place: usize) -> Placed
    requires { place < length ops.now }
    ensures { (p : Operation) × (slice_get ops.now place ≡ Some p) × (result ≡ record { place = place; access = access_of p }) }
{
    Placed {
        place,
        access: access_at(ops, place),
    }
}

/// Makes the edit on each key, in the order of the keys.
fn make_many(
    alloc: Global,
    keys: &mut KeyStates,
    ahead: &mut Ahead,
    ops: &[Op],
    head: TxnHead,
    edit: &Edit,
    id: ShardId,
) -> Result<(), OutOfMemory>
    requires shards { 0 < id.shards }
    requires other { (x : List ℕ) (v : Written) → edit.now ≡ variant.SetUp x v → ⊥ }
    requires can { CanBeMadeBy id (Some (head, ops.now)) edit.now keys.old }
    ensures made { OnOk result (IsMadeBy id (Some (head, ops.now)) edit.now keys.old keys.new) }
    ensures noted { OnOk result (KeepsNotesOf keys.old keys.new) }
{
    let list = by_key(alloc, ops, id)?;
    let mut accesses = Accesses::new(alloc);
    for index in 0..list.len() {
        look_from(ahead, keys, ops.len(), &list, index);
        let (_, key, place) = list[index];
        accesses.push(Placed {
            place,
            access: access_at(ops, place),
        })?;
        if !is_at(&list, index + 1, key) {
            let all = mem::replace(&mut accesses, Accesses::new(alloc));
            make_here(keys, ahead, key, all, head, edit)?;
        }
    }
    Ok(())
}

/// The operations on the shard's keys, in the order of the keys by their hashes and texts, and those on one key in the order of the
/// transaction.
fn by_key<'a>(alloc: Global, ops: &'a [Op], id: ShardId) -> Result<Vec<KeyPlace<'a>>, OutOfMemory>
    requires { 0 < id.shards }
    ensures { IfOk result (λ list. AreByKey id ops.now list.items) }
{
    let mut list = Vec::new(alloc);
    for (place, op) in ops.iter().enumerate() {
        if id.has(op.key()) {
            list.push((op.key().shard_hash(), op.key(), place))?;
        }
    }
    list.sort_unstable();
    list.dedup();
    Ok(list)
}

/// What the operation at that place does to its key.
fn access_at(ops: &[Op], place: usize) -> Access
    requires { place < length ops.now }
    ensures { (p : Operation) × (slice_get ops.now place ≡ Some p) × (result ≡ access_of p) }
{
    ops[place].access()
}

/// Whether an operation stands there, and is on the key.
fn is_at(list: &[KeyPlace<'_>], index: usize, key: &Key) -> bool
    requires { AreHashed list.now }
    ensures { IsTrue result ↔ IsKeyAt list.now index key.now }
{
    match list.get(index) {
        Some(entry) => is_on(entry, key),
        None => false,
    }
}

/// Whether the entry is of the key. The hashes of two keys mostly differ where the keys do.
fn is_on(entry: &KeyPlace<'_>, key: &Key) -> bool
    ensures { result ≡ ((entry.now.0 == shard_hash key.now) && same_key entry.now.1.now key.now) }
{
    entry.0 == key.shard_hash() && entry.1 == key
}

/// Looks at the next keys from that place on, once for so many, where the transaction has so many operations that no look came before.
fn look_from(
    ahead: &mut Ahead,
    keys: &KeyStates,
    operations: usize,
    list: &[KeyPlace<'_>],
    from: usize,
)
    requires { from ≤ length list.now }
    ensures { ahead.old.places.items ≡ [] → ahead.new.places.items ≡ [] }
{
    if operations <= MOST_AHEAD || from % MOST_AHEAD != 0 {
        return;
    }
    for entry in list[from..].iter().take(MOST_AHEAD) {
        ahead.add(keys, entry.1);
    }
    ahead.look(keys);
}
