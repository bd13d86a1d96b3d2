//! From a JSON array to a transaction's operations.

ghost use Rattle.std.specs.Prelude.{◌≡◌, ◌≤◌, length, map, is_some};
ghost use Rattle.si_model.specs.KeyTexts.{IsKeyText};
ghost use Rattle.serde_json.specs.View.{view};
ghost use Rattle.si_text.specs.Lines.{Gives, or_fault, triple_in, read_in, op_at, op_named, ops_from, ops_in};

use crate::{KnownKeys, LineFault};
use serde_json::Value;
use si_model::operations::MOST_OPS;
use si_model::{Key, Op, Ops};
use std::alloc::Global;

/// The operations that the items of an array are, which are too many or else each one in its turn.
#[tactic(auto, unfolding(crate::specs::Lines::ops_in), using(crate::proofs::ArrayItems::length_map_view))]
pub(crate) fn ops_of(alloc: Global, keys: &mut KnownKeys, items: &[Value]) -> Result<Ops, LineFault>
    ensures { Gives result (ops_in (map view items.now)) }
{
    if items.len() > MOST_OPS {
        return Err(LineFault::TooManyOps);
    }
    all_ops(alloc, keys, items)
}

fn all_ops(alloc: Global, keys: &mut KnownKeys, items: &[Value]) -> Result<Ops, LineFault>
    requires { length items.now ≤ MOST_OPS }
    ensures { Gives result (ops_from 0 (map view items.now)) }
{
    let mut ops = Vec::new(alloc);
    for (index, item) in items.iter().enumerate() {
        ops.push(op_of(keys, index, item)?)?;
    }
    ops.shrink_to_fit();
    Ok(Ops::from_vec(ops)?)
}

/// The operation that the item at index is.
#[tactic(auto, unfolding(crate::specs::Lines::op_at))]
fn op_of(keys: &mut KnownKeys, index: usize, item: &Value) -> Result<Op, LineFault>
    ensures { Gives result (op_at index (view item.now)) }
{
    if !is_triple(item) {
        return Err(LineFault::BadOp(index));
    }
    let Some(word) = item.get(0usize).and_then(Value::as_str) else {
        return Err(LineFault::BadOp(index));
    };
    let Some(text) = item.get(1usize).and_then(Value::as_str) else {
        return Err(LineFault::BadOp(index));
    };
    if !Key::fits(text) {
        return Err(LineFault::BadOp(index));
    }
    match item.get(2usize) {
        Some(value) => named_op(keys, index, word, text, value),
        None => Err(LineFault::BadOp(index)),
    }
}

/// The operation of that name on a key.
#[tactic(auto, unfolding(crate::specs::Lines::op_named))]
fn named_op(
    keys: &mut KnownKeys,
    index: usize,
    word: &str,
    key: &str,
    value: &Value,
) -> Result<Op, LineFault>
    requires { IsKeyText key.now }
    ensures { Gives result
        (or_fault (LineFault.BadOp index) (op_named word.now key.now (view value.now))) }
{
    if word == "r" {
        let Some(read) = returned(value) else {
            return Err(LineFault::BadOp(index));
        };
        return Ok(Op::Read(keys.key(key)?, read));
    }
    if word == "w" {
        let Some(number) = value.as_u64() else {
            return Err(LineFault::BadOp(index));
        };
        return Ok(Op::Write(keys.key(key)?, si_model::Value(number)));
    }
    Err(LineFault::BadOp(index))
}

/// What a read returned, where that is null or a number.
fn returned(value: &Value) -> Option<Option<si_model::Value>>
    ensures { result ≡ read_in (view value.now) }
{
    if value.is_null() {
        return Some(None);
    }
    let number = value.as_u64()?;
    Some(Some(si_model::Value(number)))
}

/// Whether a value is an array of exactly three items.
#[tactic(auto, using(crate::proofs::ArrayItems::length_list_of_items))]
fn is_triple(value: &Value) -> bool
    ensures { result ≡ is_some (triple_in (view value.now)) }
{
    match value.as_array() {
        Some(items) => items.len() == 3,
        None => false,
    }
}
