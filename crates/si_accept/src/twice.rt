//! Pairs of key and value that one transaction writes twice.

ghost use Rattle.std.specs.Prelude.{◌≡◌, IfOk};
ghost use Rattle.si_model.specs.Edits.{first_at, twice_at};

use crate::writers::Writers;
use si_model::plain::twice_refusal as walked_refusal;
use si_model::{Op, OutOfMemory, Refusal, TxnId};
use std::alloc::Global;
use std::hash::RandomState;

/// The most operations of a transaction that are compared each with each.
const FEW: usize = 32;

/// An operation writes a pair which an earlier one of the transaction writes.
///
/// Many operations go through an index of their own. Where it finds no memory they are compared each with each.
pub fn twice_refusal(alloc: Global, hash: RandomState, ops: &[Op]) -> Option<Refusal>
    ensures { result ≡ first_at (twice_at ops.now) 0 ops.now }
{
    if ops.len() <= FEW {
        return walked_refusal(ops);
    }
    match indexed_refusal(alloc, hash, ops) {
        Ok(found) => found,
        Err(_) => walked_refusal(ops),
    }
}

/// The first write of a value that a write before it has too, found by an index.
fn indexed_refusal(
    alloc: Global,
    hash: RandomState,
    ops: &[Op],
) -> Result<Option<Refusal>, OutOfMemory>
    ensures { IfOk result (λ found. found ≡ first_at (twice_at ops.now) 0 ops.now) }
{
    let mut seen = Writers::new(alloc, hash);
    for (place, op) in ops.iter().enumerate() {
        if seen.writer(op).is_some() {
            return Ok(Some(Refusal::ValueTwice { op: place }));
        }
        seen.add(op, TxnId(0))?;
    }
    Ok(None)
}
