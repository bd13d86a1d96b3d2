//! What a partition keeps of an edit.

ghost use Rattle.std.specs.Prelude.{◌≡◌, ◌≤◌, length, IfOk};
ghost use Rattle.std.specs.List.{filter};
ghost use Rattle.si_model.specs.declared.operations.TheConstants.{MOST_OPS};
ghost use Rattle.si_partitions.specs.declared.partitions.TheConstants.{MOST_PARTITIONS};
ghost use Rattle.si_partitions.specs.Partitions.{has_op, projected, projected_edit};

use crate::Partition;
use si_model::{Edit, Op, Ops, OutOfMemory, Txn};
use std::alloc::Global;

/// What the partition keeps of the edit: of an arrival the operations on its keys, of any other edit all.
///
/// What is kept shares the texts of its keys with the edit, and takes no room for what isn't. Where memory is refused, that is the error,
/// and the edit is gone.
pub fn project_edit(alloc: Global, edit: Edit, partition: Partition) -> Result<Edit, OutOfMemory>
    requires { partition.count ≤ MOST_PARTITIONS }
    ensures { IfOk result (λ kept. kept ≡ projected_edit partition edit) }
{
    match edit {
        Edit::Arrive(txn) => Ok(Edit::Arrive(project(alloc, txn, partition)?)),
        Edit::Resolve(id, outcome) => Ok(Edit::Resolve(id, outcome)),
        Edit::Withdraw(id) => Ok(Edit::Withdraw(id)),
        Edit::SetUp(key, value) => Ok(Edit::SetUp(key, value)),
    }
}

/// The transaction with its operations on keys of the partition alone.
fn project(alloc: Global, txn: Txn, partition: Partition) -> Result<Txn, OutOfMemory>
    requires { partition.count ≤ MOST_PARTITIONS }
    ensures { IfOk result (λ kept. kept ≡ projected partition txn) }
{
    Ok(Txn {
        id: txn.id,
        start: txn.start,
        status: txn.status,
        ops: Ops::from_vec(kept_of(alloc, txn.ops.as_slice(), partition)?)?,
    })
}

/// Copies of the operations on keys of the partition, in their order.
fn kept_of(alloc: Global, ops: &[Op], partition: Partition) -> Result<Vec<Op>, OutOfMemory>
    requires within { length ops.now ≤ MOST_OPS }
    requires few { partition.count ≤ MOST_PARTITIONS }
    ensures kept { IfOk result (λ kept. kept.items ≡ filter (has_op partition) ops.now) }
    ensures within { IfOk result (λ kept. length kept.items ≤ MOST_OPS) }
{
    let mut kept = Vec::with_capacity(
        alloc,
        ops.iter().filter(|op| partition.has(op.key())).count(),
    )?;
    for op in ops {
        if partition.has(op.key()) {
            kept.push(op.try_clone()?)?;
        }
    }
    Ok(kept)
}
