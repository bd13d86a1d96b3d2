//! The machine, step by step.

mod drawn;
mod large;
mod refused_memory;
mod rows;

use super::*;
use si_core::{Reply, Step, World, WorldFault};
use si_model::{Finding, Key, MOST_EDITS, Txn, Value, findings_of, is_history};
use si_scripts::{asked, edit_of, found_text};
use si_shard::MOST_SHARDS;
use std::hash::RandomState;
use std::random::RandomSource;

/// A new machine of so many shards, whose journal takes so many edits.
///
/// A machine is a fat value, and a proof that owns one looks at it anew in each call. In a box it is a pointer to its owner.
fn new_world(
    rt: &(impl Abort + AllocGlobal + RandomSource),
    shards: usize,
    limit: usize,
) -> Box<World> {
    assert!(rt; 1 <= shards && shards <= MOST_SHARDS);
    assert!(rt; 1 <= limit && limit <= MOST_EDITS);
    let hash = RandomState::new(rt).expect(rt, "random bytes");
    let world = World::new(rt.alloc(), hash, shards, limit);
    Box::new(rt.alloc(), world.expect(rt, "memory")).expect(rt, "memory")
}

/// Calls `step` and says nothing of what it does: tests look at that, and their proofs needn't.
fn stepped(world: &mut World, step: Step) -> Reply {
    world.step(step)
}

fn many_applied(rt: &impl Abort, world: &mut World, shard: usize, most: u64) -> Reply {
    assert!(rt; 1 <= most);
    world.apply_many(shard, most)
}

/// Rebuilds the shard, if it is one.
fn rebuilt(rt: &impl Abort, world: &mut World, shard: usize) -> bool {
    let is_one = shard < world.shards();
    if is_one {
        world.rebuild(shard).expect(rt, "memory");
    }
    is_one
}

fn found_in(world: &World) -> Result<Vec<Finding>, WorldFault> {
    world.findings()
}

fn present_in(rt: &impl Abort, world: &World) -> Vec<Txn> {
    world.present().expect(rt, "memory")
}

fn set_up_in(rt: &impl Abort, world: &World) -> Vec<(Key, Value)> {
    world.initial().expect(rt, "memory")
}

fn fault_of(world: &World) -> Option<WorldFault> {
    found_in(world).err()
}

/// What the plain program finds on what is present.
fn plainly_found(rt: &(impl Abort + AllocGlobal), world: &World) -> Vec<Finding> {
    let txns = present_in(rt, world);
    let initial = set_up_in(rt, world);
    assert!(rt; is_history(&txns, &initial));
    findings_of(rt.alloc(), &txns, &initial).expect(rt, "memory")
}

/// What is found on what is present, which is what the plain program finds there.
fn compare_findings(rt: &(impl Abort + AllocGlobal), world: &World) -> Vec<Finding> {
    let found = found_in(world).expect(rt, "findings");
    let plain = plainly_found(rt, world);
    assert!(rt; found.as_slice() == plain.as_slice());
    found
}

/// So many findings are had.
fn finds(rt: &impl Abort, world: &World, count: usize) {
    let found = found_in(world).expect(rt, "findings");
    are_same(rt, found.len(), count);
}
