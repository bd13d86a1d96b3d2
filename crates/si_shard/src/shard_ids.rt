//! One shard among so many.

ghost use Rattle.std.specs.Prelude.{◌≡◌, ◌<◌};
ghost use Rattle.si_shard.specs.ShardIds.{is_ours, is_touched};

use si_model::keys::shard_of;
use si_model::{Key, Op};

/// One shard among so many.
#[derive(Clone, Copy, Debug, PartialEq, Eq)]
pub struct ShardId {
    /// Its number, from 0.
    pub shard: usize,
    /// How many shards there are.
    pub shards: usize,
}

impl ShardId {
    /// Whether the key is of this shard.
    pub fn has(self, key: &Key) -> bool
        requires { 0 < self.shards }
        ensures { result ≡ is_ours self key.now }
    {
        shard_of(key, self.shards) == self.shard
    }

    /// Whether one of the operations is on a key of this shard.
    pub fn is_touched(self, ops: &[Op]) -> bool
        requires { 0 < self.shards }
        ensures { result ≡ is_touched self ops.now }
    {
        ops.iter().any(|op| self.has(op.key()))
    }
}
