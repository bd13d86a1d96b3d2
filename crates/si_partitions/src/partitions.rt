//! Which keys a partition has.

ghost use Rattle.std.specs.Prelude.{◌≡◌, ◌<◌, ◌≤◌};
ghost use Rattle.si_partitions.specs.Partitions.{has_key, partition_number};

use si_model::Key;

/// The most partitions that a log may have.
pub const MOST_PARTITIONS: u64 = 256;

/// One of so many partitions of the keys, from 1 to [`MOST_PARTITIONS`], by its place among them, from 0.
#[derive(Clone, Copy, Debug, PartialEq, Eq)]
pub struct Partition {
    pub index: u64,
    pub count: u64,
}

impl Partition {
    /// Whether the partition has the key.
    ///
    /// The hash that picks the key's shard is spread over 32 bits, and these are cut into as many ranges as there are partitions: shards
    /// go by what the hash leaves behind a division, so that a partition has keys of each shard.
    pub fn has(self, key: &Key) -> bool
        requires { self.count ≤ MOST_PARTITIONS }
        ensures { result ≡ has_key self key.now }
    {
        number_of(key, self.count) == self.index
    }
}

/// The partition of a key among so many.
fn number_of(key: &Key, count: u64) -> u64
    requires { count ≤ MOST_PARTITIONS }
    ensures { result ≡ partition_number key.now count }
{
    let spread = u64::from(key.shard_hash()) * 2_654_435_769 % 4_294_967_296;
    spread * count / 4_294_967_296
}
