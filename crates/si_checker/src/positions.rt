//! How far shards are, as far as it is known.
use si_shard::MOST_SHARDS;

/// How many edits each shard had applied when it was last heard of. Those that don't exist have applied all.
#[derive(Drop)]
pub struct Positions {
    each: [u64; MOST_SHARDS],
}

impl Positions {
    /// So many shards, which have applied nothing.
    pub fn new(shards: usize) -> Self {
        let mut each = [u64::MAX; MOST_SHARDS];
        for position in each.iter_mut().take(shards) {
            *position = 0;
        }
        Positions { each }
    }

    /// The shard has applied so many edits. Answers with the least position of all.
    pub fn pass_by(&mut self, shard: usize, position: u64) -> u64 {
        if let Some(known) = self.each.get_mut(shard) {
            *known = position;
        }
        let mut least = u64::MAX;
        for position in &self.each {
            if *position < least {
                least = *position;
            }
        }
        least
    }
}
