//! Looks ahead at what is kept of keys, so that a processor fetches it for many of them side by side, and remembers where it stands.
//! Nothing depends on what is seen: who takes a place looks whether the key stands there.

ghost use Rattle.std.specs.Prelude.{◌≡◌, []};

use crate::key_states::KeyStates;
use si_hashing::Hints;
use si_model::Key;
use std::alloc::Global;

/// The keys of so many operations of a transaction at most are looked at together with those of other edits. One of more operations
/// looks at its own keys, so many at a time.
pub const MOST_AHEAD: usize = 128;

/// Keys to be looked at, and what was seen so far.
#[derive(Drop)]
pub struct Ahead {
    // Where the keys' states stand.
    places: Vec<usize>,
    // Where the states of keys stood that were looked for.
    near: Hints,
    // It means nothing, but is kept, so that no compiler leaves the looks out.
    seen: u64,
}

impl Ahead {
    /// No place was looked for.
    pub fn new(alloc: Global) -> Self
        ensures { result.places.items ≡ [] }
    {
        Ahead {
            places: Vec::new(alloc),
            near: Hints::new(alloc),
            seen: 0,
        }
    }

    /// The key will be looked at, if anything is kept of it and memory is there.
    pub fn add(&mut self, keys: &KeyStates, key: &Key) {
        let near = self.near(key);
        if let Some(place) = keys.place_of(key, near) {
            let _added = self.places.push(place).is_ok();
            if place != near {
                self.near.note(key.shard_hash(), place, keys.len());
            }
        }
    }

    /// Where the state of the key may stand.
    pub fn near(&self, key: &Key) -> usize {
        self.near.place(key.shard_hash())
    }

    /// Reads the states of the keys, first the heads of all and then the ends of what they hold, so that each is fetched while the
    /// others are. None is left to be looked at.
    pub fn look(&mut self, keys: &KeyStates)
        ensures { self.new.places.items ≡ [] }
    {
        self.seen = self.seen ^ keys.look_at(&self.places);
        self.places.clear();
    }
}
