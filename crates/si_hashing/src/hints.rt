//! Hints to where a key stands in a list, by a hash that anybody can work out.
//!
//! A hint promises nothing: who takes one compares the key that stands there, and else asks a map with a secret hash. So keys that are
//! chosen to share a hash cost what they would without hints.

use std::alloc::Global;

/// So many hints there are at first.
const FIRST_SLOTS: usize = 256;

/// No list is so long.
const NOWHERE: u32 = u32::MAX;

/// For each hash, spread over twice to four times as many slots as there are keys, the place of a key that had it.
#[derive(Drop)]
pub struct Hints {
    slots: Vec<u32>,
}

impl Hints {
    /// No hint.
    pub fn new(alloc: Global) -> Self {
        Hints {
            slots: Vec::new(alloc),
        }
    }

    /// Where a key of the hash may stand. Where nothing is known it is a place that no list has.
    pub fn place(&self, hash: u32) -> usize {
        match self.slots.get(slot_of(hash, self.slots.len())) {
            Some(place) => *place as usize,
            None => NOWHERE as usize,
        }
    }

    /// A key of the hash stands at the place in a list of so many. Where memory is refused for more hints there are fewer, or none.
    pub fn note(&mut self, hash: u32, place: usize, count: usize) {
        if count >= self.slots.len() / 2 {
            self.grow();
        }
        let slot = slot_of(hash, self.slots.len());
        if let (Ok(place), Some(kept)) = (u32::try_from(place), self.slots.get_mut(slot)) {
            *kept = place;
        }
    }

    /// Makes twice as many slots, which know nothing yet.
    fn grow(&mut self) {
        let slots = self.slots.len().saturating_mul(2).max(FIRST_SLOTS);
        self.slots.clear();
        let _grown = self.slots.resize(slots, NOWHERE).is_ok();
    }
}

/// The slot of the hash among so many, a power of two: the hash is multiplied by an odd number, so that hashes in a row are spread.
fn slot_of(hash: u32, slots: usize) -> usize {
    (u64::from(hash).wrapping_mul(0x9E37_79B9_7F4A_7C15) >> 20) as usize & slots.wrapping_sub(1)
}
