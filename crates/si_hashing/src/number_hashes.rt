//! A secret hash of numbers and of pairs of numbers, for maps whose keys a log chooses.

ghost use Rattle.std.specs.Prelude.{◌≡◌, fold};
ghost use Rattle.std.specs.Hash as fed;
ghost use Rattle.si_hashing.specs.Secrets.{drawn, hash_between};

use std::hash::{BuildHasher, FoldHasher, Hasher, RandomState};

/// Hashes numbers under a secret of 128 bits.
///
/// The first half of the secret is fed before the number and the second half behind it, each by std's cheap hash, which multiplies
/// by a number that is known to all. So of two numbers that are chosen without the secret it isn't known whether they come to one
/// place of a map, and what numbers in a row come to is spread by the second multiplication.
#[derive(Clone, Copy)]
pub struct NumberHash {
    // The cheap hash after the first half of the secret.
    begun: FoldHasher,
    // The second half.
    last: u64,
}

impl NumberHash {
    /// The two halves of its secret are numbers that this one gives.
    pub fn with_secret(secret: RandomState) -> Self
        ensures { result ≡ hash_between (drawn secret 0) (drawn secret 1) }
    {
        let mut begun = FoldHasher::default();
        begun.write_u64(secret.hash_one(0u64));
        NumberHash {
            begun,
            last: secret.hash_one(1u64),
        }
    }
}

/// The hash of one key.
#[derive(Clone, Copy)]
pub struct NumberHasher {
    fed: FoldHasher,
    last: u64,
}

impl Hasher for NumberHasher {
    ghost write = { λ h bytes. record { fed = ⟦<FoldHasher as Hasher>⟧.write h.fed bytes; last = h.last } };

    ghost finish = { λ h. ⟦<FoldHasher as Hasher>⟧.finish (fold (⟦<FoldHasher as Hasher>⟧.write) h.fed (fed.u64 h.last)) };

    fn finish(&self) -> u64 {
        let mut fed = self.fed;
        fed.write_u64(self.last);
        fed.finish()
    }

    fn write(&mut self, bytes: &[u8]) {
        self.fed.write(bytes);
    }
}

impl BuildHasher for NumberHash {
    type Hasher = NumberHasher;

    ghost build_hasher = { λ s. record { fed = s.begun; last = s.last } };

    fn build_hasher(&self) -> NumberHasher {
        NumberHasher {
            fed: self.begun,
            last: self.last,
        }
    }
}
