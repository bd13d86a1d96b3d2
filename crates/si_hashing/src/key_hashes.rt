//! A cheap secret hash of texts that a log may choose, for maps whose keys are mostly short.

ghost use Rattle.std.specs.Prelude.{◌≡◌};
ghost use Rattle.si_hashing.specs.Secrets.{drawn};
ghost use Rattle.si_hashing.specs.Texts.{key_hash_between};

use std::hash::{BuildHasher, FoldHasher, Hasher, RandomState};

/// A text of more bytes is hashed by std's secret hash.
pub const MOST_SHORT: usize = 16;

/// Hashes texts under a secret: those of at most [`MOST_SHORT`] bytes by two or three multiplications, longer ones by std's secret hash,
/// whose number is fed in place of the text.
///
/// As with [`NumberHash`](crate::NumberHash) one half of the secret is fed before the text and the other behind it. A text of over 8
/// bytes is fed in two parts, so that the first is multiplied, under the secret, before the second comes to it.
#[derive(Clone, Copy)]
pub struct KeyHash {
    // The cheap hash after the first half of the secret.
    begun: FoldHasher,
    // The second half.
    last: u64,
    long: RandomState,
}

impl KeyHash {
    /// Its secret is what this one gives for two numbers, which no [`NumberHash`](crate::NumberHash) takes.
    pub fn with_secret(secret: RandomState) -> Self
        ensures { result ≡ key_hash_between (drawn secret 2) (drawn secret 3) secret }
    {
        let mut begun = FoldHasher::default();
        begun.write_u64(secret.hash_one(2u64));
        KeyHash {
            begun,
            last: secret.hash_one(3u64),
            long: secret,
        }
    }
}

/// The hash of one text.
#[derive(Clone, Copy)]
pub struct KeyHasher {
    fed: FoldHasher,
    last: u64,
    long: RandomState,
}

impl Hasher for KeyHasher {
    ghost use Rattle.std.specs.Prelude.{fold};
    ghost use Rattle.std.specs.Hash as fed;
    ghost use Rattle.si_hashing.specs.Texts.{text_fed};

    ghost write = { λ h bytes. record { fed = text_fed h.long h.fed bytes; last = h.last; long = h.long } };

    ghost finish = { λ h. ⟦<FoldHasher as Hasher>⟧.finish (fold (⟦<FoldHasher as Hasher>⟧.write) h.fed (fed.u64 h.last)) };

    fn finish(&self) -> u64 {
        let mut fed = self.fed;
        fed.write_u64(self.last);
        fed.finish()
    }

    fn write(&mut self, bytes: &[u8]) {
        if bytes.len() > MOST_SHORT {
            let mut long = self.long.build_hasher();
            long.write(bytes);
            self.fed.write_u64(long.finish());
        } else if bytes.len() > 8 {
            self.fed.write(&bytes[..8]);
            self.fed.write(&bytes[8..]);
        } else {
            self.fed.write(bytes);
        }
    }
}

impl BuildHasher for KeyHash {
    type Hasher = KeyHasher;

    ghost build_hasher = { λ s. record { fed = s.begun; last = s.last; long = s.long } };

    fn build_hasher(&self) -> KeyHasher {
        KeyHasher {
            fed: self.begun,
            last: self.last,
            long: self.long,
        }
    }
}
