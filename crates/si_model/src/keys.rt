//! Keys: short texts in themselves, longer ones shared, with their order, their hash and the shard of each.

ghost use Rattle.std.specs.Prelude.{◌≡◌, ℕ, ◌<◌, ◌≤◌, ◌↔◌, ◌%◌, IsTrue, IsUtf8, IfOk, List, fold, length, take};
ghost use Rattle.std.specs.String.{string_bytes};
ghost use Rattle.si_model.specs.KeyTexts.{IsKeyText, shard_hash, shard_hash_with, shard_number};
ghost use Rattle.si_model.specs.Keys.{IsWhole, IsText, text_bytes, text_hash};

use crate::OutOfMemory;
use std::alloc::Global;
use std::cmp::Ordering;
use std::hash::{Hash, Hasher};
use std::marker::Model;
use std::sync::ArcStr;
use std::{fmt, str};

/// The most bytes that a key may have.
pub const MOST_KEY_BYTES: usize = 128;

/// The most bytes of a text that stands in the key itself and takes no memory of its own. Most keys of a test are as short.
pub const MOST_INLINE_BYTES: usize = 16;

/// The text of a key, and the hash that picks its shard.
///
/// The length and the hash of a short text stand in what its tag leaves free of a word, so that a key takes three words.
#[derive(Drop)]
enum Text {
    /// So many bytes of the array.
    Short {
        len: u8,
        hash: u32,
        bytes: [u8; MOST_INLINE_BYTES],
    },
    Long {
        hash: u32,
        text: ArcStr,
    },
}

impl Text {
    /// A copy of this text.
    fn new(alloc: Global, text: &str) -> Result<Self, OutOfMemory>
        ensures { IfOk result (IsText text.now) }
    {
        if text.len() <= MOST_INLINE_BYTES {
            return Ok(Text::short(text));
        }
        Text::from_string(String::from_str(alloc, text)?)
    }

    fn from_string(text: String) -> Result<Self, OutOfMemory>
        ensures { IfOk result (IsText (string_bytes text)) }
    {
        if text.len() <= MOST_INLINE_BYTES {
            return Ok(Text::short(text.as_str()));
        }
        let hash = hash_of(text.as_bytes());
        Ok(Text::Long {
            hash,
            text: ArcStr::from_string(text)?,
        })
    }

    fn short(text: &str) -> Self
        requires { length text.now ≤ MOST_INLINE_BYTES }
        ensures { IsText text.now result }
    {
        let bytes = text.as_bytes();
        Text::Short {
            len: bytes.len() as u8,
            hash: hash_of(bytes),
            bytes: padded(bytes),
        }
    }

    fn try_clone(&self) -> Result<Self, OutOfMemory>
        ensures { IfOk result (λ copy. (xs : List ℕ) → IsText xs self.now → IsText xs copy) }
    {
        let hash = self.hash();
        match self {
            Text::Short { len, bytes, .. } => Ok(Text::Short {
                len: *len,
                hash,
                bytes: *bytes,
            }),
            Text::Long { text, .. } => Ok(Text::Long {
                hash,
                text: text.clone()?,
            }),
        }
    }

    fn as_bytes(&self) -> &[u8]
        requires { IsWhole self.now }
        ensures { result.now ≡ text_bytes self.now }
    {
        match self {
            Text::Short { len, bytes, .. } => &bytes[..*len as usize],
            Text::Long { text, .. } => text.as_str().as_bytes(),
        }
    }

    fn as_str(&self) -> &str
        requires { IsWhole self.now }
        ensures { result.now ≡ text_bytes self.now }
    {
        match self {
            Text::Short { len, bytes, .. } => match str::from_utf8(&bytes[..*len as usize]) {
                Ok(text) => text,
                Err(_) => unreachable!(),
            },
            Text::Long { text, .. } => text.as_str(),
        }
    }

    fn hash(&self) -> u32
        ensures { result ≡ text_hash self.now }
    {
        match self {
            Text::Short { hash, .. } | Text::Long { hash, .. } => *hash,
        }
    }
}

/// The bytes, and zeros behind them.
fn padded(bytes: &[u8]) -> [u8; MOST_INLINE_BYTES]
    requires { length bytes.now ≤ MOST_INLINE_BYTES }
    ensures { take (length bytes.now) result ≡ bytes.now }
{
    let mut padded = [0; MOST_INLINE_BYTES];
    padded[..bytes.len()].copy_from_slice(bytes);
    padded
}

/// A key: text of 1 to 128 bytes, which contracts see as the list of its bytes.
///
/// A copy costs a few words: a short text is copied with them, and a longer one is shared.
#[derive(Drop)]
pub struct Key {
    text: Text,
}

impl Model for Key {
    ghost use Rattle.std.specs.Prelude.{◌≡◌, ℕ, List};
    ghost use Rattle.si_model.specs.KeyTexts.{IsKeyText};
    ghost use Rattle.si_model.specs.Keys.{IsText, text_bytes};

    ghost Value = { List ℕ };

    ghost view = { λ k. text_bytes k.text };

    ghost invariant = { λ k. IsKeyText (text_bytes k.text) × IsText (text_bytes k.text) k.text };
}

impl Key {
    /// Whether a text can be a key.
    pub fn fits(text: &str) -> bool
        ensures { IsTrue result ↔ IsKeyText text.now }
    {
        !text.is_empty() && text.len() <= MOST_KEY_BYTES
    }

    /// The key with a copy of this text.
    pub fn new(alloc: Global, text: &str) -> Result<Self, OutOfMemory>
        requires { IsKeyText text.now }
        ensures { IfOk result (λ key. key ≡ text.now) }
    {
        Ok(Key {
            text: Text::new(alloc, text)?,
        })
    }

    /// The key with the first so many of these bytes, a text whose hash this is.
    #[inline(always)]
    pub fn of_short(bytes: [u8; MOST_INLINE_BYTES], count: usize, hash: u32) -> Self
        requires some { 1 ≤ count }
        requires within { count ≤ MOST_INLINE_BYTES }
        requires text { IsUtf8 (take count bytes) }
        requires hash { hash ≡ shard_hash (take count bytes) }
        ensures { result ≡ take count bytes }
    {
        Key {
            text: Text::Short {
                len: count as u8,
                hash,
                bytes,
            },
        }
    }

    /// The key with this text, which is copied only where it is short.
    pub fn from_string(text: String) -> Result<Self, OutOfMemory>
        requires { IsKeyText (string_bytes text) }
        ensures { IfOk result (λ key. key ≡ string_bytes text) }
    {
        Ok(Key {
            text: Text::from_string(text)?,
        })
    }

    /// Another key of the same text.
    pub fn try_clone(&self) -> Result<Self, OutOfMemory>
        ensures { IfOk result (λ key. key ≡ self.now) }
    {
        Ok(Key {
            text: self.text.try_clone()?,
        })
    }

    /// The key's text, of 1 to 128 bytes.
    pub fn as_str(&self) -> &str
        ensures text { result.now ≡ self.now }
        ensures fits { IsKeyText result.now }
    {
        self.text.as_str()
    }

    /// The hash that picks the key's shard. It was computed when the key was made.
    pub fn shard_hash(&self) -> u32
        ensures { result ≡ shard_hash self.now }
    {
        self.text.hash()
    }
}

/// The shard of a key among so many, counted from 0.
pub fn shard_of(key: &Key, shards: usize) -> usize
    requires { 0 < shards }
    ensures number { result ≡ shard_number key.now shards }
    ensures within { result < shards }
{
    key.shard_hash() as usize % shards
}

#[tactic(auto, unfolding(crate::specs::KeyTexts::shard_hash))]
fn hash_of(bytes: &[u8]) -> u32
    ensures { result ≡ shard_hash bytes.now }
{
    bytes.iter().fold(0, |hash, byte| hash_with(hash, *byte))
}

/// The hash of a key's text after one more byte, from 0.
#[inline(always)]
pub fn hash_with(hash: u32, byte: u8) -> u32
    ensures { result ≡ shard_hash_with hash byte }
{
    ((31 * u64::from(hash) + u64::from(byte)) % 4_294_967_296) as u32
}

impl PartialEq for Key {
    ghost use Rattle.std.specs.Prelude.{nat_eq};
    ghost use Rattle.std.specs.Cmp;
    ghost use Rattle.std.specs.Cmp.Lexicographic.{pointwise, nat_list_eq_equiv};

    ghost eq = { pointwise nat_eq };

    ghost laws = { Cmp.partial_equiv_from_equiv nat_list_eq_equiv };

    fn eq(&self, other: &Self) -> bool {
        self.text.as_bytes() == other.text.as_bytes()
    }
}

impl Eq for Key {
    ghost use Rattle.std.specs.Cmp.Lexicographic.{nat_list_eq_equiv};

    ghost laws = { nat_list_eq_equiv };
}

impl PartialOrd for Key {
    ghost use Rattle.std.specs.Prelude.{Some};
    ghost use Rattle.std.specs.Ordering.{nat_cmp};
    ghost use Rattle.std.specs.Cmp.Lexicographic.{slice_cmp, texts_po};

    ghost partial_cmp = { λ x y. Some (slice_cmp nat_cmp x y) };

    ghost laws = { texts_po };

    fn partial_cmp(&self, other: &Self) -> Option<Ordering> {
        Some(self.cmp(other))
    }
}

/// Keys are in the order of their bytes.
impl Ord for Key {
    ghost use Rattle.std.specs.Prelude.{refl};
    ghost use Rattle.std.specs.Ordering.{nat_cmp};
    ghost use Rattle.std.specs.Cmp.Lexicographic.{slice_cmp, nat_list_cmp_total, texts_ties};

    ghost cmp = { slice_cmp nat_cmp };

    ghost total = { nat_list_cmp_total };

    ghost matches_partial_cmp = { λ x y. refl };

    ghost matches_eq = { texts_ties };

    fn cmp(&self, other: &Self) -> Ordering {
        self.text.as_bytes().cmp(other.text.as_bytes())
    }
}

impl Hash for Key {
    ghost use Rattle.std.specs.Prelude.{[], ◌∷◌};
    ghost use Rattle.std.proofs.Common.{rules};
    ghost use Rattle.std.specs.Cmp.Rules.{hashing};

    ghost hash_input = { λ k. k ∷ [] };

    ghost respects_eq = { Prim.search (hashing, rules) };

    fn hash<H: Hasher>(&self, state: &mut H) {
        // (one write, as a key's hash is fed nothing besides it)
        state.write(self.text.as_bytes());
    }
}

impl fmt::Display for Key {
    ghost use Rattle.std.specs.Prelude.{Some};

    ghost output = { λ k. Some k };

    fn fmt<W: fmt::Write>(&self, f: &mut fmt::Formatter<W>) -> fmt::Result {
        fmt::Display::fmt(self.as_str(), f)
    }
}

impl fmt::Debug for Key {
    fn fmt<W: fmt::Write>(&self, f: &mut fmt::Formatter<W>) -> fmt::Result {
        fmt::Debug::fmt(self.as_str(), f)
    }
}
