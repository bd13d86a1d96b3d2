//! Words, numbers and keys, taken from the bytes of a line.
//!
//! A function here that gives no answer may have taken bytes.

ghost use Rattle.std.specs.Prelude.{◌≡◌, ◌≤◌, ◌<◌, ◌==◌, ◌++◌, length, take, slice_index, MatchBool, IfSome, IsTrue, IsAscii};
ghost use Rattle.si_model.specs.KeyTexts.{IsKeyText};
ghost use Rattle.si_text.specs.UsualBytes.{Takes, TakesWhole, TakesText, TakesNumber, EndsValue, AreDigits, IsPlain};

use crate::known_keys::SharedKeys;
use si_model::Key;
use si_model::keys::{MOST_INLINE_BYTES, hash_with};
use std::marker::Model;

/// The most digits whose number surely fits 64 bits.
const MOST_DIGITS: usize = 19;

/// The bytes of a line that aren't taken yet. Contracts see their list.
#[derive(Drop)]
pub(crate) struct Rest<'a> {
    bytes: &'a [u8],
}

impl<'a> Model for Rest<'a> {
    ghost use Rattle.std.specs.Prelude.{List, ℕ};

    ghost Value = { List ℕ };

    ghost view = { λ r. r.bytes.now };
}

impl<'a> Rest<'a> {
    /// A line of which nothing is taken yet.
    pub(crate) fn new(line: &'a [u8]) -> Self
        ensures { result ≡ line.now }
    {
        Rest { bytes: line }
    }

    /// Whether all is taken.
    pub(crate) fn is_empty(&self) -> bool
        ensures { result ≡ (length self.now == 0) }
    {
        self.bytes.is_empty()
    }

    /// The byte at this place.
    #[inline(always)]
    pub(crate) fn byte_at(&self, index: usize) -> Option<u8>
        ensures { IfSome result (λ byte. byte ≡ slice_index self.now index) }
    {
        if index >= self.bytes.len() {
            return None;
        }
        Some(self.bytes[index])
    }

    /// Takes this word, with a space behind it if there is one, and says whether the bytes begin with it.
    #[inline(always)]
    pub(crate) fn take(&mut self, word: &[u8]) -> bool
        ensures { MatchBool result (Takes word.now self.old self.new) (self.new ≡ self.old) }
    {
        if !begins_with(self.bytes, word) {
            return false;
        }
        let count = word.len();
        let spaced = count < self.bytes.len() && self.bytes[count] == b' ';
        self.pass(if spaced { count + 1 } else { count });
        true
    }

    /// Takes this word, and says whether it is a whole value.
    #[inline(always)]
    pub(crate) fn take_whole(&mut self, word: &[u8]) -> bool
        ensures { MatchBool result (TakesWhole word.now self.old self.new) (self.new ≡ self.old) }
    {
        if !begins_with(self.bytes, word) || !ends_value(&self.bytes[word.len()..]) {
            return false;
        }
        self.pass(word.len());
        true
    }

    /// Whether a value ends before the bytes.
    #[inline(always)]
    pub(crate) fn ends_value(&self) -> bool
        ensures { IsTrue result → EndsValue self.now }
    {
        ends_value(self.bytes)
    }

    /// Passes so many bytes.
    #[inline(always)]
    fn pass(&mut self, count: usize)
        requires { count ≤ length self.old }
        ensures { self.old ≡ take count self.old ++ self.new }
    {
        self.bytes = &self.bytes[count..];
    }

    /// The number that the bytes begin with.
    #[inline(always)]
    pub(crate) fn number(&mut self) -> Option<u64>
        ensures { IfSome result (λ number. TakesNumber number self.old self.new) }
    {
        let (number, count) = digits(self.bytes);
        if count == 0 || (count > 1 && self.bytes[0] == b'0') {
            return None;
        }
        self.pass(count);
        if !self.ends_value() {
            return None;
        }
        Some(number)
    }

    /// The key that the bytes begin with, in quotes.
    #[inline(always)]
    pub(crate) fn key(&mut self, keys: &mut SharedKeys) -> Option<Key>
        ensures text { IfSome result (λ key. TakesText key self.old self.new) }
        ensures fits { IfSome result IsKeyText }
    {
        if self.bytes.is_empty() || self.bytes[0] != b'"' {
            return None;
        }
        let text = &self.bytes[1..];
        let mut bytes = [0u8; MOST_INLINE_BYTES];
        let mut hash = 0u32;
        let mut count = 0;
        'bytes: while count < MOST_INLINE_BYTES && count < text.len() {
            let byte = text[count];
            if !is_plain(byte) {
                break;
            }
            bytes[count] = byte;
            hash = hash_with(hash, byte);
            count += 1;
        }
        if count == text.len() || text[count] != b'"' {
            return self.long_key(keys);
        }
        if count == 0 {
            return None;
        }
        self.pass(count + 2);
        Some(Key::of_short(bytes, count, hash))
    }

    /// The same, of a key that may be longer.
    #[inline(never)]
    fn long_key(&mut self, keys: &mut SharedKeys) -> Option<Key>
        requires some { 0 < length self.old }
        requires quote { slice_index self.old 0 ≡ 34 }
        ensures text { IfSome result (λ key. TakesText key self.old self.new) }
        ensures fits { IfSome result IsKeyText }
    {
        let text = &self.bytes[1..];
        let mut count = 0;
        'bytes: while count < text.len() && is_plain(text[count]) {
            count += 1;
        }
        if count == text.len() || text[count] != b'"' {
            return None;
        }
        let Ok(text) = std::str::from_utf8(&text[..count]) else {
            return None;
        };
        if !Key::fits(text) {
            return None;
        }
        let Ok(key) = keys.key(text) else {
            return None;
        };
        self.pass(count + 2);
        Some(key)
    }
}

/// Whether all bytes are ASCII.
pub(crate) fn is_ascii(bytes: &[u8]) -> bool
    ensures { IsTrue result → IsAscii bytes.now }
{
    // (no byte ends the loop, so that many are looked at at once)
    let mut ascii = true;
    let mut i = 0;
    'bytes: while i < bytes.len() {
        ascii = (bytes[i] < 128) & ascii;
        i += 1;
    }
    ascii
}

/// Whether a value ends before these bytes.
#[inline(always)]
fn ends_value(bytes: &[u8]) -> bool
    ensures { IsTrue result → EndsValue bytes.now }
{
    !bytes.is_empty() && (bytes[0] == b',' || bytes[0] == b'}' || bytes[0] == b']')
}

/// Whether the bytes begin with this word.
#[inline(always)]
fn begins_with(bytes: &[u8], word: &[u8]) -> bool
    ensures bytes { IsTrue result → take (length word.now) bytes.now ≡ word.now }
    ensures within { IsTrue result → length word.now ≤ length bytes.now }
{
    if bytes.len() < word.len() {
        return false;
    }
    // (all are compared, so that the words of the code are compared some bytes at once)
    let mut same = true;
    let mut i = 0;
    'bytes: while i < word.len() {
        same = (bytes[i] == word[i]) & same;
        i += 1;
    }
    same
}

/// The number that the digits at the front are, and how many there are; of more than 19 it is that of the first ones.
#[inline(always)]
fn digits(bytes: &[u8]) -> (u64, usize)
    ensures digits { AreDigits result.0 (take result.1 bytes.now) }
    ensures few { result.1 ≤ MOST_DIGITS }
    ensures within { result.1 ≤ length bytes.now }
{
    let mut number = 0u64;
    let mut count = 0;
    'digits: while count < MOST_DIGITS && count < bytes.len() {
        let byte = bytes[count];
        if byte < b'0' || byte > b'9' {
            break;
        }
        number = number * 10 + u64::from(byte - b'0');
        count += 1;
    }
    (number, count)
}

/// Whether a byte is a character that stands for itself in a JSON string.
#[inline(always)]
fn is_plain(byte: u8) -> bool
    ensures { IsTrue result → IsPlain byte }
{
    byte >= b' ' && byte <= b'~' && byte != b'"' && byte != b'\\'
}
