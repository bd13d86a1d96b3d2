//! The bytes that were read at once, of which lines are taken.

ghost use Rattle.std.specs.Prelude.{◌≡◌, ◌≤◌, ◌||◌, [], length, drop, ◌<◌, IfOk, is_err, OnErr, MatchBool};
ghost use Rattle.std.specs.Io.KnownBytes.{IsAtEnd};
ghost use Rattle.si_text.specs.Devices.{MayConsume, turned_by};

use crate::devices::{ByteSource, DeviceFailed};
use std::alloc::{AllocError, Global};
use std::marker::Model;

/// The most bytes that are read at once.
const MOST_READ: usize = 16_384;

/// The bytes that were read last and aren't taken yet. Contracts see their list.
#[derive(Drop)]
pub(crate) struct Piece {
    room: Vec<u8>,
    /// Where the bytes that aren't taken yet begin and end in the room.
    start: usize,
    end: usize,
}

impl Model for Piece {
    ghost use Rattle.std.specs.Prelude.{◌≡◌, ◌≤◌, ◌-◌, ℕ, List, take, drop, length};

    ghost Value = { List ℕ };

    ghost view = { λ p. take (p.end - p.start) (drop p.start p.room.items) };

    ghost invariant = { λ p. (p.start ≤ p.end) × (p.end ≤ 16384) × (length p.room.items ≡ 16384) };
}

impl Piece {
    /// No bytes.
    pub(crate) fn new(alloc: Global) -> Result<Self, AllocError>
        ensures { IfOk result (λ piece. piece ≡ []) }
    {
        Ok(Piece {
            room: vec![in alloc; 0u8; MOST_READ]?,
            start: 0,
            end: 0,
        })
    }

    /// The bytes that aren't taken yet.
    pub(crate) fn as_slice(&self) -> &[u8]
        ensures { result.now ≡ self.now }
    {
        &self.room[self.start..self.end]
    }

    /// Takes so many bytes from the front.
    pub(crate) fn take(&mut self, count: usize)
        requires { count ≤ length self.old }
        ensures { self.new ≡ drop count self.old }
    {
        self.start += count;
    }

    /// Reads the next bytes once all are taken, and says whether there were any.
    pub(crate) fn fill<S: ByteSource>(&mut self, source: &mut S) -> Result<bool, DeviceFailed>
        requires { self.old ≡ [] }
        ensures bytes { IfOk result
            (λ some. MayConsume (S.seen source.old).left (S.seen source.new).left self.new) }
        ensures end { IfOk result (λ some. MatchBool some (0 < length self.new)
            ((self.new ≡ []) × IsAtEnd (S.seen source.new).left)) }
        ensures err { OnErr result
            ((self.new ≡ []) × MayConsume (S.seen source.old).left (S.seen source.new).left []) }
        ensures failed { (S.seen source.new).failed ≡ ((S.seen source.old).failed || is_err result) }
        ensures turned { (S.seen source.new).turned ≡ turned_by (is_err result) (S.seen source.old).turned }
    {
        self.start = 0;
        self.end = 0;
        let count = source.read(self.room.as_mut_slice())?;
        self.end = count;
        Ok(count > 0)
    }
}
