//! Devices over std's readers and writers: files, pipes, the standard streams.

ghost use Rattle.std.specs.Prelude.{ℕ, List, ◌≡◌, ◌<◌, ◌≤◌, ◌↔◌, ◌++◌, ◌||◌, [], IfOk, IsTrue, OnErr, Some, false, is_err, length, take};
ghost use Rattle.std.specs.IoError.{error_kind};
ghost use Rattle.std.specs.Io.{ReadsAtMost, WritesAtMost};
ghost use Rattle.std.specs.Io.KnownBytes.{ReadConsumes, WriteAppends};
ghost use Rattle.si_text.specs.Devices.{MayGive, turned_by};
ghost use Rattle.si_text.specs.Streams.{given_by, given_with, left_by};

use crate::devices::{ByteSink, ByteSource, DeviceFailed};
use boxcar::tag::{Names, Tag};
use std::io;
use std::io::{ErrorKind, Read, Write};
use std::marker::PhantomData;

/// A name for the bytes that sources will give, each by its place among them: what is proved for every such name holds of the bytes
/// that were given in the end. It stands in contracts alone, and no code depends on it.
pub trait Foreseen {
    ghost bytes: { ℕ → List ℕ };
}

/// A source over a reader of std.
///
/// A read that a signal interrupts is tried again.
#[derive(Drop)]
pub struct StdSource<R, Z> {
    reader: R,
    foreseen: PhantomData<Z>,
    /// Its place among the sources.
    place: usize,
    /// What the reader has given so far, up to the end. It has no bytes when the program runs.
    given: Tag,
    /// Whether a read has found the end.
    has_ended: bool,
    /// Whether a later one gave bytes behind it.
    has_gone_on: bool,
    has_failed: bool,
    /// Whether an odd number of reads has failed.
    has_turned: bool,
    /// What the system said of the last read that failed.
    cause: Option<io::Error>,
}

impl<R: Read, Z: Foreseen> StdSource<R, Z> {
    /// A source of what the reader gives, at this place among the sources.
    pub fn new(reader: R, place: usize) -> Self
        ensures left { (⟦<StdSource<R, Z> as ByteSource>⟧.seen result).left ≡ Some (Z.bytes place) }
        ensures failed { (⟦<StdSource<R, Z> as ByteSource>⟧.seen result).failed ≡ false }
    {
        StdSource {
            reader,
            foreseen: PhantomData,
            place,
            given: Tag::empty(),
            has_ended: false,
            has_gone_on: false,
            has_failed: false,
            has_turned: false,
            cause: None,
        }
    }
}

impl<R: Read, Z: Foreseen> ByteSource for StdSource<R, Z> {
    ghost seen = { λ source. record { left = left_by (Z.bytes source.place) (given_by source); failed = source.has_failed; turned = source.has_turned } };

    /// What the reader gives is kept in mind, piece by piece.
    fn read(&mut self, buffer: &mut [u8]) -> Result<usize, DeviceFailed>
        requires { 0 < length buffer.old }
        ensures bound { ReadsAtMost result buffer.new }
        ensures bytes { MayGive (left_by (Z.bytes self.old.place) (given_by self.old)) (left_by (Z.bytes self.new.place) (given_by self.new))
            result buffer.new }
        ensures failed { self.new.has_failed ≡ (self.old.has_failed || is_err result) }
        ensures turned { self.new.has_turned ≡ turned_by (is_err result) self.old.has_turned }
        ensures given { IfOk result (λ count. given_by self.new ≡ given_with (given_by self.old) (take count buffer.new)) }
        ensures still { OnErr result (given_by self.new ≡ given_by self.old) }
        ensures place { self.new.place ≡ self.old.place }
        ensures reader { ReadConsumes (R.remaining self.old.reader) (R.remaining self.new.reader) result buffer.new }
    {
        'tries: for _ in 0..u64::MAX {
            match self.reader.read(buffer) {
                Ok(count) => {
                    if count == 0 {
                        self.has_ended = true;
                    } else if self.has_ended {
                        self.has_gone_on = true;
                    } else {
                        self.given = moved(&self.given, &buffer[..count]);
                    }
                    return Ok(count);
                }
                Err(error) => {
                    if !is_interrupted(&error) {
                        self.has_failed = true;
                        self.has_turned = !self.has_turned;
                        self.cause = Some(error);
                        return Err(DeviceFailed);
                    }
                }
            }
        }
        self.has_failed = true;
        self.has_turned = !self.has_turned;
        Err(DeviceFailed)
    }

    fn cause(&self) -> Option<io::Error> {
        self.cause
    }
}

/// A sink over a writer of std.
///
/// A write that a signal interrupts is tried again. A write that takes no byte has failed.
#[derive(Drop)]
pub struct StdSink<W> {
    writer: W,
    has_failed: bool,
    /// What the writer has taken so far. It has no bytes when the program runs.
    taken: Tag,
    /// What the system said of the last write that failed.
    cause: Option<io::Error>,
}

impl<W: Write> StdSink<W> {
    /// A sink to what the writer takes.
    pub fn new(writer: W) -> Self
        ensures written { (⟦<StdSink<W> as ByteSink>⟧.seen result).written ≡ Some [] }
        ensures failed { (⟦<StdSink<W> as ByteSink>⟧.seen result).failed ≡ false }
    {
        StdSink {
            writer,
            has_failed: false,
            taken: Tag::empty(),
            cause: None,
        }
    }
}

impl<W: Write> ByteSink for StdSink<W> {
    ghost seen = { λ sink. record { written = Some sink.taken.numbers; failed = sink.has_failed } };

    /// What the writer takes is kept in mind, piece by piece.
    fn write(&mut self, bytes: &[u8]) -> Result<usize, DeviceFailed>
        requires { 0 < length bytes.now }
        ensures some { IfOk result (λ count. 1 ≤ count) }
        ensures bound { WritesAtMost result bytes.now }
        ensures bytes { WriteAppends (Some self.old.taken.numbers) (Some self.new.taken.numbers) result bytes.now }
        ensures failed { self.new.has_failed ≡ (self.old.has_failed || is_err result) }
        ensures writer { WriteAppends (W.contents self.old.writer) (W.contents self.new.writer) result bytes.now }
    {
        'tries: for _ in 0..u64::MAX {
            match self.writer.write(bytes) {
                Ok(0) => {
                    self.has_failed = true;
                    return Err(DeviceFailed);
                }
                Ok(count) => {
                    self.taken = moved(&self.taken, &bytes[..count]);
                    return Ok(count);
                }
                Err(error) => {
                    if !is_interrupted(&error) {
                        self.has_failed = true;
                        self.cause = Some(error);
                        return Err(DeviceFailed);
                    }
                }
            }
        }
        self.has_failed = true;
        Err(DeviceFailed)
    }

    fn cause(&self) -> Option<io::Error> {
        self.cause
    }
}

/// Whether a signal came before anything was done.
fn is_interrupted(error: &io::Error) -> bool
    ensures { IsTrue result ↔ (error_kind error.now ≡ ErrorKind.Interrupted) }
{
    error.kind() == ErrorKind::Interrupted
}

/// A piece, and what was moved before it.
#[derive(Drop)]
struct Next<'a> {
    before: &'a Tag,
    piece: &'a [u8],
}

/// What was moved with it.
#[derive(Drop)]
struct Grown;

impl<'a> Names<Next<'a>> for Grown {
    ghost numbers = { λ next. next.before.now.numbers ++ next.piece.now };
}

/// What was moved, with a piece behind it. It does nothing when the program runs.
fn moved(before: &Tag, piece: &[u8]) -> Tag
    ensures { result.numbers ≡ before.now.numbers ++ piece.now }
{
    Tag::of::<_, Grown>(&Next { before, piece })
}
