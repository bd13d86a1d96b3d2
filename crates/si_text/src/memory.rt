//! Devices in memory, and ones that fail after so many calls: for tests, and for callers who have the bytes.

ghost use Rattle.std.specs.Prelude.{◌≡◌, ◌≤◌, ◌<◌, ◌+◌, ◌||◌, ◌==◌, Some, Ok, [], length, drop, min, true, false, vec_len, is_err, IfOk};
ghost use Rattle.std.specs.Io.{ReadsAtMost, WritesAtMost};
ghost use Rattle.std.specs.Io.KnownBytes.{ReadConsumes, WriteAppends};
ghost use Rattle.si_text.specs.Devices.{MayGive, turned_by};

use crate::devices::{ByteSink, ByteSource, DeviceFailed};
use std::alloc::Global;

/// A source over a list of bytes, which gives at most so many of them at a read. It doesn't fail.
#[derive(Drop)]
pub struct MemorySource {
    bytes: Vec<u8>,
    /// How many bytes were given.
    given: usize,
    piece: usize,
    ghost within: { given ≤ vec_len bytes },
    ghost some: { 1 ≤ piece },
}

impl MemorySource {
    ghost use Rattle.si_text.specs.Memory.{most_given};

    /// A source of these bytes, in pieces of at most so many.
    pub fn new(bytes: Vec<u8>, piece: usize) -> Self
        requires { 1 ≤ piece }
        ensures left { (⟦<MemorySource as ByteSource>⟧.seen result).left ≡ Some bytes.items }
        ensures piece { most_given result ≡ piece }
        ensures failed { (⟦<MemorySource as ByteSource>⟧.seen result).failed ≡ false }
    {
        MemorySource {
            bytes,
            given: 0,
            piece,
        }
    }
}

impl ByteSource for MemorySource {
    ghost use Rattle.si_text.specs.Memory.{bytes_left, most_given};

    ghost seen = { λ source. record { left = Some (drop source.given source.bytes.items); failed = false; turned = false } };

    /// Gives as many of its next bytes as there is room for and one piece may have, and none only at the end.
    fn read(&mut self, buffer: &mut [u8]) -> Result<usize, DeviceFailed>
        requires { 0 < length buffer.old }
        ensures bound { ReadsAtMost result buffer.new }
        ensures bytes { ReadConsumes (Some (bytes_left self.old)) (Some (bytes_left self.new)) result
            buffer.new }
        ensures gives { result ≡ Ok (min (min (length buffer.old) (most_given self.old))
            (length (bytes_left self.old))) }
        ensures piece { most_given self.new ≡ most_given self.old }
    {
        let rest = self.bytes.len() - self.given;
        let count = buffer.len().min(self.piece).min(rest);
        let end = self.given + count;
        buffer[..count].copy_from_slice(&self.bytes[self.given..end]);
        self.given = end;
        Ok(count)
    }
}

/// A sink that collects what is written, and takes at most so many bytes at a write. It fails only where memory is refused.
#[derive(Drop)]
pub struct MemorySink {
    bytes: Vec<u8>,
    piece: usize,
    has_failed: bool,
    ghost some: { 1 ≤ piece },
}

impl MemorySink {
    ghost use Rattle.si_text.specs.Memory.{most_taken};

    /// An empty sink that takes pieces of at most so many bytes.
    pub fn new(alloc: Global, piece: usize) -> Self
        requires { 1 ≤ piece }
        ensures written { (⟦<MemorySink as ByteSink>⟧.seen result).written ≡ Some [] }
        ensures piece { most_taken result ≡ piece }
        ensures failed { (⟦<MemorySink as ByteSink>⟧.seen result).failed ≡ false }
    {
        MemorySink {
            bytes: Vec::new(alloc),
            piece,
            has_failed: false,
        }
    }

    /// What was written so far.
    pub fn as_slice(&self) -> &[u8]
        ensures { (⟦<MemorySink as ByteSink>⟧.seen self.now).written ≡ Some result.now }
    {
        self.bytes.as_slice()
    }
}

impl ByteSink for MemorySink {
    ghost use Rattle.si_text.specs.Memory.{bytes_taken, has_failed, most_taken};

    ghost seen = { λ sink. record { written = Some sink.bytes.items; failed = sink.has_failed } };

    /// Takes as many bytes as one piece may have.
    fn write(&mut self, bytes: &[u8]) -> Result<usize, DeviceFailed>
        requires { 0 < length bytes.now }
        ensures some { IfOk result (λ count. 1 ≤ count) }
        ensures bound { WritesAtMost result bytes.now }
        ensures bytes { WriteAppends (Some (bytes_taken self.old)) (Some (bytes_taken self.new)) result
            bytes.now }
        ensures failed { has_failed self.new ≡ (has_failed self.old || is_err result) }
        ensures takes { IfOk result
            (λ count. count ≡ min (length bytes.now) (most_taken self.old)) }
        ensures piece { most_taken self.new ≡ most_taken self.old }
    {
        let count = bytes.len().min(self.piece);
        if self.bytes.extend_from_slice(&bytes[..count]).is_err() {
            self.has_failed = true;
            return Err(DeviceFailed);
        }
        Ok(count)
    }
}

/// A source that gives what another one gives, until its reads fail.
#[derive(Drop)]
pub struct FailingSource<S> {
    source: S,
    /// How many reads are left before each one fails.
    reads: u64,
    has_failed: bool,
    /// Whether an odd number of reads has failed that weren't passed on.
    has_turned: bool,
}

impl<S: ByteSource> FailingSource<S> {
    ghost use Rattle.si_text.specs.Memory.{reads_left, source_behind};

    /// A source whose first `reads` reads are those of the other one, and all later ones fail.
    pub fn new(source: S, reads: u64) -> Self
        ensures left { (⟦<FailingSource<S> as ByteSource>⟧.seen result).left ≡ (S.seen source).left }
        ensures failed { (⟦<FailingSource<S> as ByteSource>⟧.seen result).failed
            ≡ (S.seen source).failed }
        ensures reads { reads_left result ≡ reads }
        ensures behind { source_behind result ≡ source }
    {
        FailingSource {
            source,
            reads,
            has_failed: false,
            has_turned: false,
        }
    }
}

impl<S: ByteSource> ByteSource for FailingSource<S> {
    ghost use Rattle.si_text.specs.Memory.{reads_left, source_behind, source_seen};

    ghost seen = { source_seen S.seen };

    /// While reads are left, the answer is the other source's, and fails only where that one does. Then each read fails.
    fn read(&mut self, buffer: &mut [u8]) -> Result<usize, DeviceFailed>
        requires { 0 < length buffer.old }
        ensures bound { ReadsAtMost result buffer.new }
        ensures bytes { MayGive (source_seen S.seen self.old).left (source_seen S.seen self.new).left
            result buffer.new }
        ensures failed { (source_seen S.seen self.new).failed
            ≡ ((source_seen S.seen self.old).failed || is_err result) }
        ensures turned { (source_seen S.seen self.new).turned
            ≡ turned_by (is_err result) (source_seen S.seen self.old).turned }
        ensures passed { 0 < reads_left self.old → (reads_left self.new + 1 ≡ reads_left self.old)
            × ((S.seen (source_behind self.new)).turned
            ≡ turned_by (is_err result) (S.seen (source_behind self.old)).turned) }
        ensures spent { reads_left self.old ≡ 0 → (is_err result ≡ true)
            × (source_behind self.new ≡ source_behind self.old) × (reads_left self.new ≡ 0) }
    {
        if self.reads == 0 {
            self.has_failed = true;
            self.has_turned = !self.has_turned;
            return Err(DeviceFailed);
        }
        self.reads -= 1;
        self.source.read(buffer)
    }
}

/// A sink that takes what another one takes, until its writes fail.
#[derive(Drop)]
pub struct FailingSink<W> {
    sink: W,
    /// How many writes are left before each one fails.
    writes: u64,
    has_failed: bool,
}

impl<W: ByteSink> FailingSink<W> {
    ghost use Rattle.si_text.specs.Memory.{writes_left, sink_behind};

    /// A sink whose first `writes` writes are those of the other one, and all later ones fail.
    pub fn new(sink: W, writes: u64) -> Self
        ensures written { (⟦<FailingSink<W> as ByteSink>⟧.seen result).written ≡ (W.seen sink).written }
        ensures failed { (⟦<FailingSink<W> as ByteSink>⟧.seen result).failed ≡ (W.seen sink).failed }
        ensures writes { writes_left result ≡ writes }
        ensures behind { sink_behind result ≡ sink }
    {
        FailingSink {
            sink,
            writes,
            has_failed: false,
        }
    }
}

impl<W: ByteSink> ByteSink for FailingSink<W> {
    ghost use Rattle.si_text.specs.Memory.{writes_left, sink_behind, sink_seen};

    ghost seen = { sink_seen W.seen };

    /// While writes are left, the answer is the other sink's, and fails only where that one does. Then each write fails.
    fn write(&mut self, bytes: &[u8]) -> Result<usize, DeviceFailed>
        requires { 0 < length bytes.now }
        ensures some { IfOk result (λ count. 1 ≤ count) }
        ensures bound { WritesAtMost result bytes.now }
        ensures bytes { WriteAppends (sink_seen W.seen self.old).written (sink_seen W.seen self.new).written
            result bytes.now }
        ensures failed { (sink_seen W.seen self.new).failed
            ≡ ((sink_seen W.seen self.old).failed || is_err result) }
        ensures passed { 0 < writes_left self.old → (writes_left self.new + 1 ≡ writes_left self.old)
            × ((W.seen (sink_behind self.new)).failed
            ≡ ((W.seen (sink_behind self.old)).failed || is_err result)) }
        ensures spent { writes_left self.old ≡ 0 → (is_err result ≡ true)
            × (sink_behind self.new ≡ sink_behind self.old) × (writes_left self.new ≡ 0) }
    {
        if self.writes == 0 {
            self.has_failed = true;
            return Err(DeviceFailed);
        }
        self.writes -= 1;
        self.sink.write(bytes)
    }
}
