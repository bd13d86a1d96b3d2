//! Devices over those of std: what is interrupted is tried again and nothing else is, and a large text goes through them whole.

use super::{Any, Host, are_same, is_text};
use si_text::{ByteSink, ByteSource, DeviceFailed, StdSink, StdSource};
use std::io;
use std::io::{ErrorKind, Read, Write};

/// A device that gives or takes a byte at each third call, and whose other calls are interrupted. From one call on each fails.
#[derive(Drop)]
struct Halting {
    calls: u64,
    /// The call from which on each one fails.
    last: u64,
    kind: ErrorKind,
    written: Vec<u8>,
}

impl Halting {
    /// Counts a call, which may go on where no error is told.
    fn call(&mut self) -> io::Result<()> {
        self.calls = self.calls.saturating_add(1);
        if self.calls >= self.last {
            return Err(io::Error::from(self.kind));
        }
        if self.calls % 3 != 0 {
            return Err(io::Error::from(ErrorKind::Interrupted));
        }
        Ok(())
    }
}

impl Read for Halting {
    fn read(&mut self, buf: &mut [u8]) -> io::Result<usize> {
        self.call()?;
        if buf.is_empty() {
            return Ok(0);
        }
        buf[0] = b'a';
        Ok(1)
    }
}

impl Write for Halting {
    fn write(&mut self, buf: &[u8]) -> io::Result<usize> {
        self.call()?;
        if buf.is_empty() {
            return Ok(0);
        }
        self.written.push(buf[0])?;
        Ok(1)
    }

    fn flush(&mut self) -> io::Result<()> {
        Ok(())
    }
}

fn device_failing_from(rt: &impl Host, last: u64, kind: ErrorKind) -> Halting {
    Halting {
        calls: 0,
        last,
        kind,
        written: Vec::new(rt.alloc()),
    }
}

/// What a read with room for four bytes answers, and what the room has then.
fn read_of<S: ByteSource>(source: &mut S) -> (Result<usize, DeviceFailed>, [u8; 4]) {
    let mut buffer = [0u8; 4];
    let count = source.read(buffer.as_mut_slice());
    (count, buffer)
}

#[test]
fn interrupted_calls(rt: HostRuntime) {
    let mut device = device_failing_from(&rt, u64::MAX, ErrorKind::Other);
    for byte in [b'x', b'y'] {
        let read = read_of(&mut StdSource::<_, Any>::new(&mut device, 0));
        assert!(rt; read == (Ok(1), [b'a', 0, 0, 0]));
        let written = StdSink::new(&mut device).write(&[byte, b'z']);
        are_same(&rt, written, Ok(1));
    }
    are_same(&rt, device.calls, 12);
    is_text(&rt, device.written.as_slice(), "xy");
}

const OTHER_KINDS: [ErrorKind; 11] = [
    ErrorKind::NotFound,
    ErrorKind::PermissionDenied,
    ErrorKind::ConnectionReset,
    ErrorKind::BrokenPipe,
    ErrorKind::WouldBlock,
    ErrorKind::TimedOut,
    ErrorKind::WriteZero,
    ErrorKind::StorageFull,
    ErrorKind::UnexpectedEof,
    ErrorKind::OutOfMemory,
    ErrorKind::Other,
];

/// How a read ends that fails at that call, and how many calls there were.
fn failing_read(rt: &impl Host, last: u64, kind: ErrorKind) -> (Result<usize, DeviceFailed>, u64) {
    let mut device = device_failing_from(rt, last, kind);
    let (read, _) = read_of(&mut StdSource::<_, Any>::new(&mut device, 0));
    (read, device.calls)
}

/// The same of a write.
fn failing_write(rt: &impl Host, last: u64, kind: ErrorKind) -> (Result<usize, DeviceFailed>, u64) {
    let mut device = device_failing_from(rt, last, kind);
    let mut sink = StdSink::new(&mut device);
    let written = sink.write(b"a");
    drop(sink);
    (written, device.calls)
}

/// A call that fails otherwise is the last one, also behind an interrupted one.
#[test]
fn calls_that_fail(rt: HostRuntime) {
    for kind in OTHER_KINDS {
        for last in 1..3 {
            let wanted = (Err(DeviceFailed), last);
            are_same(&rt, failing_read(&rt, last, kind), wanted);
            are_same(&rt, failing_write(&rt, last, kind), wanted);
        }
    }
}

/// Bytes of which no piece of a power of two is like the next.
fn many_bytes(rt: &impl Host) -> Vec<u8> {
    let mut bytes = Vec::new(rt.alloc());
    for _ in 0..800 {
        for byte in 0..250 {
            bytes.push(byte).expect(rt, "memory");
        }
    }
    bytes
}

/// A read of a byte gives this one.
fn gives_byte<H: Host, S: ByteSource>(rt: &H, source: &mut S, byte: u8) {
    let mut buffer = [0u8; 1];
    are_same(rt, source.read(buffer.as_mut_slice()), Ok(1));
    are_same(rt, buffer[0], byte);
}

/// Moves a byte from the one to the other, and compares it.
fn moves_byte<H: Host, S: ByteSource, W: ByteSink>(rt: &H, source: &mut S, sink: &mut W, byte: u8) {
    gives_byte(rt, source, byte);
    are_same(rt, sink.write(&[byte]), Ok(1));
}

#[test]
fn large_texts_byte_by_byte(rt: HostRuntime) {
    let bytes = many_bytes(&rt);
    let mut source = StdSource::<_, Any>::new(bytes.as_slice(), 0);
    let mut taken = Vec::new(rt.alloc());
    let mut sink = StdSink::new(&mut taken);
    for byte in &bytes {
        moves_byte(&rt, &mut source, &mut sink, *byte);
    }
    are_same(&rt, source.read(&mut [0u8; 1]), Ok(0));
    drop(sink);
    assert!(rt; taken == bytes);
}

/// A read of all gives these bytes.
fn gives_at_once(rt: &impl Host, bytes: &[u8]) {
    let mut source = StdSource::<_, Any>::new(bytes, 0);
    let mut buffer = vec![in rt.alloc(); 0u8; 300_000].expect(rt, "memory");
    are_same(rt, source.read(buffer.as_mut_slice()), Ok(200_000));
    buffer.truncate(200_000);
    assert!(rt; buffer.as_slice() == bytes);
}

/// A write of all takes them.
fn takes_at_once(rt: &impl Host, bytes: &[u8]) {
    assert!(rt; !bytes.is_empty());
    let mut taken = Vec::new(rt.alloc());
    let written = StdSink::new(&mut taken).write(bytes);
    are_same(rt, written, Ok(200_000));
    assert!(rt; taken.as_slice() == bytes);
}

#[test]
fn large_texts_at_once(rt: HostRuntime) {
    let bytes = many_bytes(&rt);
    gives_at_once(&rt, bytes.as_slice());
    takes_at_once(&rt, bytes.as_slice());
}
