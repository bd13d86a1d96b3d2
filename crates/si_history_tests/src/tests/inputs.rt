//! Lines out of bytes in pieces of any size, with devices that fail.

use super::known_keys::no_keys;
use super::{Any, Host, are_same, are_same_at, bytes_of, is_text};
use si_model::Edit;
use si_text::memory::{FailingSink, FailingSource, MemorySink, MemorySource};
use si_text::{
    ByteSink, ByteSource, DeviceFailed, InputFault, KnownKeys, LineBuffer, LineItem, StdSink,
    StdSource,
};
use std::sync::atomic::{AtomicBool, Ordering};

/// Two edits, a faulty line and blank lines, of which the last line lacks its line feed.
const INPUT: &str =
    "\n{\"do\":\"withdraw\",\"id\":1}\n \t\r\n[]\r\n\n{\"do\":\"withdraw\",\"id\":2}";

/// What it says.
const ITEMS: &str = "2 withdraw 1, 4 NotObject, 6 withdraw 2, ";

/// The contract of this call is long, so it is made here alone. Nothing stops it.
fn next_item<S: ByteSource>(
    lines: &mut LineBuffer,
    source: &mut S,
    keys: &mut KnownKeys,
) -> Result<Option<LineItem>, InputFault> {
    lines.next_item(source, keys, &AtomicBool::new(false))
}

fn keep(rt: &impl Host, items: &mut Vec<LineItem>, item: LineItem) {
    items.push(item).expect(rt, "memory");
}

/// Keeps the items that come up to the end of the source, or up to a fault.
fn keep_all<H: Host, S: ByteSource>(
    rt: &H,
    lines: &mut LineBuffer,
    source: &mut S,
    keys: &mut KnownKeys,
    items: &mut Vec<LineItem>,
) -> Option<InputFault> {
    for _ in 0..1000 {
        match next_item(lines, source, keys) {
            Ok(Some(item)) => keep(rt, items, item),
            Ok(None) => return None,
            Err(fault) => return Some(fault),
        }
    }
    panic!(rt; "the input has no end")
}

/// The same from the beginning of the source.
fn read_all<H: Host, S: ByteSource>(
    rt: &H,
    source: &mut S,
    items: &mut Vec<LineItem>,
) -> Option<InputFault> {
    let mut keys = no_keys(rt);
    let mut lines = LineBuffer::new(rt.alloc()).expect(rt, "memory");
    keep_all(rt, &mut lines, source, &mut keys, items)
}

/// Its line, and the withdrawal or the fault that it is.
fn tell(rt: &impl Host, text: &mut String, item: &LineItem) {
    let line = item.0;
    let written = match &item.1 {
        Ok(Edit::Withdraw(id)) => write!(text, "{line} withdraw {}, ", id.0),
        Ok(_) => panic!(rt; "only withdrawals are wanted"),
        Err(fault) => write!(text, "{line} {fault:?}, "),
    };
    written.expect(rt, "memory");
}

fn told(rt: &impl Host, items: &[LineItem]) -> String {
    let mut text = String::new(rt.alloc());
    for item in items {
        tell(rt, &mut text, item);
    }
    text
}

/// The source gives items that are told so.
fn gives<H: Host, S: ByteSource>(rt: &H, source: &mut S, expected: &str) {
    let mut items = Vec::new(rt.alloc());
    are_same(rt, read_all(rt, source, &mut items), None);
    are_same(rt, told(rt, items.as_slice()).as_str(), expected);
}

fn gives_in_pieces(rt: &impl Host, piece: usize) {
    let mut source = MemorySource::new(bytes_of(rt, INPUT), piece.max(1));
    gives(rt, &mut source, ITEMS);
}

#[test]
fn lines_in_pieces_of_any_size(rt: HostRuntime) {
    for piece in [1, 2, 7, 1000] {
        gives_in_pieces(&rt, piece);
    }
    gives(
        &rt,
        &mut StdSource::<_, Any>::new(INPUT.as_bytes(), 0),
        ITEMS,
    );
}

/// Adds a line of so many of that byte.
fn add_line(rt: &impl Host, input: &mut Vec<u8>, length: usize, byte: u8) {
    let end = input.len().saturating_add(length);
    input.resize(end, byte).expect(rt, "memory");
    input.push(b'\n').expect(rt, "memory");
}

/// Three lines, of which the second one is as long as a line may be, and a short one.
fn long_lines(rt: &impl Host) -> Vec<u8> {
    let mut input = Vec::new(rt.alloc());
    add_line(rt, &mut input, 1_048_577, b'a');
    add_line(rt, &mut input, 1_048_576, b' ');
    add_line(rt, &mut input, 1_048_577, b' ');
    add_line(rt, &mut input, 1, b'7');
    input
}

#[test]
fn lines_that_are_too_long(rt: HostRuntime) {
    let mut source = MemorySource::new(long_lines(&rt), 5000);
    gives(&rt, &mut source, "1 TooLong, 3 TooLong, 4 NotObject, ");
}

/// How many lines so many reads of a byte give. The lines end at the 2nd, 5th, 7th and 10th byte, and the last one at the read that
/// finds the end.
fn lines_after(reads: u64) -> usize {
    match reads {
        0..2 => 0,
        2..5 => 1,
        5..10 => 2,
        10..14 => 3,
        _ => 4,
    }
}

/// What is told of the read after so many.
fn fault_after(reads: u64) -> Option<InputFault> {
    if reads < 15 {
        Some(InputFault::DeviceFailed)
    } else {
        None
    }
}

fn read_so_often(rt: &impl Host, reads: u64, items: &mut Vec<LineItem>) -> Option<InputFault> {
    let bytes = MemorySource::new(bytes_of(rt, "1\n[]\n \n{}\n[1]"), 1);
    let mut source = FailingSource::new(bytes, reads);
    read_all(rt, &mut source, items)
}

/// A read that fails is told after the whole lines before it, and the unfinished line is dropped.
#[test]
fn reads_that_fail(rt: HostRuntime) {
    for reads in 0..20 {
        let mut items = Vec::new(rt.alloc());
        let fault = read_so_often(&rt, reads, &mut items);
        are_same_at(&rt, items.len(), lines_after(reads), reads);
        are_same_at(&rt, fault, fault_after(reads), reads);
    }
}

/// A line without an end, a byte a read. The flag is set once so many bytes were given.
#[derive(Drop)]
struct Endless<'a> {
    given: u64,
    most: u64,
    stop: &'a AtomicBool,
}

impl ByteSource for Endless<'_> {
    ghost use Rattle.std.specs.Prelude.{None, false};

    ghost seen = { λ _. record { left = None; failed = false; turned = false } };

    fn read(&mut self, buffer: &mut [u8]) -> Result<usize, DeviceFailed> {
        buffer[0] = b'a';
        self.given = self.given.saturating_add(1);
        if self.given >= self.most {
            self.stop.store(true, Ordering::SeqCst);
        }
        Ok(1)
    }
}

/// The line is read until the flag is set, and no further.
#[test]
fn reading_that_is_stopped(rt: HostRuntime) {
    let stop = AtomicBool::new(false);
    let mut source = Endless {
        given: 0,
        most: 5,
        stop: &stop,
    };
    let mut keys = no_keys(&rt);
    let mut lines = LineBuffer::new(rt.alloc()).expect(&rt, "memory");
    for _ in 0..2 {
        let stopped = lines.next_item(&mut source, &mut keys, &stop);
        are_same(&rt, stopped.err(), Some(InputFault::Stopped));
        are_same(&rt, source.given, 5);
    }
}

/// A write of this text takes so many bytes, or fails.
fn takes<H: Host, W: ByteSink>(rt: &H, sink: &mut W, text: &str, count: Option<usize>) {
    assert!(rt; !text.as_bytes().is_empty());
    are_same_at(rt, sink.write(text.as_bytes()).ok(), count, text);
}

fn sinks_of_memory(rt: &impl Host) {
    let mut sink = MemorySink::new(rt.alloc(), 1);
    takes(rt, &mut sink, "ab", Some(1));
    takes(rt, &mut sink, "b", Some(1));
    is_text(rt, sink.as_slice(), "ab");
    fails_at_second(rt, &mut FailingSink::new(&mut sink, 1));
    is_text(rt, sink.as_slice(), "abc");
}

fn fails_at_second<H: Host, W: ByteSink>(rt: &H, failing: &mut W) {
    takes(rt, failing, "cd", Some(1));
    takes(rt, failing, "d", None);
    takes(rt, failing, "d", None);
}

fn sinks_over_vectors(rt: &impl Host) {
    let mut bytes = Vec::new(rt.alloc());
    takes(rt, &mut StdSink::new(&mut bytes), "abc", Some(3));
    is_text(rt, bytes.as_slice(), "abc");
}

fn sinks_over_slices(rt: &impl Host) {
    let mut room = [0u8; 2];
    let mut narrow = StdSink::new(room.as_mut_slice());
    takes(rt, &mut narrow, "abc", Some(2));
    takes(rt, &mut narrow, "c", None);
}

#[test]
fn sinks(rt: HostRuntime) {
    sinks_of_memory(&rt);
    sinks_over_vectors(&rt);
    sinks_over_slices(&rt);
}
