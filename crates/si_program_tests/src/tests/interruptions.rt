//! Reads and writes that a signal interrupts are tried again.

use super::{Any, PLAIN, are_same, ended, is_text};
use si_cli::ExitStatus;
use si_text::{StdSink, StdSource};
use std::io;
use std::io::{ErrorKind, Read, Write};

/// A reader whose reads are interrupted twice before each that gives bytes.
#[derive(Drop)]
struct Interrupted<'a> {
    bytes: &'a [u8],
    turn: u8,
}

impl<'a> Read for Interrupted<'a> {
    fn read(&mut self, buf: &mut [u8]) -> io::Result<usize> {
        if self.turn < 2 {
            self.turn += 1;
            return Err(io::Error::from(ErrorKind::Interrupted));
        }
        self.turn = 0;
        self.bytes.read(buf)
    }
}

/// A writer that takes a byte at a time, and is interrupted before each.
#[derive(Drop)]
struct Halting {
    bytes: Vec<u8>,
    halts: bool,
}

impl Write for Halting {
    fn write(&mut self, buf: &[u8]) -> io::Result<usize> {
        self.halts = !self.halts;
        if self.halts {
            return Err(io::Error::from(ErrorKind::Interrupted));
        }
        let count = buf.len().min(1);
        self.bytes.extend_from_slice(&buf[..count])?;
        Ok(count)
    }

    fn flush(&mut self) -> io::Result<()> {
        Ok(())
    }
}

#[test]
fn interrupted_calls_are_tried_again(rt: HostRuntime) {
    let reader = Interrupted {
        bytes: b"[]\n",
        turn: 0,
    };
    let mut source = StdSource::<_, Any>::new(reader, 0);
    let mut writer = Halting {
        bytes: Vec::new(rt.alloc()),
        halts: false,
    };
    let mut sink = StdSink::new(&mut writer);
    let ended = ended(&rt, &mut source, &mut sink, PLAIN);
    drop(sink);
    are_same(&rt, ended.ok(), Some(ExitStatus::Open));
    let expected =
        "refused source=0 line=1 code=3 reason=not-object\ntransactions=0 findings=0 refused=1 verdict=clean\n";
    is_text(&rt, writer.bytes.as_slice(), expected);
}
