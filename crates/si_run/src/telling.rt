//! What is told of a run that didn't come to its end: one line on the error device, whose own failure changes nothing. Where lines of
//! progress are shown there, the last of them goes away before.
//!
//! It takes no memory, so each fault is told as what it is.

ghost use Rattle.std.specs.Prelude.{◌≡◌, ◌⊎◌, Err, OnErr, OnOk, None, codes, false, true};
ghost use Rattle.std.specs.Io.KnownBytes.{Appends};
ghost use Rattle.si_text.specs.Devices.{lent};
ghost use Rattle.si_run.specs.declared.faults.RunFault.TheVariants.{Memory};
ghost use Rattle.si_run.specs.Telling.{IsCleared, IsTold, TellsBehind, TellsOn, fault_line, source_line};

use crate::writing::write_all;
use crate::{ExitStatus, RunFault};
use itoa::Buffer;
use si_text::{ByteSink, DeviceFailed};

/// What makes the line of progress go away.
const ERASURE: &[u8] = b"\r\x1b[K";

/// Tells the text.
pub fn tell<E: ByteSink>(err: &mut E, text: &[u8])
    ensures { TellsOn (lent (E.seen err.old) (E.seen err.new)) text.now }
{
    let _ = write_all(err, text);
}

/// Tells what can't be done with the source of that number.
pub fn tell_of_source<E: ByteSink>(err: &mut E, what: &[u8], source: usize)
    ensures { TellsOn (lent (E.seen err.old) (E.seen err.new)) (source_line what.now source) }
{
    let _ = write_of_source(err, what, source);
}

/// Writes that line.
fn write_of_source<E: ByteSink>(err: &mut E, what: &[u8], source: usize) -> Result<(), DeviceFailed>
    ensures ok { OnOk result (Appends (E.seen err.old).written (E.seen err.new).written (source_line what.now source)) }
    ensures err { OnErr result ((E.seen err.new).failed ≡ true) }
    ensures stays { (E.seen err.old).failed ≡ true → (E.seen err.new).failed ≡ true }
{
    let mut buffer = Buffer::new();
    write_all(err, what)?;
    write_all(err, buffer.format(source).as_bytes())?;
    write_all(err, b"\n")?;
    Ok(())
}

/// Tells the fault of a run.
pub fn tell_fault<E: ByteSink>(err: &mut E, fault: RunFault)
    ensures { TellsOn (lent (E.seen err.old) (E.seen err.new)) (fault_line fault) }
{
    match fault {
        RunFault::Input(source) => tell_of_source(err, b"sicheck: cannot read source ", source),
        RunFault::Open(_) => tell(err, b"sicheck: options out of range\n"),
        RunFault::Output => tell(err, b"sicheck: cannot write\n"),
        RunFault::Memory => tell(err, b"sicheck: out of memory\n"),
    }
}

/// Lets the line of progress go away, where it is shown.
pub(crate) fn clear<E: ByteSink>(err: &mut E, shows: bool)
    ensures { IsCleared shows (lent (E.seen err.old) (E.seen err.new)) }
{
    if shows {
        tell(err, ERASURE);
    }
}

/// Tells the fault of a run behind its lines of progress, where these are shown.
pub(crate) fn tell_behind<E: ByteSink>(err: &mut E, shows: bool, fault: RunFault)
    ensures { TellsBehind shows (lent (E.seen err.old) (E.seen err.new)) (fault_line fault) }
{
    clear(err, shows);
    tell_fault(err, fault);
}

/// Tells the fault that a run ended with, if it ended with one.
pub(crate) fn tell_end<E: ByteSink>(err: &mut E, shows: bool, ended: &Result<ExitStatus, RunFault>)
    ensures { IsTold shows ended.now (lent (E.seen err.old) (E.seen err.new)) }
{
    match ended {
        Ok(_) => clear(err, shows),
        Err(fault) => tell_behind(err, shows, *fault),
    }
}

/// Tells that memory was refused, and ends the run so.
pub(crate) fn refuse<E: ByteSink>(err: &mut E, shows: bool) -> Result<ExitStatus, RunFault>
    ensures fault { result ≡ Err Memory }
    ensures told { IsTold shows result (lent (E.seen err.old) (E.seen err.new)) }
{
    tell_behind(err, shows, RunFault::Memory);
    Err(RunFault::Memory)
}

/// The error device of a run of which nothing is to be told: it takes all, and keeps nothing.
#[derive(Drop)]
pub(crate) struct Unheard;

impl ByteSink for Unheard {
    ghost seen = { λ _. record { written = None; failed = false } };

    fn write(&mut self, bytes: &[u8]) -> Result<usize, DeviceFailed> {
        Ok(bytes.len())
    }
}
