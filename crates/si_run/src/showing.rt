//! What a person sees of a run while it goes on: one line on the error device, again and again, each time in the place of the one before.
//!
//! It asks the clock alone, and changes nothing of what is decided or written.

ghost use Rattle.std.specs.Prelude.{◌≡◌, ◌<◌, OnErr, OnOk, Some, true};
ghost use Rattle.std.specs.Io.KnownBytes.{Appends};
ghost use Rattle.si_text.specs.Devices.{lent};
ghost use Rattle.si_run.specs.Telling.{Note, ShowsNotes, TellsOn, findings_words, lines_words, note_text, rate_words};

use crate::telling::tell;
use crate::writing::write_all;
use itoa::Buffer;
use si_text::{ByteSink, DeviceFailed};
use std::rt::Clock;
use std::time::Instant;

/// How long a line of progress stands at least, in milliseconds.
const PAUSE_MILLIS: u64 = 500;

/// How far a run was, and when.
#[derive(Clone, Copy, Debug)]
struct Shown {
    at: Instant,
    lines: u64,
}

/// What was shown of a run so far.
#[derive(Drop)]
pub(crate) struct Showing {
    shows: bool,
    last: Option<Shown>,
}

impl Showing {
    /// Nothing was shown, and something is to be, if that is asked for.
    pub(crate) fn new(shows: bool) -> Self
        ensures { result.shows ≡ shows }
    {
        Showing { shows, last: None }
    }

    /// Shows that so many lines are decided, and how many findings the last report had, if there was one: where it is asked for, and a
    /// while after the last time. Where the clock fails nothing is shown.
    pub(crate) fn show<R: Clock, E: ByteSink>(
        &mut self,
        rt: &R,
        err: &mut E,
        lines: u64,
        findings: Option<u64>,
    )
        ensures shows { self.new.shows ≡ self.old.shows }
        ensures shown { ShowsNotes self.old.shows (lent (E.seen err.old) (E.seen err.new)) }
    {
        if !self.shows {
            return;
        }
        let Ok(at) = Instant::now(rt) else {
            return;
        };
        let Some(last) = self.last else {
            self.last = Some(Shown { at, lines });
            return;
        };
        let passed = at.saturating_duration_since(last.at);
        let millis = passed
            .as_secs()
            .saturating_mul(1_000)
            .saturating_add(u64::from(passed.subsec_millis()));
        if millis < PAUSE_MILLIS {
            return;
        }
        let rate = lines.saturating_sub(last.lines).saturating_mul(1_000) / millis;
        show_note(err, lines, rate, findings);
        self.last = Some(Shown { at, lines });
    }
}

/// Shows one line of progress.
fn show_note<E: ByteSink>(err: &mut E, lines: u64, rate: u64, findings: Option<u64>)
    ensures { ShowsNotes true (lent (E.seen err.old) (E.seen err.new)) }
{
    note(err, lines, rate, findings);
}

/// Writes a line of progress in the place of the one before.
fn note<E: ByteSink>(err: &mut E, lines: u64, rate: u64, findings: Option<u64>)
    ensures { TellsOn (lent (E.seen err.old) (E.seen err.new)) (note_text (Note.Goes lines rate findings)) }
{
    let _ = write_note(err, lines, rate, findings);
}

/// Writes its text.
fn write_note<E: ByteSink>(
    err: &mut E,
    lines: u64,
    rate: u64,
    findings: Option<u64>,
) -> Result<(), DeviceFailed>
    ensures ok { OnOk result (Appends (E.seen err.old).written (E.seen err.new).written (note_text (Note.Goes lines rate findings))) }
    ensures err { OnErr result ((E.seen err.new).failed ≡ true) }
    ensures stays { (E.seen err.old).failed ≡ true → (E.seen err.new).failed ≡ true }
{
    write_lines(err, lines)?;
    write_rate(err, rate)?;
    write_findings(err, findings)?;
    Ok(())
}

/// Writes how many lines are decided, in the place of what stood there.
fn write_lines<E: ByteSink>(err: &mut E, lines: u64) -> Result<(), DeviceFailed>
    ensures ok { OnOk result (Appends (E.seen err.old).written (E.seen err.new).written (lines_words lines)) }
    ensures err { OnErr result ((E.seen err.new).failed ≡ true) }
    ensures stays { (E.seen err.old).failed ≡ true → (E.seen err.new).failed ≡ true }
{
    let mut buffer = Buffer::new();
    write_all(err, b"\r\x1b[Ksicheck: ")?;
    write_all(err, buffer.format(lines).as_bytes())?;
    write_all(err, b" lines, ")?;
    Ok(())
}

/// Writes how many a second.
fn write_rate<E: ByteSink>(err: &mut E, rate: u64) -> Result<(), DeviceFailed>
    ensures ok { OnOk result (Appends (E.seen err.old).written (E.seen err.new).written (rate_words rate)) }
    ensures err { OnErr result ((E.seen err.new).failed ≡ true) }
    ensures stays { (E.seen err.old).failed ≡ true → (E.seen err.new).failed ≡ true }
{
    let mut buffer = Buffer::new();
    write_all(err, buffer.format(rate).as_bytes())?;
    write_all(err, b" a second")?;
    Ok(())
}

/// Writes how many findings the last report had, if there was one.
fn write_findings<E: ByteSink>(err: &mut E, findings: Option<u64>) -> Result<(), DeviceFailed>
    ensures ok { OnOk result (Appends (E.seen err.old).written (E.seen err.new).written (findings_words findings)) }
    ensures err { OnErr result ((E.seen err.new).failed ≡ true) }
    ensures stays { (E.seen err.old).failed ≡ true → (E.seen err.new).failed ≡ true }
{
    match findings {
        Some(count) => write_count(err, count),
        None => Ok(()),
    }
}

/// Writes that many findings.
fn write_count<E: ByteSink>(err: &mut E, count: u64) -> Result<(), DeviceFailed>
    ensures ok { OnOk result (Appends (E.seen err.old).written (E.seen err.new).written (findings_words (Some count))) }
    ensures err { OnErr result ((E.seen err.new).failed ≡ true) }
    ensures stays { (E.seen err.old).failed ≡ true → (E.seen err.new).failed ≡ true }
{
    let mut buffer = Buffer::new();
    write_all(err, b", ")?;
    write_all(err, buffer.format(count).as_bytes())?;
    write_all(err, b" findings at the last report")?;
    Ok(())
}

/// Shows that standard input is waited for.
pub fn show_waiting<E: ByteSink>(err: &mut E)
    ensures { TellsOn (lent (E.seen err.old) (E.seen err.new)) (note_text Note.Waits) }
{
    tell(err, b"\r\x1b[Ksicheck: waiting for standard input");
}
