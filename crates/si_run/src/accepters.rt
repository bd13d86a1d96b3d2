//! The accepter: it takes what the sources put, decides it, and writes what is written for it.
ghost use Rattle.std.specs.Prelude.{◌≡◌, ◌<◌, ◌-◌, ◌^◌, ◌++◌, [], false, List, IfOk, IfErr, OnOk};
ghost use Rattle.std.specs.Io.KnownBytes.{Appends};
ghost use Rattle.si_intake.specs.declared.items.Item.{Item as Told};
ghost use Rattle.si_intake.specs.Ends.{AllEnded};
ghost use Rattle.si_text.specs.Devices.{lent};
ghost use Rattle.si_run.specs.Outputs.{item_text, progress_after, report_at, sourced, start, status_at};
ghost use Rattle.si_run.specs.Runs.{IsUnwritten};
ghost use Rattle.si_run.specs.Takings.{IsAccepted, IsCutOff, IsDecided, IsUndone, operations_in};
ghost use Rattle.si_run.specs.Telling.{IsTold, ShowsNotes};

use crate::engines::{Decision, Engine};
use crate::sessions::Session;
use crate::showing::Showing;
use crate::telling::{tell_behind, tell_end};
use crate::writing::write_all;
use crate::{ExitStatus, RunFault};
use si_checker::{Checker, Gate, Name, Place};
use si_intake::{Accepter, Item, What};
use si_model::Edit;
use si_text::{ByteSink, LineFault, LineItem};
use std::rt::Clock;
use std::sync::Wait;

/// Decides what the sources put until each has told its end, writes what is written for it and then the last report, and answers the
/// status.
///
/// At the first fault nothing more is decided or written. It is told before what is left is taken and dropped, which may take as long
/// as some source gives nothing: until then the sources are stopped, each before its next read.
pub fn accept_all<N: Name, R: Wait + Clock, W: ByteSink, E: ByteSink, G: Gate>(
    rt: &R,
    session: &Session<'_, N, G>,
    engine: &mut Engine<N>,
    accepter: &mut Accepter,
    writer: &mut W,
    err: &mut E,
) -> Result<ExitStatus, RunFault>
    requires fresh { engine.old.progress ≡ start }
    requires untaken { accepter.old.taken ≡ [] }
    requires writer { (W.seen writer.old).failed ≡ false }
    ensures accepted { IsAccepted engine.old.terms accepter.old accepter.new (lent (W.seen writer.old) (W.seen writer.new)) engine.new.progress result }
    ensures told { IsTold engine.old.terms.shows result (lent (E.seen err.old) (E.seen err.new)) }
{
    let shows = engine.shows();
    let mut text = Vec::new(session.alloc);
    match decide_all(rt, session, &mut text, engine, accepter, writer, err) {
        Ok(()) => {
            let ended = finish(rt, session.checker, engine, &mut text, writer);
            tell_end(err, shows, &ended);
            ended
        }
        Err(fault) => {
            session.stop();
            tell_behind(err, shows, fault);
            drop_all(rt, accepter);
            Err(fault)
        }
    }
}

/// Decides what the sources put until each has told its end, and writes what is written for it. The first fault ends it. Where that is
/// asked for, it shows how far it is.
fn decide_all<N: Name, R: Wait + Clock, W: ByteSink, E: ByteSink, G: Gate>(
    rt: &R,
    session: &Session<'_, N, G>,
    text: &mut Vec<u8>,
    engine: &mut Engine<N>,
    accepter: &mut Accepter,
    writer: &mut W,
    err: &mut E,
) -> Result<(), RunFault>
    requires fresh { engine.old.progress ≡ start }
    requires untaken { accepter.old.taken ≡ [] }
    requires writer { (W.seen writer.old).failed ≡ false }
    ensures same { accepter.new ≡ record accepter.old { taken = accepter.new.taken } }
    ensures terms { engine.new.terms ≡ engine.old.terms }
    ensures ended { OnOk result (AllEnded accepter.new) }
    ensures ok { OnOk result (IsDecided engine.old.terms accepter.new.taken (W.seen writer.old).written (W.seen writer.new).written engine.new.progress) }
    ensures works { OnOk result ((W.seen writer.new).failed ≡ false) }
    ensures err { IfErr result (IsCutOff engine.old.terms accepter.new.taken (lent (W.seen writer.old) (W.seen writer.new)) engine.new.progress) }
    ensures shown { ShowsNotes engine.old.terms.shows (lent (E.seen err.old) (E.seen err.new)) }
{
    let mut showing = Showing::new(engine.shows());
    'items: for _turn in 0..u64::MAX {
        let Some(Item { source, what }) = accepter.take(rt) else {
            return Ok(());
        };
        match what {
            What::Line(item) => {
                decide_line(rt, session, text, engine, source, item, writer)?;
            }
            What::ReadFault => return Err(RunFault::Input(source)),
            What::NoMemory => return Err(RunFault::Memory),
            What::End => {}
        }
        showing.show(rt, err, engine.decided(), engine.found());
    }
    // No run comes here: it would have taken 2^64 - 1 items.
    for _ in rt.forever() {}
    unreachable!()
}

/// Decides an item of this source, and writes what is written for it.
///
/// At a fault the item isn't done with: it wasn't decided, or not all of that was written.
fn decide_line<N: Name, R: Wait, W: ByteSink, G: Gate>(
    rt: &R,
    session: &Session<'_, N, G>,
    text: &mut Vec<u8>,
    engine: &mut Engine<N>,
    source: usize,
    item: LineItem,
    writer: &mut W,
) -> Result<(), RunFault>
    requires room { engine.old.progress.decided < 2 ^ 64 - 1 }
    requires writer { (W.seen writer.old).failed ≡ false }
    ensures terms { engine.new.terms ≡ engine.old.terms }
    ensures progress { OnOk result (engine.new.progress ≡ progress_after engine.old.terms engine.old.progress (sourced source item)) }
    ensures ok { OnOk result (Appends (W.seen writer.old).written (W.seen writer.new).written (item_text engine.old.terms engine.old.progress (sourced source item))) }
    ensures works { OnOk result ((W.seen writer.new).failed ≡ false) }
    ensures err { IfErr result (IsUndone engine.old.terms engine.old.progress (sourced source item) (lent (W.seen writer.old) (W.seen writer.new)) engine.new.progress) }
{
    let (line, operations) = (item.0, operations_of(&item.1));
    text.clear();
    let decision = engine.decide(rt, session.checker, text, source, item)?;
    if decision == Decision::Accepted {
        session.count_accepted(source, operations);
    }
    write_all(writer, text)?;
    session.gate.at(Place::Decided { source, line });
    Ok(())
}

/// How many operations the edit has, a set-up being one.
fn operations_of(answer: &Result<Edit, LineFault>) -> u64
    ensures { result ≡ operations_in answer.now }
{
    match answer {
        Ok(Edit::Arrive(txn)) => txn.ops.as_slice().len() as u64,
        Ok(Edit::SetUp(..)) => 1,
        Ok(Edit::Resolve(..) | Edit::Withdraw(_)) | Err(_) => 0,
    }
}

/// Takes what is left, until each source has told its end, so that none of them waits for ever.
pub fn drop_all<R: Wait>(rt: &R, accepter: &mut Accepter)
    ensures taken { (more : List Told) × (accepter.new ≡ record accepter.old { taken = accepter.old.taken ++ more }) }
    ensures ended { AllEnded accepter.new }
{
    for _ in rt.forever() {
        if accepter.take(rt).is_none() {
            return;
        }
    }
    unreachable!()
}

/// Writes the last report in the place of this text, and answers the status.
fn finish<N: Name, R: Wait, W: ByteSink>(
    rt: &R,
    checker: &Checker<N>,
    engine: &mut Engine<N>,
    text: &mut Vec<u8>,
    writer: &mut W,
) -> Result<ExitStatus, RunFault>
    requires { (W.seen writer.old).failed ≡ false }
    ensures written { OnOk result (Appends (W.seen writer.old).written (W.seen writer.new).written (report_at engine.old.terms engine.old.progress)) }
    ensures status { IfOk result (λ status. status ≡ status_at engine.old.terms engine.old.progress) }
    ensures works { OnOk result ((W.seen writer.new).failed ≡ false) }
    ensures err { IfErr result (IsUnwritten (lent (W.seen writer.old) (W.seen writer.new)) (report_at engine.old.terms engine.old.progress)) }
    ensures engine { engine.new ≡ engine.old }
{
    text.clear();
    let status = engine.last_report(rt, checker, text)?;
    write_all(writer, text)?;
    Ok(status)
}
