//! The check of evidence: from the words to the exit status.

ghost use Rattle.std.specs.Prelude.{◌≡◌, [], Some, map, false};
ghost use Rattle.si_text.specs.Devices.{foretold, lent};
ghost use Rattle.si_cli.specs.Judges.{EndsEvidence, EndsJudged, EndsJudging, EndsKeyless, asks_for_help, is_about_evidence, judge_line, judged_code};
ghost use Rattle.si_cli.specs.Programs.{Fails, files_of};

use crate::files::NamedFiles;
use crate::helps::{EVIDENCE_HELP, is_word};
use crate::programs::{fail, tell_asked, tell_out_of_memory, tell_unopened};
use si_evidence::{JudgeFault, Judged, judge, log_of};
use si_run::telling::tell_of_source;
use si_text::{ByteSink, ByteSource};
use std::alloc::Global;
use std::convert::AsStr;
use std::hash::RandomState;

/// The exit status of what couldn't be made.
const FAULTY: u8 = 2;

/// Whether the words ask about the check of evidence, as `evidence ..` and `help evidence ..` do.
pub fn is_about_evidence<S: AsStr>(words: &[S]) -> bool
    ensures { result ≡ is_about_evidence (map S.text words.now) }
{
    is_word(words, 1, "evidence") || (is_word(words, 1, "help") && is_word(words, 2, "evidence"))
}

/// Whether they ask for its help.
fn asks_for_help<S: AsStr>(words: &[S]) -> bool
    ensures { result ≡ asks_for_help (map S.text words.now) }
{
    is_word(words, 1, "help") || is_word(words, 2, "--help") || is_word(words, 2, "-h")
}

/// Checks the evidence of an answer on the input by the log that the words name, or tells what else they ask for.
pub fn judge_by_words<F: NamedFiles, S: AsStr, I: ByteSource, O: ByteSink, E: ByteSink>(
    files: &F,
    sources: &mut Vec<F::Source>,
    alloc: Global,
    hash: RandomState,
    words: &[S],
    input: &mut I,
    out: &mut O,
    err: &mut E,
) -> u8
    requires sources { sources.old.items ≡ [] }
    requires out { (O.seen out.old).failed ≡ false }
    ensures { EndsEvidence (asks_for_help (map S.text words.now)) (map S.text words.now)
        (lent (I.seen input.old) (I.seen input.new))
        (files_of (F.seen files.now) (map F.Source.seen sources.new.items))
        (lent (O.seen out.old) (O.seen out.new))
        (lent (E.seen err.old) (E.seen err.new)) result }
{
    if asks_for_help(words) {
        return tell_asked(out, err, EVIDENCE_HELP, "");
    }
    if words.len() == 3 {
        let name = words[2].as_str();
        return judge_named(files, sources, alloc, hash, name, input, out, err);
    }
    fail(
        err,
        b"sicheck: evidence takes one LOG, and the answer on standard input\n",
    )
}

/// The same with no secret key for the hash maps: nothing is judged.
pub fn judge_without_key<S: AsStr, O: ByteSink, E: ByteSink>(
    words: &[S],
    out: &mut O,
    err: &mut E,
) -> u8
    requires out { (O.seen out.old).failed ≡ false }
    ensures { EndsKeyless (asks_for_help (map S.text words.now))
        (lent (O.seen out.old) (O.seen out.new))
        (lent (E.seen err.old) (E.seen err.new)) result }
{
    if asks_for_help(words) {
        return tell_asked(out, err, EVIDENCE_HELP, "");
    }
    fail(err, b"sicheck: no random bytes for the hash maps\n")
}

/// Judges by the log of that name.
fn judge_named<F: NamedFiles, I: ByteSource, O: ByteSink, E: ByteSink>(
    files: &F,
    sources: &mut Vec<F::Source>,
    alloc: Global,
    hash: RandomState,
    name: &str,
    input: &mut I,
    out: &mut O,
    err: &mut E,
) -> u8
    requires sources { sources.old.items ≡ [] }
    ensures { EndsJudging name.now
        (lent (I.seen input.old) (I.seen input.new))
        (files_of (F.seen files.now) (map F.Source.seen sources.new.items))
        (lent (O.seen out.old) (O.seen out.new))
        (lent (E.seen err.old) (E.seen err.new)) result }
{
    let Ok(mut source) = files.open(name, 0) else {
        tell_unopened(err, 0);
        return FAULTY;
    };
    let log = log_of(alloc, &mut source);
    if sources.push(source).is_err() {
        return tell_out_of_memory(err);
    }
    match log {
        Ok(log) => judge_log(alloc, hash, &log, input, out, err),
        Err(fault) => tell_judge_fault(err, fault),
    }
}

/// Judges by a log of these bytes.
fn judge_log<I: ByteSource, O: ByteSink, E: ByteSink>(
    alloc: Global,
    hash: RandomState,
    log: &[u8],
    input: &mut I,
    out: &mut O,
    err: &mut E,
) -> u8
    ensures { EndsJudged (Some log.now) (foretold (I.seen input.old).left (I.seen input.new).left)
        (lent (O.seen out.old) (O.seen out.new))
        (lent (E.seen err.old) (E.seen err.new)) result }
{
    match judge(alloc, hash, log, input, out) {
        Ok(said) => judged_code(said),
        Err(fault) => tell_judge_fault(err, fault),
    }
}

/// The status of what was judged.
fn judged_code(said: Judged) -> u8
    ensures { result ≡ judged_code said }
{
    match said {
        Judged::Holds => 0,
        Judged::Fails => 10,
    }
}

/// Tells the fault, and answers the status.
fn tell_judge_fault<E: ByteSink>(err: &mut E, fault: JudgeFault) -> u8
    ensures { Fails (lent (E.seen err.old) (E.seen err.new)) (judge_line fault) result }
{
    match fault {
        JudgeFault::Malformed(number) => {
            tell_of_source(err, b"sicheck: no evidence in line ", number as usize);
            FAULTY
        }
        JudgeFault::Log => {
            tell_of_source(err, b"sicheck: cannot read source ", 0);
            FAULTY
        }
        JudgeFault::Answer => fail(err, b"sicheck: cannot read standard input\n"),
        JudgeFault::Output => fail(err, b"sicheck: cannot write\n"),
        JudgeFault::Memory => tell_out_of_memory(err),
    }
}
