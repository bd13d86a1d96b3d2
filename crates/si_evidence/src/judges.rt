//! The evidence of an answer, judged by a log: both as bytes.

ghost use Rattle.std.specs.Prelude.{◌≡◌, [], IfOk};
ghost use Rattle.si_model.specs.Journals.{present};
ghost use Rattle.si_text.specs.Inputs.{lines_of};
ghost use Rattle.si_evidence.specs.Judging.{IsAnswered, Judges, judged_by};

use crate::judging::{Judging, judge_lines};
use crate::logs::read_log;
use crate::{Indexed, Writers};
use si_accept::Book;
use si_text::DeviceFailed;
use std::alloc::{AllocError, Global};
use std::hash::RandomState;
use thiserror::Error;

/// What is said of an answer.
#[derive(Clone, Copy, Debug, PartialEq, Eq)]
pub enum Judged {
    /// There is evidence, all of it holds, and no line of the log was refused.
    Holds,
    /// Some evidence fails, or there is none, or a line of the log was refused.
    Fails,
}

impl Judged {
    /// What is said where so many lines of the log were refused, and of so many pieces of evidence so many fail.
    fn of(refused: u64, told: u64, failed: u64) -> Judged
        ensures { result ≡ judged_by refused told failed }
    {
        if refused == 0 && failed == 0 && told != 0 {
            Judged::Holds
        } else {
            Judged::Fails
        }
    }
}

/// Why the evidence of an answer wasn't judged.
#[derive(Clone, Copy, Debug, PartialEq, Eq, Error)]
pub enum JudgeFault {
    /// The line of that number of the answer begins as evidence does, and isn't printed as any is.
    #[error("line {0} of the answer is no evidence")]
    Malformed(u64),
    /// The log couldn't be read.
    #[error("cannot read the log")]
    Log,
    /// The answer couldn't be read.
    #[error("cannot read the answer")]
    Answer,
    /// The writer failed.
    #[error("cannot write")]
    Output,
    /// The growth of some memory was refused.
    #[error("out of memory")]
    Memory,
}

impl From<AllocError> for JudgeFault {
    ghost use Rattle.std.specs.Prelude.{◌≡◌};
    ghost use Rattle.si_evidence.specs.declared.judges.JudgeFault.TheVariants as faults;

    ghost from_gives = { λ _ fault. fault ≡ faults.Memory };

    fn from(_refused: AllocError) -> JudgeFault {
        JudgeFault::Memory
    }
}

impl From<DeviceFailed> for JudgeFault {
    ghost use Rattle.std.specs.Prelude.{◌≡◌};
    ghost use Rattle.si_evidence.specs.declared.judges.JudgeFault.TheVariants as faults;

    ghost from_gives = { λ _ fault. fault ≡ faults.Output };

    fn from(_failed: DeviceFailed) -> JudgeFault {
        JudgeFault::Output
    }
}

/// Judges the lines of an answer by what is present by the book.
fn judge_by(alloc: Global, book: &Book, answer: &[u8]) -> Result<Judging, JudgeFault>
    ensures { IfOk result (λ judging. Judges (present book.now.journal) 1 (lines_of answer.now) (record { text = []; told = 0; failed = 0 }) judging) }
{
    let txns = book.present()?;
    let writers = Writers::of(alloc, txns.as_slice())?;
    let indexed = Indexed::new(book, &writers);
    indexed.is_history();
    judge_lines(alloc, &indexed, answer)
}

/// Appends the refused lines of the log, and then each line of the answer whose evidence fails.
pub fn judge_answer(
    alloc: Global,
    hash: RandomState,
    log: &[u8],
    answer: &[u8],
    text: &mut Vec<u8>,
) -> Result<Judged, JudgeFault>
    ensures { IfOk result (IsAnswered log.now answer.now text.old.items text.new.items) }
{
    let read = read_log(alloc, hash, log)?;
    let judging = judge_by(alloc, read.book(), answer)?;
    text.extend_from_slice(read.text())?;
    text.extend_from_slice(judging.text())?;
    Ok(Judged::of(read.refused(), judging.told(), judging.failed()))
}
