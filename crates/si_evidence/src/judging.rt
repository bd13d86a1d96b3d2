//! The lines of an answer, judged one after the other.

ghost use Rattle.std.specs.Prelude.{◌≡◌, ◌<◌, ◌-◌, ◌^◌, IfOk, IfErr, OnOk, true, false, length, [], ◌≤◌, ◌+◌};
ghost use Rattle.si_model.specs.History.{IsHistory};
ghost use Rattle.si_text.specs.Inputs.{lines_of};
ghost use Rattle.si_text.specs.Texts.{shown_text};
ghost use Rattle.si_graph.specs.Shown.{Shows};
ghost use Rattle.si_evidence.specs.Judging.{IsJudged, IsNext, Judges, is_evidence};

use crate::JudgeFault;
use si_graph::{Lookup, check_evidence_by};
use si_model::{Evidence, OutOfMemory};
use si_text::{print_failure, read_evidence, split_line};
use std::alloc::Global;
use std::marker::Model;

/// What is told of the evidence so far.
#[derive(Drop)]
pub struct Judging {
    alloc: Global,
    text: Vec<u8>,
    told: u64,
    failed: u64,
}

impl Model for Judging {
    ghost use Rattle.si_evidence.specs.Judging.{Verdicts};

    ghost Value = { Verdicts };

    ghost view = { λ j. record { text = j.text.items; told = j.told; failed = j.failed } };
}

impl Judging {
    /// Nothing is told.
    pub fn new(alloc: Global) -> Self
        ensures { result ≡ record { text = []; told = 0; failed = 0 } }
    {
        Judging {
            alloc,
            text: Vec::new(alloc),
            told: 0,
            failed: 0,
        }
    }

    /// What is told.
    pub fn text(&self) -> &[u8]
        ensures { result.now ≡ self.now.text }
    {
        &self.text
    }

    /// Of how many pieces of evidence.
    pub fn told(&self) -> u64
        ensures { result ≡ self.now.told }
    {
        self.told
    }

    /// How many of them fail.
    pub fn failed(&self) -> u64
        ensures { result ≡ self.now.failed }
    {
        self.failed
    }

    /// Judges a line of that number.
    fn judge_line<L: Lookup>(
        &mut self,
        lookup: &L,
        number: u64,
        line: &[u8],
    ) -> Result<(), JudgeFault>
        requires history { IsHistory (L.present lookup.now) }
        requires told { self.old.told < 2 ^ 64 - 1 }
        requires failed { self.old.failed < 2 ^ 64 - 1 }
        ensures { OnOk result (IsNext (L.present lookup.now) number line.now (is_evidence line.now) self.old self.new) }
    {
        if !is_evidence(line) {
            return Ok(());
        }
        match read_evidence(self.alloc, line)? {
            Some(evidence) => Ok(self.judge(lookup, number, &evidence)?),
            None => Err(JudgeFault::Malformed(number)),
        }
    }

    /// Judges the evidence in the line of that number.
    fn judge<L: Lookup>(
        &mut self,
        lookup: &L,
        number: u64,
        evidence: &Evidence,
    ) -> Result<(), OutOfMemory>
        requires history { IsHistory (L.present lookup.now) }
        requires told { self.old.told < 2 ^ 64 - 1 }
        requires failed { self.old.failed < 2 ^ 64 - 1 }
        ensures { OnOk result (IsJudged (L.present lookup.now) number (shown_text evidence.now) self.old self.new) }
    {
        if check_evidence_by(lookup, evidence) {
            self.told += 1;
            return Ok(());
        }
        print_failure(self.alloc, &mut self.text, number)?;
        self.told += 1;
        self.failed += 1;
        Ok(())
    }
}

/// Whether the line is evidence: it begins with two spaces.
fn is_evidence(line: &[u8]) -> bool
    ensures { result ≡ is_evidence line.now }
{
    match line {
        [first, second, ..] => *first == b' ' && *second == b' ',
        _ => false,
    }
}

/// Judges the lines of an answer.
pub fn judge_lines<L: Lookup>(
    alloc: Global,
    lookup: &L,
    answer: &[u8],
) -> Result<Judging, JudgeFault>
    requires { IsHistory (L.present lookup.now) }
    ensures { IfOk result (λ judging. Judges (L.present lookup.now) 1 (lines_of answer.now) (record { text = []; told = 0; failed = 0 }) judging) }
{
    let mut judging = Judging::new(alloc);
    let mut rest = answer;
    let mut number: u64 = 0;
    'lines: while !rest.is_empty() {
        let (line, more) = split_line(rest);
        number += 1;
        judging.judge_line(lookup, number, line)?;
        rest = more;
    }
    Ok(judging)
}
