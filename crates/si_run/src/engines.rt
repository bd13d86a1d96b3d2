//! The decisions: each item is accepted or refused, and reports come where they are due.
//!
//! Every number of shards gives the same text: no clause here names it.

ghost use Rattle.std.specs.Prelude.{◌≡◌, ◌+◌, ◌<◌, ◌≤◌, ◌-◌, ◌^◌, ◌++◌, [], None, Some, if◌then◌else◌, ℕ, length, true, is_some, IfOk, OnOk, OnErr, IsSome};
ghost use Rattle.si_model.specs.Chances.{chances};
ghost use Rattle.si_model.specs.Findings.{findings};
ghost use Rattle.si_model.specs.Journals.{present};
ghost use Rattle.si_accept.specs.Statuses.{committed_among, doubtful_among};
ghost use Rattle.si_text.specs.Texts.{asks, is_short_ending, lines_asked, not_among, shortage_lines};
ghost use Rattle.si_run.specs.Tolds.{found_then};
ghost use Rattle.si_words.specs.Seats.{seated};
ghost use Rattle.si_words.specs.Views.{new_pass};
ghost use Rattle.si_run.specs.declared.faults.RunFault.TheVariants.{Memory};
ghost use Rattle.si_run.specs.Runs.{every_by, terms_by};
ghost use Rattle.si_run.specs.Takings.{IsLeftAt};
ghost use Rattle.si_run.specs.Outputs.{behind_report, changes_at, counted, decision_by, ending_lines, falls_short, is_due, is_short_of, item_text, journal_after, progress_after, reason_after, refusal_line, report_at, report_due, short_line, sourced, start, status_at, violations_at, whole_report_at};

use crate::tolds::Told;
use crate::{ExitStatus, Options};
use si_chances::chances_of;
use si_checker::{
    AcceptFault, Checker, Name, Pass, ReportFault, SettledChanges, SettledFindings, Statuses,
};
use si_model::sorting::put_in_order;
use si_model::{Chances, Edit, OutOfMemory};
use si_text::{
    Asked, Ending, LineFault, LineItem, Reason, Shortage, print_changes, print_last_report,
    print_refusal, print_report, print_summary,
};
use si_words::laws::{edits_append, edits_keep_length, lone_pass_issues_all};
use std::alloc::{AllocError, Global};
use std::hash::RandomState;
use std::marker::{Model, PhantomData};
use std::num::NonZeroU64;
use std::sync::Wait;

/// What became of an item that was decided.
#[derive(Clone, Copy, Debug, PartialEq, Eq)]
pub enum Decision {
    /// Its edit is in the journal.
    Accepted,
    /// A reason stood against it.
    Refused,
}

/// The only pass of a checker, with the counts of what was decided and of what was refused. Contracts see the terms that it decides
/// by, and how far its decisions are: the accepted edits are those that the pass has seen.
#[derive(Drop)]
pub struct Engine<N: Name> {
    alloc: Global,
    hash: RandomState,
    pass: Pass,
    every: Option<NonZeroU64>,
    only_new: bool,
    explain: bool,
    expected: Option<u64>,
    asked: Asked,
    shows: bool,
    decided: u64,
    refused: u64,
    // How many findings the last report had. It stands in lines of progress alone.
    found: Option<u64>,
    // What the last report on the way told, where these tell only what changed.
    told: Told,
    of: PhantomData<N>,
}

impl<N: Name> Model for Engine<N> {
    ghost use Rattle.si_run.specs.Engines.{EngineState, IsEngine, engine_state};
    ghost use Rattle.si_run.specs.Runs.{every_by};

    ghost Value = { EngineState };

    ghost view = { λ e. engine_state (record { limit = N.limit; every = every_by e.every; only_new = e.only_new; explain = e.explain; expected = e.expected; asked = e.asked; shows = e.shows }) e.pass.view e.decided e.refused e.told };

    ghost invariant = { λ e. IsEngine N.board e.pass e.decided e.refused e.told };
}

impl<N: Name> Engine<N> {
    /// An engine that has decided nothing, with the only pass of the checker.
    pub fn new(alloc: Global, hash: RandomState, pass: Pass, options: Options) -> Self
        requires alone { N.board.passes ≡ 1 }
        requires pass { pass ≡ seated N.board.table (new_pass N.board.shards 0) }
        requires limit { options.limit ≡ N.limit }
        ensures progress { result.progress ≡ start }
        ensures terms { result.terms ≡ terms_by options }
    {
        Engine {
            alloc,
            hash,
            pass,
            every: options.every,
            only_new: options.only_new,
            explain: options.explain,
            expected: options.expected,
            asked: options.asked,
            shows: options.shows_progress,
            decided: 0,
            refused: 0,
            found: None,
            told: Told::nothing(),
            of: PhantomData,
        }
    }

    /// Whether lines of progress are shown.
    pub fn shows(&self) -> bool
        ensures { result ≡ self.now.terms.shows }
    {
        self.shows
    }

    /// How many items were decided.
    pub fn decided(&self) -> u64
        ensures { result ≡ self.now.progress.decided }
    {
        self.decided
    }

    /// How many findings the last report on the way had, if there was one. No clause tells it: lines of progress alone have it.
    pub fn found(&self) -> Option<u64> {
        self.found
    }

    /// Decides an item, appends what is written for it, and answers what became of it.
    #[tactic(auto, unfolding(crate::specs::Outputs::item_text, crate::specs::Outputs::progress_after, crate::specs::Outputs::decided_after))]
    pub fn decide<R: Wait>(
        &mut self,
        rt: &R,
        checker: &Checker<N>,
        text: &mut Vec<u8>,
        source: usize,
        item: LineItem,
    ) -> Result<Decision, OutOfMemory>
        requires { self.old.progress.decided < 2 ^ 64 - 1 }
        ensures decision { IfOk result (λ decision. decision ≡ decision_by (reason_after self.old.terms.limit self.old.progress.journal item.1)) }
        ensures text { OnOk result (text.new.items
            ≡ text.old.items ++ item_text self.old.terms self.old.progress (sourced source item)) }
        ensures progress { OnOk result
            (self.new.progress ≡ progress_after self.old.terms self.old.progress (sourced source item)) }
        ensures terms { self.new.terms ≡ self.old.terms }
        ensures err { OnErr result (IsLeftAt self.old.terms self.old.progress (sourced source item) self.new.progress Memory) }
    {
        let (line, answer) = item;
        let reason = self.accept(rt, checker, answer)?;
        let decision = self.count(&reason);
        self.tell(text, source, line, reason)?;
        self.report_where_due(rt, checker, text)?;
        Ok(decision)
    }

    /// Counts an item that was decided, for this reason against it or for none, and answers what became of it.
    fn count(&mut self, reason: &Option<Reason>) -> Decision
        requires { self.old.progress.decided < 2 ^ 64 - 1 }
        ensures counted { self.new ≡ record self.old { progress = record self.old.progress { decided = self.old.progress.decided + 1; refused = counted self.old.progress.refused reason.now } } }
        ensures decision { result ≡ decision_by reason.now }
    {
        self.decided += 1;
        if reason.is_none() {
            return Decision::Accepted;
        }
        self.refused += 1;
        Decision::Refused
    }

    /// Appends the line of an item, if it is refused.
    fn tell(
        &self,
        text: &mut Vec<u8>,
        source: usize,
        line: u64,
        reason: Option<Reason>,
    ) -> Result<(), OutOfMemory>
        ensures ok { OnOk result (text.new.items ≡ text.old.items ++ refusal_line source line reason) }
        ensures err { OnErr result (IsSome reason) }
    {
        if let Some(reason) = reason {
            print_refusal(self.alloc, text, source, line, &reason)?;
        }
        Ok(())
    }

    /// Accepts the edit of an item, or tells why the item is refused.
    fn accept<R: Wait>(
        &mut self,
        rt: &R,
        checker: &Checker<N>,
        answer: Result<Edit, LineFault>,
    ) -> Result<Option<Reason>, OutOfMemory>
        ensures reason { IfOk result (λ reason. reason ≡ reason_after self.old.terms.limit self.old.progress.journal answer) }
        ensures ok { OnOk result (self.new ≡ record self.old { progress = record self.old.progress { journal = journal_after self.old.terms.limit self.old.progress.journal answer } }) }
        ensures err { OnErr result ((self.new ≡ self.old) × (reason_after self.old.terms.limit self.old.progress.journal answer ≡ None)) }
    {
        match answer {
            Ok(edit) => self.submit(rt, checker, edit),
            Err(fault) => Ok(Some(Reason::Malformed(fault))),
        }
    }

    /// Accepts the edit, or tells the first reason against it.
    fn submit<R: Wait>(
        &mut self,
        rt: &R,
        checker: &Checker<N>,
        edit: Edit,
    ) -> Result<Option<Reason>, OutOfMemory>
        ensures reason { IfOk result (λ reason. reason ≡ reason_after self.old.terms.limit self.old.progress.journal (Ok edit)) }
        ensures ok { OnOk result (self.new ≡ record self.old { progress = record self.old.progress { journal = journal_after self.old.terms.limit self.old.progress.journal (Ok edit) } }) }
        ensures err { OnErr result ((self.new ≡ self.old) × (reason_after self.old.terms.limit self.old.progress.journal (Ok edit) ≡ None)) }
    {
        lone_pass_issues_all();
        edits_append();
        match checker.submit(rt, &mut self.pass, edit) {
            Ok(_) => Ok(None),
            Err(AcceptFault::Refused(refusal)) => Ok(Some(Reason::Refused(refusal))),
            Err(AcceptFault::OutOfMemory) => Err(AllocError),
        }
    }

    /// Appends the report on the way, where it is due. If memory is refused, the engine is as before.
    #[tactic(auto, unfolding(crate::specs::Outputs::behind_report))]
    fn report_where_due<R: Wait>(
        &mut self,
        rt: &R,
        checker: &Checker<N>,
        text: &mut Vec<u8>,
    ) -> Result<(), OutOfMemory>
        ensures text { OnOk result (text.new.items ≡ text.old.items ++ report_due self.old.terms self.old.progress) }
        ensures progress { OnOk result (self.new.progress ≡ behind_report self.old.terms self.old.progress) }
        ensures terms { self.new.terms ≡ self.old.terms }
        ensures due { OnErr result (is_due self.old.terms.every self.old.progress.decided ≡ true) }
        ensures err { OnErr result (self.new ≡ self.old) }
    {
        if !is_due(self.every, self.decided) {
            return Ok(());
        }
        if self.only_new {
            self.tell_changes(rt, checker, text)
        } else {
            self.tell_all(rt, checker, text)
        }
    }

    /// Appends a report of what is present.
    #[tactic(auto, unfolding(crate::specs::Outputs::whole_report_at))]
    fn tell_all<R: Wait>(
        &mut self,
        rt: &R,
        checker: &Checker<N>,
        text: &mut Vec<u8>,
    ) -> Result<(), OutOfMemory>
        ensures text { OnOk result (text.new.items ≡ text.old.items ++ whole_report_at self.old.terms self.old.progress) }
        ensures state { self.new ≡ self.old }
    {
        let settled = self.settled(rt, checker)?;
        print_report(
            self.alloc,
            text,
            settled.transactions,
            &settled.findings,
            self.refused,
            self.explain,
        )?;
        self.found = Some(settled.findings.len() as u64);
        Ok(())
    }

    /// Appends a report of the violations that came or went since the one before, and keeps those that there are. If memory is refused, the
    /// engine is as before.
    #[tactic(auto, unfolding(crate::specs::Outputs::changes_at, crate::specs::Outputs::summary_at))]
    fn tell_changes<R: Wait>(
        &mut self,
        rt: &R,
        checker: &Checker<N>,
        text: &mut Vec<u8>,
    ) -> Result<(), OutOfMemory>
        ensures text { OnOk result (text.new.items ≡ text.old.items ++ changes_at self.old.terms self.old.progress) }
        ensures ok { OnOk result (self.new ≡ record self.old { progress = record self.old.progress { told = violations_at self.old.progress } }) }
        ensures err { OnErr result (self.new ≡ self.old) }
    {
        let told = self.told;
        let SettledChanges {
            number,
            transactions,
            mut came,
            mut went,
        } = self.changed(rt, checker, told.at)?;
        let now = told.after(number, &mut came, &mut went)?;
        print_changes(self.alloc, text, &went, &came, self.explain)?;
        let (found, verdict) = (now.found, now.verdict());
        print_summary(self.alloc, text, transactions, found, self.refused, verdict)?;
        self.told = now;
        self.found = Some(found as u64);
        Ok(())
    }

    /// Lets the shards apply all that is left, and takes what came and went since so many edits.
    fn changed<R: Wait>(
        &mut self,
        rt: &R,
        checker: &Checker<N>,
        since: u64,
    ) -> Result<SettledChanges, OutOfMemory>
        requires { since ≤ length self.old.progress.journal }
        ensures number { IfOk result (λ changes. changes.number ≡ length self.old.progress.journal) }
        ensures count { IfOk result (λ changes. changes.transactions ≡ length (present self.old.progress.journal).txns) }
        ensures came { IfOk result (λ changes. changes.came.items ≡ not_among (found_then self.old.progress.journal since) (findings (present self.old.progress.journal))) }
        ensures went { IfOk result (λ changes. changes.went.items ≡ not_among (findings (present self.old.progress.journal)) (found_then self.old.progress.journal since)) }
        ensures state { self.new ≡ self.old }
    {
        lone_pass_issues_all();
        edits_keep_length();
        checker.await_workers(rt, &mut self.pass);
        match checker.settled_changes(rt, &mut self.pass, since) {
            Ok(changes) => Ok(changes),
            // a spoiled shard was refused memory
            Err(ReportFault::Spoiled(_) | ReportFault::OutOfMemory) => Err(AllocError),
        }
    }

    /// Appends the last report, with what could have been found and what the run is short of, and answers the status.
    #[tactic(auto, unfolding(crate::specs::Outputs::report_at, crate::specs::Outputs::summary_at, crate::specs::Outputs::status_at))]
    pub fn last_report<R: Wait>(
        &mut self,
        rt: &R,
        checker: &Checker<N>,
        text: &mut Vec<u8>,
    ) -> Result<ExitStatus, OutOfMemory>
        ensures text { OnOk result (text.new.items ≡ text.old.items ++ report_at self.old.terms self.old.progress) }
        ensures status { IfOk result (λ status. status ≡ status_at self.old.terms self.old.progress) }
        ensures state { self.new ≡ self.old }
    {
        let end = self.settled(rt, checker)?;
        let ending = self.ending(rt, checker)?;
        let (refused, explain) = (self.refused, self.explain);
        let verdict = print_last_report(
            self.alloc,
            text,
            end.transactions,
            &end.findings,
            refused,
            explain,
            &ending,
        )?;
        Ok(ExitStatus::of(verdict, refused, ending.is_short()))
    }

    /// What the last report tells right before its summary.
    fn ending<R: Wait>(&mut self, rt: &R, checker: &Checker<N>) -> Result<Ending, OutOfMemory>
        ensures lines { IfOk result (λ e. lines_asked e.asked (shortage_lines e.shortage) e.chances ≡ ending_lines self.old.terms (present self.old.progress.journal)) }
        ensures short { IfOk result (λ e. is_short_ending e ≡ falls_short self.old.terms (present self.old.progress.journal)) }
        ensures state { self.new ≡ self.old }
    {
        let shortage = self.shortage(rt, checker)?;
        let chances = self.chances(rt, checker)?;
        Ok(Ending {
            shortage,
            asked: self.asked,
            chances,
        })
    }

    /// What could have been found, where something is asked of it.
    fn chances<R: Wait>(
        &mut self,
        rt: &R,
        checker: &Checker<N>,
    ) -> Result<Option<Chances>, OutOfMemory>
        ensures some { IfOk result (λ found. found ≡ (if asks self.old.terms.asked then Some (chances (present self.old.progress.journal)) else None)) }
        ensures state { self.new ≡ self.old }
    {
        if !self.asked.is_some() {
            return Ok(None);
        }
        lone_pass_issues_all();
        let present = checker.present(rt, &mut self.pass)?;
        // (no more edits are issued than there may be, so no more transactions are present)
        let _issued = checker.issued(&mut self.pass);
        Ok(Some(chances_of(self.alloc, self.hash, &present)?))
    }

    /// What the run is short of, where a number of transactions is expected and it is short.
    fn shortage<R: Wait>(
        &mut self,
        rt: &R,
        checker: &Checker<N>,
    ) -> Result<Option<Shortage>, OutOfMemory>
        ensures line { IfOk result (λ shortage. shortage_lines shortage ≡ short_line self.old.terms.expected (present self.old.progress.journal).txns) }
        ensures short { IfOk result (λ shortage. is_some shortage ≡ is_short_of self.old.terms.expected (present self.old.progress.journal).txns) }
        ensures state { self.new ≡ self.old }
    {
        let Some(expected) = self.expected else {
            return Ok(None);
        };
        let Statuses {
            committed,
            mut in_doubt,
        } = self.statuses(rt, checker)?;
        if expected <= committed as u64 && in_doubt.is_empty() {
            return Ok(None);
        }
        put_in_order(&mut in_doubt);
        Ok(Some(Shortage {
            committed,
            expected,
            in_doubt,
        }))
    }

    /// What became of the present transactions.
    fn statuses<R: Wait>(&mut self, rt: &R, checker: &Checker<N>) -> Result<Statuses, OutOfMemory>
        ensures committed { IfOk result (λ s. s.committed ≡ committed_among (present self.old.progress.journal).txns) }
        ensures in_doubt { IfOk result (λ s. s.in_doubt.items ≡ doubtful_among (present self.old.progress.journal).txns) }
        ensures state { self.new ≡ self.old }
    {
        lone_pass_issues_all();
        checker.statuses(rt, &mut self.pass)
    }

    /// Lets the shards apply all that is left, and takes the findings.
    fn settled<R: Wait>(
        &mut self,
        rt: &R,
        checker: &Checker<N>,
    ) -> Result<SettledFindings, OutOfMemory>
        ensures findings { IfOk result (λ settled. settled.findings.items ≡ findings (present self.old.progress.journal)) }
        ensures count { IfOk result (λ settled. settled.transactions ≡ length (present self.old.progress.journal).txns) }
        ensures state { self.new ≡ self.old }
    {
        lone_pass_issues_all();
        checker.await_workers(rt, &mut self.pass);
        match checker.settled_findings(rt, &mut self.pass) {
            Ok(settled) => Ok(settled),
            // a spoiled shard was refused memory
            Err(ReportFault::Spoiled(_) | ReportFault::OutOfMemory) => Err(AllocError),
        }
    }

    /// Lets the checker's workers end.
    pub fn close<R: Wait>(&mut self, rt: &R, checker: &Checker<N>)
        ensures { self.new ≡ self.old }
    {
        checker.close(rt, &mut self.pass);
    }
}

fn is_due(every: Option<NonZeroU64>, decided: u64) -> bool
    ensures { result ≡ is_due (every_by every) decided }
{
    match every {
        Some(every) => decided % every.get() == 0,
        None => false,
    }
}
