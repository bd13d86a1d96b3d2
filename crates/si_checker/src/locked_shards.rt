//! What lies under the lock of one shard, and what calls do there.
ghost use Rattle.std.specs.Prelude.{◌≡◌, ℕ, ◌+◌, ◌<◌, ◌≤◌, Bool, true, false, IsTrue, ◌↔◌, ◌++◌, length, take, drop, slice_index, IfOk, OnOk, IfErr, OnErr};
ghost use Rattle.si_model.specs.Journals.{IsAccepted, present};
ghost use Rattle.si_shard.specs.KeyNotes.{not_among};
ghost use Rattle.si_shard.specs.Laws.{shard_id};
ghost use Rattle.si_shard.specs.Shards.{findings_in};
ghost use Rattle.si_shard.specs.ToldEdits.{AreTold};
ghost use Rattle.si_words.specs.Entries.{IsBeginning, edits_of};
ghost use Rattle.si_words.specs.Seats.{seated};
ghost use Rattle.si_words.specs.Views.{new_shard, shard_closed, shard_counted, with_done, with_due, with_learned};
ghost use Rattle.si_checker.specs.LockedShards.{applied_by};
ghost use Rattle.si_checker.specs.declared.reports.ReportFault.TheVariants as fault;

use crate::Name;
use crate::locked_books::LockedBook;
use crate::reports::{ReportFault, ShardReport};
use si_model::laws::accepted_begins;
use si_model::{Finding, MOST_EDITS, OutOfMemory};
use si_shard::{Changes, JournalShard, KeyFault, MOST_SHARDS, SharedEdits};
use si_words::laws::{edits_begin, edits_keep_length};
use si_words::{Pass, ShardSeat, Words};
use std::alloc::Global;
use std::hash::RandomState;
use std::marker::{Model, PhantomData};

/// One shard and its seat. Contracts see what the seat knows, and whether the shard is spoiled: what it has applied is the first
/// of what it is due, as far as its seat has published.
#[derive(Drop)]
pub struct LockedShard<N: Name> {
    shard: JournalShard,
    seat: ShardSeat,
    of: PhantomData<N>,
}

impl<N: Name> Model for LockedShard<N> {
    ghost use Rattle.si_checker.specs.LockedShards.{LockedShardState, IsLockedShard};

    ghost Value = { LockedShardState };

    ghost view = { λ b. record { seat = b.seat.view; spoiled = b.shard.spoiled } };

    ghost invariant = { λ b. IsLockedShard N.board b.shard b.seat };
}

impl<N: Name> LockedShard<N> {
    /// The shard of the seat, among so many. It has applied no edit.
    pub fn new(alloc: Global, hash: RandomState, shards: usize, seat: ShardSeat) -> Self
        requires shards { shards ≡ N.board.shards }
        requires most { shards ≤ MOST_SHARDS }
        requires seat { seat ≡ seated N.board.table (new_shard seat.view.number) }
        requires number { seat.view.number < shards }
        ensures { result ≡ record { seat = seat.view; spoiled = false } }
    {
        let shard = JournalShard::new(alloc, hash, seat.number(), shards);
        LockedShard {
            shard,
            seat,
            of: PhantomData,
        }
    }

    /// Which shard it is.
    pub fn number(&self) -> usize
        ensures number { result ≡ self.now.seat.number }
        ensures within { self.now.seat.number < N.board.shards }
    {
        self.seat.number()
    }

    /// How many edits the shard has applied.
    pub fn position(&self) -> u64
        ensures position { result ≡ self.now.seat.done }
        ensures within { result ≤ length self.now.seat.due }
        ensures most { result ≤ MOST_EDITS }
    {
        self.shard.position()
    }

    /// Whether memory was refused to an edit, which is left then, and no rebuild came since.
    pub fn is_spoiled(&self) -> bool
        ensures spoiled { result ≡ self.now.spoiled }
        ensures left { result ≡ true → self.now.seat.done < length self.now.seat.due }
    {
        self.shard.is_spoiled()
    }

    /// The shard is due the whole journal, which goes on where that ended which it was due before.
    pub fn pull(&mut self, words: &Words, locked_book: &mut LockedBook<N>)
        requires { words.now ≡ N.board }
        ensures seat { self.new ≡ record self.old { seat = with_due locked_book.old.journal self.old.seat } }
        ensures locked_book { locked_book.new ≡ locked_book.old }
        ensures begins { IsBeginning self.old.seat.due locked_book.old.journal }
    {
        locked_book.pass_by(self.seat.number(), self.shard.position());
        words.pull(&mut self.seat, &mut locked_book.seat);
        edits_begin();
    }

    /// Applies the edits, which are the next of those that the shard is due, and publishes how far it came.
    ///
    /// Where memory is refused some first of them stand, or none, and the shard is spoiled. One that was spoiled before stays so.
    pub fn apply(&mut self, words: &Words, edits: SharedEdits)
        requires words { words.now ≡ N.board }
        requires next { AreTold (edits_of self.old.seat.due) self.old.seat.done edits }
        ensures seat { self.new.seat ≡ with_done self.new.seat.done self.old.seat }
        ensures onward { self.old.seat.done ≤ self.new.seat.done }
        ensures within { self.new.seat.done ≤ self.old.seat.done + length edits }
        ensures whole { self.new.spoiled ≡ false → (self.new.seat.done ≡ self.old.seat.done + length edits) × (self.old.spoiled ≡ false) }
    {
        self.shard.apply_first(edits.as_slice());
        words.publish(&mut self.seat, self.shard.position());
        edits_keep_length();
    }

    /// The shard is due the whole journal, applies what is left of it and publishes how far it came.
    ///
    /// Where it is spoiled, by this or before, it has applied no more than before.
    pub fn settle(
        &mut self,
        words: &Words,
        locked_book: &mut LockedBook<N>,
    ) -> Result<(), ReportFault>
        requires words { words.now ≡ N.board }
        ensures locked_book { locked_book.new ≡ locked_book.old }
        ensures settled { OnOk result ((self.new.seat ≡ with_done (length locked_book.old.journal) (with_due locked_book.old.journal self.old.seat)) × (self.new.spoiled ≡ false)) }
        ensures whole { OnOk result (self.old.spoiled ≡ false) }
        ensures fault { IfErr result (λ f. f ≡ fault.Spoiled self.old.seat.number) }
        ensures spoiled { OnErr result (self.new ≡ record self.old { seat = with_due locked_book.old.journal self.old.seat; spoiled = true }) }
    {
        self.pull(words, locked_book);
        if self.shard.catch_up(locked_book.book()).is_err() {
            return Err(ReportFault::Spoiled(self.seat.number()));
        }
        words.publish(&mut self.seat, self.shard.position());
        Ok(())
    }

    /// Adds the findings on the shard's keys of what is present after the edits that it has applied.
    pub fn add_findings(&self, found: &mut Vec<Finding>) -> Result<(), ReportFault>
        ensures ok { OnOk result (found.new.items ≡ found.old.items ++ findings_in (shard_id self.now.seat.number N.board.shards) (present (applied_by self.now.seat))) }
        ensures spoiled { (k : ℕ) → IfErr result (λ f. f ≡ fault.Spoiled k → (k ≡ self.now.seat.number) × (self.now.spoiled ≡ true)) }
    {
        let mut more = self.findings()?;
        found.append(&mut more)?;
        Ok(())
    }

    /// Adds what is found on the shard's keys after the edits that it has applied and wasn't after so many first ones of the journal, and
    /// what was and isn't.
    pub fn add_changes(
        &mut self,
        locked_book: &LockedBook<N>,
        since: usize,
        changes: &mut Changes,
    ) -> Result<(), ReportFault>
        requires due { self.old.seat.due ≡ locked_book.now.journal }
        requires since { since ≤ self.old.seat.done }
        ensures locked_shard { self.new ≡ self.old }
        ensures came { OnOk result (changes.new.came.items ≡ changes.old.came.items
            ++ not_among (findings_in (shard_id self.old.seat.number N.board.shards) (present (take since (edits_of self.old.seat.due)))) (findings_in (shard_id self.old.seat.number N.board.shards) (present (applied_by self.old.seat)))) }
        ensures went { OnOk result (changes.new.went.items ≡ changes.old.went.items
            ++ not_among (findings_in (shard_id self.old.seat.number N.board.shards) (present (applied_by self.old.seat))) (findings_in (shard_id self.old.seat.number N.board.shards) (present (take since (edits_of self.old.seat.due))))) }
        ensures spoiled { (k : ℕ) → IfErr result (λ f. f ≡ fault.Spoiled k → (k ≡ self.old.seat.number) × (self.old.spoiled ≡ true)) }
    {
        match self
            .shard
            .add_changes(locked_book.journal(), since, changes)
        {
            Ok(()) => Ok(()),
            Err(KeyFault::Spoiled) => Err(ReportFault::Spoiled(self.seat.number())),
            Err(KeyFault::OutOfMemory) => Err(ReportFault::OutOfMemory),
        }
    }

    /// The findings on the shard's keys of what is present after the edits that it has applied, in order.
    pub fn findings(&self) -> Result<Vec<Finding>, ReportFault>
        ensures ok { IfOk result (λ found. found.items ≡ findings_in (shard_id self.now.seat.number N.board.shards) (present (applied_by self.now.seat))) }
        ensures spoiled { (k : ℕ) → IfErr result (λ f. f ≡ fault.Spoiled k → (k ≡ self.now.seat.number) × (self.now.spoiled ≡ true)) }
    {
        match self.shard.findings() {
            Ok(found) => Ok(found),
            Err(KeyFault::Spoiled) => Err(ReportFault::Spoiled(self.seat.number())),
            Err(KeyFault::OutOfMemory) => Err(ReportFault::OutOfMemory),
        }
    }

    /// The pass learns how much the shard has applied, and sees what the shard is due where that is more than it has seen; and the
    /// findings are told. After a fault the pass is as before.
    pub fn report(&mut self, words: &Words, pass: &mut Pass) -> Result<ShardReport, ReportFault>
        requires words { words.now ≡ N.board }
        requires own { pass.old.table ≡ N.board.table }
        ensures locked_shard { self.new ≡ self.old }
        ensures learned { OnOk result (pass.new ≡ record pass.old { view = with_learned self.old.seat self.old.seat.done pass.old.view }) }
        ensures position { IfOk result (λ r. r.position ≡ self.old.seat.done) }
        ensures findings { IfOk result (λ r. r.findings.items ≡ findings_in (shard_id self.old.seat.number N.board.shards) (present (applied_by self.old.seat))) }
        ensures mark { OnOk result (slice_index pass.new.view.marks self.old.seat.number ≡ self.old.seat.done) }
        ensures rises { OnOk result (slice_index pass.old.view.marks self.old.seat.number ≤ self.old.seat.done) }
        ensures seen { OnOk result (IsBeginning pass.old.view.seen pass.new.view.seen) }
        ensures due { OnOk result (IsBeginning self.old.seat.due pass.new.view.seen) }
        ensures applied { self.old.seat.done ≤ length self.old.seat.due }
        ensures accepted { IsAccepted (applied_by self.old.seat) }
        ensures spoiled { (k : ℕ) → IfErr result (λ f. f ≡ fault.Spoiled k → (k ≡ self.old.seat.number) × (self.old.spoiled ≡ true)) }
        ensures err { OnErr result (pass.new ≡ pass.old) }
    {
        accepted_begins();
        let findings = self.findings()?;
        words.learn(pass, &mut self.seat);
        Ok(ShardReport {
            position: self.shard.position(),
            findings,
        })
    }

    /// Makes all that the shard of this number knows anew from the edits that it has applied, and so ends a spoiled state. It is due the
    /// whole journal then, from which it takes them.
    ///
    /// If memory is refused, all else stays as it was.
    pub fn rebuild(
        &mut self,
        words: &Words,
        locked_book: &mut LockedBook<N>,
        number: usize,
    ) -> Result<(), OutOfMemory>
        requires words { words.now ≡ N.board }
        requires number { number ≡ self.old.seat.number }
        ensures locked_book { locked_book.new ≡ locked_book.old }
        ensures ok { OnOk result (self.new ≡ record self.old { seat = with_due locked_book.old.journal self.old.seat; spoiled = false }) }
        ensures err { OnErr result (self.new ≡ record self.old { seat = with_due locked_book.old.journal self.old.seat }) }
    {
        let _number = number;
        self.pull(words, locked_book);
        self.shard.rebuild(locked_book.journal())
    }

    /// Whether more edits were issued than the shard has applied. It takes no lock of the book.
    pub fn is_behind(&mut self, words: &Words) -> bool
        requires { words.now ≡ N.board }
        ensures { (n : ℕ) × (self.new ≡ record self.old { seat = shard_counted n self.old.seat }) × (IsTrue result ↔ (self.old.seat.done < n)) }
    {
        let issued = words.issued_at(&mut self.seat);
        issued > self.shard.position()
    }

    /// Whether the words are closed. Once they were found so they are found so again.
    pub fn is_closed(&mut self, words: &Words) -> bool
        requires { words.now ≡ N.board }
        ensures seat { self.new ≡ record self.old { seat = shard_closed result self.old.seat } }
        ensures stays { self.old.seat.closed ≡ true → result ≡ true }
    {
        words.is_closed_at(&mut self.seat)
    }
}
