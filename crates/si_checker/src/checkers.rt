//! The checker: what callers with a pass do.
ghost use Rattle.std.specs.Prelude.{◌≡◌, ◌↔◌, ℕ, ◌<◌, ◌≤◌, true, [], ◌++◌, length, take, vec_len, slice_index, IfOk, OnOk, IfErr, OnErr, IfSome};
ghost use Rattle.std.specs.Sync.Mutex.{mutex_guard_value};
ghost use Rattle.si_model.specs.Findings.{findings};
ghost use Rattle.si_model.specs.Form.{IsWellFormed};
ghost use Rattle.si_model.specs.History.{IsHistory};
ghost use Rattle.si_model.specs.Journals.{IsAccepted, present, refusal_after};
ghost use Rattle.si_graph.specs.Phenomena.{IsPlSi};
ghost use Rattle.si_graph.specs.Snapshots.{IsSnapshot};
ghost use Rattle.si_accept.specs.Faults.{IsFaultOf};
ghost use Rattle.si_accept.specs.Statuses.{committed_among, doubtful_among};
ghost use Rattle.si_shard.specs.KeyNotes.{not_among};
ghost use Rattle.si_shard.specs.Laws.{shard_id};
ghost use Rattle.si_shard.specs.Shards.{findings_in};
ghost use Rattle.si_words.specs.Entries.{IsBeginning, edits_of};
ghost use Rattle.si_words.specs.Seats.{new_shards};
ghost use Rattle.si_shard.specs.declared.shards.TheConstants.{MOST_SHARDS};
ghost use Rattle.si_words.specs.Views.{pass_closed, with_count, with_mark, with_marks};
ghost use Rattle.si_checker.specs.Calls.{IsSubmitted, SeesJournal, issuing, learning};
ghost use Rattle.si_checker.specs.declared.reports.ReportFault.TheVariants as fault;

use crate::locked_books::LockedBook;
use crate::locked_shards::LockedShard;
use crate::openings::Parts;
use crate::reports::{Report, ReportFault, SettledChanges, SettledFindings, ShardReport, Statuses};
use crate::{AcceptFault, Name};
use si_accept::Book;
use si_graph::laws::{emptiness_is_exact, snapshots_are_clean};
use si_model::laws::{accepted_begins, present_is_history};
use si_model::{Edit, Finding, MOST_EDITS, Number, OutOfMemory, Txn};
use si_shard::{Changes, put_all_in_order, put_changes_in_order};
use si_words::{Pass, ShardSeat, Words};
use std::alloc::{AllocError, Global};
use std::hash::RandomState;
use std::sync::atomic::{AtomicU64, Ordering};
use std::sync::{Mutex, MutexGuard, Wait};

/// A checker that any threads share by reference.
///
/// Its locks are taken in one order: the book's, then one shard's. No call holds two shards.
#[derive(Drop)]
pub struct Checker<N: Name> {
    pub(crate) alloc: Global,
    pub(crate) words: Words,
    pub(crate) locked_book: Mutex<LockedBook<N>>,
    // The shard of each number. The type behind a lock does not know its place, so the number is looked at each time.
    locked_shards: Vec<Mutex<LockedShard<N>>>,
    // Idle workers sleep on it while it is 0, and it is 1 once the checker was closed.
    pub(crate) idle: AtomicU64,
    ghost words_are: { words ≡ N.board },
    ghost locked_shards_are: { length locked_shards.items ≡ N.board.shards },
    ghost some: { 1 ≤ N.board.shards },
}

impl<N: Name> Checker<N> {
    /// The checker of these parts, whose board and limit the name tells. It fails where memory is refused.
    pub fn new(alloc: Global, parts: Parts) -> Result<Self, OutOfMemory>
        requires board { parts.board ≡ N.board }
        requires limit { parts.limit ≡ N.limit }
    {
        let Parts {
            hash,
            words,
            book,
            seats,
            limit,
        } = parts;
        let shards = seats.len();
        let locked_shards = locked_shards_of(alloc, hash, seats)?;
        let locked_book = LockedBook::new(alloc, Book::new(alloc, hash, limit), book, shards);
        Ok(Checker {
            alloc,
            words,
            locked_book: Mutex::new(locked_book),
            locked_shards,
            idle: AtomicU64::new(0),
        })
    }

    /// How many shards there are.
    pub fn shards(&self) -> usize
        ensures { result ≡ N.board.shards }
    {
        self.locked_shards.len()
    }

    /// Accepts the edit, which bears the pass, or tells the first reason against it. The answer is its number in the journal.
    ///
    /// Afterwards the pass has seen the journal on which the edit was decided, and nothing else of it changes but, where the edit
    /// was accepted, its own edits by that one.
    pub fn submit<R: Wait>(
        &self,
        rt: &R,
        pass: &mut Pass,
        edit: Edit,
    ) -> Result<Number, AcceptFault>
        requires { pass.old.table ≡ N.board.table }
        ensures submitted { OnOk result (IsSubmitted N.limit edit pass.old.view pass.new.view) }
        ensures number { IfOk result (λ number. number.0 ≡ length pass.new.view.seen) }
        ensures ok { OnOk result (SeesJournal N.board pass.new.view.seen (issuing edit pass.old) pass.new) }
        ensures fault { IfErr result (IsFaultOf (refusal_after N.limit (edits_of pass.new.view.seen) edit)) }
        ensures err { OnErr result (SeesJournal N.board pass.new.view.seen pass.old pass.new) }
    {
        self.locked_book.lock(rt).submit(&self.words, pass, edit)
    }

    /// The findings of the whole journal, which the pass sees, and what is present after it.
    ///
    /// What shards have left to apply is applied here. After a fault what was applied stands, and the pass has seen the journal.
    pub fn settled_report<R: Wait>(&self, rt: &R, pass: &mut Pass) -> Result<Report, ReportFault>
        requires { pass.old.table ≡ N.board.table }
        ensures fault { (j : ℕ) → IfErr result (λ f. f ≡ fault.Spoiled j → j < N.board.shards) }
        ensures number { IfOk result (λ r. r.number ≡ length pass.new.view.seen) }
        ensures present { IfOk result (λ r. r.present.items ≡ (present (edits_of pass.new.view.seen)).txns) }
        ensures initial { IfOk result (λ r. r.initial.items ≡ (present (edits_of pass.new.view.seen)).initial) }
        ensures found { IfOk result (λ r. r.findings.items ≡ findings (present (edits_of pass.new.view.seen))) }
        ensures empty { IfOk result (λ r. (r.findings.items ≡ []) ↔ (IsWellFormed (present (edits_of pass.new.view.seen)) × IsPlSi (present (edits_of pass.new.view.seen)))) }
        ensures snapshot { IfOk result (λ r. (r.findings.items ≡ []) ↔ IsSnapshot (present (edits_of pass.new.view.seen))) }
        ensures sees { SeesJournal N.board pass.new.view.seen pass.old pass.new }
    {
        let mut guard = self.locked_book.lock(rt);
        let locked_book = &mut *guard;
        locked_book.show(&self.words, pass);
        self.report_of(rt, locked_book)
    }

    /// The findings of the whole journal, and what is present after it.
    fn report_of<R: Wait>(
        &self,
        rt: &R,
        locked_book: &mut LockedBook<N>,
    ) -> Result<Report, ReportFault>
        ensures fault { (j : ℕ) → IfErr result (λ f. f ≡ fault.Spoiled j → j < N.board.shards) }
        ensures locked_book { locked_book.new ≡ locked_book.old }
        ensures number { IfOk result (λ r. r.number ≡ length locked_book.old.journal) }
        ensures present { IfOk result (λ r. r.present.items ≡ (present (edits_of locked_book.old.journal)).txns) }
        ensures initial { IfOk result (λ r. r.initial.items ≡ (present (edits_of locked_book.old.journal)).initial) }
        ensures found { IfOk result (λ r. r.findings.items ≡ findings (present (edits_of locked_book.old.journal))) }
        ensures empty { IfOk result (λ r. (r.findings.items ≡ []) ↔ (IsWellFormed (present (edits_of locked_book.old.journal)) × IsPlSi (present (edits_of locked_book.old.journal)))) }
        ensures snapshot { IfOk result (λ r. (r.findings.items ≡ []) ↔ IsSnapshot (present (edits_of locked_book.old.journal))) }
    {
        let findings = self.settle(rt, locked_book)?;
        Ok(Report {
            number: locked_book.len(),
            present: locked_book.present()?,
            initial: locked_book.initial()?,
            findings,
        })
    }

    /// The findings of the whole journal, which the pass sees, and how many transactions are present after it: what a settled
    /// report tells, without the copy of what is present.
    ///
    /// What shards have left to apply is applied here. After a fault what was applied stands, and the pass has seen the journal.
    pub fn settled_findings<R: Wait>(
        &self,
        rt: &R,
        pass: &mut Pass,
    ) -> Result<SettledFindings, ReportFault>
        requires { pass.old.table ≡ N.board.table }
        ensures fault { (j : ℕ) → IfErr result (λ f. f ≡ fault.Spoiled j → j < N.board.shards) }
        ensures number { IfOk result (λ r. r.number ≡ length pass.new.view.seen) }
        ensures count { IfOk result (λ r. r.transactions ≡ length (present (edits_of pass.new.view.seen)).txns) }
        ensures found { IfOk result (λ r. r.findings.items ≡ findings (present (edits_of pass.new.view.seen))) }
        ensures empty { IfOk result (λ r. (r.findings.items ≡ []) ↔ (IsWellFormed (present (edits_of pass.new.view.seen)) × IsPlSi (present (edits_of pass.new.view.seen)))) }
        ensures snapshot { IfOk result (λ r. (r.findings.items ≡ []) ↔ IsSnapshot (present (edits_of pass.new.view.seen))) }
        ensures sees { SeesJournal N.board pass.new.view.seen pass.old pass.new }
    {
        let mut guard = self.locked_book.lock(rt);
        let locked_book = &mut *guard;
        let words = &self.words;
        locked_book.show(words, pass);
        self.findings_of(rt, locked_book)
    }

    /// The findings of the whole journal, and how many transactions are present after it.
    fn findings_of<R: Wait>(
        &self,
        rt: &R,
        locked_book: &mut LockedBook<N>,
    ) -> Result<SettledFindings, ReportFault>
        ensures fault { (j : ℕ) → IfErr result (λ f. f ≡ fault.Spoiled j → j < N.board.shards) }
        ensures locked_book { locked_book.new ≡ locked_book.old }
        ensures number { IfOk result (λ r. r.number ≡ length locked_book.old.journal) }
        ensures count { IfOk result (λ r. r.transactions ≡ length (present (edits_of locked_book.old.journal)).txns) }
        ensures found { IfOk result (λ r. r.findings.items ≡ findings (present (edits_of locked_book.old.journal))) }
        ensures empty { IfOk result (λ r. (r.findings.items ≡ []) ↔ (IsWellFormed (present (edits_of locked_book.old.journal)) × IsPlSi (present (edits_of locked_book.old.journal)))) }
        ensures snapshot { IfOk result (λ r. (r.findings.items ≡ []) ↔ IsSnapshot (present (edits_of locked_book.old.journal))) }
    {
        let findings = self.settle(rt, locked_book)?;
        let number = locked_book.len();
        Ok(SettledFindings {
            number,
            transactions: locked_book.transactions(),
            findings,
        })
    }

    /// What is found in the whole journal, which the pass sees, and wasn't after so many first edits of it, and what was and isn't.
    ///
    /// It costs what changed where this was asked last after those edits, and else as much as applying them. What shards have left to apply
    /// is applied here. After a fault what was applied stands, and the pass has seen the journal.
    pub fn settled_changes<R: Wait>(
        &self,
        rt: &R,
        pass: &mut Pass,
        since: u64,
    ) -> Result<SettledChanges, ReportFault>
        requires own { pass.old.table ≡ N.board.table }
        requires since { since ≤ length pass.old.view.seen }
        ensures fault { (j : ℕ) → IfErr result (λ f. f ≡ fault.Spoiled j → j < N.board.shards) }
        ensures number { IfOk result (λ r. r.number ≡ length pass.new.view.seen) }
        ensures count { IfOk result (λ r. r.transactions ≡ length (present (edits_of pass.new.view.seen)).txns) }
        ensures came { IfOk result (λ r. r.came.items ≡ not_among (findings (present (take since (edits_of pass.new.view.seen)))) (findings (present (edits_of pass.new.view.seen)))) }
        ensures went { IfOk result (λ r. r.went.items ≡ not_among (findings (present (edits_of pass.new.view.seen))) (findings (present (take since (edits_of pass.new.view.seen))))) }
        ensures sees { SeesJournal N.board pass.new.view.seen pass.old pass.new }
    {
        let mut guard = self.locked_book.lock(rt);
        let locked_book = &mut *guard;
        locked_book.show(&self.words, pass);
        self.changes_of(rt, locked_book, since as usize)
    }

    /// What is found in the whole journal and wasn't after so many first edits of it, and what was and isn't.
    fn changes_of<R: Wait>(
        &self,
        rt: &R,
        locked_book: &mut LockedBook<N>,
        since: usize,
    ) -> Result<SettledChanges, ReportFault>
        requires { since ≤ length locked_book.old.journal }
        ensures fault { (j : ℕ) → IfErr result (λ f. f ≡ fault.Spoiled j → j < N.board.shards) }
        ensures locked_book { locked_book.new ≡ locked_book.old }
        ensures number { IfOk result (λ r. r.number ≡ length locked_book.old.journal) }
        ensures count { IfOk result (λ r. r.transactions ≡ length (present (edits_of locked_book.old.journal)).txns) }
        ensures came { IfOk result (λ r. r.came.items ≡ not_among (findings (present (take since (edits_of locked_book.old.journal)))) (findings (present (edits_of locked_book.old.journal)))) }
        ensures went { IfOk result (λ r. r.went.items ≡ not_among (findings (present (edits_of locked_book.old.journal))) (findings (present (take since (edits_of locked_book.old.journal))))) }
    {
        let Changes { came, went } = self.settle_changes(rt, locked_book, since)?;
        let transactions = locked_book.transactions();
        Ok(SettledChanges {
            number: locked_book.len(),
            transactions,
            came,
            went,
        })
    }

    /// Each shard applies what it has left of the journal: what came and what went on the keys of all, in order.
    fn settle_changes<R: Wait>(
        &self,
        rt: &R,
        locked_book: &mut LockedBook<N>,
        since: usize,
    ) -> Result<Changes, ReportFault>
        requires { since ≤ length locked_book.old.journal }
        ensures fault { (j : ℕ) → IfErr result (λ f. f ≡ fault.Spoiled j → j < N.board.shards) }
        ensures locked_book { locked_book.new ≡ locked_book.old }
        ensures came { IfOk result (λ r. r.came.items ≡ not_among (findings (present (take since (edits_of locked_book.old.journal)))) (findings (present (edits_of locked_book.old.journal)))) }
        ensures went { IfOk result (λ r. r.went.items ≡ not_among (findings (present (edits_of locked_book.old.journal))) (findings (present (take since (edits_of locked_book.old.journal))))) }
    {
        let mut changes = Changes::new(self.alloc);
        for k in 0..self.locked_shards.len() {
            self.change_shard(rt, locked_book, k, since, &mut changes)?;
        }
        put_changes_in_order(&mut changes.came);
        put_changes_in_order(&mut changes.went);
        present_is_history();
        accepted_begins();
        let _accepted = locked_book.journal();
        Ok(changes)
    }

    /// The shard applies what it has left of the journal, and what came and what went on its keys is added.
    fn change_shard<R: Wait>(
        &self,
        rt: &R,
        locked_book: &mut LockedBook<N>,
        k: usize,
        since: usize,
        changes: &mut Changes,
    ) -> Result<(), ReportFault>
        requires shard { k < N.board.shards }
        requires since { since ≤ length locked_book.old.journal }
        ensures fault { (j : ℕ) → IfErr result (λ f. f ≡ fault.Spoiled j → j ≡ k) }
        ensures locked_book { locked_book.new ≡ locked_book.old }
        ensures came { OnOk result (changes.new.came.items ≡ changes.old.came.items
            ++ not_among (findings_in (shard_id k N.board.shards) (present (take since (edits_of locked_book.old.journal)))) (findings_in (shard_id k N.board.shards) (present (edits_of locked_book.old.journal)))) }
        ensures went { OnOk result (changes.new.went.items ≡ changes.old.went.items
            ++ not_among (findings_in (shard_id k N.board.shards) (present (edits_of locked_book.old.journal))) (findings_in (shard_id k N.board.shards) (present (take since (edits_of locked_book.old.journal))))) }
    {
        let Some(mut guard) = self.locked_shard(rt, k) else {
            return Err(ReportFault::Spoiled(k));
        };
        let shard = &mut *guard;
        shard.settle(&self.words, locked_book)?;
        shard.add_changes(locked_book, since, changes)
    }

    /// What became of the transactions that are present after the whole journal, which the pass sees. It walks over all of them.
    pub fn statuses<R: Wait>(&self, rt: &R, pass: &mut Pass) -> Result<Statuses, OutOfMemory>
        requires { pass.old.table ≡ N.board.table }
        ensures committed { IfOk result (λ s. s.committed ≡ committed_among (present (edits_of pass.new.view.seen)).txns) }
        ensures in_doubt { IfOk result (λ s. s.in_doubt.items ≡ doubtful_among (present (edits_of pass.new.view.seen)).txns) }
        ensures sees { SeesJournal N.board pass.new.view.seen pass.old pass.new }
    {
        let mut guard = self.locked_book.lock(rt);
        let locked_book = &mut *guard;
        locked_book.show(&self.words, pass);
        locked_book.statuses()
    }

    /// Copies of the transactions that are present after the whole journal, which the pass sees, in the order of arrival. They share the
    /// operations.
    pub fn present<R: Wait>(&self, rt: &R, pass: &mut Pass) -> Result<Vec<Txn>, OutOfMemory>
        requires { pass.old.table ≡ N.board.table }
        ensures txns { IfOk result (λ txns. txns.items ≡ (present (edits_of pass.new.view.seen)).txns) }
        ensures most { IfOk result (λ txns. vec_len txns ≤ length pass.new.view.seen) }
        ensures history { IsHistory (present (edits_of pass.new.view.seen)) }
        ensures sees { SeesJournal N.board pass.new.view.seen pass.old pass.new }
    {
        let mut guard = self.locked_book.lock(rt);
        let locked_book = &mut *guard;
        locked_book.show(&self.words, pass);
        present_is_history();
        locked_book.present()
    }

    /// Each shard applies what it has left of the journal: the findings of all, in order.
    fn settle<R: Wait>(
        &self,
        rt: &R,
        locked_book: &mut LockedBook<N>,
    ) -> Result<Vec<Finding>, ReportFault>
        ensures fault { (j : ℕ) → IfErr result (λ f. f ≡ fault.Spoiled j → j < N.board.shards) }
        ensures locked_book { locked_book.new ≡ locked_book.old }
        ensures found { IfOk result (λ found. found.items ≡ findings (present (edits_of locked_book.old.journal))) }
        ensures empty { IfOk result (λ found. (found.items ≡ []) ↔ (IsWellFormed (present (edits_of locked_book.old.journal)) × IsPlSi (present (edits_of locked_book.old.journal)))) }
        ensures snapshot { IfOk result (λ found. (found.items ≡ []) ↔ IsSnapshot (present (edits_of locked_book.old.journal))) }
    {
        let mut found = Vec::new(self.alloc);
        for k in 0..self.locked_shards.len() {
            self.settle_shard(rt, locked_book, k, &mut found)?;
        }
        put_all_in_order(&mut found);
        present_is_history();
        emptiness_is_exact();
        snapshots_are_clean();
        let _accepted = locked_book.journal();
        Ok(found)
    }

    /// The shard applies what it has left of the journal, and its findings are added.
    fn settle_shard<R: Wait>(
        &self,
        rt: &R,
        locked_book: &mut LockedBook<N>,
        k: usize,
        found: &mut Vec<Finding>,
    ) -> Result<(), ReportFault>
        requires { k < N.board.shards }
        ensures fault { (j : ℕ) → IfErr result (λ f. f ≡ fault.Spoiled j → j ≡ k) }
        ensures locked_book { locked_book.new ≡ locked_book.old }
        ensures found { OnOk result (found.new.items ≡ found.old.items ++ findings_in (shard_id k N.board.shards) (present (edits_of locked_book.old.journal))) }
    {
        let Some(mut guard) = self.locked_shard(rt, k) else {
            return Err(ReportFault::Spoiled(k));
        };
        let locked_shard = &mut *guard;
        locked_shard.settle(&self.words, locked_book)?;
        locked_shard.add_findings(found)
    }

    /// The findings on the shard's keys after the edits that it has applied, which the pass then knows it has, and sees.
    ///
    /// After a fault the pass is as before.
    pub fn shard_report<R: Wait>(
        &self,
        rt: &R,
        pass: &mut Pass,
        k: usize,
    ) -> Result<ShardReport, ReportFault>
        requires own { pass.old.table ≡ N.board.table }
        requires shard { k < N.board.shards }
        ensures fault { (j : ℕ) → IfErr result (λ f. f ≡ fault.Spoiled j → j ≡ k) }
        ensures position { IfOk result (λ r. slice_index pass.new.view.marks k ≡ r.position) }
        ensures rises { IfOk result (λ r. slice_index pass.old.view.marks k ≤ r.position) }
        ensures within { IfOk result (λ r. r.position ≤ length pass.new.view.seen) }
        ensures accepted { IfOk result (λ r. IsAccepted (take r.position (edits_of pass.new.view.seen))) }
        ensures found { IfOk result (λ r. r.findings.items ≡ findings_in (shard_id k N.board.shards) (present (take r.position (edits_of pass.new.view.seen)))) }
        ensures begins { OnOk result (IsBeginning pass.old.view.seen pass.new.view.seen) }
        ensures learned { IfOk result (λ r. pass.new ≡ record pass.old { view = learning pass.new.view.seen k r.position pass.old.view }) }
        ensures err { OnErr result (pass.new ≡ pass.old) }
    {
        let Some(mut guard) = self.locked_shard(rt, k) else {
            return Err(ReportFault::Spoiled(k));
        };
        let locked_shard = &mut *guard;
        locked_shard.report(&self.words, pass)
    }

    /// Makes all that the shard knows anew from the edits that it has applied, and so ends a spoiled state.
    ///
    /// If memory is refused, everything stays as it was.
    pub fn rebuild<R: Wait>(&self, rt: &R, k: usize) -> Result<(), OutOfMemory>
        requires { k < N.board.shards }
    {
        let mut book = self.locked_book.lock(rt);
        let locked_book = &mut *book;
        let Some(mut guard) = self.locked_shard(rt, k) else {
            return Err(AllocError);
        };
        let locked_shard = &mut *guard;
        locked_shard.rebuild(&self.words, locked_book, k)
    }

    /// Tells workers that they may end once nothing is left. Edits that are submitted later are still accepted, and a settled
    /// report applies them. The pass stays as it is.
    pub fn close<R: Wait>(&self, rt: &R, pass: &mut Pass)
        requires { pass.old.table ≡ N.board.table }
        ensures { pass.new ≡ pass.old }
    {
        let _caller = pass;
        self.locked_book.lock(rt).close(&self.words);
        self.idle.store(1, Ordering::SeqCst);
        self.idle.wake_all();
    }

    /// The shard of this number, locked.
    pub(crate) fn locked_shard<R: Wait>(
        &self,
        rt: &R,
        k: usize,
    ) -> Option<MutexGuard<'_, LockedShard<N>>>
        requires { k < N.board.shards }
        ensures { IfSome result (λ g. (mutex_guard_value g).seat.number ≡ k) }
    {
        let guard = self.locked_shards[k].lock(rt);
        if guard.number() == k {
            Some(guard)
        } else {
            None
        }
    }

    /// How many edits were issued. It takes no lock and waits for nobody.
    pub fn issued(&self, pass: &mut Pass) -> u64
        requires { pass.old.table ≡ N.board.table }
        ensures view { pass.new ≡ record pass.old { view = with_count result pass.old.view } }
        ensures rises { pass.old.view.count ≤ result }
        ensures seen { length pass.old.view.seen ≤ pass.old.view.count }
        ensures within { result ≤ MOST_EDITS }
    {
        self.words.issued(pass)
    }

    /// How many edits the shard has applied. It takes no lock and waits for nobody.
    pub fn shard_mark(&self, pass: &mut Pass, k: usize) -> u64
        requires own { pass.old.table ≡ N.board.table }
        requires shard { k < N.board.shards }
        ensures view { pass.new ≡ record pass.old { view = with_mark k result pass.old.view } }
        ensures mark { slice_index pass.new.view.marks k ≡ result }
        ensures rises { slice_index pass.old.view.marks k ≤ result }
        ensures within { result ≤ MOST_EDITS }
    {
        self.words.shard_mark(pass, k)
    }

    /// The least mark, after a look at each shard: every shard has applied at least so many edits. It takes no lock and waits for
    /// nobody.
    pub fn watermark(&self, pass: &mut Pass) -> u64
        requires { pass.old.table ≡ N.board.table }
        ensures view { pass.new ≡ record pass.old { view = with_marks pass.new.view.marks pass.old.view } }
        ensures rises { (k : ℕ) → k < N.board.shards → slice_index pass.old.view.marks k ≤ slice_index pass.new.view.marks k }
        ensures least { (k : ℕ) → k < N.board.shards → result ≤ slice_index pass.new.view.marks k }
        ensures mark { (k : ℕ) × (k < N.board.shards) × (slice_index pass.new.view.marks k ≡ result) }
        ensures within { result ≤ MOST_EDITS }
    {
        self.words.watermark(pass)
    }

    /// Whether the checker is closed. Once a pass has found it closed it finds it so. It takes no lock and waits for nobody.
    pub fn is_closed(&self, pass: &mut Pass) -> bool
        requires { pass.old.table ≡ N.board.table }
        ensures view { pass.new ≡ record pass.old { view = pass_closed result pass.old.view } }
        ensures stays { pass.old.view.closed ≡ true → result ≡ true }
    {
        self.words.is_closed(pass)
    }
}

/// A shard under a lock for each seat, in the order of the seats.
fn locked_shards_of<N: Name>(
    alloc: Global,
    hash: RandomState,
    seats: Vec<ShardSeat>,
) -> Result<Vec<Mutex<LockedShard<N>>>, OutOfMemory>
    requires seats { seats.items ≡ new_shards N.board.table N.board.shards }
    requires most { N.board.shards ≤ MOST_SHARDS }
    ensures { IfOk result (λ locked_shards. length locked_shards.items ≡ N.board.shards) }
{
    let shards = seats.len();
    let mut locked_shards = Vec::new(alloc);
    for seat in seats {
        locked_shards.push(Mutex::new(LockedShard::new(alloc, hash, shards, seat)))?;
    }
    Ok(locked_shards)
}
