//! What the edits of a journal made of the keys of one shard.

ghost use Rattle.std.specs.Prelude.{◌≡◌, ◌+◌, ◌<◌, ◌≤◌, ℕ, List, [], ◌∷◌, ◌++◌, OnOk, IfOk, IsTrue, None, Some, length, take};
ghost use Rattle.std.specs.HashMap.{get};
ghost use Rattle.std.specs.Option.{option_copied};
ghost use Rattle.std.specs.Prelude.{nat_eq};
ghost use Rattle.si_model.specs.declared.edits.Edit.{Edit as AnEdit};
ghost use Rattle.si_model.specs.Journals.{IsAccepted, present};
ghost use Rattle.si_model.specs.declared.findings.Finding.{Finding as Found};
ghost use Rattle.si_shard.specs.AppliedEdits.{AreApplied, AreSettled, IsNext, found_after, found_first, known, txn_told, whole_txn};
ghost use Rattle.si_shard.specs.KeyNotes.{AreBegun, IsChangedTo, not_among, times_in};
ghost use Rattle.si_shard.specs.PresentTxns.{AreById};
ghost use Rattle.si_shard.specs.Shards.{findings_in};
ghost use Rattle.si_shard.specs.ToldEdits.{AreTold};

use crate::aheads::{Ahead, MOST_AHEAD};
use crate::key_changes::{KnownTxn, TxnHead};
use crate::key_notes::Changes;
use crate::key_states::KeyStates;
use crate::merging::keep_apart;
use crate::present_txns::PresentTxns;
use crate::shard_ids::ShardId;
use crate::single_edits::make_each;
use crate::told_edits::ToldEdit;
use si_accept::Book;
use si_model::{Edit, Finding, Op, OutOfMemory, Txn};
use std::alloc::Global;
use std::hash::RandomState;

/// Of so many edits at a time what is kept of their keys is read ahead.
const MOST_TOGETHER: usize = 64;

/// What is kept of a shard's keys after some edits.
#[derive(Drop)]
pub struct Applied {
    alloc: Global,
    keys: KeyStates,
    ahead: Ahead,
    // After how many edits what comes and goes was noted first, or taken last, if it is noted.
    noted: Option<usize>,
}

impl Applied {
    /// Before any edit.
    pub fn new(alloc: Global, hash: RandomState) -> Self
        ensures { (id : ShardId) → AreSettled id [] result }
    {
        Applied {
            alloc,
            keys: KeyStates::new(alloc, hash),
            ahead: Ahead::new(alloc),
            noted: None,
        }
    }

    /// Applies the edit, which comes after those that are applied. This is the transaction that it resolves or withdraws, as it was before.
    pub fn apply(
        &mut self,
        edit: &Edit,
        before: Option<&Txn>,
        id: ShardId,
    ) -> Result<(), OutOfMemory>
        requires shards { 0 < id.shards }
        requires next { (J : List AnEdit) × AreApplied id J self.old × IsNext J edit.now (option_copied before) }
        ensures { OnOk result ((J : List AnEdit) → AreApplied id J self.old → IsNext J edit.now (option_copied before.entry) → AreApplied id (J ++ edit.now ∷ []) self.new) }
    {
        let txn = txn_of(edit, before);
        make_each(self.alloc, &mut self.keys, &mut self.ahead, txn, edit, id)
    }

    /// Applies the edits, which come after those that are applied, until memory is refused to one of them. Answers how many it came
    /// through.
    pub fn apply_told(&mut self, edits: &[ToldEdit], id: ShardId) -> usize
        requires shards { 0 < id.shards }
        requires told { (J : List AnEdit) × (p : ℕ) × IsAccepted J × AreTold J p edits.now × AreApplied id (take p J) self.old }
        ensures within { result ≤ length edits.now }
        ensures whole { result ≡ length edits.now → (J : List AnEdit) (p : ℕ) → IsAccepted J → AreTold J p edits.now → AreApplied id (take p J) self.old → AreApplied id (take (p + length edits.now) J) self.new }
    {
        for place in 0..edits.len() {
            self.look_ahead(edits, place, id);
            let told = &edits[place];
            let Ok(()) = self.apply(&told.edit, told.before.as_ref(), id) else {
                return place;
            };
        }
        edits.len()
    }

    /// As [`Applied::apply_told`], and judges the reads that are marked then. Where memory is refused for that, it came through less.
    pub fn apply_and_settle(&mut self, edits: &[ToldEdit], id: ShardId) -> usize
        requires shards { 0 < id.shards }
        requires some { 0 < length edits.now }
        requires told { (J : List AnEdit) × (p : ℕ) × IsAccepted J × AreTold J p edits.now × AreApplied id (take p J) self.old }
        ensures within { result ≤ length edits.now }
        ensures whole { result ≡ length edits.now → (J : List AnEdit) (p : ℕ) → IsAccepted J → AreTold J p edits.now → AreApplied id (take p J) self.old → AreSettled id (take (p + length edits.now) J) self.new }
    {
        let count = self.apply_told(edits, id);
        if count < edits.len() {
            return count;
        }
        match self.settle() {
            Ok(()) => edits.len(),
            Err(_) => edits.len() - 1,
        }
    }

    /// Judges the reads that are marked. Where memory is refused nothing is known of the keys.
    pub fn settle(&mut self) -> Result<(), OutOfMemory>
        ensures { OnOk result ((id : ShardId) (J : List AnEdit) → AreApplied id J self.old → AreSettled id J self.new) }
    {
        self.keys.settle()
    }

    /// Applies the edits of the book's journal from one place to another, where those before are applied.
    pub fn apply_between(
        &mut self,
        book: &Book,
        from: usize,
        end: usize,
        id: ShardId,
    ) -> Result<(), OutOfMemory>
        requires shards { 0 < id.shards }
        requires noted { book.now.noted ≤ from }
        requires onward { from ≤ end }
        requires within { end ≤ length book.now.journal }
        requires applied { AreApplied id (take from book.now.journal) self.old }
        ensures { OnOk result (AreApplied id (take end book.now.journal) self.new) }
    {
        let journal = book.journal();
        for place in from..end {
            self.look_ahead_in(book, from, place, end, id);
            self.apply(&journal[place], book.before(place), id)?;
        }
        Ok(())
    }

    /// Reads ahead what is kept of the keys of so many edits at a place, before the first of them is applied. One alone is read when it is
    /// applied.
    fn look_ahead(&mut self, edits: &[ToldEdit], place: usize, id: ShardId)
        requires shards { 0 < id.shards }
        requires within { place ≤ length edits.now }
        ensures { self.new ≡ record self.old { ahead = self.new.ahead } }
    {
        let next = (edits.len() - place).min(MOST_TOGETHER);
        if next < 2 || place % MOST_TOGETHER != 0 {
            return;
        }
        for told in &edits[place..place + next] {
            self.expect(&told.edit, told.before.as_ref(), id);
        }
        self.ahead.look(&self.keys);
    }

    /// As [`Applied::look_ahead`], of the edits of a journal from one place to another.
    fn look_ahead_in(&mut self, book: &Book, from: usize, place: usize, end: usize, id: ShardId)
        requires shards { 0 < id.shards }
        requires noted { book.now.noted ≤ from }
        requires onward { from ≤ place }
        requires before_end { place ≤ end }
        requires within { end ≤ length book.now.journal }
        ensures { self.new ≡ record self.old { ahead = self.new.ahead } }
    {
        let next = (end - place).min(MOST_TOGETHER);
        if next < 2 || (place - from) % MOST_TOGETHER != 0 {
            return;
        }
        for there in place..place + next {
            self.expect(&book.journal()[there], book.before(there), id);
        }
        self.ahead.look(&self.keys);
    }

    /// The keys of the edit's transaction that are the shard's will be looked at, if there aren't too many operations. A transaction of many
    /// reads its own keys ahead.
    fn expect(&mut self, edit: &Edit, before: Option<&Txn>, id: ShardId)
        requires { 0 < id.shards }
        ensures { self.new ≡ record self.old { ahead = self.new.ahead } }
    {
        if let Some(txn) = txn_of(edit, before) {
            self.expect_keys(txn.ops, id);
        }
    }

    fn expect_keys(&mut self, ops: &[Op], id: ShardId)
        requires { 0 < id.shards }
        ensures { self.new ≡ record self.old { ahead = self.new.ahead } }
    {
        if ops.len() > MOST_AHEAD {
            return;
        }
        for op in ops {
            if id.has(op.key()) {
                self.ahead.add(&self.keys, op.key());
            }
        }
    }

    /// The findings on the shard's keys, in order, where no reads are marked.
    pub fn findings(&self) -> Result<Vec<Finding>, OutOfMemory>
        requires { (id : ShardId) × (edits : List AnEdit) × IsAccepted edits × AreSettled id edits self.now }
        ensures { IfOk result (λ found. (id : ShardId) (edits : List AnEdit) → IsAccepted edits → AreSettled id edits self.now
            → found.items ≡ findings_in id (present edits)) }
    {
        let found = self.keys.findings()?;
        Ok(found)
    }
}

impl Applied {
    /// What is found after these edits, which are applied, and wasn't after so many first of them, and what was and isn't. It costs what
    /// changed where this was asked last after those, and else as much as applying them.
    pub fn changes_since(
        &mut self,
        hash: RandomState,
        edits: &[Edit],
        since: usize,
        id: ShardId,
    ) -> Result<Changes, OutOfMemory>
        requires shards { 0 < id.shards }
        requires accepted { IsAccepted edits.now }
        requires within { since ≤ length edits.now }
        requires settled { AreSettled id edits.now self.old }
        ensures settled { AreSettled id edits.now self.new }
        ensures came { IfOk result (λ c. c.came.items ≡ not_among (found_first id edits.now since) (found_after id edits.now)) }
        ensures went { IfOk result (λ c. c.went.items ≡ not_among (found_after id edits.now) (found_first id edits.now since)) }
    {
        let mut changes = self.noted_since(hash, edits, since, id)?;
        keep_apart(self.alloc, &mut changes)?;
        self.noted = Some(edits.len());
        Ok(changes)
    }

    /// What came and what went since so many first of the edits, in no order. What comes and goes is noted from now on.
    fn noted_since(
        &mut self,
        hash: RandomState,
        edits: &[Edit],
        since: usize,
        id: ShardId,
    ) -> Result<Changes, OutOfMemory>
        requires shards { 0 < id.shards }
        requires accepted { IsAccepted edits.now }
        requires within { since ≤ length edits.now }
        requires settled { AreSettled id edits.now self.old }
        ensures settled { AreSettled id edits.now self.new }
        ensures none { self.new.noted ≡ None }
        ensures begun { OnOk result (AreBegun self.new.keys.notes) }
        ensures changed { IfOk result (λ c. (f : Found) → IsChangedTo c f (times_in f (found_first id edits.now since)) (times_in f (found_after id edits.now))) }
    {
        let is_noted = is_since(self.noted, since);
        self.noted = None;
        if is_noted {
            return Ok(self.keys.take_notes());
        }
        self.compare(hash, edits, since, id)
    }

    /// All that is found, and all that was after so many first of the edits.
    fn compare(
        &mut self,
        hash: RandomState,
        edits: &[Edit],
        since: usize,
        id: ShardId,
    ) -> Result<Changes, OutOfMemory>
        requires shards { 0 < id.shards }
        requires accepted { IsAccepted edits.now }
        requires within { since ≤ length edits.now }
        requires settled { AreSettled id edits.now self.old }
        ensures others { self.new ≡ record self.old { keys = record self.old.keys { notes = self.new.keys.notes } } }
        ensures begun { OnOk result (AreBegun self.new.keys.notes) }
        ensures came { IfOk result (λ c. c.came.items ≡ found_after id edits.now) }
        ensures went { IfOk result (λ c. c.went.items ≡ found_first id edits.now since) }
    {
        let (before, _present) = applied_anew(self.alloc, hash, &edits[..since], id)?;
        let went = before.findings()?;
        let came = self.findings()?;
        self.keys.begin_notes()?;
        Ok(Changes { came, went })
    }
}

/// Whether what comes and goes is noted since so many edits.
fn is_since(noted: Option<usize>, since: usize) -> bool
    ensures { IsTrue result → noted ≡ Some since }
{
    match noted {
        Some(at) => at == since,
        None => false,
    }
}

/// What these edits make of the shard, from nothing, and the transactions that are present after them.
pub fn applied_anew(
    alloc: Global,
    hash: RandomState,
    edits: &[Edit],
    id: ShardId,
) -> Result<(Applied, PresentTxns), OutOfMemory>
    requires shards { 0 < id.shards }
    requires accepted { IsAccepted edits.now }
    ensures applied { IfOk result (λ r. AreSettled id edits.now r.0) }
    ensures present { IfOk result (λ r. AreById edits.now (get nat_eq r.1.by_id)) }
{
    let mut applied = Applied::new(alloc, hash);
    let mut present = PresentTxns::new(alloc, hash);
    for place in 0..edits.len() {
        let edit = &edits[place];
        let before = present.enter(edit)?;
        applied.apply(edit, before.as_ref(), id)?;
    }
    applied.settle()?;
    Ok((applied, present))
}

/// The edit's transaction before the edit: one that arrives as it arrives, and a set-up has none.
fn txn_of<'a>(edit: &'a Edit, before: Option<&'a Txn>) -> Option<KnownTxn<'a>>
    ensures { known result ≡ txn_told edit.now (option_copied before.entry) }
{
    match edit {
        Edit::Arrive(txn) => Some(known_txn(txn)),
        Edit::Resolve(..) | Edit::Withdraw(_) => match before {
            Some(txn) => Some(known_txn(txn)),
            None => None,
        },
        Edit::SetUp(..) => None,
    }
}

fn known_txn(txn: &Txn) -> KnownTxn<'_>
    ensures head { result.head ≡ (whole_txn txn.now).0 }
    ensures ops { result.ops.now ≡ txn.now.ops }
{
    KnownTxn {
        head: TxnHead {
            id: txn.id,
            start: txn.start,
            status: txn.status,
        },
        ops: txn.ops.as_slice(),
    }
}
