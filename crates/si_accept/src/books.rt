//! The book: the journal of accepted edits with its limit, over what is present. What decides an edit stands here; how it is found who
//! holds what, in `contents.rt` and the indexes below it.

ghost use Rattle.std.specs.Prelude.{◌≡◌, ℕ, ◌≤◌, ◌<◌, [], ◌∷◌, ◌++◌, length, max, take, slice_get, None, Some, IfOk, OnOk, IfErr, OnErr, IfNone, IsTrue, ◌↔◌};
ghost use Rattle.std.specs.Option.{option_copied};
ghost use Rattle.si_model.specs.Edits.{IsAcceptable, with_id, after};
ghost use Rattle.si_model.specs.History.{IsHistory};
ghost use Rattle.si_model.specs.Journals.{present, IsAccepted, refusal_after};
ghost use Rattle.si_model.specs.declared.edits.Edit.{Edit as AnEdit};
ghost use Rattle.si_accept.specs.Faults.{IsFaultOf};
ghost use Rattle.si_accept.specs.Notes.{AreNotes, IsNoted, noted_at, txn_before};
ghost use Rattle.si_accept.specs.Statuses.{committed_among, doubtful_among};

use crate::AcceptFault;
use crate::contents::Contents;
use crate::notes::Notes;
use si_model::laws::{accepted_grows, present_grows, present_is_history};
use si_model::{
    Edit, Holders, Key, MOST_EDITS, Number, Op, OutOfMemory, Refusal, Stamp, Txn, TxnId, Value,
};
use std::alloc::Global;
use std::hash::RandomState;
use std::marker::Model;

/// The journal of accepted edits, and what is present after them.
///
/// Contracts see the limit and the journal. What is present follows from the journal.
#[derive(Drop)]
pub struct Book {
    // How many edits the journal may have.
    limit: usize,
    // The journal, and what is present after it.
    contents: Contents,
    notes: Notes,
}

impl Model for Book {
    ghost use Rattle.si_accept.specs.Books.{BookState, IsBook};

    ghost Value = { BookState };

    ghost view = { λ b. record { limit = b.limit; journal = b.contents.journal; noted = b.notes.from } };

    ghost invariant = { λ b. IsBook b.limit b.contents.journal b.contents.present b.notes };
}

impl Holders for Book {
    ghost use Rattle.si_accept.specs.Books.{BookState};
    ghost use Rattle.si_model.specs.Journals.{present};

    ghost present = { λ (b : BookState). present b.journal };

    fn with_id(&self, id: TxnId) -> Option<&Txn> {
        self.contents.with_id(id)
    }

    fn least_that_installs_at(&self, stamp: Stamp) -> Option<TxnId> {
        self.contents.least_that_installs_at(stamp)
    }

    fn least_with_stamp(&self, stamp: Stamp) -> Option<TxnId> {
        self.contents.least_with_stamp(stamp)
    }

    fn writer(&self, key: &Key, value: Value) -> Option<TxnId> {
        self.contents.writer(key, value)
    }

    fn set_up_value(&self, key: &Key) -> Option<Value> {
        self.contents.set_up_value(key)
    }

    fn twice_refusal(&self, ops: &[Op]) -> Option<Refusal> {
        self.contents.twice_refusal(ops)
    }
}

impl Book {
    /// A book with an empty journal, which may have so many edits. It takes no memory yet.
    ///
    /// Its maps of ids, keys and values hash with this secret key, so that no log can be made to collide in them.
    pub fn new(alloc: Global, hash: RandomState, limit: usize) -> Self
        requires some { 1 ≤ limit }
        requires most { limit ≤ MOST_EDITS }
        ensures { result ≡ record { limit = limit; journal = []; noted = 0 } }
    {
        Book {
            limit,
            contents: Contents::new(alloc, hash),
            notes: Notes::new(alloc, hash),
        }
    }

    /// Accepts the edit, or tells the first reason against it. The answer is its number in the journal, from 1.
    ///
    /// After a fault the book is as before.
    pub fn accept(&mut self, edit: Edit) -> Result<Number, AcceptFault>
        ensures acceptable { OnOk result (refusal_after self.old.limit self.old.journal edit ≡ None) }
        ensures fault { IfErr result (IsFaultOf (refusal_after self.old.limit self.old.journal edit)) }

        ensures ok { OnOk result (self.new ≡ record self.old { journal = self.old.journal ++ edit ∷ [] }) }
        ensures number { IfOk result (λ number. number.0 ≡ length self.new.journal) }
        ensures room { OnOk result (length self.old.journal < self.old.limit) }
        ensures accepted { OnOk result (IsAccepted self.new.journal) }
        ensures present { OnOk result (present self.new.journal ≡ after edit (present self.old.journal)) }

        ensures err { OnErr result (self.new ≡ self.old) }
    {
        if let Some(refusal) = self.refusal(&edit) {
            return Err(AcceptFault::Refused(refusal));
        }
        Ok(self.add(edit)?)
    }

    /// Adds an acceptable edit, for which there is room, to the journal. After refused memory the book is as before.
    fn add(&mut self, edit: Edit) -> Result<Number, OutOfMemory>
        requires room { length self.old.journal < self.old.limit }
        requires acceptable { IsAcceptable (present self.old.journal) edit }
        ensures ok { OnOk result (self.new ≡ record self.old { journal = self.old.journal ++ edit ∷ [] }) }
        ensures number { IfOk result (λ number. number.0 ≡ length self.new.journal) }
        ensures accepted { OnOk result (IsAccepted self.new.journal) }
        ensures present { OnOk result (present self.new.journal ≡ after edit (present self.old.journal)) }
        ensures err { OnErr result (self.new ≡ self.old) }
    {
        note(&mut self.notes, &self.contents, &edit)?;
        self.contents.apply(edit)?;
        present_grows();
        accepted_grows();
        Ok(Number(self.contents.journal().len() as u64))
    }

    /// The first reason against the edit, if there is one.
    #[tactic(auto, unfolding(si_model::specs::Journals::refusal_after))]
    fn refusal(&self, edit: &Edit) -> Option<Refusal>
        ensures first { result ≡ refusal_after self.now.limit self.now.journal edit.now }
        ensures room { IfNone result (length self.now.journal < self.now.limit) }
        ensures acceptable { IfNone result (IsAcceptable (present self.now.journal) edit.now) }
    {
        if self.limit <= self.journal().len() {
            return Some(Refusal::Full);
        }
        self.contents.refusal(edit)
    }

    /// Copies of the present transactions, in the order of arrival, which share the operations. It walks over the journal.
    pub fn present(&self) -> Result<Vec<Txn>, OutOfMemory>
        ensures txns { IfOk result (λ txns. txns.items ≡ (present self.now.journal).txns) }
        ensures history { IsHistory (present self.now.journal) }
    {
        present_is_history();
        self.contents.txns()
    }

    /// Copies of the keys that were set up with their values, in the order of arrival.
    pub fn initial(&self) -> Result<Vec<(Key, Value)>, OutOfMemory>
        ensures { IfOk result (λ initial. initial.items ≡ (present self.now.journal).initial) }
    {
        self.contents.initial()
    }

    /// The present transaction with that id.
    pub fn get(&self, id: TxnId) -> Option<&Txn>
        ensures { option_copied result ≡ with_id (present self.now.journal).txns id }
    {
        self.contents.get(id)
    }

    /// The accepted edits, in the order of their numbers.
    pub fn journal(&self) -> &[Edit]
        ensures journal { result.now ≡ self.now.journal }
        ensures accepted { IsAccepted self.now.journal }
        ensures within { length self.now.journal ≤ self.now.limit }
    {
        self.contents.journal()
    }

    /// The transaction that the edit at this place of the journal resolves or withdraws, as it was before that edit.
    ///
    /// It is known from a place on that [`Book::forget`] moves.
    pub fn before(&self, place: usize) -> Option<&Txn>
        requires noted { self.now.noted ≤ place }
        requires within { place < length self.now.journal }
        ensures { (e : AnEdit) → slice_get self.now.journal place ≡ Some e → option_copied result ≡ txn_before (present (take place self.now.journal)) e }
    {
        match &self.contents.journal()[place] {
            Edit::Arrive(_) | Edit::SetUp(..) => None,
            Edit::Resolve(..) | Edit::Withdraw(_) => self.notes.get(place),
        }
    }

    /// From which place of the journal on [`Book::before`] can be asked.
    pub fn noted(&self) -> usize
        ensures noted { result ≡ self.now.noted }
        ensures within { result ≤ length self.now.journal }
    {
        self.notes.from
    }

    /// Nobody asks [`Book::before`] for a place before the first one any more: so what is kept for them may go.
    pub fn forget(&mut self, first: usize)
        ensures others { self.new ≡ record self.old { noted = self.new.noted } }
        ensures onward { self.old.noted ≤ self.new.noted }
        ensures kept { self.new.noted ≤ max self.old.noted first }
    {
        self.notes.forget(first, self.contents.journal().len());
    }

    /// How many transactions are present.
    pub fn len(&self) -> usize
        ensures { result ≡ length (present self.now.journal).txns }
    {
        self.contents.len()
    }

    /// Whether no transaction is present.
    pub fn is_empty(&self) -> bool
        ensures { IsTrue result ↔ ((present self.now.journal).txns ≡ []) }
    {
        self.len() == 0
    }

    /// How many committed transactions are present. It walks over the journal.
    pub fn committed(&self) -> usize
        ensures { result ≡ committed_among (present self.now.journal).txns }
    {
        self.contents.committed()
    }

    /// The ids of the present transactions that are in doubt, in the order of arrival. It walks over the journal.
    pub fn doubtful(&self) -> Result<Vec<TxnId>, OutOfMemory>
        ensures { IfOk result (λ ids. ids.items ≡ doubtful_among (present self.now.journal).txns) }
    {
        self.contents.doubtful()
    }

    /// How many edits the journal may have.
    pub fn limit(&self) -> usize
        ensures limit { result ≡ self.now.limit }
        ensures some { 1 ≤ result }
        ensures most { result ≤ MOST_EDITS }
    {
        self.limit
    }
}

/// Notes the transaction that the edit, which is accepted next, resolves or withdraws.
#[tactic(auto, unfolding(si_model::specs::Edits::refusal_on))]
fn note(notes: &mut Notes, contents: &Contents, edit: &Edit) -> Result<(), OutOfMemory>
    requires notes { AreNotes contents.now.journal notes.old }
    requires acceptable { IsAcceptable contents.now.present edit.now }
    ensures from { notes.new.from ≡ notes.old.from }
    ensures notes { AreNotes contents.now.journal notes.new }
    ensures next { OnOk result (IsNoted contents.now.present edit.now (noted_at notes.new (length contents.now.journal))) }
{
    match edit {
        Edit::Resolve(id, _) | Edit::Withdraw(id) => match contents.get(*id) {
            Some(txn) => notes.add(contents.journal().len(), txn.try_clone()?),
            None => Ok(()),
        },
        Edit::Arrive(_) | Edit::SetUp(..) => Ok(()),
    }
}
