//! A shard that applies a journal which others keep. What one edit is on the keys stands in `applied_edits.rt`.

ghost use Rattle.std.specs.Prelude.{◌≡◌, ◌↔◌, ◌+◌, ◌^◌, ◌<◌, ◌≤◌, true, false, List, ◌++◌, [], length, nat_eq, take, Err, IfOk, OnOk, OnErr};
ghost use Rattle.si_model.specs.declared.edits.Edit.{Edit as AnEdit};
ghost use Rattle.si_model.specs.Journals.{IsAccepted, present};
ghost use Rattle.si_judge.specs.declared.states.KeyFault.TheVariants as fault;
ghost use Rattle.si_shard.specs.AppliedEdits.{AreSettled};
ghost use Rattle.si_shard.specs.KeyNotes.{not_among};
ghost use Rattle.si_shard.specs.JournalShards.{AppliesFirst, Follows, state_of};
ghost use Rattle.std.specs.HashMap.{get};
ghost use Rattle.si_shard.specs.PresentTxns.{AreById};
ghost use Rattle.si_shard.specs.Shards.{findings_in};
ghost use Rattle.si_shard.specs.ToldEdits.{AreTold};

use crate::applied_edits::{Applied, applied_anew};
use crate::key_notes::Changes;
use crate::present_txns::PresentTxns;
use crate::shard_ids::ShardId;
use crate::shards::MOST_SHARDS;
use crate::told_edits::ToldEdit;
use si_accept::Book;
use si_judge::KeyFault;
use si_model::{Edit, Finding, OutOfMemory};
use std::alloc::Global;
use std::hash::RandomState;

/// One shard: how many first edits of a journal it has applied, and the findings on its keys. It keeps no edit.
///
/// Contracts say what is so of whatever journal it may follow.
#[derive(Drop)]
pub struct JournalShard {
    alloc: Global,
    hash: RandomState,
    id: ShardId,
    // What the applied edits made of the shard's keys, unless it is spoiled.
    applied: Applied,
    // How many edits are applied.
    position: usize,
    // True from the beginning of an edit until it is whole, and so until a rebuild once memory was refused to an edit.
    spoiled: bool,
}

impl JournalShard {
    /// The shard of this number, from 0, among so many. It has applied no edit.
    ///
    /// Its maps of ids and keys hash with this secret key, so that no log can be made to collide in them.
    pub fn new(alloc: Global, hash: RandomState, shard: usize, shards: usize) -> Self
        requires within { shard < shards }
        requires most { shards ≤ MOST_SHARDS }
        ensures state { state_of result ≡ record { id = record { shard = shard; shards = shards }; position = 0; spoiled = false } }
        ensures follows { (J : List AnEdit) → Follows J result }
    {
        JournalShard {
            alloc,
            hash,
            id: ShardId { shard, shards },
            applied: Applied::new(alloc, hash),
            position: 0,
            spoiled: false,
        }
    }

    /// Applies the next edits of the journal, and mends the findings on the shard's keys. Where memory is refused some first of them stand,
    /// or none, and the shard is spoiled. One that was spoiled before applies none.
    pub fn apply_first(&mut self, edits: &[ToldEdit])
        requires fits { self.old.position + length edits.now < 2 ^ 64 }
        requires follows { (J : List AnEdit) × IsAccepted J × Follows J self.old × AreTold J self.old.position edits.now }
        ensures follows { (J : List AnEdit) → IsAccepted J → Follows J self.old → AreTold J self.old.position edits.now → Follows J self.new }
        ensures first { AppliesFirst (length edits.now) (state_of self.old) (state_of self.new) }
    {
        if self.spoiled || edits.is_empty() {
            return;
        }
        self.spoiled = true;
        let applied = self.applied.apply_and_settle(edits, self.id);
        self.position += applied;
        self.spoiled = applied < edits.len();
    }

    /// Applies the edits of the book's journal up to that place, and mends the findings on the shard's keys.
    ///
    /// It answers [`KeyFault::Spoiled`] where memory was refused to an earlier edit and no rebuild came since; nothing changes then.
    /// [`KeyFault::OutOfMemory`] leaves the position, and the shard is spoiled from then on.
    pub fn apply_to(&mut self, book: &Book, end: usize) -> Result<(), KeyFault>
        requires follows { Follows book.now.journal self.old }
        requires onward { self.old.position ≤ end }
        requires within { end ≤ length book.now.journal }
        ensures follows { Follows book.now.journal self.new }
        ensures ok { OnOk result (state_of self.new ≡ record (state_of self.old) { position = end }) }
        ensures spoiled { (result ≡ Err fault.Spoiled) ↔ (self.old.spoiled ≡ true) }
        ensures wanting { OnErr result (state_of self.new ≡ record (state_of self.old) { spoiled = true }) }
    {
        if self.spoiled {
            return Err(KeyFault::Spoiled);
        }
        self.spoiled = true;
        self.advance(book, end)?;
        self.position = end;
        self.spoiled = false;
        Ok(())
    }

    /// Applies the edits up to that place, from nothing where the book doesn't know any more what those were about.
    fn advance(&mut self, book: &Book, end: usize) -> Result<(), OutOfMemory>
        requires shards { 0 < self.old.id.shards }
        requires applied { AreSettled self.old.id (take self.old.position book.now.journal) self.old.applied }
        requires onward { self.old.position ≤ end }
        requires within { end ≤ length book.now.journal }
        ensures others { self.new ≡ record self.old { applied = self.new.applied } }
        ensures ok { OnOk result (AreSettled self.old.id (take end book.now.journal) self.new.applied) }
    {
        if book.noted() <= self.position {
            self.applied
                .apply_between(book, self.position, end, self.id)?;
            return self.applied.settle();
        }
        let (anew, _present) = applied_anew(
            self.alloc,
            self.hash,
            &book.journal()[..end],
            self.id,
        )?;
        self.applied = anew;
        Ok(())
    }

    /// Applies what the book's journal has left, as [`JournalShard::apply_to`] does. Where none is left nothing happens.
    pub fn catch_up(&mut self, book: &Book) -> Result<(), KeyFault>
        requires { Follows book.now.journal self.old }
        ensures follows { Follows book.now.journal self.new }
        ensures ok { OnOk result (state_of self.new ≡ record (state_of self.old) { position = length book.now.journal }) }
        ensures spoiled { (result ≡ Err fault.Spoiled) ↔ ((self.old.spoiled ≡ true) × (self.old.position < length book.now.journal)) }
        ensures left { OnErr result (self.old.position < length book.now.journal) }
        ensures wanting { OnErr result (state_of self.new ≡ record (state_of self.old) { spoiled = true }) }
    {
        let end = book.journal().len();
        if self.position == end {
            return Ok(());
        }
        self.apply_to(book, end)
    }

    /// The findings on the shard's keys of what is present after the applied edits, in order. It costs what is found.
    ///
    /// It answers [`KeyFault::Spoiled`] where memory was refused to an edit and no rebuild came since.
    pub fn findings(&self) -> Result<Vec<Finding>, KeyFault>
        requires { (J : List AnEdit) × IsAccepted J × Follows J self.now }
        ensures ok { IfOk result (λ found. (J : List AnEdit) → IsAccepted J → Follows J self.now → found.items ≡ findings_in self.now.id (present (take self.now.position J))) }
        ensures spoiled { (result ≡ Err fault.Spoiled) ↔ (self.now.spoiled ≡ true) }
    {
        if self.spoiled {
            return Err(KeyFault::Spoiled);
        }
        let found = self.applied.findings()?;
        Ok(found)
    }

    /// Adds these findings. After a fault none was added.
    pub fn add_findings(&self, found: &mut Vec<Finding>) -> Result<(), KeyFault>
        requires { (J : List AnEdit) × IsAccepted J × Follows J self.now }
        ensures ok { OnOk result ((J : List AnEdit) → IsAccepted J → Follows J self.now → found.new.items ≡ found.old.items ++ findings_in self.now.id (present (take self.now.position J))) }
        ensures spoiled { (result ≡ Err fault.Spoiled) ↔ (self.now.spoiled ≡ true) }
        ensures err { OnErr result (found.new.items ≡ found.old.items) }
    {
        let mut more = self.findings()?;
        found.append(&mut more)?;
        Ok(())
    }

    /// Adds what is found on the shard's keys after the applied edits and wasn't after so many first edits of the journal, and what was and
    /// isn't, each in order.
    ///
    /// It costs what changed where this was asked last after those edits, and else as much as applying them.
    pub fn add_changes(
        &mut self,
        journal: &[Edit],
        since: usize,
        changes: &mut Changes,
    ) -> Result<(), KeyFault>
        requires accepted { IsAccepted journal.now }
        requires follows { Follows journal.now self.old }
        requires since { since ≤ self.old.position }
        ensures follows { Follows journal.now self.new }
        ensures state { state_of self.new ≡ state_of self.old }
        ensures came { OnOk result (changes.new.came.items ≡ changes.old.came.items
            ++ not_among (findings_in self.old.id (present (take since journal.now))) (findings_in self.old.id (present (take self.old.position journal.now)))) }
        ensures went { OnOk result (changes.new.went.items ≡ changes.old.went.items
            ++ not_among (findings_in self.old.id (present (take self.old.position journal.now))) (findings_in self.old.id (present (take since journal.now)))) }
        ensures spoiled { (result ≡ Err fault.Spoiled) ↔ (self.old.spoiled ≡ true) }
    {
        if self.spoiled {
            return Err(KeyFault::Spoiled);
        }
        let edits = &journal[..self.position];
        let mut more = self
            .applied
            .changes_since(self.hash, edits, since, self.id)?;
        changes.came.append(&mut more.came)?;
        changes.went.append(&mut more.went)?;
        Ok(())
    }

    /// Makes all that is known of the keys anew from the journal's edits that are applied, and so ends a spoiled state.
    ///
    /// Where memory is refused everything stays as it was.
    pub fn rebuild(&mut self, journal: &[Edit]) -> Result<(), OutOfMemory>
        requires accepted { IsAccepted journal.now }
        requires follows { Follows journal.now self.old }
        ensures follows { Follows journal.now self.new }
        ensures ok { OnOk result (state_of self.new ≡ record (state_of self.old) { spoiled = false }) }
        ensures err { OnErr result (self.new ≡ self.old) }
    {
        let _present = self.rebuild_with(journal)?;
        Ok(())
    }

    /// Rebuilds, and answers with the transactions that are present after the applied edits.
    pub(crate) fn rebuild_with(&mut self, journal: &[Edit]) -> Result<PresentTxns, OutOfMemory>
        requires accepted { IsAccepted journal.now }
        requires follows { Follows journal.now self.old }
        ensures follows { Follows journal.now self.new }
        ensures ok { OnOk result (state_of self.new ≡ record (state_of self.old) { spoiled = false }) }
        ensures present { IfOk result (λ present. AreById (take self.old.position journal.now) (get nat_eq present.by_id)) }
        ensures err { OnErr result (self.new ≡ self.old) }
    {
        let (applied, present) = applied_anew(
            self.alloc,
            self.hash,
            &journal[..self.position],
            self.id,
        )?;
        self.applied = applied;
        self.spoiled = false;
        Ok(present)
    }

    /// Nothing is known of the keys from now on, until a rebuild.
    pub(crate) fn spoil(&mut self)
        ensures { self.new ≡ record self.old { spoiled = true } }
    {
        self.spoiled = true;
    }

    /// How many edits are applied.
    pub fn position(&self) -> u64
        ensures { result ≡ self.now.position }
    {
        self.position as u64
    }

    /// Whether memory was refused to an edit, and no rebuild came since.
    pub fn is_spoiled(&self) -> bool
        ensures { result ≡ self.now.spoiled }
    {
        self.spoiled
    }
}
