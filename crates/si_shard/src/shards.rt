//! A shard that keeps its edits, for who has no journal to lend it.

ghost use Rattle.std.specs.Prelude.{◌≡◌, ◌↔◌, ℕ, ◌+◌, ◌<◌, ◌≤◌, true, false, [], ◌∷◌, ◌++◌, length, nat_eq, Err, IfOk, OnOk, OnErr};
ghost use Rattle.std.specs.HashMap.{get};
ghost use Rattle.std.specs.Vec.{vec_capacity, vec_len};
ghost use Rattle.si_model.specs.Findings.{findings};
ghost use Rattle.si_model.specs.History.{IsHistory};
ghost use Rattle.si_model.specs.Journals.{IsAccepted, present};
ghost use Rattle.si_model.specs.Parts.{Present};
ghost use Rattle.si_judge.specs.declared.states.KeyFault.TheVariants as fault;
ghost use Rattle.si_shard.specs.JournalShards.{Follows, state_of};
ghost use Rattle.si_shard.specs.KeyNotes.{not_among};
ghost use Rattle.si_shard.specs.Laws.{changes_below, findings_below};
ghost use Rattle.si_shard.specs.PresentTxns.{EntersTxn, AreById, txn_asked};
ghost use Rattle.si_shard.specs.Shards.{IsShard, findings_in};

use crate::journal_shards::JournalShard;
use crate::laws::findings_are_of_shards;
use crate::merging::merge_in_order;
use crate::present_txns::PresentTxns;
use crate::told_edits::ToldEdit;
use si_judge::KeyFault;
use si_model::laws::order_is_strict;
use si_model::{Edit, Finding, Number, OutOfMemory};
use std::alloc::{AllocError, Global};
use std::hash::RandomState;
use std::marker::Model;
use std::slice;

/// The most shards that keys may be spread over.
pub const MOST_SHARDS: usize = 16;

/// One shard: the accepted edits, in the order of their numbers, and the findings on the shard's keys.
///
/// Contracts see which shard it is, the edits, which are its stored ones, and whether it is spoiled.
#[derive(Drop)]
pub struct Shard {
    shard: JournalShard,
    // Those that are nothing on the shard's keys too: a rebuild begins from all of them.
    stored: Vec<Edit>,
    // What these leave present, unless the shard is spoiled.
    present: PresentTxns,
}

impl Model for Shard {
    ghost use Rattle.std.specs.Prelude.{nat_eq};
    ghost use Rattle.std.specs.HashMap.{get};
    ghost use Rattle.si_shard.specs.Shards.{IsShard, ShardState};

    ghost Value = { ShardState };

    ghost view = { λ s. record { id = s.shard.id; stored = s.stored.items; spoiled = s.shard.spoiled } };

    ghost invariant = { λ s. IsShard s.stored.items s.shard (get nat_eq s.present.by_id) };
}

impl Shard {
    /// The shard of this number, from 0, among so many. It has stored no edit.
    ///
    /// Its maps of ids and keys hash with this secret key, so that no log can be made to collide in them.
    pub fn new(alloc: Global, hash: RandomState, shard: usize, shards: usize) -> Self
        requires within { shard < shards }
        requires most { shards ≤ MOST_SHARDS }
        ensures { result ≡ record { id = record { shard = shard; shards = shards }; stored = []; spoiled = false } }
    {
        Shard {
            shard: JournalShard::new(alloc, hash, shard, shards),
            stored: Vec::new(alloc),
            present: PresentTxns::new(alloc, hash),
        }
    }

    /// Stores the edit, which has the number after the last one stored, and mends the findings on the shard's keys.
    ///
    /// It answers [`KeyFault::Spoiled`] where memory was refused to an earlier edit and no rebuild came since; nothing changes then.
    /// [`KeyFault::OutOfMemory`] leaves the stored edits, and the shard is spoiled from then on.
    pub fn apply(&mut self, _number: Number, edit: Edit) -> Result<(), KeyFault>
        requires next { _number.0 ≡ length self.old.stored + 1 }
        requires accepted { IsAccepted (self.old.stored ++ edit ∷ []) }
        ensures ok { OnOk result (self.new ≡ record self.old { stored = self.old.stored ++ edit ∷ [] }) }
        ensures spoiled { (result ≡ Err fault.Spoiled) ↔ (self.old.spoiled ≡ true) }
        ensures wanting { OnErr result (self.new ≡ record self.old { spoiled = true }) }
    {
        if self.shard.is_spoiled() {
            return Err(KeyFault::Spoiled);
        }
        store(&mut self.shard, &mut self.stored, &mut self.present, edit)?;
        Ok(())
    }

    /// The findings on the shard's keys of what is present after the stored edits, in order. It costs what is found.
    ///
    /// It answers [`KeyFault::Spoiled`] where memory was refused to an edit and no rebuild came since.
    pub fn findings(&self) -> Result<Vec<Finding>, KeyFault>
        ensures ok { IfOk result (λ found. found.items ≡ findings_in self.now.id (present self.now.stored)) }
        ensures spoiled { (result ≡ Err fault.Spoiled) ↔ (self.now.spoiled ≡ true) }
    {
        self.shard.findings()
    }

    /// Makes all that is known of the keys anew from the stored edits, and so ends a spoiled state.
    ///
    /// Where memory is refused everything stays as it was.
    pub fn rebuild(&mut self) -> Result<(), OutOfMemory>
        ensures ok { OnOk result (self.new ≡ record self.old { spoiled = false }) }
        ensures err { OnErr result (self.new ≡ self.old) }
    {
        self.present = self.shard.rebuild_with(&self.stored)?;
        Ok(())
    }

    /// How many edits are stored: the number of the last one.
    pub fn position(&self) -> u64
        ensures { result ≡ length self.now.stored }
    {
        self.stored.len() as u64
    }

    /// Whether memory was refused to an edit, and no rebuild came since.
    pub fn is_spoiled(&self) -> bool
        ensures { result ≡ self.now.spoiled }
    {
        self.shard.is_spoiled()
    }
}

/// Puts the findings of all shards in order, which stand there shard by shard: then they are the findings.
pub fn put_all_in_order(found: &mut Vec<Finding>)
    ensures { (shards : ℕ) (P : Present) → 1 ≤ shards → IsHistory P → found.old.items ≡ findings_below shards shards P → found.new.items ≡ findings P }
{
    findings_are_of_shards();
    order_is_strict();
    merge_in_order(found);
}

/// Puts what came on the keys of all shards in order, which stands there shard by shard: then it is what the findings have that weren't
/// there before.
pub fn put_changes_in_order(came: &mut Vec<Finding>)
    ensures { (shards : ℕ) (before now : Present) → 1 ≤ shards → IsHistory now → came.old.items ≡ changes_below shards shards before now → came.new.items ≡ not_among (findings before) (findings now) }
{
    order_is_strict();
    merge_in_order(came);
}

/// The shard, which isn't spoiled, applies the edit, and it is stored. Where memory is refused it isn't, and the shard is spoiled.
fn store(
    shard: &mut JournalShard,
    stored: &mut Vec<Edit>,
    present: &mut PresentTxns,
    edit: Edit,
) -> Result<(), OutOfMemory>
    requires shard { IsShard stored.old.items shard.old (get nat_eq present.old.by_id) }
    requires whole { shard.old.spoiled ≡ false }
    requires accepted { IsAccepted (stored.old.items ++ edit ∷ []) }
    ensures shard { IsShard stored.new.items shard.new (get nat_eq present.new.by_id) }
    ensures id { shard.new.id ≡ shard.old.id }
    ensures ok { OnOk result ((stored.new.items ≡ stored.old.items ++ edit ∷ []) × (shard.new.spoiled ≡ false)) }
    ensures err { OnErr result ((stored.new.items ≡ stored.old.items) × (shard.new.spoiled ≡ true)) }
{
    let Ok(told) = tell(stored, present, edit) else {
        shard.spoil();
        return Err(AllocError);
    };
    shard.apply_first(slice::from_ref(&told));
    if shard.is_spoiled() {
        return Err(AllocError);
    }
    let ToldEdit { edit, before } = told;
    drop(before);
    stored.push(edit).unwrap();
    Ok(())
}

/// The edit with its transaction as it was before, which is entered, and room for the edit.
fn tell(
    stored: &mut Vec<Edit>,
    present: &mut PresentTxns,
    edit: Edit,
) -> Result<ToldEdit, OutOfMemory>
    ensures stored { stored.new.items ≡ stored.old.items }
    ensures room { OnOk result (vec_len stored.new < vec_capacity stored.new) }
    ensures edit { IfOk result (λ told. told.edit ≡ edit) }
    ensures before { IfOk result (λ told. told.before ≡ txn_asked edit (get nat_eq present.old.by_id)) }
    ensures entered { OnOk result (EntersTxn edit (get nat_eq present.old.by_id) (get nat_eq present.new.by_id)) }
{
    stored.reserve(1)?;
    let before = present.enter(&edit)?;
    Ok(ToldEdit { edit, before })
}
