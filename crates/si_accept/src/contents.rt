//! The journal and what is present after it, with indexes that find each reason against an edit without a walk over it.

ghost use Rattle.std.specs.Prelude.{◌≡◌, [], None, ◌∷◌, ◌++◌, length, map, OnOk, OnErr, IfOk};
ghost use Rattle.std.specs.List.{filter};
ghost use Rattle.std.specs.Option.{option_copied};
ghost use Rattle.si_model.specs.declared.edits.Edit.TheVariants as edit;
ghost use Rattle.si_model.specs.Edits.{with_id, arrival_refusal, resolution_refusal, withdrawal_refusal, set_up_refusal, refusal_on, IsAcceptable, resolved, is_another};
ghost use Rattle.si_model.specs.Journals.{nothing};
ghost use Rattle.si_accept.specs.Statuses.{committed_among, doubtful_among};
ghost use Rattle.si_accept.specs.Contents.{recorded_after};

use crate::arrivals::Arrivals;
use crate::index::Index;
use crate::set_ups::SetUps;
use crate::twice::twice_refusal;
use si_model::laws::{first_is_first, least_is_least};
use si_model::{
    Edit, Holders, Key, Op, OutOfMemory, Outcome, Refusal, Stamp, Txn, TxnId, Value, refusal_on,
};
use std::alloc::Global;
use std::hash::RandomState;
use std::marker::Model;

/// The journal and what is present after it. Contracts see both, what is present as two lists in the order of arrival.
#[derive(Drop)]
pub struct Contents {
    alloc: Global,
    hash: RandomState,
    arrivals: Arrivals,
    initial: SetUps,
    index: Index,
}

impl Model for Contents {
    ghost use Rattle.si_accept.specs.Contents.{Recorded};
    ghost use Rattle.si_accept.specs.Indexes.{AreIndexes};

    ghost Value = { Recorded };

    ghost view = { λ c. record { journal = c.arrivals.edits; present = record { txns = c.arrivals.txns; initial = c.initial } } };

    ghost invariant = { λ c. AreIndexes c.arrivals.txns c.index };
}

impl Holders for Contents {
    ghost use Rattle.si_accept.specs.Contents.{Recorded};

    ghost present = { λ (c : Recorded). c.present };

    fn with_id(&self, id: TxnId) -> Option<&Txn> {
        self.arrivals.get(id)
    }

    fn least_that_installs_at(&self, stamp: Stamp) -> Option<TxnId> {
        least_is_least();
        self.index.least_that_installs_at(stamp)
    }

    fn least_with_stamp(&self, stamp: Stamp) -> Option<TxnId> {
        least_is_least();
        self.index.least_with_stamp(stamp)
    }

    fn writer(&self, key: &Key, value: Value) -> Option<TxnId> {
        self.index.writer(key, value)
    }

    fn set_up_value(&self, key: &Key) -> Option<Value> {
        self.initial.value(key)
    }

    fn twice_refusal(&self, ops: &[Op]) -> Option<Refusal> {
        twice_refusal(self.alloc, self.hash, ops)
    }
}

impl Contents {
    /// Nothing is present.
    pub fn new(alloc: Global, hash: RandomState) -> Self
        ensures journal { result.journal ≡ [] }
        ensures present { result.present ≡ nothing }
    {
        Contents {
            alloc,
            hash,
            arrivals: Arrivals::new(alloc, hash),
            initial: SetUps::new(alloc, hash),
            index: Index::new(alloc, hash),
        }
    }

    /// The edits, in the order of their numbers.
    pub fn journal(&self) -> &[Edit]
        ensures { result.now ≡ self.now.journal }
    {
        self.arrivals.journal()
    }

    /// How many transactions are present.
    pub fn len(&self) -> usize
        ensures { result ≡ length self.now.present.txns }
    {
        self.arrivals.len()
    }

    /// The transaction with that id.
    pub fn get(&self, id: TxnId) -> Option<&Txn>
        ensures { option_copied result ≡ with_id self.now.present.txns id }
    {
        self.arrivals.get(id)
    }

    /// How many of the transactions are committed. It walks over the journal.
    pub fn committed(&self) -> usize
        ensures { result ≡ committed_among self.now.present.txns }
    {
        self.arrivals.committed()
    }

    /// The ids of the transactions in doubt, in the order of arrival. It walks over the journal.
    pub fn doubtful(&self) -> Result<Vec<TxnId>, OutOfMemory>
        ensures { IfOk result (λ ids. ids.items ≡ doubtful_among self.now.present.txns) }
    {
        self.arrivals.doubtful()
    }

    /// Copies of the transactions, in the order of arrival. It walks over the journal.
    pub fn txns(&self) -> Result<Vec<Txn>, OutOfMemory>
        ensures { IfOk result (λ txns. txns.items ≡ self.now.present.txns) }
    {
        self.arrivals.to_vec()
    }

    /// Copies of the keys that were set up with their values, in the order of arrival.
    pub fn initial(&self) -> Result<Vec<(Key, Value)>, OutOfMemory>
        ensures { IfOk result (λ initial. initial.items ≡ self.now.present.initial) }
    {
        self.initial.to_vec()
    }

    /// The first reason against an edit, the journal's limit aside.
    pub fn refusal(&self, edit: &Edit) -> Option<Refusal>
        ensures { result ≡ refusal_on self.now.present edit.now }
    {
        refusal_on(self, edit)
    }

    /// The edit, against which nothing may stand, comes to the journal, and what is present becomes what it is after it.
    #[tactic(auto, unfolding(si_model::specs::Edits::after, si_model::specs::Edits::refusal_on))]
    pub fn apply(&mut self, edit: Edit) -> Result<(), OutOfMemory>
        requires { IsAcceptable self.old.present edit }
        ensures ok { OnOk result (self.new ≡ recorded_after edit self.old) }
        ensures err { OnErr result (self.new ≡ self.old) }
    {
        match edit {
            Edit::Arrive(txn) => self.arrive(txn),
            Edit::Resolve(id, outcome) => self.resolve(id, outcome),
            Edit::Withdraw(id) => self.withdraw(id),
            Edit::SetUp(key, value) => self.set_up(key, value),
        }
    }

    fn arrive(&mut self, txn: Txn) -> Result<(), OutOfMemory>
        requires { arrival_refusal self.old.present txn ≡ None }
        ensures journal { OnOk result (self.new.journal ≡ self.old.journal ++ edit.Arrive txn ∷ []) }
        ensures present { OnOk result (self.new.present ≡ record self.old.present { txns = self.old.present.txns ++ txn ∷ [] }) }
        ensures err { OnErr result (self.new ≡ self.old) }
    {
        first_is_first();
        // All that can fail comes before anything changes, here and below.
        self.arrivals.reserve()?;
        self.index.add(&txn)?;
        self.arrivals.arrive(txn);
        Ok(())
    }

    fn resolve(&mut self, id: TxnId, outcome: Outcome) -> Result<(), OutOfMemory>
        requires { resolution_refusal self.old.present.txns outcome (with_id self.old.present.txns id) ≡ None }
        ensures journal { OnOk result (self.new.journal ≡ self.old.journal ++ edit.Resolve id outcome ∷ []) }
        ensures present { OnOk result (self.new.present ≡ record self.old.present { txns = map (resolved id outcome) self.old.present.txns }) }
        ensures err { OnErr result (self.new ≡ self.old) }
    {
        self.arrivals.reserve()?;
        let copy = self.arrivals.get(id).unwrap().try_clone()?;
        self.index
            .add_commit(outcome.status().commit(), copy.writes(), id)?;
        self.arrivals.resolve(copy, outcome);
        Ok(())
    }

    fn withdraw(&mut self, id: TxnId) -> Result<(), OutOfMemory>
        requires { withdrawal_refusal self.old.present.txns id ≡ None }
        ensures journal { OnOk result (self.new.journal ≡ self.old.journal ++ edit.Withdraw id ∷ []) }
        ensures present { OnOk result (self.new.present ≡ record self.old.present { txns = filter (is_another id) self.old.present.txns }) }
        ensures err { OnErr result (self.new ≡ self.old) }
    {
        self.arrivals.reserve()?;
        let txn = self.arrivals.get(id).unwrap();
        self.index.remove(txn);
        self.arrivals.withdraw(id);
        Ok(())
    }

    fn set_up(&mut self, key: Key, value: Value) -> Result<(), OutOfMemory>
        requires { set_up_refusal self.old.present key value ≡ None }
        ensures journal { OnOk result (self.new.journal ≡ self.old.journal ++ edit.SetUp key value ∷ []) }
        ensures present { OnOk result (self.new.present ≡ record self.old.present { initial = self.old.present.initial ++ (key, value) ∷ [] }) }
        ensures err { OnErr result (self.new ≡ self.old) }
    {
        self.arrivals.reserve()?;
        self.initial.add(key.try_clone()?, value)?;
        self.arrivals.set_up(key, value);
        Ok(())
    }
}
