//! The journal of accepted edits, and in it the transactions that are present, found by their ids.

ghost use Rattle.std.specs.Prelude.{◌≡◌, [], ◌∷◌, ◌++◌, None, Some, OnOk, IfOk, map, length, nat_eq};
ghost use Rattle.std.specs.List.{filter};
ghost use Rattle.std.specs.Option.{option_copied};
ghost use Rattle.indexmap.specs.IndexMap.{get};
ghost use Rattle.si_model.specs.declared.edits.Edit.TheVariants as edit;
ghost use Rattle.si_model.specs.Edits.{with_id, withdrawal_refusal, resolved, is_another, is_in_doubt};
ghost use Rattle.si_accept.specs.Arrivals.{HasRoom, present_at};
ghost use Rattle.si_accept.specs.Statuses.{committed_among, doubtful_among};

use indexmap::IndexMap;
use si_hashing::NumberHash;
use si_model::{Edit, Key, OutOfMemory, Outcome, Status, Txn, TxnId, Value};
use std::alloc::Global;
use std::hash::RandomState;
use std::marker::Model;

/// The journal, and which of the transactions that arrived in it are present. Contracts see the edits, those transactions in the order
/// of arrival, and the room for one more edit.
///
/// A transaction stands in the journal, with the status that it arrived with. One that was resolved, as few are, has a copy beside it.
#[derive(Drop)]
pub struct Arrivals {
    alloc: Global,
    journal: Vec<Edit>,
    // From the id of each present transaction to the place of its arrival in the journal.
    places: IndexMap<u64, usize, NumberHash>,
    // From the id of each present transaction that was resolved to a copy with its status now.
    resolved: IndexMap<u64, Txn, NumberHash>,
}

impl Model for Arrivals {
    ghost use Rattle.std.specs.Prelude.{nat_eq, ◌-◌};
    ghost use Rattle.std.specs.Vec.{vec_len, vec_capacity};
    ghost use Rattle.indexmap.specs.IndexMap.{get, spare, index_map_len};
    ghost use Rattle.si_accept.specs.Arrivals.{Kept, present_in, AreInJournal};

    ghost Value = { Kept };

    ghost view = { λ a. record {
      edits = a.journal.items;
      txns = present_in (get nat_eq a.places) (get nat_eq a.resolved) a.journal.items;
      room = record { edits = vec_capacity a.journal - vec_len a.journal; places = spare a.places; copies = spare a.resolved };
    } };

    ghost invariant = { λ a. AreInJournal a.journal.items (get nat_eq a.places) (get nat_eq a.resolved) (index_map_len a.places) };
}

impl Arrivals {
    /// No edit.
    pub fn new(alloc: Global, hash: RandomState) -> Self
        ensures edits { result.edits ≡ [] }
        ensures txns { result.txns ≡ [] }
    {
        Arrivals {
            alloc,
            journal: Vec::new(alloc),
            places: IndexMap::with_hasher(alloc, NumberHash::with_secret(hash)),
            resolved: IndexMap::with_hasher(alloc, NumberHash::with_secret(hash)),
        }
    }

    /// The edits, in the order of their numbers.
    pub fn journal(&self) -> &[Edit]
        ensures { result.now ≡ self.now.edits }
    {
        &self.journal
    }

    /// How many transactions are present.
    pub fn len(&self) -> usize
        ensures { result ≡ length self.now.txns }
    {
        self.places.len()
    }

    /// The present transaction with that id.
    pub fn get(&self, id: TxnId) -> Option<&Txn>
        ensures { option_copied result ≡ with_id self.now.txns id }
    {
        match self.places.get(&id.0) {
            Some(&place) => present_at(&self.places, &self.resolved, place, &self.journal[place]),
            None => None,
        }
    }

    /// How many of the present transactions are committed. It walks over the journal.
    pub fn committed(&self) -> usize
        ensures { result ≡ committed_among self.now.txns }
    {
        let mut count = 0;
        for (place, edit) in self.journal.iter().enumerate() {
            if let Some(txn) = present_at(&self.places, &self.resolved, place, edit) {
                if txn.status.commit().is_some() {
                    count += 1;
                }
            }
        }
        count
    }

    /// The ids of the present transactions in doubt, in the order of arrival. It walks over the journal.
    pub fn doubtful(&self) -> Result<Vec<TxnId>, OutOfMemory>
        ensures { IfOk result (λ ids. ids.items ≡ doubtful_among self.now.txns) }
    {
        let mut ids = Vec::new(self.alloc);
        for (place, edit) in self.journal.iter().enumerate() {
            if let Some(txn) = present_at(&self.places, &self.resolved, place, edit) {
                if is_in_doubt(txn.status) {
                    ids.push(txn.id)?;
                }
            }
        }
        Ok(ids)
    }

    /// Copies of the present transactions, in the order of arrival. It walks over the journal.
    pub fn to_vec(&self) -> Result<Vec<Txn>, OutOfMemory>
        ensures { IfOk result (λ txns. txns.items ≡ self.now.txns) }
    {
        let mut copies = Vec::with_capacity(self.alloc, self.places.len())?;
        for (place, edit) in self.journal.iter().enumerate() {
            if let Some(txn) = present_at(&self.places, &self.resolved, place, edit) {
                copies.push(txn.try_clone()?)?;
            }
        }
        Ok(copies)
    }

    /// Makes room for one more edit, whatever it is.
    pub fn reserve(&mut self) -> Result<(), OutOfMemory>
        ensures same { self.new ≡ record self.old { room = self.new.room } }
        ensures room { OnOk result (HasRoom self.new.room) }
    {
        self.journal.reserve(1)?;
        self.places.reserve(1)?;
        self.resolved.reserve(1)
    }

    /// The transaction arrives. Its id must not be there yet.
    pub fn arrive(&mut self, txn: Txn)
        requires room { HasRoom self.old.room }
        requires new { with_id self.old.txns txn.id ≡ None }
        ensures edits { self.new.edits ≡ self.old.edits ++ edit.Arrive txn ∷ [] }
        ensures txns { self.new.txns ≡ self.old.txns ++ txn ∷ [] }
    {
        self.places.insert(txn.id.0, self.journal.len()).unwrap();
        self.journal.push(Edit::Arrive(txn)).unwrap();
    }

    /// The transaction, of which this is a copy, is resolved.
    pub fn resolve(&mut self, mut copy: Txn, outcome: Outcome)
        requires room { HasRoom self.old.room }
        requires there { with_id self.old.txns copy.id ≡ Some copy }
        ensures edits { self.new.edits ≡ self.old.edits ++ edit.Resolve copy.id outcome ∷ [] }
        ensures txns { self.new.txns ≡ map (resolved copy.id outcome) self.old.txns }
    {
        let id = copy.id;
        copy.status = outcome.status();
        self.resolved.insert(id.0, copy).unwrap();
        self.journal.push(Edit::Resolve(id, outcome)).unwrap();
    }

    /// The transaction with that id, which must be there, is withdrawn.
    pub fn withdraw(&mut self, id: TxnId)
        requires room { HasRoom self.old.room }
        requires there { withdrawal_refusal self.old.txns id ≡ None }
        ensures edits { self.new.edits ≡ self.old.edits ++ edit.Withdraw id ∷ [] }
        ensures txns { self.new.txns ≡ filter (is_another id) self.old.txns }
    {
        self.places.swap_remove(&id.0);
        self.resolved.swap_remove(&id.0);
        self.journal.push(Edit::Withdraw(id)).unwrap();
    }

    /// A key is set up, which is nothing to the transactions.
    pub fn set_up(&mut self, key: Key, value: Value)
        requires { HasRoom self.old.room }
        ensures edits { self.new.edits ≡ self.old.edits ++ edit.SetUp key value ∷ [] }
        ensures txns { self.new.txns ≡ self.old.txns }
    {
        self.journal.push(Edit::SetUp(key, value)).unwrap();
    }
}

/// The transaction that arrives by the edit at that place, with its status now, where it is present.
fn present_at<'a>(
    places: &IndexMap<u64, usize, NumberHash>,
    resolved: &'a IndexMap<u64, Txn, NumberHash>,
    place: usize,
    edit: &'a Edit,
) -> Option<&'a Txn>
    ensures { option_copied result ≡ present_at (get nat_eq places.now) (get nat_eq resolved.now) (place, edit.now) }
{
    let Edit::Arrive(txn) = edit else {
        return None;
    };
    match places.get(&txn.id.0) {
        Some(&there) if there == place => match resolved.get(&txn.id.0) {
            Some(copy) => Some(copy),
            None => Some(txn),
        },
        _ => None,
    }
}

/// Whether it isn't known yet if the transaction committed.
fn is_in_doubt(status: Status) -> bool
    ensures { result ≡ is_in_doubt status }
{
    match status {
        Status::InDoubt => true,
        Status::Committed(_) | Status::Aborted => false,
    }
}
