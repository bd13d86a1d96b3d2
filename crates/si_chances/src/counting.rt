//! The places of each kind on all keys.

ghost use Rattle.std.specs.Prelude.{◌≡◌, ◌≤◌, [], ℕ, List, IfOk, length};
ghost use Rattle.si_model.specs.declared.numbers.Value.{Value};
ghost use Rattle.si_model.specs.Chances.{chances};
ghost use Rattle.si_model.specs.History.{IsHistory};
ghost use Rattle.si_chances.specs.Groups.{AreGroups};
ghost use Rattle.si_chances.specs.Groups as grouped;
ghost use Rattle.si_chances.specs.OnKeys.{on, places_on};
ghost use Rattle.si_model.specs.Parts.{parts};
ghost use Rattle.si_chances.specs.Counts.{chances_in, chances_with, count_with};

use crate::adding::added;
use crate::grouping::{Groups, Slot, groups_of};
use crate::on_keys::{Places, places_on};
use crate::regrouping::parts_at;
use si_model::{Chances, Count, MOST_EDITS, OutOfMemory, Txn};
use std::alloc::Global;
use std::hash::RandomState;

/// At how many places, and on how many keys, a likely fault of a database would have shown a finding of each kind in these transactions.
///
/// It fails only where memory is refused. Beyond the transactions it takes 8 to 16 bytes for each operation and some hundred for each key,
/// and, for the one key that is counted at a time, some hundred for each transaction on it and 32 for each access. The time is that of
/// sorting, for each key the stamps and the values there. The hash is that of a map of the keys, and no count depends on it.
pub fn chances_of(alloc: Global, hash: RandomState, txns: &[Txn]) -> Result<Chances, OutOfMemory>
    requires most { length txns.now ≤ MOST_EDITS }
    requires history { (initial : List (List ℕ × Value)) × IsHistory (record { txns = txns.now; initial = initial }) }
    ensures { IfOk result (λ found. (initial : List (List ℕ × Value)) → found ≡ chances (record { txns = txns.now; initial = initial })) }
{
    count(alloc, txns, &groups_of(alloc, hash, txns)?)
}

/// The places on all keys, whose groups these are.
fn count(alloc: Global, txns: &[Txn], groups: &Groups) -> Result<Chances, OutOfMemory>
    requires history { (initial : List (List ℕ × Value)) × IsHistory (record { txns = txns.now; initial = initial }) }
    requires groups { AreGroups txns.now groups.now }
    ensures { IfOk result (λ found. (initial : List (List ℕ × Value)) → found ≡ chances (record { txns = txns.now; initial = initial })) }
{
    let mut chances = none();
    for place in 0..groups.len() {
        let (_, slots) = groups.get_index(place).unwrap();
        chances = with_key(chances, places_at(alloc, txns, slots)?)?;
    }
    Ok(chances)
}

/// The places on the key whose slots these are.
fn places_at(alloc: Global, txns: &[Txn], slots: &[Slot]) -> Result<Places, OutOfMemory>
    requires history { (initial : List (List ℕ × Value)) × IsHistory (record { txns = txns.now; initial = initial }) }
    requires slots { (x : List ℕ) × (slots.now ≡ grouped.slots x txns.now) }
    ensures { IfOk result (λ places. (x : List ℕ) → slots.now ≡ grouped.slots x txns.now → places ≡ places_on (on (parts x txns.now))) }
{
    let parts = parts_at(alloc, txns, slots)?;
    places_on(alloc, &parts)
}

/// No place of any kind.
fn none() -> Chances
    ensures { result ≡ chances_in [] }
{
    let none = Count { places: 0, keys: 0 };
    Chances {
        own: none,
        aborted: none,
        intermediate: none,
        future: none,
        stale: none,
        overlap: none,
    }
}

/// The places on one key more.
fn with_key(chances: Chances, places: Places) -> Result<Chances, OutOfMemory>
    ensures { IfOk result (λ all. all ≡ chances_with places chances) }
{
    Ok(Chances {
        own: counted(chances.own, places.own)?,
        aborted: counted(chances.aborted, places.aborted)?,
        intermediate: counted(chances.intermediate, places.intermediate)?,
        future: counted(chances.future, places.future)?,
        stale: counted(chances.stale, places.stale)?,
        overlap: counted(chances.overlap, places.overlap)?,
    })
}

/// So many places more, all on one key.
fn counted(count: Count, places: usize) -> Result<Count, OutOfMemory>
    ensures { IfOk result (λ all. all ≡ count_with places count) }
{
    Ok(Count {
        places: added(count.places, places)?,
        keys: added(count.keys, usize::from(places > 0))?,
    })
}
