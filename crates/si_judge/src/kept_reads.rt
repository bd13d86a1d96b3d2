//! The reads of a key's committed transactions, found by what they returned.

ghost use Rattle.std.specs.Prelude.{◌≡◌, ◌↔◌, ◌<◌, ◌++◌, ◌-◌, None, IfOk, IsTrue, OnErr, OnOk, Some, if◌then◌else◌, length, slice_get};
ghost use Rattle.std.specs.List.{AllPairs};
ghost use Rattle.std.specs.Map.{keys_of};
ghost use Rattle.std.specs.Option.{option_to_list};
ghost use Rattle.std.specs.Ordering.{eq_by_cmp};
ghost use Rattle.si_sorted.specs.Entries.{Sets, value_at};
ghost use Rattle.si_judge.specs.Indexes.{reads_in, reads_of};
ghost use Rattle.si_judge.specs.Maps.{AreInserted, AreTakenOut};
ghost use Rattle.si_judge.specs.KeptReads.{AreInOrder, SetsOwn, beyond, is_later, is_kept_read_of, least_kept_read, own_at, kept_read_cmp, kept_reads_among};

use crate::reads::{KeptRead, ReadWithOwn, read_at};
use si_model::{OutOfMemory, Part, Stamp, TxnId, Value};
use si_sorted::{Choice, SortedMap};
use std::alloc::Global;
use std::marker::Model;
use std::ops::Bound;

/// So many reads of a value that an edit touches are judged at once. More of them are cheaper to mark.
const FEW: usize = 8;

/// The own values of readers.
type OwnValues = SortedMap<KeptRead, Value>;

/// The reads of the committed transactions of a key, each with its transaction's own value there, if it has one.
///
/// Contracts see the list of pairs, in the order of readers.
#[derive(Drop)]
pub struct KeptReads {
    all: SortedMap<KeptRead, ()>,
    // For those few alone whose transaction has one.
    own: OwnValues,
}

impl Model for KeptReads {
    ghost use Rattle.std.specs.Prelude.{List, Option};
    ghost use Rattle.si_model.specs.declared.numbers.Value.{Value as Written};
    ghost use Rattle.si_judge.specs.declared.reads.KeptRead.{KeptRead};
    ghost use Rattle.si_judge.specs.KeptReads.{AreOfKeptReads, with_own};

    ghost Value = { List (KeptRead × Option Written) };

    ghost view = { λ s. with_own s.own s.all };

    ghost invariant = { λ s. AreOfKeptReads s.own s.all };
}

/// The reads of a value, by readers that started after a stamp, if there is one.
#[derive(Clone, Copy)]
struct OfValue<'a> {
    value: Option<Value>,
    after: Option<Stamp>,
    own: &'a OwnValues,
}

impl<'a> Choice<KeptRead, (), ReadWithOwn> for OfValue<'a> {
    ghost use Rattle.std.specs.Prelude.{None, Some};
    ghost use Rattle.std.specs.Prelude.{if◌then◌else◌};
    ghost use Rattle.si_sorted.specs.Entries.{value_at};
    ghost use Rattle.si_judge.specs.KeptReads.{is_kept_read_of, kept_read_cmp};

    ghost tells = { λ w r _. if is_kept_read_of w.value w.after r then Some (r, value_at kept_read_cmp w.own.now r) else None };

    fn told(&self, reader: KeptRead, _nothing: ()) -> Option<ReadWithOwn> {
        if is_kept_read_of(self.value, self.after, reader) {
            return Some((reader, own_of(self.own, reader)));
        }
        None
    }
}

impl KeptReads {
    ghost use Rattle.std.specs.Prelude.{[]};

    /// No read.
    pub fn new(alloc: Global) -> Self
        ensures { result ≡ [] }
    {
        KeptReads {
            all: SortedMap::new(alloc),
            own: SortedMap::new(alloc),
        }
    }

    /// Whether there is none.
    pub fn is_empty(&self) -> bool
        ensures { IsTrue result ↔ (self.now ≡ []) }
    {
        self.all.is_empty()
    }

    /// How many there are.
    pub fn len(&self) -> usize
        ensures { result ≡ length self.now }
    {
        self.all.len()
    }

    /// The last reader, in their order.
    pub fn last(&self) -> Option<KeptRead>
        ensures { result ≡ slice_get (keys_of self.now) (length self.now - 1) }
    {
        let (reader, ()) = self.all.last()?;
        Some(reader)
    }

    /// Puts the reads of the transaction in, if it is committed.
    #[tactic(auto, unfolding(crate::specs::Indexes::reads_in))]
    pub fn insert_in(&mut self, part: &Part) -> Result<(), OutOfMemory>
        requires { AllPairs (λ a b. a.place < b.place) part.now.accesses }
        ensures values { OnOk result (AreInserted (eq_by_cmp kept_read_cmp) (own_at self.old) (reads_in part.now) (own_at self.new)) }
        ensures ordered { OnOk result (AreInOrder self.old → AreInOrder self.new) }
    {
        match part.status.commit() {
            None => Ok(()),
            Some(_) => self.insert_of(part),
        }
    }

    #[tactic(auto, using(crate::proofs::OwnValues::own_is))]
    fn insert_of(&mut self, part: &Part) -> Result<(), OutOfMemory>
        requires { AllPairs (λ a b. a.place < b.place) part.now.accesses }
        ensures values { OnOk result (AreInserted (eq_by_cmp kept_read_cmp) (own_at self.old) (reads_of part.now) (own_at self.new)) }
        ensures ordered { OnOk result (AreInOrder self.old → AreInOrder self.new) }
    {
        let mut own = None;
        for placed in part.accesses.as_slice() {
            self.insert_one(read_at(part, own, *placed))?;
            own = placed.access.written().or(own);
        }
        Ok(())
    }

    fn insert_one(&mut self, read: Option<ReadWithOwn>) -> Result<(), OutOfMemory>
        ensures values { OnOk result (AreInserted (eq_by_cmp kept_read_cmp) (own_at self.old) (option_to_list read) (own_at self.new)) }
        ensures ordered { OnOk result (AreInOrder self.old → AreInOrder self.new) }
    {
        if let Some((reader, own)) = read {
            self.insert(reader, own)?;
        }
        Ok(())
    }

    fn insert(&mut self, reader: KeptRead, own: Option<Value>) -> Result<(), OutOfMemory>
        ensures value { OnOk result (SetsOwn reader (Some own) self.old self.new) }
        ensures ordered { OnOk result (AreInOrder self.new) }
    {
        self.all.insert(reader, ())?;
        set_own(&mut self.own, reader, own)?;
        Ok(())
    }

    /// Takes the reads out.
    pub fn remove_all(&mut self, reads: &[ReadWithOwn])
        ensures values { AreTakenOut (eq_by_cmp kept_read_cmp) (own_at self.old) reads.now (own_at self.new) }
        ensures ordered { AreInOrder self.old → AreInOrder self.new }
    {
        for read in reads {
            self.remove(read.0);
        }
    }

    fn remove(&mut self, reader: KeptRead)
        ensures value { SetsOwn reader None self.old self.new }
        ensures ordered { AreInOrder self.new }
    {
        self.all.remove(reader);
        forget_own(&mut self.own, reader);
    }

    /// Adds the reads that returned the value, by readers that started after the stamp, if there is one.
    pub fn add_to(
        &self,
        reads: &mut Vec<ReadWithOwn>,
        value: Option<Value>,
        after: Option<Stamp>,
    ) -> Result<(), OutOfMemory>
        ensures { OnOk result (reads.new.items ≡ reads.old.items ++ kept_reads_among self.now value after) }
    {
        let (least, beyond) = (least_kept_read(value, after), beyond(value));
        let own = &self.own;
        let of_value = OfValue { value, after, own };
        self.all.add_between(least, beyond, &of_value, reads)?;
        Ok(())
    }

    /// The same where these are few; else none is added, and it says so.
    pub fn add_few_to(
        &self,
        reads: &mut Vec<ReadWithOwn>,
        value: Option<Value>,
        after: Option<Stamp>,
    ) -> Result<bool, OutOfMemory>
        ensures { IfOk result (λ few. reads.new.items ≡ (if few then reads.old.items ++ kept_reads_among self.now value after else reads.old.items)) }
    {
        let (least, beyond) = (least_kept_read(value, after), beyond(value));
        let own = &self.own;
        let of_value = OfValue { value, after, own };
        let few = self
            .all
            .add_few_between(least, beyond, &of_value, FEW, reads)?;
        Ok(few)
    }
}

/// The own value of the reader, if there is one. Mostly no reader has one, and then nothing is looked up.
fn own_of(own: &OwnValues, reader: KeptRead) -> Option<Value>
    ensures { result ≡ value_at kept_read_cmp own.now reader }
{
    if own.is_empty() {
        return None;
    }
    own.get(reader)
}

/// Puts the own value under the reader, or takes the one out that stands there.
fn set_own(own: &mut OwnValues, reader: KeptRead, value: Option<Value>) -> Result<(), OutOfMemory>
    ensures ok { OnOk result (Sets kept_read_cmp reader value own.old own.new) }
    ensures err { OnErr result (own.new ≡ own.old) }
{
    match value {
        Some(value) => own.insert(reader, value)?,
        None => forget_own(own, reader),
    }
    Ok(())
}

fn forget_own(own: &mut OwnValues, reader: KeptRead)
    ensures { Sets kept_read_cmp reader None own.old own.new }
{
    if !own.is_empty() {
        own.remove(reader);
    }
}

fn least_kept_read(value: Option<Value>, after: Option<Stamp>) -> Bound<KeptRead>
    ensures { result ≡ least_kept_read value after }
{
    let start = match after {
        Some(stamp) => stamp,
        None => Stamp(0),
    };
    Bound::Included(KeptRead {
        value,
        start,
        txn: TxnId(0),
        place: 0,
    })
}

/// Where the readers begin that returned a greater value.
fn beyond(value: Option<Value>) -> Bound<KeptRead>
    ensures { result ≡ beyond value }
{
    let next = match value {
        None => Value(0),
        Some(Value(u64::MAX)) => return Bound::Unbounded,
        Some(Value(value)) => Value(value + 1),
    };
    Bound::Excluded(KeptRead {
        value: Some(next),
        start: Stamp(0),
        txn: TxnId(0),
        place: 0,
    })
}

/// Whether it is a read of the value by a reader that started after the stamp, if there is one.
fn is_kept_read_of(value: Option<Value>, after: Option<Stamp>, reader: KeptRead) -> bool
    ensures { result ≡ is_kept_read_of value after reader }
{
    reader.value == value && is_later(after, reader.start)
}

fn is_later(after: Option<Stamp>, start: Stamp) -> bool
    ensures { result ≡ is_later after start }
{
    match after {
        Some(stamp) => stamp < start,
        None => true,
    }
}
