//! What a judge found of the reads of a key, side by side in the order of their transactions.

ghost use Rattle.std.specs.Prelude.{◌≡◌, ◌++◌, None, Some, IfSome, OnOk, length, map, true};
ghost use Rattle.std.specs.List.Sorted.{IsStrictlySortedBy};
ghost use Rattle.std.specs.Map.{keys_of, values_of};
ghost use Rattle.std.specs.Option.{option_map, option_to_list};
ghost use Rattle.si_model.specs.Findings.{finding_at};
ghost use Rattle.si_sorted.specs.Entries.{Sets, value_at};
ghost use Rattle.si_judge.specs.declared.found_reads.Case.TheVariants as case;
ghost use Rattle.si_judge.specs.Found.{is_finding, kind_in, number_if, told_of, value_if};
ghost use Rattle.si_judge.specs.Judges.{NamesRead};
ghost use Rattle.si_judge.specs.Mending.{read_cmp};

use crate::judgements::ReadId;
use si_model::{Finding, Key, Kind, OutOfMemory, TxnId, Value};
use si_sorted::{Choice, SortedMap, ValueTest};
use std::alloc::Global;
use std::marker::Model;
use std::ops::Bound;

/// From so many places on those of reads of which nothing is found any more are closed up once they are more than half. Fewer ones wait
/// until all are empty.
const LEAST_CLOSED: usize = 8;

/// What is found of a read, as its kind names it.
#[derive(Clone, Copy, Debug, PartialEq, Eq)]
pub enum Case {
    /// Nothing, any more.
    Nothing,
    Unknown,
    Doubt,
    Own,
    Aborted,
    Intermediate,
    Future,
    Stale,
}

/// A finding of a read without the read's id, under which it stands. Findings are many on some keys, so it takes no more than three words.
#[derive(Clone, Copy, Debug, PartialEq, Eq)]
pub struct ReadFinding {
    pub case: Case,
    /// Whether the read returned a value, and whether there is another number.
    pub has_read: bool,
    pub has_other: bool,
    pub read: u64,
    /// The other transaction that the kind names, or the reader's own value.
    pub other: u64,
}

impl ReadFinding {
    /// What is found of the read of that id, if anything is.
    fn kind(self, id: ReadId) -> Option<Kind>
        ensures { result ≡ kind_in id self }
    {
        let (txn, op) = (id.txn, id.place);
        let read = value_if(self.has_read, self.read);
        let writer = TxnId(self.other);
        match self.case {
            Case::Nothing => None,
            Case::Unknown => Some(Kind::Unknown { txn, op, read }),
            Case::Doubt => Some(Kind::Doubt {
                txn,
                op,
                read,
                writer,
            }),
            Case::Own => {
                let own = value_if(self.has_other, self.other);
                Some(Kind::Own { txn, op, read, own })
            }
            Case::Aborted => Some(Kind::Aborted {
                txn,
                op,
                read,
                writer,
            }),
            Case::Intermediate => Some(Kind::Intermediate {
                txn,
                op,
                read,
                writer,
            }),
            Case::Future => Some(Kind::Future {
                txn,
                op,
                read,
                writer,
            }),
            Case::Stale => Some(Kind::Stale {
                txn,
                op,
                read,
                missed: writer,
            }),
        }
    }

    fn is_finding(self) -> bool
        ensures { result ≡ is_finding self }
    {
        match self.case {
            Case::Nothing => false,
            Case::Unknown | Case::Doubt | Case::Own | Case::Aborted => true,
            Case::Intermediate | Case::Future | Case::Stale => true,
        }
    }
}

/// Every entry.
#[derive(Clone, Copy, Debug)]
struct EveryPlace;

impl Choice<ReadId, ReadFinding, (ReadId, ReadFinding)> for EveryPlace {
    ghost use Rattle.std.specs.Prelude.{Some};

    ghost tells = { λ _ id found. Some (id, found) };

    fn told(&self, id: ReadId, found: ReadFinding) -> Option<(ReadId, ReadFinding)> {
        Some((id, found))
    }
}

/// Those that find something.
#[derive(Clone, Copy, Debug)]
struct Finds;

impl ValueTest<ReadFinding> for Finds {
    ghost use Rattle.si_judge.specs.Found.{is_finding};

    ghost passes = { λ _ found. is_finding found };

    fn wants(&self, found: ReadFinding) -> bool {
        found.is_finding()
    }
}

/// The findings of reads. One that goes leaves its place empty until half of the places are: those behind it needn't move.
///
/// Contracts see the list of what is found under the ids of reads, in their order.
#[derive(Drop)]
pub struct FoundReads {
    alloc: Global,
    places: SortedMap<ReadId, ReadFinding>,
    // How many of the places are empty.
    empty: usize,
}

impl Model for FoundReads {
    ghost use Rattle.std.specs.Prelude.{List, ◌≡◌};
    ghost use Rattle.si_model.specs.declared.kinds.Kind.{Kind};
    ghost use Rattle.si_judge.specs.declared.judgements.ReadId.{ReadId};
    ghost use Rattle.si_judge.specs.Found.{count_empty, kind_in, told_of};

    ghost Value = { List (ReadId × Kind) };

    ghost view = { λ s. told_of kind_in s.places };

    ghost invariant = { λ s. s.empty ≡ count_empty s.places };
}

impl FoundReads {
    ghost use Rattle.std.specs.Prelude.{[]};

    /// Nothing is found. It takes no memory.
    pub fn new(alloc: Global) -> Self
        ensures { result ≡ [] }
    {
        FoundReads {
            alloc,
            places: SortedMap::new(alloc),
            empty: 0,
        }
    }

    /// How many findings there are.
    pub fn len(&self) -> usize
        ensures count { result ≡ length self.now }
        ensures rising { IsStrictlySortedBy read_cmp (keys_of self.now) }
    {
        self.places.len() - self.empty
    }

    /// What is found of the read, if anything is.
    pub fn get(&self, id: ReadId) -> Option<Kind>
        ensures { result ≡ value_at read_cmp self.now id }
    {
        match self.places.get(id) {
            Some(found) => found.kind(id),
            None => None,
        }
    }

    /// Puts what is found of the read in its place, or takes out what stands there where nothing is.
    pub fn put(&mut self, id: ReadId, kind: Option<Kind>) -> Result<(), OutOfMemory>
        requires { IfSome kind (NamesRead id.txn id.place) }
        ensures { OnOk result (Sets read_cmp id kind self.old self.new) }
    {
        match kind {
            Some(kind) => self.fill(id, finding_of(kind)),
            None => {
                self.remove(id);
                Ok(())
            }
        }
    }

    fn fill(&mut self, id: ReadId, found: ReadFinding) -> Result<(), OutOfMemory>
        requires { is_finding found ≡ true }
        ensures { OnOk result (Sets read_cmp id (kind_in id found) self.old self.new) }
    {
        match self.places.replace(id, found) {
            Some(was) => {
                if !was.is_finding() {
                    self.empty -= 1;
                }
            }
            None => self.places.insert(id, found)?,
        }
        Ok(())
    }

    /// Takes out what is found of the read, if anything is.
    pub fn remove(&mut self, id: ReadId)
        ensures { Sets read_cmp id None self.old self.new }
    {
        let _count = self.places.len();
        if let Some(was) = self.places.replace(id, nothing()) {
            if was.is_finding() {
                self.empty += 1;
                self.close_up();
            }
        }
    }

    /// Closes up the empty places where they are many.
    fn close_up(&mut self)
        ensures { self.new ≡ self.old }
    {
        let len = self.places.len();
        if self.empty == len {
            self.places = SortedMap::new(self.alloc);
            self.empty = 0;
        } else if self.empty >= LEAST_CLOSED && self.empty > len / 2 {
            self.places.retain(&Finds);
            self.empty = 0;
        }
    }

    /// Adds what is found of the reads, as findings on the key.
    pub fn add_to(&self, found: &mut Vec<Finding>, key: &Key) -> Result<(), OutOfMemory>
        ensures added { OnOk result (found.new.items ≡ found.old.items ++ map (finding_at key.now) (values_of self.now)) }
        ensures rising { IsStrictlySortedBy read_cmp (keys_of self.now) }
    {
        let _rising = self.places.len();
        if let Some(flat) = self.places.as_flat() {
            return add_each(found, key, flat);
        }
        let mut all = Vec::new(self.alloc);
        self.places
            .add_between(Bound::Unbounded, Bound::Unbounded, &EveryPlace, &mut all)?;
        add_each(found, key, all.as_slice())
    }
}

/// Adds those of the entries that find something, as findings on the key.
fn add_each(
    found: &mut Vec<Finding>,
    key: &Key,
    entries: &[(ReadId, ReadFinding)],
) -> Result<(), OutOfMemory>
    ensures { OnOk result (found.new.items ≡ found.old.items ++ map (finding_at key.now) (values_of (told_of kind_in entries.now))) }
{
    for entry in entries {
        add_one(found, key, entry.1.kind(entry.0))?;
    }
    Ok(())
}

/// Adds that kind, if there is one, as a finding on the key.
pub fn add_one(found: &mut Vec<Finding>, key: &Key, kind: Option<Kind>) -> Result<(), OutOfMemory>
    ensures { OnOk result (found.new.items ≡ found.old.items ++ map (finding_at key.now) (option_to_list kind)) }
{
    if let Some(kind) = kind {
        found.push(Finding {
            key: key.try_clone()?,
            kind,
        })?;
    }
    Ok(())
}

/// What stands in an empty place.
fn nothing() -> ReadFinding
    ensures { result.case ≡ case.Nothing }
{
    of_case(Case::Nothing, None, None)
}

/// The finding of that kind, which is of a read.
fn finding_of(kind: Kind) -> ReadFinding
    ensures { (o : ReadId) → NamesRead o.txn o.place kind → (kind_in o result ≡ Some kind) × (is_finding result ≡ true) }
{
    match kind {
        Kind::Unknown { read, .. } => of_case(Case::Unknown, read, None),
        Kind::Doubt { read, writer, .. } => of_case(Case::Doubt, read, Some(writer.0)),
        Kind::Own { read, own, .. } => of_case(Case::Own, read, number_of(own)),
        Kind::Aborted { read, writer, .. } => of_case(Case::Aborted, read, Some(writer.0)),
        Kind::Intermediate { read, writer, .. } => {
            of_case(Case::Intermediate, read, Some(writer.0))
        }
        Kind::Future { read, writer, .. } => of_case(Case::Future, read, Some(writer.0)),
        Kind::Stale { read, missed, .. } => of_case(Case::Stale, read, Some(missed.0)),
        Kind::Overlap { .. } => nothing(),
    }
}

fn of_case(case: Case, read: Option<Value>, other: Option<u64>) -> ReadFinding
    ensures case { result.case ≡ case }
    ensures read { value_if result.has_read result.read ≡ read }
    ensures other { number_if result.has_other result.other ≡ other }
{
    ReadFinding {
        case,
        has_read: read.is_some(),
        has_other: other.is_some(),
        read: number_of(read).unwrap_or(0),
        other: other.unwrap_or(0),
    }
}

fn number_of(value: Option<Value>) -> Option<u64>
    ensures { result ≡ option_map (λ v. v.0) value }
{
    match value {
        Some(Value(number)) => Some(number),
        None => None,
    }
}

fn value_if(is_there: bool, number: u64) -> Option<Value>
    ensures { result ≡ value_if is_there number }
{
    if is_there { Some(Value(number)) } else { None }
}
