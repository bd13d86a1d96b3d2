//! The overlaps of a key's versions, side by side in the order of their commits.

ghost use Rattle.std.specs.Prelude.{◌≡◌, ◌++◌, [], None, Some, OnOk, length, map};
ghost use Rattle.std.specs.List.Sorted.{IsStrictlySortedBy};
ghost use Rattle.std.specs.Map.{keys_of, values_of};
ghost use Rattle.std.specs.Option.{option_map};
ghost use Rattle.si_model.specs.Findings.{finding_at};
ghost use Rattle.si_sorted.specs.Entries.{Sets, value_at};
ghost use Rattle.si_judge.specs.Found.{overlap_in, overlap_of, told_of};
ghost use Rattle.si_judge.specs.Mending.{stamp_cmp};

use crate::found_reads::add_one;
use si_model::{Finding, Key, Kind, OutOfMemory, Stamp, TxnId};
use si_sorted::{Choice, SortedMap};
use std::alloc::Global;
use std::marker::Model;
use std::ops::Bound;

/// The installers of two neighbouring versions that overlap.
pub type Pair = (TxnId, TxnId);

/// Every entry.
#[derive(Clone, Copy, Debug)]
struct EveryPair;

impl Choice<Stamp, Pair, (Stamp, Pair)> for EveryPair {
    ghost use Rattle.std.specs.Prelude.{Some};

    ghost tells = { λ _ commit pair. Some (commit, pair) };

    fn told(&self, commit: Stamp, pair: Pair) -> Option<(Stamp, Pair)> {
        Some((commit, pair))
    }
}

/// The overlaps, under the commit stamps of their first versions.
///
/// Contracts see the list of them as kinds.
#[derive(Drop)]
pub struct FoundPairs {
    alloc: Global,
    pairs: SortedMap<Stamp, Pair>,
}

impl Model for FoundPairs {
    ghost use Rattle.std.specs.Prelude.{List};
    ghost use Rattle.si_model.specs.declared.kinds.Kind.{Kind};
    ghost use Rattle.si_model.specs.declared.numbers.Stamp.{Stamp as Commit};
    ghost use Rattle.si_judge.specs.Found.{overlap_in, told_of};

    ghost Value = { List (Commit × Kind) };

    ghost view = { λ s. told_of overlap_in s.pairs };
}

impl FoundPairs {
    /// None overlaps. It takes no memory.
    pub fn new(alloc: Global) -> Self
        ensures { result ≡ [] }
    {
        FoundPairs {
            alloc,
            pairs: SortedMap::new(alloc),
        }
    }

    /// How many there are.
    pub fn len(&self) -> usize
        ensures count { result ≡ length self.now }
        ensures rising { IsStrictlySortedBy stamp_cmp (keys_of self.now) }
    {
        self.pairs.len()
    }

    /// What stands under the commit, if anything does.
    pub fn get(&self, commit: Stamp) -> Option<Kind>
        ensures { result ≡ value_at stamp_cmp self.now commit }
    {
        kind_of(self.pairs.get(commit))
    }

    /// Puts the pair under its commit, or takes out what stands there where it doesn't overlap.
    pub fn put(&mut self, commit: Stamp, pair: Option<Pair>) -> Result<(), OutOfMemory>
        ensures { OnOk result (Sets stamp_cmp commit (option_map overlap_of pair) self.old self.new) }
    {
        match pair {
            Some(pair) => self.insert(commit, pair),
            None => {
                self.remove(commit);
                Ok(())
            }
        }
    }

    fn insert(&mut self, commit: Stamp, pair: Pair) -> Result<(), OutOfMemory>
        ensures { OnOk result (Sets stamp_cmp commit (Some (overlap_of pair)) self.old self.new) }
    {
        let _rising = self.pairs.len();
        self.pairs.insert(commit, pair)?;
        Ok(())
    }

    /// Takes out what stands under the commit, if anything does.
    pub fn remove(&mut self, commit: Stamp)
        ensures { Sets stamp_cmp commit None self.old self.new }
    {
        let _rising = self.pairs.len();
        // (mostly there is none)
        if !self.pairs.is_empty() {
            self.pairs.remove(commit);
        }
    }

    /// Adds the overlaps, as findings on the key.
    pub fn add_to(&self, found: &mut Vec<Finding>, key: &Key) -> Result<(), OutOfMemory>
        ensures added { OnOk result (found.new.items ≡ found.old.items ++ map (finding_at key.now) (values_of self.now)) }
        ensures rising { IsStrictlySortedBy stamp_cmp (keys_of self.now) }
    {
        let _rising = self.pairs.len();
        if let Some(flat) = self.pairs.as_flat() {
            return add_each(found, key, flat);
        }
        let mut all = Vec::new(self.alloc);
        self.pairs
            .add_between(Bound::Unbounded, Bound::Unbounded, &EveryPair, &mut all)?;
        add_each(found, key, all.as_slice())
    }
}

/// Adds the pairs, as findings on the key.
fn add_each(
    found: &mut Vec<Finding>,
    key: &Key,
    entries: &[(Stamp, Pair)],
) -> Result<(), OutOfMemory>
    ensures { OnOk result (found.new.items ≡ found.old.items ++ map (finding_at key.now) (values_of (told_of overlap_in entries.now))) }
{
    for entry in entries {
        add_one(found, key, Some(overlap_of(entry.1)))?;
    }
    Ok(())
}

/// The overlap of the pair, if there is one.
pub fn kind_of(pair: Option<Pair>) -> Option<Kind>
    ensures { result ≡ option_map overlap_of pair }
{
    match pair {
        Some(pair) => Some(overlap_of(pair)),
        None => None,
    }
}

fn overlap_of(pair: Pair) -> Kind
    ensures { result ≡ overlap_of pair }
{
    Kind::Overlap {
        first: pair.0,
        second: pair.1,
    }
}
