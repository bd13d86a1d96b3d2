//! The entries between two bounds.

ghost use Rattle.std.specs.Prelude.{◌≡◌, ◌≤◌, ◌++◌, IfOk, IfSome, OnOk, if◌then◌else◌, length};
ghost use Rattle.std.specs.BTreeMap.Range.{IsLeBy, IsLtBy, entries_between, is_from_start, is_past_end};
ghost use Rattle.std.specs.List.{filter_map};
ghost use Rattle.std.specs.List.Sorted.{IsStrictlySortedBy};
ghost use Rattle.std.specs.Map.{keys_of};
ghost use Rattle.std.specs.Range.Bound.{IsForward};
ghost use Rattle.si_sorted.specs.Places.{IsCutAt, IsEndFrom};

use crate::flat::{count_below, count_up_to};
use std::alloc::AllocError;
use std::collections::BTreeMap;
use std::ops::Bound;

/// A choice among entries, and what is told of each one that is chosen.
pub trait Choice<K, V, E> {
    ghost use Rattle.std.specs.Prelude.{◌≡◌, Option};

    /// What is told of an entry, if it is chosen.
    ghost tells: { Self → K → V → Option E };

    /// What is told of the entry, if it is chosen.
    fn told(&self, key: K, value: V) -> Option<E>
        ensures { result ≡ tells self.now key value };
}

/// The first place within the lower bound.
fn start_of<K: Ord + Copy + Drop, V: Copy + Drop>(entries: &[(K, V)], low: Bound<K>) -> usize
    requires { IsStrictlySortedBy K.cmp (keys_of entries.now) }
    ensures { IsCutAt (is_from_start K.cmp low) entries.now result }
{
    match low {
        Bound::Included(key) => count_below(entries, key),
        Bound::Excluded(key) => count_up_to(entries, key),
        Bound::Unbounded => 0,
    }
}

/// The first place past the upper bound.
fn end_of<K: Ord + Copy + Drop, V: Copy + Drop>(entries: &[(K, V)], high: Bound<K>) -> usize
    requires { IsStrictlySortedBy K.cmp (keys_of entries.now) }
    ensures { IsCutAt (is_past_end K.cmp high) entries.now result }
{
    match high {
        Bound::Included(key) => count_up_to(entries, key),
        Bound::Excluded(key) => count_below(entries, key),
        Bound::Unbounded => entries.len(),
    }
}

/// The entries between the bounds.
fn part_of<K: Ord + Copy + Drop, V: Copy + Drop>(
    entries: &[(K, V)],
    low: Bound<K>,
    high: Bound<K>,
) -> &[(K, V)]
    requires { IsStrictlySortedBy K.cmp (keys_of entries.now) }
    ensures { result.now ≡ entries_between K.cmp low high entries.now }
{
    let from = start_of(entries, low);
    // (mostly nothing stands so far behind)
    if from == entries.len() {
        return &[];
    }
    let to = end_of(entries, high);
    if from < to {
        return &entries[from..to];
    }
    &[]
}

/// Adds what is told of the entries that are chosen.
fn add_told<K: Copy + Drop, V: Copy + Drop, E: Drop, C: Choice<K, V, E>>(
    entries: &[(K, V)],
    choice: &C,
    out: &mut Vec<E>,
) -> Result<(), AllocError>
    ensures { OnOk result (out.new.items ≡ out.old.items ++ filter_map (λ e. C.tells choice.now e.0 e.1) entries.now) }
{
    for entry in entries {
        if let Some(told) = choice.told(entry.0, entry.1) {
            out.push(told)?;
        }
    }
    Ok(())
}

/// Adds what is told of the entries between the bounds that are chosen.
pub fn add_from<K: Ord + Copy + Drop, V: Copy + Drop, E: Drop, C: Choice<K, V, E>>(
    entries: &[(K, V)],
    low: Bound<K>,
    high: Bound<K>,
    choice: &C,
    out: &mut Vec<E>,
) -> Result<(), AllocError>
    requires { IsStrictlySortedBy K.cmp (keys_of entries.now) }
    ensures { OnOk result (out.new.items ≡ out.old.items ++ filter_map (λ e. C.tells choice.now e.0 e.1) (entries_between K.cmp low high entries.now)) }
{
    add_told(part_of(entries, low, high), choice, out)?;
    Ok(())
}

/// Adds what is told of the entries between the bounds that are chosen, if no more than so many stand there. Answers whether it does.
pub fn add_few_from<K: Ord + Copy + Drop, V: Copy + Drop, E: Drop, C: Choice<K, V, E>>(
    entries: &[(K, V)],
    low: Bound<K>,
    high: Bound<K>,
    choice: &C,
    most: usize,
    out: &mut Vec<E>,
) -> Result<bool, AllocError>
    requires { IsStrictlySortedBy K.cmp (keys_of entries.now) }
    ensures { IfOk result (λ few. out.new.items ≡ (if few then out.old.items ++ filter_map (λ e. C.tells choice.now e.0 e.1) (entries_between K.cmp low high entries.now) else out.old.items)) }
{
    let from = start_of(entries, low);
    let Some(to) = few_end(entries, from, high, most) else {
        return Ok(false);
    };
    add_told(&entries[from..to], choice, out)?;
    Ok(true)
}

/// The first place from that one on that is past the upper bound, if it is at most so many behind it. Mostly it is near, so that a walk
/// reads less than a search.
fn few_end<K: Ord + Copy + Drop, V: Copy + Drop>(
    entries: &[(K, V)],
    from: usize,
    high: Bound<K>,
    most: usize,
) -> Option<usize>
    requires { from ≤ length entries.now }
    ensures { IfSome result (IsEndFrom (is_past_end K.cmp high) entries.now from) }
{
    for to in from..entries.len() {
        if is_beyond(high, entries[to].0) {
            return Some(to);
        }
        if to - from >= most {
            return None;
        }
    }
    Some(entries.len())
}

/// Whether the key is past the upper bound.
fn is_beyond<K: Ord + Copy + Drop>(high: Bound<K>, key: K) -> bool
    ensures { result ≡ is_past_end K.cmp high key }
{
    match high {
        Bound::Included(bound) => bound.cmp(&key).is_lt(),
        Bound::Excluded(bound) => bound.cmp(&key).is_le(),
        Bound::Unbounded => false,
    }
}

/// The same of a tree.
pub fn add_few_from_tree<K: Ord + Copy + Drop, V: Copy + Drop, E: Drop, C: Choice<K, V, E>>(
    tree: &BTreeMap<K, V>,
    low: Bound<K>,
    high: Bound<K>,
    choice: &C,
    most: usize,
    out: &mut Vec<E>,
) -> Result<bool, AllocError>
    requires { IsForward (IsLeBy K.cmp) (IsLtBy K.cmp) low high }
    ensures { IfOk result (λ few. out.new.items ≡ (if few then out.old.items ++ filter_map (λ e. C.tells choice.now e.0 e.1) (entries_between K.cmp low high tree.now.entries) else out.old.items)) }
{
    if has_more(tree, low, high, most) {
        return Ok(false);
    }
    add_from_tree(tree, low, high, choice, out)?;
    Ok(true)
}

/// Whether more than so many entries stand between the bounds, of which no more are read.
fn has_more<K: Ord + Copy + Drop, V: Copy + Drop>(
    tree: &BTreeMap<K, V>,
    low: Bound<K>,
    high: Bound<K>,
    most: usize,
) -> bool
    requires { IsForward (IsLeBy K.cmp) (IsLtBy K.cmp) low high }
{
    let mut left = most;
    for _entry in tree.range((low, high)) {
        if left == 0 {
            return true;
        }
        left -= 1;
    }
    false
}

/// The same of a tree.
pub fn add_from_tree<K: Ord + Copy + Drop, V: Copy + Drop, E: Drop, C: Choice<K, V, E>>(
    tree: &BTreeMap<K, V>,
    low: Bound<K>,
    high: Bound<K>,
    choice: &C,
    out: &mut Vec<E>,
) -> Result<(), AllocError>
    requires { IsForward (IsLeBy K.cmp) (IsLtBy K.cmp) low high }
    ensures { OnOk result (out.new.items ≡ out.old.items ++ filter_map (λ e. C.tells choice.now e.0 e.1) (entries_between K.cmp low high tree.now.entries)) }
{
    for (key, value) in tree.range((low, high)) {
        if let Some(told) = choice.told(*key, *value) {
            out.push(told)?;
        }
    }
    Ok(())
}
