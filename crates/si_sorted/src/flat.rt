//! Entries in a vector, in rising order of their keys.

ghost use Rattle.std.specs.Prelude.{◌≡◌, ◌≤◌, None, IsTrue, MatchResult, OnErr, OnOk, if◌then◌else◌, is_some, length};
ghost use Rattle.std.specs.BTreeMap.{insert_entry, is_at};
ghost use Rattle.std.specs.List.Sorted.{IsStrictlySortedBy};
ghost use Rattle.std.specs.Map.{keys_of, lookup, remove_entry};
ghost use Rattle.si_sorted.specs.Entries.{IsFirstAbove, IsFirstFrom, IsLastBelow, moved_by, moved_without};
ghost use Rattle.si_sorted.specs.Places.{IsAboveAllBefore, IsAboveNoneFrom, IsBelowAllFrom, IsBelowNoneBefore, IsGapFor, IsPlaceOf};

use std::alloc::AllocError;
use std::cmp::Ordering;

/// For so many entries there is room where there is any.
const LEAST_ROOM: usize = 4;

/// A search from the end looks so far before it first.
const FIRST_STEP: usize = 2;

/// Where the key is, or where it would go.
pub fn place_of<K: Ord + Copy + Drop, V: Copy + Drop>(
    entries: &[(K, V)],
    key: K,
) -> Result<usize, usize>
    requires { IsStrictlySortedBy K.cmp (keys_of entries.now) }
    ensures { MatchResult result (IsPlaceOf K.cmp entries.now key) (IsGapFor K.cmp entries.now key) }
{
    let len = entries.len();
    if len == 0 {
        return Err(0);
    }
    match key.cmp(&entries[len - 1].0) {
        Ordering::Greater => Err(len),
        Ordering::Equal => Ok(len - 1),
        Ordering::Less => searched_from(entries, key, near_end(entries, key)),
    }
}

/// A place that the key is greater than all before, looked for in steps from the end that double: most keys that are looked for are near
/// the end, and a search from the middle reads memory that other look-ups don't.
fn near_end<K: Ord + Copy + Drop, V: Copy + Drop>(entries: &[(K, V)], key: K) -> usize
    requires { IsStrictlySortedBy K.cmp (keys_of entries.now) }
    ensures bound { result ≤ length entries.now }
    ensures above { IsAboveAllBefore K.cmp entries.now key result }
{
    let len = entries.len();
    let mut low = len.saturating_sub(FIRST_STEP);
    while low > 0 {
        if !key.cmp(&entries[low].0).is_lt() {
            return low;
        }
        low = low.saturating_sub(len - low);
    }
    0
}

/// Where the key is, or where it would go, if it is greater than all before the place `low`.
fn searched_from<K: Ord + Copy + Drop, V: Copy + Drop>(
    entries: &[(K, V)],
    key: K,
    low: usize,
) -> Result<usize, usize>
    requires bound { low ≤ length entries.now }
    requires rising { IsStrictlySortedBy K.cmp (keys_of entries.now) }
    requires above { IsAboveAllBefore K.cmp entries.now key low }
    ensures { MatchResult result (IsPlaceOf K.cmp entries.now key) (IsGapFor K.cmp entries.now key) }
{
    match searched(&entries[low..], key) {
        Ok(place) => Ok(low + place),
        Err(place) => Err(low + place),
    }
}

/// Where the key stands, or where it would.
fn searched<K: Ord + Copy + Drop, V: Copy + Drop>(
    entries: &[(K, V)],
    key: K,
) -> Result<usize, usize>
    requires { IsStrictlySortedBy K.cmp (keys_of entries.now) }
    ensures { MatchResult result (IsPlaceOf K.cmp entries.now key) (IsGapFor K.cmp entries.now key) }
{
    entries.binary_search_by_key(&key, |entry| entry.0)
}

/// How many entries would move if one came with the key.
#[tactic(auto, using(crate::proofs::Moves::moved_at_gap))]
pub fn moved_by<K: Ord + Copy + Drop, V: Copy + Drop>(entries: &[(K, V)], key: K) -> usize
    requires { IsStrictlySortedBy K.cmp (keys_of entries.now) }
    ensures { result ≡ moved_by K.cmp entries.now key }
{
    match place_of(entries, key) {
        Ok(_) => 0,
        Err(place) => entries.len() - place,
    }
}

/// How many entries would move if the key's went.
#[tactic(auto, using(crate::proofs::Moves::moved_at_place))]
pub fn moved_without<K: Ord + Copy + Drop, V: Copy + Drop>(entries: &[(K, V)], key: K) -> usize
    requires { IsStrictlySortedBy K.cmp (keys_of entries.now) }
    ensures { result ≡ moved_without K.cmp entries.now key }
{
    match place_of(entries, key) {
        Ok(place) => entries.len() - place - 1,
        Err(_) => 0,
    }
}

/// Puts the value under the key.
pub fn insert_in<K: Ord + Copy + Drop, V: Copy + Drop>(
    entries: &mut Vec<(K, V)>,
    key: K,
    value: V,
) -> Result<(), AllocError>
    requires { IsStrictlySortedBy K.cmp (keys_of entries.old.items) }
    ensures ok { OnOk result (entries.new.items ≡ insert_entry K.cmp entries.old.items key value) }
    ensures err { OnErr result (entries.new.items ≡ entries.old.items) }
    ensures rising { IsStrictlySortedBy K.cmp (keys_of entries.new.items) }
{
    make_room(entries)?;
    let place = place_of(entries.as_slice(), key);
    put_at(entries, place, key, value)
}

/// Whether the key is greater than all.
pub fn is_past<K: Ord + Copy + Drop, V: Copy + Drop>(entries: &[(K, V)], key: K) -> bool
    requires { IsStrictlySortedBy K.cmp (keys_of entries.now) }
    ensures past { IsTrue result → IsGapFor K.cmp entries.now key (length entries.now) }
    ensures none { IsTrue result → moved_by K.cmp entries.now key ≡ 0 }
{
    let len = entries.len();
    if len == 0 {
        return true;
    }
    key.cmp(&entries[len - 1].0).is_gt()
}

/// Puts the value under the key, which is greater than all.
pub fn push_in<K: Ord + Copy + Drop, V: Copy + Drop>(
    entries: &mut Vec<(K, V)>,
    key: K,
    value: V,
) -> Result<(), AllocError>
    requires rising { IsStrictlySortedBy K.cmp (keys_of entries.old.items) }
    requires past { IsGapFor K.cmp entries.old.items key (length entries.old.items) }
    ensures ok { OnOk result (entries.new.items ≡ insert_entry K.cmp entries.old.items key value) }
    ensures err { OnErr result (entries.new.items ≡ entries.old.items) }
    ensures rising { IsStrictlySortedBy K.cmp (keys_of entries.new.items) }
{
    make_room(entries)?;
    Ok(entries.push((key, value))?)
}

/// Puts the value under the key, which is at that place, or would go there.
fn put_at<K: Ord + Copy + Drop, V: Copy + Drop>(
    entries: &mut Vec<(K, V)>,
    place: Result<usize, usize>,
    key: K,
    value: V,
) -> Result<(), AllocError>
    requires rising { IsStrictlySortedBy K.cmp (keys_of entries.old.items) }
    requires place { MatchResult place (IsPlaceOf K.cmp entries.old.items key) (IsGapFor K.cmp entries.old.items key) }
    ensures ok { OnOk result (entries.new.items ≡ insert_entry K.cmp entries.old.items key value) }
    ensures err { OnErr result (entries.new.items ≡ entries.old.items) }
    ensures rising { IsStrictlySortedBy K.cmp (keys_of entries.new.items) }
{
    match place {
        Ok(place) => {
            entries[place] = (entries[place].0, value);
            Ok(())
        }
        Err(place) => Ok(entries.insert(place, (key, value))?),
    }
}

/// Makes room for one more entry where there is none, and then for a quarter as many as there are: maps stand in great numbers, so what
/// they have room for counts.
fn make_room<K: Ord + Copy + Drop, V: Copy + Drop>(
    entries: &mut Vec<(K, V)>,
) -> Result<(), AllocError>
    ensures { entries.new.items ≡ entries.old.items }
{
    let count = entries.len();
    if count < entries.capacity() {
        return Ok(());
    }
    entries.reserve_exact(count / 4 + LEAST_ROOM)
}

/// Takes the value out that stands under the key, if one does.
pub fn remove_from<K: Ord + Copy + Drop, V: Copy + Drop>(
    entries: &mut Vec<(K, V)>,
    key: K,
) -> Option<V>
    requires { IsStrictlySortedBy K.cmp (keys_of entries.old.items) }
    ensures value { result ≡ lookup (is_at (K.cmp key)) entries.old.items }
    ensures entries { entries.new.items ≡ remove_entry (is_at (K.cmp key)) entries.old.items }
    ensures gone { lookup (is_at (K.cmp key)) entries.new.items ≡ None }
    ensures rising { IsStrictlySortedBy K.cmp (keys_of entries.new.items) }
{
    match place_of(entries.as_slice(), key) {
        Ok(place) => Some(entries.remove(place).1),
        Err(_) => None,
    }
}

/// Puts the value in the place of the one that stands under the key, if one does, and answers that one.
pub fn replace_in<K: Ord + Copy + Drop, V: Copy + Drop>(
    entries: &mut Vec<(K, V)>,
    key: K,
    value: V,
) -> Option<V>
    requires { IsStrictlySortedBy K.cmp (keys_of entries.old.items) }
    ensures value { result ≡ lookup (is_at (K.cmp key)) entries.old.items }
    ensures entries { entries.new.items ≡ (if is_some result then insert_entry K.cmp entries.old.items key value else entries.old.items) }
{
    match place_of(entries.as_slice(), key) {
        Ok(place) => {
            let (there, was) = entries[place];
            entries[place] = (there, value);
            Some(was)
        }
        Err(_) => None,
    }
}

/// The value under the key, if one stands there.
pub fn value_in<K: Ord + Copy + Drop, V: Copy + Drop>(entries: &[(K, V)], key: K) -> Option<V>
    requires { IsStrictlySortedBy K.cmp (keys_of entries.now) }
    ensures { result ≡ lookup (is_at (K.cmp key)) entries.now }
{
    match place_of(entries, key) {
        Ok(place) => Some(entries[place].1),
        Err(_) => None,
    }
}

/// How many keys are less.
pub fn count_below<K: Ord + Copy + Drop, V: Copy + Drop>(entries: &[(K, V)], key: K) -> usize
    requires { IsStrictlySortedBy K.cmp (keys_of entries.now) }
    ensures bound { result ≤ length entries.now }
    ensures above { IsAboveAllBefore K.cmp entries.now key result }
    ensures none { IsAboveNoneFrom K.cmp entries.now key result }
{
    match place_of(entries, key) {
        Ok(place) => place,
        Err(place) => place,
    }
}

/// How many keys are less or the same.
pub fn count_up_to<K: Ord + Copy + Drop, V: Copy + Drop>(entries: &[(K, V)], key: K) -> usize
    requires { IsStrictlySortedBy K.cmp (keys_of entries.now) }
    ensures bound { result ≤ length entries.now }
    ensures none { IsBelowNoneBefore K.cmp entries.now key result }
    ensures below { IsBelowAllFrom K.cmp entries.now key result }
{
    match place_of(entries, key) {
        Ok(place) => place + 1,
        Err(place) => place,
    }
}

/// The last entry below the key.
pub fn entry_before<K: Ord + Copy + Drop, V: Copy + Drop>(
    entries: &[(K, V)],
    key: K,
) -> Option<(K, V)>
    requires { IsStrictlySortedBy K.cmp (keys_of entries.now) }
    ensures { IsLastBelow K.cmp entries.now key result }
{
    let count = count_below(entries, key);
    if count == 0 {
        return None;
    }
    Some(entries[count - 1])
}

/// The first entry at the key or above it.
pub fn entry_from<K: Ord + Copy + Drop, V: Copy + Drop>(
    entries: &[(K, V)],
    key: K,
) -> Option<(K, V)>
    requires { IsStrictlySortedBy K.cmp (keys_of entries.now) }
    ensures { IsFirstFrom K.cmp entries.now key result }
{
    let place = count_below(entries, key);
    if place == entries.len() {
        return None;
    }
    Some(entries[place])
}

/// The first entry above the key.
pub fn entry_after<K: Ord + Copy + Drop, V: Copy + Drop>(
    entries: &[(K, V)],
    key: K,
) -> Option<(K, V)>
    requires { IsStrictlySortedBy K.cmp (keys_of entries.now) }
    ensures { IsFirstAbove K.cmp entries.now key result }
{
    let count = count_up_to(entries, key);
    if count < entries.len() {
        return Some(entries[count]);
    }
    None
}
