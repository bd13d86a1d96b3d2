//! Entries in a tree.

ghost use Rattle.std.specs.Prelude.{◌≡◌, IfOk, if◌then◌else◌, is_some};
ghost use Rattle.std.specs.BTreeMap.{insert_entry, is_at};
ghost use Rattle.std.specs.List.Sorted.{IsStrictlySortedBy};
ghost use Rattle.std.specs.Map.{keys_of, lookup};
ghost use Rattle.si_sorted.specs.Entries.{IsFirstAbove, IsFirstFrom, IsLastBelow};

use std::alloc::{AllocError, Global};
use std::collections::BTreeMap;
use std::ops::Bound;

/// The same entries in a tree, and the value under the key.
pub fn tree_with<K: Ord + Copy + Drop, V: Copy + Drop>(
    alloc: Global,
    entries: &[(K, V)],
    key: K,
    value: V,
) -> Result<BTreeMap<K, V>, AllocError>
    requires { IsStrictlySortedBy K.cmp (keys_of entries.now) }
    ensures { IfOk result (λ tree. tree.entries ≡ insert_entry K.cmp entries.now key value) }
{
    let mut tree = tree_of(alloc, entries)?;
    tree.insert(key, value)?;
    Ok(tree)
}

/// The same entries in a tree.
pub fn tree_of<K: Ord + Copy + Drop, V: Copy + Drop>(
    alloc: Global,
    entries: &[(K, V)],
) -> Result<BTreeMap<K, V>, AllocError>
    requires { IsStrictlySortedBy K.cmp (keys_of entries.now) }
    ensures { IfOk result (λ tree. tree.entries ≡ entries.now) }
{
    let mut tree = BTreeMap::new(alloc);
    for entry in entries {
        tree.insert(entry.0, entry.1)?;
    }
    Ok(tree)
}

/// Puts the value in the place of the one that stands under the key, if one does, and answers that one.
pub fn replace_in_tree<K: Ord + Copy + Drop, V: Copy + Drop>(
    tree: &mut BTreeMap<K, V>,
    key: K,
    value: V,
) -> Option<V>
    ensures value { result ≡ lookup (is_at (K.cmp key)) tree.old.entries }
    ensures entries { tree.new.entries ≡ (if is_some result then insert_entry K.cmp tree.old.entries key value else tree.old.entries) }
{
    let was = *tree.get(&key)?;
    match tree.insert(key, value) {
        Ok(_) => Some(was),
        Err(_) => unreachable!(),
    }
}

/// The last entry below the key.
pub fn before_in<K: Ord + Copy + Drop, V: Copy + Drop>(
    tree: &BTreeMap<K, V>,
    key: K,
) -> Option<(K, V)>
    ensures { IsLastBelow K.cmp tree.now.entries key result }
{
    match tree.range(..key).next_back() {
        Some((key, value)) => Some((*key, *value)),
        None => None,
    }
}

/// The first entry at the key or above it.
pub fn from_in<K: Ord + Copy + Drop, V: Copy + Drop>(
    tree: &BTreeMap<K, V>,
    key: K,
) -> Option<(K, V)>
    ensures { IsFirstFrom K.cmp tree.now.entries key result }
{
    match tree.range(key..).next() {
        Some((key, value)) => Some((*key, *value)),
        None => None,
    }
}

/// The first entry above the key.
pub fn after_in<K: Ord + Copy + Drop, V: Copy + Drop>(
    tree: &BTreeMap<K, V>,
    key: K,
) -> Option<(K, V)>
    ensures { IsFirstAbove K.cmp tree.now.entries key result }
{
    let above = (Bound::Excluded(key), Bound::Unbounded);
    match tree.range(above).next() {
        Some((key, value)) => Some((*key, *value)),
        None => None,
    }
}
