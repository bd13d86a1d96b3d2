//! The two forms that a map has.

ghost use Rattle.std.specs.Prelude.{◌≡◌, ◌<◌, ◌≤◌, ◌++◌, ◌-◌, None, IfNone, IfOk, IfSome, OnErr, OnOk, if◌then◌else◌, is_some, length, slice_get};
ghost use Rattle.std.specs.BTreeMap.{insert_entry, is_at};
ghost use Rattle.std.specs.BTreeMap.Range.{IsLeBy, IsLtBy, entries_between};
ghost use Rattle.std.specs.List.{filter, filter_map, find};
ghost use Rattle.std.specs.Range.Bound.{IsForward};
ghost use Rattle.std.specs.List.Sorted.{IsStrictlySortedBy};
ghost use Rattle.std.specs.Map.{keys_of, lookup, remove_entry};
ghost use Rattle.si_sorted.specs.Entries.{IsFirstAbove, IsFirstFrom, IsLastBelow};
ghost use Rattle.si_sorted.specs.Forms.{MovesAtMost, StaysTree, entries_in, moved_by_one, moved_without_one};

use crate::finds::{ValueTest, find_in, find_in_tree, retain_in, retain_in_tree};
use crate::flat::{
    entry_after, entry_before, entry_from, insert_in, is_past, moved_by, moved_without, push_in,
    remove_from, replace_in, value_in,
};
use crate::runs::{Choice, add_few_from, add_few_from_tree, add_from, add_from_tree};
use crate::trees::{after_in, before_in, from_in, replace_in_tree, tree_of, tree_with};
use std::alloc::{AllocError, Global};
use std::collections::BTreeMap;
use std::ops::Bound;

/// Where an entry that comes or goes would move more others than this, all go into a tree, so that no order of keys, however
/// chosen, makes a change cost more. The clauses below name the number itself, so that it is this one.
pub const MOST_MOVED: usize = 256;

/// The entries side by side, or in a tree once an entry would have moved too many others. It stays a tree.
#[derive(Drop)]
pub enum Form<K: Ord, V> {
    Flat(Vec<(K, V)>),
    Tree(BTreeMap<K, V>),
}

impl<K: Ord + Copy + Drop, V: Copy + Drop> Form<K, V> {
    /// Where the entries stay side by side, at most 256 of them move.
    #[tactic(auto, using(crate::proofs::Moves::few_move))]
    pub fn insert(&mut self, alloc: Global, key: K, value: V) -> Result<(), AllocError>
        requires { IsStrictlySortedBy K.cmp (keys_of (entries_in self.old)) }
        ensures ok { OnOk result (entries_in self.new ≡ insert_entry K.cmp (entries_in self.old) key value) }
        ensures err { OnErr result (entries_in self.new ≡ entries_in self.old) }
        ensures moved { OnOk result (MovesAtMost 256 self.old self.new) }
        ensures tree { StaysTree self.old self.new }
        ensures rising { IsStrictlySortedBy K.cmp (keys_of (entries_in self.new)) }
    {
        if let Form::Flat(entries) = self {
            if is_past(entries.as_slice(), key) {
                return push_in(entries, key, value);
            }
        }
        if let Some(tree) = self.grown(alloc, key, value)? {
            *self = Form::Tree(tree);
            return Ok(());
        }
        match self {
            Form::Flat(entries) => insert_in(entries, key, value),
            Form::Tree(tree) => {
                tree.insert(key, value)?;
                Ok(())
            }
        }
    }

    /// The tree that takes the place of a vector in which the entry would move too many others.
    fn grown(&self, alloc: Global, key: K, value: V) -> Result<Option<BTreeMap<K, V>>, AllocError>
        requires { IsStrictlySortedBy K.cmp (keys_of (entries_in self.now)) }
        ensures entries { IfOk result (λ grown. IfSome grown (λ tree. tree.entries ≡ insert_entry K.cmp (entries_in self.now) key value)) }
        ensures many { IfOk result (λ grown. IfSome grown (λ _. 256 < moved_by_one K.cmp self.now key)) }
        ensures few { IfOk result (λ grown. IfNone grown (moved_by_one K.cmp self.now key ≤ 256)) }
    {
        match self {
            Form::Flat(entries) if entries.len() > MOST_MOVED => {
                if moved_by(entries.as_slice(), key) <= MOST_MOVED {
                    return Ok(None);
                }
                Ok(Some(tree_with(alloc, entries.as_slice(), key, value)?))
            }
            _ => Ok(None),
        }
    }

    /// Where memory is refused for the tree that the entries should go into, they stay side by side, and more of them move.
    pub fn remove(&mut self, alloc: Global, key: K) -> Option<V>
        requires { IsStrictlySortedBy K.cmp (keys_of (entries_in self.old)) }
        ensures value { result ≡ lookup (is_at (K.cmp key)) (entries_in self.old) }
        ensures entries { entries_in self.new ≡ remove_entry (is_at (K.cmp key)) (entries_in self.old) }
        ensures gone { lookup (is_at (K.cmp key)) (entries_in self.new) ≡ None }
        ensures tree { StaysTree self.old self.new }
        ensures rising { IsStrictlySortedBy K.cmp (keys_of (entries_in self.new)) }
    {
        if let Ok(Some(tree)) = self.tree_to_remove_from(alloc, key) {
            *self = Form::Tree(tree);
        }
        match self {
            Form::Flat(entries) => remove_from(entries, key),
            Form::Tree(tree) => tree.remove(&key),
        }
    }

    /// The tree that takes the place of a vector in which too many would move if the key's entry went.
    fn tree_to_remove_from(
        &self,
        alloc: Global,
        key: K,
    ) -> Result<Option<BTreeMap<K, V>>, AllocError>
        requires { IsStrictlySortedBy K.cmp (keys_of (entries_in self.now)) }
        ensures entries { IfOk result (λ made. IfSome made (λ tree. tree.entries ≡ entries_in self.now)) }
        ensures many { IfOk result (λ made. IfSome made (λ _. 256 < moved_without_one K.cmp self.now key)) }
        ensures few { IfOk result (λ made. IfNone made (moved_without_one K.cmp self.now key ≤ 256)) }
    {
        match self {
            Form::Flat(entries) if entries.len() > MOST_MOVED => {
                if moved_without(entries.as_slice(), key) <= MOST_MOVED {
                    return Ok(None);
                }
                Ok(Some(tree_of(alloc, entries.as_slice())?))
            }
            _ => Ok(None),
        }
    }

    /// Puts the value in the place of the one at the key, if one stands there, and answers that one.
    pub fn replace(&mut self, key: K, value: V) -> Option<V>
        requires { IsStrictlySortedBy K.cmp (keys_of (entries_in self.old)) }
        ensures value { result ≡ lookup (is_at (K.cmp key)) (entries_in self.old) }
        ensures entries { entries_in self.new ≡ (if is_some result then insert_entry K.cmp (entries_in self.old) key value else entries_in self.old) }
        ensures tree { StaysTree self.old self.new }
    {
        match self {
            Form::Flat(entries) => replace_in(entries, key, value),
            Form::Tree(tree) => replace_in_tree(tree, key, value),
        }
    }

    /// Keeps the entries alone whose values pass.
    pub fn retain<T: ValueTest<V>>(&mut self, test: &T)
        requires { IsStrictlySortedBy K.cmp (keys_of (entries_in self.old)) }
        ensures entries { entries_in self.new ≡ filter (λ e. T.passes test.now e.1) (entries_in self.old) }
        ensures tree { StaysTree self.old self.new }
        ensures rising { IsStrictlySortedBy K.cmp (keys_of (entries_in self.new)) }
    {
        match self {
            Form::Flat(entries) => retain_in(entries, test),
            Form::Tree(tree) => retain_in_tree(tree, test),
        }
    }

    /// What stands at the key.
    pub fn get(&self, key: K) -> Option<V>
        requires { IsStrictlySortedBy K.cmp (keys_of (entries_in self.now)) }
        ensures { result ≡ lookup (is_at (K.cmp key)) (entries_in self.now) }
    {
        match self {
            Form::Flat(entries) => value_in(entries.as_slice(), key),
            Form::Tree(tree) => match tree.get(&key) {
                Some(value) => Some(*value),
                None => None,
            },
        }
    }

    /// The entry with the greatest key below this one.
    pub fn below(&self, key: K) -> Option<(K, V)>
        requires { IsStrictlySortedBy K.cmp (keys_of (entries_in self.now)) }
        ensures { IsLastBelow K.cmp (entries_in self.now) key result }
    {
        match self {
            Form::Flat(entries) => entry_before(entries.as_slice(), key),
            Form::Tree(tree) => before_in(tree, key),
        }
    }

    /// The entry with the least key above this one.
    pub fn above(&self, key: K) -> Option<(K, V)>
        requires { IsStrictlySortedBy K.cmp (keys_of (entries_in self.now)) }
        ensures { IsFirstAbove K.cmp (entries_in self.now) key result }
    {
        match self {
            Form::Flat(entries) => entry_after(entries.as_slice(), key),
            Form::Tree(tree) => after_in(tree, key),
        }
    }

    /// The entry with the least key that isn't below this one.
    pub fn from(&self, key: K) -> Option<(K, V)>
        requires { IsStrictlySortedBy K.cmp (keys_of (entries_in self.now)) }
        ensures { IsFirstFrom K.cmp (entries_in self.now) key result }
    {
        match self {
            Form::Flat(entries) => entry_from(entries.as_slice(), key),
            Form::Tree(tree) => from_in(tree, key),
        }
    }

    /// Adds an entry where its neighbours let it, as the chooser says.
    pub fn add_between<E: Drop, C: Choice<K, V, E>>(
        &self,
        low: Bound<K>,
        high: Bound<K>,
        choice: &C,
        out: &mut Vec<E>,
    ) -> Result<(), AllocError>
        requires rising { IsStrictlySortedBy K.cmp (keys_of (entries_in self.now)) }
        requires forward { IsForward (IsLeBy K.cmp) (IsLtBy K.cmp) low high }
        ensures { OnOk result (out.new.items ≡ out.old.items ++ filter_map (λ e. C.tells choice.now e.0 e.1) (entries_between K.cmp low high (entries_in self.now))) }
    {
        match self {
            Form::Flat(entries) => add_from(entries.as_slice(), low, high, choice, out),
            Form::Tree(tree) => add_from_tree(tree, low, high, choice, out),
        }
    }

    /// The same where no more than so many entries stand between the bounds. Answers whether it is so.
    pub fn add_few_between<E: Drop, C: Choice<K, V, E>>(
        &self,
        low: Bound<K>,
        high: Bound<K>,
        choice: &C,
        most: usize,
        out: &mut Vec<E>,
    ) -> Result<bool, AllocError>
        requires rising { IsStrictlySortedBy K.cmp (keys_of (entries_in self.now)) }
        requires forward { IsForward (IsLeBy K.cmp) (IsLtBy K.cmp) low high }
        ensures { IfOk result (λ few. out.new.items ≡ (if few then out.old.items ++ filter_map (λ e. C.tells choice.now e.0 e.1) (entries_between K.cmp low high (entries_in self.now)) else out.old.items)) }
    {
        match self {
            Form::Flat(entries) => add_few_from(entries.as_slice(), low, high, choice, most, out),
            Form::Tree(tree) => add_few_from_tree(tree, low, high, choice, most, out),
        }
    }

    /// The entries, where they stand side by side.
    pub fn as_flat(&self) -> Option<&[(K, V)]>
        ensures { IfSome result (λ flat. flat.now ≡ entries_in self.now) }
    {
        match self {
            Form::Flat(entries) => Some(entries.as_slice()),
            Form::Tree(_) => None,
        }
    }

    /// The first entry whose value passes the test.
    pub fn find<T: ValueTest<V>>(&self, test: &T) -> Option<(K, V)>
        ensures { result ≡ find (λ e. T.passes test.now e.1) (entries_in self.now) }
    {
        match self {
            Form::Flat(entries) => find_in(entries.as_slice(), test),
            Form::Tree(tree) => find_in_tree(tree, test),
        }
    }

    /// The entry with the greatest key.
    pub fn last(&self) -> Option<(K, V)>
        ensures { result ≡ slice_get (entries_in self.now) (length (entries_in self.now) - 1) }
    {
        match self {
            Form::Flat(entries) => match entries.last() {
                Some(entry) => Some(*entry),
                None => None,
            },
            Form::Tree(tree) => match tree.last_key_value() {
                Some((key, value)) => Some((*key, *value)),
                None => None,
            },
        }
    }

    /// How many entries there are.
    pub fn len(&self) -> usize
        ensures { result ≡ length (entries_in self.now) }
    {
        match self {
            Form::Flat(entries) => entries.len(),
            Form::Tree(tree) => tree.len(),
        }
    }
}
