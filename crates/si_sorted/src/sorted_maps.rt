//! A map in the order of its keys.

ghost use Rattle.std.specs.Prelude.{◌≡◌, ◌++◌, ◌-◌, [], None, Some, IfOk, IfSome, IsTrue, OnErr, OnOk, ◌↔◌, if◌then◌else◌, is_some, length, slice_get};
ghost use Rattle.std.specs.BTreeMap.{insert_entry, is_at};
ghost use Rattle.std.specs.BTreeMap.Range.{IsLeBy, IsLtBy, entries_between};
ghost use Rattle.std.specs.List.{filter, filter_map, find};
ghost use Rattle.std.specs.Range.Bound.{IsForward};
ghost use Rattle.std.specs.List.Sorted.{IsStrictlySortedBy};
ghost use Rattle.std.specs.Map.{keys_of, remove_entry};
ghost use Rattle.si_sorted.specs.Entries.{IsFirstAbove, IsFirstFrom, IsLastBelow, Sets, value_at};
ghost use Rattle.si_sorted.specs.Forms.{entries_in};

use crate::finds::ValueTest;
use crate::forms::Form;
use crate::runs::Choice;
use std::alloc::{AllocError, Global};
use std::marker::Model;
use std::ops::Bound;

/// A map in the order of its keys.
///
/// Contracts see the list of its entries, in rising order of the keys.
#[derive(Drop)]
pub struct SortedMap<K: Ord, V> {
    alloc: Global,
    form: Form<K, V>,
}

impl<K: Ord, V> Model for SortedMap<K, V> {
    ghost use Rattle.std.specs.Prelude.{List};
    ghost use Rattle.std.specs.List.Sorted.{IsStrictlySortedBy};
    ghost use Rattle.std.specs.Map.{keys_of};
    ghost use Rattle.si_sorted.specs.Forms.{entries_in};

    ghost Value = { List (K × V) };

    ghost view = { λ m. entries_in m.form };

    ghost invariant = { λ m. IsStrictlySortedBy K.cmp (keys_of (entries_in m.form)) };
}

impl<K: Ord + Copy + Drop, V: Copy + Drop> SortedMap<K, V> {
    /// No entry. It takes no memory.
    pub fn new(alloc: Global) -> Self
        ensures { result ≡ [] }
    {
        SortedMap {
            alloc,
            form: Form::Flat(Vec::new(alloc)),
        }
    }

    /// Puts the value under the key. One that stood there is replaced.
    ///
    /// Where the growth of some memory is refused nothing has changed.
    pub fn insert(&mut self, key: K, value: V) -> Result<(), AllocError>
        ensures ok { OnOk result (self.new ≡ insert_entry K.cmp self.old key value) }
        ensures sets { OnOk result (Sets K.cmp key (Some value) self.old self.new) }
        ensures err { OnErr result (self.new ≡ self.old) }
        ensures rising { IsStrictlySortedBy K.cmp (keys_of self.new) }
    {
        self.form.insert(self.alloc, key, value)?;
        Ok(())
    }

    /// Takes the value out that stands under the key, if one does.
    pub fn remove(&mut self, key: K) -> Option<V>
        ensures value { result ≡ value_at K.cmp self.old key }
        ensures entries { self.new ≡ remove_entry (is_at (K.cmp key)) self.old }
        ensures sets { Sets K.cmp key None self.old self.new }
        ensures gone { value_at K.cmp self.new key ≡ None }
        ensures rising { IsStrictlySortedBy K.cmp (keys_of self.new) }
    {
        self.form.remove(self.alloc, key)
    }

    /// Puts the value in the place of the one that stands under the key, if one does, and answers that one. It takes no memory.
    pub fn replace(&mut self, key: K, value: V) -> Option<V>
        ensures value { result ≡ value_at K.cmp self.old key }
        ensures entries { self.new ≡ (if is_some result then insert_entry K.cmp self.old key value else self.old) }
        ensures rising { IsStrictlySortedBy K.cmp (keys_of self.new) }
        ensures was_rising { IsStrictlySortedBy K.cmp (keys_of self.old) }
    {
        self.form.replace(key, value)
    }

    /// Keeps the entries alone whose values pass the test. They keep their memory.
    pub fn retain<T: ValueTest<V>>(&mut self, test: &T)
        ensures entries { self.new ≡ filter (λ e. T.passes test.now e.1) self.old }
        ensures rising { IsStrictlySortedBy K.cmp (keys_of self.new) }
    {
        self.form.retain(test);
    }

    /// The value under the key, if one stands there.
    pub fn get(&self, key: K) -> Option<V>
        ensures value { result ≡ value_at K.cmp self.now key }
        ensures rising { IsStrictlySortedBy K.cmp (keys_of self.now) }
    {
        self.form.get(key)
    }

    /// The last entry below the key.
    pub fn below(&self, key: K) -> Option<(K, V)>
        ensures nearest { IsLastBelow K.cmp self.now key result }
        ensures rising { IsStrictlySortedBy K.cmp (keys_of self.now) }
    {
        self.form.below(key)
    }

    /// The first entry above the key.
    pub fn above(&self, key: K) -> Option<(K, V)>
        ensures nearest { IsFirstAbove K.cmp self.now key result }
        ensures rising { IsStrictlySortedBy K.cmp (keys_of self.now) }
    {
        self.form.above(key)
    }

    /// The first entry at the key or above it.
    pub fn from(&self, key: K) -> Option<(K, V)>
        ensures nearest { IsFirstFrom K.cmp self.now key result }
        ensures rising { IsStrictlySortedBy K.cmp (keys_of self.now) }
    {
        self.form.from(key)
    }

    /// Adds what is told of the entries between the bounds that are chosen, in order. The lower bound is not above the upper one.
    ///
    /// Where the growth of some memory is refused a part of them may have been added.
    pub fn add_between<E: Drop, C: Choice<K, V, E>>(
        &self,
        low: Bound<K>,
        high: Bound<K>,
        choice: &C,
        out: &mut Vec<E>,
    ) -> Result<(), AllocError>
        requires { IsForward (IsLeBy K.cmp) (IsLtBy K.cmp) low high }
        ensures { OnOk result (out.new.items ≡ out.old.items ++ filter_map (λ e. C.tells choice.now e.0 e.1) (entries_between K.cmp low high self.now)) }
    {
        self.form.add_between(low, high, choice, out)?;
        Ok(())
    }

    /// The same where no more than so many entries stand between the bounds, else nothing. Answers whether it is so.
    pub fn add_few_between<E: Drop, C: Choice<K, V, E>>(
        &self,
        low: Bound<K>,
        high: Bound<K>,
        choice: &C,
        most: usize,
        out: &mut Vec<E>,
    ) -> Result<bool, AllocError>
        requires { IsForward (IsLeBy K.cmp) (IsLtBy K.cmp) low high }
        ensures { IfOk result (λ few. out.new.items ≡ (if few then out.old.items ++ filter_map (λ e. C.tells choice.now e.0 e.1) (entries_between K.cmp low high self.now) else out.old.items)) }
    {
        let few = self.form.add_few_between(low, high, choice, most, out)?;
        Ok(few)
    }

    /// The entries in rising order of their keys, where they stand side by side.
    pub fn as_flat(&self) -> Option<&[(K, V)]>
        ensures { IfSome result (λ flat. flat.now ≡ self.now) }
    {
        self.form.as_flat()
    }

    /// The first entry whose value passes the test, looked for by a walk over all.
    pub fn find<T: ValueTest<V>>(&self, test: &T) -> Option<(K, V)>
        ensures { result ≡ find (λ e. T.passes test.now e.1) self.now }
    {
        self.form.find(test)
    }

    /// The entry with the greatest key.
    pub fn last(&self) -> Option<(K, V)>
        ensures { result ≡ slice_get self.now (length self.now - 1) }
    {
        self.form.last()
    }

    /// How many entries there are.
    pub fn len(&self) -> usize
        ensures count { result ≡ length self.now }
        ensures rising { IsStrictlySortedBy K.cmp (keys_of self.now) }
    {
        self.form.len()
    }

    /// Whether there is no entry.
    pub fn is_empty(&self) -> bool
        ensures { IsTrue result ↔ (self.now ≡ []) }
    {
        self.form.len() == 0
    }
}
