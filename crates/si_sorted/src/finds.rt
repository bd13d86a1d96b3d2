//! The entries whose values pass a test, looked for by a walk over all.

ghost use Rattle.std.specs.Prelude.{◌≡◌, None, Some, cond};
ghost use Rattle.std.specs.BTreeMap.Range.{IsLeBy, IsLtBy, entries_between};
ghost use Rattle.std.specs.List.{filter, find};
ghost use Rattle.std.specs.Option.{option_or};
ghost use Rattle.std.specs.Range.Bound.{IsForward};

use std::collections::BTreeMap;
use std::ops::Bound;

/// A test of values.
pub trait ValueTest<V> {
    ghost use Rattle.std.specs.Prelude.{◌≡◌, Bool};

    /// Whether a value passes.
    ghost passes: { Self → V → Bool };

    /// Whether the value passes.
    fn wants(&self, value: V) -> bool
        ensures { result ≡ passes self.now value };
}

/// The first of the entries whose value passes.
pub fn find_in<K: Copy + Drop, V: Copy + Drop, T: ValueTest<V>>(
    entries: &[(K, V)],
    test: &T,
) -> Option<(K, V)>
    ensures { result ≡ find (λ e. T.passes test.now e.1) entries.now }
{
    for entry in entries {
        if test.wants(entry.1) {
            return Some(*entry);
        }
    }
    None
}

/// The same of a tree.
pub fn find_in_tree<K: Ord + Copy + Drop, V: Copy + Drop, T: ValueTest<V>>(
    tree: &BTreeMap<K, V>,
    test: &T,
) -> Option<(K, V)>
    ensures { result ≡ find (λ e. T.passes test.now e.1) tree.now.entries }
{
    find_between(tree, Bound::Unbounded, Bound::Unbounded, test)
}

/// The first entry between the bounds whose value passes.
fn find_between<K: Ord + Copy + Drop, V: Copy + Drop, T: ValueTest<V>>(
    tree: &BTreeMap<K, V>,
    low: Bound<K>,
    high: Bound<K>,
    test: &T,
) -> Option<(K, V)>
    requires { IsForward (IsLeBy K.cmp) (IsLtBy K.cmp) low high }
    ensures { result ≡ find (λ e. T.passes test.now e.1) (entries_between K.cmp low high tree.now.entries) }
{
    let mut found = None;
    for (key, value) in tree.range((low, high)) {
        found = first_of(found, (*key, *value), test);
    }
    found
}

/// The entry that was found so far, or else the next one, where its value passes.
fn first_of<K: Copy + Drop, V: Copy + Drop, T: ValueTest<V>>(
    found: Option<(K, V)>,
    next: (K, V),
    test: &T,
) -> Option<(K, V)>
    ensures { result ≡ option_or found (cond (T.passes test.now next.1) (Some next) None) }
{
    if found.is_none() && test.wants(next.1) {
        return Some(next);
    }
    found
}

/// Keeps those of the entries alone whose values pass.
pub fn retain_in<K: Copy + Drop, V: Copy + Drop, T: ValueTest<V>>(
    entries: &mut Vec<(K, V)>,
    test: &T,
)
    ensures { entries.new.items ≡ filter (λ e. T.passes test.now e.1) entries.old.items }
{
    entries.retain(|entry| test.wants(entry.1));
}

/// The same of a tree.
pub fn retain_in_tree<K: Ord + Copy + Drop, V: Copy + Drop, T: ValueTest<V>>(
    tree: &mut BTreeMap<K, V>,
    test: &T,
)
    ensures { tree.new.entries ≡ filter (λ e. T.passes test.now e.1) tree.old.entries }
{
    tree.retain(|_key, value| test.wants(*value));
}
