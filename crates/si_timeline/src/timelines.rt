//! The versions of one key in the order of their commits, and the neighbours of a stamp among them.

ghost use Rattle.std.specs.Prelude.{◌≡◌, ◌==◌, ◌-◌, ◌++◌, [], length, slice_get, IfSome, OnOk, OnErr};
ghost use Rattle.std.specs.List.{find};
ghost use Rattle.std.specs.Option.{MatchOption};
ghost use Rattle.si_model.specs.Operations.{same_value};
ghost use Rattle.si_timeline.specs.Timelines.{Adds, Has, IsAt, IsNearestAfter, IsNearestBefore, IsRising, Lacks};

use crate::Version;
use si_model::{OutOfMemory, Stamp, Value};
use si_sorted::{Choice, SortedMap, ValueTest};
use std::alloc::Global;
use std::marker::Model;
use std::ops::Bound;

/// The versions of one key.
///
/// Contracts see the list of pairs of a commit stamp and the version that was installed then, in rising order of the stamps.
#[derive(Drop)]
pub struct Timeline {
    // Under the commit stamp.
    versions: SortedMap<Stamp, Version>,
}

impl Model for Timeline {
    ghost use Rattle.std.specs.Prelude.{List};
    ghost use Rattle.si_timeline.specs.Timelines.{Dated};

    ghost Value = { List Dated };

    ghost view = { λ t. t.versions };
}

/// The versions of a value.
#[derive(Clone, Copy, Debug)]
struct OfValue {
    value: Value,
}

impl ValueTest<Version> for OfValue {
    ghost use Rattle.si_model.specs.Operations.{same_value};

    ghost passes = { λ w version. same_value version.value w.value };

    fn wants(&self, version: Version) -> bool {
        version.value == self.value
    }
}

/// Every version.
#[derive(Clone, Copy, Debug)]
struct Every;

impl Choice<Stamp, Version, (Stamp, Version)> for Every {
    ghost use Rattle.std.specs.Prelude.{Some};

    ghost tells = { λ _ commit version. Some (commit, version) };

    fn told(&self, commit: Stamp, version: Version) -> Option<(Stamp, Version)> {
        Some((commit, version))
    }
}

impl Timeline {
    /// No version.
    pub fn new(alloc: Global) -> Self
        ensures { result ≡ [] }
    {
        Timeline {
            versions: SortedMap::new(alloc),
        }
    }

    /// Puts a version in its place.
    ///
    /// If memory is refused, nothing changes.
    pub fn insert(&mut self, commit: Stamp, version: Version) -> Result<(), OutOfMemory>
        requires { Lacks self.old commit }
        ensures ok { OnOk result (Adds commit version self.old self.new) }
        ensures err { OnErr result (self.new ≡ self.old) }
        ensures rising { IsRising self.new }
    {
        self.versions.insert(commit, version)?;
        Ok(())
    }

    /// Takes the version of that commit stamp out.
    pub fn remove(&mut self, commit: Stamp) -> Version
        requires { Has self.old commit }
        ensures removed { Adds commit result self.new self.old }
        ensures gone { Lacks self.new commit }
        ensures rising { IsRising self.new }
    {
        match self.versions.remove(commit) {
            Some(version) => version,
            None => unreachable!(),
        }
    }

    /// The nearest version that was installed before the stamp.
    pub fn before(&self, stamp: Stamp) -> Option<(Stamp, Version)>
        ensures nearest { IsNearestBefore self.now stamp result }
        ensures rising { IsRising self.now }
    {
        self.versions.below(stamp)
    }

    /// The nearest version that was installed after the stamp.
    pub fn after(&self, stamp: Stamp) -> Option<(Stamp, Version)>
        ensures nearest { IsNearestAfter self.now stamp result }
        ensures rising { IsRising self.now }
    {
        self.versions.above(stamp)
    }

    /// The version of that commit stamp.
    pub fn at(&self, commit: Stamp) -> Option<Version>
        ensures { MatchOption result (Lacks self.now commit) (λ version. IsAt self.now commit version) }
    {
        self.versions.get(commit)
    }

    /// The first version that has the value, looked for by a walk over all.
    pub fn of_value(&self, value: Value) -> Option<(Stamp, Version)>
        ensures { result ≡ find (λ d. same_value d.1.value value) self.now }
    {
        self.versions.find(&OfValue { value })
    }

    /// The versions in the order of their commits, where they stand side by side.
    pub fn as_flat(&self) -> Option<&[(Stamp, Version)]>
        ensures flat { IfSome result (λ flat. flat.now ≡ self.now) }
        ensures rising { IsRising self.now }
    {
        let _rising = self.versions.len();
        self.versions.as_flat()
    }

    /// Adds all versions, in their order.
    ///
    /// Where memory is refused a part of them may have been added.
    pub fn add_all(&self, out: &mut Vec<(Stamp, Version)>) -> Result<(), OutOfMemory>
        ensures { OnOk result (out.new.items ≡ out.old.items ++ self.now) }
    {
        self.versions
            .add_between(Bound::Unbounded, Bound::Unbounded, &Every, out)?;
        Ok(())
    }

    /// The version that was installed last, with its commit stamp.
    pub fn last(&self) -> Option<(Stamp, Version)>
        ensures { result ≡ slice_get self.now (length self.now - 1) }
    {
        self.versions.last()
    }

    /// How many versions there are.
    pub fn len(&self) -> usize
        ensures count { result ≡ length self.now }
        ensures rising { IsRising self.now }
    {
        self.versions.len()
    }

    /// Whether there is no version.
    pub fn is_empty(&self) -> bool
        ensures { result ≡ (length self.now == 0) }
    {
        self.versions.is_empty()
    }
}
