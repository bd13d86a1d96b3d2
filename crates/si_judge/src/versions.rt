//! The versions of a key, found by their commits and by their values.

ghost use Rattle.std.specs.Prelude.{◌≡◌, [], ◌∷◌, ◌↔◌, IfOk, IsTrue, List, OnOk, ⊤};
ghost use Rattle.std.specs.Option.{MatchOption};
ghost use Rattle.si_timeline.specs.Timelines.{Adds, Dated, Has, IsNearestAfter, IsNearestBefore, IsOfValue, Lacks, ValuesRise};
ghost use Rattle.si_timeline.specs.declared.versions.Version.{Version as Installed};
ghost use Rattle.si_judge.specs.Commits.{AreCommitsOf, FitsRising, HaveValuesOnce, IsAboveEarlier, IsBelowLater};

use si_model::{OutOfMemory, Stamp, Value};
use si_sorted::SortedMap;
use si_timeline::{Timeline, Version, of_rising};
use std::alloc::Global;
use std::marker::Model;

/// Where there are more versions than this, and their values don't rise with the commits, an index leads from a value to the commit of its
/// version. Among fewer ones it is looked for by a walk, which is about as fast, and they need no memory beside themselves.
const MOST_WALKED: usize = 64;

/// From a value to the commit of its version.
type Commits = SortedMap<Value, Stamp>;

/// The versions of a key. Most that is asked for stands next to a stamp, so they are in the order of their commits.
///
/// Contracts see the list, as they do of a timeline.
#[derive(Drop)]
pub struct Versions {
    alloc: Global,
    timeline: Timeline,
    // Whether the values rise with the commits, as far as is known.
    rising: bool,
    commits: Option<Box<Commits>>,
}

impl Model for Versions {
    ghost use Rattle.std.specs.Prelude.{IsTrue, List, ⊤};
    ghost use Rattle.std.specs.Option.{MatchOption};
    ghost use Rattle.si_timeline.specs.Timelines.{Dated, ValuesRise};
    ghost use Rattle.si_judge.specs.Commits.{AreCommitsOf};

    ghost Value = { List Dated };

    ghost view = { λ s. s.timeline };

    ghost invariant = { λ s. (IsTrue s.rising → ValuesRise s.timeline) × MatchOption s.commits ⊤ (λ b. AreCommitsOf s.timeline b.value) };
}

impl Versions {
    /// No version. It takes no memory.
    pub fn new(alloc: Global) -> Self
        ensures { result ≡ [] }
    {
        Versions {
            alloc,
            timeline: Timeline::new(alloc),
            rising: true,
            commits: None,
        }
    }

    /// Puts a version in, whose commit and whose value no other one has.
    pub fn insert(&mut self, commit: Stamp, version: Version) -> Result<(), OutOfMemory>
        requires lacks { Lacks self.old commit }
        requires once { (more : List Dated) → Adds commit version self.old more → HaveValuesOnce more }
        ensures { OnOk result (Adds commit version self.old self.new) }
    {
        let rises = self.keeps_rising(commit, version.value);
        // (while it is taken out, a walk finds what is looked for)
        let commits = self.commits.take();
        self.timeline.insert(commit, version)?;
        self.rising = rises;
        // (values that rise are searched where they stand side by side)
        let is_wanted = !rises || self.timeline.as_flat().is_none();
        self.commits = commits_with(
            self.alloc,
            commits,
            &self.timeline,
            is_wanted,
            commit,
            version.value,
        )?;
        Ok(())
    }

    /// Whether the values are known to rise, and this one comes between those of the versions next to the commit.
    fn keeps_rising(&self, commit: Stamp, value: Value) -> bool
        ensures { IsTrue result → FitsRising self.now commit value }
    {
        if !self.rising {
            return false;
        }
        // (mostly a version comes behind all)
        if self.is_above_last(commit, value) {
            return true;
        }
        self.is_above_former(commit, value) && self.is_below_next(commit, value)
    }

    /// Whether the version that was installed last, if there is one, has a lesser commit and a lesser value.
    fn is_above_last(&self, commit: Stamp, value: Value) -> bool
        ensures { IsTrue result → ValuesRise self.now → FitsRising self.now commit value }
    {
        let _rising = self.timeline.len();
        match self.timeline.last() {
            Some((last, version)) => last < commit && version.value < value,
            None => false,
        }
    }

    /// Whether the version before the commit has a lesser value, if there is one.
    fn is_above_former(&self, commit: Stamp, value: Value) -> bool
        ensures { IsTrue result → ValuesRise self.now → IsAboveEarlier self.now commit value }
    {
        match self.timeline.before(commit) {
            Some((_, former)) => former.value < value,
            None => true,
        }
    }

    /// Whether the version behind the commit has a greater value, if there is one.
    fn is_below_next(&self, commit: Stamp, value: Value) -> bool
        ensures { IsTrue result → ValuesRise self.now → IsBelowLater self.now commit value }
    {
        match self.timeline.after(commit) {
            Some((_, next)) => value < next.value,
            None => true,
        }
    }

    /// Takes the version of that commit out.
    pub fn remove(&mut self, commit: Stamp)
        requires { Has self.old commit }
        ensures removed { (version : Installed) × Adds commit version self.new self.old }
        ensures gone { Lacks self.new commit }
    {
        let commits = self.commits.take();
        let version = self.timeline.remove(commit);
        self.commits = commits_without(commits, version.value);
        self.index_tree();
    }

    /// Makes an index where values rise and don't stand side by side any more. Where memory is refused for it there is none.
    fn index_tree(&mut self)
        ensures { self.new ≡ self.old }
    {
        if self.commits.is_some() || !self.rising || self.timeline.as_flat().is_some() {
            return;
        }
        if let Ok(made) = first_commits(self.alloc, &self.timeline) {
            self.commits = made;
        }
    }

    /// The version of the value, with its commit.
    pub fn of_value(&self, value: Value) -> Option<(Stamp, Version)>
        ensures { IsOfValue self.now value result }
    {
        match &self.commits {
            Some(commits) => {
                let commit = commits.get(value)?;
                let version = self.timeline.at(commit)?;
                Some((commit, version))
            }
            None => match self.timeline.as_flat() {
                Some(flat) if self.rising => of_rising(flat, value),
                _ => self.timeline.of_value(value),
            },
        }
    }

    /// The nearest version that was installed before the stamp.
    pub fn before(&self, stamp: Stamp) -> Option<(Stamp, Version)>
        ensures { IsNearestBefore self.now stamp result }
    {
        self.timeline.before(stamp)
    }

    /// The nearest version that was installed after the stamp.
    pub fn after(&self, stamp: Stamp) -> Option<(Stamp, Version)>
        ensures { IsNearestAfter self.now stamp result }
    {
        self.timeline.after(stamp)
    }

    /// The version that was installed last, with its commit.
    pub fn last(&self) -> Option<(Stamp, Version)> {
        self.timeline.last()
    }

    /// How many versions there are.
    pub fn len(&self) -> usize {
        self.timeline.len()
    }

    /// Whether there is no version.
    pub fn is_empty(&self) -> bool
        ensures { IsTrue result ↔ (self.now ≡ []) }
    {
        self.timeline.is_empty()
    }
}

/// The index with the version that came to the timeline at the commit, or, if one is wanted, the first one once there are many versions.
fn commits_with(
    alloc: Global,
    commits: Option<Box<Commits>>,
    timeline: &Timeline,
    is_wanted: bool,
    commit: Stamp,
    value: Value,
) -> Result<Option<Box<Commits>>, OutOfMemory>
    requires once { HaveValuesOnce timeline.now }
    requires came { MatchOption commits ⊤ (λ b. (few : List Dated) × (version : Installed) × AreCommitsOf few b.value × (version.value ≡ value)
        × Adds commit version few timeline.now) }
    ensures { IfOk result (λ made. MatchOption made ⊤ (λ b. AreCommitsOf timeline.now b.value)) }
{
    match commits {
        Some(mut commits) => {
            commits.insert(value, commit)?;
            Ok(Some(commits))
        }
        None if is_wanted => first_commits(alloc, timeline),
        None => Ok(None),
    }
}

/// The index of the versions, where they are many.
fn first_commits(alloc: Global, timeline: &Timeline) -> Result<Option<Box<Commits>>, OutOfMemory>
    requires { HaveValuesOnce timeline.now }
    ensures { IfOk result (λ made. MatchOption made ⊤ (λ b. AreCommitsOf timeline.now b.value)) }
{
    if timeline.len() <= MOST_WALKED {
        return Ok(None);
    }
    let commits = commits_of(alloc, timeline)?;
    Ok(Some(Box::new(alloc, commits)?))
}

/// The index of the versions.
fn commits_of(alloc: Global, timeline: &Timeline) -> Result<Commits, OutOfMemory>
    requires { HaveValuesOnce timeline.now }
    ensures { IfOk result (λ made. AreCommitsOf timeline.now made) }
{
    let mut all = Vec::new(alloc);
    timeline.add_all(&mut all)?;
    let mut commits = SortedMap::new(alloc);
    for dated in all.as_slice() {
        commits.insert(dated.1.value, dated.0)?;
    }
    Ok(commits)
}

/// The index without the version of the value.
fn commits_without(commits: Option<Box<Commits>>, value: Value) -> Option<Box<Commits>>
    ensures { (few more : List Dated) (commit : Stamp) (version : Installed) → Adds commit version few more → Lacks few commit → version.value ≡ value
        → MatchOption commits ⊤ (λ b. AreCommitsOf more b.value) → MatchOption result ⊤ (λ b. AreCommitsOf few b.value) }
{
    match commits {
        Some(mut commits) => {
            commits.remove(value);
            Some(commits)
        }
        None => None,
    }
}
