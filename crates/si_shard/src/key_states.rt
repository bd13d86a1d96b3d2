//! What is kept of many keys, and the keys on which something is found.

ghost use Rattle.std.specs.Prelude.{◌≡◌, ◌↔◌, ◌⊎◌, [], ℕ, List, None, Some, OnOk, IfOk, IsTrue, ◌++◌, slice_get, true, false};
ghost use Rattle.std.specs.HashMap.{Updates, get};
ghost use Rattle.std.specs.BTreeSet.{IsOrdered, contains};
ghost use Rattle.std.specs.Ordering.{nat_cmp};
ghost use Rattle.std.specs.Cmp.Lexicographic.{slice_cmp};
ghost use Rattle.std.specs.List.{Contains, flat_map};
ghost use Rattle.si_model.specs.declared.parts.OnKey.{OnKey};
ghost use Rattle.si_model.specs.Operations.{same_key};
ghost use Rattle.si_model.specs.Findings.{cases, findings_on};
ghost use Rattle.si_judge.specs.Following.{empty_key};
ghost use Rattle.si_judge.specs.Kept.{Kept, Shows, WouldShow};
ghost use Rattle.si_shard.specs.KeyChanges.{CanChange, IsChanged};
ghost use Rattle.si_shard.specs.KeyNotes.{AreBegun, IsBlank, KeepsNotes, KeepsNotesAt};
ghost use Rattle.si_shard.specs.KeyStates.{KeepsNotesOf, AreKeysSettled, AreOn, HasFinding, IsChangedAt, IsChangedIn, IsLeft, IsOn, IsKeySettled, IsSettledFrom, IsToldAt, IsToldSo, IsUnmarked, ShowsAt, findings_at};

use crate::key_changes::Change;
use crate::key_notes::{Changes, KeyNotes};
use indexmap::IndexMap;
use si_hashing::KeyHash;
use si_judge::{Cases, KeyFindings};
use si_model::{Finding, Key, OutOfMemory};
use std::alloc::Global;
use std::collections::BTreeSet;
use std::hash::RandomState;

/// What is kept of each key.
type States = IndexMap<Key, KeyFindings<Cases>, KeyHash>;

/// What is kept of the keys. Of a key nothing is kept where it is bare.
///
/// Which transactions are on a key isn't known here: contracts say what is so of whatever may be on it.
#[derive(Drop)]
pub struct KeyStates {
    alloc: Global,
    states: States,
    // The keys on which something is found, in order, so that findings cost what is found.
    found: BTreeSet<Key>,
    // Those of which reads are marked, and are judged before findings are asked for. One may stand here several times.
    marked: Vec<Key>,
    notes: KeyNotes,
}

/// What a change left on a key.
#[derive(Clone, Copy)]
struct AfterChange {
    is_bare: bool,
    has_findings: bool,
    /// Whether something was found before the change.
    had_findings: bool,
    is_marked: bool,
    /// Whether reads were marked before the change.
    was_marked: bool,
}

impl KeyStates {
    /// Nothing is known of any key.
    pub fn new(alloc: Global, hash: RandomState) -> Self
        ensures on { (x : List ℕ) → IsOn result x empty_key }
        ensures none { result.marked.items ≡ [] }
    {
        KeyStates {
            alloc,
            states: IndexMap::with_hasher(alloc, KeyHash::with_secret(hash)),
            found: BTreeSet::new(alloc),
            marked: Vec::new(alloc),
            notes: KeyNotes::new(alloc),
        }
    }

    /// Makes one change of the key, whose state mostly stands at that place.
    pub fn change(&mut self, key: &Key, near: usize, change: &mut Change) -> Result<(), OutOfMemory>
        requires { (Q : OnKey) × IsOn self.old key.now Q × CanChange change.old Q }
        ensures changed { OnOk result (IsChangedAt key.now change.old self.old self.new) }
        ensures noted { OnOk result (KeepsNotesOf self.old self.new) }
    {
        let left = change_in(
            self.alloc,
            &mut self.states,
            &mut self.notes,
            near,
            key,
            change,
        )?;
        tell(&mut self.marked, &mut self.found, key, left)?;
        if left.is_bare {
            forget(&mut self.states, key);
        }
        Ok(())
    }

    /// Where the state of the key stands, if one does. It mostly stands at that place.
    pub fn place_of(&self, key: &Key, near: usize) -> Option<usize> {
        if is_at(&self.states, near, key) {
            return Some(near);
        }
        self.states.get_index_of(key)
    }

    /// How many keys something is kept of.
    pub fn len(&self) -> usize {
        self.states.len()
    }

    /// Reads the states at these places, first the heads of all and then the ends of what they hold, so that each is fetched while the
    /// others are. The number, which comes of what was read, means nothing.
    pub fn look_at(&self, places: &[usize]) -> u64 {
        let mut seen = 0;
        for place in places {
            if let Some((_, kept)) = self.states.get_index(*place) {
                seen = seen ^ kept.heads();
            }
        }
        for place in places {
            if let Some((_, kept)) = self.states.get_index(*place) {
                seen = seen ^ kept.ends();
            }
        }
        seen
    }

    /// Judges the reads that are marked. Where memory is refused nothing is known of the keys.
    pub fn settle(&mut self) -> Result<(), OutOfMemory>
        ensures settled { OnOk result (IsSettledFrom self.old self.new) }
        ensures noted { OnOk result (KeepsNotesOf self.old self.new) }
    {
        settle_all(
            &mut self.states,
            &mut self.found,
            &mut self.notes,
            &self.marked,
        )?;
        self.marked.clear();
        Ok(())
    }

    /// What comes and goes on the keys is noted from now on.
    pub fn begin_notes(&mut self) -> Result<(), OutOfMemory>
        ensures others { self.new ≡ record self.old { notes = self.new.notes } }
        ensures begun { OnOk result (AreBegun self.new.notes) }
    {
        self.notes.begin()
    }

    /// What came and what went since notes were begun or taken.
    pub fn take_notes(&mut self) -> Changes
        ensures others { self.new ≡ record self.old { notes = self.new.notes } }
        ensures taken { result ≡ self.old.notes.changes }
        ensures begun { IsBlank self.old.notes.lent → AreBegun self.new.notes }
    {
        self.notes.take()
    }

    /// The findings on the keys, in order, where none is listed.
    pub fn findings(&self) -> Result<Vec<Finding>, OutOfMemory>
        requires { self.now.marked.items ≡ [] }
        ensures found { IfOk result (λ all. (on : List ℕ → OnKey) → AreOn self.now on → all.items ≡ flat_map (findings_at on) self.now.found.keys) }
        ensures ordered { IsOrdered (slice_cmp nat_cmp) self.now.found }
    {
        let mut all = Vec::new(self.alloc);
        for key in &self.found {
            self.add_findings(key, &mut all)?;
        }
        Ok(all)
    }

    fn add_findings(&self, key: &Key, all: &mut Vec<Finding>) -> Result<(), OutOfMemory>
        requires { self.now.marked.items ≡ [] }
        ensures { OnOk result ((Q : OnKey) → IsOn self.now key.now Q → all.new.items ≡ all.old.items ++ findings_on cases key.now Q) }
    {
        if let Some(kept) = self.states.get(key) {
            let mut found = kept.findings()?;
            all.append(&mut found)?;
        }
        Ok(())
    }
}

/// Makes the change in what is kept of the key, which is begun where nothing was.
fn change_in(
    alloc: Global,
    states: &mut States,
    notes: &mut KeyNotes,
    near: usize,
    key: &Key,
    change: &mut Change,
) -> Result<AfterChange, OutOfMemory>
    requires { (Q : OnKey) × ShowsAt key.now (get same_key states.old key.now) Q × CanChange change.old Q }
    ensures changed { IfOk result (λ left. IsChangedIn key.now change.old left.is_bare left.has_findings left.is_marked states.old states.new) }
    ensures had { IfOk result (λ left. (Q : OnKey) → ShowsAt key.now (get same_key states.old key.now) Q → IsUnmarked (get same_key states.old key.now)
        → (left.had_findings ≡ true) ↔ HasFinding key.now Q) }
    ensures was { IfOk result (λ left. (left.was_marked ≡ false) ↔ IsUnmarked (get same_key states.old key.now)) }
    ensures noted { OnOk result (KeepsNotes notes.old notes.new (get same_key states.old) (get same_key states.new)) }
{
    if is_at(states, near, key) {
        let kept = states.get_index_mut(near).unwrap();
        return change_of(notes, key, kept, change);
    }
    if let Some(kept) = states.get_mut(key) {
        return change_of(notes, key, kept, change);
    }
    begin_by(alloc, states, notes, key, change)
}

/// Whether the state of the key stands at that place.
fn is_at(states: &States, place: usize, key: &Key) -> bool
    ensures { IsTrue result → ((s : Kept) × (slice_get states.now.entries place ≡ Some (key.now, s)) × (get same_key states.now key.now ≡ Some s)) }
{
    match states.get_index(place) {
        Some((there, _)) => there == key,
        None => false,
    }
}

/// Makes the change in what is kept of its key.
fn change_of(
    notes: &mut KeyNotes,
    key: &Key,
    kept: &mut KeyFindings<Cases>,
    change: &mut Change,
) -> Result<AfterChange, OutOfMemory>
    requires { (Q : OnKey) × WouldShow cases Q kept.old × CanChange change.old Q }
    ensures changed { IfOk result (λ left. IsChanged change.old kept.old kept.new × IsLeft left.is_bare left.has_findings left.is_marked kept.new) }
    ensures had { IfOk result (λ left. (Q : OnKey) → Shows cases Q kept.old → (left.had_findings ≡ true) ↔ HasFinding kept.old.key Q) }
    ensures was { IfOk result (λ left. (left.was_marked ≡ false) ↔ (kept.old.marks ≡ [])) }
    ensures noted { OnOk result (KeepsNotesAt key.now notes.old notes.new (Some kept.old) (Some kept.new)) }
{
    let had_findings = kept.has_findings();
    let was_marked = kept.is_marked();
    notes.change(key, kept, change)?;
    Ok(left_on(kept, had_findings, was_marked))
}

/// Makes the change of a key of which nothing is kept. It stands apart, since a function pays for all its values each time.
fn begin_by(
    alloc: Global,
    states: &mut States,
    notes: &mut KeyNotes,
    key: &Key,
    change: &mut Change,
) -> Result<AfterChange, OutOfMemory>
    requires none { get same_key states.old key.now ≡ None }
    requires can { (Q : OnKey) × ShowsAt key.now None Q × CanChange change.old Q }
    ensures changed { IfOk result (λ left. IsChangedIn key.now change.old left.is_bare left.has_findings left.is_marked states.old states.new) }
    ensures had { IfOk result (λ left. (Q : OnKey) → ShowsAt key.now None Q → (left.had_findings ≡ true) ↔ HasFinding key.now Q) }
    ensures was { IfOk result (λ left. left.was_marked ≡ false) }
    ensures noted { OnOk result (KeepsNotes notes.old notes.new (get same_key states.old) (get same_key states.new)) }
{
    let own = key.try_clone()?;
    let mut kept = KeyFindings::new(alloc, key.try_clone()?, Cases::new());
    match change_of(notes, key, &mut kept, change) {
        Ok(left) => {
            drop(states.insert(own, kept)?);
            Ok(left)
        }
        Err(fault) => {
            drop(kept);
            Err(fault)
        }
    }
}

/// Keeps nothing more of the key.
fn forget(states: &mut States, key: &Key)
    ensures { Updates same_key states.old states.new key.now None }
{
    drop(states.swap_remove(key));
}

/// Lists the key where reads were marked by a change that left this on it, and else keeps it among those on which something is found, or
/// not.
fn tell(
    marked: &mut Vec<Key>,
    found: &mut BTreeSet<Key>,
    key: &Key,
    left: AfterChange,
) -> Result<(), OutOfMemory>
    requires { left.was_marked ≡ false → (left.had_findings ≡ true) ↔ (contains (slice_cmp nat_cmp) found.old key.now ≡ true) }
    ensures { OnOk result (IsToldSo key.now left.is_bare left.has_findings left.is_marked left.was_marked marked.old.items marked.new.items found.old found.new) }
{
    if left.is_marked {
        return list(marked, found, key, left);
    }
    if left.was_marked {
        return set_found(found, key, left.has_findings);
    }
    keep_found(found, key, left)
}

/// Lists the key, on which reads are marked, if it wasn't before. On a bare one nothing is found.
fn list(
    marked: &mut Vec<Key>,
    found: &mut BTreeSet<Key>,
    key: &Key,
    left: AfterChange,
) -> Result<(), OutOfMemory>
    requires { left.is_marked ≡ true }
    ensures { OnOk result (IsToldSo key.now left.is_bare left.has_findings left.is_marked left.was_marked marked.old.items marked.new.items found.old found.new) }
{
    enlist(marked, key, left.was_marked)?;
    if left.is_bare {
        set_found(found, key, false)?;
    }
    Ok(())
}

fn enlist(marked: &mut Vec<Key>, key: &Key, is_listed: bool) -> Result<(), OutOfMemory>
    ensures kept { OnOk result ((y : List ℕ) → Contains marked.old.items y → Contains marked.new.items y) }
    ensures listed { OnOk result (Contains marked.new.items key.now ⊎ (is_listed ≡ true)) }
{
    if !is_listed {
        marked.push(key.try_clone()?)?;
    }
    Ok(())
}

/// Keeps the key among those on which something is found, or not. Where as much is found as before, the keys aren't looked through.
fn keep_found(found: &mut BTreeSet<Key>, key: &Key, left: AfterChange) -> Result<(), OutOfMemory>
    requires { (left.had_findings ≡ true) ↔ (contains (slice_cmp nat_cmp) found.old key.now ≡ true) }
    ensures { OnOk result (IsToldAt key.now left.has_findings found.old found.new) }
{
    if left.has_findings == left.had_findings {
        return Ok(());
    }
    set_found(found, key, left.has_findings)
}

/// Keeps the key among those on which something is found, or not.
fn set_found(found: &mut BTreeSet<Key>, key: &Key, has_findings: bool) -> Result<(), OutOfMemory>
    ensures { OnOk result (IsToldAt key.now has_findings found.old found.new) }
{
    if has_findings {
        found.insert(key.try_clone()?)?;
    } else {
        found.remove(key);
    }
    Ok(())
}

/// Judges the marked reads of these keys, and tells of each whether something is found.
fn settle_all(
    states: &mut States,
    found: &mut BTreeSet<Key>,
    notes: &mut KeyNotes,
    marked: &[Key],
) -> Result<(), OutOfMemory>
    ensures settled { OnOk result (AreKeysSettled marked.now states.old states.new found.old found.new) }
    ensures noted { OnOk result (KeepsNotes notes.old notes.new (get same_key states.old) (get same_key states.new)) }
{
    for key in marked {
        settle_key(states, found, notes, key)?;
    }
    Ok(())
}

/// Judges the marked reads of the key, and tells whether something is found.
fn settle_key(
    states: &mut States,
    found: &mut BTreeSet<Key>,
    notes: &mut KeyNotes,
    key: &Key,
) -> Result<(), OutOfMemory>
    ensures settled { OnOk result (IsKeySettled key.now states.old states.new found.old found.new) }
    ensures noted { OnOk result (KeepsNotes notes.old notes.new (get same_key states.old) (get same_key states.new)) }
{
    if let Some(kept) = states.get_mut(key) {
        notes.settle(key, kept)?;
        set_found(found, key, kept.has_findings())?;
    }
    Ok(())
}

/// What a change left on a key that had findings before, or none, and marked reads, or none.
fn left_on(kept: &KeyFindings<Cases>, had_findings: bool, was_marked: bool) -> AfterChange
    ensures left { IsLeft result.is_bare result.has_findings result.is_marked kept.now }
    ensures had { result.had_findings ≡ had_findings }
    ensures was { result.was_marked ≡ was_marked }
{
    AfterChange {
        is_bare: kept.has_nothing(),
        has_findings: kept.has_findings(),
        had_findings,
        is_marked: kept.is_marked(),
        was_marked,
    }
}
