//! The findings on one key, without the transactions there: how each edit mends the indexes and the judgements. What these are stands in
//! `indexes.rt` and `judgements.rt`.

ghost use Rattle.std.specs.Prelude.{◌≡◌, ◌↔◌, ◌++◌, [], List, None, Some, Option, IfOk, IsTrue, OnOk, false, is_some};
ghost use Rattle.std.specs.List.{Contains, flat_map};
ghost use Rattle.si_model.specs.declared.parts.OnKey.{OnKey};
ghost use Rattle.si_model.specs.declared.findings.Finding.{Finding};
ghost use Rattle.si_model.specs.Edits.{status_after};
ghost use Rattle.si_model.specs.Findings.{findings_on};
ghost use Rattle.si_model.specs.History.{IsOfHistory};
ghost use Rattle.si_model.specs.KeyEdits.{arrived_on, resolved_on, set_up_on, withdrawn_on};
ghost use Rattle.si_model.specs.Versions.{last_write};
ghost use Rattle.si_judge.specs.Touched.{IsTouched, IsTouchedBySetUp};
ghost use Rattle.si_judge.specs.States.{AreSameOnKey};
ghost use Rattle.si_judge.specs.Kept.{IsBare, IsInDoubt, IsRising, IsShown, Shows, WouldShow};
ghost use Rattle.si_judge.specs.Notes.{KeepsNotes, KeepsNotesOf};
ghost use Rattle.si_judge.specs.Marks.{AreGathered, IsComeLater, IsGoneLater};
ghost use Rattle.si_judge.specs.declared.reads.KeptRead.{KeptRead};
ghost use Rattle.si_judge.specs.Indexes.{AreIndexes, AreReadsBefore, AreTouchedReads, Fits, Joins, kept_reads_in, readers_of, reads_in, version_by, writes_of};
ghost use Rattle.si_judge.specs.Mending.{AreReadsJudged, HasCome, HasGone, IsJudgedWith, IsJudgedWithout, found_by, read_cmp};
ghost use Rattle.si_sorted.specs.Entries.{value_at};

use crate::Judge;
use crate::indexes::Indexes;
use crate::judgements::Judgements;
use crate::marks::{Mark, Marks};
use crate::notes::Notes;
use crate::reads::{ReadWithOwn, version_by, version_with};
use si_model::sorting::put_in_order;
use si_model::versions::last_write;
use si_model::{Finding, Key, OutOfMemory, Outcome, Part, Stamp, Value};
use si_timeline::Version;
use std::alloc::Global;
use std::marker::Model;
use std::mem;

/// The findings on one key, mended after each edit, without the transactions there.
///
/// Who asks for an edit knows what is on the key, and hands over the part of the transaction. Contracts say what the edit makes
/// of whatever is on the key. After an edit for which the growth of some memory was refused nothing is known of them but their key: their
/// owner asks nothing more of them.
#[derive(Drop)]
pub struct KeyFindings<J: Judge + Drop> {
    alloc: Global,
    key: Key,
    indexes: Indexes,
    judgements: Judgements<J>,
    marks: Marks,
}

impl<J: Judge + Drop> Model for KeyFindings<J> {
    ghost use Rattle.si_judge.specs.Kept.{Kept};

    ghost Value = { Kept };

    ghost view = { λ s. record {
      key = s.key;
      indexes = s.indexes;
      reads = s.judgements.reads;
      overlaps = s.judgements.overlaps;
      judged = J.answers s.judgements.judge;
      marks = s.marks;
      notes = s.judgements.notes;
    } };
}

impl<J: Judge + Drop> KeyFindings<J> {
    /// The findings on a key on which nothing is. It takes no memory.
    pub fn new(alloc: Global, key: Key, judge: J) -> Self
        ensures key { result.key ≡ key }
        ensures judged { result.judged ≡ J.answers judge }
        ensures shows { (M : OnKey) → IsOfHistory M → IsBare M → Shows J.rules M result }
        ensures marks { result.marks ≡ [] }
        ensures nothing { (result.reads ≡ []) × (result.overlaps ≡ []) }
        ensures notes { result.notes ≡ None }
    {
        KeyFindings {
            alloc,
            key,
            indexes: Indexes::new(alloc),
            judgements: Judgements::new(alloc, judge),
            marks: Marks::new(alloc),
        }
    }

    /// A transaction arrives that does this on the key.
    pub fn arrive(&mut self, part: &Part) -> Result<(), OutOfMemory>
        requires { (M : OnKey) × Shows J.rules M self.old × IsOfHistory (arrived_on part.now M) }
        ensures ok { OnOk result ((M R : OnKey) → Shows J.rules M self.old → IsOfHistory (arrived_on part.now M) → AreSameOnKey (arrived_on part.now M) R
            → IsOfHistory R → IsShown J.rules (IsTouched M R part.now.id) R self.old self.new) }
        ensures key { self.new.key ≡ self.old.key }
    {
        add(self.alloc, &mut self.indexes, &mut self.judgements, part)?;
        Ok(())
    }

    /// The transaction that does this on the key, and is in doubt, is resolved. It becomes what it is from then on.
    pub fn resolve(&mut self, part: &mut Part, outcome: Outcome) -> Result<(), OutOfMemory>
        requires { (M : OnKey) × Shows J.rules M self.old × IsInDoubt part.old M
            × IsOfHistory (resolved_on part.old.id outcome M) }
        ensures ok { OnOk result ((M R : OnKey) → Shows J.rules M self.old → IsInDoubt part.old M → AreSameOnKey (resolved_on part.old.id outcome M) R
            → IsOfHistory R → IsShown J.rules (IsTouched M R part.old.id) R self.old self.new) }
        ensures part { OnOk result (part.new ≡ record part.old { status = status_after outcome }) }
        ensures key { self.new.key ≡ self.old.key }
    {
        self.indexes.take_out(self.alloc, part)?;
        part.status = outcome.status();
        add(self.alloc, &mut self.indexes, &mut self.judgements, part)?;
        Ok(())
    }

    /// The transaction that does this on the key is withdrawn.
    pub fn withdraw(&mut self, part: &Part) -> Result<(), OutOfMemory>
        requires { (M : OnKey) × Shows J.rules M self.old × Contains M.parts part.now }
        ensures ok { OnOk result ((M R : OnKey) → Shows J.rules M self.old → Contains M.parts part.now → AreSameOnKey (withdrawn_on part.now.id M) R
            → IsOfHistory R → IsShown J.rules (IsTouched M R part.now.id) R self.old self.new) }
        ensures key { self.new.key ≡ self.old.key }
    {
        let taken = self.indexes.take_out(self.alloc, part)?;
        drop_out(
            self.alloc,
            &self.indexes,
            &mut self.judgements,
            part,
            taken.as_slice(),
        )?;
        Ok(())
    }

    /// The key, which isn't set up, is set up with the value.
    pub fn set_up(&mut self, value: Value) -> Result<(), OutOfMemory>
        ensures ok { OnOk result ((M : OnKey) → Shows J.rules M self.old → M.initial ≡ None → IsOfHistory (set_up_on value M)
            → IsShown J.rules (IsTouchedBySetUp (set_up_on value M) value) (set_up_on value M) self.old self.new) }
        ensures initial { OnOk result (self.new.indexes.initial ≡ Some value) }
        ensures key { self.new.key ≡ self.old.key }
    {
        self.indexes.initial = Some(value);
        let mut reads = Vec::new(self.alloc);
        self.indexes.add_reads(&mut reads, None, None)?;
        self.indexes.add_reads(&mut reads, Some(value), None)?;
        self.judgements
            .judge_reads(&self.indexes, reads.as_slice())?;
        Ok(())
    }

    /// A transaction arrives that does this on the key. Where it touches many reads of a value by others, these are marked, and judged once
    /// `settle` is called.
    pub fn arrive_later(&mut self, part: &Part) -> Result<(), OutOfMemory>
        requires { (M : OnKey) × WouldShow J.rules M self.old × IsOfHistory (arrived_on part.now M) }
        ensures ok { OnOk result ((M R : OnKey) → WouldShow J.rules M self.old → IsOfHistory (arrived_on part.now M) → AreSameOnKey (arrived_on part.now M) R
            → IsOfHistory R → WouldShow J.rules R self.new) }
        ensures key { self.new.key ≡ self.old.key }
        ensures noted { OnOk result (KeepsNotesOf self.old self.new) }
    {
        add_later(
            self.alloc,
            &mut self.indexes,
            &mut self.judgements,
            &mut self.marks,
            part,
        )?;
        Ok(())
    }

    /// The transaction that does this on the key, and is in doubt, is resolved. It becomes what it is from then on. Many reads of a value
    /// are marked as for an arrival.
    pub fn resolve_later(&mut self, part: &mut Part, outcome: Outcome) -> Result<(), OutOfMemory>
        requires { (M : OnKey) × WouldShow J.rules M self.old × IsInDoubt part.old M
            × IsOfHistory (resolved_on part.old.id outcome M) }
        ensures ok { OnOk result ((M R : OnKey) → WouldShow J.rules M self.old → IsInDoubt part.old M → AreSameOnKey (resolved_on part.old.id outcome M) R
            → IsOfHistory R → WouldShow J.rules R self.new) }
        ensures part { OnOk result (part.new ≡ record part.old { status = status_after outcome }) }
        ensures key { self.new.key ≡ self.old.key }
        ensures noted { OnOk result (KeepsNotesOf self.old self.new) }
    {
        self.indexes.take_out(self.alloc, part)?;
        let resolved = outcome.status();
        part.status = resolved;
        add_later(
            self.alloc,
            &mut self.indexes,
            &mut self.judgements,
            &mut self.marks,
            part,
        )?;
        Ok(())
    }

    /// The transaction that does this on the key is withdrawn. Many reads of a value are marked as for an arrival.
    pub fn withdraw_later(&mut self, part: &Part) -> Result<(), OutOfMemory>
        requires { (M : OnKey) × WouldShow J.rules M self.old × Contains M.parts part.now }
        ensures ok { OnOk result ((M R : OnKey) → WouldShow J.rules M self.old → Contains M.parts part.now → AreSameOnKey (withdrawn_on part.now.id M) R
            → IsOfHistory R → WouldShow J.rules R self.new) }
        ensures key { self.new.key ≡ self.old.key }
        ensures noted { OnOk result (KeepsNotesOf self.old self.new) }
    {
        let gone = self.indexes.take_out(self.alloc, part)?;
        drop_later(
            self.alloc,
            &self.indexes,
            &mut self.judgements,
            &mut self.marks,
            part,
            gone.as_slice(),
        )?;
        Ok(())
    }

    /// The key, which isn't set up, is set up with the value. Many reads of a value are marked as for an arrival.
    pub fn set_up_later(&mut self, value: Value) -> Result<(), OutOfMemory>
        ensures ok { OnOk result ((M : OnKey) → WouldShow J.rules M self.old → M.initial ≡ None → IsOfHistory (set_up_on value M)
            → WouldShow J.rules (set_up_on value M) self.new) }
        ensures key { self.new.key ≡ self.old.key }
        ensures noted { OnOk result (KeepsNotesOf self.old self.new) }
    {
        self.indexes.initial = Some(value);
        let mut reads = Vec::new(self.alloc);
        gather(&self.indexes, &mut self.marks, &mut reads, None, None)?;
        gather(
            &self.indexes,
            &mut self.marks,
            &mut reads,
            Some(value),
            None,
        )?;
        self.judgements
            .judge_reads(&self.indexes, reads.as_slice())?;
        Ok(())
    }

    /// Whether reads are marked. Where none is, all that is found on the key is told.
    pub fn is_marked(&self) -> bool
        ensures exact { (result ≡ false) ↔ (self.now.marks ≡ []) }
        ensures shown { result ≡ false → (M : OnKey) → WouldShow J.rules M self.now → Shows J.rules M self.now }
    {
        !self.marks.is_empty()
    }

    /// Judges the marked reads, those of each value once.
    pub fn settle(&mut self) -> Result<(), OutOfMemory>
        ensures ok { OnOk result ((M : OnKey) → WouldShow J.rules M self.old → Shows J.rules M self.new) }
        ensures marks { OnOk result (self.new.marks ≡ []) }
        ensures key { self.new.key ≡ self.old.key }
        ensures noted { OnOk result (KeepsNotesOf self.old self.new) }
    {
        let mut marks = Vec::new(self.alloc);
        self.marks.add_to(&mut marks)?;
        judge_marked(
            self.alloc,
            &self.indexes,
            &mut self.judgements,
            marks.as_slice(),
        )?;
        self.marks = Marks::new(self.alloc);
        Ok(())
    }

    /// What comes and goes is noted there from now on, or nowhere. Afterwards there stands where it was noted before.
    pub fn swap_notes(&mut self, notes: &mut Option<Box<Notes>>)
        ensures here { self.new ≡ record self.old { notes = notes.old } }
        ensures there { notes.new ≡ self.old.notes }
    {
        mem::swap(&mut self.judgements.notes, notes);
    }

    /// Whether what comes and goes is noted.
    pub fn has_notes(&self) -> bool
        ensures { result ≡ is_some self.now.notes }
    {
        self.judgements.notes.is_some()
    }

    /// The findings on the key, in order.
    ///
    /// `OutOfMemory` says that the growth of some memory was refused for them. Nothing changes.
    pub fn findings(&self) -> Result<Vec<Finding>, OutOfMemory>
        ensures { IfOk result (λ found. (M : OnKey) → Shows J.rules M self.now → found.items ≡ findings_on J.rules self.now.key M) }
    {
        let mut found = Vec::new(self.alloc);
        self.judgements.reads.add_to(&mut found, &self.key)?;
        self.judgements.overlaps.add_to(&mut found, &self.key)?;
        put_in_order(&mut found);
        Ok(found)
    }

    /// Reads how many entries each index has, so that a processor has this near. The number means nothing.
    pub fn heads(&self) -> u64 {
        let indexed = self.indexes.timeline.len()
            ^ self.indexes.writes.len()
            ^ self.indexes.reads.len();
        let judged = self.judgements.reads.len() ^ self.judgements.overlaps.len();
        (indexed ^ judged) as u64
    }

    /// Reads the last entry of each index, so that a processor has it near: most edits come behind it. The number means nothing.
    pub fn ends(&self) -> u64 {
        let version = match self.indexes.timeline.last() {
            Some((commit, _)) => commit.0,
            None => 0,
        };
        let reader = match self.indexes.reads.last() {
            Some(reader) => reader.start.0,
            None => 0,
        };
        version ^ reader
    }

    /// How many answers the judge has given, in this time and before it.
    pub fn judged(&self) -> u64
        ensures { result ≡ self.now.judged }
    {
        self.judgements.judge.calls()
    }

    /// What the initial version returns.
    pub fn initial(&self) -> Option<Value>
        ensures { result ≡ self.now.indexes.initial }
    {
        self.indexes.initial
    }

    /// Whether no write, no read of a committed transaction and no set-up value is on the key, so that new findings of it would
    /// show the same.
    pub fn is_bare(&self) -> bool
        ensures { (M : OnKey) → Shows J.rules M self.now → IsTrue result ↔ IsBare M }
    {
        self.has_nothing()
    }

    /// The same, also where reads are marked.
    pub fn has_nothing(&self) -> bool
        ensures { (M : OnKey) → WouldShow J.rules M self.now → IsTrue result ↔ IsBare M }
    {
        self.indexes.is_empty()
    }

    /// Whether anything is found on the key.
    pub fn has_findings(&self) -> bool
        ensures found { (M : OnKey) → Shows J.rules M self.now → IsTrue result ↔ ((f : Finding) × Contains (findings_on J.rules self.now.key M) f) }
        ensures rising { IsRising self.now }
    {
        let reads = self.judgements.reads.len();
        let overlaps = self.judgements.overlaps.len();
        reads.max(overlaps) > 0
    }
}

/// Adds the transaction and judges what it touches.
fn add<J: Judge + Drop>(
    alloc: Global,
    indexes: &mut Indexes,
    judgements: &mut Judgements<J>,
    part: &Part,
) -> Result<(), OutOfMemory>
    requires { (M : OnKey) × AreIndexes M indexes.old × Fits part.now M }
    ensures indexes { OnOk result ((M R : OnKey) → AreIndexes M indexes.old → Joins part.now M R → IsOfHistory R → AreIndexes R indexes.new) }
    ensures judged { OnOk result ((R : OnKey) → AreIndexes R indexes.new
        → IsJudgedWith J.rules part.now R indexes.old indexes.new (found_by J.answers judgements.old) (found_by J.answers judgements.new)) }
{
    let last = last_write(part.accesses.as_slice());
    let version = version_with(part, last);
    let others = touched(alloc, indexes, part, version)?;
    come(indexes, judgements, part, last, version, others.as_slice())?;
    Ok(())
}

/// Adds the transaction and judges what it touches, or marks it.
fn add_later<J: Judge + Drop>(
    alloc: Global,
    indexes: &mut Indexes,
    judgements: &mut Judgements<J>,
    marks: &mut Marks,
    part: &Part,
) -> Result<(), OutOfMemory>
    requires { (M : OnKey) × AreIndexes M indexes.old × Fits part.now M }
    ensures indexes { OnOk result ((M R : OnKey) → AreIndexes M indexes.old → Joins part.now M R → IsOfHistory R → AreIndexes R indexes.new) }
    ensures judged { OnOk result ((R : OnKey) → AreIndexes R indexes.new
        → IsComeLater J.rules part.now R indexes.old indexes.new marks.old marks.new (found_by J.answers judgements.old) (found_by J.answers judgements.new)) }
    ensures noted { OnOk result (KeepsNotes judgements.old judgements.new) }
{
    let last = last_write(part.accesses.as_slice());
    let version = version_with(part, last);
    let others = touched_or_marked(alloc, indexes, marks, part, version)?;
    come(indexes, judgements, part, last, version, others.as_slice())?;
    Ok(())
}

/// Adds the transaction, which writes `last` last and installs this version, if it installs one, and judges these reads of others, its own
/// and its version.
fn come<J: Judge + Drop>(
    indexes: &mut Indexes,
    judgements: &mut Judgements<J>,
    part: &Part,
    last: Option<Value>,
    version: Option<(Stamp, Version)>,
    others: &[ReadWithOwn],
) -> Result<(), OutOfMemory>
    requires fits { (M : OnKey) × AreIndexes M indexes.old × Fits part.now M }
    requires last { last ≡ last_write part.now.accesses }
    requires version { version ≡ version_by part.now }
    ensures indexes { OnOk result ((M R : OnKey) → AreIndexes M indexes.old → Joins part.now M R → IsOfHistory R → AreIndexes R indexes.new) }
    ensures judged { OnOk result ((R : OnKey) → AreIndexes R indexes.new
        → HasCome J.rules part.now R indexes.new others.now (found_by J.answers judgements.old) (found_by J.answers judgements.new)) }
    ensures noted { OnOk result (KeepsNotes judgements.old judgements.new) }
{
    indexes.put_in(part, last, version)?;
    judgements.judge_reads(indexes, others)?;
    judgements.judge_reads_in(indexes, part)?;
    judgements.judge_version(indexes, version)?;
    Ok(())
}

/// Judges what the transaction touched that was taken out.
fn drop_out<J: Judge + Drop>(
    alloc: Global,
    indexes: &Indexes,
    judgements: &mut Judgements<J>,
    part: &Part,
    taken: &[ReadWithOwn],
) -> Result<(), OutOfMemory>
    requires { taken.now ≡ reads_in part.now }
    ensures { OnOk result ((R : OnKey) → AreIndexes R indexes.now
        → IsJudgedWithout J.rules part.now R indexes.now (found_by J.answers judgements.old) (found_by J.answers judgements.new)) }
{
    let version = version_by(part);
    let reads = touched(alloc, indexes, part, version)?;
    leave(indexes, judgements, part, taken, reads.as_slice())?;
    Ok(())
}

/// Judges what the transaction touched that was taken out, or marks it.
fn drop_later<J: Judge + Drop>(
    alloc: Global,
    indexes: &Indexes,
    judgements: &mut Judgements<J>,
    marks: &mut Marks,
    part: &Part,
    taken: &[ReadWithOwn],
) -> Result<(), OutOfMemory>
    requires { taken.now ≡ reads_in part.now }
    ensures judged { OnOk result ((R : OnKey) → AreIndexes R indexes.now
        → IsGoneLater J.rules part.now R indexes.now marks.old marks.new (found_by J.answers judgements.old) (found_by J.answers judgements.new)) }
    ensures noted { OnOk result (KeepsNotes judgements.old judgements.new) }
{
    let version = version_by(part);
    let reads = touched_or_marked(alloc, indexes, marks, part, version)?;
    leave(indexes, judgements, part, taken, reads.as_slice())?;
    Ok(())
}

/// Forgets the reads of the transaction that was taken out, judges these reads of others, and forgets its version.
fn leave<J: Judge + Drop>(
    indexes: &Indexes,
    judgements: &mut Judgements<J>,
    part: &Part,
    taken: &[ReadWithOwn],
    others: &[ReadWithOwn],
) -> Result<(), OutOfMemory>
    requires { taken.now ≡ reads_in part.now }
    ensures judged { OnOk result ((R : OnKey) → AreIndexes R indexes.now
        → HasGone J.rules part.now R indexes.now others.now (found_by J.answers judgements.old) (found_by J.answers judgements.new)) }
    ensures noted { OnOk result (KeepsNotes judgements.old judgements.new) }
{
    let version = version_by(part);
    judgements.forget_reads(taken)?;
    judgements.judge_reads(indexes, others)?;
    judgements.forget_version(indexes, version)?;
    Ok(())
}

/// Judges the marked reads.
fn judge_marked<J: Judge + Drop>(
    alloc: Global,
    indexes: &Indexes,
    judgements: &mut Judgements<J>,
    marks: &[Mark],
) -> Result<(), OutOfMemory>
    ensures reads { OnOk result ((M : OnKey) → AreIndexes M indexes.now
        → AreReadsJudged J.rules M indexes.now (flat_map (λ m. kept_reads_in indexes.now m.0 m.1) marks.now) (value_at read_cmp judgements.old.reads)
        (value_at read_cmp judgements.new.reads)) }
    ensures overlaps { OnOk result (judgements.new.overlaps ≡ judgements.old.overlaps) }
    ensures noted { OnOk result (KeepsNotes judgements.old judgements.new) }
{
    for mark in marks {
        judge_range(alloc, indexes, judgements, *mark)?;
    }
    Ok(())
}

fn judge_range<J: Judge + Drop>(
    alloc: Global,
    indexes: &Indexes,
    judgements: &mut Judgements<J>,
    mark: Mark,
) -> Result<(), OutOfMemory>
    ensures reads { OnOk result ((M : OnKey) → AreIndexes M indexes.now
        → AreReadsJudged J.rules M indexes.now (kept_reads_in indexes.now mark.0 mark.1) (value_at read_cmp judgements.old.reads) (value_at read_cmp judgements.new.reads)) }
    ensures overlaps { OnOk result (judgements.new.overlaps ≡ judgements.old.overlaps) }
    ensures noted { OnOk result (KeepsNotes judgements.old judgements.new) }
{
    let mut reads = Vec::new(alloc);
    indexes.add_reads(&mut reads, mark.0, mark.1)?;
    judgements.judge_reads(indexes, reads.as_slice())?;
    Ok(())
}

/// The reads of others that the transaction touches: those of what it writes, and those of the version before its own by
/// readers that started after its commit.
fn touched(
    alloc: Global,
    indexes: &Indexes,
    part: &Part,
    version: Option<(Stamp, Version)>,
) -> Result<Vec<ReadWithOwn>, OutOfMemory>
    requires { version ≡ version_by part.now }
    ensures { IfOk result (λ reads. AreTouchedReads indexes.now part.now (writes_of part.now) reads.items) }
{
    let mut reads = Vec::new(alloc);
    for placed in part.accesses.as_slice() {
        add_readers(indexes, &mut reads, placed.access.written())?;
    }
    add_reads_before(indexes, version, &mut reads)?;
    Ok(reads)
}

/// Adds the reads that returned the value, if there is one.
fn add_readers(
    indexes: &Indexes,
    reads: &mut Vec<ReadWithOwn>,
    written: Option<Value>,
) -> Result<(), OutOfMemory>
    ensures { OnOk result (reads.new.items ≡ reads.old.items ++ readers_of indexes.now written) }
{
    match written {
        Some(value) => indexes.add_reads(reads, Some(value), None),
        None => Ok(()),
    }
}

/// Adds the reads of the version before this one, if there is one, by readers that started after its commit.
fn add_reads_before(
    indexes: &Indexes,
    version: Option<(Stamp, Version)>,
    reads: &mut Vec<ReadWithOwn>,
) -> Result<(), OutOfMemory>
    ensures { OnOk result ((more : List (KeptRead × Option Value)) × AreReadsBefore indexes.now version more
        × (reads.new.items ≡ reads.old.items ++ more)) }
{
    match version {
        Some((commit, _)) => {
            let before = indexes.value_before(commit);
            indexes.add_reads(reads, before, Some(commit))
        }
        None => Ok(()),
    }
}

/// The same reads that the transaction touches, but where those of one value are many they are marked.
fn touched_or_marked(
    alloc: Global,
    indexes: &Indexes,
    marks: &mut Marks,
    part: &Part,
    version: Option<(Stamp, Version)>,
) -> Result<Vec<ReadWithOwn>, OutOfMemory>
    requires { version ≡ version_by part.now }
    ensures { IfOk result (λ reads. (all : List (KeptRead × Option Value)) × AreTouchedReads indexes.now part.now (writes_of part.now) all
        × AreGathered all marks.old marks.new [] reads.items) }
{
    let mut reads = Vec::new(alloc);
    for placed in part.accesses.as_slice() {
        gather_readers(indexes, marks, &mut reads, placed.access.written())?;
    }
    gather_before(indexes, marks, &mut reads, version)?;
    Ok(reads)
}

/// Gathers the reads that returned the value, if there is one.
#[tactic(auto, using(crate::proofs::MarkLists::none_gathered))]
fn gather_readers(
    indexes: &Indexes,
    marks: &mut Marks,
    reads: &mut Vec<ReadWithOwn>,
    written: Option<Value>,
) -> Result<(), OutOfMemory>
    ensures { OnOk result (AreGathered (readers_of indexes.now written) marks.old marks.new reads.old.items reads.new.items) }
{
    match written {
        Some(value) => gather(indexes, marks, reads, Some(value), None),
        None => Ok(()),
    }
}

/// Gathers the reads of the version before this one, if there is one, by readers that started after its commit.
#[tactic(auto, using(crate::proofs::MarkLists::none_gathered))]
fn gather_before(
    indexes: &Indexes,
    marks: &mut Marks,
    reads: &mut Vec<ReadWithOwn>,
    version: Option<(Stamp, Version)>,
) -> Result<(), OutOfMemory>
    ensures { OnOk result ((more : List (KeptRead × Option Value)) × AreReadsBefore indexes.now version more
        × AreGathered more marks.old marks.new reads.old.items reads.new.items) }
{
    match version {
        Some((commit, _)) => {
            let before = indexes.value_before(commit);
            gather(indexes, marks, reads, before, Some(commit))
        }
        None => Ok(()),
    }
}

/// Adds the reads that returned the value, by readers that started after the stamp, if there is one, or marks them where they are many.
fn gather(
    indexes: &Indexes,
    marks: &mut Marks,
    reads: &mut Vec<ReadWithOwn>,
    value: Option<Value>,
    after: Option<Stamp>,
) -> Result<(), OutOfMemory>
    ensures { OnOk result (AreGathered (kept_reads_in indexes.now value after) marks.old marks.new reads.old.items reads.new.items) }
{
    let are_few = indexes.reads.add_few_to(reads, value, after)?;
    if are_few {
        return Ok(());
    }
    marks.mark(value, after)?;
    Ok(())
}
