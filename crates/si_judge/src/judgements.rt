//! What a judge found on a key, kept under what was judged.

ghost use Rattle.std.specs.Prelude.{◌≡◌, ◌∷◌, [], ◌<◌, None, IfSome, OnOk, length};
ghost use Rattle.std.specs.List.{AllPairs, Contains};
ghost use Rattle.std.specs.Option.{option_map, option_to_list};
ghost use Rattle.si_sorted.specs.Entries.{Sets, value_at};
ghost use Rattle.si_judge.specs.Judges.{NamesRead};
ghost use Rattle.si_judge.specs.Notes.{IsNoted, KeepsNotes};
ghost use Rattle.si_judge.specs.Found.{overlap_of};
ghost use Rattle.si_model.specs.declared.parts.OnKey.{OnKey};
ghost use Rattle.si_model.specs.Findings.{overlap_with};
ghost use Rattle.si_judge.specs.Indexes.{AreIndexes, reads_in, reads_of};
ghost use Rattle.si_judge.specs.Mending.{AreForgotten, RisesBy, IsVersionForgotten, IsVersionJudged, AreReadsJudged, IsPairJudged, IsPairJudgedBefore, id_of, read_cmp, risen, stamp_cmp, with_kind};

use crate::Judge;
use crate::found_pairs::{FoundPairs, Pair, kind_of};
use crate::found_reads::FoundReads;
use crate::indexes::{Indexes, installer};
use crate::notes::Notes;
use crate::reads::{ReadWithOwn, read_at};
use si_model::{Installer, Kind, OutOfMemory, Part, Stamp, TxnId, VersionId};
use si_timeline::Version;
use std::alloc::Global;

/// A read, by its transaction and its place there.
#[derive(Clone, Copy, Debug, PartialEq, Eq, PartialOrd, Ord)]
pub struct ReadId {
    pub txn: TxnId,
    pub place: usize,
}

/// A judge, and what it found.
#[derive(Drop)]
pub struct Judgements<J> {
    pub judge: J,
    /// The findings of reads.
    pub reads: FoundReads,
    /// The overlaps, under the commit stamps of their first versions.
    pub overlaps: FoundPairs,
    /// What comes and goes, where that is noted.
    pub notes: Option<Box<Notes>>,
}

impl<J: Judge + Drop> Judgements<J> {
    /// Nothing is judged yet, and all is to be by this judge.
    pub fn new(alloc: Global, judge: J) -> Self
        ensures judge { result.judge ≡ judge }
        ensures reads { (o : ReadId) → value_at read_cmp result.reads o ≡ None }
        ensures overlaps { (c : Stamp) → value_at stamp_cmp result.overlaps c ≡ None }
        ensures nothing { (result.reads ≡ []) × (result.overlaps ≡ []) }
        ensures notes { result.notes ≡ None }
    {
        Judgements {
            judge,
            reads: FoundReads::new(alloc),
            overlaps: FoundPairs::new(alloc),
            notes: None,
        }
    }

    /// Puts what is found of the read in its place.
    #[inline(always)]
    fn put_read(&mut self, id: ReadId, kind: Option<Kind>) -> Result<(), OutOfMemory>
        requires { IfSome kind (NamesRead id.txn id.place) }
        ensures reads { OnOk result (Sets read_cmp id kind self.old.reads self.new.reads) }
        ensures others { self.new ≡ record self.old { reads = self.new.reads; notes = self.new.notes } }
        ensures noted { OnOk result (KeepsNotes self.old self.new) }
    {
        if self.notes.is_some() {
            self.note_read(id, kind)?;
        }
        let _rising = self.reads.len();
        self.reads.put(id, kind)?;
        let _rises = self.reads.len();
        Ok(())
    }

    #[cold]
    #[inline(never)]
    fn note_read(&mut self, id: ReadId, kind: Option<Kind>) -> Result<(), OutOfMemory>
        ensures noted { OnOk result (IsNoted (value_at read_cmp self.old.reads id) kind self.old.notes self.new.notes) }
        ensures others { self.new ≡ record self.old { notes = self.new.notes } }
    {
        let former = self.reads.get(id);
        self.note(former, kind)
    }

    /// Puts the pair under its commit.
    #[inline(always)]
    fn put_pair(&mut self, commit: Stamp, pair: Option<Pair>) -> Result<(), OutOfMemory>
        ensures overlaps { OnOk result (Sets stamp_cmp commit (option_map overlap_of pair) self.old.overlaps self.new.overlaps) }
        ensures others { self.new ≡ record self.old { overlaps = self.new.overlaps; notes = self.new.notes } }
        ensures noted { OnOk result (KeepsNotes self.old self.new) }
    {
        if self.notes.is_some() {
            self.note_pair(commit, pair)?;
        }
        let _rising = self.overlaps.len();
        self.overlaps.put(commit, pair)?;
        let _rises = self.overlaps.len();
        Ok(())
    }

    #[cold]
    #[inline(never)]
    fn note_pair(&mut self, commit: Stamp, pair: Option<Pair>) -> Result<(), OutOfMemory>
        ensures noted { OnOk result (IsNoted (value_at stamp_cmp self.old.overlaps commit) (option_map overlap_of pair) self.old.notes self.new.notes) }
        ensures others { self.new ≡ record self.old { notes = self.new.notes } }
    {
        let former = self.overlaps.get(commit);
        self.note(former, kind_of(pair))
    }

    fn note(&mut self, former: Option<Kind>, now: Option<Kind>) -> Result<(), OutOfMemory>
        ensures noted { OnOk result (IsNoted former now self.old.notes self.new.notes) }
        ensures others { self.new ≡ record self.old { notes = self.new.notes } }
    {
        match &mut self.notes {
            Some(notes) => notes.note(former, now),
            None => Ok(()),
        }
    }

    /// Judges these reads.
    pub fn judge_reads(
        &mut self,
        indexes: &Indexes,
        reads: &[ReadWithOwn],
    ) -> Result<(), OutOfMemory>
        ensures reads { OnOk result ((M : OnKey) → AreIndexes M indexes.now
            → AreReadsJudged J.rules M indexes.now reads.now (value_at read_cmp self.old.reads) (value_at read_cmp self.new.reads)) }
        ensures overlaps { OnOk result (self.new.overlaps ≡ self.old.overlaps) }
        ensures counted { OnOk result (J.answers self.new.judge ≡ risen (J.answers self.old.judge) (length reads.now)) }
        ensures noted { OnOk result (KeepsNotes self.old self.new) }
    {
        for read in reads {
            self.judge_one(indexes, *read)?;
        }
        Ok(())
    }

    /// Judges the reads of the transaction, if it is committed.
    #[tactic(auto, unfolding(crate::specs::Indexes::reads_in))]
    pub fn judge_reads_in(&mut self, indexes: &Indexes, part: &Part) -> Result<(), OutOfMemory>
        requires { AllPairs (λ a b. a.place < b.place) part.now.accesses }
        ensures reads { OnOk result ((M : OnKey) → AreIndexes M indexes.now
            → AreReadsJudged J.rules M indexes.now (reads_in part.now) (value_at read_cmp self.old.reads) (value_at read_cmp self.new.reads)) }
        ensures overlaps { OnOk result (self.new.overlaps ≡ self.old.overlaps) }
        ensures counted { OnOk result (J.answers self.new.judge ≡ risen (J.answers self.old.judge) (length (reads_in part.now))) }
        ensures noted { OnOk result (KeepsNotes self.old self.new) }
    {
        match part.status.commit() {
            None => Ok(()),
            Some(_) => self.judge_reads_of(indexes, part),
        }
    }

    #[tactic(auto, using(crate::proofs::OwnValues::own_is))]
    fn judge_reads_of(&mut self, indexes: &Indexes, part: &Part) -> Result<(), OutOfMemory>
        requires { AllPairs (λ a b. a.place < b.place) part.now.accesses }
        ensures reads { OnOk result ((M : OnKey) → AreIndexes M indexes.now
            → AreReadsJudged J.rules M indexes.now (reads_of part.now) (value_at read_cmp self.old.reads) (value_at read_cmp self.new.reads)) }
        ensures overlaps { OnOk result (self.new.overlaps ≡ self.old.overlaps) }
        ensures counted { OnOk result (J.answers self.new.judge ≡ risen (J.answers self.old.judge) (length (reads_of part.now))) }
        ensures noted { OnOk result (KeepsNotes self.old self.new) }
    {
        let mut own = None;
        for placed in part.accesses.as_slice() {
            self.judge_if(indexes, read_at(part, own, *placed))?;
            own = placed.access.written().or(own);
        }
        Ok(())
    }

    /// Judges the read, if there is one.
    fn judge_if(&mut self, indexes: &Indexes, read: Option<ReadWithOwn>) -> Result<(), OutOfMemory>
        ensures reads { OnOk result ((M : OnKey) → AreIndexes M indexes.now
            → AreReadsJudged J.rules M indexes.now (option_to_list read) (value_at read_cmp self.old.reads) (value_at read_cmp self.new.reads)) }
        ensures overlaps { OnOk result (self.new.overlaps ≡ self.old.overlaps) }
        ensures counted { OnOk result (J.answers self.new.judge ≡ risen (J.answers self.old.judge) (length (option_to_list read))) }
        ensures noted { OnOk result (KeepsNotes self.old self.new) }
    {
        match read {
            Some(read) => self.judge_one(indexes, read),
            None => Ok(()),
        }
    }

    fn judge_one(&mut self, indexes: &Indexes, read: ReadWithOwn) -> Result<(), OutOfMemory>
        ensures reads { OnOk result ((M : OnKey) → AreIndexes M indexes.now
            → AreReadsJudged J.rules M indexes.now (read ∷ []) (value_at read_cmp self.old.reads) (value_at read_cmp self.new.reads)) }
        ensures overlaps { OnOk result (self.new.overlaps ≡ self.old.overlaps) }
        ensures counted { OnOk result (J.answers self.new.judge ≡ risen (J.answers self.old.judge) 1) }
        ensures noted { OnOk result (KeepsNotes self.old self.new) }
    {
        let kind = self.judge.read(&indexes.sight_of(read));
        self.put_read(id_of(read), kind)?;
        Ok(())
    }

    /// Forgets what was found of these reads.
    pub fn forget_reads(&mut self, reads: &[ReadWithOwn]) -> Result<(), OutOfMemory>
        ensures reads { OnOk result (AreForgotten reads.now (value_at read_cmp self.old.reads) (value_at read_cmp self.new.reads)) }
        ensures overlaps { OnOk result (self.new.overlaps ≡ self.old.overlaps) }
        ensures judge { OnOk result (self.new.judge ≡ self.old.judge) }
        ensures noted { OnOk result (KeepsNotes self.old self.new) }
    {
        for read in reads {
            self.put_read(id_of(*read), None)?;
        }
        Ok(())
    }

    /// Judges a version with the one next after it.
    pub fn judge_pair(&mut self, indexes: &Indexes, first: Installer) -> Result<(), OutOfMemory>
        ensures overlaps { OnOk result ((M : OnKey) → AreIndexes M indexes.now
            → IsPairJudged J.rules M first (value_at stamp_cmp self.old.overlaps) (value_at stamp_cmp self.new.overlaps)) }
        ensures reads { OnOk result (self.new.reads ≡ self.old.reads) }
        ensures counted { OnOk result (RisesBy 1 (J.answers self.old.judge) (J.answers self.new.judge)) }
        ensures noted { OnOk result (KeepsNotes self.old self.new) }
    {
        let next = indexes.next_after(VersionId::Installed(first.commit));
        self.judge_neighbours(first, next)?;
        Ok(())
    }

    /// Judges a version with that one, which is next after it, if there is one.
    fn judge_neighbours(
        &mut self,
        first: Installer,
        next: Option<Installer>,
    ) -> Result<(), OutOfMemory>
        ensures overlaps { OnOk result ((c : Stamp) → value_at stamp_cmp self.new.overlaps c
            ≡ with_kind (value_at stamp_cmp self.old.overlaps) first.commit (overlap_with J.rules first next) c) }
        ensures reads { OnOk result (self.new.reads ≡ self.old.reads) }
        ensures counted { OnOk result (RisesBy 1 (J.answers self.old.judge) (J.answers self.new.judge)) }
        ensures noted { OnOk result (KeepsNotes self.old self.new) }
    {
        let pair = self.overlap_with(first, next);
        self.put_pair(first.commit, pair)?;
        Ok(())
    }

    /// Judges the version that was installed last before the stamp with the one next after it.
    pub fn judge_pair_before(&mut self, indexes: &Indexes, stamp: Stamp) -> Result<(), OutOfMemory>
        ensures overlaps { OnOk result ((M : OnKey) → AreIndexes M indexes.now
            → IsPairJudgedBefore J.rules M indexes.now stamp (value_at stamp_cmp self.old.overlaps) (value_at stamp_cmp self.new.overlaps)) }
        ensures reads { OnOk result (self.new.reads ≡ self.old.reads) }
        ensures counted { OnOk result (RisesBy 1 (J.answers self.old.judge) (J.answers self.new.judge)) }
        ensures noted { OnOk result (KeepsNotes self.old self.new) }
    {
        match indexes.timeline.before(stamp) {
            Some((commit, version)) => self.judge_pair(indexes, installer(commit, version)),
            None => Ok(()),
        }
    }

    /// Forgets the overlap of the version that was installed at the stamp.
    pub fn forget_pair(&mut self, commit: Stamp) -> Result<(), OutOfMemory>
        ensures overlaps { OnOk result ((c : Stamp) → value_at stamp_cmp self.new.overlaps c ≡ with_kind (value_at stamp_cmp self.old.overlaps) commit None c) }
        ensures reads { OnOk result (self.new.reads ≡ self.old.reads) }
        ensures judge { OnOk result (self.new.judge ≡ self.old.judge) }
        ensures noted { OnOk result (KeepsNotes self.old self.new) }
    {
        self.put_pair(commit, None)
    }

    /// Judges the version with the one before it and the one after it, if there is a version.
    pub fn judge_version(
        &mut self,
        indexes: &Indexes,
        version: Option<(Stamp, Version)>,
    ) -> Result<(), OutOfMemory>
        requires { IfSome version (Contains indexes.now.timeline) }
        ensures overlaps { OnOk result ((M : OnKey) → AreIndexes M indexes.now
            → IsVersionJudged J.rules M indexes.now version (value_at stamp_cmp self.old.overlaps) (value_at stamp_cmp self.new.overlaps)) }
        ensures reads { OnOk result (self.new.reads ≡ self.old.reads) }
        ensures counted { OnOk result (RisesBy 2 (J.answers self.old.judge) (J.answers self.new.judge)) }
        ensures noted { OnOk result (KeepsNotes self.old self.new) }
    {
        if let Some((commit, version)) = version {
            self.judge_former(indexes, commit, version)?;
            self.judge_pair(indexes, installer(commit, version))?;
        }
        Ok(())
    }

    /// Judges the version that was installed last before that one with that one, which is next after it.
    fn judge_former(
        &mut self,
        indexes: &Indexes,
        commit: Stamp,
        version: Version,
    ) -> Result<(), OutOfMemory>
        requires { Contains indexes.now.timeline (commit, version) }
        ensures overlaps { OnOk result ((M : OnKey) → AreIndexes M indexes.now
            → IsPairJudgedBefore J.rules M indexes.now commit (value_at stamp_cmp self.old.overlaps) (value_at stamp_cmp self.new.overlaps)) }
        ensures reads { OnOk result (self.new.reads ≡ self.old.reads) }
        ensures counted { OnOk result (RisesBy 1 (J.answers self.old.judge) (J.answers self.new.judge)) }
        ensures noted { OnOk result (KeepsNotes self.old self.new) }
    {
        if let Some((former, first)) = indexes.timeline.before(commit) {
            let next = Some(installer(commit, version));
            self.judge_neighbours(installer(former, first), next)?;
        }
        Ok(())
    }

    /// Forgets the version, and judges the one before it with the one after it, if there is a version.
    pub fn forget_version(
        &mut self,
        indexes: &Indexes,
        version: Option<(Stamp, Version)>,
    ) -> Result<(), OutOfMemory>
        ensures overlaps { OnOk result ((M : OnKey) → AreIndexes M indexes.now
            → IsVersionForgotten J.rules M indexes.now version (value_at stamp_cmp self.old.overlaps) (value_at stamp_cmp self.new.overlaps)) }
        ensures reads { OnOk result (self.new.reads ≡ self.old.reads) }
        ensures counted { OnOk result (RisesBy 2 (J.answers self.old.judge) (J.answers self.new.judge)) }
        ensures noted { OnOk result (KeepsNotes self.old self.new) }
    {
        if let Some((commit, _)) = version {
            self.forget_pair(commit)?;
            self.judge_pair_before(indexes, commit)?;
        }
        Ok(())
    }

    fn overlap_with(&mut self, first: Installer, next: Option<Installer>) -> Option<Pair>
        ensures overlap { option_map overlap_of result ≡ overlap_with J.rules first next }
        ensures reads { self.new.reads ≡ self.old.reads }
        ensures overlaps { self.new.overlaps ≡ self.old.overlaps }
        ensures notes { self.new.notes ≡ self.old.notes }
        ensures counted { RisesBy 1 (J.answers self.old.judge) (J.answers self.new.judge) }
    {
        let next = next?;
        if self.judge.pair(first.commit, next.start) {
            Some((first.txn, next.txn))
        } else {
            None
        }
    }
}

fn id_of(read: ReadWithOwn) -> ReadId
    ensures { result ≡ id_of read }
{
    ReadId {
        txn: read.0.txn,
        place: read.0.place,
    }
}
