//! What is on a key, found without a walk over it.

ghost use Rattle.std.specs.Prelude.{◌≡◌, ◌≢◌, ◌↔◌, ◌++◌, [], None, Some, Option, IfOk, IfSome, IsTrue, OnOk};
ghost use Rattle.std.specs.List.{Contains, filter};
ghost use Rattle.std.specs.Option.{option_eq};
ghost use Rattle.std.specs.Prelude.{if◌then◌else◌};
ghost use Rattle.si_model.specs.declared.parts.OnKey.{OnKey};
ghost use Rattle.si_model.specs.declared.sights.Source.TheVariants as source;
ghost use Rattle.si_model.specs.Operations.{same_value};
ghost use Rattle.si_model.specs.History.{IsOfHistory};
ghost use Rattle.si_model.specs.Versions.{last_write, next_after};
ghost use Rattle.si_model.specs.Reads.{missed_of};
ghost use Rattle.si_model.specs.Reads.{version_of};
ghost use Rattle.si_timeline.specs.Timelines.{IsNearestBefore};
ghost use Rattle.si_judge.specs.Indexes.{AddsVersion, AreIndexes, Fits, HasVersion, IsValueBefore, Joins, KeepsValuesOnce, LacksVersion, RemovesVersion, kept_reads_in, reads_in, version_by, writes_of};
ghost use Rattle.si_judge.specs.Sights.{is_write_after, later_with, sight_in, sight_of_nearest, source_with, stamp_of, version_in, write_in};
ghost use Rattle.si_judge.specs.Mending.{installer};

use crate::kept_reads::KeptReads;
use crate::maps::{insert_writes, remove_writes};
use crate::reads::{KeptRead, ReadWithOwn, Write, reads_in, version_by, writes_of};
use crate::versions::Versions;
use si_model::reads::{if_before, version_of};
use si_model::{Installer, OutOfMemory, Part, Sight, Source, Stamp, TxnId, Value, VersionId};
use si_sorted::SortedMap;
use si_timeline::Version;
use std::alloc::Global;

/// What is looked for on a key, but for the transactions there.
#[derive(Drop)]
pub struct Indexes {
    /// What the initial version returns.
    pub initial: Option<Value>,
    /// The installed versions.
    pub timeline: Versions,
    /// The writes of all transactions that installed no version, by their values.
    pub writes: SortedMap<Value, Write>,
    /// The reads of the committed transactions, each with its transaction's own value there.
    pub reads: KeptReads,
}

impl Indexes {
    /// Nothing is known of the key.
    pub fn new(alloc: Global) -> Self
        ensures initial { result.initial ≡ None }
        ensures timeline { result.timeline ≡ [] }
        ensures writes { result.writes ≡ [] }
        ensures reads { result.reads ≡ [] }
    {
        Indexes {
            initial: None,
            timeline: Versions::new(alloc),
            writes: SortedMap::new(alloc),
            reads: KeptReads::new(alloc),
        }
    }

    /// Puts a transaction in, which writes `last` last and installs this version, if it installs one.
    pub fn put_in(
        &mut self,
        part: &Part,
        last: Option<Value>,
        version: Option<(Stamp, Version)>,
    ) -> Result<(), OutOfMemory>
        requires fits { (M : OnKey) × AreIndexes M self.old × Fits part.now M }
        requires last { last ≡ last_write part.now.accesses }
        requires version { version ≡ version_by part.now }
        ensures { OnOk result ((M R : OnKey) → AreIndexes M self.old → Joins part.now M R → IsOfHistory R → AreIndexes R self.new) }
    {
        insert_writes(&mut self.writes, part, last)?;
        self.reads.insert_in(part)?;
        add_version(&mut self.timeline, version)?;
        Ok(())
    }

    /// Takes a transaction out that is in. Answers its reads, if it is committed.
    pub fn take_out(&mut self, alloc: Global, part: &Part) -> Result<Vec<ReadWithOwn>, OutOfMemory>
        requires { (M : OnKey) × AreIndexes M self.old × Contains M.parts part.now }
        ensures indexes { OnOk result ((M R : OnKey) → AreIndexes M self.old → Joins part.now R M → IsOfHistory R → AreIndexes R self.new) }
        ensures reads { IfOk result (λ taken. taken.items ≡ reads_in part.now) }
    {
        let reads = reads_in(alloc, part)?;
        let writes = writes_of(alloc, part)?;
        remove_writes(&mut self.writes, writes.as_slice());
        self.reads.remove_all(reads.as_slice());
        remove_version(&mut self.timeline, part);
        Ok(reads)
    }

    /// Whether nothing is looked for on the key.
    pub fn is_empty(&self) -> bool
        ensures { IsTrue result ↔ ((self.now.initial ≡ None) × (self.now.timeline ≡ []) × (self.now.writes ≡ []) × (self.now.reads ≡ [])) }
    {
        let has_writes = !self.timeline.is_empty() || !self.writes.is_empty();
        self.initial == None && !has_writes && self.reads.is_empty()
    }

    /// Adds the reads that returned the value, by readers that started after the stamp, if there is one.
    pub fn add_reads(
        &self,
        reads: &mut Vec<ReadWithOwn>,
        value: Option<Value>,
        after: Option<Stamp>,
    ) -> Result<(), OutOfMemory>
        ensures { OnOk result (reads.new.items ≡ reads.old.items ++ kept_reads_in self.now value after) }
    {
        self.reads.add_to(reads, value, after)
    }

    /// What a read of the version returns that stands before all that were installed at the stamp or later.
    pub fn value_before(&self, stamp: Stamp) -> Option<Value>
        ensures { IsValueBefore self.now stamp result }
    {
        match self.timeline.before(stamp) {
            Some((_, version)) => Some(version.value),
            None => self.initial,
        }
    }

    /// The installer of the version next after that one.
    pub fn next_after(&self, after: VersionId) -> Option<Installer>
        ensures { (M : OnKey) → AreIndexes M self.now → result ≡ next_after M.parts after }
    {
        match self.timeline.after(stamp_of(after)) {
            Some((commit, version)) => Some(installer(commit, version)),
            None => None,
        }
    }

    /// All that is seen at a read.
    pub fn sight_of(&self, read: ReadWithOwn) -> Sight
        ensures seen { (M : OnKey) → AreIndexes M self.now → result ≡ sight_in M self.now read }
        ensures txn { result.txn ≡ read.0.txn }
        ensures place { result.op ≡ read.0.place }
    {
        match self.nearest_read(read.0) {
            Some((commit, version)) => sight_of_nearest(read, version.writer, commit),
            None => self.sight_by_value(read),
        }
    }

    /// The version that a read returned, where it is the last one before its reader's start and another transaction's. It mostly is,
    /// and then nothing has to be looked for by its value, and no version was missed.
    fn nearest_read(&self, reader: KeptRead) -> Option<(Stamp, Version)>
        ensures { IfSome result (λ d. IsNearestBefore self.now.timeline reader.start (Some d) × (reader.value ≡ Some d.1.value) × (d.1.writer ≢ reader.txn)) }
    {
        let (commit, version) = self.timeline.before(reader.start)?;
        if reader.value == Some(version.value) && version.writer != reader.txn {
            return Some((commit, version));
        }
        None
    }

    /// All that is seen at a read, whose value is looked for among the writes and the versions.
    fn sight_by_value(&self, read: ReadWithOwn) -> Sight
        ensures seen { (M : OnKey) → AreIndexes M self.now → result ≡ sight_in M self.now read }
        ensures txn { result.txn ≡ read.0.txn }
        ensures place { result.op ≡ read.0.place }
    {
        let (reader, own) = read;
        let (told, later) = self.told_of(read);
        let source = self.source_of(reader.value, told);
        Sight {
            txn: reader.txn,
            op: reader.place,
            start: reader.start,
            read: reader.value,
            own,
            later,
            source,
            missed: self.missed_at(reader.start, source),
        }
    }

    /// Where what a read returned comes from if some transaction wrote it, and whether it is the reader's own, written after the read.
    fn told_of(&self, read: ReadWithOwn) -> (Source, bool)
        ensures source { (M : OnKey) → AreIndexes M self.now → result.0 ≡ source_with (write_in self.now read.0.value) (version_in self.now read.0.value) }
        ensures later { (M : OnKey) → AreIndexes M self.now → result.1 ≡ later_with read (write_in self.now read.0.value) (version_in self.now read.0.value) }
    {
        match self.write_of(read.0.value) {
            Some(write) => (write.source(), is_write_after(read.0, write)),
            None => told_by_version(read, self.version_of(read.0.value)),
        }
    }

    fn write_of(&self, value: Option<Value>) -> Option<Write>
        ensures { result ≡ write_in self.now value }
    {
        self.writes.get(value?)
    }

    /// The version with the value, and the commit stamp at which it was installed.
    fn version_of(&self, value: Option<Value>) -> Option<(Stamp, Version)>
        ensures { (M : OnKey) → AreIndexes M self.now → result ≡ version_in self.now value }
    {
        self.timeline.of_value(value?)
    }

    /// Where what a read returned comes from, which comes from there if a transaction wrote it.
    fn source_of(&self, value: Option<Value>, told: Source) -> Source
        ensures { result ≡ (if option_eq same_value value self.now.initial then source.Initial else told) }
    {
        if value == self.initial {
            return Source::Initial;
        }
        told
    }

    /// The version that a read from this source misses, if a transaction with that start should have seen a later one.
    fn missed_at(&self, start: Stamp, source: Source) -> Option<Installer>
        ensures { (M : OnKey) → AreIndexes M self.now → result ≡ missed_of M.parts start (version_of source) }
    {
        let read = version_of(source)?;
        if_before(start, self.next_after(read))
    }
}

/// Adds the version, if there is one.
fn add_version(
    timeline: &mut Versions,
    version: Option<(Stamp, Version)>,
) -> Result<(), OutOfMemory>
    requires lacks { LacksVersion version timeline.old }
    requires once { KeepsValuesOnce version timeline.old }
    ensures { OnOk result (AddsVersion version timeline.old timeline.new) }
{
    match version {
        Some((commit, version)) => timeline.insert(commit, version),
        None => Ok(()),
    }
}

/// Takes out the version that the transaction installs, if it installs one.
fn remove_version(timeline: &mut Versions, part: &Part)
    requires { HasVersion (version_by part.now) timeline.old }
    ensures { RemovesVersion (version_by part.now) timeline.old timeline.new }
{
    if let Some((commit, _)) = version_by(part) {
        timeline.remove(commit);
    }
}

/// All that is seen at a read that returned the last version before its reader's start, which that transaction installed at the commit.
fn sight_of_nearest(read: ReadWithOwn, writer: TxnId, commit: Stamp) -> Sight
    ensures { result ≡ sight_of_nearest read writer commit }
{
    let (reader, own) = read;
    Sight {
        txn: reader.txn,
        op: reader.place,
        start: reader.start,
        read: reader.value,
        own,
        later: false,
        source: Source::Installed(writer, commit),
        missed: None,
    }
}

/// The same where no write of the value but one of a version is known, by that version, if there is one.
fn told_by_version(read: ReadWithOwn, version: Option<(Stamp, Version)>) -> (Source, bool)
    ensures source { result.0 ≡ source_with None version }
    ensures later { result.1 ≡ later_with read None version }
{
    match version {
        None => (Source::Missing, false),
        Some((commit, version)) => {
            let is_own = version.writer == read.0.txn;
            let later = is_own && read.1 != read.0.value;
            (Source::Installed(version.writer, commit), later)
        }
    }
}

/// Whether the write is one of the reader, after the read.
fn is_write_after(reader: KeptRead, write: Write) -> bool
    ensures { result ≡ is_write_after reader write }
{
    write.txn == reader.txn && reader.place < write.place
}

/// The stamp after which the versions are that come after this one. No version is installed at 0.
fn stamp_of(version: VersionId) -> Stamp
    ensures { result ≡ stamp_of version }
{
    match version {
        VersionId::Initial => Stamp(0),
        VersionId::Installed(commit) => commit,
    }
}

/// The installer of a version.
pub fn installer(commit: Stamp, version: Version) -> Installer
    ensures { result ≡ installer (commit, version) }
{
    Installer {
        txn: version.writer,
        start: version.start,
        commit,
    }
}
