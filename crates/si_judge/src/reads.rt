//! The reads and writes of one transaction on a key, as they are looked for.

ghost use Rattle.std.specs.Prelude.{◌≡◌, ◌<◌, IfOk, None, length};
ghost use Rattle.std.specs.List.{AllPairs};
ghost use Rattle.si_judge.specs.Indexes.{fate_of, is_other, read_at, reads_of, reads_in, write_at, writes_of, version_by};
ghost use Rattle.si_model.specs.Versions.{last_write};
ghost use Rattle.si_model.specs.Reads.{own_value};
ghost use Rattle.si_judge.specs.Sights.{source_told};

use si_model::versions::last_write;
use si_model::{Access, OutOfMemory, Part, Placed, Source, Stamp, Status, TxnId, Value};
use si_timeline::Version;
use std::alloc::Global;

/// A read of a committed transaction. KeptReads are in the order of what they returned, and then of their starts.
#[derive(Clone, Copy, Debug, PartialEq, Eq, PartialOrd, Ord)]
pub struct KeptRead {
    /// What the read returned: `None` for `null`.
    pub value: Option<Value>,
    pub start: Stamp,
    pub txn: TxnId,
    /// The place of the read among the transaction's operations.
    pub place: usize,
}

/// A read, and its transaction's own value there.
pub type ReadWithOwn = (KeptRead, Option<Value>);

/// What became of a write.
#[derive(Clone, Copy, Debug, PartialEq, Eq)]
pub enum Fate {
    /// Its transaction is in doubt.
    InDoubt,
    /// Its transaction aborted.
    Aborted,
    /// Its transaction is committed, and wrote the key again.
    Earlier,
    /// It installed a version with that commit stamp.
    Installed(Stamp),
}

impl Fate {
    /// Whether the write installed no version.
    pub fn is_other(self) -> bool
        ensures { result ≡ is_other self }
    {
        match self {
            Fate::Installed(_) => false,
            Fate::InDoubt | Fate::Aborted | Fate::Earlier => true,
        }
    }
}

/// The write of a value.
#[derive(Clone, Copy, Debug, PartialEq, Eq)]
pub struct Write {
    pub txn: TxnId,
    /// The place of the write among the transaction's operations.
    pub place: usize,
    pub fate: Fate,
}

impl Write {
    /// Where a read of the value comes from.
    pub fn source(self) -> Source
        ensures { result ≡ source_told self.txn self.fate }
    {
        match self.fate {
            Fate::InDoubt => Source::InDoubt(self.txn),
            Fate::Aborted => Source::Aborted(self.txn),
            Fate::Earlier => Source::Earlier(self.txn),
            Fate::Installed(commit) => Source::Installed(self.txn, commit),
        }
    }
}

/// The reads of the transaction if it is committed, and else none.
#[tactic(auto, unfolding(crate::specs::Indexes::reads_in))]
pub fn reads_in(alloc: Global, part: &Part) -> Result<Vec<ReadWithOwn>, OutOfMemory>
    requires { AllPairs (λ a b. a.place < b.place) part.now.accesses }
    ensures { IfOk result (λ reads. reads.items ≡ reads_in part.now) }
{
    match part.status.commit() {
        None => Ok(Vec::new(alloc)),
        Some(_) => reads_of(alloc, part),
    }
}

#[tactic(auto, using(crate::proofs::OwnValues::own_is, crate::proofs::OwnValues::last_grows))]
fn reads_of(alloc: Global, part: &Part) -> Result<Vec<ReadWithOwn>, OutOfMemory>
    requires { AllPairs (λ a b. a.place < b.place) part.now.accesses }
    ensures { IfOk result (λ reads. reads.items ≡ reads_of part.now) }
{
    let mut own = None;
    let mut reads = Vec::new(alloc);
    for placed in part.accesses.as_slice() {
        if let Some(read) = read_at(part, own, *placed) {
            reads.push(read)?;
        }
        own = placed.access.written().or(own);
    }
    Ok(reads)
}

/// The read, if the access is one, where the transaction's own value is `own`.
pub fn read_at(part: &Part, own: Option<Value>, placed: Placed) -> Option<ReadWithOwn>
    requires { own ≡ own_value part.now placed.place }
    ensures { result ≡ read_at part.now placed }
{
    match placed.access {
        Access::Write(_) => None,
        Access::Read(value) => {
            let reader = KeptRead {
                value,
                start: part.start,
                txn: part.id,
                place: placed.place,
            };
            Some((reader, own))
        }
    }
}

/// The writes of the transaction, each with its value.
pub fn writes_of(alloc: Global, part: &Part) -> Result<Vec<(Value, Write)>, OutOfMemory>
    ensures { IfOk result (λ writes. writes.items ≡ writes_of part.now) }
{
    let last = last_write(part.accesses.as_slice());
    let mut writes = Vec::new(alloc);
    for placed in part.accesses.as_slice() {
        if let Some(write) = write_at(part, last, *placed) {
            writes.push(write)?;
        }
    }
    Ok(writes)
}

/// The write, if the access is one, of a transaction that writes `last` last.
pub fn write_at(part: &Part, last: Option<Value>, placed: Placed) -> Option<(Value, Write)>
    requires { last ≡ last_write part.now.accesses }
    ensures { result ≡ write_at part.now placed }
{
    let value = placed.access.written()?;
    Some((
        value,
        Write {
            txn: part.id,
            place: placed.place,
            fate: fate_of(part.status, last, value),
        },
    ))
}

/// What became of a write of the value by a transaction with that status, which writes `last` last.
fn fate_of(status: Status, last: Option<Value>, value: Value) -> Fate
    ensures { result ≡ fate_of status last value }
{
    match status {
        Status::Aborted => Fate::Aborted,
        Status::InDoubt => Fate::InDoubt,
        Status::Committed(commit) if last == Some(value) => Fate::Installed(commit),
        Status::Committed(_) => Fate::Earlier,
    }
}

/// The version that the transaction installs, if it installs one, with its commit stamp.
pub fn version_by(part: &Part) -> Option<(Stamp, Version)>
    ensures { result ≡ version_by part.now }
{
    version_with(part, last_write(part.accesses.as_slice()))
}

/// The same of a transaction that writes `last` last.
pub fn version_with(part: &Part, last: Option<Value>) -> Option<(Stamp, Version)>
    requires { last ≡ last_write part.now.accesses }
    ensures { result ≡ version_by part.now }
{
    let commit = part.status.commit()?;
    let value = last?;
    Some((
        commit,
        Version {
            writer: part.id,
            start: part.start,
            value,
        },
    ))
}
