//! What a judge looks at to judge one read.

use crate::{Stamp, TxnId, Value};

/// A committed transaction that installs a version of a key.
#[derive(Clone, Copy, Debug, PartialEq, Eq)]
pub struct Installer {
    pub txn: TxnId,
    pub start: Stamp,
    pub commit: Stamp,
}

/// A version of a key, named by the commit stamp of its installer; the initial version has none.
#[derive(Clone, Copy, Debug, PartialEq, Eq)]
pub enum VersionId {
    /// The version that stands before all others and belongs to no transaction.
    Initial,
    /// The version that was installed at this commit.
    Installed(Stamp),
}

/// Where the value comes from that a read returned.
#[derive(Clone, Copy, Debug, PartialEq, Eq)]
pub enum Source {
    /// The initial version doesn't return it, and no present transaction writes it.
    Missing,
    /// The initial version returns it.
    Initial,
    /// A transaction in doubt writes it.
    InDoubt(TxnId),
    /// An aborted transaction writes it.
    Aborted(TxnId),
    /// A committed transaction writes it, and writes another value later.
    Earlier(TxnId),
    /// A committed transaction installs it, with this commit stamp.
    Installed(TxnId, Stamp),
}

/// All that a judge looks at to judge one read.
#[derive(Clone, Copy, Debug, PartialEq, Eq)]
pub struct Sight {
    /// The reader.
    pub txn: TxnId,
    /// The place of the read among the reader's operations.
    pub op: usize,
    /// The reader's start.
    pub start: Stamp,
    /// What the read returned: `None` for `null`.
    pub read: Option<Value>,
    /// The reader's last write of the key before the read.
    pub own: Option<Value>,
    /// Whether the reader writes the value read to the key after the read.
    pub later: bool,
    pub source: Source,
    /// The version that was missed: installed next after the one read, and before the reader's start.
    pub missed: Option<Installer>,
}
