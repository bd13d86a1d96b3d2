//! A version, but for its commit, under which it stands.

use si_model::{Stamp, TxnId, Value};

/// A version of a key, which the last write of a committed transaction installed at its commit.
#[derive(Clone, Copy, Debug, PartialEq, Eq)]
pub struct Version {
    /// The transaction that installed it.
    pub writer: TxnId,
    /// The start stamp of that transaction.
    pub start: Stamp,
    /// What it wrote last.
    pub value: Value,
}
