//! How many places there are at which a likely fault of a database would have shown a finding: what a clean verdict could have found.

/// The places of one kind.
#[derive(Clone, Copy, Debug, PartialEq, Eq)]
pub struct Count {
    /// How many places there are, on all keys.
    pub places: usize,
    /// How many keys have one at least.
    pub keys: usize,
}

/// The places of each kind of finding that is a violation.
#[derive(Clone, Copy, Debug, PartialEq, Eq)]
pub struct Chances {
    /// Reads of a committed transaction after a write of its own.
    pub own: Count,
    /// Writers that aborted, each of which some free read could have returned.
    pub aborted: Count,
    /// Free reads, each beside a transaction that wrote the key more than once and ran at the same time.
    pub intermediate: Count,
    /// Free reads, each beside a transaction that installed a version of the key and ran at the same time.
    pub future: Count,
    /// Installed versions, each of which a free read of another transaction returned.
    pub stale: Count,
    /// Writers that aborted, each of which started before the commit of a transaction that installed a version of the key.
    pub overlap: Count,
}
