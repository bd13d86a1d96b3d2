//! Neighbouring versions of one key.

ghost use Rattle.std.specs.Prelude.{◌≡◌};
ghost use Rattle.si_model.specs.Versions.{is_after};
ghost use Rattle.si_graph.specs.EvidenceTests.{is_between, stays_out, is_next_on, follows, are_neighbours, installs_value};

use crate::Lookup;
use crate::keys::{install_on, is_committed, is_last_on};
use si_model::{Installer, Key, Stamp, Txn, Value, VersionId};

/// Whether both are installers, of neighbouring versions of the key.
pub fn are_neighbours<L: Lookup>(
    lookup: &L,
    key: &Key,
    first: Option<Installer>,
    second: Option<Installer>,
) -> bool
    ensures { result ≡ are_neighbours (L.present lookup.now).txns key.now first second }
{
    match first {
        None => false,
        Some(first) => follows(lookup, key, VersionId::Installed(first.commit), second),
    }
}

/// Whether there is an installer, of the version of the key next after another.
pub fn follows<L: Lookup>(
    lookup: &L,
    key: &Key,
    after: VersionId,
    second: Option<Installer>,
) -> bool
    ensures { result ≡ follows (L.present lookup.now).txns key.now after second }
{
    match second {
        None => false,
        Some(second) => is_next_on(lookup, key, after, second.commit),
    }
}

fn is_next_on<L: Lookup>(lookup: &L, key: &Key, after: VersionId, commit: Stamp) -> bool
    ensures { result ≡ is_next_on (L.present lookup.now).txns key.now after commit }
{
    is_after(after, commit) && lookup.all_stay_out(key, after, commit)
}

/// Whether the transaction installs the value: it committed, and its last write of the key is of it.
pub fn installs_value(key: &Key, value: Value, txn: &Txn) -> bool
    ensures { result ≡ installs_value key.now value txn.now }
{
    is_committed(txn) && is_last_on(key, value, txn)
}

/// Whether the transaction installs no version of the key between these two.
pub fn stays_out(key: &Key, after: VersionId, commit: Stamp, txn: &Txn) -> bool
    ensures { result ≡ stays_out key.now after commit txn.now }
{
    !is_between(after, commit, install_on(key, txn))
}

fn is_between(after: VersionId, commit: Stamp, other: Option<Installer>) -> bool
    ensures { result ≡ is_between after commit other }
{
    match other {
        None => false,
        Some(other) => is_after(after, other.commit) && other.commit < commit,
    }
}

fn is_after(after: VersionId, commit: Stamp) -> bool
    ensures { result ≡ is_after after commit }
{
    match after {
        VersionId::Initial => true,
        VersionId::Installed(after) => after < commit,
    }
}
