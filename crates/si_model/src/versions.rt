//! The versions of a key, found by walking the parts on it.

ghost use Rattle.std.specs.Prelude.{◌≡◌};
ghost use Rattle.si_model.specs.Versions.{last_write, part_writes, install, is_after, earlier, nearer, next_after};

use crate::{Installer, Part, Placed, Stamp, Value, VersionId};

/// The value of the last write.
pub fn last_write(accesses: &[Placed]) -> Option<Value>
    ensures { result ≡ last_write accesses.now }
{
    accesses
        .iter()
        .fold(None, |last, placed| placed.access.written().or(last))
}

/// Whether the transaction writes the value to the key.
pub fn writes(part: &Part, value: Value) -> bool
    ensures { result ≡ part_writes value part.now }
{
    part.accesses
        .as_slice()
        .iter()
        .any(|placed| placed.access.is_write_of(value))
}

/// The transaction as the installer of a version, where it is committed and writes the key.
pub fn install(part: &Part) -> Option<Installer>
    ensures { result ≡ install part.now }
{
    let commit = part.status.commit()?;
    let _installed = last_write(part.accesses.as_slice())?;
    Some(Installer {
        txn: part.id,
        start: part.start,
        commit,
    })
}

/// The installer of the version next after that one.
#[tactic(auto, unfolding(crate::specs::Versions::next_after))]
pub fn next_after(parts: &[Part], after: VersionId) -> Option<Installer>
    ensures { result ≡ next_after parts.now after }
{
    parts
        .iter()
        .fold(None, |best, part| nearer(after, best, install(part)))
}

fn nearer(after: VersionId, best: Option<Installer>, other: Option<Installer>) -> Option<Installer>
    ensures { result ≡ nearer after best other }
{
    match other {
        Some(other) if is_after(after, other.commit) => earlier(best, other),
        _ => best,
    }
}

fn earlier(best: Option<Installer>, other: Installer) -> Option<Installer>
    ensures { result ≡ earlier best other }
{
    match best {
        Some(best) if best.commit <= other.commit => Some(best),
        _ => Some(other),
    }
}

fn is_after(after: VersionId, commit: Stamp) -> bool
    ensures { result ≡ is_after after commit }
{
    match after {
        VersionId::Initial => true,
        VersionId::Installed(after) => after < commit,
    }
}
