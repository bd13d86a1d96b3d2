//! The cases that decide the kind of a read, and whether two versions overlap.

ghost use Rattle.std.specs.Prelude.{◌≡◌};
ghost use Rattle.si_model.specs.Reads.{kind_of, judged_by_source, judged_by_next, overlaps};

use crate::{Kind, Sight, Source, Stamp};

/// The kind of finding that a read is, if it is one: the first case that applies.
#[tactic(auto, unfolding(crate::specs::Reads::kind_of))]
pub fn kind_of(sight: &Sight) -> Option<Kind>
    ensures { result ≡ kind_of sight.now }
{
    match sight.own {
        Some(own) if sight.read == Some(own) => None,
        None if !sight.later => by_source(sight),
        own => Some(Kind::Own {
            txn: sight.txn,
            op: sight.op,
            read: sight.read,
            own,
        }),
    }
}

/// Whether the installer of a version, with that commit stamp, committed after the next one's start.
pub fn overlaps(commit: Stamp, start: Stamp) -> bool
    ensures { result ≡ overlaps commit start }
{
    start < commit
}

fn by_source(sight: &Sight) -> Option<Kind>
    ensures { result ≡ judged_by_source sight.now sight.now.source }
{
    let Sight { txn, op, read, .. } = *sight;
    match sight.source {
        Source::Missing => Some(Kind::Unknown { txn, op, read }),
        Source::InDoubt(writer) => Some(Kind::Doubt {
            txn,
            op,
            read,
            writer,
        }),
        Source::Aborted(writer) => Some(Kind::Aborted {
            txn,
            op,
            read,
            writer,
        }),
        Source::Earlier(writer) => Some(Kind::Intermediate {
            txn,
            op,
            read,
            writer,
        }),
        Source::Installed(writer, commit) if sight.start < commit => Some(Kind::Future {
            txn,
            op,
            read,
            writer,
        }),
        Source::Installed(..) | Source::Initial => by_next(sight),
    }
}

fn by_next(sight: &Sight) -> Option<Kind>
    ensures { result ≡ judged_by_next sight.now sight.now.missed }
{
    let missed = sight.missed?.txn;
    Some(Kind::Stale {
        txn: sight.txn,
        op: sight.op,
        read: sight.read,
        missed,
    })
}
