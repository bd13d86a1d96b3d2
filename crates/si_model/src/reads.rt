//! What is seen at a read, found by walking the parts on its key.

ghost use Rattle.std.specs.Prelude.{◌≡◌};
ghost use Rattle.std.specs.List.{find, list_any};
ghost use Rattle.std.specs.Option.{option_copied};
ghost use Rattle.si_model.specs.Versions.{part_writes};
ghost use Rattle.si_model.specs.Reads.{own_value, is_later_write, writes_later, source_by, source_among, source_of, if_before, missed_at, version_of, sight_of};

use crate::versions::{last_write, next_after, writes};
use crate::{Installer, OnKey, Part, Sight, Source, Stamp, Status, Value, VersionId};

/// What is seen at the part's read of that value at that place.
#[tactic(auto, unfolding(crate::specs::Reads::sight_of))]
pub fn sight_of(on_key: &OnKey, part: &Part, op: usize, read: Option<Value>) -> Sight
    ensures { result ≡ sight_of on_key.now part.now op read }
{
    let source = source_of(on_key, read);
    Sight {
        txn: part.id,
        op,
        start: part.start,
        read,
        own: own_value(part, op),
        later: writes_later(part, op, read),
        source,
        missed: missed_at(on_key.parts.as_slice(), part.start, source),
    }
}

#[tactic(auto, unfolding(crate::specs::Reads::own_value))]
fn own_value(part: &Part, op: usize) -> Option<Value>
    ensures { result ≡ own_value part.now op }
{
    part.accesses
        .as_slice()
        .iter()
        .filter(|placed| placed.place < op)
        .fold(None, |last, placed| placed.access.written().or(last))
}

#[tactic(auto, unfolding(crate::specs::Reads::writes_later))]
fn writes_later(part: &Part, op: usize, read: Option<Value>) -> bool
    ensures { result ≡ writes_later part.now op read }
{
    match read {
        None => false,
        Some(value) => writes_after(part, op, value),
    }
}

fn writes_after(part: &Part, op: usize, value: Value) -> bool
    ensures { result ≡ list_any (is_later_write op value) part.now.accesses }
{
    part.accesses.as_slice().iter().any(|placed| op < placed.place
        && placed.access.is_write_of(value))
}

#[tactic(auto, unfolding(crate::specs::Reads::source_of))]
fn source_of(on_key: &OnKey, read: Option<Value>) -> Source
    ensures { result ≡ source_of on_key.now read }
{
    if read == on_key.initial {
        return Source::Initial;
    }
    source_among(on_key.parts.as_slice(), read)
}

/// Where what was read comes from, if the initial version doesn't return it.
fn source_among(parts: &[Part], read: Option<Value>) -> Source
    ensures { result ≡ source_among parts.now read }
{
    let Some(value) = read else {
        return Source::Missing;
    };
    match writer_of(parts, value) {
        None => Source::Missing,
        Some(writer) => source_by(writer, value),
    }
}

fn source_by(writer: &Part, value: Value) -> Source
    ensures { result ≡ source_by writer.now value writer.now.status }
{
    match writer.status {
        Status::Aborted => Source::Aborted(writer.id),
        Status::InDoubt => Source::InDoubt(writer.id),
        Status::Committed(commit) => {
            if last_write(writer.accesses.as_slice()) == Some(value) {
                Source::Installed(writer.id, commit)
            } else {
                Source::Earlier(writer.id)
            }
        }
    }
}

/// The first transaction that writes the value.
fn writer_of(parts: &[Part], value: Value) -> Option<&Part>
    ensures { option_copied result ≡ find (part_writes value) parts.now }
{
    parts.iter().find(|part| writes(part, value))
}

/// What a reader with that start missed after the version that it read.
#[tactic(auto, unfolding(crate::specs::Reads::missed_at))]
fn missed_at(parts: &[Part], start: Stamp, source: Source) -> Option<Installer>
    ensures { result ≡ missed_at parts.now start source }
{
    let read = version_of(source)?;
    if_before(start, next_after(parts, read))
}

/// The version that was read, where what was read is one.
pub fn version_of(source: Source) -> Option<VersionId>
    ensures { result ≡ version_of source }
{
    match source {
        Source::Initial => Some(VersionId::Initial),
        Source::Installed(_, commit) => Some(VersionId::Installed(commit)),
        Source::Missing | Source::InDoubt(_) | Source::Aborted(_) | Source::Earlier(_) => None,
    }
}

/// The version, where it was installed before the start.
pub fn if_before(start: Stamp, next: Option<Installer>) -> Option<Installer>
    ensures { result ≡ if_before start next }
{
    let next = next?;
    if next.commit < start {
        Some(next)
    } else {
        None
    }
}
