//! The places of each kind on one key.

ghost use Rattle.std.specs.Prelude.{◌≡◌, ◌&&◌, ◌||◌, nat_lt, List, IfOk, IsSorted, sum_by, count_by};
ghost use Rattle.std.specs.List.{Contains, list_any};
ghost use Rattle.std.specs.Ordering.{nat_cmp};
ghost use Rattle.si_model.specs.declared.numbers.Stamp.{Stamp};
ghost use Rattle.si_model.specs.declared.parts.Part.{Part};
ghost use Rattle.si_model.specs.Versions.{last_write};
ghost use Rattle.si_model.specs.Chances.{commits_after, is_aborted, reads_after, writes_key};
ghost use Rattle.si_model.specs.History.{IsOfHistory};
ghost use Rattle.si_chances.specs.Summaries.{Rise, RiseAll, own_reads};
ghost use Rattle.si_chances.specs.Spans.{AreSorted, AreSpansOf, CountSpans};
ghost use Rattle.si_chances.specs.OnKeys.{on, places_on, aborted_before, reads_beside, is_in, installed_in};

use crate::adding::added;
use crate::searches::is_among;
use crate::spans::Spans;
use crate::summaries::{is_committed, summary_of};
use crate::values::returned;
use si_model::{OutOfMemory, Part, Status};
use std::alloc::Global;

/// How many places of each kind a key has.
#[derive(Clone, Copy)]
pub struct Places {
    pub own: usize,
    pub aborted: usize,
    pub intermediate: usize,
    pub future: usize,
    pub stale: usize,
    pub overlap: usize,
}

/// The places on a key on which the transactions do this.
pub fn places_on(alloc: Global, parts: &[Part]) -> Result<Places, OutOfMemory>
    requires { IsOfHistory (on parts.now) }
    ensures { IfOk result (λ places. places ≡ places_on (on parts.now)) }
{
    Ok(Places {
        own: own_reads(parts)?,
        aborted: aborted_before(parts, last_reader(parts)),
        intermediate: reads_beside(parts, &Spans::of(alloc, parts, 1)?, 1)?,
        future: reads_beside(parts, &Spans::of(alloc, parts, 0)?, 0)?,
        stale: installed_among(parts, &returned(alloc, parts)?),
        overlap: aborted_before(parts, last_installer(parts)),
    })
}

/// The reads of committed transactions that aren't free.
fn own_reads(parts: &[Part]) -> Result<usize, OutOfMemory>
    requires { RiseAll parts.now }
    ensures { IfOk result (λ count. count ≡ sum_by own_reads parts.now) }
{
    let mut count = 0;
    for part in parts {
        count = added(count, summary_of(part).own)?;
    }
    Ok(count)
}

/// The last commit of a transaction with a free read, or 0 where there is none.
fn last_reader(parts: &[Part]) -> u64
    requires { RiseAll parts.now }
    ensures { (s : Stamp) → list_any (reads_after s) parts.now ≡ nat_lt s.0 result }
{
    let mut last = 0;
    for part in parts {
        if summary_of(part).free > 0 {
            last = later(last, part.status);
        }
    }
    last
}

/// The last commit of a transaction that writes the key, or 0 where there is none.
fn last_installer(parts: &[Part]) -> u64
    requires { RiseAll parts.now }
    ensures { (s : Stamp) → list_any (λ T. commits_after s T.status && writes_key T) parts.now ≡ nat_lt s.0 result }
{
    let mut last = 0;
    for part in parts {
        if summary_of(part).writes > 0 {
            last = later(last, part.status);
        }
    }
    last
}

/// The later one of a stamp and a commit, if there is one.
fn later(last: u64, status: Status) -> u64
    ensures { (s : Stamp) → nat_lt s.0 result ≡ (nat_lt s.0 last || commits_after s status) }
{
    match status {
        Status::Committed(commit) => last.max(commit.0),
        Status::Aborted | Status::InDoubt => last,
    }
}

/// The writers that aborted and started before that stamp.
fn aborted_before(parts: &[Part], stamp: u64) -> usize
    requires { RiseAll parts.now }
    ensures { result ≡ count_by (aborted_before stamp) parts.now }
{
    let mut count = 0;
    for part in parts {
        if is_aborted_writer(part) && part.start.0 < stamp {
            count += 1;
        }
    }
    count
}

fn is_aborted_writer(part: &Part) -> bool
    requires { Rise part.now.accesses }
    ensures { result ≡ (is_aborted part.now.status && writes_key part.now) }
{
    match part.status {
        Status::Aborted => summary_of(part).writes > 0,
        Status::Committed(_) | Status::InDoubt => false,
    }
}

/// The free reads of transactions with which another one is concurrent that writes the key at more than so many places. These are the
/// spans of those.
fn reads_beside(parts: &[Part], spans: &Spans, places: usize) -> Result<usize, OutOfMemory>
    requires history { IsOfHistory (on parts.now) }
    requires spans { AreSpansOf places parts.now spans.now }
    ensures { IfOk result (λ count. count ≡ sum_by (reads_beside places parts.now) parts.now) }
{
    let mut count = 0;
    for part in parts {
        count = added(count, reads_of(part, spans, places))?;
    }
    Ok(count)
}

/// Those of one transaction. It is itself among the concurrent ones where it writes the key at so many places.
fn reads_of(part: &Part, spans: &Spans, places: usize) -> usize
    requires rise { Rise part.now.accesses }
    requires sorted { AreSorted spans.now }
    ensures { (parts : List Part) → IsOfHistory (on parts) → Contains parts part.now → CountSpans places parts spans.now → result ≡ reads_beside places parts part.now }
{
    match part.status {
        Status::Committed(commit) => {
            let summary = summary_of(part);
            if summary.free == 0 {
                return 0;
            }
            let itself = usize::from(summary.writes > places);
            if spans.how_many_beside(part.start, commit) > itself {
                summary.free
            } else {
                0
            }
        }
        Status::Aborted | Status::InDoubt => 0,
    }
}

/// The installers whose value is among these, which are in order.
fn installed_among(parts: &[Part], values: &[u64]) -> usize
    requires rise { RiseAll parts.now }
    requires sorted { IsSorted nat_cmp values.now }
    ensures { result ≡ count_by (installed_in values.now) parts.now }
{
    let mut count = 0;
    for part in parts {
        if is_committed(part.status) && is_last_among(part, values) {
            count += 1;
        }
    }
    count
}

/// Whether what the transaction writes last is among these, which are in order.
fn is_last_among(part: &Part, values: &[u64]) -> bool
    requires rise { Rise part.now.accesses }
    requires sorted { IsSorted nat_cmp values.now }
    ensures { result ≡ is_in values.now (last_write part.now.accesses) }
{
    match summary_of(part).last {
        Some(value) => is_among(values, value.0),
        None => false,
    }
}
