//! What one transaction does on a key, in a few numbers.

ghost use Rattle.std.specs.Prelude.{◌≡◌, ◌&&◌, not, count_by};
ghost use Rattle.si_model.specs.Chances.{is_committed, is_read_access, is_write_access};
ghost use Rattle.si_model.specs.Versions.{last_write};
ghost use Rattle.si_chances.specs.Summaries.{Rise, own_reads, free_reads, write_count, wrote_among};

use si_model::{Access, Part, Placed, Status, Value};

/// What a transaction does on a key.
#[derive(Clone, Copy)]
pub struct Summary {
    /// How many of its reads are judged and come after a write of its own.
    pub own: usize,
    /// How many of its reads are judged and come before any write of its own.
    pub free: usize,
    pub writes: usize,
    /// What it writes last, if it writes.
    pub last: Option<Value>,
}

/// What the transaction does on the key. Only the reads of a committed one are judged.
pub fn summary_of(part: &Part) -> Summary
    requires { Rise part.now.accesses }
    ensures own { result.own ≡ own_reads part.now }
    ensures free { result.free ≡ free_reads part.now }
    ensures writes { result.writes ≡ write_count part.now }
    ensures last { result.last ≡ last_write part.now.accesses }
{
    let mut summary = walked(part.accesses.as_slice());
    if !is_committed(part.status) {
        summary.own = 0;
        summary.free = 0;
    }
    summary
}

/// Whether it committed.
pub fn is_committed(status: Status) -> bool
    ensures { result ≡ is_committed status }
{
    status.commit().is_some()
}

/// The same of accesses, as if they were a committed transaction's.
fn walked(accesses: &[Placed]) -> Summary
    requires { Rise accesses.now }
    ensures own { result.own ≡ count_by (λ a. is_read_access a.access && wrote_among accesses.now a.place) accesses.now }
    ensures free { result.free ≡ count_by (λ a. is_read_access a.access && not (wrote_among accesses.now a.place)) accesses.now }
    ensures writes { result.writes ≡ count_by (λ a. is_write_access a.access) accesses.now }
    ensures last { result.last ≡ last_write accesses.now }
{
    let mut own = 0;
    let mut free = 0;
    let mut writes = 0;
    let mut last = None;
    for placed in accesses {
        match placed.access {
            Access::Write(value) => {
                writes += 1;
                last = Some(value);
            }
            Access::Read(_) if writes == 0 => free += 1,
            Access::Read(_) => own += 1,
        }
    }
    Summary {
        own,
        free,
        writes,
        last,
    }
}
