//! When the transactions ran that install a version of a key.

ghost use Rattle.std.specs.Prelude.{◌≡◌, ◌-◌, OnOk, IfOk};
ghost use Rattle.si_chances.specs.Summaries.{Rise, RiseAll};
ghost use Rattle.si_chances.specs.Spans.{AddsSpan, AreSorted, AreSpansOf, below, up_to};

use crate::searches::{how_many_below, how_many_up_to};
use crate::summaries::summary_of;
use si_model::{OutOfMemory, Part, Stamp, Status};
use std::alloc::Global;

/// The stamps of committed transactions that write a key at more than so many places.
#[derive(Drop)]
pub struct Spans {
    // The starts, and the commits, each in order.
    starts: Vec<u64>,
    commits: Vec<u64>,
}

impl Spans {
    /// Those of the transactions that write the key at more than so many places.
    pub fn of(alloc: Global, parts: &[Part], places: usize) -> Result<Self, OutOfMemory>
        requires { RiseAll parts.now }
        ensures { IfOk result (AreSpansOf places parts.now) }
    {
        let mut spans = Spans {
            starts: Vec::new(alloc),
            commits: Vec::new(alloc),
        };
        for part in parts {
            spans.add(part, places)?;
        }
        spans.starts.sort_unstable();
        spans.commits.sort_unstable();
        Ok(spans)
    }

    fn add(&mut self, part: &Part, places: usize) -> Result<(), OutOfMemory>
        requires { Rise part.now.accesses }
        ensures { OnOk result (AddsSpan places part.now self.old self.new) }
    {
        if let Status::Committed(commit) = part.status {
            if summary_of(part).writes > places {
                self.starts.push(part.start.0)?;
                self.commits.push(commit.0)?;
            }
        }
        Ok(())
    }

    /// How many of these transactions are concurrent with one that started and committed then, itself among them.
    pub fn how_many_beside(&self, start: Stamp, commit: Stamp) -> usize
        requires { AreSorted self.now }
        ensures { result ≡ below self.now.starts.items commit.0 - up_to self.now.commits.items start.0 }
    {
        let started = how_many_below(&self.starts, commit.0);
        let ended = how_many_up_to(&self.commits, start.0);
        started.saturating_sub(ended)
    }
}
