//! How much was found at a report that the next one is held against.

ghost use Rattle.std.specs.Prelude.{◌≡◌, ◌+◌, ◌≤◌, ℕ, List, [], length, IfOk, OnOk};
ghost use Rattle.si_model.specs.declared.findings.Finding.{Finding as Found};
ghost use Rattle.si_text.specs.Texts.{verdict_of, violations_of};
ghost use Rattle.si_run.specs.Tolds.{IsChange, IsTold};

use si_model::{Finding, OutOfMemory};
use si_text::{Verdict, keep_violations};
use std::alloc::AllocError;

/// How many edits were accepted by a report, how much was found in them, and how many of that were violations.
#[derive(Clone, Copy, Debug, PartialEq, Eq)]
pub struct Told {
    pub at: u64,
    pub found: usize,
    pub violations: usize,
}

impl Told {
    /// Before any report.
    pub fn nothing() -> Self
        ensures at { result.at ≡ 0 }
        ensures told { IsTold [] result }
    {
        Told {
            at: 0,
            found: 0,
            violations: 0,
        }
    }

    /// After so many edits, where these came since and those went. Of both the violations are left.
    pub fn after(
        self,
        number: u64,
        came: &mut Vec<Finding>,
        went: &mut Vec<Finding>,
    ) -> Result<Told, OutOfMemory>
        requires { (was now : List Found) × IsChange was now came.old.items went.old.items × IsTold was self }
        ensures at { IfOk result (λ told. told.at ≡ number) }
        ensures told { IfOk result (λ told. (was now : List Found) → IsChange was now came.old.items went.old.items → IsTold was self → IsTold now told) }
        ensures came { OnOk result (came.new.items ≡ violations_of came.old.items) }
        ensures went { OnOk result (went.new.items ≡ violations_of went.old.items) }
    {
        let found = count_on(self.found, came.len(), went.len())?;
        keep_violations(came);
        keep_violations(went);
        let violations = count_on(self.violations, came.len(), went.len())?;
        Ok(Told {
            at: number,
            found,
            violations,
        })
    }

    /// The verdict on what was found.
    pub fn verdict(self) -> Verdict
        ensures { (found : List Found) → IsTold found self → result ≡ verdict_of found }
    {
        if self.violations > 0 {
            Verdict::Violation
        } else if self.found > 0 {
            Verdict::Open
        } else {
            Verdict::Clean
        }
    }
}

/// How many there are where so many were, and then so many came and went.
fn count_on(count: usize, came: usize, went: usize) -> Result<usize, OutOfMemory>
    requires { went ≤ count }
    ensures { IfOk result (λ n. n + went ≡ count + came) }
{
    match (count - went).checked_add(came) {
        Some(count) => Ok(count),
        // (so many findings fit in no memory)
        None => Err(AllocError),
    }
}
