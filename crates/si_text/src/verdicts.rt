//! The verdict over a list of findings.

ghost use Rattle.std.specs.Prelude.{◌≡◌};
ghost use Rattle.std.specs.List.{list_any};
ghost use Rattle.si_text.specs.Texts.{is_violation, verdict_of, verdict_text};

use si_model::{Finding, Kind};

/// What a report says of the history.
#[derive(Clone, Copy, Debug, PartialEq, Eq)]
pub enum Verdict {
    /// There is no finding.
    Clean,
    /// All findings may still go as more transactions come.
    Open,
    /// A finding says that the history isn't one of snapshot isolation.
    Violation,
}

impl Verdict {
    /// The verdict that these findings give.
    pub fn of(findings: &[Finding]) -> Verdict
        ensures { result ≡ verdict_of findings.now }
    {
        if findings.is_empty() {
            return Verdict::Clean;
        }
        if has_violation(findings) {
            Verdict::Violation
        } else {
            Verdict::Open
        }
    }

    /// The verdict's word in a summary.
    pub fn word(&self) -> &'static str
        ensures { result.now ≡ verdict_text self.now }
    {
        match self {
            Verdict::Clean => "clean",
            Verdict::Open => "open",
            Verdict::Violation => "violation",
        }
    }
}

fn has_violation(findings: &[Finding]) -> bool
    ensures { result ≡ list_any (λ finding. is_violation finding.kind) findings.now }
{
    findings.iter().any(|finding| is_violation(&finding.kind))
}

/// Whether a kind says so by itself.
pub(crate) fn is_violation(kind: &Kind) -> bool
    ensures { result ≡ is_violation kind.now }
{
    !matches!(kind, Kind::Unknown { .. } | Kind::Doubt { .. })
}
