//! The exit status of a run, by its last report and by what was refused.

ghost use Rattle.std.specs.Prelude.{◌≡◌};
ghost use Rattle.si_run.specs.Outputs.{status_by, exit_code};

use si_text::Verdict;

/// What a run that ended says of its input.
#[derive(Clone, Copy, Debug, PartialEq, Eq)]
pub enum ExitStatus {
    /// Nothing was found and nothing refused, and the run is short of nothing that was expected.
    Clean,
    /// The verdict is open, or an item was refused, or the run is short.
    Open,
    /// The last verdict is a violation.
    Violation,
}

impl ExitStatus {
    /// The status by the last verdict, by how many items were refused, and by whether the run is short of what was expected.
    pub fn of(verdict: Verdict, refused: u64, short: bool) -> ExitStatus
        ensures { result ≡ status_by verdict refused short }
    {
        match verdict {
            Verdict::Violation => ExitStatus::Violation,
            Verdict::Clean if refused == 0 && !short => ExitStatus::Clean,
            Verdict::Open | Verdict::Clean => ExitStatus::Open,
        }
    }

    /// The process's exit status: 0, 10 or 20.
    pub fn code(self) -> u8
        ensures { result ≡ exit_code self }
    {
        match self {
            ExitStatus::Clean => 0,
            ExitStatus::Open => 10,
            ExitStatus::Violation => 20,
        }
    }
}
