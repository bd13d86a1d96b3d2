//! Who judges: a trait, whose answers are counted, and the judge of snapshot isolation.

ghost use Rattle.std.specs.Prelude.{◌≡◌};

use si_model::cases::{kind_of, overlaps};
use si_model::{Kind, Sight, Stamp};

/// What judges the reads of a key and its neighbouring versions. Its answers are functions of the type alone, and counted.
pub trait Judge {
    ghost use Rattle.std.specs.Prelude.{◌≡◌, ℕ, IfSome};
    ghost use Rattle.si_model.specs.Findings.{Rules};
    ghost use Rattle.si_judge.specs.Judges.{NamesRead, one_more};

    /// How it judges.
    ghost rules: { Rules };

    /// How many answers it has given, up to the greatest number.
    ghost answers: { Self → ℕ };

    /// The kind of finding that a read is, if it is one. It names the read that was seen, and is no overlap.
    fn read(&mut self, sight: &Sight) -> Option<Kind>
        ensures kind { result ≡ rules.read sight.now }
        ensures names { IfSome result (NamesRead sight.now.txn sight.now.op) }
        ensures counted { answers self.new ≡ one_more (answers self.old) };

    /// Whether a version that was installed at `commit` and the next one, whose installer started at `start`, overlap.
    fn pair(&mut self, commit: Stamp, start: Stamp) -> bool
        ensures overlap { result ≡ rules.pair commit start }
        ensures counted { answers self.new ≡ one_more (answers self.old) };

    /// How many answers it has given; it stays at the greatest number.
    fn calls(&self) -> u64
        ensures { result ≡ answers self.now };
}

/// The judge of snapshot isolation.
#[derive(Clone, Copy, Debug, PartialEq, Eq)]
pub struct Cases {
    calls: u64,
}

impl Cases {
    ghost use Rattle.std.specs.Prelude.{◌≡◌};
    ghost use Rattle.si_judge.specs.Judges.{one_more};

    /// A judge that has given no answer.
    pub fn new() -> Cases
        ensures { ⟦<Cases as Judge>⟧.answers result ≡ 0 }
    {
        Cases { calls: 0 }
    }

    fn count(&mut self)
        ensures { self.new.calls ≡ one_more self.old.calls }
    {
        let calls = &mut self.calls;
        *calls = calls.saturating_add(1);
    }
}

impl Judge for Cases {
    ghost use Rattle.si_model.specs.Findings.{cases};

    ghost rules = { cases };

    ghost answers = { λ judge. judge.calls };

    #[tactic(auto, using(crate::proofs::Naming::kind_names))]
    fn read(&mut self, sight: &Sight) -> Option<Kind> {
        self.count();
        kind_of(sight)
    }

    fn pair(&mut self, commit: Stamp, start: Stamp) -> bool {
        self.count();
        overlaps(commit, start)
    }

    fn calls(&self) -> u64 {
        self.calls
    }
}
