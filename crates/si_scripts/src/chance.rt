//! Numbers that look random (Knuth's linear congruential generator).

ghost use Rattle.std.specs.Prelude.{◌<◌};

/// The next of a row of numbers.
pub fn next_number(state: u64) -> u64 {
    state
        .wrapping_mul(6_364_136_223_846_793_005)
        .wrapping_add(1_442_695_040_888_963_407)
}

/// Draws small numbers, the same in each run.
#[derive(Drop)]
pub struct Dice {
    state: u64,
}

impl Dice {
    /// Dice that begin at this state: the same throws follow from the same one.
    pub fn new(state: u64) -> Dice {
        Dice { state }
    }

    /// A number below the bound, and 0 where that is 0.
    pub fn below(&mut self, bound: u64) -> u64
        ensures { 0 < bound → result < bound }
    {
        self.state = next_number(self.state);
        (self.state >> 33).checked_rem(bound).unwrap_or(0)
    }
}
