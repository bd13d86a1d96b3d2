//! Versions whose values rise with their commits, as those of a counter do: there a value is found without an index.

ghost use Rattle.std.specs.Prelude.{◌<◌, ◌≤◌, ℕ, length, slice_index_or};
ghost use Rattle.si_timeline.specs.Timelines.{Dated, IsOfValue, IsRising, ValuesRise};

use crate::Version;
use si_model::{Stamp, Value};

/// The first look is so far before the last version: most values that are looked for are near the end.
const FIRST_STEP: usize = 2;

/// The version of the value. The versions must be in the order of their commits, and their values rise with these.
pub fn of_rising(versions: &[(Stamp, Version)], value: Value) -> Option<(Stamp, Version)>
    requires rising { IsRising versions.now }
    requires values { ValuesRise versions.now }
    ensures { IsOfValue versions.now value result }
{
    let place = count_less(versions, value);
    if place == versions.len() {
        return None;
    }
    let dated = versions[place];
    if dated.1.value == value {
        Some(dated)
    } else {
        None
    }
}

/// How many versions have a lesser value, looked for in steps from the end that double, and then in the middle of what is left.
fn count_less(versions: &[(Stamp, Version)], value: Value) -> usize
    requires rising { IsRising versions.now }
    requires values { ValuesRise versions.now }
    ensures bound { result ≤ length versions.now }
    ensures less { (i : ℕ) (d : Dated) → i < result → (slice_index_or versions.now i d).1.value.0 < value.0 }
    ensures rest { (i : ℕ) (d : Dated) → result ≤ i → i < length versions.now → value.0 ≤ (slice_index_or versions.now i d).1.value.0 }
{
    let mut low = 0;
    let mut high = versions.len();
    let mut step = FIRST_STEP;
    while low < high {
        let at = high - 1 - step.min((high - low) / 2);
        if versions[at].1.value < value {
            low = at + 1;
        } else {
            high = at;
            step = step.saturating_mul(2);
        }
    }
    low
}
