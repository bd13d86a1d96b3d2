//! What the last report tells right before its summary: what could have been found, and what the run is short of.

ghost use Rattle.std.specs.Prelude.{◌≡◌, ◌++◌, [], None, Some, Bool, codes, true};
ghost use Rattle.si_text.specs.Printing.{Appends};
ghost use Rattle.si_text.specs.Texts.{are_few, are_known_few, asks, chance_text, chances_text, few_line, few_lines, few_text, is_few, is_short_ending, lines_asked, shortage_lines, told_chances};

use crate::Shortage;
use crate::appending::{put, put_number};
use crate::shortages::put_shortage;
use si_model::{Chances, Count, OutOfMemory};

/// How many places of each kind are expected at least, at which a likely fault of a database would have shown. Of a kind without a
/// number nothing is expected.
#[derive(Clone, Copy, Debug, PartialEq, Eq, Default)]
pub struct ExpectedPlaces {
    pub own: Option<u64>,
    pub aborted: Option<u64>,
    pub intermediate: Option<u64>,
    pub future: Option<u64>,
    pub stale: Option<u64>,
    pub overlap: Option<u64>,
}

impl ExpectedPlaces {
    /// Whether some kind has fewer places than are expected.
    pub fn exceed(&self, chances: &Chances) -> bool
        ensures { result ≡ are_few self.now chances.now }
    {
        is_few(chances.own, self.own)
            || is_few(chances.aborted, self.aborted)
            || is_few(chances.intermediate, self.intermediate)
            || is_few(chances.future, self.future)
            || is_few(chances.stale, self.stale)
            || is_few(chances.overlap, self.overlap)
    }
}

/// What is asked of the places at which something could have been found.
#[derive(Clone, Copy, Debug, PartialEq, Eq, Default)]
pub struct Asked {
    /// Whether the last report tells them.
    pub tells: bool,
    pub expected: ExpectedPlaces,
}

impl Asked {
    /// Whether anything is asked.
    pub fn is_some(&self) -> bool
        ensures { result ≡ asks self.now }
    {
        self.tells
            || self.expected.own.is_some()
            || self.expected.aborted.is_some()
            || self.expected.intermediate.is_some()
            || self.expected.future.is_some()
            || self.expected.stale.is_some()
            || self.expected.overlap.is_some()
    }
}

/// What the last report tells beside the findings and the summary.
#[derive(Debug, PartialEq, Drop)]
pub struct Ending {
    pub shortage: Option<Shortage>,
    pub asked: Asked,
    /// The places, where something is asked of them.
    pub chances: Option<Chances>,
}

impl Ending {
    /// Nothing is told.
    pub fn nothing() -> Self
        ensures shortage { result.shortage ≡ None }
        ensures chances { result.chances ≡ None }
    {
        Ending {
            shortage: None,
            asked: Asked::default(),
            chances: None,
        }
    }

    /// Whether the run is short of transactions, or of places of some kind.
    pub fn is_short(&self) -> bool
        ensures { result ≡ is_short_ending self.now }
    {
        self.shortage.is_some() || self.has_few()
    }

    /// Whether there are too few places of some kind, where they are known.
    fn has_few(&self) -> bool
        ensures { result ≡ are_known_few self.now.asked.expected self.now.chances }
    {
        match &self.chances {
            None => false,
            Some(chances) => self.asked.expected.exceed(chances),
        }
    }
}

/// Appends the lines of an ending.
pub(crate) fn put_ending(out: &mut Vec<u8>, ending: &Ending) -> Result<(), OutOfMemory>
    ensures { Appends result out.old.items out.new.items (lines_asked ending.now.asked (shortage_lines ending.now.shortage) ending.now.chances) }
{
    match &ending.chances {
        None => put_shortage(out, &ending.shortage),
        Some(chances) => {
            put_told(out, ending.asked.tells, chances)?;
            put_shortage(out, &ending.shortage)?;
            put_few_lines(out, &ending.asked.expected, chances)
        }
    }
}

fn is_few(count: Count, expected: Option<u64>) -> bool
    ensures { result ≡ is_few count.places expected }
{
    match expected {
        None => false,
        Some(expected) => (count.places as u64) < expected,
    }
}

fn put_told(out: &mut Vec<u8>, tells: bool, chances: &Chances) -> Result<(), OutOfMemory>
    ensures { Appends result out.old.items out.new.items (told_chances tells chances.now) }
{
    if tells {
        put_chances(out, chances)
    } else {
        Ok(())
    }
}

fn put_chances(out: &mut Vec<u8>, chances: &Chances) -> Result<(), OutOfMemory>
    ensures { Appends result out.old.items out.new.items (chances_text chances.now) }
{
    put_chance(out, "chances kind=own places=", chances.own)?;
    put_chance(out, "chances kind=aborted places=", chances.aborted)?;
    put_chance(
        out,
        "chances kind=intermediate places=",
        chances.intermediate,
    )?;
    put_chance(out, "chances kind=future places=", chances.future)?;
    put_chance(out, "chances kind=stale places=", chances.stale)?;
    put_chance(out, "chances kind=overlap places=", chances.overlap)
}

#[tactic(auto, unfolding(crate::specs::Texts::chance_text))]
fn put_chance(out: &mut Vec<u8>, label: &str, count: Count) -> Result<(), OutOfMemory>
    ensures { Appends result out.old.items out.new.items (chance_text label.now count) }
{
    put_number(out, label, count.places as u64)?;
    put_number(out, " keys=", count.keys as u64)?;
    put(out, "\n")
}

fn put_few_lines(
    out: &mut Vec<u8>,
    expected: &ExpectedPlaces,
    chances: &Chances,
) -> Result<(), OutOfMemory>
    ensures { Appends result out.old.items out.new.items (few_lines expected.now chances.now) }
{
    put_few_line(out, "short kind=own places=", chances.own, expected.own)?;
    put_few_line(
        out,
        "short kind=aborted places=",
        chances.aborted,
        expected.aborted,
    )?;
    put_few_line(
        out,
        "short kind=intermediate places=",
        chances.intermediate,
        expected.intermediate,
    )?;
    put_few_line(
        out,
        "short kind=future places=",
        chances.future,
        expected.future,
    )?;
    put_few_line(
        out,
        "short kind=stale places=",
        chances.stale,
        expected.stale,
    )?;
    put_few_line(
        out,
        "short kind=overlap places=",
        chances.overlap,
        expected.overlap,
    )
}

/// Appends the line of a kind, behind its beginning, if it has fewer places than are expected.
fn put_few_line(
    out: &mut Vec<u8>,
    label: &str,
    count: Count,
    expected: Option<u64>,
) -> Result<(), OutOfMemory>
    ensures { Appends result out.old.items out.new.items (few_line label.now count.places expected) }
{
    match expected {
        None => Ok(()),
        Some(expected) => {
            if (count.places as u64) < expected {
                put_few(out, label, count.places as u64, expected)
            } else {
                Ok(())
            }
        }
    }
}

fn put_few(out: &mut Vec<u8>, label: &str, places: u64, expected: u64) -> Result<(), OutOfMemory>
    ensures { Appends result out.old.items out.new.items (few_text label.now places expected) }
{
    put_number(out, label, places)?;
    put_number(out, " expected=", expected)?;
    put(out, "\n")
}
