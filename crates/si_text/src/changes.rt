//! What changed from one report to the next.
//!
//! Both reports' violations are in order, so one walk over the two finds what one has and the other hasn't, and no text is made for
//! what both have.

ghost use Rattle.std.specs.Prelude.{◌≡◌, ◌≢◌, ◌≤◌, ◌++◌, false, length, take, slice_get, OnOk, OnErr, All};
ghost use Rattle.std.specs.List.{flat_map};
ghost use Rattle.std.specs.List.Sorted.{IsStrictlySortedBy};
ghost use Rattle.std.specs.Option.{IfSome, option_map_or};
ghost use Rattle.std.specs.declared.cmp.Ordering.TheVariants.{Less};
ghost use Rattle.si_model.specs.Order.{finding_cmp, finding_eq};
ghost use Rattle.si_text.specs.Printing.{Appends, change_text};
ghost use Rattle.si_text.specs.Texts.{changes_text, not_among, violations_of};

use crate::appending::{put, whole_or_none};
use crate::printing::{put_finding, put_lines};
use crate::verdicts::is_violation;
use si_model::{Finding, OutOfMemory};
use std::alloc::Global;
use std::cmp::Ordering;

/// Leaves the violations alone, in their order.
pub fn keep_violations(findings: &mut Vec<Finding>)
    ensures { findings.new.items ≡ violations_of findings.old.items }
{
    findings.retain(|finding| is_violation(&finding.kind));
}

/// Appends what changed since these violations were told: each finding that isn't one of them, as in a report, and then a line for
/// each of them that isn't found any more. If memory is refused, the bytes are as before.
pub fn print_changes(
    alloc: Global,
    out: &mut Vec<u8>,
    told: &[Finding],
    found: &[Finding],
    explain: bool,
) -> Result<(), OutOfMemory>
    requires told { IsStrictlySortedBy finding_cmp told.now }
    requires found { IsStrictlySortedBy finding_cmp found.now }
    ensures ok { OnOk result (out.new.items ≡ out.old.items ++ changes_text explain told.now found.now) }
    ensures err { OnErr result (out.new.items ≡ out.old.items) }
{
    let before = out.len();
    let appended = put_changes(alloc, out, told, found, explain);
    whole_or_none(out, before, appended)
}

fn put_changes(
    alloc: Global,
    out: &mut Vec<u8>,
    told: &[Finding],
    found: &[Finding],
    explain: bool,
) -> Result<(), OutOfMemory>
    requires told { IsStrictlySortedBy finding_cmp told.now }
    requires found { IsStrictlySortedBy finding_cmp found.now }
    ensures { Appends result out.old.items out.new.items (changes_text explain told.now found.now) }
{
    put_missing(alloc, out, found, told, Change::Came { explain })?;
    put_missing(alloc, out, told, found, Change::Went)
}

/// What became of a violation since the report before.
#[derive(Clone, Copy)]
enum Change {
    /// It is new. Its evidence may follow it.
    Came { explain: bool },
    /// It is there no more.
    Went,
}

/// Appends the change of each finding that isn't among the others.
fn put_missing(
    alloc: Global,
    out: &mut Vec<u8>,
    findings: &[Finding],
    others: &[Finding],
    change: Change,
) -> Result<(), OutOfMemory>
    requires findings { IsStrictlySortedBy finding_cmp findings.now }
    requires others { IsStrictlySortedBy finding_cmp others.now }
    ensures { Appends result out.old.items out.new.items (flat_map (change_text change) (not_among others.now findings.now)) }
{
    let mut place = 0;
    for finding in findings {
        place = passed(others, place, finding);
        if !is_at(others, place, finding) {
            put_change(alloc, out, finding, change)?;
        }
    }
    Ok(())
}

/// The first place from this one on whose finding isn't before the given one, or the end.
fn passed(findings: &[Finding], place: usize, finding: &Finding) -> usize
    requires { place ≤ length findings.now }
    ensures within { result ≤ length findings.now }
    ensures before { All (λ f. finding_cmp f finding.now ≡ Less) (take place findings.now) → All (λ f. finding_cmp f finding.now ≡ Less) (take result findings.now) }
    ensures here { IfSome (slice_get findings.now result) (λ f. finding_cmp f finding.now ≢ Less) }
{
    let mut at = place;
    while at < findings.len() && findings[at].cmp(finding) == Ordering::Less {
        at += 1;
    }
    at
}

/// Whether the finding stands at that place.
fn is_at(findings: &[Finding], place: usize, finding: &Finding) -> bool
    ensures { result ≡ option_map_or (finding_eq finding.now) (slice_get findings.now place) false }
{
    match findings.get(place) {
        Some(other) => finding == other,
        None => false,
    }
}

/// Appends the lines of what became of a finding.
fn put_change(
    alloc: Global,
    out: &mut Vec<u8>,
    finding: &Finding,
    change: Change,
) -> Result<(), OutOfMemory>
    ensures { Appends result out.old.items out.new.items (change_text change finding.now) }
{
    match change {
        Change::Came { explain } => put_lines(alloc, out, finding, explain),
        Change::Went => {
            put(out, "gone ")?;
            put_finding(out, finding)
        }
    }
}
