//! The slow program, once over hundreds of transactions and of findings.

use super::evidence::explained;
use super::findings::found_in;
use super::*;
use si_model::{Finding, Kind, TxnId};
use si_scripts::present;

/// Two transactions that run at the same time and write to one key, of its own for each such pair.
fn add_pair(rt: &impl Abort, lines: &mut String, pair: u64) {
    let first = pair.saturating_mul(2).saturating_add(1);
    let start = pair.saturating_mul(4).saturating_add(1);
    let key = pair.saturating_add(100);
    let (other, later) = (first.saturating_add(1), start.saturating_add(1));
    let (commit, last) = (start.saturating_add(2), start.saturating_add(3));
    writeln!(lines, "{first} {start} {commit} k{key}=1").expect(rt, "memory");
    writeln!(lines, "{other} {later} {last} k{key}=2").expect(rt, "memory");
}

/// The findings are the overlaps of 200 pairs.
fn are_overlaps(rt: &impl Abort, found: &[Finding]) {
    are_same(rt, found.len(), 200);
    let mut first = 1u64;
    for finding in found {
        let second = first.saturating_add(1);
        let overlap = Kind::Overlap {
            first: TxnId(first),
            second: TxnId(second),
        };
        are_same(rt, finding.kind, overlap);
        first = second.saturating_add(1);
    }
}

#[test]
fn hundreds_of_findings_are_found_in_order(rt: HostRuntime) {
    let mut lines = String::new(rt.alloc());
    for pair in 0..200u64 {
        add_pair(&rt, &mut lines, pair);
    }
    let history = present(&rt, &lines).expect(&rt, "a history");
    let found = found_in(&rt, &history.txns, &history.initial);
    are_overlaps(&rt, &found);
    let last = found.last().expect(&rt, "a finding");
    assert!(rt; explained(&rt, &history, last).is_ok());
    drop(found);
    drop(history);
}
