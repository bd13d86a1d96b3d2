//! Lists that are in order each, merged into one.

ghost use Rattle.std.specs.Prelude.{◌≡◌, IfOk, OnOk, nat_lt};
ghost use Rattle.std.specs.List.{filter};
ghost use Rattle.std.specs.List.Sorted.{IsPermutation, IsSorted};
ghost use Rattle.std.specs.declared.cmp.Ordering.TheVariants.{Equal};
ghost use Rattle.si_model.specs.declared.findings.Finding.{Finding as Found};
ghost use Rattle.si_model.specs.Order.{finding_cmp, in_order};
ghost use Rattle.si_shard.specs.Counts.{more_often, told_times};
ghost use Rattle.si_shard.specs.KeyNotes.{times_in};

use crate::key_notes::Changes;
use si_model::laws::order_is_strict;
use si_model::sorting::put_in_order;
use si_model::{Finding, OutOfMemory};
use std::alloc::Global;
use std::collections::BTreeMap;

/// How often findings are somewhere.
type Counts = BTreeMap<Finding, u64>;

/// Puts the elements in order, each once. Where they are lists in order, one behind the other, these are merged.
pub fn merge_in_order<T: Ord + Drop>(items: &mut Vec<T>)
    requires exact { (a b : T) → T.cmp a b ≡ Equal → a ≡ b }
    ensures { items.new.items ≡ in_order T.cmp items.old.items }
{
    sort_runs(items);
    items.dedup();
}

/// Sorts the elements. A stable sort merges what is in order already; it takes memory, and where that is refused the other one sorts.
fn sort_runs<T: Ord>(items: &mut Vec<T>)
    ensures permutation { IsPermutation items.old.items items.new.items }
    ensures sorted { IsSorted T.cmp items.new.items }
{
    if items.sort().is_err() {
        items.sort_unstable();
    }
}

/// Leaves of what came and of what went what stands there more often than in the other list, in order and each once.
pub fn keep_apart(alloc: Global, changes: &mut Changes) -> Result<(), OutOfMemory>
    ensures came { OnOk result (changes.new.came.items ≡ more_often changes.old.came.items changes.old.went.items) }
    ensures went { OnOk result (changes.new.went.items ≡ more_often changes.old.went.items changes.old.came.items) }
{
    let came = count_each(alloc, &changes.came)?;
    let went = count_each(alloc, &changes.went)?;
    keep_more(&mut changes.came, &came, &went);
    keep_more(&mut changes.went, &went, &came);
    order_is_strict();
    put_in_order(&mut changes.came);
    put_in_order(&mut changes.went);
    Ok(())
}

/// Keeps what the first counts tell more often than the second.
fn keep_more(found: &mut Vec<Finding>, first: &Counts, second: &Counts)
    ensures { found.new.items ≡ filter (λ f. nat_lt (told_times second.now f) (told_times first.now f)) found.old.items }
{
    found.retain(|finding| is_more(first, second, finding));
}

fn is_more(first: &Counts, second: &Counts, finding: &Finding) -> bool
    ensures { result ≡ nat_lt (told_times second.now finding.now) (told_times first.now finding.now) }
{
    times(second, finding) < times(first, finding)
}

/// How often each of the findings is there.
fn count_each(alloc: Global, found: &[Finding]) -> Result<Counts, OutOfMemory>
    ensures { IfOk result (λ counts. (f : Found) → told_times counts f ≡ times_in f found.now) }
{
    let mut counts = BTreeMap::new(alloc);
    for finding in found {
        let count = times(&counts, finding);
        counts.insert(finding.try_clone()?, count + 1)?;
    }
    Ok(counts)
}

fn times(counts: &Counts, finding: &Finding) -> u64
    ensures { result ≡ told_times counts.now finding.now }
{
    match counts.get(finding) {
        Some(count) => *count,
        None => 0,
    }
}
