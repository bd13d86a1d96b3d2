//! The findings of what is present: the plain slow program.

ghost use Rattle.std.specs.Prelude.{◌≡◌, ◌++◌, IfOk, OnOk};
ghost use Rattle.std.proofs.Common.{rules};
ghost use Rattle.std.specs.List.{flat_map, filter_map};
ghost use Rattle.si_model.specs.Parts.{Present};
ghost use Rattle.si_model.specs.Versions.{install};
ghost use Rattle.si_model.specs.Findings.{cases, access_kind, placed_kind, kinds_of, overlap_with, overlap_of, keys_in, keys, found_at, findings};
ghost use Rattle.si_model.specs.History.{IsHistory};

use crate::cases::{kind_of, overlaps};
use crate::parts::on_key;
use crate::reads::sight_of;
use crate::sorting::put_in_order;
use crate::versions::{install, next_after};
use crate::{
    Access, Installer, Key, Kind, OnKey, OutOfMemory, Part, Placed, Txn, Value, VersionId,
};
use std::alloc::Global;
use std::cmp::Ordering;

/// A finding on a key.
#[derive(Debug, Drop)]
pub struct Finding {
    pub key: Key,
    pub kind: Kind,
}

impl Finding {
    /// The same finding, which shares its key's text.
    pub fn try_clone(&self) -> Result<Self, OutOfMemory>
        ensures { IfOk result (λ finding. finding ≡ self.now) }
    {
        Ok(Finding {
            key: self.key.try_clone()?,
            kind: self.kind,
        })
    }
}

impl PartialEq for Finding {
    ghost use Rattle.std.specs.Cmp.Rules.{comparing};
    ghost use Rattle.std.proofs.Common.{rules};
    ghost use Rattle.si_model.specs.Order.{finding_eq};

    ghost eq = { finding_eq };

    ghost laws = { Prim.search (comparing, rules) };

    fn eq(&self, other: &Self) -> bool {
        self.key == other.key && self.kind == other.kind
    }
}

impl Eq for Finding {
    ghost use Rattle.std.specs.Cmp.Rules.{comparing};
    ghost use Rattle.std.proofs.Common.{rules};

    ghost laws = { Prim.search (comparing, rules) };
}

/// Findings are in the order of their keys' bytes, then their kinds' numbers, then the first transaction, then the
/// operation or the second transaction.
impl Ord for Finding {
    ghost use Rattle.std.specs.Cmp.Rules.{comparing};
    ghost use Rattle.std.proofs.Common.{rules};
    ghost use Rattle.si_model.specs.Order.{finding_cmp};

    ghost cmp = { finding_cmp };

    ghost total = { Prim.search (comparing, rules) };

    ghost matches_partial_cmp = { Prim.search (comparing, rules) };

    ghost matches_eq = { Prim.search (comparing, rules) };

    fn cmp(&self, other: &Self) -> Ordering {
        match self.key.cmp(&other.key) {
            Ordering::Equal => self.kind.cmp(&other.kind),
            order => order,
        }
    }
}

impl PartialOrd for Finding {
    ghost use Rattle.std.specs.Cmp.Rules.{comparing};
    ghost use Rattle.std.specs.Cmp.{partial_order_from_own_ties};
    ghost use Rattle.std.specs.Ordering.{as_partial_cmp};
    ghost use Rattle.std.proofs.Common.{rules};
    ghost use Rattle.si_model.specs.Order.{finding_cmp};

    ghost partial_cmp = { as_partial_cmp finding_cmp };

    ghost laws = { partial_order_from_own_ties (Prim.search (comparing, rules)) (Prim.search (comparing, rules)) };

    fn partial_cmp(&self, other: &Self) -> Option<Ordering> {
        Some(self.cmp(other))
    }
}

/// The findings of these transactions and set-up values, in order, as the definitions say. It walks all transactions for
/// each key and all parts of a key for each of its operations.
#[tactic(auto, unfolding(crate::specs::Findings::findings))]
pub fn findings_of(
    alloc: Global,
    txns: &[Txn],
    initial: &[(Key, Value)],
) -> Result<Vec<Finding>, OutOfMemory>
    requires { IsHistory (record { txns = txns.now; initial = initial.now }) }
    ensures { IfOk result
        (λ found. found.items ≡ findings (record { txns = txns.now; initial = initial.now })) }
{
    let keys = keys_of(alloc, txns)?;
    let mut found = Vec::new(alloc);
    for key in &keys {
        add_found_at(alloc, &mut found, txns, initial, key)?;
    }
    put_in_order(&mut found);
    Ok(found)
}

#[tactic(auto, unfolding(crate::specs::Findings::keys))]
fn keys_of(alloc: Global, txns: &[Txn]) -> Result<Vec<Key>, OutOfMemory>
    ensures { IfOk result (λ found. found.items ≡ keys txns.now) }
{
    let mut keys = Vec::new(alloc);
    for txn in txns {
        add_keys(&mut keys, txn)?;
    }
    put_in_order(&mut keys);
    Ok(keys)
}

fn add_keys(keys: &mut Vec<Key>, txn: &Txn) -> Result<(), OutOfMemory>
    ensures { OnOk result (keys.new.items ≡ keys.old.items ++ keys_in txn.now) }
{
    for op in txn.ops.as_slice() {
        keys.push(op.key().try_clone()?)?;
    }
    Ok(())
}

/// Adds the findings on one key.
#[tactic(auto, unfolding(crate::specs::Findings::found_at))]
fn add_found_at(
    alloc: Global,
    found: &mut Vec<Finding>,
    txns: &[Txn],
    initial: &[(Key, Value)],
    key: &Key,
) -> Result<(), OutOfMemory>
    ensures { OnOk result (found.new.items
        ≡ found.old.items ++ found_at (record { txns = txns.now; initial = initial.now }) key.now) }
{
    let on_key = on_key(alloc, txns, initial, key)?;
    let kinds = kinds_on(alloc, &on_key)?;
    for kind in &kinds {
        found.push(Finding {
            key: key.try_clone()?,
            kind: *kind,
        })?;
    }
    Ok(())
}

fn kinds_on(alloc: Global, on_key: &OnKey) -> Result<Vec<Kind>, OutOfMemory>
    ensures { IfOk result
        (λ kinds. kinds.items ≡ flat_map (kinds_of cases on_key.now) on_key.now.parts) }
{
    let mut kinds = Vec::new(alloc);
    for part in on_key.parts.as_slice() {
        add_kinds_of(&mut kinds, on_key, part)?;
    }
    Ok(kinds)
}

#[tactic(auto, unfolding(crate::specs::Findings::kinds_of))]
fn add_kinds_of(kinds: &mut Vec<Kind>, on_key: &OnKey, part: &Part) -> Result<(), OutOfMemory>
    ensures { OnOk result (kinds.new.items ≡ kinds.old.items ++ kinds_of cases on_key.now part.now) }
{
    let Some(_commit) = part.status.commit() else {
        return Ok(());
    };
    add_read_kinds(kinds, on_key, part)?;
    if let Some(kind) = overlap_of(on_key.parts.as_slice(), install(part)) {
        kinds.push(kind)?;
    }
    Ok(())
}

fn add_read_kinds(kinds: &mut Vec<Kind>, on_key: &OnKey, part: &Part) -> Result<(), OutOfMemory>
    ensures { OnOk result (kinds.new.items
        ≡ kinds.old.items ++ filter_map (placed_kind cases on_key.now part.now) part.now.accesses) }
{
    for placed in part.accesses.as_slice() {
        if let Some(kind) = kind_at(on_key, part, *placed) {
            kinds.push(kind)?;
        }
    }
    Ok(())
}

fn kind_at(on_key: &OnKey, part: &Part, placed: Placed) -> Option<Kind>
    ensures { result ≡ access_kind cases on_key.now part.now placed.place placed.access }
{
    match placed.access {
        Access::Read(read) => kind_of(&sight_of(on_key, part, placed.place, read)),
        Access::Write(_) => None,
    }
}

/// The overlap of the version with the next one.
fn overlap_of(parts: &[Part], installer: Option<Installer>) -> Option<Kind>
    ensures { result ≡ overlap_of cases parts.now installer }
{
    let first = installer?;
    overlap_with(first, next_after(parts, VersionId::Installed(first.commit)))
}

fn overlap_with(first: Installer, next: Option<Installer>) -> Option<Kind>
    ensures { result ≡ overlap_with cases first next }
{
    let next = next?;
    if overlaps(first.commit, next.start) {
        Some(Kind::Overlap {
            first: first.txn,
            second: next.txn,
        })
    } else {
        None
    }
}
