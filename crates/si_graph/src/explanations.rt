//! The evidence for a finding.

ghost use Rattle.std.specs.Prelude.{◌≡◌, ◌↔◌, IsTrue, Some, IfOk, IfErr, OnOk};
ghost use Rattle.std.specs.List.{list_any};
ghost use Rattle.std.specs.Ordering.{is_eq};
ghost use Rattle.si_model.specs.Parts.{Present};
ghost use Rattle.si_model.specs.Order.{finding_cmp};
ghost use Rattle.si_model.specs.Findings.{IsFinding};
ghost use Rattle.si_model.specs.History.{IsHistory};
ghost use Rattle.si_model.specs.Evidence.{evidence_of};
ghost use Rattle.si_graph.specs.Shown.{Shows};
ghost use Rattle.si_graph.specs.Explanations.{IsExplainFault};

use crate::laws::model_laws;
use crate::{Evidence, ExplainFault};
use si_model::laws::{findings_are_exact, order_is_strict};
use si_model::{Finding, Key, OutOfMemory, Txn, Value, evidence_of, findings_of};
use std::alloc::Global;

/// The evidence for a finding of the history, which `check_evidence` finds to hold.
///
/// It computes all findings of the history, to see that this is one of them.
pub fn explain(
    alloc: Global,
    txns: &[Txn],
    initial: &[(Key, Value)],
    finding: &Finding,
) -> Result<Evidence, ExplainFault>
    requires { IsHistory (record { txns = txns.now; initial = initial.now }) }
    ensures finding { OnOk result (IsFinding (record { txns = txns.now; initial = initial.now }) finding.now) }
    ensures explains { IfOk result (λ evidence. evidence_of finding.now.kind ≡ Some evidence) }
    ensures shows { IfOk result (Shows (record { txns = txns.now; initial = initial.now })) }
    ensures fault { IfErr result (IsExplainFault (record { txns = txns.now; initial = initial.now }) finding.now) }
{
    model_laws();
    if !is_found(alloc, txns, initial, finding)? {
        return Err(ExplainFault::NotAFinding);
    }
    match evidence_of(alloc, finding.kind)? {
        Some(evidence) => Ok(evidence),
        None => Err(ExplainFault::FormFinding),
    }
}

/// Whether the finding is one of the history.
fn is_found(
    alloc: Global,
    txns: &[Txn],
    initial: &[(Key, Value)],
    finding: &Finding,
) -> Result<bool, OutOfMemory>
    requires { IsHistory (record { txns = txns.now; initial = initial.now }) }
    ensures { IfOk result
        (λ found. IsTrue found ↔ IsFinding (record { txns = txns.now; initial = initial.now }) finding.now) }
{
    findings_are_exact();
    order_is_strict();
    let found = findings_of(alloc, txns, initial)?;
    Ok(is_among(&found, finding))
}

fn is_among(found: &[Finding], finding: &Finding) -> bool
    ensures { result ≡ list_any (λ other. is_eq (finding_cmp finding.now other)) found.now }
{
    found.iter().any(|other| finding.cmp(other).is_eq())
}
