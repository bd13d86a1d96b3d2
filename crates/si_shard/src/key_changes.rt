//! What an edit is on one key.

ghost use Rattle.std.specs.Prelude.{◌≡◌, OnOk};
ghost use Rattle.si_model.specs.declared.parts.OnKey.{OnKey};
ghost use Rattle.si_model.specs.Findings.{cases};
ghost use Rattle.si_judge.specs.Kept.{WouldShow};
ghost use Rattle.si_judge.specs.Notes.{KeepsNotesOf};
ghost use Rattle.si_shard.specs.AppliedEdits.{change_by};
ghost use Rattle.si_shard.specs.KeyChanges.{CanChange, IsChanged};

use si_judge::{Cases, KeyFindings};
use si_model::parts::Accesses;
use si_model::{Edit, Op, OutOfMemory, Outcome, Part, Stamp, Status, TxnId, Value};

/// A transaction but for its operations.
#[derive(Clone, Copy)]
pub struct TxnHead {
    pub id: TxnId,
    pub start: Stamp,
    pub status: Status,
}

/// A transaction as it is before an edit, with its operations.
#[derive(Clone, Copy)]
pub struct KnownTxn<'a> {
    pub head: TxnHead,
    pub ops: &'a [Op],
}

/// What an edit is on one key that it touches. A resolution and a withdrawal have the part as it is before them.
#[derive(Debug, Drop)]
pub enum Change {
    /// A transaction arrived that does this on the key.
    Arrive(Part),
    /// The transaction that does this on the key was resolved.
    Resolve(Part, Outcome),
    /// The transaction that does this on the key was withdrawn.
    Withdraw(Part),
    /// The key was set up with the value.
    SetUp(Value),
}

/// What the edit is on a key where its transaction has these accesses.
pub fn change_by(head: TxnHead, edit: &Edit, accesses: Accesses) -> Change
    ensures { result ≡ change_by head edit.now accesses }
{
    let part = Part {
        id: head.id,
        start: head.start,
        status: head.status,
        accesses,
    };
    match edit {
        Edit::Arrive(_) => Change::Arrive(part),
        Edit::Resolve(_, outcome) => Change::Resolve(part, *outcome),
        Edit::Withdraw(_) => Change::Withdraw(part),
        Edit::SetUp(_, value) => Change::SetUp(*value),
    }
}

/// Makes the change of one key. Where it touches many reads of a value these are marked, and judged once the key is settled.
pub fn make_change(kept: &mut KeyFindings<Cases>, change: &mut Change) -> Result<(), OutOfMemory>
    requires { (Q : OnKey) × WouldShow cases Q kept.old × CanChange change.old Q }
    ensures changed { OnOk result (IsChanged change.old kept.old kept.new) }
    ensures noted { OnOk result (KeepsNotesOf kept.old kept.new) }
{
    match change {
        Change::Arrive(part) => kept.arrive_later(part),
        Change::Resolve(part, outcome) => kept.resolve_later(part, *outcome),
        Change::Withdraw(part) => kept.withdraw_later(part),
        Change::SetUp(value) => kept.set_up_later(*value),
    }
}
