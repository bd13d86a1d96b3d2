//! Why an edit isn't accepted.

ghost use Rattle.std.specs.Prelude.{◌≡◌, is_some};
ghost use Rattle.std.specs.Option.{option_copied};
ghost use Rattle.si_model.specs.Parts.{Present, set_up_value};
ghost use Rattle.si_model.specs.Edits.{with_id, installs_at, has_stamp, least_id, writer_of_pair, clashes, is_forward, order_refusal, start_refusal, commit_refusal, first_at, twice_at, taken_at, is_set_up, set_up_at, is_in_doubt, arrival_refusal, resolution_refusal_of, resolution_refusal, withdrawal_refusal, set_up_refusal, refusal_on};

use crate::{Edit, Key, Op, Outcome, Stamp, Status, Txn, TxnId, Value};

/// Why an edit isn't accepted: the first reason that applies.
#[derive(Clone, Copy, Debug, PartialEq, Eq)]
pub enum Refusal {
    /// The journal of accepted edits has reached its limit.
    Full,
    /// The id of the arriving transaction is present.
    IdPresent,
    /// No transaction with that id is present.
    NoSuch,
    /// The transaction isn't in doubt.
    NotInDoubt,
    /// The commit stamp is less than the start stamp, or equal to it and the transaction writes.
    StampOrder,
    /// The stamp is taken by the holder, the least id of those that take it.
    StampTaken { stamp: Stamp, holder: TxnId },
    /// The operation writes a pair of key and value which an earlier one of the transaction writes.
    ValueTwice { op: usize },
    /// The operation writes a pair of key and value which the holder writes.
    ValueTaken { op: usize, holder: TxnId },
    /// The key is set up already.
    SetUpTwice,
    /// The holder writes that value to the key.
    SetUpTaken { holder: TxnId },
    /// The operation writes a pair of key and value which was set up.
    ValueSetUp { op: usize },
}

/// What finds who holds what of the transactions and set-up values that are present.
pub trait Holders {
    ghost use Rattle.std.specs.Prelude.{◌≡◌};
    ghost use Rattle.std.specs.Option.{option_copied};
    ghost use Rattle.si_model.specs.Parts.{Present, set_up_value};
    ghost use Rattle.si_model.specs.Edits.{with_id, installs_at, has_stamp, least_id, writer_of_pair, first_at, twice_at};

    /// What is present.
    ghost present: { Self → Present };

    /// The present transaction with that id.
    fn with_id(&self, id: TxnId) -> Option<&Txn>
        ensures { option_copied result ≡ with_id (present self.now).txns id };

    /// The least id of the transactions that write and commit at the stamp.
    fn least_that_installs_at(&self, stamp: Stamp) -> Option<TxnId>
        ensures { result ≡ least_id (installs_at stamp) (present self.now).txns };

    /// The least id of the transactions that start or commit at the stamp.
    fn least_with_stamp(&self, stamp: Stamp) -> Option<TxnId>
        ensures { result ≡ least_id (has_stamp stamp) (present self.now).txns };

    /// The transaction that writes the value to the key.
    fn writer(&self, key: &Key, value: Value) -> Option<TxnId>
        ensures { result ≡ writer_of_pair (Op.Write key.now value) (present self.now).txns };

    /// The value that the key was set up with.
    fn set_up_value(&self, key: &Key) -> Option<Value>
        ensures { result ≡ set_up_value key.now (present self.now).initial };

    /// The first of the operations writes a pair which an earlier one writes, if one does.
    fn twice_refusal(&self, ops: &[Op]) -> Option<Refusal>
        ensures { result ≡ first_at (twice_at ops.now) 0 ops.now };
}

/// The first reason against an edit of what is present, the journal's limit aside.
#[tactic(auto, unfolding(crate::specs::Edits::refusal_on))]
pub fn refusal_on<H: Holders>(holders: &H, edit: &Edit) -> Option<Refusal>
    ensures { result ≡ refusal_on (H.present holders.now) edit.now }
{
    match edit {
        Edit::Arrive(txn) => arrival_refusal(holders, txn),
        Edit::Resolve(id, outcome) => resolution_refusal(holders, *id, *outcome),
        Edit::Withdraw(id) => withdrawal_refusal(holders, *id),
        Edit::SetUp(key, value) => set_up_refusal(holders, key, *value),
    }
}

fn arrival_refusal<H: Holders>(holders: &H, txn: &Txn) -> Option<Refusal>
    ensures { result ≡ arrival_refusal (H.present holders.now) txn.now }
{
    if holders.with_id(txn.id).is_some() {
        return Some(Refusal::IdPresent);
    }
    let writes = txn.writes();
    let commit = txn.status.commit();
    let ops = txn.ops.as_slice();
    order_refusal(writes, txn.start, commit)
        .or_else(|| start_refusal(holders, txn.start))
        .or_else(|| commit_refusal(holders, writes, commit))
        .or_else(|| holders.twice_refusal(ops))
        .or_else(|| taken_refusal(holders, ops))
        .or_else(|| set_up_among(holders, ops))
}

fn resolution_refusal<H: Holders>(holders: &H, id: TxnId, outcome: Outcome) -> Option<Refusal>
    ensures { result ≡ resolution_refusal (H.present holders.now).txns outcome (with_id (H.present holders.now).txns id) }
{
    let Some(txn) = holders.with_id(id) else {
        return Some(Refusal::NoSuch);
    };
    resolution_refusal_of(holders, outcome, txn)
}

fn resolution_refusal_of<H: Holders>(holders: &H, outcome: Outcome, txn: &Txn) -> Option<Refusal>
    ensures { result ≡ resolution_refusal_of (H.present holders.now).txns outcome txn.now }
{
    if !is_in_doubt(txn.status) {
        return Some(Refusal::NotInDoubt);
    }
    let commit = outcome.status().commit();
    order_refusal(txn.writes(), txn.start, commit).or_else(|| commit_refusal(
        holders,
        txn.writes(),
        commit,
    ))
}

fn withdrawal_refusal<H: Holders>(holders: &H, id: TxnId) -> Option<Refusal>
    ensures { result ≡ withdrawal_refusal (H.present holders.now).txns id }
{
    match holders.with_id(id) {
        Some(_) => None,
        None => Some(Refusal::NoSuch),
    }
}

fn set_up_refusal<H: Holders>(holders: &H, key: &Key, value: Value) -> Option<Refusal>
    ensures { result ≡ set_up_refusal (H.present holders.now) key.now value }
{
    if holders.set_up_value(key).is_some() {
        return Some(Refusal::SetUpTwice);
    }
    let holder = holders.writer(key, value)?;
    Some(Refusal::SetUpTaken { holder })
}

fn is_in_doubt(status: Status) -> bool
    ensures { result ≡ is_in_doubt status }
{
    match status {
        Status::InDoubt => true,
        Status::Committed(_) | Status::Aborted => false,
    }
}

/// Whether a commit may follow a start: it is greater, or equal to it where the transaction writes nothing.
pub(crate) fn is_forward(writes: bool, start: Stamp, commit: Stamp) -> bool
    ensures { result ≡ is_forward writes start commit }
{
    if writes {
        start < commit
    } else {
        start <= commit
    }
}

/// The commit may not follow the start.
fn order_refusal(writes: bool, start: Stamp, commit: Option<Stamp>) -> Option<Refusal>
    ensures { result ≡ order_refusal writes start commit }
{
    match commit {
        Some(commit) if !is_forward(writes, start, commit) => Some(Refusal::StampOrder),
        _ => None,
    }
}

/// The start is taken.
fn start_refusal<H: Holders>(holders: &H, start: Stamp) -> Option<Refusal>
    ensures { result ≡ start_refusal (H.present holders.now).txns start }
{
    let holder = holders.least_that_installs_at(start)?;
    Some(Refusal::StampTaken {
        stamp: start,
        holder,
    })
}

/// The commit is taken.
fn commit_refusal<H: Holders>(holders: &H, writes: bool, commit: Option<Stamp>) -> Option<Refusal>
    ensures { result ≡ commit_refusal (H.present holders.now).txns writes commit }
{
    let stamp = commit?;
    let holder = clashing(holders, writes, stamp)?;
    Some(Refusal::StampTaken { stamp, holder })
}

/// The least id of the transactions that a commit at the stamp may not be beside.
fn clashing<H: Holders>(holders: &H, writes: bool, stamp: Stamp) -> Option<TxnId>
    ensures { result ≡ least_id (clashes writes stamp) (H.present holders.now).txns }
{
    if writes {
        holders.least_with_stamp(stamp)
    } else {
        holders.least_that_installs_at(stamp)
    }
}

/// The first of the operations writes a pair which a present transaction writes.
fn taken_refusal<H: Holders>(holders: &H, ops: &[Op]) -> Option<Refusal>
    ensures { result ≡ first_at (taken_at (H.present holders.now).txns) 0 ops.now }
{
    for (place, op) in ops.iter().enumerate() {
        if let Some(refusal) = taken_at(holders, place, op) {
            return Some(refusal);
        }
    }
    None
}

fn taken_at<H: Holders>(holders: &H, place: usize, op: &Op) -> Option<Refusal>
    ensures { result ≡ taken_at (H.present holders.now).txns place op.now }
{
    match op {
        Op::Read(..) => None,
        Op::Write(key, value) => {
            let holder = holders.writer(key, *value)?;
            Some(Refusal::ValueTaken { op: place, holder })
        }
    }
}

/// The first of the operations writes a pair which was set up.
fn set_up_among<H: Holders>(holders: &H, ops: &[Op]) -> Option<Refusal>
    ensures { result ≡ first_at (set_up_at (H.present holders.now).initial) 0 ops.now }
{
    for (place, op) in ops.iter().enumerate() {
        if is_set_up(holders, op) {
            return Some(Refusal::ValueSetUp { op: place });
        }
    }
    None
}

fn is_set_up<H: Holders>(holders: &H, op: &Op) -> bool
    ensures { result ≡ is_set_up (H.present holders.now).initial op.now }
{
    match op {
        Op::Read(..) => false,
        Op::Write(key, value) => holders.set_up_value(key) == Some(*value),
    }
}
