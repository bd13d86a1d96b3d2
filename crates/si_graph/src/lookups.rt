//! What finds transactions and versions among what is present: by walking over all of it, or by an index.

ghost use Rattle.std.specs.Prelude.{◌≡◌};
ghost use Rattle.std.specs.List.{list_all};
ghost use Rattle.std.specs.Option.{option_copied};
ghost use Rattle.si_model.specs.Parts.{Present, set_up_value};
ghost use Rattle.si_model.specs.Edits.{with_id};
ghost use Rattle.si_graph.specs.EvidenceTests.{stays_out, installer_of};

use crate::versions::{installs_value, stays_out};
use si_model::parts::set_up_value;
use si_model::plain::{Walked, find_with_id};
use si_model::{Key, Stamp, Txn, TxnId, Value, VersionId};

/// What finds transactions and versions among what is present.
pub trait Lookup {
    ghost use Rattle.std.specs.Prelude.{◌≡◌};
    ghost use Rattle.std.specs.List.{list_all};
    ghost use Rattle.std.specs.Option.{option_copied};
    ghost use Rattle.si_model.specs.Parts.{Present, set_up_value};
    ghost use Rattle.si_model.specs.Edits.{with_id};
    ghost use Rattle.si_graph.specs.EvidenceTests.{stays_out, installer_of};

    /// What is present.
    ghost present: { Self → Present };

    /// The present transaction with that id.
    fn find(&self, id: TxnId) -> Option<&Txn>
        ensures { option_copied result ≡ with_id (present self.now).txns id };

    /// The value that the key was set up with.
    fn set_up(&self, key: &Key) -> Option<Value>
        ensures { result ≡ set_up_value key.now (present self.now).initial };

    /// Whether no transaction installs a version of the key between these two.
    fn all_stay_out(&self, key: &Key, after: VersionId, commit: Stamp) -> bool
        ensures { result ≡ list_all (stays_out key.now after commit) (present self.now).txns };

    /// The transaction that installs the value.
    fn installer_of(&self, key: &Key, value: Value) -> Option<&Txn>
        ensures { option_copied result ≡ installer_of (present self.now).txns key.now value };
}

impl Lookup for Walked<'_> {
    ghost use Rattle.si_model.specs.Parts.{Present};

    ghost present = { λ w. record { txns = w.txns.now; initial = w.initial.now } };

    fn find(&self, id: TxnId) -> Option<&Txn> {
        find_with_id(self.txns, id)
    }

    fn set_up(&self, key: &Key) -> Option<Value> {
        set_up_value(self.initial, key)
    }

    fn all_stay_out(&self, key: &Key, after: VersionId, commit: Stamp) -> bool {
        all_stay_out(self.txns, key, after, commit)
    }

    fn installer_of(&self, key: &Key, value: Value) -> Option<&Txn> {
        installer_of(self.txns, key, value)
    }
}

fn all_stay_out(txns: &[Txn], key: &Key, after: VersionId, commit: Stamp) -> bool
    ensures { result ≡ list_all (stays_out key.now after commit) txns.now }
{
    txns.iter().all(|txn| stays_out(key, after, commit, txn))
}

fn installer_of<'a>(txns: &'a [Txn], key: &Key, value: Value) -> Option<&'a Txn>
    ensures { option_copied result ≡ installer_of txns.now key.now value }
{
    txns.iter().find(|txn| installs_value(key, value, txn))
}
