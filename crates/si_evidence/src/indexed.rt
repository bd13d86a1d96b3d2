//! What a book holds, found by its indexes.

ghost use Rattle.std.specs.Prelude.{◌≡◌};
ghost use Rattle.std.specs.Option.{option_copied};
ghost use Rattle.si_model.specs.Edits.{with_id};
ghost use Rattle.si_model.specs.History.{IsHistory};
ghost use Rattle.si_model.specs.Journals.{present};
ghost use Rattle.si_graph.specs.Installers.{if_installer, installer_with};
ghost use Rattle.si_evidence.specs.Writers.{AreBuckets};

use crate::Writers;
use si_accept::Book;
use si_graph::Lookup;
use si_graph::laws::{installer_is_writer, writers_are_enough};
use si_graph::versions::installs_value;
use si_model::laws::present_is_history;
use si_model::{Holders, Key, Stamp, Txn, TxnId, Value, VersionId};
use std::marker::Model;

/// What is present by a book: ids, written values and set-up values are found by its indexes, and versions among the writers of their
/// keys. Contracts see what is present.
#[derive(Drop)]
pub struct Indexed<'a> {
    book: &'a Book,
    // Its transactions, by the keys that they write.
    writers: &'a Writers,
}

impl<'a> Model for Indexed<'a> {
    ghost use Rattle.si_model.specs.Parts.{Present};
    ghost use Rattle.si_model.specs.Journals.{present};
    ghost use Rattle.si_evidence.specs.Writers.{AreBuckets};

    ghost Value = { Present };

    ghost view = { λ i. present i.book.now.journal };

    ghost invariant = { λ i. AreBuckets (present i.book.now.journal).txns i.writers.now };
}

impl<'a> Indexed<'a> {
    /// What is present by the book, whose transactions these are by the keys that they write.
    pub fn new(book: &'a Book, writers: &'a Writers) -> Self
        requires { AreBuckets (present book.now.journal).txns writers.now }
        ensures { result ≡ present book.now.journal }
    {
        Indexed { book, writers }
    }

    /// The transaction of that id, if it installs the value.
    fn installer_with(&self, key: &Key, value: Value, id: TxnId) -> Option<&Txn>
        ensures { option_copied result ≡ if_installer key.now value (with_id self.now.txns id) }
    {
        match self.book.get(id) {
            Some(txn) if installs_value(key, value, txn) => Some(txn),
            _ => None,
        }
    }

    /// What is present can be what a database had.
    pub fn is_history(&self)
        ensures { IsHistory self.now }
    {
        let _journal = self.book.journal();
        present_is_history();
    }
}

impl Lookup for Indexed<'_> {
    ghost use Rattle.si_model.specs.Parts.{Present};

    ghost present = { λ (p : Present). p };

    fn find(&self, id: TxnId) -> Option<&Txn> {
        self.book.get(id)
    }

    fn set_up(&self, key: &Key) -> Option<Value> {
        self.book.set_up_value(key)
    }

    fn all_stay_out(&self, key: &Key, after: VersionId, commit: Stamp) -> bool {
        writers_are_enough();
        self.writers.all_stay_out(key, after, commit)
    }

    fn installer_of(&self, key: &Key, value: Value) -> Option<&Txn> {
        self.is_history();
        installer_is_writer();
        match self.book.writer(key, value) {
            Some(id) => self.installer_with(key, value, id),
            None => None,
        }
    }
}
