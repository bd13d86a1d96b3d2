//! An index of written pairs: who writes which pair of key and value.

ghost use Rattle.std.specs.Prelude.{◌≡◌, Some, None, OnOk, OnErr};
ghost use Rattle.si_accept.specs.Writers.{writer_of, SetsWriter, SetsWriters, SameWriters, AreFree, HasRoom};

use crate::key_numbers::KeyNumbers;
use crate::pairs::Pairs;
use si_model::{Key, Op, OutOfMemory, TxnId, Value};
use std::alloc::Global;
use std::hash::RandomState;
use std::marker::Model;

/// Pairs of key and value with the transactions that write them. Contracts see who writes what an operation writes.
#[derive(Drop)]
pub struct Writers {
    alloc: Global,
    keys: KeyNumbers,
    // Of the key of each number the writers by the values, which mostly rise; one more may stand ready for the next key.
    ids: Vec<Pairs>,
}

impl Model for Writers {
    ghost use Rattle.si_accept.specs.Writers.{Written, AreNumbered};

    ghost Value = { Written };

    ghost view = { λ w. record { keys = w.keys; ids = w.ids.items } };

    ghost invariant = { λ w. AreNumbered (record { keys = w.keys; ids = w.ids.items }) };
}

impl Writers {
    /// No value is written.
    pub fn new(alloc: Global, hash: RandomState) -> Self
        ensures { (op : Op) → writer_of result op ≡ None }
    {
        Writers {
            alloc,
            keys: KeyNumbers::new(alloc, hash),
            ids: Vec::new(alloc),
        }
    }

    /// The writer of the pair that the operation writes.
    pub fn writer(&self, op: &Op) -> Option<TxnId>
        ensures { result ≡ writer_of self.now op.now }
    {
        match op {
            Op::Read(..) => None,
            Op::Write(key, value) => self.writer_of_pair(key, *value),
        }
    }

    /// The writer of the value to the key.
    pub fn writer_of_pair(&self, key: &Key, value: Value) -> Option<TxnId>
        ensures { result ≡ writer_of self.now (Op.Write key.now value) }
    {
        let number = self.keys.number(key)?;
        let id = self.ids[number].get(value.0)?;
        Some(TxnId(id))
    }

    /// Makes a place for the writers of one key more.
    fn make_room(&mut self) -> Result<(), OutOfMemory>
        ensures ok { OnOk result (HasRoom self.old self.new) }
        ensures err { OnErr result (self.new ≡ self.old) }
    {
        if self.ids.len() == self.keys.len() {
            self.ids.push(Pairs::new())?;
        }
        Ok(())
    }

    /// The transaction writes the pair that the operation writes, from now on.
    pub fn add(&mut self, op: &Op, id: TxnId) -> Result<(), OutOfMemory>
        ensures ok { OnOk result (SetsWriter op.now (Some id) self.old self.new) }
        ensures err { OnErr result (SameWriters self.old self.new) }
    {
        if let Op::Write(key, value) = op {
            self.make_room()?;
            let number = self.keys.add(key)?;
            self.ids[number].insert(self.alloc, value.0, id.0)?;
        }
        Ok(())
    }

    /// No transaction writes the pair that the operation writes, from now on.
    pub fn remove(&mut self, op: &Op)
        ensures { SetsWriter op.now None self.old self.new }
    {
        if let Op::Write(key, value) = op {
            if let Some(number) = self.keys.number(key) {
                self.ids[number].remove(value.0);
            }
        }
    }

    /// The transaction writes the pairs that the operations write, from now on. Each of them must be without a writer.
    pub fn add_all(&mut self, ops: &[Op], id: TxnId) -> Result<(), OutOfMemory>
        requires { AreFree ops.now self.old }
        ensures ok { OnOk result (SetsWriters ops.now (Some id) self.old self.new) }
        ensures err { OnErr result (SameWriters self.old self.new) }
    {
        for (place, op) in ops.iter().enumerate() {
            if let Err(refused) = self.add(op, id) {
                self.remove_all(&ops[..place]);
                return Err(refused);
            }
        }
        Ok(())
    }

    /// No transaction writes the pairs that the operations write, from now on.
    pub fn remove_all(&mut self, ops: &[Op])
        ensures { SetsWriters ops.now None self.old self.new }
    {
        for op in ops {
            self.remove(op);
        }
    }
}
