//! What came and what went on the keys of a shard.

ghost use Rattle.std.specs.Prelude.{◌≡◌, ◌++◌, [], OnOk, Some, map};
ghost use Rattle.si_model.specs.declared.parts.OnKey.{OnKey};
ghost use Rattle.si_model.specs.Findings.{cases, finding_at};
ghost use Rattle.si_judge.specs.Kept.{Shows, WouldShow};
ghost use Rattle.si_shard.specs.KeyChanges.{CanChange, IsChanged};
ghost use Rattle.si_shard.specs.KeyNotes.{IsBlank, IsGathered, KeepsNotesAt};

use crate::key_changes::{Change, make_change};
use si_judge::{Cases, KeyFindings, Notes};
use si_model::{Finding, Key, Kind, OutOfMemory};
use std::alloc::Global;
use std::mem;

/// Findings that came, and that went, in no order. One that came and went stands in both.
#[derive(Drop)]
pub struct Changes {
    pub came: Vec<Finding>,
    pub went: Vec<Finding>,
}

impl Changes {
    /// None.
    pub fn new(alloc: Global) -> Self
        ensures came { result.came.items ≡ [] }
        ensures went { result.went.items ≡ [] }
    {
        Changes {
            came: Vec::new(alloc),
            went: Vec::new(alloc),
        }
    }
}

/// What came and what went on the keys since notes were begun or taken, if they were begun.
#[derive(Drop)]
pub struct KeyNotes {
    alloc: Global,
    // It is lent to each key while that is changed, and else nothing is in it. There is none where nothing is noted.
    lent: Option<Box<Notes>>,
    changes: Changes,
}

impl KeyNotes {
    /// Nothing is noted.
    pub fn new(alloc: Global) -> Self {
        KeyNotes {
            alloc,
            lent: None,
            changes: Changes::new(alloc),
        }
    }

    /// Notes from now on.
    pub fn begin(&mut self) -> Result<(), OutOfMemory>
        ensures blank { OnOk result (IsBlank self.new.lent) }
        ensures came { OnOk result (self.new.changes.came.items ≡ []) }
        ensures went { OnOk result (self.new.changes.went.items ≡ []) }
    {
        self.lent = Some(Box::new(self.alloc, Notes::new(self.alloc))?);
        self.changes = Changes::new(self.alloc);
        Ok(())
    }

    /// What came and what went. Nothing has from now on.
    pub fn take(&mut self) -> Changes
        ensures taken { result ≡ self.old.changes }
        ensures came { self.new.changes.came.items ≡ [] }
        ensures went { self.new.changes.went.items ≡ [] }
        ensures lent { self.new.lent ≡ self.old.lent }
    {
        mem::replace(&mut self.changes, Changes::new(self.alloc))
    }

    /// Makes the change in what is kept of the key, and notes what comes and goes.
    pub fn change(
        &mut self,
        key: &Key,
        kept: &mut KeyFindings<Cases>,
        change: &mut Change,
    ) -> Result<(), OutOfMemory>
        requires { (Q : OnKey) × WouldShow cases Q kept.old × CanChange change.old Q }
        ensures changed { OnOk result (IsChanged change.old kept.old kept.new) }
        ensures noted { OnOk result (KeepsNotesAt key.now self.old self.new (Some kept.old) (Some kept.new)) }
    {
        self.lend(kept);
        make_change(kept, change)?;
        self.gather(key, kept)?;
        Ok(())
    }

    /// Judges the marked reads of the key, and notes what comes and goes.
    pub fn settle(&mut self, key: &Key, kept: &mut KeyFindings<Cases>) -> Result<(), OutOfMemory>
        ensures ok { OnOk result ((M : OnKey) → WouldShow cases M kept.old → Shows cases M kept.new) }
        ensures marks { OnOk result (kept.new.marks ≡ []) }
        ensures key { OnOk result (kept.new.key ≡ kept.old.key) }
        ensures noted { OnOk result (KeepsNotesAt key.now self.old self.new (Some kept.old) (Some kept.new)) }
    {
        self.lend(kept);
        kept.settle()?;
        self.gather(key, kept)?;
        Ok(())
    }

    /// What comes and goes on the key is noted here until it is gathered, where notes were begun.
    fn lend(&mut self, kept: &mut KeyFindings<Cases>)
        ensures kept { kept.new ≡ record kept.old { notes = kept.new.notes } }
        ensures lent { IsBlank self.old.lent → kept.new.notes ≡ self.old.lent }
        ensures changes { self.new.changes ≡ self.old.changes }
    {
        if self.lent.is_some() {
            kept.swap_notes(&mut self.lent);
        }
    }

    /// Takes over what came and went on the key since this was lent to it.
    fn gather(&mut self, key: &Key, kept: &mut KeyFindings<Cases>) -> Result<(), OutOfMemory>
        ensures kept { OnOk result (kept.new ≡ record kept.old { notes = kept.new.notes }) }
        ensures gathered { OnOk result (IsGathered key.now kept.old.notes self.old self.new) }
    {
        if kept.has_notes() {
            kept.swap_notes(&mut self.lent);
            self.add_lent(key)?;
        }
        Ok(())
    }

    #[cold]
    #[inline(never)]
    fn add_lent(&mut self, key: &Key) -> Result<(), OutOfMemory>
        ensures { OnOk result (IsGathered key.now self.old.lent self.old self.new) }
    {
        if let Some(notes) = &mut self.lent {
            add_findings(&mut self.changes.came, key, notes.came.as_slice())?;
            add_findings(&mut self.changes.went, key, notes.went.as_slice())?;
            notes.came.clear();
            notes.went.clear();
        }
        Ok(())
    }
}

/// Adds findings of these kinds on the key.
fn add_findings(found: &mut Vec<Finding>, key: &Key, kinds: &[Kind]) -> Result<(), OutOfMemory>
    ensures { OnOk result (found.new.items ≡ found.old.items ++ map (finding_at key.now) kinds.now) }
{
    for kind in kinds {
        found.push(Finding {
            key: key.try_clone()?,
            kind: *kind,
        })?;
    }
    Ok(())
}
