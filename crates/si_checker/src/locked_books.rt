//! What lies under the lock of the book, and what calls do there.
ghost use Rattle.std.specs.Prelude.{◌≡◌, ◌+◌, ◌-◌, ◌<◌, ◌≤◌, None, [], length, take, drop, IfOk, OnOk, IfErr, OnErr, IfSome};
ghost use Rattle.std.specs.Vec.{vec_len};
ghost use Rattle.si_model.specs.Journals.{IsAccepted, present, refusal_after};
ghost use Rattle.si_accept.specs.Faults.{IsFaultOf};
ghost use Rattle.si_accept.specs.Statuses.{committed_among, doubtful_among};
ghost use Rattle.si_words.specs.Entries.{IsBeginning, edits_of, entry};
ghost use Rattle.si_words.specs.Seats.{seated};
ghost use Rattle.si_words.specs.Views.{book_closed, new_book, with_entry};
ghost use Rattle.si_shard.specs.ToldEdits.{AreTold};
ghost use Rattle.si_checker.specs.Blocks.{IsBlockOf};
ghost use Rattle.si_checker.specs.Calls.{SeesJournal, issuing};

use crate::blocks::Block;
use crate::positions::Positions;
use crate::{Name, Statuses};
use si_accept::{AcceptFault, Book};
use si_model::{Edit, Key, Number, OutOfMemory, Txn, Value};
use si_shard::{SharedEdits, ToldEdit, told_edit};
use si_words::laws::edits_append;
use si_words::{BookSeat, Pass, Words};
use std::alloc::Global;
use std::marker::{Model, PhantomData};
use std::snapshot::Snapshot;

/// The most edits that are copied at once: a worker that takes few at a time comes to the book's lock more often, and the accepter waits
/// for it there. Clauses name this number and the next one themselves, as bounds.
pub const MOST_AT_ONCE: usize = 1024;

/// The most blocks that are kept: a shard that is 16 blocks behind the one that is furthest finds its next edits still.
const MOST_BLOCKS: usize = 16;

/// The book and its seat. Contracts see what the seat knows: its journal is the book's, with the pass of each edit.
#[derive(Drop)]
pub struct LockedBook<N: Name> {
    book: Book,
    // Those that were copied last, the oldest first.
    blocks: Vec<Block>,
    // How far each shard was when it last came for edits.
    positions: Positions,
    pub(crate) seat: BookSeat,
    of: PhantomData<N>,
}

impl<N: Name> Model for LockedBook<N> {
    ghost use Rattle.si_words.specs.declared.views.BookView.{BookView};
    ghost use Rattle.si_checker.specs.LockedBooks.{IsLockedBook};

    ghost Value = { BookView };

    ghost view = { λ d. d.seat.view };

    ghost invariant = { λ d. IsLockedBook N.board N.limit d.book d.blocks.items d.seat };
}

impl<N: Name> LockedBook<N> {
    /// A book with an empty journal, and its seat.
    pub fn new(alloc: Global, book: Book, seat: BookSeat, shards: usize) -> Self
        requires book { book ≡ record { limit = N.limit; journal = []; noted = 0 } }
        requires seat { seat ≡ seated N.board.table (new_book N.board.passes) }
        ensures { result ≡ new_book N.board.passes }
    {
        // The limit of any book is in its bounds.
        let _limit = book.limit();
        LockedBook {
            book,
            blocks: Vec::new(alloc),
            positions: Positions::new(shards),
            seat,
            of: PhantomData,
        }
    }

    /// Accepts the edit, or tells the first reason against it. Then the pass sees the journal.
    ///
    /// The answer is the edit's number, and it bears the pass. After a fault the journal is as before.
    pub fn submit(
        &mut self,
        words: &Words,
        pass: &mut Pass,
        edit: Edit,
    ) -> Result<Number, AcceptFault>
        requires words { words.now ≡ N.board }
        requires own { pass.old.table ≡ N.board.table }
        ensures locked_book { OnOk result (self.new ≡ with_entry (entry pass.old.view.number edit) self.old) }
        ensures number { IfOk result (λ number. number.0 ≡ length self.new.journal) }
        ensures free { OnOk result (refusal_after N.limit (edits_of self.old.journal) edit ≡ None) }
        ensures ok { OnOk result (SeesJournal N.board self.new.journal (issuing edit pass.old) pass.new) }
        ensures fault { IfErr result (IsFaultOf (refusal_after N.limit (edits_of self.old.journal) edit)) }
        ensures err { OnErr result (self.new ≡ self.old) }
        ensures sees { OnErr result (SeesJournal N.board self.old.journal pass.old pass.new) }
        ensures begins { IsBeginning pass.old.view.seen self.old.journal }
        ensures counted { pass.old.view.count ≤ length self.old.journal }
    {
        let said = Snapshot::of(&edit);
        match self.book.accept(edit) {
            Ok(number) => {
                words.issue(&mut self.seat, pass, said);
                edits_append();
                words.see(pass, &mut self.seat);
                Ok(number)
            }
            Err(fault) => {
                words.see(pass, &mut self.seat);
                Err(fault)
            }
        }
    }

    /// The pass sees the journal.
    pub fn show(&mut self, words: &Words, pass: &mut Pass)
        requires words { words.now ≡ N.board }
        requires own { pass.old.table ≡ N.board.table }
        ensures locked_book { self.new ≡ self.old }
        ensures sees { SeesJournal N.board self.old.journal pass.old pass.new }
    {
        let seat = &mut self.seat;
        words.see(pass, seat);
    }

    /// The words are closed from now on.
    pub fn close(&mut self, words: &Words)
        requires { words.now ≡ N.board }
        ensures { self.new ≡ book_closed self.old }
    {
        words.close(&mut self.seat);
    }

    /// The shard of this number has applied so many edits: what was noted for those that all have applied is let go.
    pub fn pass_by(&mut self, shard: usize, position: u64)
        ensures { self.new ≡ self.old }
    {
        let least = self.positions.pass_by(shard, position);
        self.book.forget(least as usize);
    }

    /// Copies of the edits from this position on, [`MOST_AT_ONCE`] at most, which share the operations. If memory is refused, there are
    /// fewer, or none. Nor are there any where a shard has come back behind what it had applied, which none does.
    ///
    /// They are copied once for all shards: whoever asks for what a kept block covers shares that block.
    pub fn copy(&mut self, alloc: Global, position: u64) -> Option<SharedEdits>
        requires { position ≤ length self.old.journal }
        ensures locked_book { self.new ≡ self.old }
        ensures edits { IfSome result (AreTold (edits_of self.old.journal) position) }
        ensures some { IfSome result (λ edits. 0 < length edits) }
        ensures most { IfSome result (λ edits. length edits ≤ 1024) }
    {
        if let Some(copied) = self.kept_from(position) {
            return Some(copied);
        }
        let block = self.block_from(alloc, position)?;
        let copied = block.copied_from(position)?;
        self.keep(block);
        Some(copied)
    }

    /// What a kept block has from this position on.
    fn kept_from(&self, position: u64) -> Option<SharedEdits>
        ensures edits { IfSome result (AreTold (edits_of self.now.journal) position) }
        ensures some { IfSome result (λ edits. 0 < length edits) }
        ensures most { IfSome result (λ edits. length edits ≤ 1024) }
    {
        for block in &self.blocks {
            if let Some(copied) = block.copied_from(position) {
                return Some(copied);
            }
        }
        None
    }

    /// A new block, which begins at this position. There is none where memory is refused for it.
    fn block_from(&self, alloc: Global, position: u64) -> Option<Block>
        requires { position ≤ length self.now.journal }
        ensures block { IfSome result (λ block. IsBlockOf (edits_of self.now.journal) block) }
        ensures first { IfSome result (λ block. block.first ≡ position) }
    {
        let from = position as usize;
        if from < self.book.noted() {
            return None;
        }
        let count = (self.book.journal().len() - from).min(MOST_AT_ONCE);
        Block::new(position, copies(alloc, &self.book, from, from + count)).ok()
    }

    /// Keeps the block in place of the oldest. Where memory is refused for that, it is let go.
    fn keep(&mut self, block: Block)
        requires { IsBlockOf (edits_of self.old.journal) block }
        ensures { self.new ≡ self.old }
    {
        if self.blocks.len() >= MOST_BLOCKS {
            self.blocks.remove(0);
        }
        let _kept = self.blocks.push(block).is_ok();
    }

    /// The book, which tells what its edits are about.
    pub fn book(&self) -> &Book
        ensures journal { result.now.journal ≡ edits_of self.now.journal }
        ensures accepted { IsAccepted (edits_of self.now.journal) }
    {
        &self.book
    }

    /// The accepted edits, in the order of their numbers.
    pub fn journal(&self) -> &[Edit]
        ensures edits { result.now ≡ edits_of self.now.journal }
        ensures accepted { IsAccepted (edits_of self.now.journal) }
    {
        self.book.journal()
    }

    /// How many edits are accepted.
    pub fn len(&self) -> u64
        ensures journal { result ≡ length self.now.journal }
        ensures within { result ≤ N.limit }
    {
        self.book.journal().len() as u64
    }

    /// How many transactions are present.
    pub fn transactions(&self) -> usize
        ensures { result ≡ length (present (edits_of self.now.journal)).txns }
    {
        self.book.len()
    }

    /// What became of the present transactions.
    pub fn statuses(&self) -> Result<Statuses, OutOfMemory>
        ensures committed { IfOk result (λ s. s.committed ≡ committed_among (present (edits_of self.now.journal)).txns) }
        ensures in_doubt { IfOk result (λ s. s.in_doubt.items ≡ doubtful_among (present (edits_of self.now.journal)).txns) }
    {
        Ok(Statuses {
            committed: self.book.committed(),
            in_doubt: self.book.doubtful()?,
        })
    }

    /// Copies of the present transactions, in the order of arrival, which share the operations.
    pub fn present(&self) -> Result<Vec<Txn>, OutOfMemory>
        ensures { IfOk result (λ txns. txns.items ≡ (present (edits_of self.now.journal)).txns) }
    {
        self.book.present()
    }

    /// Copies of the keys that were set up with their values, in the order of arrival.
    pub fn initial(&self) -> Result<Vec<(Key, Value)>, OutOfMemory>
        ensures { IfOk result (λ initial. initial.items ≡ (present (edits_of self.now.journal)).initial) }
    {
        self.book.initial()
    }
}

/// Copies of the edits from one place to another, or of the first of these where memory is refused.
fn copies(alloc: Global, book: &Book, from: usize, end: usize) -> Vec<ToldEdit>
    requires noted { book.now.noted ≤ from }
    requires onward { from ≤ end }
    requires within { end ≤ length book.now.journal }
    ensures edits { AreTold book.now.journal from result.items }
    ensures most { vec_len result ≤ end - from }
{
    // The room comes first, so that nothing grows under the book's lock.
    let Ok(mut copies) = Vec::with_capacity(alloc, end - from) else {
        return Vec::new(alloc);
    };
    for place in from..end {
        let Ok(copy) = told_edit(book, place) else {
            return copies;
        };
        let Ok(()) = copies.push(copy) else {
            return copies;
        };
    }
    copies
}
