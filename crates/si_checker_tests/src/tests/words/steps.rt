//! The steps that the tests make.
//!
//! The contracts of the words are long, and each call brings its clauses into every goal behind it. So each is called here once, and
//! the clauses here say no more than the tests' proofs need: tests look at the rest.
ghost use Rattle.std.specs.Prelude.{◌≡◌, ◌+◌, ◌<◌, ◌≤◌, length};

use si_model::{Edit, TxnId};
use si_words::{BookSeat, Pass, ShardSeat, Words};
use std::snapshot::Snapshot;

/// The pass issues an edit.
pub(super) fn issue(words: &Words, book: &mut BookSeat, pass: &mut Pass)
    requires own { (book.old.table ≡ words.now.table) × (pass.old.table ≡ words.now.table) }
    requires room { length book.old.view.journal < 10000 }
    ensures own { (book.new.table ≡ words.now.table) × (pass.new.table ≡ words.now.table) }
    ensures count { length book.new.view.journal ≡ length book.old.view.journal + 1 }
{
    let edit = Edit::Withdraw(TxnId(7));
    words.issue(book, pass, Snapshot::of(&edit));
}

/// The shard pulls, and publishes the position.
pub(super) fn pull_and_publish(
    words: &Words,
    shard: &mut ShardSeat,
    book: &mut BookSeat,
    position: u64,
)
    requires own { (shard.old.table ≡ words.now.table) × (book.old.table ≡ words.now.table) }
    requires onward { shard.old.view.done ≤ position }
    requires due { position ≤ length book.old.view.journal }
    ensures shard { (shard.new.table ≡ words.now.table) × (shard.new.view.done ≡ position) }
    ensures book { book.new ≡ book.old }
{
    words.pull(shard, book);
    words.publish(shard, position);
}

/// How many are issued, as the pass is told.
pub(super) fn issued(words: &Words, pass: &mut Pass) -> u64
    requires { pass.old.table ≡ words.now.table }
    ensures { pass.new.table ≡ words.now.table }
{
    words.issued(pass)
}

pub(super) fn mark(words: &Words, pass: &mut Pass, shard: usize) -> u64
    requires own { pass.old.table ≡ words.now.table }
    requires shard { shard < words.now.shards }
    ensures { pass.new.table ≡ words.now.table }
{
    words.shard_mark(pass, shard)
}

pub(super) fn watermark(words: &Words, pass: &mut Pass) -> u64
    requires { pass.old.table ≡ words.now.table }
    ensures { pass.new.table ≡ words.now.table }
{
    words.watermark(pass)
}

pub(super) fn is_closed(words: &Words, pass: &mut Pass) -> bool
    requires { pass.old.table ≡ words.now.table }
    ensures { pass.new.table ≡ words.now.table }
{
    words.is_closed(pass)
}
