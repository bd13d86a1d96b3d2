//! What seats know of the words. Contracts alone read it, and no value of it is made.

use si_model::Edit;
use std::collections::LinkedList;

/// An edit that was accepted, with the number of the pass that submitted it.
pub struct Entry {
    pub by: usize,
    pub edit: Edit,
}

/// What the book's seat knows.
pub struct BookView {
    /// How many passes there are.
    pub passes: usize,
    /// Every entry so far.
    pub journal: LinkedList<Entry>,
    /// It has closed the words.
    pub closed: bool,
}

/// What the seat of one shard knows.
pub struct ShardView {
    pub number: usize,
    /// The journal as it was last pulled.
    pub due: LinkedList<Entry>,
    /// How many of these entries the shard has applied.
    pub done: u64,
    /// The journal is at least as long.
    pub count: u64,
    /// It has found the words closed.
    pub closed: bool,
}

/// What one pass knows.
pub struct PassView {
    pub number: usize,
    /// The beginning of the journal that it has seen.
    pub seen: LinkedList<Entry>,
    /// The entries that it has issued.
    pub mine: LinkedList<Entry>,
    /// The journal is at least as long.
    pub count: u64,
    /// For each shard, how many entries it is known to have applied.
    pub marks: LinkedList<u64>,
    /// It has found the words closed.
    pub closed: bool,
}

/// What the seat knows that hands out the others: the shards and passes from these numbers on have no seat yet.
pub struct Opener {
    /// How many shards there are.
    pub shards: usize,
    pub next_shard: usize,
    pub next_pass: usize,
}

/// What a seat of the table knows: the parts that it has. A joined seat has two, and a spent one none.
pub struct View {
    pub opener: Option<Opener>,
    pub book: Option<BookView>,
    pub shard: Option<ShardView>,
    pub pass: Option<PassView>,
}
