//! What workers do: each shard's edits are applied in batches, with the book's lock held for no more than their copies.
ghost use Rattle.std.specs.Prelude.{◌≡◌, ◌<◌, ◌≤◌, ℕ, length, slice_index, take, drop};
ghost use Rattle.si_shard.specs.ToldEdits.{AreTold};
ghost use Rattle.si_words.specs.Entries.{edits_of};
ghost use Rattle.si_words.specs.Views.{with_count, with_marks};
ghost use Rattle.si_checker.specs.Workers.{EndsWork, TellsPosition};

use crate::checkers::Checker;
use crate::gates::{Gate, Place};
use crate::locked_shards::LockedShard;
use crate::names::Name;
use si_model::Number;
use si_shard::SharedEdits;
use si_words::Pass;
use std::sync::Wait;
use std::thread;
use std::time::Duration;

/// How long a worker rests once it has applied all that there was, in microseconds: what comes meanwhile is applied together.
const REST_MICROS: u64 = 800;

/// How long it rests at most, in microseconds. Each rest in which nothing came doubles the next one up to here.
const MOST_REST_MICROS: u64 = 3_200;

/// How long a caller that waits for workers sleeps between two looks, in microseconds.
const PAUSE_MICROS: u64 = 30;

/// So many looks of such a caller come without a sleep between them.
const LOOKS_AWAKE: u64 = 32;

/// After so many looks in which the workers came no further it waits no longer.
const LOOKS_IN_VAIN: u64 = 400;

/// At every so many looks it wakes the workers that rest.
const LOOKS_TO_WAKE: u64 = 32;

/// Where no shard has more edits left than this, a caller doesn't wait for workers.
const FEW_LEFT: u64 = 16;

/// What became of one turn of a worker.
#[derive(Clone, Copy, Debug, PartialEq, Eq)]
pub enum Worked {
    /// Edits were applied, and the shard has applied so many. Where memory was refused to one of them, the next turn says so.
    Applied(u64),
    /// Nothing is left for the shard, and the checker isn't closed.
    Idle,
    /// Nothing is left for the shard, and the checker is closed.
    Closed,
    /// The copy of an edit was refused, and nothing changed.
    NoMemory,
    /// The shard is spoiled, by this turn or before.
    Spoiled,
}

impl<N: Name> Checker<N> {
    /// The shard applies the next edits of those that are left for it, as many as are copied at once.
    ///
    /// They are copied under the book's lock, and applied and published after it was let go.
    pub fn work_one<R: Wait, G: Gate>(&self, rt: &R, k: usize, gate: &G) -> Worked
        requires { k < N.board.shards }
        ensures { TellsPosition result }
    {
        let mut issued = 0;
        self.work_on(rt, k, gate, &mut issued)
    }

    /// As [`Checker::work_one`], and tells how many edits were issued before. The shared block that was applied may end earlier.
    fn work_on<R: Wait, G: Gate>(&self, rt: &R, k: usize, gate: &G, issued: &mut u64) -> Worked
        requires { k < N.board.shards }
        ensures { TellsPosition result }
    {
        let mut book = self.locked_book.lock(rt);
        let locked_book = &mut *book;
        let Some(mut guard) = self.locked_shard(rt, k) else {
            return Worked::Spoiled;
        };
        let locked_shard = &mut *guard;
        locked_shard.pull(&self.words, locked_book);
        let before = locked_shard.position();
        *issued = locked_book.len();
        if before >= *issued {
            drop(book);
            return if locked_shard.is_closed(&self.words) {
                Worked::Closed
            } else {
                Worked::Idle
            };
        }
        if locked_shard.is_spoiled() {
            return Worked::Spoiled;
        }
        let copied = locked_book.copy(self.alloc, before);
        drop(book);
        let Some(copied) = copied else {
            return Worked::NoMemory;
        };
        self.apply_next(k, gate, locked_shard, copied)
    }

    /// The shard applies the edits, which come next for it, and publishes how far it came.
    fn apply_next<G: Gate>(
        &self,
        k: usize,
        gate: &G,
        locked_shard: &mut LockedShard<N>,
        edits: SharedEdits,
    ) -> Worked
        requires { AreTold (edits_of locked_shard.old.seat.due) locked_shard.old.seat.done edits }
        ensures { TellsPosition result }
    {
        let before = locked_shard.position();
        gate.at(Place::Apply {
            shard: k,
            number: Number(before + 1),
        });
        locked_shard.apply(&self.words, edits);
        let position = locked_shard.position();
        if position == before {
            return Worked::Spoiled;
        }
        gate.at(Place::Published {
            shard: k,
            number: Number(position),
        });
        Worked::Applied(position)
    }

    /// The shard applies what is left for it, until the checker is closed and nothing is left, or something stands in the way.
    pub fn work<R: Wait, G: Gate>(&self, rt: &R, k: usize, gate: &G) -> Worked
        requires { k < N.board.shards }
        ensures { EndsWork result }
    {
        let mut issued = 0;
        for _ in rt.forever() {
            match self.work_on(rt, k, gate, &mut issued) {
                Worked::Applied(position) => {
                    if position >= issued {
                        self.rest(rt, REST_MICROS);
                    }
                }
                Worked::Idle => self.wait_for_work(rt, k),
                ended => return ended,
            }
        }
        unreachable!()
    }

    /// Returns once more was issued than the shard has applied, or the checker was closed. It takes no lock of the book.
    ///
    /// It rests between its looks, the longer the longer nothing came: a submission then wakes nobody and costs nothing for it, and what
    /// comes meanwhile is applied together.
    fn wait_for_work<R: Wait>(&self, rt: &R, k: usize)
        requires { k < N.board.shards }
    {
        let mut micros = REST_MICROS;
        for _ in rt.forever() {
            self.rest(rt, micros);
            if self.has_work(rt, k) {
                return;
            }
            micros = longer(micros);
        }
    }

    /// Sleeps so long, or until the checker was closed or a caller waits for the workers.
    fn rest<R: Wait>(&self, rt: &R, micros: u64) {
        self.idle.park_timeout(rt, 0, Duration::from_micros(micros));
    }

    /// Waits until the workers have applied nearly all that was issued, or don't come further: so a report leaves to them, side by side,
    /// what it would have to apply itself. With one shard nothing is side by side, and it returns at once. It takes no lock, and where
    /// there are no workers it soon returns.
    pub fn await_workers<R: Wait>(&self, rt: &R, pass: &mut Pass)
        requires { pass.old.table ≡ N.board.table }
        ensures view { pass.new ≡ record pass.old { view = with_marks pass.new.view.marks (with_count pass.new.view.count pass.old.view) } }
        ensures counted { pass.old.view.count ≤ pass.new.view.count }
        ensures rises { (k : ℕ) → k < N.board.shards → slice_index pass.old.view.marks k ≤ slice_index pass.new.view.marks k }
    {
        if self.shards() == 1 {
            return;
        }
        let issued = self.issued(pass);
        let mut best = 0;
        let mut in_vain = 0;
        for look in 0..u64::MAX {
            let applied = self.watermark(pass);
            if issued <= applied + FEW_LEFT {
                return;
            }
            if applied > best {
                best = applied;
                in_vain = 0;
            }
            if in_vain >= LOOKS_IN_VAIN {
                return;
            }
            in_vain += 1;
            if look % LOOKS_TO_WAKE == 0 {
                self.idle.wake_all();
            }
            if look < LOOKS_AWAKE {
                thread::yield_now();
            } else {
                self.rest(rt, PAUSE_MICROS);
            }
        }
    }

    /// Whether more was issued than the shard has applied, or the checker was closed.
    fn has_work<R: Wait>(&self, rt: &R, k: usize) -> bool
        requires { k < N.board.shards }
    {
        let Some(mut guard) = self.locked_shard(rt, k) else {
            return true;
        };
        let locked_shard = &mut *guard;
        locked_shard.is_behind(&self.words) || locked_shard.is_closed(&self.words)
    }
}

/// How long the next rest is after one in which nothing came.
fn longer(micros: u64) -> u64 {
    if micros < MOST_REST_MICROS / 2 {
        micros * 2
    } else {
        MOST_REST_MICROS
    }
}
