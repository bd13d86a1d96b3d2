//! The machine on one thread: the book and its shards, its steps, and its findings once it is settled.

ghost use Rattle.std.specs.Prelude.{◌≡◌, ◌⊎◌, ◌↔◌, ℕ, List, ◌+◌, ◌<◌, ◌≤◌, true, false, [], Some, None, Option, Err, length, slice_get, IfOk, OnOk, IfErr, OnErr, ◌++◌};
ghost use Rattle.std.specs.Option.{option_map};
ghost use Rattle.si_model.specs.Findings.{findings};
ghost use Rattle.si_model.specs.Form.{IsWellFormed};
ghost use Rattle.si_model.specs.History.{IsHistory};
ghost use Rattle.si_model.specs.Journals.{IsAccepted, present};
ghost use Rattle.si_model.specs.Parts.{Present};
ghost use Rattle.si_graph.specs.Phenomena.{IsPlSi};
ghost use Rattle.si_graph.specs.Snapshots.{IsSnapshot};
ghost use Rattle.si_core.specs.Worlds.{AllFollow, AppliesAll, AppliesNext, AreFoundOf, IsFirstSpoiled, IsLeastOf, IsShardOf, WithholdsFindings};
ghost use Rattle.std.specs.List.{Contains};
ghost use Rattle.si_shard.specs.declared.journal_shards.JournalShard.{JournalShard as AShard};
ghost use Rattle.si_model.specs.declared.edits.Edit.{Edit as AnEdit};
ghost use Rattle.si_core.specs.declared.steps.Reply.TheVariants as reply;
ghost use Rattle.si_core.specs.declared.steps.WorldFault.TheVariants as fault;
ghost use Rattle.si_core.specs.Machine.{AppliesMany, AppliesUntil, IsAccept, IsApply, IsRebuilt, IsRun, IsSettled, IsStep, SettlesFrom, opened};

use crate::{Reply, Step, WorldFault};
use si_accept::{AcceptFault, Book};
use si_graph::laws::{emptiness_is_exact, snapshots_are_clean};
use si_model::{Edit, Finding, Key, MOST_EDITS, OutOfMemory, Txn, Value};
use si_shard::{JournalShard, MOST_SHARDS, put_all_in_order};
use std::alloc::{AllocError, Global};
use std::hash::RandomState;
use std::marker::Model;

/// The book and its shards on one thread.
///
/// Contracts see the state of the machine: the limit, the journal and how far each shard is.
#[derive(Drop)]
pub struct World {
    alloc: Global,
    book: Book,
    shards: Vec<JournalShard>,
}

impl Model for World {
    ghost use Rattle.si_core.specs.Machine.{Machine};
    ghost use Rattle.si_core.specs.Worlds.{IsWorld, machine_of};

    ghost Value = { Machine };

    ghost view = { λ w. machine_of w.book w.shards.items };

    ghost invariant = { λ w. IsWorld w.book w.shards.items };
}

impl World {
    /// A machine with so many shards whose journal may have so many edits. Nothing is accepted yet.
    ///
    /// Its maps of ids, keys and values hash with this secret key, so that no log can be made to collide in them.
    pub fn new(
        alloc: Global,
        hash: RandomState,
        shards: usize,
        limit: usize,
    ) -> Result<Self, OutOfMemory>
        requires some_shards { 1 ≤ shards }
        requires most_shards { shards ≤ MOST_SHARDS }
        requires some_edits { 1 ≤ limit }
        requires most_edits { limit ≤ MOST_EDITS }
        ensures { IfOk result (λ world. world ≡ opened shards limit) }
    {
        let mut all = Vec::new(alloc);
        for shard in 0..shards {
            all.push(JournalShard::new(alloc, hash, shard, shards))?;
        }
        Ok(World {
            alloc,
            book: Book::new(alloc, hash, limit),
            shards: all,
        })
    }

    /// Makes one step.
    ///
    /// [`Step::Accept`] is answered [`Reply::Refused`] with the first reason against the edit, and else [`Reply::Accepted`].
    /// [`Step::Apply`] is answered [`Reply::Idle`] where there is no such shard or no edit is left for it, [`Reply::Spoiled`]
    /// where one is left and the shard is spoiled, and else [`Reply::Applied`]. [`Step::Settle`] is answered [`Reply::Settled`],
    /// or stops at the first shard that is answered otherwise: those of lesser number have applied the whole journal then.
    ///
    /// Where the growth of some memory is refused the reply is [`Reply::NoMemory`] and the step, or the application that it met,
    /// changed nothing; or it is [`Reply::Spoiled`], and the shard is spoiled from then on.
    pub fn step(&mut self, step: Step) -> Reply
        ensures { IsStep self.old step result self.new }
    {
        match step {
            Step::Accept(edit) => self.accept(edit),
            Step::Apply(shard) => self.apply(shard),
            Step::Settle => self.settle(),
        }
    }

    /// Makes the steps, one after the other, and answers with their replies.
    ///
    /// The room for the replies is taken first: where that is refused no step is made.
    pub fn run(&mut self, steps: Vec<Step>) -> Result<Vec<Reply>, OutOfMemory>
        ensures ok { IfOk result (λ replies. IsRun self.old steps.items replies.items self.new) }
        ensures err { OnErr result (self.new ≡ self.old) }
    {
        let mut replies = Vec::with_capacity(self.alloc, steps.len())?;
        for step in steps {
            replies.push(self.step(step)).unwrap();
        }
        Ok(replies)
    }

    /// Lets the shard apply edits, one after the other, until so many were applied or a reply isn't [`Reply::Applied`].
    ///
    /// It answers with the last [`Reply::Applied`], or with that other reply where nothing was applied. So where memory is refused
    /// to an edit after the first, the answer doesn't tell it. A shard that was spoiled then says so at the next call.
    pub fn apply_many(&mut self, shard: usize, most: u64) -> Reply
        requires { 1 ≤ most }
        ensures { AppliesMany most self.old shard result self.new }
    {
        let mut last = self.apply(shard);
        if !is_applied(last) {
            return last;
        }
        for _applied in 1..most {
            let reply = self.apply(shard);
            if !is_applied(reply) {
                return last;
            }
            last = reply;
        }
        last
    }

    /// Makes all that the shard knows anew from the edits that it has applied, and so ends a spoiled state.
    ///
    /// If memory is refused, everything stays as it was.
    pub fn rebuild(&mut self, shard: usize) -> Result<(), OutOfMemory>
        requires { shard < length self.old.shards }
        ensures ok { OnOk result (IsRebuilt self.old shard self.new) }
        ensures err { OnErr result (self.new ≡ self.old) }
    {
        self.shards[shard].rebuild(self.book.journal())
    }

    /// The findings of what is present, in order.
    ///
    /// Only a settled machine tells them. Before that it answers [`WorldFault::Spoiled`] with the least shard that is spoiled, and
    /// where none is [`WorldFault::Unsettled`] with the least position.
    pub fn findings(&self) -> Result<Vec<Finding>, WorldFault>
        ensures found { IfOk result (λ found. found.items ≡ findings (present self.now.journal)) }
        ensures empty { IfOk result (λ found. (found.items ≡ []) ↔ (IsWellFormed (present self.now.journal) × IsPlSi (present self.now.journal))) }
        ensures snapshot { IfOk result (λ found. (found.items ≡ []) ↔ IsSnapshot (present self.now.journal)) }
        ensures settled { OnOk result (IsSettled self.now) }
        ensures fault { IfErr result (WithholdsFindings self.now) }
    {
        let journal = self.book.journal();
        if let Some(shard) = first_spoiled(self.shards.as_slice()) {
            return Err(WorldFault::Spoiled(shard));
        }
        let position = least_position(self.shards.as_slice());
        if position < journal.len() as u64 {
            return Err(WorldFault::Unsettled(position));
        }
        let Ok(found) = findings_of(self.alloc, self.shards.as_slice()) else {
            return Err(WorldFault::OutOfMemory);
        };
        emptiness_is_exact();
        snapshots_are_clean();
        Ok(found)
    }

    /// Copies of the present transactions, in the order of arrival, which share the operations.
    pub fn present(&self) -> Result<Vec<Txn>, OutOfMemory>
        ensures { IfOk result (λ txns. txns.items ≡ (present self.now.journal).txns) }
    {
        self.book.present()
    }

    /// Copies of the keys that were set up with their values, in the order of arrival.
    pub fn initial(&self) -> Result<Vec<(Key, Value)>, OutOfMemory>
        ensures { IfOk result (λ initial. initial.items ≡ (present self.now.journal).initial) }
    {
        self.book.initial()
    }

    /// How many transactions are present.
    pub fn len(&self) -> usize
        ensures { result ≡ length (present self.now.journal).txns }
    {
        self.book.len()
    }

    /// How many shards there are.
    pub fn shards(&self) -> usize
        ensures { result ≡ length self.now.shards }
    {
        self.shards.len()
    }

    /// How many edits the shard of this number has applied, if there is one.
    pub fn position(&self, shard: usize) -> Option<u64>
        ensures { result ≡ option_map (λ p. p.position) (slice_get self.now.shards shard) }
    {
        match self.shards.get(shard) {
            Some(shard) => Some(shard.position()),
            None => None,
        }
    }

    fn accept(&mut self, edit: Edit) -> Reply
        ensures { IsAccept self.old edit result self.new }
    {
        // No shard asks what edits were about that all have applied.
        self.book.forget(least_position(&self.shards) as usize);
        match self.book.accept(edit) {
            Ok(number) => Reply::Accepted(number),
            Err(AcceptFault::Refused(refusal)) => Reply::Refused(refusal),
            Err(AcceptFault::OutOfMemory) => Reply::NoMemory,
        }
    }

    fn apply(&mut self, shard: usize) -> Reply
        ensures { IsApply self.old shard result self.new }
    {
        if shard >= self.shards.len() {
            return Reply::Idle;
        }
        apply_next(&self.book, &mut self.shards[shard], shard)
    }

    fn settle(&mut self) -> Reply
        ensures { SettlesFrom (length self.old.shards) 0 self.old result self.new }
    {
        for shard in 0..self.shards.len() {
            let reply = self.apply_all(shard);
            if !is_idle(reply) {
                return reply;
            }
        }
        Reply::Settled(self.book.journal().len() as u64)
    }

    /// Lets the shard apply all that is left for it.
    fn apply_all(&mut self, shard: usize) -> Reply
        ensures { AppliesUntil self.old shard result self.new }
    {
        if shard >= self.shards.len() {
            return Reply::Idle;
        }
        apply_left(&self.book, &mut self.shards[shard], shard)
    }
}

/// Lets the shard, which has this number, apply all that is left of the journal.
fn apply_left(book: &Book, shard: &mut JournalShard, number: usize) -> Reply
    requires { IsShardOf book.now.journal shard.old.id.shards number shard.old }
    ensures { AppliesAll book.now.journal number shard.old result shard.new }
{
    match shard.catch_up(book) {
        Ok(()) => Reply::Idle,
        Err(_) => Reply::Spoiled(number),
    }
}

/// Lets the shard, which has this number, apply the next edit of the journal.
fn apply_next(book: &Book, shard: &mut JournalShard, number: usize) -> Reply
    requires { IsShardOf book.now.journal shard.old.id.shards number shard.old }
    ensures { AppliesNext book.now.journal number shard.old result shard.new }
{
    let position = shard.position() as usize;
    if position >= book.journal().len() {
        return Reply::Idle;
    }
    match shard.apply_to(book, position + 1) {
        Ok(()) => Reply::Applied(shard.position()),
        Err(_) => Reply::Spoiled(number),
    }
}

fn is_applied(told: Reply) -> bool
    ensures { (result ≡ true) ↔ ((p : ℕ) × (told ≡ reply.Applied p)) }
{
    match told {
        Reply::Applied(_) => true,
        Reply::Accepted(_) | Reply::Refused(_) => false,
        Reply::Idle | Reply::Settled(_) => false,
        Reply::NoMemory | Reply::Spoiled(_) => false,
    }
}

fn is_idle(told: Reply) -> bool
    ensures { (result ≡ true) ↔ (told ≡ reply.Idle) }
{
    match told {
        Reply::Idle => true,
        Reply::Accepted(_) | Reply::Refused(_) => false,
        Reply::Applied(_) | Reply::Settled(_) => false,
        Reply::NoMemory | Reply::Spoiled(_) => false,
    }
}

/// The least shard that is spoiled.
fn first_spoiled(shards: &[JournalShard]) -> Option<usize>
    ensures { IsFirstSpoiled shards.now result }
{
    for number in 0..shards.len() {
        if shards[number].is_spoiled() {
            return Some(number);
        }
    }
    None
}

/// The least position of a shard.
fn least_position(shards: &[JournalShard]) -> u64
    requires { 1 ≤ length shards.now }
    ensures { IsLeastOf shards.now result }
{
    let mut least = shards[0].position();
    for number in 1..shards.len() {
        let position = shards[number].position();
        if position < least {
            least = position;
        }
    }
    least
}

/// The findings of all shards, of which none is spoiled, in order.
fn findings_of(alloc: Global, shards: &[JournalShard]) -> Result<Vec<Finding>, OutOfMemory>
    requires some { 1 ≤ length shards.now }
    requires whole { (s : AShard) → Contains shards.now s → s.spoiled ≡ false }
    requires follow { (J : List AnEdit) × IsAccepted J × AllFollow J shards.now }
    ensures { IfOk result (λ found. (J : List AnEdit) (P : Present) → IsAccepted J → AllFollow J shards.now → IsHistory P → AreFoundOf J P shards.now → found.items ≡ findings P) }
{
    let mut found = Vec::new(alloc);
    for place in 0..shards.len() {
        let Ok(()) = shards[place].add_findings(&mut found) else {
            return Err(AllocError);
        };
    }
    put_all_in_order(&mut found);
    Ok(found)
}
