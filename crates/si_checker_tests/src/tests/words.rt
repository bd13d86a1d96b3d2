//! The worked row, and what two threads see at once.

ghost use Rattle.std.specs.Prelude.{◌≡◌, ◌<◌, [], All, length};

mod steps;

use super::are_same;
use si_words::{BookSeat, Pass, ShardSeat, Words};
use std::alloc::AllocGlobal;
use std::process::Abort;
use std::thread::join;
use steps::{is_closed, issue, issued, mark, pull_and_publish, watermark};

/// So many edits are issued, and these are the marks of the second and of the first shard and the watermark. The words are not closed.
fn shows(rt: &impl Abort, words: &Words, pass: &mut Pass, wanted: (u64, u64, u64, u64))
    requires own { pass.old.table ≡ words.now.table }
    requires shards { words.now.shards ≡ 2 }
    ensures own { pass.new.table ≡ words.now.table }
{
    let (count, second) = (issued(words, pass), mark(words, pass, 1));
    let (first, least) = (mark(words, pass, 0), watermark(words, pass));
    are_same(rt, (count, second, first, least), wanted);
    assert!(rt; !is_closed(words, pass));
}

fn play_row(
    rt: &impl Abort,
    words: &Words,
    mut book: BookSeat,
    mut first: ShardSeat,
    mut second: ShardSeat,
    mut pass: Pass,
)
    requires of_book { (book.table ≡ words.now.table) × (book.view.journal ≡ []) }
    requires of_first { (first.table ≡ words.now.table) × (first.view.done ≡ 0) }
    requires of_second { (second.table ≡ words.now.table) × (second.view.done ≡ 0) }
    requires of_pass { pass.table ≡ words.now.table }
    requires shards { words.now.shards ≡ 2 }
{
    issue(words, &mut book, &mut pass);
    issue(words, &mut book, &mut pass);
    issue(words, &mut book, &mut pass);
    pull_and_publish(words, &mut second, &mut book, 3);
    shows(rt, words, &mut pass, (3, 3, 0, 0));
    pull_and_publish(words, &mut first, &mut book, 2);
    shows(rt, words, &mut pass, (3, 3, 2, 2));
    words.close(&mut book);
    assert!(rt; is_closed(words, &mut pass));
}

#[test]
fn a_row_on_one_thread(rt: HostRuntime) {
    let opened = Words::open(rt.alloc(), 2, 1);
    let (words, book, mut shards, mut passes) = opened.expect(&rt, "memory");
    let second = shards.pop().expect(&rt, "two shards");
    let first = shards.pop().expect(&rt, "two shards");
    let pass = passes.pop().expect(&rt, "one pass");
    play_row(&rt, &words, book, first, second, pass);
}

const ROUNDS: u64 = 1000;

/// Issues, pulls and publishes, round by round.
fn issue_and_publish(
    words: &Words,
    mut book: BookSeat,
    mut shard: ShardSeat,
    mut pass: Pass,
) -> Pass
    requires of_book { (book.table ≡ words.now.table) × (book.view.journal ≡ []) }
    requires of_shard { (shard.table ≡ words.now.table) × (shard.view.done ≡ 0) }
    requires of_pass { pass.table ≡ words.now.table }
    ensures { result.table ≡ words.now.table }
{
    for round in 0..ROUNDS {
        issue(words, &mut book, &mut pass);
        pull_and_publish(words, &mut shard, &mut book, round + 1);
    }
    pass
}

/// How many are issued, the shard's mark and the watermark.
fn looked(words: &Words, pass: &mut Pass, shard: usize) -> (u64, u64, u64)
    requires own { pass.old.table ≡ words.now.table }
    requires shard { shard < words.now.shards }
    ensures { pass.new.table ≡ words.now.table }
{
    let (count, mark) = (issued(words, pass), mark(words, pass, shard));
    (count, mark, watermark(words, pass))
}

/// Whether none of the numbers is above its bound.
fn are_within(numbers: (u64, u64, u64), bounds: (u64, u64, u64)) -> bool {
    numbers.0 <= bounds.0 && numbers.1 <= bounds.1 && numbers.2 <= bounds.2
}

/// Looks as often. None of the answers goes back, and none is above what is issued in all.
fn look_on(words: &Words, mut pass: Pass) -> bool
    requires own { pass.table ≡ words.now.table }
    requires shards { 0 < words.now.shards }
{
    let mut last = (0, 0, 0);
    for _ in 0..ROUNDS {
        let found = looked(words, &mut pass, 0);
        if !are_within(last, found) || !are_within(found, (ROUNDS, ROUNDS, ROUNDS)) {
            return false;
        }
        last = found;
    }
    true
}

#[test]
fn answers_never_go_back(rt: HostRuntime) {
    let opened = Words::open(rt.alloc(), 1, 2);
    let (words, book, mut shards, mut passes) = opened.expect(&rt, "memory");
    let shard = shards.pop().expect(&rt, "a shard");
    let looker = passes.pop().expect(&rt, "two passes");
    let issuer = passes.pop().expect(&rt, "two passes");
    let shared = &words;
    let (mut issuer, steady) = join(
        &rt,
        move || issue_and_publish(shared, book, shard, issuer),
        move || look_on(shared, looker),
    );
    assert!(rt; steady);
    are_same(&rt, issued(&words, &mut issuer), ROUNDS);
    are_same(&rt, mark(&words, &mut issuer, 0), ROUNDS);
}

/// A pass, with the number of the last edit that it has issued.
#[derive(Drop)]
struct Issuer {
    pass: Pass,
    last: u64,
}

/// A shard's seat, with what was published at it.
#[derive(Drop)]
struct Worker {
    seat: ShardSeat,
    done: u64,
    ghost applied: { seat.view.done ≡ done },
}

/// The passes, the last one first.
fn issuers_of(rt: &(impl Abort + AllocGlobal), words: &Words, mut passes: Vec<Pass>) -> Vec<Issuer>
    requires own { All (λ p. p.table ≡ words.now.table) passes.items }
    ensures own { All (λ i. i.pass.table ≡ words.now.table) result.items }
{
    let mut issuers = Vec::new(rt.alloc());
    for _ in 0..passes.len() {
        let Some(pass) = passes.pop() else {
            break;
        };
        let issuer = Issuer { pass, last: 0 };
        issuers.push(issuer).expect(rt, "memory");
    }
    issuers
}

/// The shards' workers, the last one first.
fn workers_of(
    rt: &(impl Abort + AllocGlobal),
    words: &Words,
    mut seats: Vec<ShardSeat>,
) -> Vec<Worker>
    requires own { All (λ s. (s.table ≡ words.now.table) × (s.view.done ≡ 0)) seats.items }
    ensures own { All (λ w. w.seat.table ≡ words.now.table) result.items }
{
    let mut workers = Vec::new(rt.alloc());
    for _ in 0..seats.len() {
        let Some(seat) = seats.pop() else {
            break;
        };
        let worker = Worker { seat, done: 0 };
        workers.push(worker).expect(rt, "memory");
    }
    workers
}

impl Worker {
    /// The shard pulls, and publishes all but the last few of what is issued.
    fn advance(&mut self, words: &Words, book: &mut BookSeat, issued: u64, lag: u64)
        requires own { (self.old.seat.table ≡ words.now.table) × (book.old.table ≡ words.now.table) }
        requires issued { issued ≡ length book.old.view.journal }
        ensures own { self.new.seat.table ≡ words.now.table }
        ensures book { book.new ≡ book.old }
    {
        words.pull(&mut self.seat, book);
        if lag <= issued && self.done <= issued - lag {
            words.publish(&mut self.seat, issued - lag);
            self.done = issued - lag;
        }
    }
}

/// What a pass found at its last looks: how many edits are issued, each shard's mark and the least mark.
#[derive(Drop)]
struct Found {
    issued: u64,
    marks: [u64; 4],
    least: u64,
}

/// Looks at all words. Nothing goes back or beyond what is issued, and the watermark is at most each mark.
fn look_at_all(rt: &impl Abort, words: &Words, pass: &mut Pass, last: &mut Found)
    requires own { pass.old.table ≡ words.now.table }
    requires shards { words.now.shards ≡ 4 }
    ensures own { pass.new.table ≡ pass.old.table }
{
    let issued = issued(words, pass);
    let least = watermark(words, pass);
    let marks = [
        mark(words, pass, 0),
        mark(words, pass, 1),
        mark(words, pass, 2),
        mark(words, pass, 3),
    ];
    assert!(rt; issued >= last.issued && least >= last.least);
    for k in 0..4 {
        assert!(rt; marks[k] >= last.marks[k] && marks[k] <= issued && marks[k] >= least);
    }
    *last = Found {
        issued,
        marks,
        least,
    };
}

/// Each round has at least 12 steps beside joins and parts: an issue, a pull, mostly a publish, a learning and nine looks. So
/// these are over 100,000 steps.
const LONG_ROUNDS: u64 = 9000;

/// Passes issue in turn and shards publish in turn, the last shard first, while one more pass looks on.
fn run_in_turn(
    rt: &impl Abort,
    words: &Words,
    book: &mut BookSeat,
    workers: &mut [Worker],
    issuers: &mut [Issuer],
    looker: &mut Pass,
)
    requires of_book { (book.old.table ≡ words.now.table) × (book.old.view.journal ≡ []) }
    requires of_shards { (words.now.shards ≡ 4) × All (λ w. w.seat.table ≡ words.now.table) workers.old }
    requires of_passes { All (λ i. i.pass.table ≡ words.now.table) issuers.old }
    requires of_looker { looker.old.table ≡ words.now.table }
{
    let mut last = Found {
        issued: 0,
        marks: [0; 4],
        least: 0,
    };
    assert!(rt; workers.len() == 4);
    assert!(rt; issuers.len() == 4);
    for round in 0..LONG_ROUNDS {
        let turn = (round % 4) as usize;
        let issuer = &mut issuers[turn];
        issue(words, book, &mut issuer.pass);
        assert!(rt; issuer.last == round.saturating_sub(3));
        issuer.last = round + 1;
        let worker = &mut workers[turn];
        worker.advance(words, book, round + 1, round % 7);
        words.learn(looker, &mut worker.seat);
        look_at_all(rt, words, looker, &mut last);
        assert!(rt; last.issued == round + 1 && last.marks[3 - turn] == worker.done);
    }
}

#[test]
fn passes_and_shards_take_turns(rt: HostRuntime) {
    let opened = Words::open(rt.alloc(), 4, 5);
    let (words, mut book, shards, mut passes) = opened.expect(&rt, "memory");
    let mut looker = passes.pop().expect(&rt, "five passes");
    let mut workers = workers_of(&rt, &words, shards);
    let mut issuers = issuers_of(&rt, &words, passes);
    run_in_turn(
        &rt,
        &words,
        &mut book,
        workers.as_mut_slice(),
        issuers.as_mut_slice(),
        &mut looker,
    );
}

/// Each pass issues once and each shard publishes once, the last shard first, so that the watermark rises at the last turn alone.
fn take_one_turn_each(
    rt: &impl Abort,
    words: &Words,
    book: &mut BookSeat,
    workers: &mut [Worker],
    issuers: &mut [Issuer],
)
    requires of_book { (book.old.table ≡ words.now.table) × (book.old.view.journal ≡ []) }
    requires of_shards { (words.now.shards ≡ 16) × All (λ w. w.seat.table ≡ words.now.table) workers.old }
    requires of_passes { All (λ i. i.pass.table ≡ words.now.table) issuers.old }
{
    assert!(rt; workers.len() == 16);
    assert!(rt; issuers.len() == 16);
    for turn in 0..16 {
        let number = turn as u64 + 1;
        issue(words, book, &mut issuers[turn].pass);
        workers[turn].advance(words, book, number, 0);
        let found = looked(words, &mut issuers[15 - turn].pass, 15 - turn);
        are_same(rt, found, (number, number, number / 16));
    }
}

#[test]
fn sixteen_passes_and_shards_take_turns(rt: HostRuntime) {
    let opened = Words::open(rt.alloc(), 16, 16);
    let (words, mut book, shards, passes) = opened.expect(&rt, "memory");
    let mut workers = workers_of(&rt, &words, shards);
    let mut issuers = issuers_of(&rt, &words, passes);
    take_one_turn_each(
        &rt,
        &words,
        &mut book,
        workers.as_mut_slice(),
        issuers.as_mut_slice(),
    );
}

fn crosses<T: Send>(value: &T) {
    let _ = value;
}

fn is_shared<T: Sync>(value: &T) {
    let _ = value;
}

/// The shard is told by its own seat of an edit that the pass issues, and of the close.
fn look_by_own_seat(
    rt: &impl Abort,
    words: &Words,
    mut book: BookSeat,
    mut shard: ShardSeat,
    mut pass: Pass,
)
    requires of_book { (book.table ≡ words.now.table) × (book.view.journal ≡ []) }
    requires of_shard { shard.table ≡ words.now.table }
    requires of_pass { pass.table ≡ words.now.table }
{
    are_same(rt, words.issued_at(&mut shard), 0);
    issue(words, &mut book, &mut pass);
    words.see(&mut pass, &mut book);
    are_same(rt, words.issued_at(&mut shard), 1);
    assert!(rt; !words.is_closed_at(&mut shard));
    words.close(&mut book);
    assert!(rt; words.is_closed_at(&mut shard));
}

#[test]
fn a_shard_looks_by_its_own_seat(rt: HostRuntime) {
    let opened = Words::open(rt.alloc(), 1, 1);
    let (words, book, mut shards, mut passes) = opened.expect(&rt, "memory");
    is_shared(&words);
    crosses(&words);
    crosses(&book);
    crosses(&shards);
    crosses(&passes);
    let shard = shards.pop().expect(&rt, "a shard");
    let pass = passes.pop().expect(&rt, "a pass");
    look_by_own_seat(&rt, &words, book, shard, pass);
}
