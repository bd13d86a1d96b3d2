//! What a machine answers after the growth of some memory was refused inside a call.
//!
//! A plain run refuses no memory. `tests/refused_allocations` runs each of these tests once for each of its allocations, which is
//! refused in that run. What wanted it is told, and asked again, after a rebuild where a shard was spoiled. The end is the same
//! whatever was refused.

use super::*;
use si_model::{Number, Refusal};
use si_scripts::{
    OVERLAP_AFTER_WITHDRAWAL, RESOLUTION, RowLine, SEVERAL_ROWS, STALE_READ, VALUE_FREE_AGAIN,
    WorkedRow, row_line,
};

fn told(rt: &(impl Abort + Print), what: &str) {
    println!(rt; "refused: {what}").expect(rt, "output");
}

/// A machine, and how many edits it should have accepted.
#[derive(Drop)]
struct Pressed {
    world: World,
    accepted: u64,
}

impl Pressed {
    fn new(rt: &(impl Abort + AllocGlobal + RandomSource), shards: usize) -> Pressed {
        assert!(rt; 1 <= shards && shards <= MOST_SHARDS);
        let hash = RandomState::new(rt).expect(rt, "random bytes");
        let world = match World::new(rt.alloc(), hash, shards, 100) {
            Ok(world) => world,
            Err(_) => World::new(rt.alloc(), hash, shards, 100).expect(rt, "memory"),
        };
        Pressed { world, accepted: 0 }
    }

    /// Gives the edit, which is refused where there is a reason. Where memory is refused it was not accepted, and is given again.
    fn accept(
        &mut self,
        rt: &(impl Abort + AllocGlobal + Print),
        words: &str,
        reason: Option<Refusal>,
    ) {
        let wanted = self.foretold(reason);
        let mut reply = stepped(&mut self.world, Step::Accept(edit(rt, words)));
        if reply == Reply::NoMemory {
            told(rt, "an acceptance");
            reply = stepped(&mut self.world, Step::Accept(edit(rt, words)));
        }
        are_same(rt, reply, wanted);
    }

    /// The reply that an edit should have, against which there is this reason, or none.
    fn foretold(&mut self, reason: Option<Refusal>) -> Reply {
        match reason {
            Some(refusal) => Reply::Refused(refusal),
            None => {
                self.accepted = self.accepted.saturating_add(1);
                Reply::Accepted(Number(self.accepted))
            }
        }
    }

    /// Rebuilds the shard, which stays as it was where memory is refused.
    fn rebuild(&mut self, rt: &(impl Abort + Print), shard: usize) {
        if !is_rebuilt(rt, &mut self.world, shard) {
            told(rt, "a rebuild");
            assert!(rt; is_rebuilt(rt, &mut self.world, shard));
        }
    }

    /// Nothing but a rebuild mends a spoiled shard. Meanwhile edits are accepted, and the shard stays where it was.
    fn mend(&mut self, rt: &(impl Abort + AllocGlobal + Print), shard: usize) {
        told(rt, "an application");
        let position = self.world.position(shard);
        let fault = fault_of(&self.world).expect(rt, "a fault");
        are_same(
            rt,
            (fault, fault.code()),
            (WorldFault::Spoiled(shard), Some(41)),
        );
        self.answer_while_spoiled(rt, shard);
        self.rebuild(rt, shard);
        are_same(rt, self.world.position(shard), position);
    }

    fn answer_while_spoiled(&mut self, rt: &(impl Abort + AllocGlobal + Print), shard: usize) {
        let spoiled = Reply::Spoiled(shard);
        are_same(rt, stepped(&mut self.world, Step::Apply(shard)), spoiled);
        are_same(rt, many_applied(rt, &mut self.world, shard, 9), spoiled);
        let refused = stepped(&mut self.world, Step::Accept(edit(rt, "withdraw 77")));
        are_same(rt, refused, Reply::Refused(Refusal::NoSuch));
        self.accept(rt, "arrive 20 40 aborted", None);
    }

    /// The shard applies all that is left, so many edits at a time.
    fn apply(&mut self, rt: &(impl Abort + AllocGlobal + Print), shard: usize, most: u64) {
        for _ in 0..20u64 {
            let position = self.world.position(shard);
            match many_applied(rt, &mut self.world, shard, most) {
                Reply::Idle => return,
                Reply::Applied(_) => {}
                Reply::NoMemory => {
                    told(rt, "a copy");
                    are_same(rt, self.world.position(shard), position);
                }
                reply => {
                    are_same(rt, reply, Reply::Spoiled(shard));
                    self.mend(rt, shard);
                }
            }
        }
        panic!(rt; "the shard has to come to an end");
    }

    /// One step of its own shard at a time. The shard has nothing left where the last edit was refused, and stays where it was where
    /// memory is refused.
    fn apply_one(&mut self, rt: &(impl Abort + AllocGlobal + Print), shard: usize) {
        let position = self.world.position(shard);
        match stepped(&mut self.world, Step::Apply(shard)) {
            Reply::NoMemory => {
                told(rt, "a copy");
                are_same(rt, self.world.position(shard), position);
                self.apply_one_again(rt, shard);
            }
            Reply::Spoiled(spoiled) => {
                are_same(rt, (spoiled, self.world.position(shard)), (shard, position));
                self.mend(rt, shard);
                self.apply_one_again(rt, shard);
            }
            Reply::Idle => are_same(rt, self.world.position(shard), Some(self.accepted)),
            reply => are_same(
                rt,
                Some(reply),
                self.world.position(shard).map(Reply::Applied),
            ),
        }
    }

    fn apply_one_again(&mut self, rt: &impl Abort, shard: usize) {
        let reply = stepped(&mut self.world, Step::Apply(shard));
        are_same(
            rt,
            Some(reply),
            self.world.position(shard).map(Reply::Applied),
        );
    }

    /// Settles, after a rebuild of the shard that was spoiled.
    fn settle(&mut self, rt: &(impl Abort + AllocGlobal + Print)) {
        let mut reply = stepped(&mut self.world, Step::Settle);
        match reply {
            Reply::Spoiled(shard) => {
                self.mend(rt, shard);
                reply = stepped(&mut self.world, Step::Settle);
            }
            Reply::NoMemory => {
                told(rt, "a copy");
                reply = stepped(&mut self.world, Step::Settle);
            }
            _ => {}
        }
        are_same(rt, reply, Reply::Settled(self.accepted));
    }

    /// The findings, which are had after a second call where memory is refused.
    fn findings(&self, rt: &(impl Abort + Print)) -> Vec<Finding> {
        match found_in(&self.world) {
            Ok(found) => found,
            Err(fault) => {
                are_same(rt, fault, WorldFault::OutOfMemory);
                told(rt, "a list of findings");
                found_in(&self.world).expect(rt, "findings")
            }
        }
    }

    /// The settled machine finds these.
    fn look(&mut self, rt: &(impl Abort + AllocGlobal + Print), found: &str) {
        self.settle(rt);
        are_found(rt, &self.findings(rt), found);
    }

    /// The machine, which is settled, finds these after a rebuild of each shard.
    fn look_after_rebuilds(&mut self, rt: &(impl Abort + AllocGlobal + Print), found: &str) {
        for shard in 0..self.world.shards() {
            self.rebuild(rt, shard);
        }
        are_found(rt, &self.findings(rt), found);
    }
}

/// Rebuilds the shard, if there is memory for it.
fn is_rebuilt(rt: &impl Abort, world: &mut World, shard: usize) -> bool {
    assert!(rt; shard < world.shards());
    world.rebuild(shard).is_ok()
}

/// The findings with their keys are these. Where memory is refused their text is made again.
fn are_found(rt: &(impl Abort + AllocGlobal), findings: &[Finding], wanted: &str) {
    let text = match found_text(rt, findings) {
        Ok(text) => text,
        Err(_) => found_text(rt, findings).expect(rt, "memory"),
    };
    are_same(rt, text.as_str(), wanted);
}

/// How the edits come to be accepted and applied, before all is settled.
#[derive(Clone, Copy)]
enum Way {
    Steps,
    Together,
    Settled,
    Runs,
}

/// Plays the row that way on a machine of so many shards, and looks at the end.
///
/// A machine is a fat value, and a proof that owns one looks at it anew in each call, so this is the one place that does.
fn play(
    rt: &(impl Abort + AllocGlobal + RandomSource + Print),
    shards: usize,
    row: WorkedRow,
    way: Way,
) {
    let mut pressed = Pressed::new(rt, shards);
    play_on(rt, &mut pressed, row, way);
    drop(pressed);
}

fn play_on(
    rt: &(impl Abort + AllocGlobal + Print),
    pressed: &mut Pressed,
    row: WorkedRow,
    way: Way,
) {
    for line in row.script.trim().lines() {
        match row_line(line.trim()).expect(rt, "a line of a row") {
            RowLine::Edit(words, reason) => give(rt, pressed, way, (words, reason)),
            RowLine::Found(found) => look_on_the_way(rt, pressed, way, found),
        }
    }
    look_on_the_way(rt, pressed, way, row.found);
    pressed.look_after_rebuilds(rt, row.found);
}

/// Gives an edit, which is refused where there is a reason.
fn give(
    rt: &(impl Abort + AllocGlobal + Print),
    pressed: &mut Pressed,
    way: Way,
    (words, reason): (&str, Option<Refusal>),
) {
    match way {
        Way::Steps => step_in_the_end(rt, pressed, words, reason),
        Way::Together | Way::Settled => pressed.accept(rt, words, reason),
        Way::Runs => run_in_the_end(rt, pressed, words, reason),
    }
}

/// These are found, after shards have applied many edits at once where that is the way.
fn look_on_the_way(
    rt: &(impl Abort + AllocGlobal + Print),
    pressed: &mut Pressed,
    way: Way,
    found: &str,
) {
    if let Way::Together = way {
        for shard in 0..pressed.world.shards() {
            pressed.apply(rt, shard, 4);
        }
    }
    pressed.look(rt, found);
}

/// Each shard applies the edit by a step of its own.
fn step_in_the_end(
    rt: &(impl Abort + AllocGlobal + Print),
    pressed: &mut Pressed,
    words: &str,
    reason: Option<Refusal>,
) {
    pressed.accept(rt, words, reason);
    for shard in 0..pressed.world.shards() {
        pressed.apply_one(rt, shard);
    }
}

/// The replies to these steps, if there is memory for them.
fn replies(world: &mut World, steps: Vec<Step>) -> Option<Vec<Reply>> {
    match world.run(steps) {
        Ok(replies) => Some(replies),
        Err(_) => None,
    }
}

/// A run of one step, which accepts the edit. Answers what it is told, and nothing where no step was made.
fn told_by_run(rt: &(impl Abort + AllocGlobal), world: &mut World, words: &str) -> Option<Reply> {
    let mut steps = Vec::new(rt.alloc());
    if steps.push(Step::Accept(edit(rt, words))).is_err() {
        let step = Step::Accept(edit(rt, words));
        steps.push(step).expect(rt, "memory");
    }
    let replies = replies(world, steps)?;
    assert!(rt; replies.len() == 1);
    Some(replies[0])
}

/// Accepts the edit by a run of one step, which is made again where memory is refused.
fn run_in_the_end(
    rt: &(impl Abort + AllocGlobal + Print),
    pressed: &mut Pressed,
    words: &str,
    reason: Option<Refusal>,
) {
    let wanted = pressed.foretold(reason);
    let mut reply = told_by_run(rt, &mut pressed.world, words);
    if reply.is_none() || reply == Some(Reply::NoMemory) {
        told(rt, "a run");
        reply = told_by_run(rt, &mut pressed.world, words);
    }
    are_same(rt, reply, Some(wanted));
}

#[test]
fn steps_are_made_in_the_end(rt: HostRuntime) {
    play(&rt, 2, SEVERAL_ROWS, Way::Steps);
}

#[test]
fn many_edits_are_applied_in_the_end(rt: HostRuntime) {
    play(&rt, 2, SEVERAL_ROWS, Way::Together);
}

#[test]
fn a_machine_is_settled_in_the_end(rt: HostRuntime) {
    play(&rt, 2, SEVERAL_ROWS, Way::Settled);
}

#[test]
fn runs_are_made_in_the_end(rt: HostRuntime) {
    play(&rt, 2, SEVERAL_ROWS, Way::Runs);
}

/// The row each way.
fn plays(rt: &(impl Abort + AllocGlobal + RandomSource + Print), shards: usize, row: WorkedRow) {
    for way in [Way::Steps, Way::Together, Way::Settled, Way::Runs] {
        play(rt, shards, row, way);
    }
}

#[test]
fn a_stale_read_is_found_in_the_end(rt: HostRuntime) {
    plays(&rt, 2, STALE_READ);
}

#[test]
fn a_stale_read_is_found_in_one_shard_in_the_end(rt: HostRuntime) {
    plays(&rt, 1, STALE_READ);
}

#[test]
fn an_overlap_after_a_withdrawal_is_found_in_the_end(rt: HostRuntime) {
    plays(&rt, 2, OVERLAP_AFTER_WITHDRAWAL);
}

#[test]
fn what_a_resolution_makes_is_found_in_the_end(rt: HostRuntime) {
    plays(&rt, 2, RESOLUTION);
}

#[test]
fn a_value_is_free_again_in_the_end(rt: HostRuntime) {
    plays(&rt, 2, VALUE_FREE_AGAIN);
}
