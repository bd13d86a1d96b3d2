//! Steps drawn by chance. Each reply is foretold from the edits that are present and from how many the shards have applied, and
//! where the machine is settled its findings are those of the plain program.

use super::*;
use chance::{Few, came, some_edit};
use si_model::plain::Walked;
use si_model::{Edit, Number, Refusal, refusal_on};
use si_scripts::Dice;

/// How many edits a journal may have, and how many steps a machine makes.
const LIMIT: usize = 40;

const STEPS: u64 = 300;

const FEW: Few<'static> = Few {
    ids: 20,
    starts: 80,
    commits: 90,
    values: 12,
    keys: &["x", "y", "a key", "another key"],
    arrivals: 11,
};

/// What happened how often.
#[derive(Clone, Copy)]
struct Tally {
    accepted: chance::Tally,
    refused: u64,
    full: u64,
    applied: u64,
    idle: u64,
    settled: u64,
}

impl Tally {
    fn new() -> Tally {
        Tally {
            accepted: chance::Tally::new(),
            refused: 0,
            full: 0,
            applied: 0,
            idle: 0,
            settled: 0,
        }
    }

    fn count_reply(&mut self, reply: Reply) {
        let kind = match reply {
            Reply::Refused(Refusal::Full) => &mut self.full,
            Reply::Refused(_) => &mut self.refused,
            Reply::Applied(_) => &mut self.applied,
            Reply::Idle => &mut self.idle,
            _ => return,
        };
        *kind = kind.saturating_add(1);
    }

    fn count_findings(&mut self, found: &[Finding]) {
        self.settled = self.settled.saturating_add(1);
        self.accepted.count_findings(found);
    }
}

/// How many edits a machine should have accepted, and how many of them each shard should have applied. It stands beside the machine,
/// so that what looks at numbers alone has no machine to prove anything of.
#[derive(Drop)]
struct Foretold {
    accepted: u64,
    positions: Vec<u64>,
}

impl Foretold {
    fn new(rt: &(impl Abort + AllocGlobal), shards: usize) -> Foretold {
        let positions = Vec::from_elem(rt.alloc(), 0u64, shards);
        Foretold {
            accepted: 0,
            positions: positions.expect(rt, "memory"),
        }
    }

    /// What should be answered to an edit that is refused for this reason, or for none.
    fn accept(&mut self, refusal: Option<Refusal>) -> Reply {
        match refusal {
            Some(refusal) => Reply::Refused(refusal),
            None => {
                self.accepted = self.accepted.saturating_add(1);
                Reply::Accepted(Number(self.accepted))
            }
        }
    }

    /// What so many applications by the shard should answer, and how far it is then.
    fn apply(&mut self, shard: usize, most: u64) -> Reply {
        match self.positions.get_mut(shard) {
            Some(position) if *position < self.accepted => {
                *position = position.saturating_add(most).min(self.accepted);
                Reply::Applied(*position)
            }
            _ => Reply::Idle,
        }
    }

    fn settle(&mut self) -> Reply {
        for position in self.positions.iter_mut() {
            *position = self.accepted;
        }
        Reply::Settled(self.accepted)
    }
}

/// Why the edit is refused, by a walk over what is present.
fn reason(rt: &impl Abort, world: &World, accepted: u64, edit: &Edit) -> Option<Refusal> {
    if accepted == LIMIT as u64 {
        return Some(Refusal::Full);
    }
    let txns = present_in(rt, world);
    let initial = set_up_in(rt, world);
    let walked = Walked {
        txns: &txns,
        initial: &initial,
    };
    refusal_on(&walked, edit)
}

/// The machine answers the step so.
fn answers(rt: &impl Abort, world: &mut World, step: Step, wanted: Reply, tally: &mut Tally) {
    are_same(rt, stepped(world, step), wanted);
    tally.count_reply(wanted);
}

fn accept(
    rt: &impl Abort,
    world: &mut World,
    foretold: &mut Foretold,
    edit: Edit,
    tally: &mut Tally,
) {
    let refusal = reason(rt, world, foretold.accepted, &edit);
    if refusal == None {
        tally.accepted.count_edit(&edit);
    }
    let wanted = foretold.accept(refusal);
    answers(rt, world, Step::Accept(edit), wanted, tally);
}

fn some_step(
    rt: &(impl Abort + AllocGlobal),
    world: &mut World,
    foretold: &mut Foretold,
    dice: &mut Dice,
    tally: &mut Tally,
) {
    // A shard, or sometimes the number after the last.
    let shard = dice.below((foretold.positions.len() as u64).saturating_add(1)) as usize;
    match dice.below(16) {
        0..=6 => accept(rt, world, foretold, some_edit(rt, dice, FEW), tally),
        7..=10 => answers(
            rt,
            world,
            Step::Apply(shard),
            foretold.apply(shard, 1),
            tally,
        ),
        11..=12 => {
            let most = dice.below(6).saturating_add(1);
            let wanted = foretold.apply(shard, most);
            are_same(rt, many_applied(rt, world, shard, most), wanted);
        }
        13 => {
            rebuilt(rt, world, shard);
        }
        _ => answers(rt, world, Step::Settle, foretold.settle(), tally),
    }
}

/// Each shard is as far as it should be. Returns the least of their positions.
fn least(rt: &impl Abort, world: &World, foretold: &Foretold) -> u64 {
    let mut least = foretold.accepted;
    let mut shard = 0usize;
    for position in &foretold.positions {
        are_same(rt, world.position(shard), Some(*position));
        least = least.min(*position);
        shard = shard.saturating_add(1);
    }
    are_same(rt, world.position(shard), None);
    least
}

/// Each shard is as far as it should be. The findings are those of the plain program, or the least position is told.
fn compare(rt: &(impl Abort + AllocGlobal), world: &World, foretold: &Foretold, tally: &mut Tally) {
    let least = least(rt, world, foretold);
    if least < foretold.accepted {
        are_same(rt, fault_of(world), Some(WorldFault::Unsettled(least)));
    } else {
        tally.count_findings(&compare_findings(rt, world));
    }
}

fn drive(
    rt: &(impl Abort + AllocGlobal + RandomSource),
    shards: usize,
    dice: &mut Dice,
    tally: &mut Tally,
) {
    let mut world = new_world(rt, shards, LIMIT);
    let mut foretold = Foretold::new(rt, shards);
    for _ in 0..STEPS {
        some_step(rt, &mut *world, &mut foretold, dice, tally);
        compare(rt, &*world, &foretold, tally);
    }
    drop(foretold);
    drop(world);
}

/// Enough of everything came.
fn assert_enough(rt: &impl Abort, tally: &Tally) {
    came(rt, tally.accepted.arrivals, 500, "arrivals");
    came(rt, tally.accepted.resolutions, 50, "resolutions");
    came(rt, tally.accepted.withdrawals, 200, "withdrawals");
    came(rt, tally.accepted.set_ups, 50, "set-ups");
    came(rt, tally.refused, 1000, "refusals");
    came(rt, tally.full, 100, "refusals by a full journal");
    came(rt, tally.applied, 500, "applications");
    came(rt, tally.idle, 500, "idle applications");
    came(rt, tally.settled, 3000, "comparisons of findings");
    assert!(rt; tally.accepted.kinds == 255, "too few kinds of findings");
}

#[test]
fn settled_findings_are_those_of_the_plain_program(rt: HostRuntime) {
    let mut dice = Dice::new(1);
    let mut tally = Tally::new();
    for shards in [1, 2, 3, 4, 7, 16] {
        for _ in 0..6 {
            drive(&rt, shards, &mut dice, &mut tally);
        }
    }
    assert_enough(&rt, &tally);
}
