//! Edits drawn by chance, whose findings are compared with those of the plain program after each.

use super::*;
use chance::{Few, Tally, came, some_edit};
use scripts::new_beside;
use si_model::Edit;
use si_scripts::Dice;

/// One key in eight is another one.
const FEW: Few<'static> = Few {
    ids: 12,
    starts: 32,
    commits: 40,
    values: 9,
    keys: &["y", "x", "x", "x", "x", "x", "x", "x"],
    arrivals: 10,
};

/// One history, from nothing on.
fn give_some(rt: &(impl Abort + AllocGlobal), dice: &mut Dice, tally: &mut Tally) {
    let mut beside = new_beside(rt, "x");
    for _ in 0..500 {
        give_one(rt, &mut *beside, &some_edit(rt, dice, FEW), tally);
    }
    drop(beside);
}

fn give_one(rt: &impl Abort, beside: &mut Beside, edit: &Edit, tally: &mut Tally) {
    if beside.compare(rt, edit).is_none() {
        tally.count_edit(edit);
        tally.count_findings(&beside.found(rt));
    }
}

#[test]
fn findings_are_those_of_the_plain_program(rt: HostRuntime) {
    let mut dice = Dice::new(1);
    let mut tally = Tally::new();
    for _ in 0..20 {
        give_some(&rt, &mut dice, &mut tally);
    }
    came(&rt, tally.arrivals, 1000, "arrivals");
    came(&rt, tally.resolutions, 200, "resolutions");
    came(&rt, tally.withdrawals, 500, "withdrawals");
    came(&rt, tally.set_ups, 20, "set-ups");
    assert!(rt; tally.kinds == 255, "too few kinds of findings");
}
