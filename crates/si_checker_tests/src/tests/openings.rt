//! How a checker is opened.

use super::are_same;
use si_checker::{OpenFault, open};
use std::alloc::{AllocGlobal, Global};
use std::hash::RandomState;
use std::process::Abort;
use std::random::RandomSource;

fn fault_of(
    rt: &(impl Abort + RandomSource),
    alloc: Global,
    shards: usize,
    passes: usize,
    limit: usize,
) -> Option<OpenFault> {
    let hash = RandomState::new(rt).expect(rt, "random bytes");
    match open(alloc, hash, shards, passes, limit) {
        Ok(_) => None,
        Err(fault) => Some(fault),
    }
}

#[test]
fn openings_out_of_their_bounds_are_refused(rt: HostRuntime) {
    let alloc = rt.alloc();
    for (shards, passes, limit, wanted) in [
        (0, 0, 0, Some(OpenFault::BadShards)),
        (1, 17, 0, Some(OpenFault::BadPasses)),
        (16, 16, 0, Some(OpenFault::BadLimit)),
        (16, 16, 16_777_217, Some(OpenFault::BadLimit)),
        (1, 1, 1, None),
    ] {
        let fault = fault_of(&rt, alloc, shards, passes, limit);
        are_same(
            &rt,
            (shards, passes, limit, fault),
            (shards, passes, limit, wanted),
        );
    }
}

#[test]
fn faults_of_openings_have_codes(rt: HostRuntime) {
    are_same(&rt, OpenFault::BadShards.code(), Some(51));
    are_same(&rt, OpenFault::BadPasses.code(), Some(52));
    are_same(&rt, OpenFault::BadLimit.code(), Some(53));
}
