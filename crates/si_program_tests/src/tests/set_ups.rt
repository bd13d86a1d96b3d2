//! Readers with one stamp, and values that keys were set up with.

use super::*;
use ExitStatus::{Clean, Open, Violation};
use std::num::NonZeroU64;

#[test]
fn readers_with_one_stamp(rt: HostRuntime) {
    let input =
        "{\"do\":\"txn\",\"id\":1,\"start\":1,\"status\":\"committed\",\"commit\":2,\"ops\":[[\"w\",\"x\",1]]}\n{\"do\":\"txn\",\"id\":2,\"start\":3,\"status\":\"committed\",\"commit\":3,\"ops\":[[\"r\",\"x\",1]]}\n{\"do\":\"txn\",\"id\":3,\"start\":4,\"status\":\"committed\",\"commit\":4,\"ops\":[[\"r\",\"x\",null]]}\n{\"do\":\"txn\",\"id\":4,\"start\":5,\"status\":\"committed\",\"commit\":5,\"ops\":[[\"w\",\"x\",2]]}\n{\"do\":\"txn\",\"id\":5,\"start\":3,\"status\":\"committed\",\"commit\":3,\"ops\":[[\"r\",\"x\",1]]}\n{\"do\":\"txn\",\"id\":6,\"start\":0,\"status\":\"committed\",\"commit\":3,\"ops\":[[\"w\",\"x\",2]]}\n";
    let output =
        "refused source=0 line=4 code=15 reason=stamp-order\nrefused source=0 line=6 code=16 reason=stamp-taken stamp=3 holder=2\nstale key=\"x\" txn=3 op=0 read=initial missed=1\ntransactions=4 findings=1 refused=2 verdict=violation\n";
    check(&rt, None, input, output, Violation);
    let input =
        "{\"do\":\"txn\",\"id\":1,\"start\":4,\"status\":\"indoubt\",\"ops\":[[\"r\",\"x\",null]]}\n{\"do\":\"resolve\",\"id\":1,\"status\":\"committed\",\"commit\":3}\n{\"do\":\"resolve\",\"id\":1,\"status\":\"committed\",\"commit\":4}\n{\"do\":\"txn\",\"id\":2,\"start\":6,\"status\":\"indoubt\",\"ops\":[[\"w\",\"x\",1]]}\n{\"do\":\"resolve\",\"id\":2,\"status\":\"committed\",\"commit\":6}\n";
    let output =
        "refused source=0 line=2 code=15 reason=stamp-order\nrefused source=0 line=5 code=15 reason=stamp-order\ntransactions=2 findings=0 refused=2 verdict=clean\n";
    check(&rt, None, input, output, Open);
}

#[test]
fn a_key_that_is_set_up_late(rt: HostRuntime) {
    let input =
        "{\"do\":\"txn\",\"id\":1,\"start\":1,\"status\":\"committed\",\"commit\":2,\"ops\":[[\"r\",\"x\",5]]}\n{\"do\":\"txn\",\"id\":2,\"start\":3,\"status\":\"committed\",\"commit\":4,\"ops\":[[\"r\",\"x\",null]]}\n{\"do\":\"setup\",\"key\":\"x\",\"value\":5}\n{\"do\":\"txn\",\"id\":3,\"start\":5,\"status\":\"committed\",\"commit\":6,\"ops\":[[\"w\",\"x\",7]]}\n{\"do\":\"txn\",\"id\":4,\"start\":7,\"status\":\"committed\",\"commit\":8,\"ops\":[[\"r\",\"x\",5]]}\n{\"do\":\"setup\",\"key\":\"x\",\"value\":9}\n";
    let output =
        "unknown key=\"x\" txn=1 op=0 read=5\ntransactions=2 findings=1 refused=0 verdict=open\nunknown key=\"x\" txn=2 op=0 read=initial\ntransactions=3 findings=1 refused=0 verdict=open\nrefused source=0 line=6 code=19 reason=set-up-twice\nunknown key=\"x\" txn=2 op=0 read=initial\nstale key=\"x\" txn=4 op=0 read=5 missed=3\ntransactions=4 findings=2 refused=1 verdict=violation\nunknown key=\"x\" txn=2 op=0 read=initial\nstale key=\"x\" txn=4 op=0 read=5 missed=3\ntransactions=4 findings=2 refused=1 verdict=violation\n";
    check(&rt, Some(2), input, output, Violation);
    let output =
        "unknown key=\"x\" txn=1 op=0 read=5\ntransactions=2 findings=1 refused=0 verdict=open\nunknown key=\"x\" txn=2 op=0 read=initial\ntransactions=3 findings=1 refused=0 verdict=open\nrefused source=0 line=6 code=19 reason=set-up-twice\nunknown key=\"x\" txn=2 op=0 read=initial\nstale key=\"x\" txn=4 op=0 read=5 missed=3\n  G-SI(b) 4-rw->3 3-st->4\ntransactions=4 findings=2 refused=1 verdict=violation\nunknown key=\"x\" txn=2 op=0 read=initial\nstale key=\"x\" txn=4 op=0 read=5 missed=3\n  G-SI(b) 4-rw->3 3-st->4\ntransactions=4 findings=2 refused=1 verdict=violation\n";
    let options = Options {
        every: NonZeroU64::new(2),
        explain: true,
        ..PLAIN
    };
    check_with(&rt, options, input, output, Violation);
}

#[test]
fn set_ups_that_are_refused(rt: HostRuntime) {
    let input =
        "{\"do\":\"txn\",\"id\":1,\"start\":1,\"status\":\"committed\",\"commit\":2,\"ops\":[[\"w\",\"x\",5]]}\n{\"do\":\"setup\",\"key\":\"x\",\"value\":5}\n{\"do\":\"setup\",\"key\":\"y\",\"value\":1}\n{\"do\":\"txn\",\"id\":2,\"start\":3,\"status\":\"committed\",\"commit\":4,\"ops\":[[\"w\",\"x\",6],[\"w\",\"y\",1]]}\n";
    let output =
        "refused source=0 line=2 code=20 reason=set-up-taken holder=1\nrefused source=0 line=4 code=21 reason=value-set-up op=1\ntransactions=1 findings=0 refused=2 verdict=clean\n";
    check(&rt, None, input, output, Open);
}

#[test]
fn a_set_up_stays_after_a_withdrawal(rt: HostRuntime) {
    let input =
        "{\"do\":\"setup\",\"key\":\"x\",\"value\":5}\n{\"do\":\"txn\",\"id\":1,\"start\":1,\"status\":\"committed\",\"commit\":2,\"ops\":[[\"r\",\"x\",5]]}\n{\"do\":\"withdraw\",\"id\":1}\n{\"do\":\"txn\",\"id\":2,\"start\":3,\"status\":\"committed\",\"commit\":4,\"ops\":[[\"r\",\"x\",5]]}\n";
    let output = "transactions=1 findings=0 refused=0 verdict=clean\n";
    check(&rt, None, input, output, Clean);
}
