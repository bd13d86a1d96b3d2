//! Inputs with the evidence that is written for their findings.

use super::{PLAIN, check_with};
use si_cli::ExitStatus::{Open, Violation};
use si_cli::Options;

const EXPLAINED: Options = Options {
    explain: true,
    ..PLAIN
};

#[test]
fn a_lost_update_interferes(rt: HostRuntime) {
    let input =
        "{\"do\":\"txn\",\"id\":1,\"start\":1,\"status\":\"committed\",\"commit\":5,\"ops\":[[\"r\",\"x\",null],[\"w\",\"x\",1]]}\n{\"do\":\"txn\",\"id\":2,\"start\":2,\"status\":\"committed\",\"commit\":6,\"ops\":[[\"r\",\"x\",null],[\"w\",\"x\",2]]}\n";
    let output =
        "overlap key=\"x\" first=1 second=2\n  G-SI(a) 1-ww->2\ntransactions=2 findings=1 refused=0 verdict=violation\n";
    check_with(&rt, EXPLAINED, input, output, Violation);
}

#[test]
fn a_stale_read_misses_effects(rt: HostRuntime) {
    let input =
        "{\"do\":\"txn\",\"id\":1,\"start\":1,\"status\":\"committed\",\"commit\":2,\"ops\":[[\"w\",\"x\",1]]}\n{\"do\":\"txn\",\"id\":2,\"start\":3,\"status\":\"committed\",\"commit\":4,\"ops\":[[\"r\",\"x\",null]]}\n";
    let output =
        "stale key=\"x\" txn=2 op=0 read=initial missed=1\n  G-SI(b) 2-rw->1 1-st->2\ntransactions=2 findings=1 refused=0 verdict=violation\n";
    check_with(&rt, EXPLAINED, input, output, Violation);
}

#[test]
fn a_read_of_the_future_interferes(rt: HostRuntime) {
    let input =
        "{\"do\":\"txn\",\"id\":1,\"start\":1,\"status\":\"committed\",\"commit\":10,\"ops\":[[\"w\",\"x\",1]]}\n{\"do\":\"txn\",\"id\":2,\"start\":2,\"status\":\"committed\",\"commit\":3,\"ops\":[[\"r\",\"x\",1]]}\n";
    let output =
        "future key=\"x\" txn=2 op=0 read=1 writer=1\n  G-SI(a) 1-wr->2\ntransactions=2 findings=1 refused=0 verdict=violation\n";
    check_with(&rt, EXPLAINED, input, output, Violation);
}

#[test]
fn an_aborted_read(rt: HostRuntime) {
    let input =
        "{\"do\":\"txn\",\"id\":1,\"start\":1,\"status\":\"aborted\",\"ops\":[[\"w\",\"x\",1],[\"w\",\"x\",2]]}\n{\"do\":\"txn\",\"id\":2,\"start\":3,\"status\":\"committed\",\"commit\":4,\"ops\":[[\"r\",\"x\",1]]}\n";
    let output =
        "aborted key=\"x\" txn=2 op=0 read=1 writer=1\n  G1a reader=2 op=0 writer=1\ntransactions=2 findings=1 refused=0 verdict=violation\n";
    check_with(&rt, EXPLAINED, input, output, Violation);
}

#[test]
fn an_intermediate_read(rt: HostRuntime) {
    let input =
        "{\"do\":\"txn\",\"id\":1,\"start\":1,\"status\":\"committed\",\"commit\":2,\"ops\":[[\"w\",\"x\",1],[\"w\",\"x\",2]]}\n{\"do\":\"txn\",\"id\":2,\"start\":3,\"status\":\"committed\",\"commit\":4,\"ops\":[[\"r\",\"x\",1]]}\n";
    let output =
        "intermediate key=\"x\" txn=2 op=0 read=1 writer=1\n  G1b reader=2 op=0 writer=1\ntransactions=2 findings=1 refused=0 verdict=violation\n";
    check_with(&rt, EXPLAINED, input, output, Violation);
}

#[test]
fn a_read_beside_a_later_one_is_stale(rt: HostRuntime) {
    let input =
        "{\"do\":\"txn\",\"id\":1,\"start\":1,\"status\":\"committed\",\"commit\":2,\"ops\":[[\"w\",\"x\",1]]}\n{\"do\":\"txn\",\"id\":2,\"start\":3,\"status\":\"committed\",\"commit\":4,\"ops\":[[\"w\",\"x\",2],[\"w\",\"y\",1]]}\n{\"do\":\"txn\",\"id\":3,\"start\":5,\"status\":\"committed\",\"commit\":6,\"ops\":[[\"r\",\"y\",1],[\"r\",\"x\",null]]}\n";
    let output =
        "stale key=\"x\" txn=3 op=1 read=initial missed=1\n  G-SI(b) 3-rw->1 1-st->3\ntransactions=3 findings=1 refused=0 verdict=violation\n";
    check_with(&rt, EXPLAINED, input, output, Violation);
}

#[test]
fn findings_of_form_have_no_evidence(rt: HostRuntime) {
    let input =
        "{\"do\":\"txn\",\"id\":2,\"start\":5,\"status\":\"committed\",\"commit\":6,\"ops\":[[\"r\",\"x\",1]]}\n";
    let output =
        "unknown key=\"x\" txn=2 op=0 read=1\ntransactions=1 findings=1 refused=0 verdict=open\n";
    check_with(&rt, EXPLAINED, input, output, Open);
}
