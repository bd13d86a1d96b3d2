//! Runs of which so many transactions are expected, and none in doubt.

use super::{Host, Options, PLAIN, check, check_with};
use si_cli::ExitStatus;
use si_cli::ExitStatus::{Clean, Open, Violation};
use std::num::NonZeroU64;

/// A run over the input, of which so many transactions are expected, writes the output and has that status: by bytes one at a time, and
/// all at once with any number of shards.
fn expects(rt: &impl Host, expected: u64, input: &str, output: &str, status: ExitStatus) {
    let options = Options {
        expected: Some(expected),
        ..PLAIN
    };
    check_with(rt, options, input, output, status);
}

/// Nobody read what the transaction in doubt wrote, so nothing is found.
#[test]
fn doubt_alone(rt: HostRuntime) {
    let input =
        "{\"do\":\"txn\",\"id\":1,\"start\":1,\"status\":\"indoubt\",\"ops\":[[\"w\",\"x\",1]]}\n";
    let output =
        "short committed=0 expected=0 indoubt=1 ids=1\ntransactions=1 findings=0 refused=0 verdict=clean\n";
    expects(&rt, 0, input, output, Open);
    check(
        &rt,
        None,
        input,
        "transactions=1 findings=0 refused=0 verdict=clean\n",
        Clean,
    );
}

#[test]
fn an_empty_input(rt: HostRuntime) {
    let input = "";
    let output =
        "short committed=0 expected=1 indoubt=0\ntransactions=0 findings=0 refused=0 verdict=clean\n";
    expects(&rt, 1, input, output, Open);
    let input = "";
    let output = "transactions=0 findings=0 refused=0 verdict=clean\n";
    expects(&rt, 0, input, output, Clean);
}

#[test]
fn as_many_as_expected(rt: HostRuntime) {
    let input =
        "{\"do\":\"txn\",\"id\":7,\"start\":1,\"status\":\"committed\",\"commit\":2,\"ops\":[[\"w\",\"x\",1]]}\n";
    let output = "transactions=1 findings=0 refused=0 verdict=clean\n";
    expects(&rt, 1, input, output, Clean);
    expects(&rt, 0, input, output, Clean);
    let input =
        "{\"do\":\"txn\",\"id\":7,\"start\":1,\"status\":\"committed\",\"commit\":2,\"ops\":[[\"w\",\"x\",1]]}\n";
    let output =
        "short committed=1 expected=2 indoubt=0\ntransactions=1 findings=0 refused=0 verdict=clean\n";
    expects(&rt, 2, input, output, Open);
}

/// A transaction that was rolled back isn't committed, nor is a set-up value or what was withdrawn; one that was in doubt may be.
#[test]
fn what_counts(rt: HostRuntime) {
    let input =
        "{\"do\":\"txn\",\"id\":1,\"start\":1,\"status\":\"committed\",\"commit\":2,\"ops\":[[\"w\",\"x\",1]]}\n{\"do\":\"txn\",\"id\":2,\"start\":3,\"status\":\"aborted\",\"ops\":[[\"w\",\"x\",2]]}\n{\"do\":\"setup\",\"key\":\"z\",\"value\":7}\n";
    let output =
        "short committed=1 expected=2 indoubt=0\ntransactions=2 findings=0 refused=0 verdict=clean\n";
    expects(&rt, 2, input, output, Open);
    let input =
        "{\"do\":\"txn\",\"id\":1,\"start\":1,\"status\":\"committed\",\"commit\":2,\"ops\":[[\"w\",\"x\",1]]}\n{\"do\":\"withdraw\",\"id\":1}\n";
    let output =
        "short committed=0 expected=1 indoubt=0\ntransactions=0 findings=0 refused=0 verdict=clean\n";
    expects(&rt, 1, input, output, Open);
    let input =
        "{\"do\":\"txn\",\"id\":1,\"start\":1,\"status\":\"indoubt\",\"ops\":[[\"w\",\"x\",1]]}\n{\"do\":\"resolve\",\"id\":1,\"status\":\"committed\",\"commit\":2}\n";
    let output = "transactions=1 findings=0 refused=0 verdict=clean\n";
    expects(&rt, 1, input, output, Clean);
    let input =
        "{\"do\":\"txn\",\"id\":1,\"start\":1,\"status\":\"indoubt\",\"ops\":[[\"w\",\"x\",1]]}\n{\"do\":\"withdraw\",\"id\":1}\n{\"do\":\"txn\",\"id\":1,\"start\":1,\"status\":\"committed\",\"commit\":2,\"ops\":[[\"w\",\"x\",1]]}\n";
    let output = "transactions=1 findings=0 refused=0 verdict=clean\n";
    expects(&rt, 1, input, output, Clean);
}

#[test]
fn a_violation_stays_one(rt: HostRuntime) {
    let input =
        "{\"do\":\"txn\",\"id\":1,\"start\":1,\"status\":\"committed\",\"commit\":2,\"ops\":[[\"w\",\"x\",1]]}\n{\"do\":\"txn\",\"id\":2,\"start\":3,\"status\":\"committed\",\"commit\":4,\"ops\":[[\"r\",\"x\",null]]}\n";
    let output =
        "stale key=\"x\" txn=2 op=0 read=initial missed=1\nshort committed=2 expected=3 indoubt=0\ntransactions=2 findings=1 refused=0 verdict=violation\n";
    expects(&rt, 3, input, output, Violation);
    let input =
        "{\"do\":\"txn\",\"id\":1,\"start\":1,\"status\":\"committed\",\"commit\":2,\"ops\":[[\"w\",\"x\",1]]}\n{\"do\":\"txn\",\"id\":2,\"start\":3,\"status\":\"committed\",\"commit\":4,\"ops\":[[\"r\",\"x\",null]]}\n{\"do\":\"txn\",\"id\":9,\"start\":5,\"status\":\"indoubt\",\"ops\":[[\"w\",\"y\",1]]}\n";
    let output =
        "stale key=\"x\" txn=2 op=0 read=initial missed=1\nshort committed=2 expected=2 indoubt=1 ids=9\ntransactions=3 findings=1 refused=0 verdict=violation\n";
    expects(&rt, 2, input, output, Violation);
    let input =
        "{\"do\":\"txn\",\"id\":1,\"start\":1,\"status\":\"committed\",\"commit\":2,\"ops\":[[\"w\",\"x\",1]]}\n{\"do\":\"txn\",\"id\":2,\"start\":3,\"status\":\"committed\",\"commit\":4,\"ops\":[[\"r\",\"x\",null]]}\n";
    let output =
        "stale key=\"x\" txn=2 op=0 read=initial missed=1\ntransactions=2 findings=1 refused=0 verdict=violation\n";
    expects(&rt, 2, input, output, Violation);
}

#[test]
fn an_open_verdict_stays_open(rt: HostRuntime) {
    let input =
        "{\"do\":\"txn\",\"id\":1,\"start\":1,\"status\":\"committed\",\"commit\":2,\"ops\":[[\"r\",\"x\",5]]}\n{\"do\":\"txn\",\"id\":1,\"start\":3,\"status\":\"committed\",\"commit\":4,\"ops\":[]}\n";
    let output =
        "refused source=0 line=2 code=12 reason=id-present\nunknown key=\"x\" txn=1 op=0 read=5\nshort committed=1 expected=2 indoubt=0\ntransactions=1 findings=1 refused=1 verdict=open\n";
    expects(&rt, 2, input, output, Open);
    let input =
        "{\"do\":\"txn\",\"id\":1,\"start\":1,\"status\":\"committed\",\"commit\":2,\"ops\":[]}\n{\"do\":\"txn\",\"id\":1,\"start\":3,\"status\":\"committed\",\"commit\":4,\"ops\":[]}\n";
    let output =
        "refused source=0 line=2 code=12 reason=id-present\ntransactions=1 findings=0 refused=1 verdict=clean\n";
    expects(&rt, 1, input, output, Open);
}

#[test]
fn the_last_report_alone_tells_it(rt: HostRuntime) {
    let input =
        "{\"do\":\"txn\",\"id\":1,\"start\":1,\"status\":\"committed\",\"commit\":2,\"ops\":[[\"w\",\"x\",1]]}\n{\"do\":\"txn\",\"id\":2,\"start\":3,\"status\":\"committed\",\"commit\":4,\"ops\":[[\"r\",\"x\",null]]}\n{\"do\":\"txn\",\"id\":3,\"start\":5,\"status\":\"indoubt\",\"ops\":[]}\n";
    let output =
        "transactions=1 findings=0 refused=0 verdict=clean\nstale key=\"x\" txn=2 op=0 read=initial missed=1\n  G-SI(b) 2-rw->1 1-st->2\ntransactions=2 findings=1 refused=0 verdict=violation\nstale key=\"x\" txn=2 op=0 read=initial missed=1\n  G-SI(b) 2-rw->1 1-st->2\ntransactions=3 findings=1 refused=0 verdict=violation\nstale key=\"x\" txn=2 op=0 read=initial missed=1\n  G-SI(b) 2-rw->1 1-st->2\nshort committed=2 expected=9 indoubt=1 ids=3\ntransactions=3 findings=1 refused=0 verdict=violation\n";
    let options = Options {
        every: NonZeroU64::new(1),
        explain: true,
        expected: Some(9),
        ..PLAIN
    };
    check_with(&rt, options, input, output, Violation);
}

/// Of 21 transactions in doubt the id of the 21st isn't told.
#[test]
fn the_least_ids_are_told(rt: HostRuntime) {
    let input =
        "{\"do\":\"txn\",\"id\":30,\"start\":1,\"status\":\"indoubt\",\"ops\":[]}\n{\"do\":\"txn\",\"id\":5,\"start\":1,\"status\":\"indoubt\",\"ops\":[]}\n{\"do\":\"txn\",\"id\":29,\"start\":1,\"status\":\"indoubt\",\"ops\":[]}\n{\"do\":\"txn\",\"id\":28,\"start\":1,\"status\":\"indoubt\",\"ops\":[]}\n{\"do\":\"txn\",\"id\":7,\"start\":1,\"status\":\"indoubt\",\"ops\":[]}\n{\"do\":\"txn\",\"id\":27,\"start\":1,\"status\":\"indoubt\",\"ops\":[]}\n{\"do\":\"txn\",\"id\":26,\"start\":1,\"status\":\"indoubt\",\"ops\":[]}\n{\"do\":\"txn\",\"id\":25,\"start\":1,\"status\":\"indoubt\",\"ops\":[]}\n{\"do\":\"txn\",\"id\":24,\"start\":1,\"status\":\"indoubt\",\"ops\":[]}\n{\"do\":\"txn\",\"id\":23,\"start\":1,\"status\":\"indoubt\",\"ops\":[]}\n{\"do\":\"txn\",\"id\":22,\"start\":1,\"status\":\"indoubt\",\"ops\":[]}\n{\"do\":\"txn\",\"id\":21,\"start\":1,\"status\":\"indoubt\",\"ops\":[]}\n{\"do\":\"txn\",\"id\":20,\"start\":1,\"status\":\"indoubt\",\"ops\":[]}\n{\"do\":\"txn\",\"id\":19,\"start\":1,\"status\":\"indoubt\",\"ops\":[]}\n{\"do\":\"txn\",\"id\":18,\"start\":1,\"status\":\"indoubt\",\"ops\":[]}\n{\"do\":\"txn\",\"id\":17,\"start\":1,\"status\":\"indoubt\",\"ops\":[]}\n{\"do\":\"txn\",\"id\":16,\"start\":1,\"status\":\"indoubt\",\"ops\":[]}\n{\"do\":\"txn\",\"id\":15,\"start\":1,\"status\":\"indoubt\",\"ops\":[]}\n{\"do\":\"txn\",\"id\":14,\"start\":1,\"status\":\"indoubt\",\"ops\":[]}\n{\"do\":\"txn\",\"id\":13,\"start\":1,\"status\":\"indoubt\",\"ops\":[]}\n{\"do\":\"txn\",\"id\":18446744073709551615,\"start\":1,\"status\":\"indoubt\",\"ops\":[]}\n";
    let output =
        "short committed=0 expected=0 indoubt=21 ids=5,7,13,14,15,16,17,18,19,20,21,22,23,24,25,26,27,28,29,30\ntransactions=21 findings=0 refused=0 verdict=clean\n";
    expects(&rt, 0, input, output, Open);
    let input =
        "{\"do\":\"txn\",\"id\":30,\"start\":1,\"status\":\"indoubt\",\"ops\":[]}\n{\"do\":\"txn\",\"id\":29,\"start\":1,\"status\":\"indoubt\",\"ops\":[]}\n{\"do\":\"txn\",\"id\":28,\"start\":1,\"status\":\"indoubt\",\"ops\":[]}\n{\"do\":\"txn\",\"id\":27,\"start\":1,\"status\":\"indoubt\",\"ops\":[]}\n{\"do\":\"txn\",\"id\":26,\"start\":1,\"status\":\"indoubt\",\"ops\":[]}\n{\"do\":\"txn\",\"id\":25,\"start\":1,\"status\":\"indoubt\",\"ops\":[]}\n{\"do\":\"txn\",\"id\":24,\"start\":1,\"status\":\"indoubt\",\"ops\":[]}\n{\"do\":\"txn\",\"id\":23,\"start\":1,\"status\":\"indoubt\",\"ops\":[]}\n{\"do\":\"txn\",\"id\":22,\"start\":1,\"status\":\"indoubt\",\"ops\":[]}\n{\"do\":\"txn\",\"id\":21,\"start\":1,\"status\":\"indoubt\",\"ops\":[]}\n{\"do\":\"txn\",\"id\":20,\"start\":1,\"status\":\"indoubt\",\"ops\":[]}\n{\"do\":\"txn\",\"id\":19,\"start\":1,\"status\":\"indoubt\",\"ops\":[]}\n{\"do\":\"txn\",\"id\":18,\"start\":1,\"status\":\"indoubt\",\"ops\":[]}\n{\"do\":\"txn\",\"id\":17,\"start\":1,\"status\":\"indoubt\",\"ops\":[]}\n{\"do\":\"txn\",\"id\":16,\"start\":1,\"status\":\"indoubt\",\"ops\":[]}\n{\"do\":\"txn\",\"id\":15,\"start\":1,\"status\":\"indoubt\",\"ops\":[]}\n{\"do\":\"txn\",\"id\":14,\"start\":1,\"status\":\"indoubt\",\"ops\":[]}\n{\"do\":\"txn\",\"id\":13,\"start\":1,\"status\":\"indoubt\",\"ops\":[]}\n{\"do\":\"txn\",\"id\":7,\"start\":1,\"status\":\"indoubt\",\"ops\":[]}\n{\"do\":\"txn\",\"id\":5,\"start\":1,\"status\":\"indoubt\",\"ops\":[]}\n";
    let output =
        "short committed=0 expected=0 indoubt=20 ids=5,7,13,14,15,16,17,18,19,20,21,22,23,24,25,26,27,28,29,30\ntransactions=20 findings=0 refused=0 verdict=clean\n";
    expects(&rt, 0, input, output, Open);
}
