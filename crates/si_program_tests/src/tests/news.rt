//! Reports on the way that tell only what changed.

use super::{Host, Options, PLAIN, check_with};
use si_cli::ExitStatus;
use si_cli::ExitStatus::{Clean, Open, Violation};
use std::num::NonZeroU64;

/// A run over the input, with reports after each so many lines that tell only what changed, writes the output and has that status: by bytes
/// one at a time, and all at once with any number of shards.
fn tells(rt: &impl Host, every: u64, input: &str, output: &str, status: ExitStatus) {
    let options = Options {
        every: NonZeroU64::new(every),
        only_new: true,
        ..PLAIN
    };
    check_with(rt, options, input, output, status);
}

/// The read is stale while the write is there, which is withdrawn and arrives again; the last transaction changes nothing.
#[test]
fn a_finding_comes_goes_and_comes_again(rt: HostRuntime) {
    let input =
        "{\"do\":\"txn\",\"id\":1,\"start\":1,\"status\":\"committed\",\"commit\":2,\"ops\":[[\"w\",\"x\",1]]}\n{\"do\":\"txn\",\"id\":2,\"start\":3,\"status\":\"committed\",\"commit\":4,\"ops\":[[\"r\",\"x\",null]]}\n{\"do\":\"withdraw\",\"id\":1}\n{\"do\":\"txn\",\"id\":1,\"start\":1,\"status\":\"committed\",\"commit\":2,\"ops\":[[\"w\",\"x\",1]]}\n{\"do\":\"txn\",\"id\":3,\"start\":5,\"status\":\"committed\",\"commit\":6,\"ops\":[[\"r\",\"x\",1]]}\n";
    let output =
        "transactions=1 findings=0 refused=0 verdict=clean\nstale key=\"x\" txn=2 op=0 read=initial missed=1\ntransactions=2 findings=1 refused=0 verdict=violation\ngone stale key=\"x\" txn=2 op=0 read=initial missed=1\ntransactions=1 findings=0 refused=0 verdict=clean\nstale key=\"x\" txn=2 op=0 read=initial missed=1\ntransactions=2 findings=1 refused=0 verdict=violation\ntransactions=3 findings=1 refused=0 verdict=violation\nstale key=\"x\" txn=2 op=0 read=initial missed=1\ntransactions=3 findings=1 refused=0 verdict=violation\n";
    tells(&rt, 1, input, output, Violation);
}

/// What is there again at the next report isn't told.
#[test]
fn what_goes_and_comes_between_two_reports(rt: HostRuntime) {
    let input =
        "{\"do\":\"txn\",\"id\":1,\"start\":1,\"status\":\"committed\",\"commit\":2,\"ops\":[[\"w\",\"x\",1]]}\n{\"do\":\"txn\",\"id\":2,\"start\":3,\"status\":\"committed\",\"commit\":4,\"ops\":[[\"r\",\"x\",null]]}\n{\"do\":\"withdraw\",\"id\":1}\n{\"do\":\"txn\",\"id\":1,\"start\":1,\"status\":\"committed\",\"commit\":2,\"ops\":[[\"w\",\"x\",1]]}\n{\"do\":\"txn\",\"id\":3,\"start\":5,\"status\":\"committed\",\"commit\":6,\"ops\":[[\"r\",\"x\",1]]}\n";
    let output =
        "stale key=\"x\" txn=2 op=0 read=initial missed=1\ntransactions=2 findings=1 refused=0 verdict=violation\ntransactions=2 findings=1 refused=0 verdict=violation\nstale key=\"x\" txn=2 op=0 read=initial missed=1\ntransactions=3 findings=1 refused=0 verdict=violation\n";
    tells(&rt, 2, input, output, Violation);
}

#[test]
fn evidence_follows_what_is_new(rt: HostRuntime) {
    let input =
        "{\"do\":\"txn\",\"id\":1,\"start\":1,\"status\":\"committed\",\"commit\":2,\"ops\":[[\"w\",\"x\",1]]}\n{\"do\":\"txn\",\"id\":2,\"start\":3,\"status\":\"committed\",\"commit\":4,\"ops\":[[\"r\",\"x\",null]]}\n{\"do\":\"withdraw\",\"id\":1}\n{\"do\":\"txn\",\"id\":1,\"start\":1,\"status\":\"committed\",\"commit\":2,\"ops\":[[\"w\",\"x\",1]]}\n{\"do\":\"txn\",\"id\":3,\"start\":5,\"status\":\"committed\",\"commit\":6,\"ops\":[[\"r\",\"x\",1]]}\n";
    let output =
        "transactions=1 findings=0 refused=0 verdict=clean\nstale key=\"x\" txn=2 op=0 read=initial missed=1\n  G-SI(b) 2-rw->1 1-st->2\ntransactions=2 findings=1 refused=0 verdict=violation\ngone stale key=\"x\" txn=2 op=0 read=initial missed=1\ntransactions=1 findings=0 refused=0 verdict=clean\nstale key=\"x\" txn=2 op=0 read=initial missed=1\n  G-SI(b) 2-rw->1 1-st->2\ntransactions=2 findings=1 refused=0 verdict=violation\ntransactions=3 findings=1 refused=0 verdict=violation\nstale key=\"x\" txn=2 op=0 read=initial missed=1\n  G-SI(b) 2-rw->1 1-st->2\ntransactions=3 findings=1 refused=0 verdict=violation\n";
    let options = Options {
        every: NonZeroU64::new(1),
        only_new: true,
        explain: true,
        ..PLAIN
    };
    check_with(&rt, options, input, output, Violation);
}

#[test]
fn one_finding_in_the_place_of_another(rt: HostRuntime) {
    let input =
        "{\"do\":\"txn\",\"id\":1,\"start\":1,\"status\":\"committed\",\"commit\":10,\"ops\":[[\"w\",\"x\",1]]}\n{\"do\":\"txn\",\"id\":2,\"start\":11,\"status\":\"committed\",\"commit\":20,\"ops\":[[\"w\",\"x\",2]]}\n{\"do\":\"txn\",\"id\":3,\"start\":9,\"status\":\"committed\",\"commit\":30,\"ops\":[[\"w\",\"x\",3]]}\n{\"do\":\"withdraw\",\"id\":2}\n";
    let output =
        "transactions=1 findings=0 refused=0 verdict=clean\ntransactions=2 findings=0 refused=0 verdict=clean\noverlap key=\"x\" first=2 second=3\ntransactions=3 findings=1 refused=0 verdict=violation\noverlap key=\"x\" first=1 second=3\ngone overlap key=\"x\" first=2 second=3\ntransactions=2 findings=1 refused=0 verdict=violation\noverlap key=\"x\" first=1 second=3\ntransactions=2 findings=1 refused=0 verdict=violation\n";
    tells(&rt, 1, input, output, Violation);
}

/// On the way `unknown` and `doubt` stand in the summary alone, and the last report tells them.
#[test]
fn open_findings_are_counted(rt: HostRuntime) {
    let input =
        "{\"do\":\"txn\",\"id\":2,\"start\":5,\"status\":\"committed\",\"commit\":6,\"ops\":[[\"r\",\"x\",1]]}\n{\"do\":\"txn\",\"id\":1,\"start\":1,\"status\":\"committed\",\"commit\":2,\"ops\":[[\"w\",\"x\",1]]}\n";
    let output =
        "transactions=1 findings=1 refused=0 verdict=open\ntransactions=2 findings=0 refused=0 verdict=clean\ntransactions=2 findings=0 refused=0 verdict=clean\n";
    tells(&rt, 1, input, output, Clean);
    let input =
        "{\"do\":\"txn\",\"id\":2,\"start\":5,\"status\":\"committed\",\"commit\":6,\"ops\":[[\"r\",\"x\",1]]}\n";
    let output =
        "transactions=1 findings=1 refused=0 verdict=open\nunknown key=\"x\" txn=2 op=0 read=1\ntransactions=1 findings=1 refused=0 verdict=open\n";
    tells(&rt, 1, input, output, Open);
    let input =
        "{\"do\":\"txn\",\"id\":1,\"start\":1,\"status\":\"indoubt\",\"ops\":[[\"w\",\"x\",1]]}\n{\"do\":\"txn\",\"id\":2,\"start\":5,\"status\":\"committed\",\"commit\":6,\"ops\":[[\"r\",\"x\",1]]}\n";
    let output =
        "transactions=2 findings=1 refused=0 verdict=open\ndoubt key=\"x\" txn=2 op=0 read=1 writer=1\ntransactions=2 findings=1 refused=0 verdict=open\n";
    tells(&rt, 2, input, output, Open);
    let input =
        "{\"do\":\"txn\",\"id\":1,\"start\":1,\"status\":\"indoubt\",\"ops\":[[\"w\",\"x\",1]]}\n{\"do\":\"txn\",\"id\":2,\"start\":5,\"status\":\"committed\",\"commit\":6,\"ops\":[[\"r\",\"x\",1]]}\n{\"do\":\"resolve\",\"id\":1,\"status\":\"aborted\"}\n";
    let output =
        "transactions=1 findings=0 refused=0 verdict=clean\ntransactions=2 findings=1 refused=0 verdict=open\naborted key=\"x\" txn=2 op=0 read=1 writer=1\ntransactions=2 findings=1 refused=0 verdict=violation\naborted key=\"x\" txn=2 op=0 read=1 writer=1\ntransactions=2 findings=1 refused=0 verdict=violation\n";
    tells(&rt, 1, input, output, Violation);
}

/// Those before, between and behind what was told come, and what stands between others goes.
#[test]
fn findings_on_several_keys(rt: HostRuntime) {
    let input =
        "{\"do\":\"txn\",\"id\":1,\"start\":1,\"status\":\"committed\",\"commit\":2,\"ops\":[[\"w\",\"b\",1],[\"w\",\"a\",1],[\"w\",\"c\",1]]}\n{\"do\":\"txn\",\"id\":2,\"start\":3,\"status\":\"committed\",\"commit\":4,\"ops\":[[\"r\",\"b\",null]]}\n{\"do\":\"txn\",\"id\":3,\"start\":5,\"status\":\"committed\",\"commit\":6,\"ops\":[[\"r\",\"a\",null]]}\n{\"do\":\"txn\",\"id\":4,\"start\":7,\"status\":\"committed\",\"commit\":8,\"ops\":[[\"r\",\"c\",null]]}\n{\"do\":\"withdraw\",\"id\":2}\n{\"do\":\"txn\",\"id\":5,\"start\":9,\"status\":\"committed\",\"commit\":10,\"ops\":[[\"r\",\"b\",null]]}\n{\"do\":\"withdraw\",\"id\":1}\n{\"do\":\"txn\",\"id\":6,\"start\":11,\"status\":\"committed\",\"commit\":12,\"ops\":[]}\n";
    let output =
        "stale key=\"b\" txn=2 op=0 read=initial missed=1\ntransactions=2 findings=1 refused=0 verdict=violation\nstale key=\"a\" txn=3 op=0 read=initial missed=1\nstale key=\"c\" txn=4 op=0 read=initial missed=1\ntransactions=4 findings=3 refused=0 verdict=violation\nstale key=\"b\" txn=5 op=0 read=initial missed=1\ngone stale key=\"b\" txn=2 op=0 read=initial missed=1\ntransactions=4 findings=3 refused=0 verdict=violation\ngone stale key=\"a\" txn=3 op=0 read=initial missed=1\ngone stale key=\"b\" txn=5 op=0 read=initial missed=1\ngone stale key=\"c\" txn=4 op=0 read=initial missed=1\ntransactions=4 findings=0 refused=0 verdict=clean\ntransactions=4 findings=0 refused=0 verdict=clean\n";
    tells(&rt, 2, input, output, Clean);
}

#[test]
fn refused_lines_are_told_at_once(rt: HostRuntime) {
    let input =
        "{\"do\":\"txn\",\"id\":1,\"start\":1,\"status\":\"committed\",\"commit\":2,\"ops\":[[\"w\",\"x\",1]]}\n{\"do\":\"txn\",\"id\":1,\"start\":1,\"status\":\"committed\",\"commit\":2,\"ops\":[]}\n{\"do\":\"txn\",\"id\":2,\"start\":3,\"status\":\"committed\",\"commit\":4,\"ops\":[[\"r\",\"x\",null]]}\n{}\n";
    let output =
        "refused source=0 line=2 code=12 reason=id-present\ntransactions=1 findings=0 refused=1 verdict=clean\nrefused source=0 line=4 code=4 reason=bad-kind\nstale key=\"x\" txn=2 op=0 read=initial missed=1\ntransactions=2 findings=1 refused=2 verdict=violation\nstale key=\"x\" txn=2 op=0 read=initial missed=1\ntransactions=2 findings=1 refused=2 verdict=violation\n";
    tells(&rt, 2, input, output, Violation);
}

#[test]
fn without_reports_on_the_way_all_is_told(rt: HostRuntime) {
    let input =
        "{\"do\":\"txn\",\"id\":1,\"start\":1,\"status\":\"committed\",\"commit\":2,\"ops\":[[\"w\",\"x\",1]]}\n{\"do\":\"txn\",\"id\":2,\"start\":3,\"status\":\"committed\",\"commit\":4,\"ops\":[[\"r\",\"x\",null]]}\n";
    let output =
        "stale key=\"x\" txn=2 op=0 read=initial missed=1\ntransactions=2 findings=1 refused=0 verdict=violation\n";
    let options = Options {
        only_new: true,
        ..PLAIN
    };
    check_with(&rt, options, input, output, Violation);
}

#[test]
fn with_an_expectation(rt: HostRuntime) {
    let input =
        "{\"do\":\"txn\",\"id\":1,\"start\":1,\"status\":\"committed\",\"commit\":2,\"ops\":[[\"w\",\"x\",1]]}\n{\"do\":\"txn\",\"id\":2,\"start\":3,\"status\":\"committed\",\"commit\":4,\"ops\":[[\"r\",\"x\",null]]}\n{\"do\":\"txn\",\"id\":3,\"start\":5,\"status\":\"indoubt\",\"ops\":[]}\n";
    let output =
        "transactions=1 findings=0 refused=0 verdict=clean\nstale key=\"x\" txn=2 op=0 read=initial missed=1\ntransactions=2 findings=1 refused=0 verdict=violation\ntransactions=3 findings=1 refused=0 verdict=violation\nstale key=\"x\" txn=2 op=0 read=initial missed=1\nshort committed=2 expected=2 indoubt=1 ids=3\ntransactions=3 findings=1 refused=0 verdict=violation\n";
    let options = Options {
        every: NonZeroU64::new(1),
        only_new: true,
        expected: Some(2),
        ..PLAIN
    };
    check_with(&rt, options, input, output, Violation);
}
