//! Inputs with the texts that are written for them.

use super::{Host, check, is_text, repeated};
use si_cli::ExitStatus;
use si_cli::ExitStatus::{Clean, Open, Violation};
use si_model::{findings_of, is_history};
use si_scripts::present;
use si_text::print_finding;

#[test]
fn clean_histories(rt: HostRuntime) {
    let input = "";
    let output = "transactions=0 findings=0 refused=0 verdict=clean\n";
    check(&rt, None, input, output, Clean);
    let input =
        "{\"do\":\"txn\",\"id\":1,\"start\":1,\"status\":\"committed\",\"commit\":5,\"ops\":[[\"r\",\"x\",null],[\"r\",\"y\",null],[\"w\",\"x\",1]]}\n{\"do\":\"txn\",\"id\":2,\"start\":1,\"status\":\"committed\",\"commit\":6,\"ops\":[[\"r\",\"x\",null],[\"r\",\"y\",null],[\"w\",\"y\",2]]}\n";
    let output = "transactions=2 findings=0 refused=0 verdict=clean\n";
    check(&rt, None, input, output, Clean);
}

#[test]
fn lost_update(rt: HostRuntime) {
    let input =
        "{\"do\":\"txn\",\"id\":1,\"start\":1,\"status\":\"committed\",\"commit\":5,\"ops\":[[\"r\",\"x\",null],[\"w\",\"x\",1]]}\n{\"do\":\"txn\",\"id\":2,\"start\":2,\"status\":\"committed\",\"commit\":6,\"ops\":[[\"r\",\"x\",null],[\"w\",\"x\",2]]}\n";
    let output =
        "overlap key=\"x\" first=1 second=2\ntransactions=2 findings=1 refused=0 verdict=violation\n";
    check(&rt, None, input, output, Violation);
}

#[test]
fn stale_and_future(rt: HostRuntime) {
    let input =
        "{\"do\":\"txn\",\"id\":1,\"start\":1,\"status\":\"committed\",\"commit\":2,\"ops\":[[\"w\",\"x\",1]]}\n{\"do\":\"txn\",\"id\":2,\"start\":3,\"status\":\"committed\",\"commit\":4,\"ops\":[[\"r\",\"x\",null]]}\n";
    let output =
        "stale key=\"x\" txn=2 op=0 read=initial missed=1\ntransactions=2 findings=1 refused=0 verdict=violation\n";
    check(&rt, None, input, output, Violation);
    let input =
        "{\"do\":\"txn\",\"id\":1,\"start\":1,\"status\":\"committed\",\"commit\":10,\"ops\":[[\"w\",\"x\",1]]}\n{\"do\":\"txn\",\"id\":2,\"start\":2,\"status\":\"committed\",\"commit\":3,\"ops\":[[\"r\",\"x\",1]]}\n";
    let output =
        "future key=\"x\" txn=2 op=0 read=1 writer=1\ntransactions=2 findings=1 refused=0 verdict=violation\n";
    check(&rt, None, input, output, Violation);
}

#[test]
fn aborted_and_intermediate(rt: HostRuntime) {
    let input =
        "{\"do\":\"txn\",\"id\":1,\"start\":1,\"status\":\"aborted\",\"ops\":[[\"w\",\"x\",1],[\"w\",\"x\",2]]}\n{\"do\":\"txn\",\"id\":2,\"start\":3,\"status\":\"committed\",\"commit\":4,\"ops\":[[\"r\",\"x\",1]]}\n";
    let output =
        "aborted key=\"x\" txn=2 op=0 read=1 writer=1\ntransactions=2 findings=1 refused=0 verdict=violation\n";
    check(&rt, None, input, output, Violation);
    let input =
        "{\"do\":\"txn\",\"id\":1,\"start\":1,\"status\":\"committed\",\"commit\":2,\"ops\":[[\"w\",\"x\",1],[\"w\",\"x\",2]]}\n{\"do\":\"txn\",\"id\":2,\"start\":3,\"status\":\"committed\",\"commit\":4,\"ops\":[[\"r\",\"x\",1]]}\n";
    let output =
        "intermediate key=\"x\" txn=2 op=0 read=1 writer=1\ntransactions=2 findings=1 refused=0 verdict=violation\n";
    check(&rt, None, input, output, Violation);
}

#[test]
fn own_writes(rt: HostRuntime) {
    let input =
        "{\"do\":\"txn\",\"id\":1,\"start\":1,\"status\":\"committed\",\"commit\":2,\"ops\":[[\"w\",\"x\",1],[\"r\",\"x\",null]]}\n{\"do\":\"txn\",\"id\":2,\"start\":3,\"status\":\"committed\",\"commit\":4,\"ops\":[[\"r\",\"y\",9],[\"w\",\"y\",9]]}\n";
    let output =
        "own key=\"x\" txn=1 op=1 read=initial own=1\nown key=\"y\" txn=2 op=0 read=9 own=later\ntransactions=2 findings=2 refused=0 verdict=violation\n";
    check(&rt, None, input, output, Violation);
}

#[test]
fn reports_on_the_way(rt: HostRuntime) {
    let input =
        "{\"do\":\"txn\",\"id\":2,\"start\":5,\"status\":\"committed\",\"commit\":6,\"ops\":[[\"r\",\"x\",1]]}\n{\"do\":\"txn\",\"id\":1,\"start\":1,\"status\":\"committed\",\"commit\":2,\"ops\":[[\"w\",\"x\",1]]}\n";
    let output =
        "unknown key=\"x\" txn=2 op=0 read=1\ntransactions=1 findings=1 refused=0 verdict=open\ntransactions=2 findings=0 refused=0 verdict=clean\ntransactions=2 findings=0 refused=0 verdict=clean\n";
    check(&rt, Some(1), input, output, Clean);
    let input =
        "{\"do\":\"txn\",\"id\":1,\"start\":1,\"status\":\"committed\",\"commit\":2,\"ops\":[[\"w\",\"x\",1]]}\n{\"do\":\"txn\",\"id\":3,\"start\":7,\"status\":\"committed\",\"commit\":8,\"ops\":[[\"r\",\"x\",1]]}\n{\"do\":\"txn\",\"id\":2,\"start\":3,\"status\":\"committed\",\"commit\":4,\"ops\":[[\"w\",\"x\",2]]}\n";
    let output =
        "transactions=2 findings=0 refused=0 verdict=clean\nstale key=\"x\" txn=3 op=0 read=1 missed=2\ntransactions=3 findings=1 refused=0 verdict=violation\n";
    check(&rt, Some(2), input, output, Violation);
}

#[test]
fn withdrawal_and_resolution(rt: HostRuntime) {
    let input =
        "{\"do\":\"txn\",\"id\":1,\"start\":1,\"status\":\"committed\",\"commit\":10,\"ops\":[[\"w\",\"x\",1]]}\n{\"do\":\"txn\",\"id\":2,\"start\":11,\"status\":\"committed\",\"commit\":20,\"ops\":[[\"w\",\"x\",2]]}\n{\"do\":\"txn\",\"id\":3,\"start\":9,\"status\":\"committed\",\"commit\":30,\"ops\":[[\"w\",\"x\",3]]}\n{\"do\":\"withdraw\",\"id\":2}\n";
    let output =
        "overlap key=\"x\" first=2 second=3\ntransactions=3 findings=1 refused=0 verdict=violation\noverlap key=\"x\" first=1 second=3\ntransactions=2 findings=1 refused=0 verdict=violation\n";
    check(&rt, Some(3), input, output, Violation);
    let input =
        "{\"do\":\"txn\",\"id\":1,\"start\":1,\"status\":\"indoubt\",\"ops\":[[\"w\",\"x\",1],[\"r\",\"y\",7]]}\n{\"do\":\"txn\",\"id\":2,\"start\":5,\"status\":\"committed\",\"commit\":6,\"ops\":[[\"r\",\"x\",1]]}\n{\"do\":\"resolve\",\"id\":1,\"status\":\"committed\",\"commit\":3}\n";
    let output =
        "doubt key=\"x\" txn=2 op=0 read=1 writer=1\ntransactions=2 findings=1 refused=0 verdict=open\nunknown key=\"y\" txn=1 op=1 read=7\ntransactions=2 findings=1 refused=0 verdict=open\n";
    check(&rt, Some(2), input, output, Open);
    let input =
        "{\"do\":\"txn\",\"id\":1,\"start\":1,\"status\":\"committed\",\"commit\":2,\"ops\":[[\"w\",\"x\",1]]}\n{\"do\":\"txn\",\"id\":2,\"start\":3,\"status\":\"committed\",\"commit\":4,\"ops\":[[\"r\",\"x\",1]]}\n{\"do\":\"withdraw\",\"id\":1}\n";
    let output =
        "unknown key=\"x\" txn=2 op=0 read=1\ntransactions=1 findings=1 refused=0 verdict=open\n";
    check(&rt, None, input, output, Open);
}

#[test]
fn values_are_free_again(rt: HostRuntime) {
    let input =
        "{\"do\":\"txn\",\"id\":1,\"start\":1,\"status\":\"committed\",\"commit\":2,\"ops\":[[\"w\",\"x\",5]]}\n{\"do\":\"txn\",\"id\":2,\"start\":3,\"status\":\"committed\",\"commit\":4,\"ops\":[[\"w\",\"x\",5]]}\n{\"do\":\"withdraw\",\"id\":1}\n{\"do\":\"txn\",\"id\":2,\"start\":3,\"status\":\"committed\",\"commit\":4,\"ops\":[[\"w\",\"x\",5]]}\n";
    let output =
        "refused source=0 line=2 code=18 reason=value-taken op=0 holder=1\ntransactions=1 findings=0 refused=1 verdict=clean\n";
    check(&rt, None, input, output, Open);
}

#[test]
fn each_refusal(rt: HostRuntime) {
    let input =
        "{\"do\":\"txn\",\"id\":1,\"start\":1,\"status\":\"committed\",\"commit\":2,\"ops\":[[\"w\",\"x\",1]]}\n{\"do\":\"txn\",\"id\":1,\"start\":1,\"status\":\"committed\",\"commit\":2,\"ops\":[[\"w\",\"x\",1]]}\n{\"do\":\"resolve\",\"id\":9,\"status\":\"committed\",\"commit\":3}\n{\"do\":\"resolve\",\"id\":1,\"status\":\"committed\",\"commit\":3}\n{\"do\":\"txn\",\"id\":2,\"start\":4,\"status\":\"committed\",\"commit\":3,\"ops\":[]}\n{\"do\":\"txn\",\"id\":2,\"start\":2,\"status\":\"committed\",\"commit\":3,\"ops\":[[\"w\",\"x\",1]]}\n{\"do\":\"txn\",\"id\":2,\"start\":0,\"status\":\"committed\",\"commit\":1,\"ops\":[[\"w\",\"z\",1]]}\n{\"do\":\"txn\",\"id\":2,\"start\":3,\"status\":\"committed\",\"commit\":4,\"ops\":[[\"w\",\"x\",1],[\"w\",\"x\",2],[\"w\",\"x\",2]]}\n{\"do\":\"txn\",\"id\":2,\"start\":3,\"status\":\"committed\",\"commit\":4,\"ops\":[[\"w\",\"y\",1],[\"w\",\"x\",1]]}\n";
    let output =
        "refused source=0 line=2 code=12 reason=id-present\nrefused source=0 line=3 code=13 reason=no-such\nrefused source=0 line=4 code=14 reason=not-in-doubt\nrefused source=0 line=5 code=15 reason=stamp-order\nrefused source=0 line=6 code=16 reason=stamp-taken stamp=2 holder=1\nrefused source=0 line=7 code=16 reason=stamp-taken stamp=1 holder=1\nrefused source=0 line=8 code=17 reason=value-twice op=2\nrefused source=0 line=9 code=18 reason=value-taken op=1 holder=1\ntransactions=1 findings=0 refused=8 verdict=clean\n";
    check(&rt, None, input, output, Open);
    let input =
        "{\"do\":\"txn\",\"id\":1,\"start\":1,\"status\":\"indoubt\",\"ops\":[[\"w\",\"x\",1]]}\n{\"do\":\"txn\",\"id\":2,\"start\":2,\"status\":\"committed\",\"commit\":5,\"ops\":[]}\n{\"do\":\"resolve\",\"id\":1,\"status\":\"committed\",\"commit\":5}\n{\"do\":\"resolve\",\"id\":1,\"status\":\"committed\",\"commit\":1}\n{\"do\":\"resolve\",\"id\":1,\"status\":\"aborted\"}\n{\"do\":\"withdraw\",\"id\":1}\n{\"do\":\"txn\",\"id\":3,\"start\":1,\"status\":\"committed\",\"commit\":6,\"ops\":[[\"w\",\"x\",1]]}\n";
    let output =
        "refused source=0 line=3 code=16 reason=stamp-taken stamp=5 holder=2\nrefused source=0 line=4 code=15 reason=stamp-order\ntransactions=2 findings=0 refused=2 verdict=clean\n";
    check(&rt, None, input, output, Open);
}

#[test]
fn keys_with_escapes(rt: HostRuntime) {
    let input =
        "{\"do\":\"txn\",\"id\":1,\"start\":1,\"status\":\"committed\",\"commit\":2,\"ops\":[[\"r\",\"\\u00e9\",1],[\"r\",\"b\",2]]}\n";
    let output =
        "unknown key=\"b\" txn=1 op=1 read=2\nunknown key=\"é\" txn=1 op=0 read=1\ntransactions=1 findings=2 refused=0 verdict=open\n";
    check(&rt, None, input, output, Open);
}

/// A line that is cut short and a blank one, one that is too long, and one whose commit stamp is no greater than its start.
fn faults(rt: &impl Host) -> String {
    let long = repeated(rt, "a", 1_048_577);
    format!(in rt.alloc();
        "{{\"do\":\"txn\",\"id\":1,\n  \n{long}\n{{\"do\":\"txn\",\"id\":1,\"start\":5,\"status\":\"committed\",\"commit\":5,\"ops\":[[\"w\",\"x\",1]]}}\n"
    ).expect(rt, "memory")
}

/// What is written of them, where they are the first lines.
const FAULTS_TEXT: &str =
    "refused source=0 line=1 code=2 reason=not-json\nrefused source=0 line=3 code=1 reason=too-long\nrefused source=0 line=4 code=15 reason=stamp-order\n";

/// The plain program finds this on these transactions.
fn is_plainly_found(rt: &impl Host, history: &str, text: &str) {
    let shown = present(rt, history).expect(rt, "a history");
    assert!(rt; is_history(&shown.txns, &shown.initial));
    let found = findings_of(rt.alloc(), &shown.txns, &shown.initial).expect(rt, "memory");
    let mut printed = Vec::new(rt.alloc());
    for finding in &found {
        print_finding(rt.alloc(), &mut printed, finding).expect(rt, "memory");
    }
    is_text(rt, printed.as_slice(), text);
}

/// Faulty lines and these are read. What is found, as the plain program finds it on these transactions, stands between the
/// refusals and the last line.
fn check_behind_faults(
    rt: &impl Host,
    lines: &str,
    history: &str,
    (found, last): (&str, &str),
    status: ExitStatus,
) {
    is_plainly_found(rt, history, found);
    let faults = faults(rt);
    let input = format!(in rt.alloc(); "{faults}{lines}").expect(rt, "memory");
    let output = format!(in rt.alloc(); "{FAULTS_TEXT}{found}{last}").expect(rt, "memory");
    check(rt, None, input.as_str(), output.as_str(), status);
}

/// The last line lacks its line feed.
#[test]
fn faulty_lines(rt: HostRuntime) {
    let lines =
        "{\"do\":\"txn\",\"id\":1,\"start\":0,\"status\":\"committed\",\"commit\":18446744073709551615,\"ops\":[]}";
    let last = "transactions=1 findings=0 refused=3 verdict=clean\n";
    check_behind_faults(&rt, lines, "1 0 18446744073709551615", ("", last), Open);
}

#[test]
fn findings_behind_faulty_lines(rt: HostRuntime) {
    let lines =
        "{\"do\":\"txn\",\"id\":1,\"start\":1,\"status\":\"committed\",\"commit\":2,\"ops\":[[\"w\",\"x\",1]]}\n{\"do\":\"txn\",\"id\":2,\"start\":3,\"status\":\"committed\",\"commit\":4,\"ops\":[[\"r\",\"x\",null],[\"r\",\"y\",7]]}\n";
    let history = "1 1 2 x=1\n2 3 4 x?null y?7";
    let found =
        "stale key=\"x\" txn=2 op=0 read=initial missed=1\nunknown key=\"y\" txn=2 op=1 read=7\n";
    let last = "transactions=2 findings=2 refused=3 verdict=violation\n";
    check_behind_faults(&rt, lines, history, (found, last), Violation);
}
