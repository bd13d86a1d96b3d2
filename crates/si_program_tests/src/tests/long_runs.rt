//! Runs of thousands of lines.

use super::{Host, PLAIN, check_text, repeated};
use si_cli::ExitStatus::{Clean, Open, Violation};
use si_cli::Options;

/// How many transactions there are.
const COUNT: u32 = 5000;

/// How many keys they write in turn.
const KEYS: u32 = 50;

/// What a read returns: the value written last to the key of that turn, or `null` where none was.
fn read_at(rt: &impl Host, turn: u32) -> String {
    let text = match turn.checked_sub(KEYS) {
        None => String::from_str(rt.alloc(), "null"),
        Some(value) => format!(in rt.alloc(); "{value}"),
    };
    text.expect(rt, "memory")
}

/// The line of the transaction of that turn, which reads the version before its own and commits before the next one starts.
fn line_at(rt: &impl Host, turn: u32) -> String {
    let (start, key) = (u64::from(turn) * 2, turn % KEYS);
    let read = read_at(rt, turn);
    format!(in rt.alloc();
        "{{\"do\":\"txn\",\"id\":{turn},\"start\":{start},\"status\":\"committed\",\"commit\":{},\"ops\":[[\"r\",\"k{key}\",{read}],[\"w\",\"k{key}\",{turn}]]}}\n",
        start + 1
    )
    .expect(rt, "memory")
}

/// The lines of all transactions, and the last line.
fn lines(rt: &impl Host, last: &str) -> String {
    let mut input = String::new(rt.alloc());
    for turn in 0..COUNT {
        input
            .push_str(line_at(rt, turn).as_str())
            .expect(rt, "memory");
    }
    input.push_str(last).expect(rt, "memory");
    input
}

/// A read of a version that was overwritten.
const LATE: &str =
    "{\"do\":\"txn\",\"id\":5000,\"start\":10000,\"status\":\"committed\",\"commit\":10001,\"ops\":[[\"r\",\"k7\",7]]}\n";

#[test]
fn thousands_of_transactions(rt: HostRuntime) {
    let input = lines(&rt, "");
    let clean = "transactions=5000 findings=0 refused=0 verdict=clean\n";
    check_text(&rt, 4096, PLAIN, input.as_str(), clean, Clean);
    let longer = lines(&rt, LATE);
    let stale =
        "stale key=\"k7\" txn=5000 op=0 read=7 missed=57\ntransactions=5001 findings=1 refused=0 verdict=violation\n";
    let sharded = Options {
        shards: 16,
        ..PLAIN
    };
    check_text(&rt, 4096, sharded, longer.as_str(), stale, Violation);
}

/// The line once for each number of the range, which stands in place of each `#`, and the last line.
fn numbered(rt: &impl Host, line: &str, (first, end): (u32, u32), last: &str) -> String {
    let mut text = String::new(rt.alloc());
    for number in first..end {
        let number = format!(in rt.alloc(); "{number}").expect(rt, "memory");
        let line = line
            .replace(rt.alloc(), "#", number.as_str())
            .expect(rt, "memory");
        text.push_str(line.as_str()).expect(rt, "memory");
    }
    text.push_str(last).expect(rt, "memory");
    text
}

#[test]
fn thousands_of_refused_lines(rt: HostRuntime) {
    let once = lines(&rt, "");
    let twice = repeated(&rt, once.as_str(), 2);
    let refused = "refused source=0 line=# code=12 reason=id-present\n";
    let last = "transactions=5000 findings=0 refused=5000 verdict=clean\n";
    let output = numbered(&rt, refused, (COUNT + 1, COUNT * 2 + 1), last);
    check_text(&rt, 4096, PLAIN, twice.as_str(), output.as_str(), Open);
}

#[test]
fn thousands_of_findings(rt: HostRuntime) {
    let read =
        "{\"do\":\"txn\",\"id\":#,\"start\":#,\"status\":\"committed\",\"commit\":#,\"ops\":[[\"r\",\"x\",#]]}\n";
    let input = numbered(&rt, read, (1000, 1000 + COUNT), "");
    let found = "unknown key=\"x\" txn=# op=0 read=#\n";
    let last = "transactions=5000 findings=5000 refused=0 verdict=open\n";
    let output = numbered(&rt, found, (1000, 1000 + COUNT), last);
    check_text(&rt, 4096, PLAIN, input.as_str(), output.as_str(), Open);
}
