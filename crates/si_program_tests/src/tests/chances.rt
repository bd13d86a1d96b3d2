//! Runs that tell at how many places something could have been found, and of which so many are expected.

use super::{Host, NO_PLACES, Options, PLAIN, check_with};
use si_cli::ExitStatus;
use si_cli::ExitStatus::{Clean, Open, Violation};
use si_text::{Asked, ExpectedPlaces};

/// Of `x`: 1 writes it twice, beside the readers 2 and 6; 3 reads what 1 wrote last, writes, and reads that thrice; 8 reads what 3 wrote; 4
/// writes and is rolled back. Of `y`: 5 and 6 read, and 7 writes and is rolled back.
const LOG: &str = "\
{\"do\":\"txn\",\"id\":1,\"start\":2,\"status\":\"committed\",\"commit\":5,\"ops\":[[\"w\",\"x\",1],[\"w\",\"x\",2]]}
{\"do\":\"txn\",\"id\":2,\"start\":4,\"status\":\"committed\",\"commit\":9,\"ops\":[[\"r\",\"x\",null]]}
{\"do\":\"txn\",\"id\":3,\"start\":6,\"status\":\"committed\",\"commit\":10,\"ops\":[[\"r\",\"x\",2],[\"w\",\"x\",3],[\"r\",\"x\",3],[\"r\",\"x\",3],[\"r\",\"x\",3]]}
{\"do\":\"txn\",\"id\":4,\"start\":7,\"status\":\"aborted\",\"ops\":[[\"w\",\"x\",4]]}
{\"do\":\"txn\",\"id\":5,\"start\":11,\"status\":\"committed\",\"commit\":12,\"ops\":[[\"r\",\"y\",null]]}
{\"do\":\"txn\",\"id\":6,\"start\":1,\"status\":\"committed\",\"commit\":13,\"ops\":[[\"r\",\"x\",null],[\"r\",\"y\",null]]}
{\"do\":\"txn\",\"id\":7,\"start\":8,\"status\":\"aborted\",\"ops\":[[\"w\",\"y\",9]]}
{\"do\":\"txn\",\"id\":8,\"start\":14,\"status\":\"committed\",\"commit\":14,\"ops\":[[\"r\",\"x\",3]]}
";

/// What is told of it.
const CHANCES: &str = "\
chances kind=own places=3 keys=1
chances kind=aborted places=2 keys=2
chances kind=intermediate places=2 keys=1
chances kind=future places=2 keys=1
chances kind=stale places=2 keys=1
chances kind=overlap places=1 keys=1
";

/// A run over that log, of which that is asked, writes these lines before its summary, and has that status.
fn ends(rt: &impl Host, tells: bool, expected: ExpectedPlaces, lines: &[&str], status: ExitStatus) {
    let options = Options {
        asked: Asked { tells, expected },
        ..PLAIN
    };
    let mut output = String::new(rt.alloc());
    for line in lines {
        output.push_str(line).expect(rt, "memory");
    }
    output
        .push_str("transactions=8 findings=0 refused=0 verdict=clean\n")
        .expect(rt, "memory");
    check_with(rt, options, LOG, output.as_str(), status);
}

#[test]
fn each_kind_is_told(rt: HostRuntime) {
    ends(&rt, true, NO_PLACES, &[CHANCES], Clean);
    ends(&rt, false, NO_PLACES, &[], Clean);
}

/// As many as there are is enough, and one more isn't.
#[test]
fn each_kind_is_expected(rt: HostRuntime) {
    let there = ExpectedPlaces {
        own: Some(3),
        aborted: Some(2),
        intermediate: Some(2),
        future: Some(2),
        stale: Some(2),
        overlap: Some(1),
    };
    ends(&rt, false, there, &[], Clean);
    let more = ExpectedPlaces {
        own: Some(4),
        aborted: Some(3),
        intermediate: Some(3),
        future: Some(3),
        stale: Some(3),
        overlap: Some(2),
    };
    let short = "\
short kind=own places=3 expected=4
short kind=aborted places=2 expected=3
short kind=intermediate places=2 expected=3
short kind=future places=2 expected=3
short kind=stale places=2 expected=3
short kind=overlap places=1 expected=2
";
    ends(&rt, true, more, &[CHANCES, short], Open);
    ends(&rt, false, more, &[short], Open);
}

/// The lines of kinds stand behind the line of transactions, and a violation stays one.
#[test]
fn beside_other_shortages(rt: HostRuntime) {
    let options = Options {
        expected: Some(3),
        asked: Asked {
            tells: true,
            expected: ExpectedPlaces {
                stale: Some(1),
                ..NO_PLACES
            },
        },
        ..PLAIN
    };
    let input =
        "{\"do\":\"txn\",\"id\":1,\"start\":2,\"status\":\"committed\",\"commit\":3,\"ops\":[[\"w\",\"x\",1]]}\n{\"do\":\"txn\",\"id\":2,\"start\":4,\"status\":\"committed\",\"commit\":4,\"ops\":[[\"r\",\"x\",null]]}\n";
    let output = "\
stale key=\"x\" txn=2 op=0 read=initial missed=1
chances kind=own places=0 keys=0
chances kind=aborted places=0 keys=0
chances kind=intermediate places=0 keys=0
chances kind=future places=0 keys=0
chances kind=stale places=0 keys=0
chances kind=overlap places=0 keys=0
short committed=2 expected=3 indoubt=0
short kind=stale places=0 expected=1
transactions=2 findings=1 refused=0 verdict=violation
";
    check_with(&rt, options, input, output, Violation);
}
