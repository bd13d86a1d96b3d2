//! The program over files.

use super::{Any, Host, words_of, writes};
use si_cli::{NamedFiles, StdFiles};
use std::test::Fail;
use std::{env, fs, process};

const STALE: &str =
    "{\"do\":\"txn\",\"id\":1,\"start\":1,\"status\":\"committed\",\"commit\":2,\"ops\":[[\"w\",\"x\",1]]}
{\"do\":\"txn\",\"id\":3,\"start\":7,\"status\":\"committed\",\"commit\":8,\"ops\":[[\"r\",\"x\",1]]}
{\"do\":\"txn\",\"id\":2,\"start\":3,\"status\":\"committed\",\"commit\":4,\"ops\":[[\"w\",\"x\",2]]}";

const LAST_REPORT: &str =
    "stale key=\"x\" txn=3 op=0 read=1 missed=2\ntransactions=3 findings=1 refused=0 verdict=violation\n";

const BOTH_REPORTS: &str =
    "transactions=2 findings=0 refused=0 verdict=clean\nstale key=\"x\" txn=3 op=0 read=1 missed=2\ntransactions=3 findings=1 refused=0 verdict=violation\n";

/// The program on the words of this line, with nothing on standard input, writes this to both devices and
/// ends with the status.
fn answers<H: Host, F: NamedFiles>(rt: &H, files: &F, line: &str, told: (&str, &str, u8)) {
    writes(rt, files, words_of(rt, line).as_slice(), "", told);
}

/// The same on the words of this line and the path.
fn answers_on<H: Host, F: NamedFiles>(
    rt: &H,
    files: &F,
    line: &str,
    path: &str,
    told: (&str, &str, u8),
) {
    let mut words = words_of(rt, line);
    words.push(path).expect(rt, "memory");
    writes(rt, files, words.as_slice(), "", told);
}

const CANNOT_OPEN: &str = "sicheck: cannot open source 0\n";

/// The file of this path, with the stale read, is read as a whole and with a report after every two lines.
fn is_read<H: Host, F: NamedFiles>(rt: &H, files: &F, path: &str) {
    answers_on(rt, files, "check", path, (LAST_REPORT, "", 20));
    answers_on(rt, files, "check --every 2", path, (BOTH_REPORTS, "", 20));
}

#[test]
fn a_file_is_read(rt: HostRuntime) -> Result<(), Fail> {
    let files = StdFiles::<_, Any>::new(&rt);
    let name = format!(in rt.alloc(); "sicheck-test-{}", process::id(rt.process()))?;
    let path = env::temp_dir(&rt)?.join(rt.alloc(), name.as_str())?;
    fs::write(&rt, path.as_path(), STALE.as_bytes())?;
    is_read(&rt, &files, path.as_str());
    fs::remove_file(&rt, path.as_path())?;
    answers_on(&rt, &files, "check", path.as_str(), ("", CANNOT_OPEN, 2));
    drop(path);
    Ok(())
}

#[test]
fn files_that_cannot_be_read(rt: HostRuntime) {
    let files = StdFiles::<_, Any>::new(&rt);
    let missing = "check no/such/file.jsonl";
    answers(&rt, &files, missing, ("", CANNOT_OPEN, 2));
    let cannot_read = "sicheck: cannot read source 0\n";
    answers(&rt, &files, "check .", ("", cannot_read, 2));
    let nine = "check . . . . . . . . no/such/file.jsonl";
    answers(&rt, &files, nine, ("", "sicheck: too many files\n", 2));
}
