//! The program over a file in memory: its options, and a file that is missing or fails.

ghost use Rattle.std.specs.Prelude.{None, not};
ghost use Rattle.std.specs.Str.{bytes_eq};

use super::{Any, Host, ProgramEnd, are_same, is_text, outcome, words_of, writes};
use si_cli::{CannotOpen, NamedFiles};
use si_text::StdSource;
use si_text::memory::FailingSource;

/// One file, whose first `reads` reads don't fail.
#[derive(Clone, Copy)]
struct OneFile<'a> {
    name: &'a str,
    bytes: &'a [u8],
    reads: u64,
}

impl<'a> NamedFiles for OneFile<'a> {
    type Source = FailingSource<StdSource<&'a [u8], Any>>;

    ghost seen = { λ files. record { bytes = λ _ _. None; may_lack = λ name. not (bytes_eq name files.name.now) } };

    fn open(&self, name: &str, place: usize) -> Result<Self::Source, CannotOpen> {
        if name == self.name {
            let source = StdSource::new(self.bytes, place);
            Ok(FailingSource::new(source, self.reads))
        } else {
            Err(CannotOpen(None))
        }
    }
}

/// A read that misses a version, and a transaction whose commit stamp comes before its start.
const STALE: &str =
    "{\"do\":\"txn\",\"id\":1,\"start\":1,\"status\":\"committed\",\"commit\":2,\"ops\":[[\"w\",\"x\",1]]}
{\"do\":\"txn\",\"id\":2,\"start\":3,\"status\":\"committed\",\"commit\":4,\"ops\":[[\"w\",\"x\",2]]}
{\"do\":\"txn\",\"id\":4,\"start\":9,\"status\":\"committed\",\"commit\":5,\"ops\":[]}
{\"do\":\"txn\",\"id\":3,\"start\":7,\"status\":\"committed\",\"commit\":8,\"ops\":[[\"r\",\"x\",1]]}
";

const REFUSED: &str = "refused source=0 line=3 code=15 reason=stamp-order\n";

/// What is written for its three good lines.
const PLAINLY: &str =
    "refused source=0 line=3 code=15 reason=stamp-order\nstale key=\"x\" txn=3 op=0 read=1 missed=2\ntransactions=3 findings=1 refused=1 verdict=violation\n";

const EXPLAINED: &str =
    "refused source=0 line=3 code=15 reason=stamp-order\nstale key=\"x\" txn=3 op=0 read=1 missed=2\n  G-SI(b) 3-rw->2 2-st->3\ntransactions=3 findings=1 refused=1 verdict=violation\n";

const EXPLAINED_TWICE: &str =
    "transactions=2 findings=0 refused=0 verdict=clean\nrefused source=0 line=3 code=15 reason=stamp-order\nstale key=\"x\" txn=3 op=0 read=1 missed=2\n  G-SI(b) 3-rw->2 2-st->3\ntransactions=3 findings=1 refused=1 verdict=violation\nstale key=\"x\" txn=3 op=0 read=1 missed=2\n  G-SI(b) 3-rw->2 2-st->3\ntransactions=3 findings=1 refused=1 verdict=violation\n";

/// The file `a` of those bytes with so many good reads, checked by the words of this line, gives this on both devices, and the
/// status. Standard input has a line that is refused.
fn answers(rt: &impl Host, reads: u64, line: &str, told: (&str, &str, u8)) {
    let files = OneFile {
        name: "a",
        bytes: STALE.as_bytes(),
        reads,
    };
    writes(rt, &files, words_of(rt, line).as_slice(), "[]\n", told);
}

#[test]
fn a_file_is_checked_by_the_options(rt: HostRuntime) {
    answers(&rt, 100, "check a", (PLAINLY, "", 20));
    answers(&rt, 100, "check --explain a", (EXPLAINED, "", 20));
    let line = "check a --explain --every=2";
    answers(&rt, 100, line, (EXPLAINED_TWICE, "", 20));
}

/// Of a file whose second read fails the lines of the first read are decided, and no report comes.
#[test]
fn a_file_is_missing_or_fails(rt: HostRuntime) {
    let cannot_open = "sicheck: cannot open source 0\n";
    answers(&rt, 100, "check b", ("", cannot_open, 2));
    let cannot_read = "sicheck: cannot read source 0\n";
    answers(&rt, 0, "check a", ("", cannot_read, 2));
    answers(&rt, 1, "check a", (REFUSED, cannot_read, 2));
}

/// All files are opened before one is read.
fn a_missing_one_is_told(rt: &impl Host) {
    let complaint = "sicheck: cannot open source 1\n";
    answers(rt, 100, "check a b a c", ("", complaint, 2));
}

/// How the program ends on the file `a` twice.
fn end_of_one_twice(rt: &impl Host) -> ProgramEnd {
    let files = OneFile {
        name: "a",
        bytes: WRITES,
        reads: 100,
    };
    let words = words_of(rt, "check a a");
    outcome(rt, &files, words.as_slice(), "")
}

/// The file `a` twice is two sources.
fn one_twice_is_two(rt: &impl Host) {
    let outcome = end_of_one_twice(rt);
    are_same(rt, outcome.status, 10);
    let first =
        "refused source=0 line=1 code=12 reason=id-present\ntransactions=1 findings=0 refused=1 verdict=clean\n";
    let second =
        "refused source=1 line=1 code=12 reason=id-present\ntransactions=1 findings=0 refused=1 verdict=clean\n";
    let out = outcome.out.as_slice();
    let text = if out == first.as_bytes() {
        first
    } else {
        second
    };
    is_text(rt, out, text);
    is_text(rt, outcome.err.as_slice(), "");
}

#[test]
fn several_files_are_checked_together(rt: HostRuntime) {
    a_missing_one_is_told(&rt);
    one_twice_is_two(&rt);
}

const WRITES: &[u8] =
    b"{\"do\":\"txn\",\"id\":1,\"start\":1,\"status\":\"committed\",\"commit\":2,\"ops\":[[\"w\",\"x\",1]]}\n";
