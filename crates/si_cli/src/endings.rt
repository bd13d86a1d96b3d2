//! What the process ends with: a status that only the program's own ends make, and that can't be let go.

ghost use Rattle.std.specs.IoError.{error_kind};
ghost use Rattle.std.specs.Prelude.{◌≡◌, ◌≢◌, [], false, map};
ghost use Rattle.std.specs.Mem.{FitsInMemory};
ghost use Rattle.std.specs.Process.{exit_status};
ghost use Rattle.si_text.specs.Devices.{lent};
ghost use Rattle.si_run.specs.Telling.{memory_line};
ghost use Rattle.si_cli.specs.Endings.{EndsProgram, EndsWithoutKey};
ghost use Rattle.si_cli.specs.Programs.{Fails, files_of, words_line};

use crate::files::NamedFiles;
use crate::programs::{fail, main_with, main_without_key};
use si_text::{ByteSink, ByteSource};
use std::alloc::Global;
use std::convert::AsStr;
use std::hash::RandomState;
use std::io::{self, Eprint, ErrorKind};
use std::process::{ExitCode, Termination};
use std::rt::Clock;
use std::sync::Wait;
use std::thread::Threads;

/// The end of the process. `main` answers it: no other crate can make one, and one that was made can't be let go.
pub struct Ended {
    status: u8,
}

impl Termination for Ended {
    fn report<R: Eprint>(self, _rt: &R) -> ExitCode
        ensures { exit_status result ≡ self.status }
    {
        let Ended { status } = self;
        ExitCode::from(status)
    }
}

/// As [`main_with`].
pub fn end_with<
    R: Threads + Wait + Clock + Sync,
    F: NamedFiles,
    S: AsStr,
    I: ByteSource + Send,
    O: ByteSink,
    E: ByteSink,
>(
    rt: &R,
    files: &F,
    sources: &mut Vec<F::Source>,
    alloc: Global,
    hash: RandomState,
    words: &[S],
    input: &mut I,
    out: &mut O,
    err: &mut E,
) -> Ended
    requires size { FitsInMemory I.row }
    requires sources { sources.old.items ≡ [] }
    requires input { (I.seen input.old).failed ≡ false }
    requires out { (O.seen out.old).failed ≡ false }
    ensures { EndsProgram (map S.text words.now)
        (lent (I.seen input.old) (I.seen input.new))
        (files_of (F.seen files.now) (map F.Source.seen sources.new.items))
        (lent (O.seen out.old) (O.seen out.new))
        (lent (E.seen err.old) (E.seen err.new)) result.status }
{
    let status = main_with(rt, files, sources, alloc, hash, words, input, out, err);
    Ended { status }
}

/// As [`main_without_key`].
pub fn end_without_key<S: AsStr, O: ByteSink, E: ByteSink>(
    alloc: Global,
    words: &[S],
    out: &mut O,
    err: &mut E,
) -> Ended
    requires out { (O.seen out.old).failed ≡ false }
    ensures { EndsWithoutKey (map S.text words.now)
        (lent (O.seen out.old) (O.seen out.new))
        (lent (E.seen err.old) (E.seen err.new)) result.status }
{
    let status = main_without_key(alloc, words, out, err);
    Ended { status }
}

/// The end where the words of the command line couldn't be had: memory was refused, or one of them isn't UTF-8.
pub fn end_without_words<E: ByteSink>(err: &mut E, error: &io::Error) -> Ended
    ensures memory { error_kind error.now ≡ ErrorKind.OutOfMemory
        → Fails (lent (E.seen err.old) (E.seen err.new)) memory_line result.status }
    ensures words { error_kind error.now ≢ ErrorKind.OutOfMemory
        → Fails (lent (E.seen err.old) (E.seen err.new)) words_line result.status }
{
    match error.kind() {
        ErrorKind::OutOfMemory => Ended {
            status: fail(err, b"sicheck: out of memory\n"),
        },
        _ => Ended {
            status: fail(err, b"sicheck: a word of the command line isn't UTF-8\n"),
        },
    }
}
