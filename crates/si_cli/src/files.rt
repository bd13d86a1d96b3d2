//! Files that are opened by their names: a trait, so that contracts and tests can have files of their own, and those of the system.

ghost use Rattle.std.specs.Prelude.{◌≡◌, Some, true, false, IfOk, IsErr};
ghost use Rattle.std.specs.Io.KnownBytes.{Keeps};
ghost use Rattle.si_cli.specs.Folders.{Folder};

use si_text::{ByteSource, Foreseen, StdSource};
use std::marker::PhantomData;
use std::rt::Files;
use std::{fs, io};
use thiserror::Error;

/// A file couldn't be opened. It has why, in the words of who refused it, where there are any.
#[derive(Clone, Copy, Debug, Error)]
#[error("cannot open the file")]
pub struct CannotOpen(pub Option<io::Error>);

/// Files by their names. Several may be open at once.
pub trait NamedFiles {
    /// What a file is read by.
    type Source: ByteSource + Send + Drop;

    /// What is known of them. `bytes` has the bytes of the file of a name, opened at a place among the sources, where they are known:
    /// `None` claims nothing. `may_lack` says whether its opening may fail.
    ghost seen: { Self → Folder };

    /// Opens the file of that name, from its beginning, at that place among the sources.
    fn open(&self, name: &str, place: usize) -> Result<Self::Source, CannotOpen>
        ensures left { IfOk result (λ source. Keeps ((seen self.now).bytes place name.now) (Self.Source.seen source).left) }
        ensures failed { IfOk result (λ source. (Self.Source.seen source).failed ≡ false) }
        ensures err { IsErr result → (seen self.now).may_lack name.now ≡ true };
}

/// The system's files. Of their bytes those are known that are foreseen of each place, as long as the files give these.
#[derive(Clone, Copy)]
pub struct StdFiles<'a, R, Z>(&'a R, PhantomData<Z>);

impl<'a, R: Files, Z> StdFiles<'a, R, Z> {
    /// The files of this runtime.
    pub fn new(rt: &'a R) -> Self {
        StdFiles(rt, PhantomData)
    }
}

impl<'a, R: Files, Z: Foreseen + Send> NamedFiles for StdFiles<'a, R, Z>
where
    R::File: Send,
{
    type Source = StdSource<R::File, Z>;

    ghost seen = { λ _. record { bytes = λ place _. Some (Z.bytes place); may_lack = λ _. true } };

    fn open(&self, name: &str, place: usize) -> Result<StdSource<R::File, Z>, CannotOpen> {
        match fs::File::open(self.0, name) {
            Ok(file) => Ok(StdSource::new(file, place)),
            Err(error) => Err(CannotOpen(Some(error))),
        }
    }
}
