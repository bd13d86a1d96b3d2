//! Devices as this crate sees them: where bytes come from and where they go to, with what contracts know of each.

ghost use Rattle.std.specs.Prelude.{◌≡◌, ◌≤◌, ◌<◌, ◌||◌, length, is_err, IfOk};
ghost use Rattle.std.specs.Io.{ReadsAtMost, WritesAtMost};
ghost use Rattle.std.specs.Io.KnownBytes.{WriteAppends};
ghost use Rattle.si_text.specs.Devices.{Input, MayGive, Output, turned_by};

use std::io;
use thiserror::Error;

/// A device failed: the read gave no byte, or the write took none.
#[derive(Clone, Copy, Debug, PartialEq, Eq, Error)]
#[error("the device failed")]
pub struct DeviceFailed;

/// What bytes are read from.
pub trait ByteSource {
    /// What is known of it. `left` has the bytes that reads will give from here on, where they are known: `None` claims nothing. `failed`
    /// says whether a read has failed, and `turned` whether an odd number of them has: a failed read turns it, and no other does. So who
    /// reads can say that one failed since then, also of a source that had failed before.
    ghost seen: { Self → Input };

    /// Reads some bytes to the front of the buffer, and says how many: none only at the end.
    ///
    /// After an error no byte has moved.
    fn read(&mut self, buffer: &mut [u8]) -> Result<usize, DeviceFailed>
        requires { 0 < length buffer.old }
        ensures bound { ReadsAtMost result buffer.new }
        ensures bytes { MayGive (seen self.old).left (seen self.new).left result buffer.new }
        ensures failed { (seen self.new).failed ≡ ((seen self.old).failed || is_err result) }
        ensures turned { (seen self.new).turned ≡ turned_by (is_err result) (seen self.old).turned };

    /// Why a read failed, in the words of who failed it, where it has any. No clause tells it: it is for who looks for the cause.
    fn cause(&self) -> Option<io::Error> {
        None
    }
}

/// What bytes are written to.
pub trait ByteSink {
    /// What is known of it. `written` has the bytes that were written so far, where they are known: `None` claims nothing. `failed` says
    /// whether a write has failed.
    ghost seen: { Self → Output };

    /// Writes some bytes from the front of the slice, at least one, and says how many.
    ///
    /// After an error no byte has moved.
    fn write(&mut self, bytes: &[u8]) -> Result<usize, DeviceFailed>
        requires { 0 < length bytes.now }
        ensures some { IfOk result (λ count. 1 ≤ count) }
        ensures bound { WritesAtMost result bytes.now }
        ensures bytes { WriteAppends (seen self.old).written (seen self.new).written result bytes.now }
        ensures failed { (seen self.new).failed ≡ ((seen self.old).failed || is_err result) };

    /// Why a write failed, in the words of who failed it, where it has any. No clause tells it: it is for who looks for the cause.
    fn cause(&self) -> Option<io::Error> {
        None
    }
}

impl<S: ByteSource> ByteSource for &mut S {
    ghost seen = { λ source. S.seen source.now };

    fn read(&mut self, buffer: &mut [u8]) -> Result<usize, DeviceFailed> {
        ByteSource::read(&mut **self, buffer)
    }

    fn cause(&self) -> Option<io::Error> {
        ByteSource::cause(&**self)
    }
}

impl<W: ByteSink> ByteSink for &mut W {
    ghost seen = { λ sink. W.seen sink.now };

    fn write(&mut self, bytes: &[u8]) -> Result<usize, DeviceFailed> {
        ByteSink::write(&mut **self, bytes)
    }

    fn cause(&self) -> Option<io::Error> {
        ByteSink::cause(&**self)
    }
}
