//! Writing a text whole, in as many writes as the device asks for.

ghost use Rattle.std.specs.Prelude.{◌≡◌, ◌||◌, ◌++◌, List, ℕ, true, is_err, OnOk, OnErr};
ghost use Rattle.std.specs.Io.KnownBytes.{Appends};
ghost use Rattle.si_run.specs.Runs.{AppendsPart};

use si_text::{ByteSink, DeviceFailed};

/// Writes all of the bytes, or a beginning of them, and not the whole, where the writer fails.
pub fn write_all<W: ByteSink>(writer: &mut W, bytes: &[u8]) -> Result<(), DeviceFailed>
    ensures ok { OnOk result (Appends (W.seen writer.old).written (W.seen writer.new).written bytes.now) }
    ensures err { OnErr result (AppendsPart (W.seen writer.old).written (W.seen writer.new).written bytes.now) }
    ensures failed { (W.seen writer.new).failed ≡ ((W.seen writer.old).failed || is_err result) }
{
    let mut rest = bytes;
    while !rest.is_empty() {
        let count = writer.write(rest)?;
        rest = rest.split_at(count).1;
    }
    Ok(())
}
