//! Text is appended straight to the bytes that the caller lent. Where memory is refused on the way, they are cut back.

ghost use Rattle.std.specs.Prelude.{◌≡◌, ◌++◌, decimal, take, OnOk, OnErr};
ghost use Rattle.si_text.specs.Printing.{Appends};

use itoa::Buffer;
use si_model::OutOfMemory;

/// Appends a text.
pub(crate) fn put(out: &mut Vec<u8>, text: &str) -> Result<(), OutOfMemory>
    ensures { Appends result out.old.items out.new.items text.now }
{
    out.extend_from_slice(text.as_bytes())
}

/// Appends a label and a number behind it.
pub(crate) fn put_number(out: &mut Vec<u8>, label: &str, number: u64) -> Result<(), OutOfMemory>
    ensures { Appends result out.old.items out.new.items (label.now ++ decimal number) }
{
    let mut buffer = Buffer::new();
    put(out, label)?;
    put(out, buffer.format(number))
}

/// Hands on what came of appending to the first `before` bytes, and where memory was refused, cuts away all behind these.
pub(crate) fn whole_or_none<T>(
    out: &mut Vec<u8>,
    before: usize,
    appended: Result<T, OutOfMemory>,
) -> Result<T, OutOfMemory>
    ensures same { result ≡ appended }
    ensures ok { OnOk appended (out.new.items ≡ out.old.items) }
    ensures err { OnErr appended (out.new.items ≡ take before out.old.items) }
{
    if appended.is_err() {
        out.truncate(before);
    }
    appended
}
