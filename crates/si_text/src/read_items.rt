//! From a line to its item: none where it is blank, else what reading it gives.

ghost use Rattle.std.specs.Prelude.{◌≡◌, ◌==◌, ◌<◌, ◌∷◌, length, not, IfOk};
ghost use Rattle.std.specs.List.{list_all, prefix_len};
ghost use Rattle.std.specs.Option.{option_to_list};
ghost use Rattle.si_text.specs.Inputs.{is_blank, is_line_feed, is_space, item_of, lines_of};

use crate::read_edits::{MOST_LINE_BYTES, read_edit_with};
use crate::{KnownKeys, LineFault};
use si_model::{Edit, OutOfMemory};
use std::alloc::{AllocError, Global};

/// A line that isn't blank: its number, counted from 1, and its edit or its fault, which isn't refused memory.
pub type LineItem = (u64, Result<Edit, LineFault>);

/// The item that a line is, without its line feed; a blank one is none.
pub fn item_of(
    alloc: Global,
    keys: &mut KnownKeys,
    number: u64,
    line: &[u8],
) -> Result<Option<LineItem>, OutOfMemory>
    ensures { IfOk result (λ item. option_to_list item ≡ item_of number line.now) }
{
    if is_blank(line) {
        return Ok(None);
    }
    match read_edit_with(alloc, keys, line) {
        Err(LineFault::OutOfMemory) => Err(AllocError),
        answer => Ok(Some((number, answer))),
    }
}

/// Whether a line has nothing but spaces, tabs and carriage returns, and not too many of them.
#[tactic(auto, unfolding(crate::specs::Inputs::is_blank))]
fn is_blank(line: &[u8]) -> bool
    ensures { result ≡ is_blank line.now }
{
    line.len() <= MOST_LINE_BYTES && is_all_space(line)
}

fn is_all_space(bytes: &[u8]) -> bool
    ensures { result ≡ list_all is_space bytes.now }
{
    bytes
        .iter()
        .all(|byte| matches!(*byte, b' ' | b'\t' | b'\r'))
}

/// The first line of bytes, of which there are some, without its line feed, and what stands behind that.
pub fn split_line(bytes: &[u8]) -> (&[u8], &[u8])
    requires { 0 < length bytes.now }
    ensures lines { lines_of bytes.now ≡ result.0.now ∷ lines_of result.1.now }
    ensures shorter { length result.1.now < length bytes.now }
{
    let (line, behind) = bytes.split_at(length_to_line_feed(bytes));
    match behind {
        [] => (line, behind),
        [_, rest @ ..] => (line, rest),
    }
}

/// How many bytes stand before the first line feed; all where there is none.
#[tactic(auto, using(crate::proofs::LineFeeds::until_feed, crate::proofs::InputItems::last_items))]
pub(crate) fn length_to_line_feed(bytes: &[u8]) -> usize
    ensures { result ≡ prefix_len (λ byte. not (is_line_feed byte)) bytes.now }
{
    memchr::memchr(b'\n', bytes).unwrap_or(bytes.len())
}
