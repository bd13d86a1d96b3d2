//! From pieces of bytes to lines: the reader of lines, which joins what a piece begins and a later one ends, and numbers them.

ghost use Rattle.std.specs.Prelude.{◌≡◌, ◌≤◌, ◌<◌, ◌+◌, ◌^◌, ◌-◌, ◌∷◌, ◌++◌, ◌||◌, ◌⊎◌, List, ℕ, [], true, false, not, length, is_err, IfOk, OnOk, OnErr, IfErr, IsNone, take, vec_len, MatchBool};
ghost use Rattle.std.specs.Option.{option_to_list};
ghost use Rattle.std.specs.Io.KnownBytes.{IsAtEnd};
ghost use Rattle.si_text.specs.Devices.{MayConsume};
ghost use Rattle.si_text.specs.Inputs.{has_line_feed, item_of, items_after, Yields};
ghost use Rattle.si_text.specs.declared.read_edits.TheConstants.{MOST_LINE_BYTES};

use crate::KnownKeys;
use crate::devices::{ByteSource, DeviceFailed};
use crate::read_edits::MOST_LINE_BYTES;
use crate::read_items::{LineItem, item_of, length_to_line_feed};
use crate::read_pieces::Piece;
use si_model::OutOfMemory;
use std::alloc::{AllocError, Global};
use std::sync::atomic::{AtomicBool, Ordering};
use thiserror::Error;

/// The most reads of one source that give bytes. The next one counts as failed.
pub const MOST_READS: u64 = u64::MAX;

/// Why an input gives no further line.
#[derive(Clone, Copy, Debug, PartialEq, Eq, Error)]
pub enum InputFault {
    /// The source failed, or its reads or the numbers of its lines are used up.
    #[error("the device failed")]
    DeviceFailed,
    /// The growth of some memory was refused.
    #[error("out of memory")]
    OutOfMemory,
    /// The caller's flag says that nothing more is to be read.
    #[error("stopped")]
    Stopped,
}

impl From<DeviceFailed> for InputFault {
    ghost use Rattle.si_text.specs.declared.read_lines.InputFault.TheVariants as faults;

    ghost from_gives = { λ _ fault. fault ≡ faults.DeviceFailed };

    fn from(_failed: DeviceFailed) -> InputFault {
        InputFault::DeviceFailed
    }
}

impl From<AllocError> for InputFault {
    ghost use Rattle.si_text.specs.declared.read_lines.InputFault.TheVariants as faults;

    ghost from_gives = { λ _ fault. fault ≡ faults.OutOfMemory };

    fn from(_refused: AllocError) -> InputFault {
        InputFault::OutOfMemory
    }
}

/// A reader of lines that takes its input in pieces of any size, in bounded memory.
///
/// Lines end with a line feed, which the last one may lack. They are numbered from 1, blank ones too, which are left
/// out. The source is passed to each call, which has to be the same one each time.
#[derive(Drop)]
pub struct LineBuffer {
    alloc: Global,
    /// The line so far, without its line feed; of one that is too long so many bytes that it still is.
    line: Vec<u8>,
    /// What was read and doesn't belong to the line yet.
    piece: Piece,
    /// How many lines have ended.
    lines: u64,
    /// How many reads gave bytes.
    reads: u64,
    ghost kept: { vec_len line ≤ MOST_LINE_BYTES + 1 },
    ghost unended: { has_line_feed line.items ≡ false },
}

impl LineBuffer {
    ghost use Rattle.si_text.specs.LineBuffers.{lines_ended, bytes_held, bytes_to_come, CountsBytes, IsFresh, IsSpent, Passes};

    /// A buffer before the first line.
    pub fn new(alloc: Global) -> Result<Self, OutOfMemory>
        ensures { IfOk result IsFresh }
    {
        Ok(LineBuffer {
            alloc,
            line: Vec::new(alloc),
            piece: Piece::new(alloc)?,
            lines: 0,
            reads: 0,
        })
    }

    /// The next line that isn't blank; none at the end of the source. After an error the lines to come are as before.
    ///
    /// Before each read it looks at the flag, also in the middle of a line, and reads no more once that is true.
    pub fn next_item<S: ByteSource>(
        &mut self,
        source: &mut S,
        keys: &mut KnownKeys,
        stop: &AtomicBool,
    ) -> Result<Option<LineItem>, InputFault>
        ensures items { IfOk result (λ item.
            Yields (lines_ended self.old) (bytes_to_come self.old (S.seen source.old).left)
            (lines_ended self.new) (bytes_to_come self.new (S.seen source.new).left)
            (option_to_list item)) }

        // The end is told only there.
        ensures end { IfOk result (λ item.
            IsNone item → IsAtEnd (bytes_to_come self.new (S.seen source.new).left)) }
        ensures err { OnErr result
            (Yields (lines_ended self.old) (bytes_to_come self.old (S.seen source.old).left)
            (lines_ended self.new) (bytes_to_come self.new (S.seen source.new).left) []) }

        // A fault of the device is told only where it failed in this call or no further read or line is allowed.
        ensures device { IfErr result (λ fault. fault ≡ InputFault.DeviceFailed
            → ((S.seen source.new).failed ≡ true) ⊎ IsSpent self.new) }
        ensures here { IfErr result (λ fault. fault ≡ InputFault.DeviceFailed
            → ((S.seen source.new).turned ≡ not (S.seen source.old).turned) ⊎ IsSpent self.new) }
        ensures counts { CountsBytes self.old (S.seen source.old).left self.new (S.seen source.new).left }
        ensures works { OnOk result ((S.seen source.new).failed ≡ (S.seen source.old).failed) }
        ensures steady { OnOk result ((S.seen source.new).turned ≡ (S.seen source.old).turned) }
        ensures memory { IfErr result (λ fault. fault ≡ InputFault.OutOfMemory
            → (S.seen source.new).failed ≡ (S.seen source.old).failed) }
        ensures stopped { IfErr result (λ fault. fault ≡ InputFault.Stopped
            → (S.seen source.new).failed ≡ (S.seen source.old).failed) }
    {
        'pieces: loop {
            if let Some(item) = self.next_in_piece(keys)? {
                return Ok(Some(item));
            }
            if stop.load(Ordering::SeqCst) {
                return Err(InputFault::Stopped);
            }
            if !self.refill(source)? {
                return self.last_item(keys);
            }
        }
    }

    /// The next line that isn't blank and has its end in the piece; none once the piece is used up.
    fn next_in_piece(&mut self, keys: &mut KnownKeys) -> Result<Option<LineItem>, InputFault>
        ensures items { IfOk result (λ item. Passes self.old self.new (option_to_list item)) }
        ensures end { IfOk result (λ item. IsNone item → self.new.piece ≡ []) }
        ensures err { OnErr result (Passes self.old self.new []) }
        ensures spent { IfErr result
            (λ fault. fault ≡ InputFault.DeviceFailed → IsSpent self.new) }
        ensures reads { self.new.reads ≡ self.old.reads }
        ensures lines { self.new.lines + length (bytes_held self.new)
            ≤ self.old.lines + length (bytes_held self.old) }
    {
        'lines: while self.gather()? {
            if let Some(item) = self.end_line(keys)? {
                return Ok(Some(item));
            }
        }
        Ok(None)
    }

    /// Takes of the piece what belongs to the line, and says whether the line ends there: the piece then begins with
    /// its line feed, and else it is used up.
    fn gather(&mut self) -> Result<bool, InputFault>
        ensures items { Passes self.old self.new [] }
        ensures whole { IfOk result (λ whole. MatchBool whole
            ((rest : List ℕ) × (self.new.piece ≡ 10 ∷ rest)) (self.new.piece ≡ [])) }
        ensures shorter { length self.new.piece ≤ length self.old.piece }
        ensures err { IfErr result (λ fault. fault ≡ InputFault.OutOfMemory) }
        ensures reads { self.new.reads ≡ self.old.reads }
        ensures lines { self.new.lines ≡ self.old.lines }
        ensures held { length (bytes_held self.new) ≤ length (bytes_held self.old) }
    {
        let count = length_to_line_feed(self.piece.as_slice());
        let whole = count < self.piece.as_slice().len();
        keep(&mut self.line, &self.piece.as_slice()[..count])?;
        self.piece.take(count);
        Ok(whole)
    }

    /// Ends the line, whose line feed comes next.
    fn end_line(&mut self, keys: &mut KnownKeys) -> Result<Option<LineItem>, InputFault>
        requires { (rest : List ℕ) × (self.old.piece ≡ 10 ∷ rest) }
        ensures items { IfOk result (λ item. Passes self.old self.new (option_to_list item)) }
        ensures shorter { OnOk result (length self.new.piece < length self.old.piece) }
        ensures err { OnErr result (self.new ≡ self.old) }
        ensures spent { IfErr result
            (λ fault. fault ≡ InputFault.DeviceFailed → IsSpent self.new) }
        ensures reads { self.new.reads ≡ self.old.reads }
        ensures lines { self.new.lines + length (bytes_held self.new)
            ≤ self.old.lines + length (bytes_held self.old) }
    {
        let item = self.item(keys)?;
        self.piece.take(1);
        self.line.clear();
        self.lines += 1;
        Ok(item)
    }

    /// The line at the end of the source, which has no line feed.
    fn last_item(&mut self, keys: &mut KnownKeys) -> Result<Option<LineItem>, InputFault>
        requires { self.old.piece ≡ [] }
        ensures items { IfOk result (λ item. items_after self.old.lines (bytes_held self.old)
            ≡ option_to_list item) }
        ensures end { OnOk result (bytes_held self.new ≡ []) }
        ensures err { OnErr result (self.new ≡ self.old) }
        ensures spent { IfErr result
            (λ fault. fault ≡ InputFault.DeviceFailed → IsSpent self.new) }
        ensures reads { self.new.reads ≡ self.old.reads }
        ensures lines { self.new.lines + length (bytes_held self.new)
            ≤ self.old.lines + length (bytes_held self.old) }
    {
        if self.line.is_empty() {
            return Ok(None);
        }
        let item = self.item(keys)?;
        self.line.clear();
        self.lines += 1;
        Ok(item)
    }

    /// The item that the line is.
    fn item(&self, keys: &mut KnownKeys) -> Result<Option<LineItem>, InputFault>
        ensures item { IfOk result
            (λ item. option_to_list item ≡ item_of (self.now.lines + 1) self.now.line.items) }
        ensures numbered { OnOk result (self.now.lines < 2 ^ 64 - 1) }
        ensures spent { IfErr result
            (λ fault. fault ≡ InputFault.DeviceFailed → IsSpent self.now) }
    {
        if self.lines == u64::MAX {
            return Err(InputFault::DeviceFailed);
        }
        Ok(item_of(self.alloc, keys, self.lines + 1, &self.line)?)
    }

    /// Reads the next piece, and says whether there was one.
    fn refill<S: ByteSource>(&mut self, source: &mut S) -> Result<bool, InputFault>
        requires { self.old.piece ≡ [] }
        ensures bytes { OnOk result
            (MayConsume (S.seen source.old).left (S.seen source.new).left self.new.piece) }
        ensures end { IfOk result (λ some. MatchBool some (0 < length self.new.piece)
            ((self.new.piece ≡ []) × IsAtEnd (S.seen source.new).left)) }
        ensures err { OnErr result
            ((self.new.piece ≡ []) × MayConsume (S.seen source.old).left (S.seen source.new).left []) }
        ensures device { IfErr result (λ fault. (fault ≡ InputFault.DeviceFailed)
            × (((S.seen source.new).failed ≡ true) ⊎ IsSpent self.new)) }
        ensures here { OnErr result
            (((S.seen source.new).turned ≡ not (S.seen source.old).turned) ⊎ IsSpent self.new) }
        ensures failed { OnOk result ((S.seen source.new).failed ≡ (S.seen source.old).failed) }
        ensures turned { OnOk result ((S.seen source.new).turned ≡ (S.seen source.old).turned) }
        ensures line { (self.new.line ≡ self.old.line) × (self.new.lines ≡ self.old.lines) }
        ensures reads { IfOk result (λ some. MatchBool some
            ((self.new.reads ≡ self.old.reads + 1) × (self.old.reads < 2 ^ 64 - 1))
            (self.new.reads ≡ self.old.reads)) }
        ensures still { OnErr result (self.new.reads ≡ self.old.reads) }
    {
        if self.reads == MOST_READS {
            return Err(InputFault::DeviceFailed);
        }
        let some = self.piece.fill(source)?;
        if some {
            self.reads += 1;
        }
        Ok(some)
    }
}

/// Appends bytes to a line, and of one that is too long only so many that it still is.
fn keep(line: &mut Vec<u8>, bytes: &[u8]) -> Result<(), OutOfMemory>
    requires { vec_len line.old ≤ MOST_LINE_BYTES + 1 }
    ensures ok { OnOk result
        (line.new.items ≡ take (MOST_LINE_BYTES + 1) (line.old.items ++ bytes.now)) }
    ensures within { vec_len line.new ≤ MOST_LINE_BYTES + 1 }
    ensures err { OnErr result (line.new.items ≡ line.old.items) }
{
    let room = MOST_LINE_BYTES + 1 - line.len();
    let count = room.min(bytes.len());
    line.extend_from_slice(&bytes[..count])
}
