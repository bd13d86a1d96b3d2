//! The same over devices: a log and an answer are read whole, and what is told is written at once.

ghost use Rattle.std.specs.Prelude.{◌≡◌, ◌<◌, IfOk, Ok, Some, vec_len};
ghost use Rattle.si_text.specs.Devices.{foretold};
ghost use Rattle.si_evidence.specs.Runs.{Answers, IsWhole, TakesMore};

use crate::{JudgeFault, Judged, judge_answer};
use si_run::writing::write_all;
use si_text::{ByteSink, ByteSource, DeviceFailed};
use std::alloc::{AllocError, Global};
use std::hash::RandomState;

/// The most bytes that are read at once.
const MOST_READ: usize = 16_384;

/// Reads the answer, and writes the refused lines of the log and then each line of the answer whose evidence fails.
///
/// Nothing is written before the answer is read and judged.
pub fn judge<A: ByteSource, W: ByteSink>(
    alloc: Global,
    hash: RandomState,
    log: &[u8],
    answer: &mut A,
    writer: &mut W,
) -> Result<Judged, JudgeFault>
    ensures { IfOk result (Answers (Some log.now) (foretold (A.seen answer.old).left (A.seen answer.new).left)
        (W.seen writer.old).written (W.seen writer.new).written) }
{
    let answer = told_of(read_whole(alloc, answer), JudgeFault::Answer)?;
    let mut text = Vec::new(alloc);
    let judged = judge_answer(alloc, hash, log, &answer, &mut text)?;
    write_all(writer, &text)?;
    Ok(judged)
}

/// Reads a log whole.
pub fn log_of<S: ByteSource>(alloc: Global, source: &mut S) -> Result<Vec<u8>, JudgeFault>
    ensures { IfOk result (λ log. IsWhole (foretold (S.seen source.old).left (S.seen source.new).left) log.items) }
{
    told_of(read_whole(alloc, source), JudgeFault::Log)
}

/// Why a source wasn't read whole.
#[derive(Clone, Copy, Debug)]
enum ReadFault {
    Device,
    Memory,
}

impl From<AllocError> for ReadFault {
    fn from(_refused: AllocError) -> ReadFault {
        ReadFault::Memory
    }
}

impl From<DeviceFailed> for ReadFault {
    fn from(_failed: DeviceFailed) -> ReadFault {
        ReadFault::Device
    }
}

/// Tells the fault of a source as this one, where it isn't one of memory.
fn told_of(read: Result<Vec<u8>, ReadFault>, fault: JudgeFault) -> Result<Vec<u8>, JudgeFault>
    ensures { IfOk result (λ bytes. read ≡ Ok bytes) }
{
    match read {
        Ok(bytes) => Ok(bytes),
        Err(ReadFault::Device) => Err(fault),
        Err(ReadFault::Memory) => Err(JudgeFault::Memory),
    }
}

/// Room for the bytes that are read at once.
#[derive(Drop)]
struct Room {
    bytes: Vec<u8>,
    ghost some: { 0 < vec_len bytes },
}

impl Room {
    fn new(alloc: Global) -> Result<Self, AllocError> {
        Ok(Room {
            bytes: vec![in alloc; 0u8; MOST_READ]?,
        })
    }

    /// Appends the next bytes of a source, and says whether there were any.
    fn read<S: ByteSource>(
        &mut self,
        source: &mut S,
        bytes: &mut Vec<u8>,
    ) -> Result<bool, ReadFault>
        ensures { IfOk result (λ some. TakesMore (S.seen source.old).left (S.seen source.new).left bytes.old.items bytes.new.items some) }
    {
        let count = source.read(self.bytes.as_mut_slice())?;
        bytes.extend_from_slice(&self.bytes[..count])?;
        Ok(count > 0)
    }
}

/// All bytes that a source gives.
fn read_whole<S: ByteSource>(alloc: Global, source: &mut S) -> Result<Vec<u8>, ReadFault>
    ensures { IfOk result (λ bytes. IsWhole (foretold (S.seen source.old).left (S.seen source.new).left) bytes.items) }
{
    let mut bytes = Vec::new(alloc);
    let mut room = Room::new(alloc)?;
    'reads: for _turn in 0..u64::MAX {
        if !room.read(source, &mut bytes)? {
            return Ok(bytes);
        }
    }
    Err(ReadFault::Device)
}
