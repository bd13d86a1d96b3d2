//! Reads and writes that fail at each place.

use super::{
    DOUBT, Host, PLAIN, RESOLUTION, RunEnd, are_same, is_resolved_or_not, secret_key, source_of,
};
use si_run::{RunFault, run};
use si_text::memory::{FailingSink, FailingSource, MemorySink, MemorySource};
use std::slice;

/// A value that is written twice, with a withdrawal between.
const AGAIN: &str =
    "{\"do\":\"txn\",\"id\":1,\"start\":1,\"status\":\"committed\",\"commit\":2,\"ops\":[[\"w\",\"x\",5]]}
{\"do\":\"txn\",\"id\":2,\"start\":3,\"status\":\"committed\",\"commit\":4,\"ops\":[[\"w\",\"x\",5]]}
{\"do\":\"withdraw\",\"id\":1}
{\"do\":\"txn\",\"id\":2,\"start\":3,\"status\":\"committed\",\"commit\":4,\"ops\":[[\"w\",\"x\",5]]}
";

const AGAIN_TEXT: &str =
    "refused source=0 line=2 code=18 reason=value-taken op=0 holder=1\ntransactions=1 findings=0 refused=1 verdict=clean\n";

/// How a run ends that writes a byte at once, of which so many writes don't fail.
fn ended_writing(rt: &impl Host, writes: usize) -> RunEnd {
    let mut input = source_of(rt, AGAIN, 4096);
    let mut out = MemorySink::new(rt.alloc(), 1);
    let mut failing = FailingSink::new(&mut out, writes as u64);
    let (hash, inputs) = (secret_key(rt), slice::from_mut(&mut input));
    let status = run(rt, rt.alloc(), hash, inputs, &mut failing, PLAIN);
    RunEnd { status, out }
}

#[test]
fn each_write_fails(rt: HostRuntime) {
    let text = AGAIN_TEXT.as_bytes();
    for writes in 0..text.len() {
        is_cut_short(&rt, &ended_writing(&rt, writes), text.get(..writes));
    }
}

/// The run could write no more than this.
fn is_cut_short(rt: &impl Host, ended: &RunEnd, text: Option<&[u8]>) {
    are_same(rt, ended.status, Err(RunFault::Output));
    are_same(rt, Some(ended.out.as_slice()), text);
}

/// How a run over the two texts ends, which are given by a byte a read, the second one by so many good reads.
fn ended_reading(rt: &impl Host, reads: usize) -> RunEnd {
    let mut inputs = [
        FailingSource::new(source_of(rt, DOUBT, 1), u64::MAX),
        FailingSource::new(source_of(rt, RESOLUTION, 1), reads as u64),
    ];
    let mut out = MemorySink::new(rt.alloc(), 4096);
    let (hash, inputs) = (secret_key(rt), inputs.as_mut_slice());
    let status = run(rt, rt.alloc(), hash, inputs, &mut out, PLAIN);
    RunEnd { status, out }
}

/// What is written of the resolution where it is decided before the transaction.
const TOO_EARLY: &[u8] = b"refused source=1 line=1 code=13 reason=no-such\n";

/// The run could not read the second source. It wrote nothing but that the resolution was refused, if it had read all of that.
fn cannot_read(rt: &impl Host, ended: &RunEnd, is_whole: bool) {
    are_same(rt, ended.status, Err(RunFault::Input(1)));
    let text = ended.out.as_slice();
    assert!(rt; text.is_empty() || (is_whole && text == TOO_EARLY));
}

/// Each read gives a byte, and the one behind them finds the end. The line is whole once its line feed is read.
#[test]
fn each_read_of_the_second_source_fails(rt: HostRuntime) {
    let bytes = RESOLUTION.len();
    for reads in 0..=bytes {
        cannot_read(&rt, &ended_reading(&rt, reads), reads == bytes);
    }
    is_resolved_or_not(&rt, &ended_reading(&rt, bytes.saturating_add(1)));
}
