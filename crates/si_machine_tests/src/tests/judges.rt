//! What the judge of snapshot isolation answers.

use super::*;
use si_judge::{Cases, Judge, KeyFault};
use si_model::{Kind, Sight, Source, Stamp, TxnId, Value};

fn seen(source: Source) -> Sight {
    Sight {
        txn: TxnId(2),
        op: 4,
        start: Stamp(3),
        read: Some(Value(1)),
        own: None,
        later: false,
        source,
        missed: None,
    }
}

/// Asks about a read, and says nothing of the answer: the test looks at that.
fn read(judge: &mut Cases, source: Source) -> Option<Kind> {
    judge.read(&seen(source))
}

fn pair(judge: &mut Cases, first: u64, second: u64) -> bool {
    judge.pair(Stamp(first), Stamp(second))
}

#[test]
fn answers_are_counted(rt: HostRuntime) {
    let mut judge = Cases::new();
    are_same(&rt, judge.calls(), 0);
    let aborted = Kind::Aborted {
        txn: TxnId(2),
        op: 4,
        read: Some(Value(1)),
        writer: TxnId(1),
    };
    are_same(&rt, read(&mut judge, Source::Initial), None);
    let answer = read(&mut judge, Source::Aborted(TxnId(1)));
    are_same(&rt, answer, Some(aborted));
    are_same(&rt, judge.calls(), 2);
    assert!(rt; pair(&mut judge, 5, 2));
    assert!(rt; !pair(&mut judge, 2, 5));
    are_same(&rt, judge.calls(), 4);
}

#[test]
fn a_fault_is_printed(rt: HostRuntime) {
    is_printed(&rt, KeyFault::Spoiled, "spoiled");
    is_printed(&rt, KeyFault::OutOfMemory, "out of memory");
}

fn is_printed(rt: &(impl Abort + AllocGlobal), fault: KeyFault, wanted: &str) {
    let text = format!(in rt.alloc(); "{fault}").expect(rt, "memory");
    are_same(rt, text.as_str(), wanted);
}
