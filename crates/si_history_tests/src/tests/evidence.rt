//! Histories with the evidence for their findings, and evidence that shows nothing.

ghost use Rattle.std.specs.Prelude.{IsTrue};
ghost use Rattle.si_model.specs.Parts.{Present};
ghost use Rattle.si_model.specs.History.{IsHistory};

use super::findings::found_in;
use super::*;
use si_graph::{ExplainFault, check_evidence, explain};
use si_model::{
    Edge, Evidence, Finding, Key, KeyedEdge, Kind, Knot, Label, Txn, TxnId, Value, Walk, is_history,
};
use si_scripts::{History, asked, key, present};
use si_text::{print_evidence, read_evidence};

fn number(rt: &impl Abort, word: Option<&str>) -> u64 {
    let word = word.expect(rt, "a number");
    word.parse::<u64>().ok().expect(rt, "a number")
}

fn label_of(rt: &impl Abort, word: &str) -> Label {
    match word {
        "ww" => Label::Ww,
        "wr" => Label::Wr,
        "rw" => Label::Rw,
        "st" => Label::St,
        _ => panic!(rt; "no label: {word}"),
    }
}

/// An edge, as `2-rw->1`.
fn edge_of(rt: &impl Abort, word: &str) -> Edge {
    let (from, rest) = word.split_once('-').expect(rt, "an edge");
    let (label, to) = rest.split_once("->").expect(rt, "an edge");
    Edge {
        from: TxnId(number(rt, Some(from))),
        to: TxnId(number(rt, Some(to))),
        label: label_of(rt, label),
    }
}

fn walk_of(rt: &(impl Abort + AllocGlobal), text: &str) -> Walk {
    let mut edges = Vec::new(rt.alloc());
    for word in text.split_ascii_whitespace() {
        edges.push(edge_of(rt, word)).expect(rt, "memory");
    }
    Walk::from_vec(edges)
}

/// Edges with their keys, as `1-wr->2/x 2-rw->1/y`.
fn knot_of(rt: &(impl Abort + AllocGlobal), text: &str) -> Knot {
    let mut edges = Vec::new(rt.alloc());
    for word in text.split_ascii_whitespace() {
        let (edge, name) = word.split_once('/').expect(rt, "a key");
        let edge = edge_of(rt, edge);
        let key = key(rt, name).expect(rt, "a key");
        edges.push(KeyedEdge { edge, key }).expect(rt, "memory");
    }
    Knot::from_vec(edges)
}

/// A key and two transactions, as `x 1 2`.
fn fork_of(rt: &(impl Abort + AllocGlobal), text: &str) -> Evidence {
    let mut words = text.split_ascii_whitespace();
    let key = key(rt, words.next().expect(rt, "a key")).expect(rt, "a key");
    let first = TxnId(number(rt, words.next()));
    let second = TxnId(number(rt, words.next()));
    Evidence::Fork { key, first, second }
}

/// A reader, the place of its read and a writer, as `2 0 1`.
fn read_from(rt: &impl Abort, text: &str) -> (TxnId, usize, TxnId) {
    let mut words = text.split_ascii_whitespace();
    let reader = number(rt, words.next());
    let place = number(rt, words.next());
    let writer = number(rt, words.next());
    (TxnId(reader), place as usize, TxnId(writer))
}

/// `aborted 2 0 1`, `intermediate 2 0 1`, `interference 1-ww->2`, `missed 2-rw->1 1-st->2`, `fork x 1 2` or
/// `knot 1-wr->2/x 2-rw->1/x`.
fn evidence_of(rt: &(impl Abort + AllocGlobal), line: &str) -> Evidence {
    let (kind, rest) = line.split_once(' ').unwrap_or((line, ""));
    match kind {
        "aborted" => {
            let (reader, op, writer) = read_from(rt, rest);
            Evidence::AbortedRead { reader, op, writer }
        }
        "intermediate" => {
            let (reader, op, writer) = read_from(rt, rest);
            Evidence::IntermediateRead { reader, op, writer }
        }
        "interference" => Evidence::Interference(edge_of(rt, rest)),
        "missed" => Evidence::Missed(walk_of(rt, rest)),
        "fork" => fork_of(rt, rest),
        "knot" => Evidence::Knot(knot_of(rt, rest)),
        _ => panic!(rt; "no evidence: {line}"),
    }
}

fn holds(rt: &impl Abort, history: &History, evidence: &Evidence) -> bool {
    assert!(rt; is_history(&history.txns, &history.initial));
    check_evidence(&history.txns, &history.initial, evidence)
}

/// Whatever explains a finding is found to hold: this is proved, by the two contracts.
fn explained_holds(
    rt: &impl AllocGlobal,
    txns: &[Txn],
    initial: &[(Key, Value)],
    finding: &Finding,
) -> bool
    requires { IsHistory (record { txns = txns.now; initial = initial.now }) }
    ensures { IsTrue result }
{
    match explain(rt.alloc(), txns, initial, finding) {
        Ok(evidence) => check_evidence(txns, initial, &evidence),
        Err(_) => true,
    }
}

/// What explains the finding of the history.
pub(super) fn explained(
    rt: &(impl Abort + AllocGlobal),
    history: &History,
    finding: &Finding,
) -> Result<Evidence, ExplainFault> {
    assert!(rt; is_history(&history.txns, &history.initial));
    assert!(rt; explained_holds(rt, &history.txns, &history.initial, finding));
    explain(rt.alloc(), &history.txns, &history.initial, finding)
}

/// What explains the one finding of the history.
fn explained_alone(
    rt: &(impl Abort + AllocGlobal),
    history: &History,
) -> Result<Evidence, ExplainFault> {
    let found = found_in(rt, &history.txns, &history.initial);
    assert!(rt; found.len() == 1);
    explained(rt, history, &found[0])
}

/// The evidence is read from the line as which it is printed.
fn is_read_back(rt: &(impl Abort + AllocGlobal), evidence: &Evidence, case: (&str, &str)) {
    let mut line = Vec::new(rt.alloc());
    print_evidence(rt.alloc(), &mut line, evidence).expect(rt, "memory");
    let _end = line.pop();
    let read = read_evidence(rt.alloc(), &line).expect(rt, "memory");
    let same = match &read {
        Some(read) => read == evidence,
        None => false,
    };
    are_same_in(rt, same, true, case);
}

/// Of the history the evidence behind `yes` holds, and that behind `no` doesn't, in whatever order its transactions come. What stands
/// behind `explains` explains its one finding.
fn is_so(rt: &(impl Abort + AllocGlobal), history: &mut History, title: &str, line: &str) {
    let (wanted, evidence) = line.split_once(' ').expect(rt, "evidence");
    let evidence = evidence_of(rt, evidence);
    if wanted == "explains" {
        are_same_in(
            rt,
            explained_alone(rt, history),
            Ok(evidence),
            (title, line),
        );
        return;
    }
    is_read_back(rt, &evidence, (title, line));
    for _ in 0..2 {
        let shown = holds(rt, history, &evidence);
        are_same_in(rt, shown, wanted == "yes", (title, line));
        history.txns.reverse();
    }
}

/// A title, a history and what is so of it.
fn check_row(rt: &(impl Abort + AllocGlobal), row: &str) {
    let (title, row) = row.split_once('\n').expect(rt, "a title");
    let (lines, answers) = asked(row).expect(rt, "evidence");
    let mut history = present(rt, lines).expect(rt, "a history");
    for line in answers.lines() {
        is_so(rt, &mut history, title.trim(), line.trim());
    }
    drop(history);
}

/// Histories, and behind the bar what is so of them: rows with a title each, between `#`.
const ROWS: &str = "a stale read misses a version, and a walk that isn't closed shows nothing
    1 1 2 x=1
    2 3 4 x?null
    | yes missed 2-rw->1 1-st->2
    explains missed 2-rw->1 1-st->2
    no missed 2-rw->1
    no missed
    no missed 1-rw->2 2-st->1
    # a lost update interferes
    1 1 5 x?null x=1
    2 2 6 x?null x=2
    | yes interference 1-ww->2
    no interference 2-ww->1
    no interference 1-rw->2
    explains interference 1-ww->2
    # write skew has two rw edges
    1 1 5 x?null y?null x=1
    2 1 6 x?null y?null y=2
    | no missed 1-rw->2 2-rw->1
    # a read of the future interferes
    1 1 10 x=1
    2 2 3 x?1
    | yes interference 1-wr->2
    no interference 2-wr->1
    explains interference 1-wr->2
    # a read before the start doesn't interfere
    1 1 2 x=1
    2 3 4 x?1
    | no interference 1-wr->2
    # an aborted read is shown
    1 1 aborted x=1 x=2
    2 3 4 x?1
    | yes aborted 2 0 1
    yes intermediate 2 0 1
    no aborted 2 1 1
    no aborted 1 0 2
    no aborted 2 0 3
    explains aborted 2 0 1
    # an intermediate read is shown
    1 1 2 x=1 x=2
    2 3 4 x?1
    | yes intermediate 2 0 1
    no aborted 2 0 1
    explains intermediate 2 0 1
    # a walk of three misses effects
    1 1 2 x=1
    2 3 4 x=2 y=1
    3 5 6 y?1 x?null
    | yes missed 3-rw->1 1-ww->2 2-wr->3
    no missed 3-rw->1 1-ww->2
    no missed 3-rw->2 2-wr->3
    explains missed 3-rw->1 1-st->3
    # an own version is read before the next
    1 1 10 x=1 x?1 y?1
    2 2 12 x=2 y=1
    | yes missed 1-rw->2 2-wr->1
    no missed 1-rw->1
    no missed 1-ww->2 2-wr->1
    # readers with one stamp are nodes
    1 1 2 x=1
    2 3 3 x?1
    3 4 4 x?null
    5 3 3 x?1
    | yes missed 3-rw->1 1-wr->2 2-st->3
    no missed 3-rw->1 1-wr->2 2-st->5 5-st->3
    explains missed 3-rw->1 1-st->3
    # a stale read of a set-up value
    setup x=5
    1 1 2 x?5
    3 5 6 x=7
    4 7 8 x?5
    | yes missed 4-rw->3 3-st->4
    no missed 1-rw->3 3-st->1
    explains missed 4-rw->3 3-st->4
    # null is a version of a key that was not set up
    setup y=5
    3 5 6 x=7
    4 7 8 x?null
    | yes missed 4-rw->3 3-st->4
    # null is no version of a key that was set up
    setup x=5
    3 5 6 x=7
    4 7 8 x?null
    | no missed 4-rw->3 3-st->4
    # two that read one version and overwrote it are a fork, whatever their stamps are
    1 1 2 x?null x=1 y=1
    2 3 4 x?null x=2 y?1
    3 5 6 x?null
    4 7 aborted x?null x=4
    5 8 9 x=5 x?null
    | yes fork x 1 2
    yes fork x 2 1
    no fork x 1 1
    no fork x 1 3
    no fork x 1 4
    no fork x 1 5
    no fork y 1 2
    no fork x 1 6
    # reads and overwrites that lead round are a knot
    1 1 2 x=1 y?null y=7
    2 3 4 x?1 y?null
    | yes knot 1-wr->2/x 2-rw->1/y
    yes knot 2-rw->1/y 1-wr->2/x
    no knot 1-wr->2/y 2-rw->1/y
    no knot 1-wr->2/x 2-rw->1/x
    no knot 1-rw->2/y 2-wr->1/x
    no knot 1-ww->2/x 2-st->1/x
    no knot 1-wr->2/x
    no knot
    # a read of an own write makes no edge, and nor does an aborted one
    1 1 aborted x=1
    2 3 4 x?1 y=2
    3 5 6 y=3 y?2
    | no knot 1-wr->2/x 2-rw->1/x
    no knot 2-wr->3/y 3-rw->2/y
    # write skew is no knot, since its rw edges stand side by side
    1 1 5 x?null y?null x=1
    2 1 6 x?null y?null y=2
    | no knot 1-rw->2/y 2-rw->1/x
    no fork x 1 2
    # a knot of wr edges alone, over several keys
    1 1 5 x=1 z?3
    2 2 6 x?1 y=2
    3 3 7 y?2 z=3
    | yes knot 1-wr->2/x 2-wr->3/y 3-wr->1/z
    yes knot 2-wr->3/y 3-wr->1/z 1-wr->2/x
    no knot 1-wr->2/y 2-wr->3/y 3-wr->1/z
    no knot 1-wr->2/x 2-wr->3/y 3-wr->2/z
    no knot 1-wr->2/x 2-wr->3/y";

#[test]
fn evidence_shows_what_it_shows(rt: HostRuntime) {
    for row in ROWS.split('#') {
        check_row(&rt, row);
    }
}

#[test]
fn what_is_no_finding_is_not_explained(rt: HostRuntime) {
    let history = present(&rt, "1 1 2 x=1\n2 3 4 x?null").expect(&rt, "a history");
    let another = Finding {
        key: key(&rt, "x").expect(&rt, "a key"),
        kind: Kind::Stale {
            txn: TxnId(2),
            op: 0,
            read: None,
            missed: TxnId(3),
        },
    };
    let explained = explained(&rt, &history, &another);
    are_same(&rt, explained, Err(ExplainFault::NotAFinding));
    drop(another);
    drop(history);
}

#[test]
fn findings_of_form_are_not_explained(rt: HostRuntime) {
    let null_of_a_set_up_key = "
        setup x=5
        3 5 6 x=7
        4 7 8 x?null";
    for lines in ["2 3 4 x?1", null_of_a_set_up_key] {
        let history = present(&rt, lines).expect(&rt, "a history");
        let explained = explained_alone(&rt, &history);
        are_same(&rt, explained, Err(ExplainFault::FormFinding));
        drop(history);
    }
}

#[test]
fn faults_have_their_codes(rt: HostRuntime) {
    for (fault, code) in [
        (ExplainFault::NotAFinding, Some(31)),
        (ExplainFault::FormFinding, Some(32)),
        (ExplainFault::OutOfMemory, None),
    ] {
        are_same(&rt, fault.code(), code);
    }
}
