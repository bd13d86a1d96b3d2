//! A checker shared by the threads of your own program: two submit, then one reports. It ends with 20 where a violation is found, with 0
//! where both edits were accepted and nothing is found, with 2 where the checker can't be had or reports nothing, and else with 10.
#![tactic(auto)]

ghost use Rattle.std.specs.Prelude.{◌≡◌};

use si_checker::{Checker, Name, Parts, Pass, open};
use si_text::{Verdict, read_edit};
use std::alloc::AllocGlobal;
use std::hash::RandomState;
use std::marker::Brand;
use std::process::ExitCode;
use std::random::RandomSource;
use std::sync::Wait;
use std::thread::{Threads, join};

const LINES: [&[u8]; 2] = [
    br#"{"do":"txn","id":1,"start":1,"status":"committed","commit":5,"ops":[["r","x",null],["w","x",1]]}"#,
    br#"{"do":"txn","id":2,"start":2,"status":"committed","commit":6,"ops":[["r","x",null],["w","x",2]]}"#,
];

fn main(rt: HostRuntime) -> ExitCode {
    ExitCode::from(opened(&rt).unwrap_or(2))
}

fn opened<R: Threads + Wait + Sync + AllocGlobal + RandomSource>(rt: &R) -> Option<u8> {
    let (parts, mut all) = open(rt.alloc(), RandomState::new(rt).ok()?, 4, 3, 1_000).ok()?;
    shared::<Brand, R>(rt, parts, (all.pop()?, all.pop()?, all.pop()?))
}

/// Two threads submit, each by a pass of its own, and then this one reports by the third.
fn shared<N: Name + Send + Sync, R>(rt: &R, parts: Parts, passes: (Pass, Pass, Pass)) -> Option<u8>
where
    R: Threads + Wait + Sync + AllocGlobal,
    requires board { parts.board ≡ N.board }
    requires limit { parts.limit ≡ N.limit }
    requires own { (passes.0.table ≡ N.board.table) × (passes.1.table ≡ N.board.table) × (passes.2.table ≡ N.board.table) }
{
    let checker = &Checker::<N>::new(rt.alloc(), parts).ok()?;
    let (one, other, mut last) = passes;
    let (first, second) = join(
        rt,
        move || submit(rt, checker, one, LINES[0]),
        move || submit(rt, checker, other, LINES[1]),
    );
    let report = checker.settled_findings(rt, &mut last).ok()?;
    Some(match Verdict::of(report.findings.as_slice()) {
        Verdict::Violation => 20,
        Verdict::Clean if first && second => 0,
        _ => 10,
    })
}

fn submit<N: Name, R>(rt: &R, checker: &Checker<N>, mut pass: Pass, line: &[u8]) -> bool
where
    R: Wait + AllocGlobal,
    requires { pass.table ≡ N.board.table }
{
    read_edit(rt.alloc(), line).is_ok_and(|edit| checker.submit(rt, &mut pass, edit).is_ok())
}
