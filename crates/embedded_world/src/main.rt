//! A checker on the one thread of a program of your own: `World`.
#![tactic(auto)]

ghost use Rattle.std.specs.Prelude.{◌≡◌, true, IfOk, length};
ghost use Rattle.si_model.specs.Findings.{findings};
ghost use Rattle.si_model.specs.Journals.{present};
ghost use Rattle.si_text.specs.Texts.{report_text};

use si_core::{Reply, Step, World};
use si_model::{MOST_EDITS, OutOfMemory};
use si_text::{print_report, read_edit};
use std::alloc::{AllocError, AllocGlobal};
use std::hash::RandomState;
use std::io::Write;
use std::process::ExitCode;
use std::random::RandomSource;

/// What the test saw, in the order in which it saw it. The second read missed what the first transaction wrote.
const LINES: [&[u8]; 2] = [
    br#"{"do":"txn","id":2,"start":3,"status":"committed","commit":4,"ops":[["r","x",null]]}"#,
    br#"{"do":"txn","id":1,"start":1,"status":"committed","commit":2,"ops":[["w","x",7]]}"#,
];

fn main(rt: HostRuntime) -> ExitCode {
    match checked(&rt) {
        Ok(text) if rt.stdout().write_all(text.as_slice()).is_ok() => ExitCode::from(0),
        _ => ExitCode::from(2),
    }
}

/// Takes each line, and reports.
fn checked(rt: &(impl AllocGlobal + RandomSource)) -> Result<Vec<u8>, OutOfMemory> {
    let hash = RandomState::new(rt).map_err(|_| AllocError)?;
    let mut world = World::new(rt.alloc(), hash, 1, MOST_EDITS)?;
    let mut refused: u64 = 0;
    for line in LINES {
        let accepted = match read_edit(rt.alloc(), line) {
            Ok(edit) => world.step(Step::Accept(edit)),
            Err(_) => Reply::Idle,
        };
        let is_refused = !matches!(accepted, Reply::Accepted(_));
        refused = refused.saturating_add(u64::from(is_refused));
    }
    report(rt, &mut world, refused)
}

/// Lets the machine settle, and tells all that it finds: what is proved of it here is what the program promises of its own report.
fn report(rt: &impl AllocGlobal, world: &mut World, refused: u64) -> Result<Vec<u8>, OutOfMemory>
    ensures { IfOk result (λ text. text.items ≡ report_text true (length (present world.new.journal).txns) (findings (present world.new.journal)) refused) }
{
    world.step(Step::Settle);
    let found = world.findings().map_err(|_| AllocError)?;
    let (alloc, count) = (rt.alloc(), world.len());
    let mut text = Vec::new(alloc);
    print_report(alloc, &mut text, count, found.as_slice(), refused, true)?;
    Ok(text)
}
