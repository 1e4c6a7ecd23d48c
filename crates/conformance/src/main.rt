//! Judges the tables of cases of the levels below the command. docs/CASES.md describes a table's lines.
//!
//! With the word `bench` it runs a part of the host, so that its time can be measured from outside.
#![tactic(auto)]

mod applying;
mod bench;
mod budgets;
mod calls;
mod errors;
mod events;
mod hashes;
mod host;
mod imports;
mod kinds;
mod ledgers;
mod modules;
mod orders;
mod spellings;
mod texts;
mod types;

use case_text::{CaseErr, run_tables};
use kinds::Kinds;
use std::process::ExitCode;
use std::rt::Runtime;
use std::thread::Threads;

fn main(rt: HostRuntime) -> Result<ExitCode, CaseErr> {
    let mut kinds = Kinds::new(rt.alloc());
    run(&rt, &mut kinds)
}

fn run<R: Runtime + AllocGlobal + Threads + Sync>(
    rt: &R,
    kinds: &mut Kinds,
) -> Result<ExitCode, CaseErr> {
    if bench::is_asked(rt)? {
        bench::run(rt)
    } else {
        run_tables(rt, "conformance", kinds)
    }
}
