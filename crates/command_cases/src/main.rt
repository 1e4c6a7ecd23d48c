//! Judges cases of whole commands: over files in memory, whose calls may fail, and over files on disk. Judges cases of
//! `soroban_why` over files in memory.
//!
//! The tables are in data/. docs/CASES.md describes their lines.
#![tactic(auto)]

mod commands;
mod disk;
mod memory;
mod outcome;
mod why;
mod words;

use case_text::{CaseErr, run_tables};
use commands::Commands;
use std::process::ExitCode;
use std::rt::Runtime;
use std::thread::Threads;

fn main(rt: HostRuntime) -> Result<ExitCode, CaseErr> {
    let mut commands = Commands::new(rt.alloc());
    judge_tables(&rt, &mut commands)
}

fn judge_tables<R: Runtime + AllocGlobal + Threads + Sync>(
    rt: &R,
    commands: &mut Commands,
) -> Result<ExitCode, CaseErr> {
    let code = run_tables(rt, "command_cases", commands);
    commands.clear(rt, rt.alloc());
    code
}
