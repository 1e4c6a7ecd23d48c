//! A program's run: the tables that its arguments name.

use crate::case_err::CaseErr;
use crate::judge::Judge;
use crate::table::{Record, judge_table};
use crate::tally::Tally;
use std::process::ExitCode;
use std::rt::Runtime;
use std::thread::Threads;
use std::{env, fs};

/// Judges the cases of the tables that the program's arguments name, and prints those that fail and a last line that
/// counts them. The status is 0 only if there are cases and all hold.
pub fn run_tables<R: Runtime + AllocGlobal + Threads + Sync, J: Judge>(
    rt: &R,
    program: &str,
    judge: &mut J,
) -> Result<ExitCode, CaseErr> {
    let mut record = Record::new(rt.alloc());
    run_over(rt, program, judge, &mut record)
}

fn run_over<R: Runtime + AllocGlobal + Threads + Sync, J: Judge>(
    rt: &R,
    program: &str,
    judge: &mut J,
    record: &mut Record,
) -> Result<ExitCode, CaseErr> {
    for file in env::args(rt)?.skip(1) {
        run_table(rt, file.as_str(), judge, record)?;
    }
    finish(rt, program, record.tally)
}

/// Prints the line that counts, and returns the status.
fn finish<R: Runtime + AllocGlobal>(
    rt: &R,
    program: &str,
    tally: Tally,
) -> Result<ExitCode, CaseErr> {
    rt.print(tally.last_line(rt.alloc(), program)?)?;
    Ok(if tally.all_hold() {
        ExitCode::SUCCESS
    } else {
        ExitCode::FAILURE
    })
}

fn run_table<R: Runtime + AllocGlobal + Threads + Sync, J: Judge>(
    rt: &R,
    file: &str,
    judge: &mut J,
    record: &mut Record,
) -> Result<(), CaseErr> {
    let table = fs::read_to_string(rt, file)?;
    judge_table(rt, table.as_str(), judge, record)?;
    print_report(rt, file, record.report.as_str())
}

fn print_report<R: Runtime + AllocGlobal>(rt: &R, file: &str, report: &str) -> Result<(), CaseErr> {
    if report.is_empty() {
        return Ok(());
    }
    rt.print(format!(in rt.alloc(); "in {file}\n{report}")?)?;
    Ok(())
}
