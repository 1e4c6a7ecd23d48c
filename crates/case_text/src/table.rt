//! One table: its lines, one after another.

use crate::case_err::CaseErr;
use crate::fragments::Fragments;
use crate::judge::{Case, Judge};
use crate::tally::{Tally, push_failure};
use crate::words::first_word;
use std::alloc::Global;
use std::rt::Runtime;
use std::thread::Threads;

/// A line, and the lines below it that two spaces indent.
#[derive(Drop)]
struct Block<'a> {
    /// The number of lines of the table up to here.
    lines: usize,
    /// The line's number in the table, from 1.
    number: usize,
    line: &'a str,
    below: Vec<&'a str>,
}

impl<'a> Block<'a> {
    /// The block of this line, which is the last one that was taken.
    fn begin(&mut self, line: &'a str) {
        self.number = self.lines;
        self.line = line;
        self.below.clear();
    }
}

/// What the lines of a table defined, and what the cases came to.
#[derive(Drop)]
pub struct Record {
    fragments: Fragments,
    /// The outcome that the last case is expected to have, and the one that came. Both are empty if the line only prepares.
    expected: String,
    came: String,
    /// The cases of the table that failed.
    pub report: String,
    pub tally: Tally,
}

impl Record {
    /// Makes the record of a table of which no case was judged.
    pub fn new(alloc: Global) -> Record {
        Record {
            fragments: Fragments::new(alloc),
            expected: String::new(alloc),
            came: String::new(alloc),
            report: String::new(alloc),
            tally: Tally::new(),
        }
    }

    /// Counts a line that is not understood as a case that failed, and reports why.
    fn reject(&mut self, block: &Block, why: &str) -> Result<(), CaseErr> {
        self.tally.count(false);
        push_failure(&mut self.report, block.number, block.line, "a case", why)
    }

    /// Counts a case, and reports it if it failed.
    fn compare(&mut self, block: &Block) -> Result<(), CaseErr> {
        let (expected, came) = (self.expected.as_str(), self.came.as_str());
        if expected.is_empty() && came.is_empty() {
            return Ok(());
        }
        if expected.is_empty() {
            return Err(CaseErr::Lacks("an expected outcome"));
        }
        if came.is_empty() {
            return Err(CaseErr::Lacks("a case that has an outcome"));
        }
        let holds = expected == came;
        self.tally.count(holds);
        if holds {
            return Ok(());
        }
        push_failure(&mut self.report, block.number, block.line, expected, came)
    }
}

/// Judges the cases of a table, counts them, and reports those that fail.
pub fn judge_table<R: Runtime + AllocGlobal + Threads + Sync, J: Judge>(
    rt: &R,
    table: &str,
    judge: &mut J,
    record: &mut Record,
) -> Result<(), CaseErr> {
    let alloc = rt.alloc();
    judge.begin_table(rt, alloc);
    record.fragments = Fragments::new(alloc);
    record.report.clear();
    let mut block = Block {
        lines: 0,
        number: 0,
        line: "",
        below: Vec::new(alloc),
    };
    judge_lines(rt, table, judge, record, &mut block)
}

fn judge_lines<'a, R: Runtime + AllocGlobal + Threads + Sync, J: Judge>(
    rt: &R,
    table: &'a str,
    judge: &mut J,
    record: &mut Record,
    block: &mut Block<'a>,
) -> Result<(), CaseErr> {
    for line in table.lines() {
        take_line(rt, line, judge, record, block)?;
    }
    take_block(rt, block, judge, record)
}

/// Adds a line to its block. A line that begins a block ends the one before.
fn take_line<'a, R: Runtime + AllocGlobal + Threads + Sync, J: Judge>(
    rt: &R,
    line: &'a str,
    judge: &mut J,
    record: &mut Record,
    block: &mut Block<'a>,
) -> Result<(), CaseErr> {
    block.lines = block.lines.saturating_add(1);
    if let Some(below) = line.strip_prefix("  ") {
        return Ok(block.below.push(below)?);
    }
    take_block(rt, block, judge, record)?;
    block.begin(line);
    Ok(())
}

/// Takes a block. A line that is not understood is a case that fails, and so is one that runs out of memory.
fn take_block<R: Runtime + AllocGlobal + Threads + Sync, J: Judge>(
    rt: &R,
    block: &Block,
    judge: &mut J,
    record: &mut Record,
) -> Result<(), CaseErr> {
    match judge_block(rt, block, judge, record) {
        Err(CaseErr::Lacks(what)) => {
            let why = format!(in rt.alloc(); "a line that lacks {what}")?;
            record.reject(block, why.as_str())
        }
        Err(CaseErr::NoMemory) => record.reject(block, "out of memory"),
        other => other,
    }
}

/// Keeps the bytes that a line names, or judges its case.
fn judge_block<R: Runtime + AllocGlobal + Threads + Sync, J: Judge>(
    rt: &R,
    block: &Block,
    judge: &mut J,
    record: &mut Record,
) -> Result<(), CaseErr> {
    let alloc = rt.alloc();
    match first_word(block.line) {
        ("" | "#" | "##", _) => no_lines_below(block),
        ("let", rest) => define(alloc, &mut record.fragments, rest, &block.below),
        ("text", rest) => define_text(alloc, &mut record.fragments, rest, block),
        _ => judge_case(rt, block, judge, record),
    }
}

fn no_lines_below(block: &Block) -> Result<(), CaseErr> {
    if block.below.is_empty() {
        Ok(())
    } else {
        Err(CaseErr::Lacks("a case above its outcome"))
    }
}

/// NAME BYTES, where the bytes go on in the lines below.
fn define(
    alloc: Global,
    fragments: &mut Fragments,
    rest: &str,
    below: &[&str],
) -> Result<(), CaseErr> {
    let (name, text) = first_word(without_remark(rest));
    let bytes = defined(alloc, fragments, text, below)?;
    fragments.put(alloc, name, bytes)
}

fn defined(
    alloc: Global,
    fragments: &Fragments,
    text: &str,
    below: &[&str],
) -> Result<Vec<u8>, CaseErr> {
    let mut bytes = fragments.bytes(alloc, text)?;
    for text in below {
        fragments.push_bytes(alloc, &mut bytes, without_remark(text))?;
    }
    Ok(bytes)
}

/// NAME TEXT, where the text goes up to the end of the line.
fn define_text(
    alloc: Global,
    fragments: &mut Fragments,
    rest: &str,
    block: &Block,
) -> Result<(), CaseErr> {
    no_lines_below(block)?;
    let (name, text) = first_word(rest);
    fragments.put(alloc, name, Vec::from_slice(alloc, text.as_bytes())?)
}

/// CASE, CASE => OUTCOME, or CASE with its outcome in the lines below.
fn judge_case<R: Runtime + AllocGlobal + Threads + Sync, J: Judge>(
    rt: &R,
    block: &Block,
    judge: &mut J,
    record: &mut Record,
) -> Result<(), CaseErr> {
    let alloc = rt.alloc();
    let case = expect(alloc, record, block)?;
    record.came.clear();
    judge.outcome(rt, alloc, &record.fragments, case, &mut record.came)?;
    record.compare(block)
}

/// Notes the outcome that a block expects, a newline at the end of each line, and returns its case.
fn expect<'a>(alloc: Global, record: &mut Record, block: &Block<'a>) -> Result<Case<'a>, CaseErr> {
    record.expected.clear();
    let line = without_remark(block.line);
    let case = match line.split_once(" => ") {
        None => line,
        Some((case, outcome)) => {
            record
                .fragments
                .push_text(alloc, &mut record.expected, outcome)?;
            record.expected.push('\n')?;
            case
        }
    };
    expect_below(alloc, &record.fragments, &block.below, &mut record.expected)?;
    let (kind, words) = first_word(case);
    Ok(Case { kind, words })
}

fn expect_below(
    alloc: Global,
    fragments: &Fragments,
    below: &[&str],
    expected: &mut String,
) -> Result<(), CaseErr> {
    for line in below {
        fragments.push_text(alloc, expected, without_remark(line))?;
        expected.push('\n')?;
    }
    Ok(())
}

/// The line up to its remark.
fn without_remark(line: &str) -> &str {
    match line.split_once(" # ") {
        Some((line, _)) => line,
        None => line,
    }
}
