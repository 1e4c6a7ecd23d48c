//! Parts of the host that run so often, or over so much, that their time can be measured from outside.

mod calls;

use crate::ledgers::{make, push_no_ledger, small_number};
use crate::modules::{Asked, push_judged};
use crate::spellings::Spelling;
use crate::types::spelling_of;
use case_text::{CaseErr, Fragments, first_word, number};
use entry_map::EntryMap;
use ledger_file::read_ledger;
use std::alloc::Global;
use std::fmt::Write;
use std::process::ExitCode;
use std::rt::Runtime;
use std::{env, fs};

/// A contract's data entry. The last four bytes of the contract's id are a number.
const ENTRY: [u8; 76] = [
    0, 0, 0, 50, 0, 0, 0, 6, 0, 0, 0, 0, 0, 0, 0, 1, 0, 0, 0, 0, 0, 0, 0, 0, 0, 0, 0, 0, 0, 0, 0,
    0, 0, 0, 0, 0, 0, 0, 0, 0, 0, 0, 0, 0, 0, 0, 0, 0, 0, 0, 0, 15, 0, 0, 0, 2, 97, 99, 0, 0, 0, 0,
    0, 1, 0, 0, 0, 3, 0, 0, 0, 41, 0, 0, 0, 0,
];

/// A prime, so that the numbers of consecutive entries are far apart.
const STEP: u32 = 99_991;

/// Whether the program's first word is `bench`.
pub fn is_asked<R: Runtime + AllocGlobal>(rt: &R) -> Result<bool, CaseErr> {
    match env::args(rt)?.skip(1).next() {
        Some(word) => Ok(word.as_str() == "bench"),
        None => Ok(false),
    }
}

/// `bench` PART HOW PATH: runs the part on a file, and prints its line.
pub fn run<R: Runtime + AllocGlobal>(rt: &R) -> Result<ExitCode, CaseErr> {
    let mut words = String::new(rt.alloc());
    for word in env::args(rt)?.skip(2) {
        words.push_str(word.as_str())?;
        words.push(' ')?;
    }
    print_line(rt, words.as_str().trim_end())
}

fn print_line<R: Runtime + AllocGlobal>(rt: &R, words: &str) -> Result<ExitCode, CaseErr> {
    let (part, rest) = first_word(words);
    let (how, path) = first_word(rest);
    let mut line = String::new(rt.alloc());
    bench(rt.alloc(), part, how, &fs::read(rt, path)?, &mut line)?;
    rt.print(line)?;
    Ok(ExitCode::SUCCESS)
}

/// PART HOW FILE: the line of a part that is run on a file.
pub fn bench_case(
    alloc: Global,
    fragments: &Fragments,
    words: &str,
    out: &mut String,
) -> Result<(), CaseErr> {
    let (part, rest) = first_word(words);
    let (how, file) = first_word(rest);
    bench(alloc, part, how, &fragments.bytes(alloc, file)?, out)
}

fn bench(
    alloc: Global,
    part: &str,
    how: &str,
    file: &[u8],
    out: &mut String,
) -> Result<(), CaseErr> {
    match part {
        "set" => rewrite(alloc, file, number(how)?, out),
        "entries" => grow(alloc, file, small_number(how)?, out),
        "calls" => calls::call_often(alloc, file, how, out),
        "export" => {
            let kind = "export";
            push_judged(alloc, file, Asked { kind, rest: how }, out)
        }
        _ => Err(CaseErr::Lacks("a part that can be run")),
    }
}

/// Reads and writes a set so many times.
fn rewrite(alloc: Global, set: &[u8], times: u64, out: &mut String) -> Result<(), CaseErr> {
    for _ in 0..times {
        match spelling_of(alloc, "set-file", set)? {
            Spelling::Same(_) => {}
            _ => return Err(CaseErr::Lacks("a set")),
        }
    }
    let size = set.len();
    writeln!(out, "{size} bytes")?;
    Ok(())
}

/// Makes so many entries in a ledger.
fn grow(alloc: Global, ledger: &[u8], count: u32, out: &mut String) -> Result<(), CaseErr> {
    match read_ledger(alloc, ledger, true) {
        Ok(mut ledger) => make_all(alloc, &mut ledger.entries, count, out),
        Err(error) => push_no_ledger(out, error),
    }
}

fn make_all(
    alloc: Global,
    entries: &mut EntryMap,
    count: u32,
    out: &mut String,
) -> Result<(), CaseErr> {
    let size = entries.len() as u32;
    if size == 0 {
        return Err(CaseErr::Lacks("a ledger with entries"));
    }
    for i in 0..count {
        make_number(alloc, entries, i.wrapping_mul(STEP) % size)?;
    }
    let number = entries.len();
    writeln!(out, "{number} entries")?;
    Ok(())
}

/// Makes the entry with this number, which lives until ledger 1000.
fn make_number(alloc: Global, entries: &mut EntryMap, number: u32) -> Result<(), CaseErr> {
    let mut entry = ENTRY;
    entry[44..48].copy_from_slice(&number.to_be_bytes());
    let _made = make(alloc, entries, &entry, 101, 1000)?;
    Ok(())
}
