//! Runs of `soroban_why`.

use crate::words::text_of;
use case_text::{CaseErr, push_hex, push_str};
use edge_io::{MemFiles, MemSay, Word};
use std::alloc::Global;
use std::fmt::Write;
use why_top::why;

/// Runs the program over files in memory. Appends its exit code and what it said: the text for a case `why`, its bytes in hex
/// digits for a case `said`.
pub fn run_why(
    alloc: Global,
    kind: &str,
    words: &[Word],
    files: &mut MemFiles,
    say: &mut MemSay,
    out: &mut String,
) -> Result<(), CaseErr> {
    let code = why(alloc, words, files, say);
    write!(out, "{code} ")?;
    match kind {
        "why" => push_text(out, say.text()),
        _ => push_digits(alloc, out, say.text()),
    }
}

fn push_text(out: &mut String, said: &[u8]) -> Result<(), CaseErr> {
    push_str(out, text_of(said, "text in what is said")?)
}

fn push_digits(alloc: Global, out: &mut String, said: &[u8]) -> Result<(), CaseErr> {
    push_hex(alloc, out, said)?;
    push_str(out, "\n")
}
