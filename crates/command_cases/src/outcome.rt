//! The text of an outcome: the status, what was said, and the files that were stored.

use crate::words::text_of;
use case_text::{CaseErr, push_hex, push_str};
use edge_io::Word;
use sha2::{Digest, Sha256};
use soroban_top::Status;
use std::alloc::Global;
use std::fmt::Write;

/// The length of a stored file up to which its bytes are shown.
const LONGEST_SHOWN: usize = 4096;

/// Appends the line of the status, which goes on with the first line that was said, and the other lines.
pub fn push_outcome(out: &mut String, status: &Status, said: &[u8]) -> Result<(), CaseErr> {
    let code = status.code();
    write!(out, "{code}")?;
    if let Status::Fault { name } = status {
        let name = name.as_str();
        write!(out, " '{name}'")?;
    }
    push_said(out, text_of(said, "text in what is said")?)
}

/// Appends what was said, line by line. A last line without its end is marked.
fn push_said(out: &mut String, said: &str) -> Result<(), CaseErr> {
    for (i, line) in said.split_inclusive('\n').enumerate() {
        out.push_str(if i == 0 { " " } else { "\n" })?;
        push_line(out, line)?;
    }
    push_str(out, "\n")
}

fn push_line(out: &mut String, line: &str) -> Result<(), CaseErr> {
    match line.strip_suffix('\n') {
        Some(line) => out.push_str(line)?,
        None => write!(out, "{line}[cut]")?,
    }
    Ok(())
}

/// The name of a file that a word may be or contain: the word, or what stands behind its equals sign.
pub fn name_in(word: &Word) -> &str {
    match word.as_str().split_once('=') {
        Some((_, name)) => name,
        None => word.as_str(),
    }
}

/// Appends a line if the file of this name is not what it was. Returns whether it did.
pub fn push_stored(
    alloc: Global,
    out: &mut String,
    name: &str,
    before: Option<&[u8]>,
    after: Option<&[u8]>,
) -> Result<bool, CaseErr> {
    if before == after {
        return Ok(false);
    }
    match after {
        Some(bytes) if bytes.len() > LONGEST_SHOWN => push_sum(alloc, out, name, bytes)?,
        Some(bytes) => push_content(alloc, out, name, bytes)?,
        None => writeln!(out, "removes {name}")?,
    }
    Ok(true)
}

fn push_sum(alloc: Global, out: &mut String, name: &str, bytes: &[u8]) -> Result<(), CaseErr> {
    let length = bytes.len();
    write!(out, "stores {name} {length} bytes, SHA-256 ")?;
    push_hex(alloc, out, &Sha256::digest(bytes))?;
    push_str(out, "\n")
}

fn push_content(alloc: Global, out: &mut String, name: &str, bytes: &[u8]) -> Result<(), CaseErr> {
    write!(out, "stores {name} ")?;
    push_hex(alloc, out, bytes)?;
    push_str(out, "\n")
}
