//! Base64, and the pieces of lines.

use crate::hashes::push_hex_line;
use crate::modules::push_line;
use base64_text::{TextErr, decode_text};
use case_text::{CaseErr, Fragments, first_word, number, push_str};
use std::alloc::Global;
use text_lines::{push_hex, push_number, push_signed};

/// BYTES of a text: the bytes of which it is the Base64 encoding.
pub fn base64(
    alloc: Global,
    fragments: &Fragments,
    words: &str,
    out: &mut String,
) -> Result<(), CaseErr> {
    match decode_text(alloc, &fragments.bytes(alloc, words)?) {
        Ok(bytes) => push_hex_line(alloc, out, &bytes),
        Err(TextErr::NotBase64) => push_str(out, "not base64\n"),
        Err(TextErr::NoMemory) => Err(CaseErr::NoMemory),
    }
}

/// NUMBER SIGNED BYTES: the three as pieces of a line.
pub fn pieces(
    alloc: Global,
    fragments: &Fragments,
    words: &str,
    out: &mut String,
) -> Result<(), CaseErr> {
    let (unsigned, rest) = first_word(words);
    let (signed, bytes) = first_word(rest);
    let bytes = fragments.bytes(alloc, bytes)?;
    let mut line = Vec::new(alloc);
    push_pieces(
        alloc,
        &mut line,
        number(unsigned)?,
        signed_number(signed)?,
        &bytes,
    )?;
    push_line(out, &line)
}

fn signed_number(text: &str) -> Result<i64, CaseErr> {
    text.parse::<i64>()
        .ok()
        .ok_or(CaseErr::Lacks("a number with a sign"))
}

fn push_pieces(
    alloc: Global,
    line: &mut Vec<u8>,
    unsigned: u64,
    signed: i64,
    bytes: &[u8],
) -> Result<(), CaseErr> {
    push_number(line, unsigned, b" ")?;
    push_signed(line, signed, b" ")?;
    push_hex(alloc, line, bytes, b"\n")?;
    Ok(())
}
