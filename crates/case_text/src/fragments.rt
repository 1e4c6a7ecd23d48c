//! Bytes as tables write them: hex digits, and names in braces for bytes that lines above defined.

use crate::case_err::CaseErr;
use crate::words::{count, number};
use std::alloc::Global;
use std::collections::BTreeMap;

/// The bytes that the lines above gave names to.
#[derive(Drop)]
pub struct Fragments {
    named: BTreeMap<String, Vec<u8>>,
}

/// What is taken of the bytes of a name.
#[derive(Clone, Copy)]
enum Cut<'a> {
    All,
    /// `*COUNT`: all, so many times.
    Times(&'a str),
    /// `<COUNT`: the first ones.
    Prefix(&'a str),
    /// `>OFFSET`: those from an offset on.
    Suffix(&'a str),
    /// `@OFFSET=HEX`: all, with other bytes from an offset on.
    Edited(&'a str),
}

impl Fragments {
    /// Makes a list of no names.
    pub fn new(alloc: Global) -> Fragments {
        Fragments {
            named: BTreeMap::new(alloc),
        }
    }

    /// Gives bytes a name, which replaces the bytes that had it.
    pub fn put(&mut self, alloc: Global, name: &str, bytes: Vec<u8>) -> Result<(), CaseErr> {
        self.named.insert(String::from_str(alloc, name)?, bytes)?;
        Ok(())
    }

    /// The bytes that a text spells: hex digits, `{NAME}`, `{NAME*COUNT}`, `{NAME<COUNT}`, `{NAME>OFFSET}` and
    /// `{NAME@OFFSET=HEX}`. Spaces between bytes do not count.
    pub fn bytes(&self, alloc: Global, text: &str) -> Result<Vec<u8>, CaseErr> {
        let mut bytes = Vec::new(alloc);
        self.push_bytes(alloc, &mut bytes, text)?;
        Ok(bytes)
    }

    /// Appends the bytes that a text spells, as `bytes` reads it.
    pub fn push_bytes(&self, alloc: Global, out: &mut Vec<u8>, text: &str) -> Result<(), CaseErr> {
        let mut pieces = text.split('{');
        push_digits(alloc, out, pieces.next().unwrap_or(""))?;
        for piece in pieces {
            let (inside, digits) = at_brace(piece)?;
            self.push_named(alloc, out, inside)?;
            push_digits(alloc, out, digits)?;
        }
        Ok(())
    }

    /// Replaces bytes by those that a text spells.
    pub fn refill(&self, alloc: Global, bytes: &mut Vec<u8>, text: &str) -> Result<(), CaseErr> {
        bytes.clear();
        self.push_bytes(alloc, bytes, text)
    }

    /// Replaces a list by the bytes that each word of a text spells.
    pub fn refill_each(
        &self,
        alloc: Global,
        each: &mut Vec<Vec<u8>>,
        text: &str,
    ) -> Result<(), CaseErr> {
        each.clear();
        self.push_each(alloc, each, text)
    }

    /// Appends the bytes that each word of a text spells. The empty text has no words.
    pub fn push_each(
        &self,
        alloc: Global,
        each: &mut Vec<Vec<u8>>,
        text: &str,
    ) -> Result<(), CaseErr> {
        if text.is_empty() {
            return Ok(());
        }
        for word in text.split(' ') {
            self.push_word(alloc, each, word)?;
        }
        Ok(())
    }

    fn push_word(&self, alloc: Global, each: &mut Vec<Vec<u8>>, word: &str) -> Result<(), CaseErr> {
        Ok(each.push(self.bytes(alloc, word)?)?)
    }

    /// Appends a text in which hex digits stand for each brace, and what it contains.
    pub fn push_text(&self, alloc: Global, out: &mut String, text: &str) -> Result<(), CaseErr> {
        let mut pieces = text.split('{');
        out.push_str(pieces.next().unwrap_or(""))?;
        for piece in pieces {
            let (inside, plain) = at_brace(piece)?;
            self.push_named_digits(alloc, out, inside)?;
            out.push_str(plain)?;
        }
        Ok(())
    }

    /// Appends the bytes of what stands in braces, in hex digits.
    fn push_named_digits(
        &self,
        alloc: Global,
        out: &mut String,
        inside: &str,
    ) -> Result<(), CaseErr> {
        let mut bytes = Vec::new(alloc);
        self.push_named(alloc, &mut bytes, inside)?;
        push_hex(alloc, out, &bytes)
    }

    /// Appends the bytes of what stands in braces.
    fn push_named(&self, alloc: Global, out: &mut Vec<u8>, inside: &str) -> Result<(), CaseErr> {
        let (name, cut) = cut_of(inside);
        match self.named.get(name) {
            Some(bytes) => push_cut(alloc, out, bytes, cut),
            None => Err(CaseErr::Lacks("bytes of that name")),
        }
    }
}

/// Appends bytes in hex digits.
pub fn push_hex(alloc: Global, out: &mut String, bytes: &[u8]) -> Result<(), CaseErr> {
    push_str(out, hex::encode(alloc, bytes)?.as_str())
}

/// Appends a text as it is.
pub fn push_str(out: &mut String, text: &str) -> Result<(), CaseErr> {
    out.push_str(text)?;
    Ok(())
}

/// Splits what follows an opening brace at the closing one.
fn at_brace(piece: &str) -> Result<(&str, &str), CaseErr> {
    piece.split_once('}').ok_or(CaseErr::Lacks("a brace"))
}

/// The name that stands in braces, and what is taken of its bytes.
fn cut_of(inside: &str) -> (&str, Cut<'_>) {
    if let Some((name, edit)) = inside.split_once('@') {
        (name, Cut::Edited(edit))
    } else if let Some((name, times)) = inside.split_once('*') {
        (name, Cut::Times(times))
    } else if let Some((name, end)) = inside.split_once('<') {
        (name, Cut::Prefix(end))
    } else if let Some((name, start)) = inside.split_once('>') {
        (name, Cut::Suffix(start))
    } else {
        (inside, Cut::All)
    }
}

fn push_cut(alloc: Global, out: &mut Vec<u8>, bytes: &[u8], cut: Cut) -> Result<(), CaseErr> {
    match cut {
        Cut::All => push_all(out, bytes),
        Cut::Times(times) => push_times(out, bytes, times),
        Cut::Prefix(end) => push_all(out, prefix(bytes, count(end)?)?),
        Cut::Suffix(start) => push_all(out, suffix(bytes, count(start)?)?),
        Cut::Edited(edit) => push_edit(alloc, out, bytes, edit),
    }
}

fn push_all(out: &mut Vec<u8>, bytes: &[u8]) -> Result<(), CaseErr> {
    out.extend_from_slice(bytes)?;
    Ok(())
}

fn push_times(out: &mut Vec<u8>, bytes: &[u8], times: &str) -> Result<(), CaseErr> {
    for _ in 0..number(times)? {
        push_all(out, bytes)?;
    }
    Ok(())
}

/// Appends the bytes that digits spell. Spaces between bytes do not count.
fn push_digits(alloc: Global, out: &mut Vec<u8>, digits: &str) -> Result<(), CaseErr> {
    for digits in digits.split(' ') {
        out.extend_from_slice(&hex::decode(alloc, digits)?)?;
    }
    Ok(())
}

/// OFFSET=HEX: appends bytes, of which those from the offset on are replaced by others.
fn push_edit(alloc: Global, out: &mut Vec<u8>, bytes: &[u8], edit: &str) -> Result<(), CaseErr> {
    let (offset, digits) = edit.split_once('=').ok_or(CaseErr::Lacks("new bytes"))?;
    let offset = count(offset)?;
    push_edited(out, bytes, offset, &hex::decode(alloc, digits)?)
}

fn push_edited(
    out: &mut Vec<u8>,
    bytes: &[u8],
    offset: usize,
    other: &[u8],
) -> Result<(), CaseErr> {
    push_all(out, prefix(bytes, offset)?)?;
    push_all(out, other)?;
    push_all(out, suffix(bytes, offset.saturating_add(other.len()))?)
}

fn prefix(bytes: &[u8], end: usize) -> Result<&[u8], CaseErr> {
    bytes.get(..end).ok_or(CaseErr::Lacks("so many bytes"))
}

fn suffix(bytes: &[u8], start: usize) -> Result<&[u8], CaseErr> {
    bytes.get(start..).ok_or(CaseErr::Lacks("so many bytes"))
}
