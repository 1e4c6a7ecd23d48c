//! The words of contracts.

use crate::errors::unread;
use case_text::{CaseErr, Fragments, hex_number, push_str};
use object_store::{Objects, Ref, Shown, TakeErr};
use std::alloc::Global;
use std::fmt::Write;
use tagged_val::{Val, small_word};
use value_types::ScVal;
use value_xdr::decode;

/// VALUE: the word that is its small form, if it has one. The word has to mean the value.
pub fn small(
    alloc: Global,
    fragments: &Fragments,
    words: &str,
    out: &mut String,
) -> Result<(), CaseErr> {
    push_small(alloc, out, &fragments.bytes(alloc, words)?)
}

fn push_small(alloc: Global, out: &mut String, value: &[u8]) -> Result<(), CaseErr> {
    match decode::<ScVal>(alloc, value) {
        Ok(value) => push_small_form(alloc, out, &value),
        Err(error) => Err(unread(error, "a value")),
    }
}

fn push_small_form(alloc: Global, out: &mut String, value: &ScVal) -> Result<(), CaseErr> {
    match small_word(value) {
        None => out.push_str("none\n")?,
        Some(word) => {
            let number = word.0;
            let remark = if means(alloc, word, value)? {
                ""
            } else {
                " does not mean the value"
            };
            writeln!(out, "{number:x}{remark}")?;
        }
    }
    Ok(())
}

/// Whether a word means a value in a frame that has shown nothing.
fn means(alloc: Global, word: Val, value: &ScVal) -> Result<bool, CaseErr> {
    let objects = Objects::new(alloc);
    let shown = Shown::new(alloc);
    match objects.take(&shown, word) {
        Ok(meant) => Ok(meant == *value),
        Err(TakeErr::Bad) => Ok(false),
        Err(TakeErr::NoMemory) => Err(CaseErr::NoMemory),
    }
}

/// WORD: what the word is in a frame that has shown nothing.
pub fn word(alloc: Global, words: &str, out: &mut String) -> Result<(), CaseErr> {
    push_str(out, name_of(alloc, Val(hex_number(words)?)))
}

fn name_of(alloc: Global, word: Val) -> &'static str {
    let objects = Objects::new(alloc);
    let shown = Shown::new(alloc);
    match objects.resolve(&shown, word) {
        Ok(Ref::Small(_)) => "small\n",
        Ok(Ref::Object(_)) => "object\n",
        Err(_) => "bad\n",
    }
}
