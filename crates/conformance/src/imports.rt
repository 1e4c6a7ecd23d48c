//! The host interface.

use case_text::{CaseErr, first_word, push_str};
use host_interface::{HOST_ROWS, TableRow};
use std::fmt::Write;

/// Writes the number of functions of the host interface.
pub fn interface(out: &mut String) -> Result<(), CaseErr> {
    let count = HOST_ROWS.len();
    writeln!(out, "{count} functions")?;
    Ok(())
}

/// MODULE NAME: the kinds of the function's arguments and of its result, or none if the host has no such function.
pub fn import(words: &str, out: &mut String) -> Result<(), CaseErr> {
    let (letter, name) = first_word(words);
    push_import(&HOST_ROWS, letter, name, out)
}

fn push_import(
    rows: &[TableRow],
    letter: &str,
    name: &str,
    out: &mut String,
) -> Result<(), CaseErr> {
    for row in rows {
        if row.letter == letter && row.name == name {
            return push_signature(out, row);
        }
    }
    push_str(out, "none\n")
}

fn push_signature(out: &mut String, row: &TableRow) -> Result<(), CaseErr> {
    for argument in row.arguments {
        write!(out, "{argument:?} ")?;
    }
    let result = row.result;
    writeln!(out, "-> {result:?}")?;
    Ok(())
}
