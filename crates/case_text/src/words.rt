//! The words and numbers of a line.

use crate::case_err::CaseErr;
use std::alloc::Global;

/// Splits a text at its first space. Behind the last word there is the empty text.
pub fn first_word(text: &str) -> (&str, &str) {
    text.split_once(' ').unwrap_or((text, ""))
}

/// Reads a decimal number.
pub fn number(text: &str) -> Result<u64, CaseErr> {
    text.parse::<u64>().ok().ok_or(CaseErr::Lacks("a number"))
}

/// Reads a decimal number of items.
pub fn count(text: &str) -> Result<usize, CaseErr> {
    text.parse::<usize>().ok().ok_or(CaseErr::Lacks("a count"))
}

/// Reads a number in base 16.
pub fn hex_number(text: &str) -> Result<u64, CaseErr> {
    u64::from_str_radix(text, 16)
        .ok()
        .ok_or(CaseErr::Lacks("a number in base 16"))
}

/// Reads numbers in base 16 with one space between each and the next. The empty text has none.
pub fn hex_numbers(alloc: Global, text: &str) -> Result<Vec<u64>, CaseErr> {
    let mut numbers = Vec::new(alloc);
    if !text.is_empty() {
        for word in text.split(' ') {
            numbers.push(hex_number(word)?)?;
        }
    }
    Ok(numbers)
}
