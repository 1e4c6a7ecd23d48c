//! Words of commands, and files of hex digits.

use case_text::{CaseErr, Fragments};
use edge_io::Word;
use std::alloc::{AllocError, Global};

/// Makes one word of a command from its text.
pub fn word(alloc: Global, text: &str) -> Result<Word, AllocError> {
    Ok(Word::new(String::from_str(alloc, text)?))
}

/// The words of a command, with one space between each and the next. `''` is the empty word, and a name in braces stands
/// for the words of its text.
pub fn words_of(alloc: Global, fragments: &Fragments, text: &str) -> Result<Vec<Word>, CaseErr> {
    let mut words = Vec::new(alloc);
    if !text.is_empty() {
        for part in text.split(' ') {
            push_part(alloc, fragments, &mut words, part)?;
        }
    }
    Ok(words)
}

fn push_part(
    alloc: Global,
    fragments: &Fragments,
    words: &mut Vec<Word>,
    part: &str,
) -> Result<(), CaseErr> {
    if part.starts_with('{') {
        let bytes = fragments.bytes(alloc, part)?;
        return push_words(alloc, words, &bytes);
    }
    words.push(word(alloc, if part == "''" { "" } else { part })?)?;
    Ok(())
}

fn push_words(alloc: Global, words: &mut Vec<Word>, text: &[u8]) -> Result<(), CaseErr> {
    for part in text_of(text, "text of that name")?.split(' ') {
        words.push(word(alloc, part)?)?;
    }
    Ok(())
}

/// The text that bytes spell.
pub fn text_of<'a>(bytes: &'a [u8], what: &'static str) -> Result<&'a str, CaseErr> {
    std::str::from_utf8(bytes).ok().ok_or(CaseErr::Lacks(what))
}

/// The bytes of a text of hex digits, in which spaces do not count and `#` begins a remark.
pub fn hex_digits(alloc: Global, text: &str) -> Result<Vec<u8>, CaseErr> {
    let mut bytes = Vec::new(alloc);
    for line in text.lines() {
        let digits = match line.split_once('#') {
            Some((digits, _)) => digits,
            None => line,
        };
        for digits in digits.split_ascii_whitespace() {
            bytes.extend_from_slice(&hex::decode(alloc, digits)?)?;
        }
    }
    Ok(bytes)
}
