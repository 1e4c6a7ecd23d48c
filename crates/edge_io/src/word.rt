//! A word of the command line, such as the name of a file.

ghost use Rattle.std.specs.Prelude.{◌≡◌, ◌≤◌, [], IfOk, All, fold, length, max, string_bytes};

use std::alloc::{AllocError, Global};
use std::convert::AsStr;
use std::marker::Model;

/// A word of the command line.
#[derive(Debug, Drop)]
pub struct Word {
    text: String,
}

impl Model for Word {
    ghost use Rattle.std.specs.Prelude.{List, ℕ, string_bytes};

    ghost Value = { List ℕ };

    ghost view = { λ w. string_bytes w.text };
}

impl Word {
    /// Takes the text over. Takes no memory.
    pub fn new(text: String) -> Word
        ensures { result ≡ string_bytes text }
    {
        Word { text }
    }

    /// The empty word. Takes no memory.
    pub fn empty(alloc: Global) -> Word
        ensures { result ≡ [] }
    {
        Word::new(String::new(alloc))
    }

    /// The text, lent.
    pub fn as_str(&self) -> &str
        ensures { result.now ≡ self.now }
    {
        self.text.as_str()
    }
}

impl Clone for Word {
    ghost is_clone = { λ v w. w ≡ v };

    fn clone(&self) -> Result<Word, AllocError>
        ensures { IfOk result (λ w. w ≡ self.now) }
    {
        let text = self.text.clone()?;
        Ok(Word::new(text))
    }
}

impl AsStr for Word {
    ghost text = { λ w. w };

    fn as_str(&self) -> &str {
        self.text.as_str()
    }
}

/// The length of the longest word in bytes, 0 if there are none. No name of a file that the words give is longer.
pub fn longest(words: &[Word]) -> usize
    ensures exact { result ≡ fold (λ most word. max most (length word)) 0 words.now }
    ensures none_longer { All (λ word. length word ≤ result) words.now }
{
    words
        .iter()
        .map(|word| word.as_str().len())
        .max()
        .unwrap_or(0)
}
