//! Laws of the words of values: the word that stands for a value, read back, is that value.
//!
//! The crate has laws only. Words are defined in `host_spec`: `small_word` and `object_word` write them, `meaning` reads them.
#![tactic(auto)]

mod laws;

pub use laws::{
    object_words_are_read, shown_words_are_read, small_values_have_ranges, small_words_are_read,
    small_words_are_unique,
};
