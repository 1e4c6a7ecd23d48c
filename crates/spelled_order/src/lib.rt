//! Compares values by their XDR bytes, without writing the bytes and without memory.
#![tactic(auto)]

mod plain;
mod ranked;
mod text;
mod values;

pub use ranked::{Ranked, cmp_word};
pub use text::cmp_text;
pub use values::cmp_value;
