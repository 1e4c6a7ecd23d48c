//! The words that a contract works with: the small forms of values by their bits. Takes no memory.
#![tactic(auto)]

mod characters;
mod reading;
mod symbols;
mod val;
mod writing;

pub use characters::is_character;
pub use reading::scalar_of;
pub use val::Val;
pub use writing::small_word;
