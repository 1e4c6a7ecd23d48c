//! Where lists of values differ, and which of many lists may be the same as another one.
#![tactic(auto)]

mod cases;
mod comparing;
mod place;

pub use cases::{Cases, Numbered};
pub use comparing::same_until;
pub use place::differ_at;
