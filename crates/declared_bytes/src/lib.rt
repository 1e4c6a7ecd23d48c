//! What counts of the entries at the keys that a call declares: which are archived, and the bytes that are read and written.
#![tactic(auto)]

mod archived;
mod read;
mod written;

pub use archived::archived_keys;
pub use read::read_bytes;
pub use written::written_bytes;
