//! What a run of a transaction did, in lines that an observer keeps: calls, accesses, demands and events.
#![tactic(auto)]

mod calls;
mod copies;
mod json;
mod laws;
mod line;
mod names;
mod short;
mod sizes;
mod summary;
mod telling;
mod tested;
mod text;
mod trace;

pub use json::document;
pub use laws::seen_accesses_are_shown;
pub use line::{Ending, Line, Manner, What};
pub use summary::{Bytes, Summary, push_bytes};
pub use text::{push_archived, push_events, push_lines};
pub use trace::Trace;
