//! Demands noted by a recorder: which entries have to be signed.
#![tactic(auto)]

mod forest;
mod keys;
mod noted;
mod numbers;
mod recorder;

pub use keys::{place_key, row_key};
pub use noted::Noted;
pub use recorder::Recorder;
