//! Builds a transaction set from a list of envelopes: stages of clusters that do not conflict.
#![tactic(auto)]

mod counting;
mod declarer;
mod envelope_keys;
mod last_stage;
mod met;
mod moving;
mod place;
mod plan;
mod set;
mod sizes;

pub use counting::{Counts, counts_of};
pub use set::{build, built_stages_are_sound, meets_is_conflict};
