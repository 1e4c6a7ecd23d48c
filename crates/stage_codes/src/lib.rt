//! Finds the codes that the transactions of a stage share.
#![tactic(auto)]

mod found;
mod stage;

pub use found::{Codes, in_order};
pub use stage::{cluster_codes, stage_codes};
