//! Definitions of demands for authorisation, and of what meets them (CAP-0046-11): authorisation entries, or a recorder, which
//! notes them.
#![tactic(auto)]

mod demand;
mod point;

pub use demand::Demand;
pub use point::Point;
