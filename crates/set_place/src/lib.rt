//! The transaction at a place of a set: brings a ledger into the state that it meets there.
#![tactic(auto)]

mod cluster;
mod error;
mod laws;
mod place;
mod set;
mod stage;

pub use error::PlaceErr;
pub use laws::places_are_reported;
pub use place::Place;
pub use set::{Reached, reach};
