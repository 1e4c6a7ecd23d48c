//! The host's meaning: what the words of a contract stand for, and what each function over values does, as functions of plain
//! values.
#![tactic(auto)]

mod error;
mod laws;
mod tag;

pub use error::{HostErr, ValueErr};
pub use laws::rows_stand_in_order;
pub use tag::Tag;
