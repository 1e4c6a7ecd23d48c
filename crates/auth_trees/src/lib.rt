//! Authorisation entries and the demands that they meet (CAP-0046-11).
#![tactic(auto)]

mod authority;
mod entries;
mod laws;
mod marks;
mod nodes;
mod records;
mod search;
mod tables;
mod telling;

pub use authority::{Authorising, Authority};
pub use entries::is_caller;
pub use laws::{
    authority_goes_back, authority_is_later, later_is_later, matched_entry_is_there,
    matched_is_of_address, restore_goes_back,
};
pub use marks::Marks;
