//! Finds the authorisation entries that a transaction needs: runs it with a recorder, which notes the demands for accounts.
#![tactic(auto)]

mod bounded;
mod record;
mod spelled;
mod trees;

pub use record::{Recorded, record_auth, record_auth_with};
pub use tx_apply::{Simulated, simulate};
