//! Finds the ledger entry of a key: the trait `Ground`, of a whole ledger or of a part of one.
#![tactic(auto)]

mod ground;

pub use ground::{Found, Ground};
