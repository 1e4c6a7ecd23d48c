//! Makes a transaction set, a ledger on which it runs, and their files: transactions that call contracts which are drawn at
//! random.
#![tactic(auto)]

mod contracts;
mod draws;
mod files;
mod ledger;
mod set;

pub use files::{Generated, generate};
pub use ledger::generated_ledger;
pub use set::generated_set;
