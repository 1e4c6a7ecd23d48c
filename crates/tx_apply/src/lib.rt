//! Checks, runs and simulates one transaction over the entries of a ledger. The steps that run no contract stand in `tx_steps`.
#![tactic(auto)]

mod authority;
mod call;
mod envelope;
mod footprint;
mod needs;
mod recording;
mod run;
mod simulating;
mod transaction;

pub use authority::source_of;
pub use call::budget_of;
pub use contract_call::{Host, enter_all};
pub use envelope::{TxDone, enforce, enforce_watched};
pub use run::run_job;
pub use simulating::{Simulated, simulate, simulate_watched, simulate_with};
pub use tx_steps::{Job, job_of, read_only_of, read_write_of, refusal_of, values};
