//! Applies a transaction set to a ledger: its stages one after the other, the clusters of a stage by workers, each on its part of
//! the ledger, and the transactions of a cluster one after the other. The steps that run no transaction stand in `set_steps`.
#![tactic(auto)]

mod cluster;
mod error;
mod job;
mod parts;
mod set;
mod stage;
mod step;

pub use cluster::run_cluster;
pub use error::ApplyErr;
pub use job::ClusterWork;
pub use set::{Applied, Logged, apply_logged, apply_set};
pub use stage::{run_component, run_stage};
pub use step::run_transaction;
pub use tx_apply::{TxDone, simulate_with};
