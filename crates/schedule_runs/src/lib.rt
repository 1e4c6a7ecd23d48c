//! Runs transaction sets by a schedule: the transactions of a stage in any order that keeps the order of each cluster, all on one
//! map of the entries. A run may stop after any transaction.
#![tactic(auto)]

mod complete;
mod error;
mod lane;
mod laws;
mod order;
mod schedule;
mod set;
mod stage;

pub use error::SchedErr;
pub use laws::whole_schedules;
pub use schedule::{Order, Schedule, read_schedule};
pub use set::run_schedule;
