//! Runs the jobs of a list on several worker threads.
#![tactic(auto)]

mod work;
mod workers;

pub use work::Work;
pub use workers::run_each;
