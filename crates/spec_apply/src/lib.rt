//! Applies a plain list of envelopes to a ledger. Their declared footprints are not trusted. Workers run all envelopes on the
//! opening ledger. Then, in order, a run is kept if the ledger still has the same at the keys of the footprint that the run
//! needs. Another envelope runs again, on the ledger as it is then.
#![tactic(auto)]

mod codes;
mod job;
mod list;
mod moved;
mod naming;
mod order;
mod pass;
mod run;
mod same;

pub use ledger_apply::{Applied, ApplyErr, Logged, apply_logged, apply_set};
pub use list::{Listed, apply_list};
