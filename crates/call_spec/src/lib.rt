//! What contracts do to a ledger: accesses of storage, host functions, calls, creates, and the run of a transaction, as functions
//! of plain values over a map of all entries.
#![tactic(auto)]

mod laws;

pub use laws::{
    accesses_change_the_map, frames_lower_no_sums, functions_have_rules, operations_are_framed,
    runs_are_local, runs_fold, runs_keep_entries_well, runs_keep_what_they_do_not_write,
    runs_meet_no_archived_entry,
};
