//! The change log of a ledger: which entries each transaction and each end of a stage changed, and plays of a log on a ledger,
//! forwards and backwards.
#![tactic(auto)]

mod change;
mod entry;
mod error;
mod group;
mod groups;
mod laws;
mod log;
mod playing;
mod read;

pub use change::LedgerEntryChange;
pub use entry::LoggedEntry;
pub use error::{ListIndex, PlayErr};
pub use groups::{Changed, log_changes, push_changes};
pub use laws::{groups_are_read, groups_by_key, groups_lead, logs_play_back};
pub use log::{Changes, Log, LoggedStage, read_log, write_log};
pub use playing::play;
