//! Ledgers in memory, ledger files and verdict files.
#![tactic(auto)]

mod error;
mod laws;
mod ledger;
mod reading;
mod records;
mod rules;
mod verdicts;
mod writing;

pub use error::LedgerErr;
pub use laws::files_are_ledgers;
pub use ledger::Ledger;
pub use reading::read_ledger;
pub use verdicts::read_verdicts;
pub use writing::write_ledger;
