//! The lines that `show` prints: of transaction sets, envelopes, ledgers and values.
#![tactic(auto)]

mod ledgers;
mod sets;

pub use ledgers::{ledger_lines, value_line};
pub use sets::{envelope_line, set_lines};
