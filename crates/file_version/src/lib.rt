//! The versions of ledger files, and how each has the protocol.
#![tactic(auto)]

mod version;

pub use version::{FileVersion, protocol_size, read_protocol, write_protocol};
