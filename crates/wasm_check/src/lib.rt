//! Validation of WebAssembly modules (core section 3), and linking of valid modules with the host interface.
#![tactic(auto)]

mod code;
mod context;
mod error;
mod linking;
mod module;
mod names;
mod operands;
mod outside;
mod signature;

pub use error::CheckErr;
pub use linking::host_row;
pub use module::{ValidModule, check};
pub use names::same_name;
