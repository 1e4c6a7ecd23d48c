//! The reader of WebAssembly modules (core section 5).
#![tactic(auto)]

mod binary;
mod code;
mod error;
mod head;
mod input;
mod instructions;
mod module;
mod numbers;
mod parts;

pub use error::ReadModErr;
pub use module::read_module;
