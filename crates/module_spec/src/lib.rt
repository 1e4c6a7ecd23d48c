//! Definitions of the modules that the host takes: validation as functions on types, linking with the host interface, and loading
//! from bytes. Laws that these functions are exactly the standard's relations stand in `module_loader`.
#![tactic(auto)]

mod flaw;

pub use flaw::Flaw;
