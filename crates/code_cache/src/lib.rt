//! Codes that threads share, each loaded where it is first needed. A module's meaning is its code's, whichever thread loaded it.
#![tactic(auto)]

mod cache;
mod held;
mod loaded;

pub use cache::{Cache, Code, Got};
pub use held::{HeldModule, module_for};
pub use loaded::Loaded;
