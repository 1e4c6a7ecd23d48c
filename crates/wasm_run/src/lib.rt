//! Calls of exports of a valid module, which pause at each call of an import (core section 4.5).
#![tactic(auto)]

mod constants;
mod error;
mod export;
mod instance;
mod laws;
mod placing;
mod prepare;
mod segments;
mod trap;

pub use error::StartErr;
pub use export::function_named;
pub use instance::{CallPhase, Event, Instance};
pub use laws::{
    count_never_ends, each_spends, events_fold, never_breaks, same_with_more, sums_grow,
};
pub use prepare::{Beginning, begin};
pub use trap::trap_error;
