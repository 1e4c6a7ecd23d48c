//! Instance storage of the running frame.
//!
//! A put is refused if it makes the instance too large or too deep. [`InstanceStorage`] keeps the size of its entries, so a put
//! measures only the entry that it puts and the one that it replaces.
#![tactic(auto)]

mod entries;
mod storage;

pub use storage::{InstanceStorage, Unput};
