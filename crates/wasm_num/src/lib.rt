//! The numeric instructions, loads and stores of WebAssembly (core sections 4.3.2, 4.3.4 and 4.4.4).
//!
//! An integer of either type is a `u64` below 2^width, and the type is an argument. Nothing here allocates.
#![tactic(auto)]

mod bytes;
mod comparisons;
mod conversions;
mod counts;
mod operations;
mod signs;
mod two_operands;
mod widths;

pub use bytes::{load, store};
pub use conversions::convert;
pub use counts::unary;
pub use operations::{compared, tested};
pub use two_operands::binary;
