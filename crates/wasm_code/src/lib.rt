//! Flat code, in which branches lead to steps by their index, and the compiler to it.
#![tactic(auto)]

mod emit;
mod labels;
mod op;
mod step;
mod types;

pub use emit::compile;
pub use op::{Op, Steps};
pub use step::{FlatCode, Step, Target};
pub use types::{
    converted_from, converted_to, function_type, load_type, store_type, type_at, type_index_at,
};
