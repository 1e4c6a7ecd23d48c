//! Calls of the host's functions over values: by the function of the host interface, or by its module and its name.
#![tactic(auto)]

mod arity;
mod binary;
mod call;
mod named;
mod nullary;
mod quaternary;
mod ternary;
mod unary;

pub use arity::words_taken;
pub use call::call_function;
pub use named::{HostValues, value_call};
