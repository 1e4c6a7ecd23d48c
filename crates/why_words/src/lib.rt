//! The words of `soroban_why`: which are right, and the request that they make.
#![tactic(auto)]

mod command;
mod matches;
mod request;
mod words;

pub use request::{Form, Request, Target};
pub use words::{NoRequest, request_of};
