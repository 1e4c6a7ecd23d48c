//! The budget of one transaction: the instructions and the memory that it may spend, and the cost of each act.
#![tactic(auto)]

mod budget;
mod kind;
mod terms;

pub use budget::{Budget, Limits, Spent, Used};
pub use kind::Kind;
pub use terms::{KindTerms, LinearCost, Terms};
