//! The steps that prove an authorisation entry, but for the run of a contract's own function.
//!
//! `ask` does what call_spec's `proves_entry` does before that run: it uses the nonce, charges for the payload and asks the
//! address. What is left then is an `Asked`: nothing, or the call of the contract's `__check_auth`. `proofs/Splitting` says that
//! the first part and the rest are `proves_entry`.
//!
//! 1. A clause has the act of call_spec that the function carries out, word for word: `Steps` of call_parts over the ledger and
//!    the budget, `Charges` if only the budget changes.
//! 2. The nonce's charge comes after its entry is made. If it exceeds a limit, the run ends and its writes are dropped, so the
//!    order cannot be seen.
//! 3. The payload is charged before it is hashed, and each argument before it is tested. What comes before a charge is linear in
//!    the entry.
#![tactic(auto)]

mod arguments;
mod asking;
mod contexts;
mod entering;
mod errors;
mod nonces;
mod payloads;

pub use asking::{Asked, ask};
pub use entering::enter_all;
