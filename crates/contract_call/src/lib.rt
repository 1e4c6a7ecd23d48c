//! Calls, creates and uploads, as a transaction asks for them, with all calls that the contracts make.
//!
//! 1. A frame runs its code in an instance of `wasm_run`, which stops at each call of an import. `answer` finds the crate whose
//!    function it is, or makes the call itself, and the instance goes on with the word. So a call runs above its caller's frame,
//!    and a cycle of functions carries them, at most 64 frames deep. A demand of authorisation is part of the cycle: a contract
//!    that is asked runs in a frame of its own.
//! 2. All of it works on a `Host` of call_host, which opens and closes the frames. call_host also has what a call does before its
//!    frame runs, and the clauses that compare a function with an act of call_spec (`DoesAround`, `DoesIn` and so on).
//! 3. `Stays` of call_host says what a call may not touch: the ledger's header, the frame and the values of its caller, and the
//!    open contracts. Its writes, its events and the authorisations that it uses are added to those before.
//! 4. A call that fails goes back to the state before it, without memory. No other end is caught.
//! 5. `Ends` and `EndsRecorded` say how a whole call, upload or create ends, beside its run over all entries of the ledger.
#![tactic(auto)]

mod calls;
mod creating;
mod demands;
mod errors;
mod laws;
mod parts;
mod rows;
mod works;

pub use auth_parts::enter_all;
pub use call_host::{Host, NewContract};
pub use host_ledger::{Events, HostLedger, clone_values};
pub use laws::runs_are_possible;
pub use works::{create, invoke, upload};
