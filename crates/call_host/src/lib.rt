//! The host of one transaction's run: its frames, the points that it goes back to when a call fails, what a call finds, the
//! arguments that contracts pass, and what meets demands. No function here runs a contract's code.
//!
//! `Host` holds the ledger's state with the running frame (`HostLedger` of host_ledger), the contracts with an open frame, and
//! what meets demands of authorisation. The crate above has the cycle of calls, which strings these functions together.
//!
//! 1. Frames: `new_frame` makes the frame of a call, and takes its arguments over. `Host::open_frame` opens it, and
//!    `Host::close_frame` goes back to the one that waits, a `SuspendedFrame`. `begin` and `end` are what a frame does before and
//!    after its code. `Host::begin` counts a call or a create of the running frame and returns its path.
//! 2. Points to go back to: `Host::mark` makes one, `ended` or `caught` ends it. A failure goes back to it, without memory. No
//!    other end is caught.
//! 3. `find_target` makes the tests of a call and finds the contract's instance and module.
//! 4. `call_words` and its like take the arguments of a host function from its words, after the charges of the call.
//! 5. `demand_own` and its like meet a demand of authorisation. A frame lends its function, so they clone no argument.
//! 6. `tell_called` and its like tell the observer of the run. They change nothing that contracts see.
//!
//! The clauses compare a function with an act of call_spec, from every world that the host's state shows: end, value, entries,
//! events, used authorisations, sums, and the touched keys if the storage records. What the state does not hold is the same in
//! both worlds.
//!
//! | clause | the running frame |
//! |---|---|
//! | `DoesAround` | any frame at the path of the state's frame. The function may change its count alone |
//! | `DoesIn` | the state's frame |
//! | `DoesOver` | the state's frame, with a linear memory that is given, and the one that is left |
//! | `RunsIn` | the state's frame, whose linear memory may change |
//!
//! `Takes` says what arguments mean: the act of the host function goes on from them. `MayRun` is what a function needs of the
//! state, and `Stays` says what it may not touch: the ledger's header, the frame and the values of its caller, and the open
//! contracts. Writes, events and used authorisations are added to those before. `StaysIn` says the same in the running frame.
#![tactic(auto)]

mod demands;
mod errors;
mod frames;
mod functions;
mod host;
mod paths;
mod running;
mod targets;
mod telling;
mod undo;
mod words;

pub use demands::{demand_create, demand_here, demand_own};
pub use functions::{args_of, clone_args, clone_bytes, contract_function, name_of};
pub use host::{Host, SuspendedFrame};
pub use paths::below;
pub use running::{begin, end, new_frame};
pub use targets::{ContractCall, Target, find_target, may_name};
pub use telling::{tell_called, tell_returned};
pub use undo::{Mark, caught, ended};
pub use words::{
    AuthArgs, CallArgs, NewContract, auth_for_args_words, auth_words, call_words, construct_words,
    create_words,
};
