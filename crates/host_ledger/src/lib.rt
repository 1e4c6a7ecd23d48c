//! The host's functions over the ledger and the running frame: rows of the modules l and x.
//!
//! The state
//!
//! `HostLedger` has what a transaction's run changes: storage, events, budget and values, and the running frame. `world_at` shows
//! it as a world of call_spec. What the state does not hold is left open and quantified: the accesses so far, the authorisations
//! that were used, the open contracts, and the frame's linear memory. `IsEnv` says which environments fit the state: those with
//! its header that its storage serves (`Serves` of host_acts).
//!
//! How a row is written
//!
//! 1. The row's clause is `Answers`: the kinds of the arguments, as the table of host_interface has them, the rule of call_spec,
//!    the words, and the state before and after. It says what the row returns, with each charge and each end, that the answer may
//!    be shown, and what stays (`Stays`). `IsReady` is what each row needs. Later calls find it again by `Stays`. The clause
//!    `key` of each function that may end so says that the key that an error names has a spelling.
//! 2. A row that borrows nothing from the state is one function (`context`).
//! 3. Any other row lends parts of the state to a body, as its last act. The body takes `Values`, so its `?`s and the drops of
//!    its values do not touch the state. Its clause is `Runs`: the same over every world with these parts. The row's answer is
//!    the lemma `proofs/Rows/row`.
//! 4. A body resolves the arguments from left to right, enters, and branches as the rule does (`storage_type`). Each branch ends
//!    in a call whose clause has the branch's act of call_spec, word for word (`extend_entry`). Most of these calls are acts of
//!    host_acts. Then the body proves itself, or by a lemma of `proofs/Stepping`.
//!
//! Instance storage
//!
//! The frame has a copy of its contract's instance. `copies` reads it and changes it (`InstanceStorage` of instance_storage).
//!
//! Calls
//!
//! `call_function` calls a function by its import, with a word for each argument, and `ledger_call` by its name. `groups` has one
//! `match` for each number of words; `call` then shows the answer in the frame. `Calls` says what a call does, and that the state
//! is ready for the next one.
#![tactic(auto)]

mod call;
mod context;
mod copies;
mod data;
mod errors;
mod events;
mod groups;
mod ids;
mod instance;
mod state;
mod updates;

pub use call::{call_function, ledger_call};
pub use context::{
    fail_with_error, get_current_contract_address, get_ledger_network_id, get_ledger_sequence,
    get_ledger_timestamp, get_ledger_version, get_max_live_until_ledger, made_seq,
};
pub use data::{
    del_contract_data, extend_contract_data_ttl, get_contract_data, has_contract_data,
    put_contract_data,
};
pub use events::contract_event;
pub use host_acts::{Events, clone_values, code_key, end_of, instance_key, size_of};
pub use ids::get_contract_id;
pub use instance::extend_current_contract_instance_and_code_ttl;
pub use instance_storage::InstanceStorage;
pub use state::{Frame, HostLedger, InstanceCopy};
pub use updates::update_current_contract_wasm;
