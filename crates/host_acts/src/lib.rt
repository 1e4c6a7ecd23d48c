//! The acts that the host's functions over the ledger are made of: on a storage, a budget, the events of a run, and entries of
//! instance storage. They know no words and no state of the host: `host_ledger` lends them parts of its state.
//!
//! What a clause says
//!
//! `Serves` (specs/Served) says which environments fit a storage: those in whose ledger, with whose settings, it makes accesses,
//! and whose judge allows what it allows. So an act holds over each ground, for each footprint, and if the storage records. A
//! clause says what an act leaves: `leaving` (specs/Traced) if the act may access the ledger, else `quiet` of call_spec. By
//! `leaving`, a storage that has recorded the accesses before the act has recorded those after it. `proofs/Tracing` leads from
//! one act to the next. The clause `key` of each function that may end so says that the key that an error names has a spelling.
//!
//! How an act is written
//!
//! 1. An access of the ledger is a call of `accesses`. Its clause is `Accesses`, or `Pays` if it charges. The lemmas are those of
//!    `proofs/Linking` and `proofs/Putting`: what a call of the storage returns is how the access of call_spec ends, and what it
//!    notes is that access.
//! 2. A charge that comes before a write may be made after it: a run that the charge ends shows nothing but its budget.
//! 3. Two acts in a row are two calls and a `match` on the first result: `proofs/Composing` has the lemmas (`extend_both`).
//! 4. An act of the running frame takes the frame's contract, and its clause has the act of call_spec word for word
//!    (`extend_entry`).
#![tactic(auto)]

mod accesses;
mod codes;
mod entries;
mod errors;
mod event_list;
mod events;
mod ids;
mod keys;
mod lives;
mod storage_types;
mod values;

pub use accesses::{end_of, get, has, size_of};
pub use codes::code_at;
pub use entries::{del_entry, extend_entry, put_entry};
pub use errors::NO_ENTRY;
pub use event_list::Events;
pub use events::{emit, emit_update, event_of};
pub use ids::{address_of, hash_of, paid_id};
pub use keys::{code_key, data_key, instance_key};
pub use lives::extend_lives;
pub use storage_types::{StorageType, storage_type};
pub use values::{clone_value, clone_values};
