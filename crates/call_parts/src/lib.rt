//! The steps of a call and of a create that run no code of a contract: what they find in the ledger, what they write, what they
//! show.
//!
//! The crate above strings these steps together, as `call` and `creates` of call_spec do. So the clause of each step has the act
//! of call_spec that it carries out, word for word:
//!
//! 1. `Steps` is a step over the ledger and the budget, in every environment that the storage serves and every world with its
//!    entries and this budget. A step that charges nothing has `Accesses` of host_ledger. By both, a storage that has recorded
//!    the accesses before the step has recorded those after it.
//! 2. `Charges` is a step that only charges, `Shows` one that shows values, `Returns` one that changes nothing. They make no
//!    access.
//! 3. A charge that comes before a write may be made after it: a run that the charge ends shows nothing but its budget.
#![tactic(auto)]

mod accesses;
mod charges;
mod codes;
mod entries;
mod errors;
mod frames;
mod ids;
mod instances;
mod modules;

pub use charges::pay;
pub use codes::{find_code, upload};
pub use frames::{charge_run, returned_value, show_args};
pub use ids::new_id;
pub use instances::{clone_copy, find_instance, is_same, make_instance, write_instance};
pub use modules::{cached_module, call_module, paid_module, start_instance};
