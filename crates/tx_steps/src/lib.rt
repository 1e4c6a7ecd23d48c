//! The steps of a transaction that run no contract.
//!
//! The crate above runs a transaction by these steps, and simulates it:
//!
//! 1. Before the run: the checks (`refusal_of`), what a host function does (`job_of`), the entries at the declared keys, each
//!    looked up once (`Resolved`), and the tests of these entries (`declares_archived`, `reads_more`).
//! 2. After the run: the test of the bytes that are written (`writes_more`), the outcome of the transaction with its changes and
//!    extensions (`succeeded`, `ended`, `failed_call`), and the result of its envelope (`result_pair`).
//! 3. EXTEND_FOOTPRINT_TTL, as a whole (`extend_footprint`).
//! 4. For a simulation: the needs of a transaction that runs no host function (`kept_footprint`, `no_needs`), and the footprint
//!    of the keys that a run has touched (`footprint_of`).
#![tactic(auto)]

mod bounds;
mod changes;
mod checks;
mod envelope_result;
mod extend;
mod footprint;
mod job;
mod needs;
mod reading;
mod resolved;
mod results;
mod success;
mod touched;
mod writing;

pub use checks::{form_refusal, refusal_of};
pub use envelope_result::result_pair;
pub use extend::extend_footprint;
pub use footprint::{read_only_of, read_write_of};
pub use job::{Job, job_of, values};
pub use needs::{Needs, kept_footprint, no_keys, no_needs};
pub use reading::{declares_archived, reads_more};
pub use resolved::Resolved;
pub use results::{TransactionDone, ended, failed, failed_call, nothing_used, without_effect};
pub use success::succeeded;
pub use touched::footprint_of;
pub use writing::writes_more;
