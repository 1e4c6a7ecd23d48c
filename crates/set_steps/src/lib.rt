//! The steps of a transaction set that run no transaction.
//!
//! The crate above runs the transactions of a set between these steps:
//!
//! 1. Before anything runs: the stages of the set in their order (`stages_of`), and the least conflict of the first stage that
//!    has one, which several workers look for (`first_conflict`).
//! 2. Before the clusters of a stage run: each cluster's part is cut out of the entries (`cut`), and the codes that the clusters
//!    share are listed (`shared_codes`).
//! 3. Around each transaction: the pending extensions of its read-write keys are put in (`put_written`), what it is going to
//!    change is listed for the change log (`changes_log`), its changes are made (`change_all`), and its extensions and its report
//!    are kept (`Pending`, `Reports`).
//! 4. After the clusters of a stage have run: the parts are put back (`put_back`), and the stage ends (`end_stage`, and
//!    `end_logged` with the changes of its end).
//! 5. The change log is put together (`logged_stage`, `push_stage`, `log_of`).
#![tactic(auto)]

mod before;
mod conflict;
mod entries;
mod job;
mod lives;
mod log;
mod moving;
mod parts;
mod pending;
mod reports;
mod running;
mod search;
mod sides;
mod stage_end;
mod stages;
mod workers;

pub use before::put_written;
pub use conflict::{SetConflict, first_conflict, first_in_turn};
pub use entries::change_all;
pub use job::Job;
pub use lives::Life;
pub use log::{log_of, logged_stage, push_stage};
pub use moving::read_keys_of;
pub use parts::{count_envelopes, cut, cut_one, put_back, shared_codes};
pub use pending::Pending;
pub use reports::Reports;
pub use running::{ClusterDone, ClusterRun};
pub use sides::changes_log;
pub use stage_end::{end_logged, end_stage};
pub use stages::{SetStage, stages_of};
pub use workers::Workers;
