//! The storage of a contract's run: what a transaction sees and changes of the entries of a ledger, within its
//! footprint, or while the keys that it touches are recorded.
#![tactic(auto)]

mod access;
mod allowed;
mod calls;
mod changes;
mod entries;
mod footprint;
mod laws;
mod layer;
mod noting;
mod sight;
mod spot;
mod storage;
mod table;
mod touched;
mod watch;
mod wide;

pub use access::{Access, StoErr};
pub use changes::Change;
pub use laws::{half_release_goes_on, later_is_later, release_goes_on, restore_goes_back};
pub use storage::Storage;
pub use touched::Touch;
pub use watch::{End, Met, Moment, NoWatch, Outcome, Watch};
