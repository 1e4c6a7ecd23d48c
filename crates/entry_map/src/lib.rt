//! The entries of a ledger as an ordered map.
#![tactic(auto)]

mod changes;
mod map;
mod order;
mod rows;
mod stored;

pub use changes::{Change, Made};
pub use map::EntryMap;
pub use rows::Row;
pub use stored::{StoredEntry, store_entry};
