//! Parts of a ledger: the entries that one cluster of transactions owns. The rest of the ledger is lent to all clusters of the
//! stage.
#![tactic(auto)]

mod entries;
mod key_set;
mod laws;
mod moving;
mod part;

pub use entries::Entries;
pub use key_set::KeySet;
pub use laws::{parts_as_they_are_cut, parts_note_the_same};
pub use moving::move_all;
pub use part::{Lent, OnPart, Part};
