//! Finds the conflicts between the clusters of a stage, and the keys that a cluster declares.
#![tactic(auto)]

mod cluster_keys;
mod conflict;
mod declaring;
mod key_map;
mod meeting;

pub use cluster_keys::{Keys, declared, keys_are_declared};
pub use conflict::{Conflict, first_conflict};
pub use declaring::{read_only_of, read_write_of};
pub use key_map::KeyMap;
pub use meeting::find_conflict;
