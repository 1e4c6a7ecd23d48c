//! Reads contract values from XDR and writes them.
#![tactic(auto)]

mod account_id;
mod address;
mod balance_id;
mod blob;
mod bytes;
mod error;
mod executable;
mod hash;
mod head;
mod kind;
mod laws;
mod list;
mod numbers;
mod plain;
mod reading;
mod rows;
mod scval;
mod writing;
mod xdr;

pub use balance_id::{read_balance_id, size_of_balance_id, write_balance_id};
pub use blob::{hold_bytes, read_blob, size_of_blob, write_blob};
pub use head::{named, read_head};
pub use laws::{one_refusal, one_spelling, prefix_is_read, spelled_or_refused};
pub use rows::{list_for, read_list, read_row, size_of_list, write_list};
pub use scval::{size_is_length, val_size, value_from_bytes, value_to_bytes};
pub use xdr::{Xdr, decode, decode_from, encode};
