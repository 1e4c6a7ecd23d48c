//! The rows of the host interface for bytes, strings, symbols and hashes.
#![tactic(auto)]

mod bytes;
mod edits;
mod from_memory;
mod hash;
mod parts;
mod texts;
mod to_memory;
mod xdr;

pub use bytes::{
    bytes_append, bytes_back, bytes_del, bytes_front, bytes_get, bytes_insert, bytes_len,
    bytes_new, bytes_pop, bytes_push, bytes_put, bytes_slice,
};
pub use from_memory::{
    bytes_copy_from_linear_memory, bytes_new_from_linear_memory, string_new_from_linear_memory,
    symbol_new_from_linear_memory,
};
pub use hash::compute_hash_sha256;
pub use texts::{bytes_to_string, string_len, string_to_bytes, symbol_len};
pub use to_memory::{
    bytes_copy_to_linear_memory, string_copy_to_linear_memory, symbol_copy_to_linear_memory,
};
pub use xdr::{deserialize_from_bytes, serialize_to_bytes};
