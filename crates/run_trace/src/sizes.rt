//! How many bytes of keys and values a line has, as XDR counts them. A sum stops at 2^64 - 1.

use contract_storage::End;
use value_types::ScVal;
use value_xdr::Xdr;
use xdr_core::add_sizes;

/// The size of a call.
pub(crate) fn size_of_call(function: &[u8], args: &[ScVal]) -> u64 {
    let mut size = function.len() as u64;
    for arg in args {
        size = add_sizes(size, arg.size());
    }
    size
}

/// The size of a call's end.
pub(crate) fn size_of_end(end: End<'_>) -> u64 {
    match end {
        End::Value(value) => value.size(),
        End::Undeclared(key) | End::Archived(key) => key.size(),
        End::Failed(_) | End::Spent | End::NoMemory => 0,
    }
}
