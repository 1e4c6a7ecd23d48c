//! Accesses of keys, and the errors of the storage.

use value_types::ScError;

/// The kinds of access.
#[derive(Clone, Copy, Debug, PartialEq, Eq)]
pub enum Access {
    Read,
    Extend,
    Write,
}

/// Why a call of the storage fails. After an error no entry has changed, and after `NoMemory` nothing has. A storage that records
/// keeps the key of an access that found `Archived` or `Missing`, or a temporary entry that would live too long.
#[derive(Debug, PartialEq, Eq, Drop)]
pub enum StoErr {
    /// The footprint does not allow the access.
    Undeclared,
    /// The entry at the key is archived.
    Archived,
    /// There is no live entry at the key.
    Missing,
    /// The threshold is above `extend_to`, or a temporary entry would live too long.
    BadExtend(ScError),
    NoMemory,
}
