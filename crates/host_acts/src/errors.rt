//! The errors of acts on the ledger.

use host_spec::HostErr;
use value_types::{ScError, ScErrorCode};

/// A storage kind above 2, or a threshold above the number of ledgers that is asked for.
pub(crate) const INVALID_STORAGE_INPUT: HostErr = HostErr::Failed(ScError::Storage(
    ScErrorCode::InvalidInput,
));

/// There is no live entry.
pub const NO_ENTRY: HostErr = HostErr::Failed(ScError::Storage(ScErrorCode::MissingValue));

/// A hash or a salt that does not have 32 bytes.
pub(crate) const OTHER_SIZE: HostErr = HostErr::Failed(ScError::Value(ScErrorCode::UnexpectedSize));
