//! The errors of the functions of the ledger.

use host_spec::HostErr;
use value_types::{ScError, ScErrorCode};

/// An error that is not of type CONTRACT.
pub(crate) const NO_CONTRACT_ERROR: HostErr = HostErr::Failed(ScError::Context(
    ScErrorCode::UnexpectedType,
));

/// An extension of instance storage.
pub(crate) const INVALID_EXTENSION: HostErr = HostErr::Failed(ScError::Storage(
    ScErrorCode::InvalidAction,
));

/// An instance that would be too large or too deep.
pub(crate) const TOO_LARGE: HostErr = HostErr::Failed(ScError::Value(ScErrorCode::ExceededLimit));
