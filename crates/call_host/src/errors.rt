//! The errors of what a call finds, and of arguments.

use host_spec::HostErr;
use value_types::{ScError, ScErrorCode};

/// The address is no contract's.
pub(crate) const OTHER_TYPE: HostErr = HostErr::Failed(ScError::Value(ScErrorCode::UnexpectedType));

/// The name of a function that only the host may call.
pub(crate) const RESERVED_NAME: HostErr = HostErr::Failed(ScError::Context(
    ScErrorCode::InvalidAction,
));

/// The contract has an open frame.
pub(crate) const REENTERED: HostErr = HostErr::Failed(ScError::Context(ScErrorCode::InvalidAction));

/// A hash or a salt that does not have 32 bytes.
pub(crate) const OTHER_SIZE: HostErr = HostErr::Failed(ScError::Value(ScErrorCode::UnexpectedSize));

/// What a contract sees of a failure of a contract that it called, if the failure is none of type CONTRACT.
pub(crate) const HIDDEN_ERROR: ScError = ScError::Context(ScErrorCode::InvalidAction);
