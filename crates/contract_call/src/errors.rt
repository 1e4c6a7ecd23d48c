//! The errors of calls, creates and demands.

use host_spec::HostErr;
use value_types::{ScError, ScErrorCode};

/// As many frames are open as may be.
pub(crate) const TOO_MANY_FRAMES: HostErr = HostErr::Failed(ScError::Context(
    ScErrorCode::ExceededLimit,
));

/// A constructor that returns something else than Void.
pub(crate) const NOT_VOID: HostErr = HostErr::Failed(ScError::Value(ScErrorCode::UnexpectedType));

/// The module exports no function of this name.
pub(crate) const NO_FUNCTION: HostErr = HostErr::Failed(ScError::WasmVm(ScErrorCode::MissingValue));

/// No authorisation meets a demand.
pub(crate) const DENIED: HostErr = HostErr::Failed(ScError::Auth(ScErrorCode::InvalidAction));
