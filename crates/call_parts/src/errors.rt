//! The errors of calls and creates.

use host_spec::HostErr;
use value_types::{ScError, ScErrorCode};

/// The value of an instance entry is no instance.
pub(crate) const NO_INSTANCE: HostErr = HostErr::Failed(ScError::Storage(
    ScErrorCode::UnexpectedType,
));

/// The contract exists already.
pub(crate) const EXISTS: HostErr = HostErr::Failed(ScError::Storage(ScErrorCode::ExistingValue));

/// The contract's executable is that of a Stellar asset.
pub(crate) const NOT_WASM: HostErr = HostErr::Failed(ScError::Context(ScErrorCode::InvalidInput));

/// The code is no valid, linked module.
pub(crate) const NO_MODULE: HostErr = HostErr::Failed(ScError::WasmVm(ScErrorCode::InvalidInput));

/// The module exports no function of this name.
pub(crate) const NO_FUNCTION: HostErr = HostErr::Failed(ScError::WasmVm(ScErrorCode::MissingValue));

/// The function takes another number of arguments.
pub(crate) const OTHER_ARITY: HostErr = HostErr::Failed(ScError::WasmVm(
    ScErrorCode::UnexpectedSize,
));

/// A segment of the module does not fit.
pub(crate) const SEGMENT_OUTSIDE: HostErr = HostErr::Failed(ScError::WasmVm(
    ScErrorCode::IndexBounds,
));

/// An error that is not of type CONTRACT, as a contract's result.
pub(crate) const HIDDEN_ERROR: HostErr = HostErr::Failed(ScError::Context(
    ScErrorCode::InvalidAction,
));

/// A word without meaning.
pub(crate) const INVALID_VALUE: HostErr = HostErr::Failed(ScError::Value(
    ScErrorCode::InvalidInput,
));
