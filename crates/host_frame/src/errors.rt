//! The errors of functions over values.

use host_spec::ValueErr;
use value_types::{ScError, ScErrorCode};

/// A word without meaning, a byte above 255, bytes that spell no value, a text that is no symbol.
pub const INVALID_VALUE: ValueErr = ValueErr::Failed(ScError::Value(ScErrorCode::InvalidInput));

/// A value of another type, or of a type that the host does not hold.
pub const OTHER_TYPE: ValueErr = ValueErr::Failed(ScError::Value(ScErrorCode::UnexpectedType));

/// A value that is too large or too deep for the host.
pub const TOO_LARGE: ValueErr = ValueErr::Failed(ScError::Value(ScErrorCode::ExceededLimit));

/// An index or a range outside an object.
pub const OUTSIDE_OBJECT: ValueErr = ValueErr::Failed(ScError::Object(ScErrorCode::IndexBounds));

/// A range outside the linear memory.
pub const OUTSIDE_MEMORY: ValueErr = ValueErr::Failed(ScError::WasmVm(ScErrorCode::IndexBounds));

/// A key that is not in a map.
pub const ABSENT_KEY: ValueErr = ValueErr::Failed(ScError::Object(ScErrorCode::MissingValue));

/// A count that is not the length.
pub const OTHER_COUNT: ValueErr = ValueErr::Failed(ScError::Object(ScErrorCode::UnexpectedSize));

/// A frame that has shown as many objects as it may.
pub const FULL_FRAME: ValueErr = ValueErr::Failed(ScError::Object(ScErrorCode::ExceededLimit));
