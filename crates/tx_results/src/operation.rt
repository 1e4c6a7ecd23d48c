//! Results of operations.

ghost use Rattle.std.specs.Prelude.{◌≡◌};
ghost use Rattle.tx_results.specs.Operations.{invoke_code_of, inner_kind_of, operation_code_of};

use crate::codes::{ExtendResult, InnerKind, InvokeResultCode, OperationResultCode};
use value_types::Hash;

/// The result of INVOKE_HOST_FUNCTION (`InvokeHostFunctionResult`).
#[derive(Clone, Copy, Debug, PartialEq, Eq)]
pub enum InvokeResult {
    /// The SHA-256 of the success preimage.
    Success(Hash),
    Malformed,
    Trapped,
    ResourceLimitExceeded,
    EntryArchived,
}

impl InvokeResult {
    /// The discriminant of the union (RFC 4506, section 4.15).
    pub fn code(&self) -> InvokeResultCode
        ensures { result ≡ invoke_code_of self.now }
    {
        match self {
            InvokeResult::Success(_) => InvokeResultCode::Success,
            InvokeResult::Malformed => InvokeResultCode::Malformed,
            InvokeResult::Trapped => InvokeResultCode::Trapped,
            InvokeResult::ResourceLimitExceeded => InvokeResultCode::ResourceLimitExceeded,
            InvokeResult::EntryArchived => InvokeResultCode::EntryArchived,
        }
    }
}

/// The result of an operation that has a result of its own.
#[derive(Clone, Copy, Debug, PartialEq, Eq)]
pub enum InnerResult {
    Invoke(InvokeResult),
    Extend(ExtendResult),
}

impl InnerResult {
    /// The discriminant of the union (RFC 4506, section 4.15).
    pub fn kind(&self) -> InnerKind
        ensures { result ≡ inner_kind_of self.now }
    {
        match self {
            InnerResult::Invoke(_) => InnerKind::Invoke,
            InnerResult::Extend(_) => InnerKind::Extend,
        }
    }
}

/// The result of an operation (`OperationResult`).
#[derive(Clone, Copy, Debug, PartialEq, Eq)]
pub enum OperationResult {
    Inner(InnerResult),
    NotSupported,
}

impl OperationResult {
    /// The discriminant of the union (RFC 4506, section 4.15).
    pub fn code(&self) -> OperationResultCode
        ensures { result ≡ operation_code_of self.now }
    {
        match self {
            OperationResult::Inner(_) => OperationResultCode::Inner,
            OperationResult::NotSupported => OperationResultCode::NotSupported,
        }
    }
}
