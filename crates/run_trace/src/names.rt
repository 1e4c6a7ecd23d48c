//! The names of error types and codes, as the Stellar XDR files have them, and the words of lines.

use contract_storage::{Access, Met, Outcome};
use ledger_types::Durability;
use value_types::{ScErrorCode, ScErrorType};

/// The name of an error's type.
pub(crate) fn type_name(kind: ScErrorType) -> &'static str {
    match kind {
        ScErrorType::Contract => "CONTRACT",
        ScErrorType::WasmVm => "WASM_VM",
        ScErrorType::Context => "CONTEXT",
        ScErrorType::Storage => "STORAGE",
        ScErrorType::Object => "OBJECT",
        ScErrorType::Crypto => "CRYPTO",
        ScErrorType::Events => "EVENTS",
        ScErrorType::Budget => "BUDGET",
        ScErrorType::Value => "VALUE",
        ScErrorType::Auth => "AUTH",
    }
}

/// The name of a code of the host.
pub(crate) fn code_name(code: ScErrorCode) -> &'static str {
    match code {
        ScErrorCode::ArithDomain => "ARITH_DOMAIN",
        ScErrorCode::IndexBounds => "INDEX_BOUNDS",
        ScErrorCode::InvalidInput => "INVALID_INPUT",
        ScErrorCode::MissingValue => "MISSING_VALUE",
        ScErrorCode::ExistingValue => "EXISTING_VALUE",
        ScErrorCode::ExceededLimit => "EXCEEDED_LIMIT",
        ScErrorCode::InvalidAction => "INVALID_ACTION",
        ScErrorCode::InternalError => "INTERNAL_ERROR",
        ScErrorCode::UnexpectedType => "UNEXPECTED_TYPE",
        ScErrorCode::UnexpectedSize => "UNEXPECTED_SIZE",
    }
}

/// The word for a kind of access.
pub(crate) fn access_name(access: Access) -> &'static str {
    match access {
        Access::Read => "read",
        Access::Extend => "extend",
        Access::Write => "write",
    }
}

/// What came of an access.
pub(crate) fn outcome_name(access: Access, outcome: Outcome) -> &'static str {
    match outcome {
        Outcome::Done => done_name(access),
        Outcome::Missing => "missing",
        Outcome::Archived => "archived",
        Outcome::Refused => "too long a life",
    }
}

fn done_name(access: Access) -> &'static str {
    match access {
        Access::Read => "found",
        Access::Extend => "extended",
        Access::Write => "written",
    }
}

/// What met a demand. Behind it stands the index of the entry, if there is one.
pub(crate) fn met_name(met: Met) -> &'static str {
    match met {
        Met::ByEntry { first: true, .. } => "met by the root of entry ",
        Met::ByEntry { first: false, .. } => "met by a node of entry ",
        Met::ByCaller => "met by the caller",
        Met::Denied => "not met",
        Met::Noted => "noted",
        Met::NoMemory => "no memory",
    }
}

/// The name of a durability.
pub(crate) fn durability_name(durability: Durability) -> &'static str {
    match durability {
        Durability::Temporary => "temporary",
        Durability::Persistent => "persistent",
    }
}
