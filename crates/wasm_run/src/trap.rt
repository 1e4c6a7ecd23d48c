//! The errors of traps.

ghost use Rattle.std.specs.Prelude.{◌≡◌};
ghost use Rattle.wasm_run.specs.Traps.{trap_code, trap_error};

use value_types::{ScError, ScErrorCode};
use wasm_spec::TrapKind;

fn trap_code(kind: TrapKind) -> ScErrorCode
    ensures { result ≡ trap_code kind }
{
    match kind {
        TrapKind::Unreachable => ScErrorCode::InvalidAction,
        TrapKind::OutOfBounds => ScErrorCode::IndexBounds,
        TrapKind::Arithmetic => ScErrorCode::ArithDomain,
        TrapKind::IndirectType => ScErrorCode::UnexpectedType,
        TrapKind::EmptyElement => ScErrorCode::MissingValue,
        TrapKind::CallDepth => ScErrorCode::ExceededLimit,
    }
}

/// Returns the error with which a trap ends a contract's call.
pub fn trap_error(kind: TrapKind) -> ScError
    ensures { result ≡ trap_error kind }
{
    ScError::WasmVm(trap_code(kind))
}
