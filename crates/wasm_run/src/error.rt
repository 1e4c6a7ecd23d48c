//! Errors at the start of a call.

use std::alloc::{AllocError, AllocFailed};

/// Why a call cannot start.
#[derive(Debug, PartialEq, Eq, Drop)]
pub enum StartErr {
    /// No function is exported under the name.
    Missing,
    /// The function's type is not that number of `i64` parameters and one `i64` result.
    WrongArity,
    /// An element or data segment does not fit.
    Segment,
    /// Memory ran out.
    NoMemory,
}

impl From<AllocError> for StartErr {
    ghost use Rattle.wasm_run.specs.declared.error.StartErr.TheVariants.{NoMemory};
    ghost use Rattle.std.specs.Prelude.{◌≡◌};

    ghost from_gives = { λ _ e. e ≡ NoMemory };

    fn from(_error: AllocError) -> Self {
        StartErr::NoMemory
    }
}

impl<T: Drop> From<AllocFailed<T>> for StartErr {
    ghost use Rattle.wasm_run.specs.declared.error.StartErr.TheVariants.{NoMemory};
    ghost use Rattle.std.specs.Prelude.{◌≡◌};

    ghost from_gives = { λ _ e. e ≡ NoMemory };

    fn from(_error: AllocFailed<T>) -> Self {
        StartErr::NoMemory
    }
}
