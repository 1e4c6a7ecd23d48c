//! Errors of validation and linking.

use std::alloc::{AllocError, AllocFailed};

/// Why `check` rejects a module.
#[derive(Debug, PartialEq, Eq, Drop)]
pub enum CheckErr {
    /// The module is ill typed: `func` is the index of the first ill-typed function, imports included, or `None` if a
    /// rule outside function bodies is broken.
    Ill { func: Option<u32> },
    /// Memory ran out.
    NoMemory,
}

impl From<AllocError> for CheckErr {
    ghost use Rattle.wasm_check.specs.declared.error.CheckErr.TheVariants.{NoMemory};
    ghost use Rattle.std.specs.Prelude.{◌≡◌};

    ghost from_gives = { λ _ e. e ≡ NoMemory };

    fn from(_error: AllocError) -> Self {
        CheckErr::NoMemory
    }
}

/// Why validation of code fails.
#[derive(Debug, PartialEq, Eq, Drop)]
pub enum Fault {
    Ill,
    NoMemory,
}

impl From<AllocError> for Fault {
    ghost use Rattle.wasm_check.specs.declared.error.Fault.TheVariants.{NoMemory};
    ghost use Rattle.std.specs.Prelude.{◌≡◌};

    ghost from_gives = { λ _ e. e ≡ NoMemory };

    fn from(_error: AllocError) -> Self {
        Fault::NoMemory
    }
}

impl<T: Drop> From<AllocFailed<T>> for Fault {
    ghost use Rattle.wasm_check.specs.declared.error.Fault.TheVariants.{NoMemory};
    ghost use Rattle.std.specs.Prelude.{◌≡◌};

    ghost from_gives = { λ _ e. e ≡ NoMemory };

    fn from(_error: AllocFailed<T>) -> Self {
        Fault::NoMemory
    }
}
