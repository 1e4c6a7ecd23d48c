//! The error of the reader.

use std::alloc::{AllocError, AllocFailed};

/// Why the reader returns no module.
#[derive(Debug, PartialEq, Eq, Drop)]
pub enum ReadModErr {
    /// The bytes do not encode a module.
    NotAModule,
    /// Out of memory.
    NoMemory,
}

impl From<AllocError> for ReadModErr {
    ghost use Rattle.wasm_read.specs.declared.error.ReadModErr.TheVariants.{NoMemory};
    ghost use Rattle.std.specs.Prelude.{◌≡◌};

    ghost from_gives = { λ _ e. e ≡ NoMemory };

    fn from(_error: AllocError) -> Self {
        ReadModErr::NoMemory
    }
}

impl<T: Drop> From<AllocFailed<T>> for ReadModErr {
    ghost use Rattle.wasm_read.specs.declared.error.ReadModErr.TheVariants.{NoMemory};
    ghost use Rattle.std.specs.Prelude.{◌≡◌};

    ghost from_gives = { λ _ e. e ≡ NoMemory };

    fn from(_error: AllocFailed<T>) -> Self {
        ReadModErr::NoMemory
    }
}
