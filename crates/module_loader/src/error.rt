//! Why no module is loaded.

use module_spec::Flaw;
use std::alloc::{AllocError, AllocFailed};

/// Why no module is loaded.
#[derive(Debug, PartialEq, Eq, Drop)]
pub enum LoadErr {
    Flawed(Flaw),
    /// Memory ran out.
    NoMemory,
}

impl From<AllocError> for LoadErr {
    ghost use Rattle.module_loader.specs.declared.error.LoadErr.TheVariants.{NoMemory};
    ghost use Rattle.std.specs.Prelude.{◌≡◌};

    ghost from_gives = { λ _ e. e ≡ NoMemory };

    fn from(_error: AllocError) -> Self {
        LoadErr::NoMemory
    }
}

impl<T: Drop> From<AllocFailed<T>> for LoadErr {
    ghost use Rattle.module_loader.specs.declared.error.LoadErr.TheVariants.{NoMemory};
    ghost use Rattle.std.specs.Prelude.{◌≡◌};

    ghost from_gives = { λ _ e. e ≡ NoMemory };

    fn from(_error: AllocFailed<T>) -> Self {
        LoadErr::NoMemory
    }
}
