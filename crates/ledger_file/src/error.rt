//! Errors of reading a ledger.

ghost use Rattle.std.specs.Prelude.{◌≡◌};
ghost use Rattle.ledger_file.specs.declared.error.LedgerErr.TheVariants.{NoMemory as OutOfMemory};

use ledger_spec::LedgerRefusal;
use std::alloc::AllocError;
use xdr_core::NoMemory;

/// Why a ledger was not read.
#[derive(Clone, Copy, Debug, PartialEq, Eq)]
pub enum LedgerErr {
    /// The file is rejected.
    Refused(LedgerRefusal),
    /// Out of memory.
    NoMemory,
}

impl From<NoMemory> for LedgerErr {
    ghost from_gives = { λ _ e. e ≡ OutOfMemory };

    fn from(_e: NoMemory) -> LedgerErr {
        LedgerErr::NoMemory
    }
}

impl From<AllocError> for LedgerErr {
    ghost from_gives = { λ _ e. e ≡ OutOfMemory };

    fn from(_e: AllocError) -> LedgerErr {
        LedgerErr::NoMemory
    }
}
