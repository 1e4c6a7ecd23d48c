//! Errors of playing a log.

ghost use Rattle.std.specs.Prelude.{◌≡◌};
ghost use Rattle.change_log.specs.declared.error.PlayErr.TheVariants.{NoMemory as OutOfMemory};

use std::alloc::AllocError;
use xdr_core::NoMemory;

/// Where a list of changes is in a log.
#[derive(Clone, Copy, Debug, PartialEq, Eq)]
pub struct ListIndex {
    /// The index of the stage.
    pub stage: usize,
    /// The index of the transaction in the stage, or the number of its transactions for the stage's end.
    pub list: usize,
}

/// Why a log was not played. The ledger is dropped.
#[derive(Clone, Copy, Debug, PartialEq, Eq)]
pub enum PlayErr {
    /// The log does not fit the ledger.
    Unfit {
        /// The first list that does not fit, in the order of playing, or `None` if the header does not fit.
        at: Option<ListIndex>,
    },
    /// Out of memory.
    NoMemory,
}

impl From<NoMemory> for PlayErr {
    ghost from_gives = { λ _ e. e ≡ OutOfMemory };

    fn from(_e: NoMemory) -> PlayErr {
        PlayErr::NoMemory
    }
}

impl From<AllocError> for PlayErr {
    ghost from_gives = { λ _ e. e ≡ OutOfMemory };

    fn from(_e: AllocError) -> PlayErr {
        PlayErr::NoMemory
    }
}
