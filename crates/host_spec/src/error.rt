//! How a host function ends if it returns no value.

use ledger_types::LedgerKey;
use std::alloc::{AllocError, AllocFailed};
use value_types::ScError;
use xdr_core::NoMemory;

/// How a function over values, the linear memory and the budget ends if it returns no value.
#[derive(Clone, Copy, Debug, PartialEq, Eq)]
pub enum ValueErr {
    /// The call fails with this error.
    Failed(ScError),
    /// A charge would exceed a limit of the budget.
    Spent,
    /// Memory ran out.
    NoMemory,
}

impl From<AllocError> for ValueErr {
    ghost use Rattle.host_spec.specs.declared.error.ValueErr.TheVariants.{NoMemory as OutOfMemory};
    ghost use Rattle.std.specs.Prelude.{◌≡◌};

    ghost from_gives = { λ _ e. e ≡ OutOfMemory };

    fn from(_error: AllocError) -> Self {
        ValueErr::NoMemory
    }
}

impl<T: Drop> From<AllocFailed<T>> for ValueErr {
    ghost use Rattle.host_spec.specs.declared.error.ValueErr.TheVariants.{NoMemory as OutOfMemory};
    ghost use Rattle.std.specs.Prelude.{◌≡◌};

    ghost from_gives = { λ _ e. e ≡ OutOfMemory };

    fn from(_error: AllocFailed<T>) -> Self {
        ValueErr::NoMemory
    }
}

impl From<NoMemory> for ValueErr {
    ghost use Rattle.host_spec.specs.declared.error.ValueErr.TheVariants.{NoMemory as OutOfMemory};
    ghost use Rattle.std.specs.Prelude.{◌≡◌};

    ghost from_gives = { λ _ e. e ≡ OutOfMemory };

    fn from(_error: NoMemory) -> Self {
        ValueErr::NoMemory
    }
}

/// How a host function ends if it returns no value.
#[derive(Drop)]
pub enum HostErr {
    /// The call fails with this error.
    Failed(ScError),
    /// A charge would exceed a limit of the budget.
    Spent,
    /// The footprint does not declare the access of this key.
    Undeclared(LedgerKey),
    /// The entry of this key is archived.
    Archived(LedgerKey),
    /// Memory ran out.
    NoMemory,
}

impl From<ValueErr> for HostErr {
    ghost use Rattle.host_spec.specs.Ends.{host_end};
    ghost use Rattle.std.specs.Prelude.{◌≡◌};

    ghost from_gives = { λ error e. e ≡ host_end error };

    fn from(error: ValueErr) -> Self {
        match error {
            ValueErr::Failed(error) => HostErr::Failed(error),
            ValueErr::Spent => HostErr::Spent,
            ValueErr::NoMemory => HostErr::NoMemory,
        }
    }
}
