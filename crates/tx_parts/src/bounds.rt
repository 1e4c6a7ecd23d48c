//! Time bounds and ledger bounds.

ghost use Rattle.std.specs.Prelude.{◌≡◌, ⊤};
ghost use Rattle.tx_parts.specs.Bounds.{time_bounds_format, time_bounds_lawful, ledger_bounds_format, ledger_bounds_lawful};

use std::alloc::{AllocError, Global};
use value_xdr::Xdr;
use xdr_core::{NoMemory, Out, ReadXdr, Words};

/// Bounds on the close time of the ledger that runs a transaction, in seconds since 1970 (`TimeBounds`).
#[derive(Debug, PartialEq, Eq)]
pub struct TimeBounds {
    /// The minimum.
    pub min_time: u64,
    /// The maximum, or 0 for none.
    pub max_time: u64,
}

impl Clone for TimeBounds {
    ghost is_clone = { λ v w. w ≡ v };

    ghost is_infallible = { λ _. ⊤ };

    fn clone(&self) -> Result<TimeBounds, AllocError> {
        Ok(*self)
    }
}

impl Copy for TimeBounds {}

#[tactic(auto, unfolding(crate::specs::Bounds::time_bounds_format))]
impl Xdr for TimeBounds {
    ghost format = { time_bounds_format };

    fn read_parts<W: Words>(alloc: Global, input: &mut W) -> Result<TimeBounds, ReadXdr> {
        let min_time = u64::read(alloc, input)?;
        let max_time = u64::read(alloc, input)?;
        Ok(TimeBounds { min_time, max_time })
    }

    fn write_parts(&self, out: &mut Out) -> Result<(), NoMemory> {
        self.min_time.write(out)?;
        self.max_time.write(out)
    }

    #[tactic(auto, unfolding(crate::specs::Bounds::time_bounds_format, xdr_spec::specs::Format::number64, xdr_core::specs::Sizes::capped))]
    fn size(&self) -> u64 {
        16
    }

    ghost lawful = { time_bounds_lawful };
}

/// Bounds on the number of the ledger that runs a transaction (`LedgerBounds`).
#[derive(Debug, PartialEq, Eq)]
pub struct LedgerBounds {
    /// The minimum.
    pub min_ledger: u32,
    /// The first ledger that is too late, or 0 for none.
    pub max_ledger: u32,
}

impl Clone for LedgerBounds {
    ghost is_clone = { λ v w. w ≡ v };

    ghost is_infallible = { λ _. ⊤ };

    fn clone(&self) -> Result<LedgerBounds, AllocError> {
        Ok(*self)
    }
}

impl Copy for LedgerBounds {}

#[tactic(auto, unfolding(crate::specs::Bounds::ledger_bounds_format))]
impl Xdr for LedgerBounds {
    ghost format = { ledger_bounds_format };

    fn read_parts<W: Words>(alloc: Global, input: &mut W) -> Result<LedgerBounds, ReadXdr> {
        let min_ledger = u32::read(alloc, input)?;
        let max_ledger = u32::read(alloc, input)?;
        Ok(LedgerBounds {
            min_ledger,
            max_ledger,
        })
    }

    fn write_parts(&self, out: &mut Out) -> Result<(), NoMemory> {
        self.min_ledger.write(out)?;
        self.max_ledger.write(out)
    }

    #[tactic(auto, unfolding(crate::specs::Bounds::ledger_bounds_format, xdr_spec::specs::Format::number32, xdr_core::specs::Sizes::capped))]
    fn size(&self) -> u64 {
        8
    }

    ghost lawful = { ledger_bounds_lawful };
}
