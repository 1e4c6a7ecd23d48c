//! Errors of applying a set.

ghost use Rattle.std.specs.Prelude.{◌≡◌};
ghost use Rattle.ledger_apply.specs.declared.error.ApplyErr.TheVariants.{NoMemory as OutOfMemory};

use ledger_file::Ledger;
use stage_plan::Conflict;
use xdr_core::NoMemory;

/// Why a set was not applied.
#[derive(Drop)]
pub enum ApplyErr<'a> {
    /// Two clusters of a stage conflict. Nothing ran, and the ledger is as before.
    Conflict {
        /// The index of the stage in the set.
        stage: usize,
        found: Conflict<'a>,
        ledger: Ledger,
    },
    /// Out of memory. The ledger is dropped.
    NoMemory,
}

impl<'a> From<NoMemory> for ApplyErr<'a> {
    ghost from_gives = { λ _ e. e ≡ OutOfMemory };

    fn from(_e: NoMemory) -> ApplyErr<'a> {
        ApplyErr::NoMemory
    }
}
