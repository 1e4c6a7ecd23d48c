//! Errors of running a set by a schedule.

ghost use Rattle.std.specs.Prelude.{◌≡◌};
ghost use Rattle.schedule_runs.specs.declared.error.SchedErr.TheVariants.{NoMemory as OutOfMemory};

use ledger_file::Ledger;
use stage_plan::Conflict;
use xdr_core::NoMemory;

/// Why a set was not run by a schedule.
#[derive(Drop)]
pub enum SchedErr<'a> {
    /// Two clusters of a stage conflict. Nothing ran, and the ledger is as before.
    Conflict {
        /// The index of the stage in the set.
        stage: usize,
        found: Conflict<'a>,
        ledger: Ledger,
    },
    /// The schedule is not complete for the set. Nothing ran, and the ledger is as before.
    Incomplete {
        /// The least index at which a stage has no list, a list has no stage, or a list is not complete.
        stage: usize,
        ledger: Ledger,
    },
    /// Out of memory. The ledger is dropped.
    NoMemory,
}

impl<'a> From<NoMemory> for SchedErr<'a> {
    ghost from_gives = { λ _ e. e ≡ OutOfMemory };

    fn from(_e: NoMemory) -> SchedErr<'a> {
        SchedErr::NoMemory
    }
}
