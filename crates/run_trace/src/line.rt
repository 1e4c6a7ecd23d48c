//! The lines of a trace.

use budget_meter::Used;
use contract_storage::{Access, Met, Outcome};
use invoke_types::{ContractEvent, Function};
use ledger_types::LedgerKey;
use value_types::{Blob, Items, ScAddress, ScError, ScVal};

/// How a call ended.
#[derive(Drop)]
pub enum Ending {
    Value(ScVal),
    Failed(ScError),
    /// A charge would have exceeded a limit.
    Spent,
    /// The footprint does not allow an access of this key.
    Undeclared(LedgerKey),
    /// The entry at this key is archived.
    Archived(LedgerKey),
    NoMemory,
}

/// What came of a call before it ended.
#[derive(Clone, Copy, Debug, PartialEq, Eq)]
pub enum Manner {
    /// Its frame did not begin.
    NotRun,
    /// Its frame began.
    Run,
    /// It is the frame of a constructor, which is run by a create.
    Constructor,
}

/// What happened at a moment of a run.
#[derive(Drop)]
pub enum What {
    /// A call began with its tests, or the frame of a constructor began.
    Called {
        address: ScAddress,
        function: Blob,
        args: Items<ScVal, 4294967295>,
    },
    /// An access that is allowed was made.
    Accessed {
        access: Access,
        key: LedgerKey,
        outcome: Outcome,
    },
    /// The running frame demanded an authorisation.
    Demanded {
        address: ScAddress,
        function: Function,
        met: Met,
    },
    /// The running frame emitted an event.
    Emitted(ContractEvent),
    /// The call that began last, and had not ended yet, ended.
    Ended {
        ending: Ending,
        /// What the call took, with all that it called.
        took: Used,
        manner: Manner,
    },
}

/// A line of a trace.
#[derive(Drop)]
pub struct Line {
    /// How many calls were open. A call is around the line of its end, too.
    pub depth: usize,
    pub what: What,
}
