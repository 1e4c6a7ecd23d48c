//! Observers of a run.

ghost use Rattle.std.specs.Prelude.{◌≡◌};
ghost use Rattle.ledger_types.specs.Key.{key_format};
ghost use Rattle.contract_storage.specs.Watched.{unseen, see};

use crate::access::Access;
use budget_meter::Used;
use invoke_types::{ContractEvent, Function};
use ledger_types::LedgerKey;
use value_types::{Hash, ScAddress, ScError, ScVal};

/// How an access that is allowed ended.
#[derive(Clone, Copy, Debug, PartialEq, Eq)]
pub enum Outcome {
    /// A live entry was found, or the change was made.
    Done,
    /// There is no live entry.
    Missing,
    /// The entry is archived.
    Archived,
    /// A temporary entry would live too long.
    Refused,
}

/// What met a demand.
#[derive(Clone, Copy, Debug, PartialEq, Eq)]
pub enum Met {
    /// A node of this entry, which is the root if it is the first one.
    ByEntry { entry: usize, first: bool },
    /// The direct caller.
    ByCaller,
    /// Nothing.
    Denied,
    /// A recorder noted it.
    Noted,
    /// A recorder ran out of memory.
    NoMemory,
}

/// How a call ended.
#[derive(Clone, Copy)]
pub enum End<'m> {
    Value(&'m ScVal),
    Failed(ScError),
    Spent,
    Undeclared(&'m LedgerKey),
    Archived(&'m LedgerKey),
    NoMemory,
}

/// A moment of a run. All sums are those of the whole run so far.
#[derive(Clone, Copy)]
pub enum Moment<'m> {
    /// A call begins with its tests: by a contract, or by the transaction or the host.
    Called {
        caller: Option<Hash>,
        address: ScAddress,
        function: &'m [u8],
        args: &'m [ScVal],
        used: Used,
    },
    /// The frame of a call or of a constructor begins.
    Begun {
        contract: Hash,
        caller: Option<Hash>,
        function: &'m [u8],
        args: &'m [ScVal],
        used: Used,
    },
    /// The running frame emits an event. If a call around it fails, the event is dropped later.
    Emitted {
        event: &'m ContractEvent,
    },
    /// The frame that began last, and has not ended yet, ends.
    Ended {
        end: End<'m>,
        used: Used,
    },
    /// The call that began last, and has not returned yet, returns. If it failed before its frame began, then a test of the call
    /// failed.
    Returned {
        end: End<'m>,
        used: Used,
    },
    /// The running frame demands an authorisation.
    Demanded {
        address: ScAddress,
        function: &'m Function,
        met: Met,
    },
}

/// An observer of a run. It has its memory from the start, so it cannot fail: it keeps accesses while their keys fit.
pub trait Watch: Drop {
    /// What it has seen of the accesses.
    ghost seen: { Self → Rattle.contract_storage.specs.Watched.Seen };

    /// Whether it wants the outcomes of look-ups. Then a look-up looks at its slot twice.
    fn is_on(&self) -> bool;

    /// An access that is allowed was made.
    fn accessed(&mut self, access: Access, key: &LedgerKey, outcome: Outcome)
        requires { key_format.fits key.now }
        ensures { seen self.new ≡ see access key.now (seen self.old) };

    /// Something else happened.
    fn told(&mut self, moment: Moment<'_>)
        ensures { seen self.new ≡ seen self.old };
}

/// The observer that sees nothing and costs nothing.
#[derive(Clone, Copy)]
pub struct NoWatch;

impl Watch for NoWatch {
    ghost seen = { λ w. unseen 0 };

    fn is_on(&self) -> bool {
        false
    }

    fn accessed(&mut self, access: Access, key: &LedgerKey, outcome: Outcome) {
        let _ = access;
        let _ = key;
        let _ = outcome;
    }

    fn told(&mut self, moment: Moment<'_>) {
        let _ = moment;
    }
}
