//! The state in which contracts run.

use budget_meter::Budget;
use contract_storage::{Storage, Watch};
use entry_lookup::Ground;
use host_acts::Events;
use instance_storage::InstanceStorage;
use invoke_types::Function;
use ledger_types::Header;
use object_store::{Objects, Shown};
use value_types::Hash;

/// What a frame copies of its contract's instance.
#[derive(Drop)]
pub struct InstanceCopy {
    /// The hash of the code.
    pub code: Hash,
    /// Instance storage.
    pub storage: InstanceStorage,
}

/// One run of a contract's function, but for the linear memory, which the WebAssembly instance of the run holds.
#[derive(Drop)]
pub struct Frame {
    pub contract: Hash,
    /// The contract that called or created it, if a contract did.
    pub caller: Option<Hash>,
    /// The called function with its arguments, as an authorisation names it.
    pub function: Function,
    /// The hash of the code that runs. An update of the contract's code leaves it.
    pub code: Hash,
    /// The instance at the start of the frame.
    pub first: InstanceCopy,
    pub copy: InstanceCopy,
    /// What was shown to it.
    pub shown: Shown,
    /// The numbers of the calls and creates that lead from the transaction to the frame.
    pub path: Vec<u64>,
    /// How many calls and creates it has begun.
    pub begun: u64,
}

/// The state in which contracts run: the ledger's entries, events and budget of one transaction, and the running frame with its
/// values.
#[derive(Drop)]
pub struct HostLedger<'a, G: Ground, W: Watch> {
    /// The header of the ledger before the one that is made, with the close time of the one that is made.
    pub header: &'a Header,
    pub storage: Storage<'a, G, W>,
    /// All events so far, the newest last.
    pub events: Events,
    pub budget: Budget,
    /// The values that the running frame may refer to. They live as long as the frame.
    pub objects: Objects,
    pub frame: Frame,
}
