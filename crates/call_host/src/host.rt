//! The state of one transaction's run.

ghost use Rattle.std.specs.Prelude.{◌≡◌, ◌-◌, ◌++◌, ◌∷◌, [], All, None, length, take, IfOk, OnOk, IfErr, OnErr};
ghost use Rattle.auth_types.specs.AuthEntry.{auth_entry_format};
ghost use Rattle.host_spec.specs.declared.error.HostErr.TheVariants as ends;
ghost use Rattle.contract_storage.specs.Stored.{HasBounds};
ghost use Rattle.call_spec.specs.World.{next_seq};
ghost use Rattle.host_ledger.specs.Worlds.{called_name, called_args, IsCallOf};
ghost use Rattle.call_host.specs.Worlds.{numbered, IsOpened, IsClosed, MayRun};

use crate::functions::contract_function;
use crate::paths::begin_in;
use crate::telling::{tell_begun, tell_ended};
use auth_trees::{Authorising, Authority};
use budget_meter::Budget;
use code_cache::Cache;
use contract_storage::{Storage, Watch};
use entry_lookup::Ground;
use host_ledger::{Events, Frame, HostLedger, InstanceCopy, InstanceStorage};
use host_spec::HostErr;
use invoke_types::{Args, Function};
use ledger_types::{Header, Verdicts};
use object_store::{Objects, Shown};
use std::alloc::Global;
use value_types::{Hash, ScVal};

/// The state of one transaction's run: what the functions over the ledger work on, the contracts with an open frame, and what may
/// meet demands of authorisation. It serves one `invoke`, `upload` or `create`.
#[derive(Drop)]
pub struct Host<'a, G: Ground, A: Authority, W: Watch> {
    pub ledger: HostLedger<'a, G, W>,
    /// The oldest first.
    pub open: Vec<Hash>,
    /// What meets demands of authorisation: the operation's entries, with the nodes that met demands, or a recorder.
    pub marks: Authorising<A>,
    /// The signatures of accounts that are known to be good.
    pub verdicts: &'a Verdicts,
    /// Codes that threads share. They save the loading of modules, and change no result.
    pub codes: Option<&'a Cache<'a>>,
}

/// A frame that waits while another one runs, with its values.
#[derive(Drop)]
pub struct SuspendedFrame {
    pub frame: Frame,
    pub objects: Objects,
}

/// An instance of no contract.
fn no_instance() -> InstanceCopy
    ensures { result.storage ≡ None }
{
    InstanceCopy {
        code: Hash([0; 32]),
        storage: InstanceStorage::null(),
    }
}

/// The function of a contract that has no name and takes no arguments.
fn no_function(alloc: Global, contract: Hash) -> Function
    ensures name { called_name result ≡ [] }
    ensures args { called_args result ≡ [] }
    ensures called { IsCallOf contract result }
{
    let name = Vec::new(alloc);
    contract_function(contract, name, Args::none())
}

/// The frame of no contract: the transaction itself.
fn outside(alloc: Global) -> Frame
    ensures function { called_name result.function ≡ [] }
    ensures args { called_args result.function ≡ [] }
    ensures called { IsCallOf result.contract result.function }
    ensures copy { result.copy.storage ≡ None }
    ensures shown { result.shown ≡ [] }
    ensures path { result.path.items ≡ [] }
    ensures begun { result.begun ≡ 0 }
{
    let contract = Hash([0; 32]);
    Frame {
        contract,
        caller: None,
        function: no_function(alloc, contract),
        code: Hash([0; 32]),
        first: no_instance(),
        copy: no_instance(),
        shown: Shown::new(alloc),
        path: Vec::new(alloc),
        begun: 0,
    }
}

impl<'a, G: Ground, A: Authority, W: Watch> Host<'a, G, A, W> {
    /// Makes a host without events and open frames. `header` is that of the ledger before the one that is made, with the close
    /// time of the one that is made. `marks` meets demands, as the operation's authorisation entries do. `codes` keeps
    /// each code that it loads for later hosts; two threads may both load one.
    pub fn new(
        alloc: Global,
        storage: Storage<'a, G, W>,
        header: &'a Header,
        budget: Budget,
        marks: A,
        verdicts: &'a Verdicts,
        codes: Option<&'a Cache<'a>>,
    ) -> Host<'a, G, A, W>
        requires bounds { HasBounds (next_seq header.now) header.now.settings }
        requires number { storage.n ≡ next_seq header.now }
        requires lives { storage.lives ≡ header.now.settings }
        requires entries { All auth_entry_format.fits (A.authorised marks).entries }
        ensures storage { result.ledger.storage ≡ storage.entry }
        ensures header { result.ledger.header.now ≡ header.now }
        ensures budget { result.ledger.budget ≡ budget }
        ensures events { result.ledger.events ≡ [] }
        ensures contracts { result.open.items ≡ [] }
        ensures marks { result.marks ≡ A.authorised marks }
        ensures verdicts { result.verdicts.now ≡ verdicts.now }
        ensures function { called_name result.ledger.frame.function ≡ [] }
        ensures args { called_args result.ledger.frame.function ≡ [] }
        ensures path { result.ledger.frame.path.items ≡ [] }
        ensures begun { result.ledger.frame.begun ≡ 0 }
        ensures ready { MayRun result }
    {
        Host {
            ledger: HostLedger {
                header,
                storage,
                events: Events::new(alloc),
                budget,
                objects: Objects::new(alloc),
                frame: outside(alloc),
            },
            open: Vec::new(alloc),
            marks: Authorising::new(marks),
            verdicts,
            codes,
        }
    }

    /// Where new values take their memory from.
    pub fn allocator(&self) -> Global {
        *self.open.allocator()
    }

    /// Appends a contract to those with an open frame. Its only error is memory.
    fn push(&mut self, contract: Hash) -> Result<(), HostErr>
        ensures ok { OnOk result (self.new.open.items ≡ self.old.open.items ++ contract ∷ []) }
        ensures memory { IfErr result (λ e. e ≡ ends.NoMemory) }
        ensures err { OnErr result (self.new.open.items ≡ self.old.open.items) }
        ensures rest { self.new ≡ record self.old { «open» = self.new.open } }
    {
        match self.open.push(contract) {
            Ok(()) => Ok(()),
            Err(_) => Err(HostErr::NoMemory),
        }
    }

    /// Opens a frame, which has shown nothing yet. Returns the frame that waits. Its only error is memory.
    pub fn open_frame(&mut self, frame: Frame) -> Result<SuspendedFrame, HostErr>
        ensures suspended { IfOk result (λ w. w.frame ≡ self.old.ledger.frame) }
        ensures objects { IfOk result (λ w. w.objects ≡ self.old.ledger.objects) }
        ensures frame { OnOk result (IsOpened frame self.old self.new) }
        ensures contracts { OnOk result (self.new.open.items ≡ self.old.open.items ++ frame.contract ∷ []) }
        ensures memory { IfErr result (λ e. e ≡ ends.NoMemory) }
        ensures err { OnErr result (self.new ≡ record self.old { «open» = self.new.open }) }
        ensures same { OnErr result (self.new.open.items ≡ self.old.open.items) }
    {
        let alloc = self.allocator();
        match self.push(frame.contract) {
            Err(error) => Err(error),
            Ok(()) => {
                let objects = std::mem::replace(&mut self.ledger.objects, Objects::new(alloc));
                let frame = std::mem::replace(&mut self.ledger.frame, frame);
                tell_begun(self);
                Ok(SuspendedFrame { frame, objects })
            }
        }
    }

    /// Closes the running frame, which ended so, and goes back to the one that waits.
    pub fn close_frame(&mut self, end: &Result<ScVal, HostErr>, suspended: SuspendedFrame)
        ensures frame { IsClosed suspended.objects suspended.frame self.old self.new }
        ensures contracts { self.new.open.items ≡ take (length self.old.open.items - 1) self.old.open.items }
    {
        tell_ended(self, end);
        self.ledger.objects = suspended.objects;
        self.ledger.frame = suspended.frame;
        let _contract = self.open.pop();
    }

    /// Counts a call or create that the running frame begins, and returns its path. Its only error is memory.
    pub fn begin(&mut self) -> Result<Vec<u64>, HostErr>
        ensures path { IfOk result (λ path. path.items ≡ self.old.ledger.frame.path.items ++ self.old.ledger.frame.begun ∷ []) }
        ensures count { IfOk result (λ path. self.new ≡ numbered self.old) }
        ensures err { IfErr result (λ e. self.new ≡ self.old) }
        ensures memory { IfErr result (λ e. e ≡ ends.NoMemory) }
    {
        let alloc = self.allocator();
        begin_in(&mut self.ledger.frame, alloc)
    }
}
