//! The events of a run.

ghost use Rattle.std.specs.Prelude.{◌≡◌, ◌<◌, ◌^◌, ◌++◌, [], ◌∷◌, IfErr, OnOk, length, take};
ghost use Rattle.std.specs.List.{AllByRecursion};
ghost use Rattle.invoke_types.specs.Event.{event_format};
ghost use Rattle.host_spec.specs.declared.error.ValueErr.TheVariants as errs;

use host_spec::ValueErr;
use invoke_types::ContractEvent;
use std::alloc::Global;
use std::marker::Model;

/// The number of events that a list has a spelling for.
const MOST_EVENTS: usize = 4_294_967_295;

/// All events of a run, the newest last. Each of them has a spelling, and so has the list.
#[derive(Drop)]
pub struct Events {
    list: Vec<ContractEvent>,
}

impl Model for Events {
    ghost use Rattle.std.specs.Prelude.{List};
    ghost use Rattle.std.specs.Coded.{coded_list};
    ghost use Rattle.invoke_types.specs.declared.event.ContractEvent.{ContractEvent};
    ghost use Rattle.invoke_types.specs.contracts.event.ContractEvent as event;

    ghost Value = { List ContractEvent };

    ghost coded = { coded_list event.the_row.coded };

    ghost use Rattle.host_acts.specs.EventLists.{AreSpelled};

    ghost view = { λ e. e.list.items };

    ghost invariant = { λ e. AreSpelled e.list.items };
}

impl Events {
    /// Makes a list of no events.
    #[tactic(auto, using(crate::proofs::EventLists::spelled_none))]
    pub fn new(alloc: Global) -> Events
        ensures { result ≡ [] }
    {
        Events {
            list: Vec::new(alloc),
        }
    }

    /// The number of events.
    pub fn len(&self) -> usize
        ensures { result ≡ length self.now }
    {
        self.list.len()
    }

    /// Appends an event. If memory runs out, or there are 2^32 - 1 events already, the list stays as it was.
    #[tactic(auto, using(crate::proofs::EventLists::spelled_more))]
    pub fn push(&mut self, event: ContractEvent) -> Result<(), ValueErr>
        requires { event_format.fits event }
        ensures ok { OnOk result (self.new ≡ self.old ++ event ∷ []) }
        ensures memory { IfErr result (λ e. (e ≡ errs.NoMemory) × (self.new ≡ self.old)) }
    {
        if self.list.len() >= MOST_EVENTS {
            return Err(ValueErr::NoMemory);
        }
        self.list.push(event)?;
        Ok(())
    }

    /// Removes all events but the first `len` ones. It takes no memory.
    #[tactic(auto, using(crate::proofs::EventLists::spelled_taken))]
    pub fn truncate(&mut self, len: usize)
        ensures { self.new ≡ take len self.old }
    {
        self.list.truncate(len);
    }

    /// The events, the newest last.
    pub fn as_slice(&self) -> &[ContractEvent]
        ensures items { result.now ≡ self.now }
        ensures fits { AllByRecursion event_format.fits result.now }
        ensures few { length result.now < 2 ^ 32 }
    {
        self.list.as_slice()
    }

    /// The events as a vector, the newest last.
    pub fn into_vec(self) -> Vec<ContractEvent>
        ensures items { result.items ≡ self }
        ensures fits { AllByRecursion event_format.fits result.items }
        ensures few { length result.items < 2 ^ 32 }
    {
        let Events { list } = self;
        list
    }
}
