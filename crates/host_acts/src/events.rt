//! The events of contracts, and of updates of their code.

ghost use Rattle.std.specs.Prelude.{◌≡◌, ◌++◌, List, IfOk, IfErr};
ghost use Rattle.value_types.specs.Views.{datum, datums, scval};
ghost use Rattle.value_types.specs.Datum.{vec as vec_datum, items_of};
ghost use Rattle.invoke_types.specs.Event.{event_format};
ghost use Rattle.invoke_types.specs.declared.event.ContractEventType.TheVariants as types;
ghost use Rattle.host_spec.specs.Hosted.{IsHosted};
ghost use Rattle.host_spec.specs.declared.error.ValueErr.TheVariants as errs;
ghost use Rattle.host_frame.specs.Answered.{answer_of};
ghost use Rattle.call_spec.specs.World.{World};
ghost use Rattle.call_spec.specs.Outcomes.{quiet, Says};
ghost use Rattle.call_spec.specs.Events.{event_of as event_with, emits, executable_topic as topic_of};
ghost use Rattle.call_spec.specs.Events.{update_event as update_with};
ghost use Rattle.host_acts.specs.Answered.{IsMadeIfOk};
ghost use Rattle.host_acts.specs.Spelled.{IsKeySpelled};

use crate::event_list::Events;
use crate::values::{clone_value, clone_values};
use budget_meter::{Budget, Kind};
use host_frame::{Answer, charge};
use host_spec::{HostErr, ValueErr};
use invoke_types::{ContractEvent, ContractEventType};
use std::alloc::Global;
use value_types::{Blob, Hash, Items, ScVal, ScVals, hash_fits};
use value_xdr::Xdr;

/// Makes an event of a contract.
#[tactic(auto, using(crate::proofs::Emitting::all_same, crate::proofs::Emitting::event_fits, crate::proofs::DataKeys::same_scval))]
pub fn event_of(
    alloc: Global,
    contract: Hash,
    topics: &[ScVal],
    content: &ScVal,
) -> Result<ContractEvent, ValueErr>
    requires topics { IsHosted (vec_datum (items_of (datums topics.now))) }
    requires content { IsHosted (datum content.now) }
    ensures event { IfOk result (λ e. e ≡ event_with types.Contract contract (datums topics.now) (datum content.now)) }
    ensures fits { IfOk result (λ e. event_format.fits e) }
    ensures memory { IfErr result (λ e. e ≡ errs.NoMemory) }
{
    hash_fits(contract);
    let topics = clone_values(alloc, topics)?;
    let data = clone_value(content)?;
    Ok(ContractEvent {
        contract_id: Some(contract),
        event_type: ContractEventType::Contract,
        topics: Items::from_vec(topics),
        data,
    })
}

/// Appends an event, after its charge.
#[tactic(auto, unfolding(call_spec::specs::Events::event_size))]
pub fn emit(
    events: &mut Events,
    budget: &mut Budget,
    event: ContractEvent,
) -> Result<Answer, HostErr>
    requires { event_format.fits event }
    ensures does { (w : World) → w.events ≡ events.old → w.meter ≡ budget.old
        → Says result answer_of (emits event w)
        (quiet w (λ trace. record w { events = events.new; trace = trace; meter = budget.new })) }
    ensures made { IsMadeIfOk result }
    ensures later { (more : List _) × (events.new ≡ events.old ++ more) }
    ensures key { IfErr result IsKeySpelled }
{
    charge(budget, Kind::ValSer, event.size())?;
    events.push(event)?;
    Ok(Answer::void())
}

/// A symbol.
fn symbol_of(alloc: Global, text: &[u8]) -> Result<ScVal, ValueErr>
    ensures value { IfOk result (λ v. v ≡ ScVal.Symbol text.now) }
    ensures memory { IfErr result (λ e. e ≡ errs.NoMemory) }
{
    let content = text.to_vec(alloc)?;
    Ok(ScVal::Symbol(Blob::from_vec(content)))
}

/// The topic of a WebAssembly executable.
fn executable_topic(alloc: Global, code: Hash) -> Result<ScVal, ValueErr>
    ensures value { IfOk result (λ v. v ≡ scval (topic_of code)) }
    ensures memory { IfErr result (λ e. e ≡ errs.NoMemory) }
{
    let mut items = Vec::with_capacity(alloc, 2)?;
    items.push(symbol_of(alloc, b"Wasm")?)?;
    items.push(ScVal::Bytes(Blob::from_vec(code.0.to_vec(alloc)?)))?;
    Ok(ScVal::Vec(Some(ScVals::from_vec(items)?)))
}

/// The event of an update of a contract's code.
fn update_event(
    alloc: Global,
    contract: Hash,
    old: Hash,
    new: Hash,
) -> Result<ContractEvent, ValueErr>
    ensures event { IfOk result (λ e. e ≡ update_with contract old new) }
    ensures memory { IfErr result (λ e. e ≡ errs.NoMemory) }
{
    let mut topics = Vec::with_capacity(alloc, 3)?;
    topics.push(symbol_of(alloc, b"executable_update")?)?;
    topics.push(executable_topic(alloc, old)?)?;
    topics.push(executable_topic(alloc, new)?)?;
    Ok(ContractEvent {
        contract_id: Some(contract),
        event_type: ContractEventType::System,
        topics: Items::from_vec(topics),
        data: ScVal::Vec(Some(ScVals::from_vec(Vec::new(alloc))?)),
    })
}

/// Makes the event of an update of a contract's code, and appends it.
#[tactic(auto, using(crate::proofs::Emitting::update_fits))]
pub fn emit_update(
    events: &mut Events,
    budget: &mut Budget,
    alloc: Global,
    contract: Hash,
    old: Hash,
    new: Hash,
) -> Result<Answer, HostErr>
    ensures does { (w : World) → w.events ≡ events.old → w.meter ≡ budget.old
        → Says result answer_of (emits (update_with contract old new) w)
        (quiet w (λ trace. record w { events = events.new; trace = trace; meter = budget.new })) }
    ensures made { IsMadeIfOk result }
    ensures later { (more : List _) × (events.new ≡ events.old ++ more) }
    ensures key { IfErr result IsKeySpelled }
{
    hash_fits(contract);
    hash_fits(old);
    hash_fits(new);
    let event = update_event(alloc, contract, old, new)?;
    emit(events, budget, event)
}
