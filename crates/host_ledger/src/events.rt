//! Module x: events.

ghost use Rattle.std.specs.Prelude.{◌≡◌, ◌++◌, List, [], ◌∷◌, IfErr};
ghost use Rattle.host_interface.specs.declared.kinds.ArgKind.TheVariants as kinds;
ghost use Rattle.host_frame.specs.Answered.{answer_of};
ghost use Rattle.call_spec.specs.World.{World, Env};
ghost use Rattle.call_spec.specs.Outcomes.{quiet, Says};
ghost use Rattle.call_spec.specs.Rules.{answered};
ghost use Rattle.call_spec.specs.Events.{contract_event};
ghost use Rattle.host_ledger.specs.Worlds.{IsReady};
ghost use Rattle.host_ledger.specs.Answered.{Answers};
ghost use Rattle.host_acts.specs.Answered.{IsMadeIfOk};
ghost use Rattle.host_acts.specs.Spelled.{IsKeySpelled};

use crate::state::HostLedger;
use budget_meter::Budget;
use contract_storage::{Moment, Watch};
use entry_lookup::Ground;
use host_acts::{Events, emit, event_of};
use host_frame::{Answer, Values, enter};
use host_spec::HostErr;
use value_types::Hash;

/// The body of `contract_event`.
fn emit_event(
    events: &mut Events,
    budget: &mut Budget,
    values: &Values<'_>,
    contract: Hash,
    a: u64,
    b: u64,
) -> Result<Answer, HostErr>
    ensures does { (env : Env) (w : World) → w.events ≡ events.old → w.meter ≡ budget.old → w.frame.shown ≡ values.now
        → w.frame.contract ≡ contract
        → Says result answer_of (answered (kinds.Vec ∷ kinds.Value ∷ []) contract_event (a ∷ b ∷ []) w)
        (quiet w (λ trace. record w { events = events.new; trace = trace; meter = budget.new })) }
    ensures made { IsMadeIfOk result }
    ensures later { (more : List _) × (events.new ≡ events.old ++ more) }
    ensures key { IfErr result IsKeySpelled }
{
    let topics = values.vec(a)?;
    let content = values.value(b)?;
    enter(budget, &[a, b])?;
    let event = event_of(values.allocator(), contract, topics, content.get())?;
    emit(events, budget, event)
}

/// Appends an event of the contract that runs.
fn append_event<G: Ground, W: Watch>(
    host: &mut HostLedger<'_, G, W>,
    a: u64,
    b: u64,
) -> Result<Answer, HostErr>
    requires { IsReady host.old }
    ensures does { Answers result (kinds.Vec ∷ kinds.Value ∷ []) (λ _. contract_event) (a ∷ b ∷ []) host.old host.new }
    ensures key { IfErr result IsKeySpelled }
{
    let values = Values::new(&host.objects, &host.frame.shown);
    emit_event(
        &mut host.events,
        &mut host.budget,
        &values,
        host.frame.contract,
        a,
        b,
    )
}

/// Tells the observer of the newest event.
pub(crate) fn tell_emitted<G: Ground, W: Watch>(host: &mut HostLedger<'_, G, W>)
    ensures { host.new ≡ host.old }
{
    if let [.., event] = host.events.as_slice() {
        host.storage.tell(Moment::Emitted { event });
    }
}

/// `contract_event`: appends an event of the contract that runs.
pub fn contract_event<G: Ground, W: Watch>(
    host: &mut HostLedger<'_, G, W>,
    a: u64,
    b: u64,
) -> Result<Answer, HostErr>
    requires { IsReady host.old }
    ensures does { Answers result (kinds.Vec ∷ kinds.Value ∷ []) (λ _. contract_event) (a ∷ b ∷ []) host.old host.new }
    ensures key { IfErr result IsKeySpelled }
{
    let answer = append_event(host, a, b);
    if answer.is_ok() {
        tell_emitted(host);
    }
    answer
}
