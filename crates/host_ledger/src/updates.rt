//! Module l: updates of the contract's code.

ghost use Rattle.std.specs.Prelude.{◌≡◌, ◌++◌, List, [], ◌∷◌, IfErr};
ghost use Rattle.host_interface.specs.declared.kinds.ArgKind.TheVariants as kinds;
ghost use Rattle.host_frame.specs.Answered.{answer_of};
ghost use Rattle.contract_storage.specs.Stored.{IsRead};
ghost use Rattle.call_spec.specs.World.{World, Env};
ghost use Rattle.call_spec.specs.Acts.{after, with_frame, sets};
ghost use Rattle.call_spec.specs.Creating.{update_current_contract_wasm, with_code};
ghost use Rattle.call_spec.specs.Events.{update_event as event_of, emits};
ghost use Rattle.call_spec.specs.Found.{code_at as code_in};
ghost use Rattle.call_spec.specs.Outcomes.{quiet, Says};
ghost use Rattle.host_acts.specs.Traced.{leaving};
ghost use Rattle.call_spec.specs.Rules.{answered, nothing};
ghost use Rattle.host_ledger.specs.Worlds.{IsReady, copied};
ghost use Rattle.host_acts.specs.Served.{Serves};
ghost use Rattle.host_ledger.specs.Answered.{Answers};
ghost use Rattle.host_acts.specs.Answered.{IsMadeIfOk};
ghost use Rattle.host_acts.specs.Spelled.{IsKeySpelled};

use crate::events::tell_emitted;
use crate::state::{HostLedger, InstanceCopy};
use budget_meter::Budget;
use contract_storage::{Storage, Watch};
use entry_lookup::Ground;
use host_acts::{Events, code_at, code_key, emit_update, end_of, hash_of};
use host_frame::{Answer, Values, enter};
use host_spec::HostErr;
use std::alloc::Global;
use value_types::Hash;

/// Emits the event of an update, and changes the code of the frame's copy.
fn replace_code(
    events: &mut Events,
    budget: &mut Budget,
    alloc: Global,
    contract: Hash,
    copy: &mut InstanceCopy,
    code: Hash,
) -> Result<Answer, HostErr>
    ensures does { (w : World) → w.events ≡ events.old → w.meter ≡ budget.old → w.frame.contract ≡ contract
        → w.frame.copy ≡ copied copy.old
        → Says result answer_of (with_frame
        (λ frame. after (emits (event_of frame.contract frame.copy.code code)) (λ _. sets (with_code code) nothing)) w)
        (quiet w (λ trace. record w {
          events = events.new;
          trace = trace;
          meter = budget.new;
          frame = record w.frame { copy = copied copy.new };
        })) }
    ensures made { IsMadeIfOk result }
    ensures later { (more : List _) × (events.new ≡ events.old ++ more) }
    ensures storage { copy.new.storage ≡ copy.old.storage }
    ensures key { IfErr result IsKeySpelled }
{
    match emit_update(events, budget, alloc, contract, copy.code, code) {
        Ok(_) => {
            copy.code = code;
            Ok(Answer::void())
        }
        Err(error) => Err(error),
    }
}

/// Updates the code of the frame's copy to one that is in the ledger.
#[tactic(auto, using(host_acts::proofs::Lemmas::access_spelled))]
fn update_to<G: Ground, W: Watch>(
    storage: &mut Storage<'_, G, W>,
    events: &mut Events,
    budget: &mut Budget,
    alloc: Global,
    contract: Hash,
    copy: &mut InstanceCopy,
    code: Hash,
) -> Result<Answer, HostErr>
    ensures does { (env : Env) → Serves env storage.old → (w : World) → w.entries ≡ storage.old.map → w.events ≡ events.old
        → w.meter ≡ budget.old → w.frame.contract ≡ contract → w.frame.copy ≡ copied copy.old
        → Says result answer_of (after (code_in env code)
        (λ _. with_frame (λ frame. after (emits (event_of frame.contract frame.copy.code code))
        (λ _. sets (with_code code) nothing))) w)
        (leaving storage.old storage.new w.trace (λ trace. record w {
          entries = storage.new.map;
          events = events.new;
          trace = trace;
          meter = budget.new;
          frame = record w.frame { copy = copied copy.new };
        })) }
    ensures made { IsMadeIfOk result }
    ensures later { (more : List _) × (events.new ≡ events.old ++ more) }
    ensures storage { copy.new.storage ≡ copy.old.storage }
    ensures read { IsRead storage.old storage.new }
    ensures key { IfErr result IsKeySpelled }
{
    match code_at(storage, code) {
        Ok(_) => replace_code(events, budget, alloc, contract, copy, code),
        Err(error) => Err(end_of(code_key(code), error)),
    }
}

/// The body of `update_current_contract_wasm`.
fn update_code<G: Ground, W: Watch>(
    storage: &mut Storage<'_, G, W>,
    events: &mut Events,
    budget: &mut Budget,
    values: &Values<'_>,
    contract: Hash,
    copy: &mut InstanceCopy,
    a: u64,
) -> Result<Answer, HostErr>
    ensures does { (env : Env) → Serves env storage.old → (w : World) → w.entries ≡ storage.old.map → w.events ≡ events.old
        → w.meter ≡ budget.old → w.frame.shown ≡ values.now → w.frame.contract ≡ contract → w.frame.copy ≡ copied copy.old
        → Says result answer_of (answered (kinds.Bytes ∷ []) (update_current_contract_wasm env) (a ∷ []) w)
        (leaving storage.old storage.new w.trace (λ trace. record w {
          entries = storage.new.map;
          events = events.new;
          trace = trace;
          meter = budget.new;
          frame = record w.frame { copy = copied copy.new };
        })) }
    ensures made { IsMadeIfOk result }
    ensures later { (more : List _) × (events.new ≡ events.old ++ more) }
    ensures storage { copy.new.storage ≡ copy.old.storage }
    ensures read { IsRead storage.old storage.new }
    ensures key { IfErr result IsKeySpelled }
{
    let bytes = values.bytes(a)?;
    enter(budget, &[a])?;
    match hash_of(bytes) {
        Ok(code) => update_to(
            storage,
            events,
            budget,
            values.allocator(),
            contract,
            copy,
            code,
        ),
        Err(error) => Err(error),
    }
}

/// Changes the code of the contract that runs, and appends the event of that.
fn update_running<G: Ground, W: Watch>(
    host: &mut HostLedger<'_, G, W>,
    a: u64,
) -> Result<Answer, HostErr>
    requires { IsReady host.old }
    ensures does { Answers result (kinds.Bytes ∷ []) update_current_contract_wasm (a ∷ []) host.old host.new }
    ensures key { IfErr result IsKeySpelled }
{
    let values = Values::new(&host.objects, &host.frame.shown);
    update_code(
        &mut host.storage,
        &mut host.events,
        &mut host.budget,
        &values,
        host.frame.contract,
        &mut host.frame.copy,
        a,
    )
}

/// `update_current_contract_wasm`: changes the contract's code to one that is in the ledger. The frame goes on with the old one.
pub fn update_current_contract_wasm<G: Ground, W: Watch>(
    host: &mut HostLedger<'_, G, W>,
    a: u64,
) -> Result<Answer, HostErr>
    requires { IsReady host.old }
    ensures does { Answers result (kinds.Bytes ∷ []) update_current_contract_wasm (a ∷ []) host.old host.new }
    ensures key { IfErr result IsKeySpelled }
{
    let answer = update_running(host, a);
    if answer.is_ok() {
        tell_emitted(host);
    }
    answer
}
