//! Module l: the lives of the contract's instance and of its code.

ghost use Rattle.std.specs.Prelude.{◌≡◌, [], ◌∷◌, IfErr};
ghost use Rattle.host_interface.specs.declared.kinds.ArgKind.TheVariants as kinds;
ghost use Rattle.host_frame.specs.Answered.{answer_of};
ghost use Rattle.contract_storage.specs.Stored.{IsLater};
ghost use Rattle.call_spec.specs.World.{World, Env};
ghost use Rattle.call_spec.specs.Outcomes.{Says};
ghost use Rattle.host_acts.specs.Traced.{leaving};
ghost use Rattle.call_spec.specs.Rules.{answered};
ghost use Rattle.call_spec.specs.Storage.{extend_current_contract_instance_and_code_ttl};
ghost use Rattle.host_ledger.specs.Worlds.{IsReady};
ghost use Rattle.host_acts.specs.Served.{Serves};
ghost use Rattle.host_ledger.specs.Answered.{Answers};
ghost use Rattle.host_acts.specs.Answered.{IsMadeIfOk};
ghost use Rattle.host_acts.specs.Spelled.{IsKeySpelled};

use crate::state::HostLedger;
use budget_meter::Budget;
use contract_storage::{Storage, Watch};
use entry_lookup::Ground;
use host_acts::extend_lives;
use host_frame::{Answer, Values, enter};
use host_spec::HostErr;
use value_types::Hash;

/// The body of `extend_current_contract_instance_and_code_ttl`.
fn extend_instance<G: Ground, W: Watch>(
    storage: &mut Storage<'_, G, W>,
    budget: &mut Budget,
    values: &Values<'_>,
    contract: Hash,
    code: Hash,
    a: u64,
    b: u64,
) -> Result<Answer, HostErr>
    ensures does { (env : Env) → Serves env storage.old → (w : World) → w.entries ≡ storage.old.map → w.meter ≡ budget.old
        → w.frame.shown ≡ values.now → w.frame.contract ≡ contract → w.frame.code ≡ code
        → Says result answer_of (answered (kinds.U32 ∷ kinds.U32 ∷ []) (extend_current_contract_instance_and_code_ttl env)
        (a ∷ b ∷ []) w)
        (leaving storage.old storage.new w.trace
        (λ trace. record w { entries = storage.new.map; trace = trace; meter = budget.new })) }
    ensures made { IsMadeIfOk result }
    ensures later { IsLater storage.old storage.new }
    ensures key { IfErr result IsKeySpelled }
{
    let threshold = values.number32(a)?;
    let extend_to = values.number32(b)?;
    enter(budget, &[a, b])?;
    extend_lives(storage, contract, code, threshold, extend_to)
}

/// `extend_current_contract_instance_and_code_ttl`: extends the life of the contract's instance, then that of the code that runs.
pub fn extend_current_contract_instance_and_code_ttl<G: Ground, W: Watch>(
    host: &mut HostLedger<'_, G, W>,
    a: u64,
    b: u64,
) -> Result<Answer, HostErr>
    requires { IsReady host.old }
    ensures does { Answers result (kinds.U32 ∷ kinds.U32 ∷ []) extend_current_contract_instance_and_code_ttl
        (a ∷ b ∷ []) host.old host.new }
    ensures key { IfErr result IsKeySpelled }
{
    let values = Values::new(&host.objects, &host.frame.shown);
    extend_instance(
        &mut host.storage,
        &mut host.budget,
        &values,
        host.frame.contract,
        host.frame.code,
        a,
        b,
    )
}
