//! Module l: the ids of contracts.

ghost use Rattle.std.specs.Prelude.{◌≡◌, [], ◌∷◌, IfErr};
ghost use Rattle.host_interface.specs.declared.kinds.ArgKind.TheVariants as kinds;
ghost use Rattle.host_frame.specs.Answered.{answer_of};
ghost use Rattle.call_spec.specs.World.{World, Env};
ghost use Rattle.call_spec.specs.Creating.{get_contract_id};
ghost use Rattle.call_spec.specs.Outcomes.{quiet, Says};
ghost use Rattle.call_spec.specs.Rules.{answered};
ghost use Rattle.host_ledger.specs.Worlds.{IsReady};
ghost use Rattle.host_ledger.specs.Answered.{Answers};
ghost use Rattle.host_acts.specs.Answered.{IsMadeIfOk};
ghost use Rattle.host_acts.specs.Spelled.{IsKeySpelled};

use crate::state::HostLedger;
use budget_meter::Budget;
use contract_storage::Watch;
use entry_lookup::Ground;
use host_acts::{hash_of, paid_id};
use host_frame::{Answer, Values, enter};
use host_spec::HostErr;
use value_types::Hash;

/// The body of `get_contract_id`.
fn id_of_words(
    budget: &mut Budget,
    values: &Values<'_>,
    network: &Hash,
    a: u64,
    b: u64,
) -> Result<Answer, HostErr>
    ensures does { (env : Env) → env.header.network_id ≡ network.now → (w : World) → w.meter ≡ budget.old
        → w.frame.shown ≡ values.now
        → Says result answer_of (answered (kinds.Address ∷ kinds.Bytes ∷ []) (get_contract_id env) (a ∷ b ∷ []) w)
        (quiet w (λ trace. record w { trace = trace; meter = budget.new })) }
    ensures made { IsMadeIfOk result }
    ensures key { IfErr result IsKeySpelled }
{
    let deployer = values.address(a)?;
    let salt = values.bytes(b)?;
    enter(budget, &[a, b])?;
    match hash_of(salt) {
        Ok(salt) => paid_id(budget, values.allocator(), network, deployer, salt),
        Err(error) => Err(error),
    }
}

/// `get_contract_id`: the id of the contract that an address deploys with a salt.
pub fn get_contract_id<G: Ground, W: Watch>(
    host: &mut HostLedger<'_, G, W>,
    a: u64,
    b: u64,
) -> Result<Answer, HostErr>
    requires { IsReady host.old }
    ensures does { Answers result (kinds.Address ∷ kinds.Bytes ∷ []) get_contract_id (a ∷ b ∷ []) host.old host.new }
    ensures key { IfErr result IsKeySpelled }
{
    let values = Values::new(&host.objects, &host.frame.shown);
    id_of_words(&mut host.budget, &values, &host.header.network_id, a, b)
}
