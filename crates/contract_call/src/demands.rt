//! Demands of authorisation, but for the runs of contracts that are asked.

ghost use Rattle.std.specs.Prelude.{◌≡◌, IfOk, IfErr, slice_get};
ghost use Rattle.value_types.specs.Datum.{void};
ghost use Rattle.value_types.specs.Views.{datum, datums};
ghost use Rattle.auth_types.specs.AuthEntry.{auth_entry_format};
ghost use Rattle.host_spec.specs.declared.error.HostErr.TheVariants as ends;
ghost use Rattle.contract_storage.specs.Stored.{IsLater};
ghost use Rattle.call_spec.specs.World.{World, Env};
ghost use Rattle.call_spec.specs.Outcomes.{Says};
ghost use Rattle.host_ledger.specs.Traced.{leaving};
ghost use Rattle.host_ledger.specs.Worlds.{called_name, IsEnv, IsReady};
ghost use Rattle.host_ledger.specs.Spelled.{IsKeySpelled};
ghost use Rattle.auth_parts.specs.Asked.{asks_first};
ghost use Rattle.auth_parts.specs.Views.{asked, IsAskedHosted};
ghost use Rattle.contract_call.specs.Made.{IsValued};
ghost use Rattle.contract_call.specs.Demanded.{called, asks_at, granted as granted_to, checked as checked_by};
ghost use Rattle.call_host.specs.Worlds.{DoesAround, MayRun, Stays};

use crate::errors::DENIED;
use auth_parts::{Asked, ask};
use auth_trees::Authority;
use auth_types::AuthEntry;
use call_host::{Host, clone_bytes, contract_function, name_of};
use contract_storage::Watch;
use entry_lookup::Ground;
use host_frame::Answer;
use host_ledger::HostLedger;
use host_spec::HostErr;
use invoke_types::{Args, Function};
use ledger_types::Verdicts;
use value_types::{Hash, ScVal};

/// The running frame's function with these arguments, as an authorisation names it. Its only error is memory.
pub(crate) fn call_with<G: Ground, A: Authority, W: Watch>(
    host: &Host<'_, G, A, W>,
    args: Args,
) -> Result<Function, HostErr>
    ensures ok { IfOk result (λ f. f ≡ called host.now.ledger.frame.contract (called_name host.now.ledger.frame.function)
        (datums args)) }
    ensures memory { IfErr result (λ e. e ≡ ends.NoMemory) }
{
    match clone_bytes(host.allocator(), name_of(&host.ledger.frame.function)) {
        Ok(name) => Ok(contract_function(host.ledger.frame.contract, name, args)),
        Err(error) => Err(error),
    }
}

/// Asks the address of an authorisation entry over the ledger's state.
fn ask_in<G: Ground, W: Watch>(
    ledger: &mut HostLedger<'_, G, W>,
    verdicts: &Verdicts,
    entry: &AuthEntry,
) -> Result<Asked, HostErr>
    requires ready { IsReady ledger.old }
    requires fits { auth_entry_format.fits entry.now }
    ensures does { (env : Env) → IsEnv env ledger.old → env.authority.verdicts ≡ verdicts.now → (w : World)
        → w.entries ≡ ledger.old.storage.map → w.meter ≡ ledger.old.budget
        → Says result asked (asks_first env entry.now w)
        (leaving ledger.old.storage ledger.new.storage w.trace
        (λ trace. record w { entries = ledger.new.storage.map; trace = trace; meter = ledger.new.budget })) }
    ensures hosted { IfOk result IsAskedHosted }
    ensures later { IsLater ledger.old.storage ledger.new.storage }
    ensures kept { ledger.new ≡ record ledger.old { storage = ledger.new.storage; budget = ledger.new.budget } }
    ensures key { IfErr result IsKeySpelled }
{
    ask(
        ledger.objects.allocator(),
        &mut ledger.storage,
        &mut ledger.budget,
        ledger.header,
        verdicts,
        entry,
    )
}

/// Asks the address of the authorisation entry at an index: what is left is the run of a contract's own function.
pub(crate) fn ask_entry<G: Ground, A: Authority, W: Watch>(
    host: &mut Host<'_, G, A, W>,
    index: usize,
) -> Result<Asked, HostErr>
    requires ready { MayRun host.old }
    ensures does { DoesAround result asked (λ env. asks_at env (slice_get env.authority.entries index)) host.old host.new }
    ensures hosted { IfOk result IsAskedHosted }
    ensures stays { Stays host.old host.new }
    ensures key { IfErr result IsKeySpelled }
{
    match host.marks.entry(index) {
        Some(entry) => ask_in(&mut host.ledger, host.verdicts, entry),
        None => Err(DENIED),
    }
}

/// Void, if a demand was met.
pub(crate) fn authorised(met: Result<(), HostErr>) -> Result<Answer, HostErr>
    ensures does { IsValued met (λ _. void) result }
    ensures key { IfErr met IsKeySpelled → IfErr result IsKeySpelled }
{
    match met {
        Ok(()) => Ok(Answer::void()),
        Err(error) => Err(error),
    }
}

/// The id of a new contract, if its deployer authorised the create.
pub(crate) fn granted(met: Result<(), HostErr>, id: Hash) -> Result<Hash, HostErr>
    ensures does { result ≡ granted_to met id }
    ensures key { IfErr met IsKeySpelled → IfErr result IsKeySpelled }
{
    match met {
        Ok(()) => Ok(id),
        Err(error) => Err(error),
    }
}

/// What the function that checks an authorisation decides: it returns Void if the authorisation is good. Any failure is one of
/// authorisation.
pub(crate) fn checked(returned: Result<ScVal, HostErr>) -> Result<(), HostErr>
    ensures does { result ≡ checked_by returned }
    ensures key { IfErr returned IsKeySpelled → IfErr result IsKeySpelled }
{
    match returned {
        Ok(ScVal::Void) => Ok(()),
        Ok(_) => Err(DENIED),
        Err(HostErr::Failed(_)) => Err(DENIED),
        Err(error) => Err(error),
    }
}
