//! What a call finds before it enters a frame.

ghost use Rattle.std.specs.Prelude.{◌≡◌, Option, Some, None, IfOk, reverse, IfErr};
ghost use Rattle.std.specs.List.{list_any};
ghost use Rattle.std.specs.Str.{bytes_eq};
ghost use Rattle.value_types.specs.declared.address.ScAddress.TheVariants as addresses;
ghost use Rattle.contract_storage.specs.Stored.{IsRead};
ghost use Rattle.call_spec.specs.World.{World, Env};
ghost use Rattle.call_spec.specs.Acts.{after, gives};
ghost use Rattle.call_spec.specs.Calling.{is_reserved as is_reserved_in};
ghost use Rattle.call_spec.specs.Outcomes.{quiet, Says};
ghost use Rattle.host_ledger.specs.Traced.{leaving};
ghost use Rattle.call_parts.specs.Steps.{Steps};
ghost use Rattle.host_ledger.specs.Worlds.{Serves, IsHeld, copied};
ghost use Rattle.host_ledger.specs.Spelled.{IsKeySpelled};
ghost use Rattle.call_host.specs.Worlds.{DoesAround, MayRun, Stays};
ghost use Rattle.call_host.specs.Targets.{may_name as may_name_in, tests, target, module_at, target_at as target_at_in};
ghost use Rattle.call_host.specs.Targets.{target_of as target_of_in};

use crate::errors::{OTHER_TYPE, REENTERED, RESERVED_NAME};
use crate::host::Host;
use auth_trees::Authority;
use budget_meter::Budget;
use call_parts::{call_module, find_instance};
use code_cache::{Cache, HeldModule};
use contract_storage::{Storage, Watch};
use entry_lookup::Ground;
use host_ledger::{HostLedger, InstanceCopy};
use host_spec::HostErr;
use std::alloc::Global;
use value_types::{Hash, ScAddress, ScVal};

/// A call of a contract's function.
#[derive(Drop)]
pub struct ContractCall<'c> {
    /// The contract that calls, if a contract does.
    pub caller: Option<Hash>,
    /// Whether the host itself calls.
    pub by_host: bool,
    pub contract: ScAddress,
    pub function: &'c [u8],
    pub args: Vec<ScVal>,
}

/// What is called: a contract, with its instance and the module of the instance's code.
#[derive(Drop)]
pub struct Target<'c> {
    pub contract: Hash,
    pub copy: InstanceCopy,
    pub module: HeldModule<'c>,
}

/// Whether only the host may call functions of this name.
fn is_reserved(function: &[u8]) -> bool
    ensures { result ≡ is_reserved_in function.now }
{
    function.starts_with(b"__")
}

/// Whether the caller may call a function of this name.
pub fn may_name(call: &ContractCall<'_>) -> bool
    ensures { result ≡ may_name_in call.now }
{
    call.by_host || !is_reserved(call.function)
}

/// Whether a contract has an open frame. The newest frames are last.
fn is_running(open: &[Hash], contract: Hash) -> bool
    ensures { result ≡ list_any (λ other. bytes_eq contract.0 other.0) (reverse open.now) }
{
    open.iter().rev().any(|other| contract == *other)
}

/// The contract at the address, if its function may be called now. `named` says whether the caller may call a function of its
/// name.
fn admitted(open: &[Hash], address: ScAddress, named: bool) -> Result<Hash, HostErr>
    ensures does { (w : World) → w.contracts ≡ reverse open.now
        → Says result (λ c. c) (tests named address (λ c. gives c) w) (quiet w (λ trace. w)) }
    ensures key { IfErr result IsKeySpelled }
{
    let ScAddress::Contract(contract) = address else {
        return Err(OTHER_TYPE);
    };
    if !named {
        return Err(RESERVED_NAME);
    }
    if is_running(open, contract) {
        return Err(REENTERED);
    }
    Ok(contract)
}

/// Finds the module of the code of a contract's instance.
fn with_module<'c, G: Ground, W: Watch>(
    alloc: Global,
    storage: &mut Storage<'_, G, W>,
    budget: &mut Budget,
    codes: Option<&'c Cache<'c>>,
    contract: Hash,
    copy: InstanceCopy,
) -> Result<Target<'c>, HostErr>
    requires { IsHeld copy.storage }
    ensures does { Steps result target (λ env. after (module_at env copy.code)
        (λ m. gives (record { contract = contract; instance = copied copy; module_ = m }))) storage.old storage.new budget.old
        budget.new }
    ensures held { IfOk result (λ t. IsHeld t.copy.storage) }
    ensures read { IsRead storage.old storage.new }
    ensures key { IfErr result IsKeySpelled }
{
    match call_module(alloc, storage, budget, codes, copy.code) {
        Ok(module) => Ok(Target {
            contract,
            copy,
            module,
        }),
        Err(error) => Err(error),
    }
}

/// Finds the instance of a contract, and the module of its code.
fn target_at<'c, G: Ground, W: Watch>(
    alloc: Global,
    storage: &mut Storage<'_, G, W>,
    budget: &mut Budget,
    codes: Option<&'c Cache<'c>>,
    contract: Hash,
) -> Result<Target<'c>, HostErr>
    ensures does { Steps result target (λ env. target_at_in env contract) storage.old storage.new budget.old budget.new }
    ensures held { IfOk result (λ t. IsHeld t.copy.storage) }
    ensures read { IsRead storage.old storage.new }
    ensures key { IfErr result IsKeySpelled }
{
    match find_instance(storage, budget, contract) {
        Ok(copy) => with_module(alloc, storage, budget, codes, contract, copy),
        Err(error) => Err(error),
    }
}

/// Finds the target of a call, by the call's tests in their order.
pub(crate) fn target_of<'c, G: Ground, W: Watch>(
    alloc: Global,
    open: &[Hash],
    storage: &mut Storage<'_, G, W>,
    budget: &mut Budget,
    codes: Option<&'c Cache<'c>>,
    address: ScAddress,
    named: bool,
) -> Result<Target<'c>, HostErr>
    ensures does { (env : Env) → Serves env storage.old → (w : World) → w.entries ≡ storage.old.map → w.meter ≡ budget.old
        → w.contracts ≡ reverse open.now
        → Says result target (target_of_in named address env w)
        (leaving storage.old storage.new w.trace
        (λ trace. record w { entries = storage.new.map; trace = trace; meter = budget.new })) }
    ensures held { IfOk result (λ t. IsHeld t.copy.storage) }
    ensures read { IsRead storage.old storage.new }
    ensures key { IfErr result IsKeySpelled }
{
    match admitted(open, address, named) {
        Ok(contract) => target_at(alloc, storage, budget, codes, contract),
        Err(error) => Err(error),
    }
}

/// Finds the target of a call in the host's ledger.
fn target_in<'c, G: Ground, W: Watch>(
    ledger: &mut HostLedger<'_, G, W>,
    open: &[Hash],
    codes: Option<&'c Cache<'c>>,
    contract: ScAddress,
    named: bool,
) -> Result<Target<'c>, HostErr>
    ensures does { (env : Env) → Serves env ledger.old.storage → (w : World) → w.entries ≡ ledger.old.storage.map
        → w.meter ≡ ledger.old.budget → w.contracts ≡ reverse open.now
        → Says result target (target_of_in named contract env w)
        (leaving ledger.old.storage ledger.new.storage w.trace
        (λ trace. record w { entries = ledger.new.storage.map; trace = trace; meter = ledger.new.budget })) }
    ensures held { IfOk result (λ t. IsHeld t.copy.storage) }
    ensures read { IsRead ledger.old.storage ledger.new.storage }
    ensures stays { ledger.new ≡ record ledger.old { storage = ledger.new.storage; budget = ledger.new.budget } }
    ensures key { IfErr result IsKeySpelled }
{
    target_of(
        ledger.objects.allocator(),
        open,
        &mut ledger.storage,
        &mut ledger.budget,
        codes,
        contract,
        named,
    )
}

/// Finds what is called: makes the call's tests in their order, then finds the contract's instance and its module. `named` says
/// whether the caller may call a function of the call's name.
pub fn find_target<'c, G: Ground, A: Authority, W: Watch>(
    host: &mut Host<'c, G, A, W>,
    contract: ScAddress,
    named: bool,
) -> Result<Target<'c>, HostErr>
    requires ready { MayRun host.old }
    ensures does { DoesAround result target (target_of_in named contract) host.old host.new }
    ensures held { IfOk result (λ t. IsHeld t.copy.storage) }
    ensures stays { Stays host.old host.new }
    ensures key { IfErr result IsKeySpelled }
{
    target_in(&mut host.ledger, &host.open, host.codes, contract, named)
}
