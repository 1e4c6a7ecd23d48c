//! The modules of codes, and the starts of their functions.

ghost use Rattle.std.specs.Prelude.{◌≡◌, length, IfOk, IfErr};
ghost use Rattle.budget_meter.specs.declared.kind.Kind.TheVariants as kinds;
ghost use Rattle.module_spec.specs.Loading.{module_of};
ghost use Rattle.host_spec.specs.declared.error.HostErr.TheVariants as ends;
ghost use Rattle.contract_storage.specs.Stored.{IsRead};
ghost use Rattle.call_spec.specs.Acts.{after, gives, paying};
ghost use Rattle.call_spec.specs.Found.{code_at, with_module};
ghost use Rattle.call_parts.specs.Steps.{Steps, Charges, Returns};
ghost use Rattle.call_parts.specs.Started.{IsStarted};
ghost use Rattle.host_ledger.specs.Spelled.{IsKeySpelled};

use crate::charges::pay;
use crate::codes::find_code;
use crate::errors::{NO_FUNCTION, NO_MODULE, OTHER_ARITY, SEGMENT_OUTSIDE};
use budget_meter::{Budget, Kind};
use code_cache::{Cache, HeldModule, module_for};
use contract_storage::{Storage, Watch};
use entry_lookup::Ground;
use host_ledger::{code_key, end_of};
use host_spec::HostErr;
use module_loader::{LinkedModule, LoadErr, load};
use std::alloc::Global;
use value_types::Hash;
use wasm_run::{Instance, StartErr};

/// Loads the valid, linked module that a code encodes, if it encodes one. Its only error is memory.
pub(crate) fn load_module(alloc: Global, code: &[u8]) -> Result<Option<LinkedModule>, HostErr>
    ensures ok { IfOk result (λ m. module_of code.now ≡ m) }
    ensures memory { IfErr result (λ e. e ≡ ends.NoMemory) }
{
    match load(alloc, code) {
        Ok(module) => Ok(Some(module)),
        Err(LoadErr::Flawed(_)) => Ok(None),
        Err(LoadErr::NoMemory) => Err(HostErr::NoMemory),
    }
}

/// Returns the valid, linked module that a code encodes, if it encodes one. If the cache has the code with this hash, its module
/// is borrowed from there. The only error is memory.
pub fn cached_module<'c>(
    alloc: Global,
    codes: Option<&'c Cache<'c>>,
    hash: Hash,
    code: &[u8],
) -> Result<Option<HeldModule<'c>>, HostErr>
    ensures ok { IfOk result (λ m. module_of code.now ≡ m) }
    ensures memory { IfErr result (λ e. e ≡ ends.NoMemory) }
{
    match module_for(alloc, codes, &hash, code) {
        Ok(module) => Ok(module),
        Err(_) => Err(HostErr::NoMemory),
    }
}

/// The module, if there is one.
fn linked<'c>(module: Option<HeldModule<'c>>) -> Result<HeldModule<'c>, HostErr>
    ensures does { Returns result (λ m. m) (with_module «module».entry (λ m. gives m)) }
    ensures key { IfErr result IsKeySpelled }
{
    match module {
        Some(module) => Ok(module),
        None => Err(NO_MODULE),
    }
}

/// Charges for the module of a code of this length, and takes the module.
pub fn paid_module<'c>(
    budget: &mut Budget,
    len: u64,
    module: Option<HeldModule<'c>>,
) -> Result<HeldModule<'c>, HostErr>
    ensures does { Charges result (λ m. m) (paying kinds.VmInstantiation len
        (with_module «module».entry (λ m. gives m))) budget.old budget.new }
    ensures key { IfErr result IsKeySpelled }
{
    match pay(budget, Kind::VmInstantiation, len) {
        Ok(()) => linked(module),
        Err(error) => Err(error),
    }
}

/// Finds the module of a code, which has to have one.
fn found<'c>(
    alloc: Global,
    codes: Option<&'c Cache<'c>>,
    hash: Hash,
    code: &[u8],
) -> Result<HeldModule<'c>, HostErr>
    ensures does { Returns result (λ m. m) (with_module (module_of code.now) (λ m. gives m)) }
    ensures key { IfErr result IsKeySpelled }
{
    match cached_module(alloc, codes, hash, code) {
        Ok(module) => linked(module),
        Err(error) => Err(error),
    }
}

/// Charges for the module of a code, and finds it.
fn read_module<'c>(
    alloc: Global,
    budget: &mut Budget,
    codes: Option<&'c Cache<'c>>,
    hash: Hash,
    code: &[u8],
) -> Result<HeldModule<'c>, HostErr>
    ensures does { Charges result (λ m. m) (paying kinds.VmInstantiation (length code.now)
        (with_module (module_of code.now) (λ m. gives m))) budget.old budget.new }
    ensures key { IfErr result IsKeySpelled }
{
    match pay(budget, Kind::VmInstantiation, code.len() as u64) {
        Ok(()) => found(alloc, codes, hash, code),
        Err(error) => Err(error),
    }
}

/// Finds the code with a hash, and its module. The charge comes before the code is read, and is the same if the cache has the
/// module.
#[tactic(auto, using(host_ledger::proofs::Lemmas::access_spelled))]
pub fn call_module<'c, G: Ground, W: Watch>(
    alloc: Global,
    storage: &mut Storage<'_, G, W>,
    budget: &mut Budget,
    codes: Option<&'c Cache<'c>>,
    hash: Hash,
) -> Result<HeldModule<'c>, HostErr>
    ensures does { Steps result (λ m. m) (λ env. after (code_at env hash)
        (λ code. paying kinds.VmInstantiation (length code) (with_module (module_of code) (λ m. gives m))))
        storage.old storage.new budget.old budget.new }
    ensures read { IsRead storage.old storage.new }
    ensures key { IfErr result IsKeySpelled }
{
    match find_code(storage, hash) {
        Ok(code) => read_module(alloc, budget, codes, hash, code),
        Err(error) => Err(end_of(code_key(hash), error)),
    }
}

/// Makes an instance of a module for a call of a function with `arity` arguments.
pub fn start_instance<'m>(
    alloc: Global,
    module: &'m LinkedModule,
    function: &[u8],
    arity: usize,
) -> Result<Instance<'m>, HostErr>
    ensures does { IsStarted «module».now function.now arity result }
    ensures key { IfErr result IsKeySpelled }
{
    match Instance::new(alloc, module.valid(), function, arity) {
        Ok(instance) => Ok(instance),
        Err(StartErr::Missing) => Err(NO_FUNCTION),
        Err(StartErr::WrongArity) => Err(OTHER_ARITY),
        Err(StartErr::Segment) => Err(SEGMENT_OUTSIDE),
        Err(StartErr::NoMemory) => Err(HostErr::NoMemory),
    }
}
