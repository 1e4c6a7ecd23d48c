//! Creates, but for the constructor's run.

ghost use Rattle.std.specs.Prelude.{◌≡◌, ◌==◌, ◌++◌, [], ◌∷◌, length, is_some, None, IfOk, IfErr};
ghost use Rattle.std.specs.Option.{option_map, unwrap_or};
ghost use Rattle.value_types.specs.Datum.{address as address_datum};
ghost use Rattle.value_types.specs.Views.{datum, datums};
ghost use Rattle.value_types.specs.declared.address.ScAddress.TheVariants as addresses;
ghost use Rattle.wasm_spec.specs.Instances.{function_named};
ghost use Rattle.host_spec.specs.Answers.{value};
ghost use Rattle.host_spec.specs.Hosted.{IsHosted, AreHosted};
ghost use Rattle.host_spec.specs.declared.error.HostErr.TheVariants as ends;
ghost use Rattle.host_frame.specs.Answered.{answer_of};
ghost use Rattle.host_frame.specs.Made.{AreMade, IsAnswerMade};
ghost use Rattle.contract_storage.specs.Stored.{IsRead, IsLater, HasBounds};
ghost use Rattle.call_spec.specs.World.{Env};
ghost use Rattle.call_spec.specs.Creating.{function_of, CONSTRUCTOR};
ghost use Rattle.host_ledger.specs.Accessed.{Accesses};
ghost use Rattle.host_ledger.specs.Worlds.{IsReady};
ghost use Rattle.host_ledger.specs.Spelled.{IsKeySpelled};
ghost use Rattle.call_parts.specs.Steps.{Steps, Charges};
ghost use Rattle.call_host.specs.Worlds.{DoesAround, MayRun, Stays};
ghost use Rattle.call_host.specs.Creations.{creation_of, args_of, items_of, AreArgsHosted};
ghost use Rattle.contract_call.specs.Made.{identifying, code_of, sized, instantiating, building, IsValued, IsConstructed};
ghost use Rattle.contract_call.specs.Made.{unless_given};
ghost use Rattle.call_host.specs.Running.{IsFrameFor};

use crate::errors::{NO_FUNCTION, NOT_VOID};
use auth_trees::Authority;
use budget_meter::Budget;
use call_host::{Host, NewContract, below, clone_args, new_frame};
use call_parts::{cached_module, find_code, make_instance, new_id, paid_module};
use code_cache::{Cache, HeldModule};
use contract_storage::{Storage, Watch};
use entry_lookup::Ground;
use host_frame::Answer;
use host_ledger::{Frame, HostLedger, InstanceCopy, InstanceStorage, code_key, end_of, made_seq};
use host_spec::HostErr;
use invoke_types::{Args, CreateContractArgs, CreateContractArgsV2, Function, Preimage};
use ledger_types::Settings;
use module_loader::LinkedModule;
use std::alloc::Global;
use value_types::{Executable, Hash, ScAddress, ScVal};
use wasm_run::function_named;

/// The length of a code, and the module that it encodes, if it encodes one.
#[derive(Drop)]
struct SizedCode<'c> {
    pub length: u64,
    pub module: Option<HeldModule<'c>>,
}

/// The id of a new contract, after its charge, over the ledger's state.
fn paid_id_in<G: Ground, W: Watch>(
    ledger: &mut HostLedger<'_, G, W>,
    contract: &NewContract,
) -> Result<Hash, HostErr>
    ensures does { (env : Env) → env.header ≡ ledger.old.header.now
        → Charges result (λ id. id) (identifying env (creation_of contract.now)) ledger.old.budget ledger.new.budget }
    ensures kept { ledger.new ≡ record ledger.old { budget = ledger.new.budget } }
    ensures key { IfErr result IsKeySpelled }
{
    new_id(
        ledger.objects.allocator(),
        &mut ledger.budget,
        &ledger.header.network_id,
        contract.deployer,
        contract.salt,
    )
}

/// The id of a new contract, after its charge.
pub(crate) fn paid_id<G: Ground, A: Authority, W: Watch>(
    host: &mut Host<'_, G, A, W>,
    contract: &NewContract,
) -> Result<Hash, HostErr>
    requires ready { MayRun host.old }
    ensures does { DoesAround result (λ id. id) (λ env. identifying env (creation_of contract.now)) host.old host.new }
    ensures stays { Stays host.old host.new }
    ensures key { IfErr result IsKeySpelled }
{
    paid_id_in(&mut host.ledger, contract)
}

/// Clones the arguments of a constructor. Its only error is memory.
fn clone_args_of(alloc: Global, args: &Vec<ScVal>) -> Result<Args, HostErr>
    ensures ok { IfOk result (λ clone. clone ≡ args.now.items) }
    ensures memory { IfErr result (λ e. e ≡ ends.NoMemory) }
{
    match clone_args(alloc, args.as_slice()) {
        Err(error) => Err(error),
        Ok(args) => match Args::from_vec(args) {
            Ok(args) => Ok(args),
            Err(_) => Err(HostErr::NoMemory),
        },
    }
}

/// Clones the arguments of a constructor, if there are any. Its only error is memory.
fn clone_given(alloc: Global, args: &Option<Vec<ScVal>>) -> Result<Option<Args>, HostErr>
    ensures ok { IfOk result (λ clone. clone ≡ option_map items_of args.now) }
    ensures memory { IfErr result (λ e. e ≡ ends.NoMemory) }
{
    match args {
        None => Ok(None),
        Some(args) => match clone_args_of(alloc, args) {
            Ok(args) => Ok(Some(args)),
            Err(error) => Err(error),
        },
    }
}

/// The function of a create, as an authorisation names it.
fn named_create(deployer: ScAddress, code: Hash, salt: Hash, args: Option<Args>) -> Function
    ensures { result ≡ function_of (record { deployer = deployer; code = code; salt = salt; args = option_map datums args }) }
{
    let preimage = Preimage::FromAddress {
        address: deployer,
        salt,
    };
    let executable = Executable::Wasm(code);
    match args {
        None => Function::CreateContract(CreateContractArgs {
            preimage,
            executable,
        }),
        Some(args) => Function::CreateContractV2(CreateContractArgsV2 {
            preimage,
            executable,
            constructor_args: args,
        }),
    }
}

/// The function that the deployer of a new contract has to authorise. Its only error is memory.
pub(crate) fn create_function(alloc: Global, contract: &NewContract) -> Result<Function, HostErr>
    ensures ok { IfOk result (λ f. f ≡ function_of (creation_of contract.now)) }
    ensures memory { IfErr result (λ e. e ≡ ends.NoMemory) }
{
    match clone_given(alloc, &contract.args) {
        Ok(args) => Ok(named_create(contract.deployer, contract.code, contract.salt, args)),
        Err(error) => Err(error),
    }
}

/// Finds the code with a hash, and its module.
#[tactic(auto, using(host_ledger::proofs::Lemmas::access_spelled))]
fn sized_code<'c, G: Ground, W: Watch>(
    alloc: Global,
    storage: &mut Storage<'_, G, W>,
    codes: Option<&'c Cache<'c>>,
    hash: Hash,
) -> Result<SizedCode<'c>, HostErr>
    ensures does { Accesses result sized (λ env. code_of env hash) storage.old storage.new }
    ensures read { IsRead storage.old storage.new }
    ensures key { IfErr result IsKeySpelled }
{
    match find_code(storage, hash) {
        Err(error) => Err(end_of(code_key(hash), error)),
        Ok(code) => match cached_module(alloc, codes, hash, code) {
            Err(error) => Err(error),
            Ok(module) => Ok(SizedCode {
                length: code.len() as u64,
                module,
            }),
        },
    }
}

/// Makes the instance of a new contract in ledger `n`, and takes the module of its code, after the module's charge.
fn instantiate<'c, G: Ground, W: Watch>(
    storage: &mut Storage<'_, G, W>,
    budget: &mut Budget,
    n: u32,
    settings: &Settings,
    id: Hash,
    hash: Hash,
    length: u64,
    module: Option<HeldModule<'c>>,
) -> Result<HeldModule<'c>, HostErr>
    requires number { storage.old.n ≡ n }
    requires settings { storage.old.lives ≡ settings.now }
    requires bounds { HasBounds n settings.now }
    ensures does { Steps result (λ m. m)
        (λ env. instantiating env id hash (length, «module».entry)) storage.old storage.new budget.old budget.new }
    ensures later { IsLater storage.old storage.new }
    ensures key { IfErr result IsKeySpelled }
{
    match make_instance(storage, budget, n, settings, id, hash) {
        Err(error) => Err(error),
        Ok(()) => paid_module(budget, length, module),
    }
}

/// Finds the code of a new contract, makes the contract's instance in ledger `n`, and takes the code's module.
fn build<'c, G: Ground, W: Watch>(
    alloc: Global,
    storage: &mut Storage<'_, G, W>,
    budget: &mut Budget,
    codes: Option<&'c Cache<'c>>,
    n: u32,
    settings: &Settings,
    id: Hash,
    hash: Hash,
) -> Result<HeldModule<'c>, HostErr>
    requires number { storage.old.n ≡ n }
    requires settings { storage.old.lives ≡ settings.now }
    requires bounds { HasBounds n settings.now }
    ensures does { Steps result (λ m. m) (λ env. building env id hash) storage.old storage.new budget.old budget.new }
    ensures later { IsLater storage.old storage.new }
    ensures key { IfErr result IsKeySpelled }
{
    match sized_code(alloc, storage, codes, hash) {
        Err(error) => Err(error),
        Ok(SizedCode { length, module }) => {
            instantiate(storage, budget, n, settings, id, hash, length, module)
        }
    }
}

/// Finds the code of a new contract, makes the contract's instance, and takes the code's module, over the ledger's state.
fn build_in<'c, G: Ground, W: Watch>(
    ledger: &mut HostLedger<'_, G, W>,
    codes: Option<&'c Cache<'c>>,
    id: Hash,
    code: Hash,
) -> Result<HeldModule<'c>, HostErr>
    requires ready { IsReady ledger.old }
    ensures does { Steps result (λ m. m)
        (λ env. building env id code) ledger.old.storage ledger.new.storage ledger.old.budget ledger.new.budget }
    ensures later { IsLater ledger.old.storage ledger.new.storage }
    ensures kept { ledger.new ≡ record ledger.old { storage = ledger.new.storage; budget = ledger.new.budget } }
    ensures key { IfErr result IsKeySpelled }
{
    let n = made_seq(ledger.header);
    build(
        ledger.objects.allocator(),
        &mut ledger.storage,
        &mut ledger.budget,
        codes,
        n,
        &ledger.header.settings,
        id,
        code,
    )
}

/// Makes the instance of a new contract with an id, and returns the module of its code.
pub(crate) fn made<'c, G: Ground, A: Authority, W: Watch>(
    host: &mut Host<'c, G, A, W>,
    id: Hash,
    code: Hash,
) -> Result<HeldModule<'c>, HostErr>
    requires ready { MayRun host.old }
    ensures does { DoesAround result (λ m. m) (λ env. building env id code) host.old host.new }
    ensures stays { Stays host.old host.new }
    ensures key { IfErr result IsKeySpelled }
{
    build_in(&mut host.ledger, host.codes, id, code)
}

/// The arguments of a constructor, none if there are none.
pub(crate) fn given_args(alloc: Global, args: Option<Vec<ScVal>>) -> Vec<ScVal>
    requires { AreArgsHosted args }
    ensures args { datums result.items ≡ unwrap_or (option_map args_of args) [] }
    ensures hosted { AreHosted (datums result.items) }
{
    match args {
        Some(args) => args,
        None => Vec::new(alloc),
    }
}

/// Makes the frame of a constructor, below the path of its create. Its only error is memory.
pub(crate) fn constructor_frame(
    alloc: Global,
    id: Hash,
    creator: Option<Hash>,
    code: Hash,
    args: Vec<ScVal>,
    path: Vec<u64>,
) -> Result<Frame, HostErr>
    requires { AreMade (datums args.items) }
    ensures ok { IfOk result (λ f. IsFrameFor f id creator CONSTRUCTOR args.items
        (record { code = code; storage = None }) (path.items ++ 1 ∷ [])) }
    ensures memory { IfErr result (λ e. e ≡ ends.NoMemory) }
{
    let copy = InstanceCopy {
        code,
        storage: InstanceStorage::null(),
    };
    match below(path, 1) {
        Ok(path) => new_frame(alloc, id, creator, b"__constructor", args, copy, path),
        Err(error) => Err(error),
    }
}

/// Whether a module has a constructor.
pub(crate) fn has_constructor(module: &LinkedModule) -> bool
    ensures { result ≡ is_some (function_named CONSTRUCTOR «module».now.exports) }
{
    function_named(b"__constructor", module.valid().module().exports.as_slice()).is_some()
}

/// The id of a contract without a constructor, if there are no arguments.
pub(crate) fn unless_args(id: Hash, args: Vec<ScVal>) -> Result<Hash, HostErr>
    ensures does { result ≡ unless_given (length (datums args.items) == 0) id }
    ensures key { IfErr result IsKeySpelled }
{
    if args.is_empty() {
        Ok(id)
    } else {
        Err(NO_FUNCTION)
    }
}

/// The id of a contract whose constructor was called, if the constructor returned Void.
pub(crate) fn constructed(id: Hash, returned: Result<ScVal, HostErr>) -> Result<Hash, HostErr>
    ensures does { IsConstructed returned id result }
    ensures key { IfErr returned IsKeySpelled → IfErr result IsKeySpelled }
{
    match returned {
        Err(error) => Err(error),
        Ok(ScVal::Void) => Ok(id),
        Ok(_) => Err(NOT_VOID),
    }
}

/// The address of a contract, as an answer.
#[tactic(auto, using(host_ledger::proofs::Lemmas::contract_made), unfolding(value_types::specs::Address::address_format, value_types::specs::Hash::hash_format))]
fn address_answer(contract: Hash) -> Answer
    ensures value { answer_of result ≡ value (address_datum (addresses.Contract contract)) }
    ensures made { IsAnswerMade (answer_of result) }
{
    Answer::value(ScVal::Address(ScAddress::Contract(contract)))
}

/// A value as an answer.
pub(crate) fn valued(made: Result<ScVal, HostErr>) -> Result<Answer, HostErr>
    requires { IfOk made (λ v. IsHosted (datum v)) }
    ensures does { IsValued made datum result }
    ensures key { IfErr made IsKeySpelled → IfErr result IsKeySpelled }
{
    match made {
        Err(error) => Err(error),
        Ok(value) => Ok(Answer::value(value)),
    }
}

/// The address of a contract that was made, as an answer.
pub(crate) fn addressed(made: Result<Hash, HostErr>) -> Result<Answer, HostErr>
    ensures does { IsValued made (λ id. address_datum (addresses.Contract id)) result }
    ensures key { IfErr made IsKeySpelled → IfErr result IsKeySpelled }
{
    match made {
        Err(error) => Err(error),
        Ok(id) => Ok(address_answer(id)),
    }
}
