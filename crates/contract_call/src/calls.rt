//! Calls of contracts, nested over suspended instances.

ghost use Rattle.std.specs.Prelude.{◌≡◌, ℕ, [], ◌∷◌, length, slice_get, IfOk, Err, IfErr};
ghost use Rattle.host_spec.specs.declared.error.HostErr.TheVariants as ends;
ghost use Rattle.value_types.specs.Views.{datum, datums};
ghost use Rattle.host_spec.specs.Hosted.{IsHosted, AreHosted};
ghost use Rattle.host_frame.specs.Made.{AreMade, IsMemory};
ghost use Rattle.host_spec.specs.Indices.{arguments_of};
ghost use Rattle.budget_meter.specs.Meter.{Meter};
ghost use Rattle.wasm_spec.specs.Runs.{Run};
ghost use Rattle.wasm_spec.specs.Stores.{Store};
ghost use Rattle.wasm_spec.specs.Instances.{start_of};
ghost use Rattle.wasm_run.specs.Suspended.{Does, IsFresh};
ghost use Rattle.call_spec.specs.Acts.{after, with_world};
ghost use Rattle.call_spec.specs.Calling.{calls_if, call as call_in, try_call as try_in};
ghost use Rattle.call_spec.specs.Creating.{creates, creates_at, create_contract, create_contract_with_constructor};
ghost use Rattle.call_spec.specs.Demands.{proves_entry, require_auth, require_auth_for_args};
ghost use Rattle.call_spec.specs.Rules.{answered};
ghost use Rattle.host_interface.specs.declared.kinds.ArgKind.TheVariants as kinds;
ghost use Rattle.host_frame.specs.Answered.{answer_of};
ghost use Rattle.host_ledger.specs.Answered.{IsMadeIfOk};
ghost use Rattle.call_spec.specs.Frames.{Entered, framed, started, finished, runs};
ghost use Rattle.call_spec.specs.Found.{with_start};
ghost use Rattle.call_spec.specs.HostFunctions.{host_of, host_function, opener_of};
ghost use Rattle.host_ledger.specs.Worlds.{address_of, called_name, called_args, IsHeld};
ghost use Rattle.host_ledger.specs.Spelled.{IsKeySpelled};
ghost use Rattle.std.specs.Option.{option_map};
ghost use Rattle.call_host.specs.Worlds.{DoesAround, DoesIn, RunsIn, Stays, MayRun};
ghost use Rattle.call_host.specs.Creations.{creation_of, AreArgsHosted};
ghost use Rattle.auth_parts.specs.Asked.{by_contract, asks_then};
ghost use Rattle.contract_call.specs.Demanded.{settled};
ghost use Rattle.contract_call.specs.Made.{authorising, builds_with, constructing};
ghost use Rattle.call_host.specs.Paths.{IsPathFor, IsPathBelow, HasRoom};
ghost use Rattle.call_host.specs.Taken.{creates_here};
ghost use Rattle.call_host.specs.Targets.{may_name as may_name_in, call_of, call_at, target, enters_at};
ghost use Rattle.call_host.specs.Running.{entered, IsNewFrame, Starts, StaysIn, DoesOver};

use crate::creating::{
    addressed, constructed, constructor_frame, create_function, given_args, has_constructor, made,
    paid_id, unless_args, valued,
};
use crate::demands::{ask_entry, authorised, call_with, checked, granted};
use crate::errors::{DENIED, TOO_MANY_FRAMES};
use crate::parts::{Part, part_of};
use crate::rows::{ledger_answer, shown, upload_row, value_answer};
use auth_parts::Asked;
use auth_spec::Demand;
use auth_trees::Authority;
use call_host::{
    AuthArgs, CallArgs, ContractCall, Host, NewContract, Target, args_of, auth_for_args_words,
    auth_words, begin, call_words, caught, construct_words, create_words, demand_create,
    demand_here, demand_own, end, find_target, may_name, name_of, new_frame, tell_called,
    tell_returned,
};
use call_parts::start_instance;
use contract_storage::Watch;
use entry_lookup::Ground;
use host_frame::Answer;
use host_interface::HostImport;
use host_ledger::Frame;
use host_spec::HostErr;
use module_loader::LinkedModule;
use value_types::{Hash, ScAddress, ScVal};
use wasm_run::{CallPhase, Event, Instance, trap_error};

/// A call of a contract's function, while so many more frames may be open.
#[cycle(calls)]
pub(crate) fn call<G: Ground, A: Authority, W: Watch>(
    host: &mut Host<'_, G, A, W>,
    room: u32,
    call: ContractCall<'_>,
) -> Result<ScVal, HostErr>
    requires ready { MayRun host.old }
    requires path { HasRoom room host.old }
    requires args { AreMade (datums call.args.items) }
    ensures does { DoesAround result datum
        (λ env. calls_if (may_name_in call.entry) env (opener_of env room) (call_of call.entry)) host.old host.new }
    ensures hosted { IfOk result (λ value. IsHosted (datum value)) }
    ensures stays { Stays host.old host.new }
    ensures key { IfErr result IsKeySpelled }
{
    tell_called(host, &call);
    let result = call_counted(host, room, call);
    tell_returned(host, &result);
    result
}

/// The same, apart from what an observer is told.
#[cycle(calls)]
fn call_counted<G: Ground, A: Authority, W: Watch>(
    host: &mut Host<'_, G, A, W>,
    room: u32,
    call: ContractCall<'_>,
) -> Result<ScVal, HostErr>
    requires ready { MayRun host.old }
    requires path { HasRoom room host.old }
    requires args { AreMade (datums call.args.items) }
    ensures does { DoesAround result datum
        (λ env. calls_if (may_name_in call.entry) env (opener_of env room) (call_of call.entry)) host.old host.new }
    ensures hosted { IfOk result (λ value. IsHosted (datum value)) }
    ensures stays { Stays host.old host.new }
    ensures key { IfErr result IsKeySpelled }
{
    match host.begin() {
        Ok(path) => call_below(host, room, path, call),
        Err(error) => Err(error),
    }
}

/// A call that has a path.
#[cycle(calls)]
fn call_below<G: Ground, A: Authority, W: Watch>(
    host: &mut Host<'_, G, A, W>,
    room: u32,
    path: Vec<u64>,
    call: ContractCall<'_>,
) -> Result<ScVal, HostErr>
    requires ready { MayRun host.old }
    requires path { IsPathBelow path.items room }
    requires args { AreMade (datums call.args.items) }
    ensures does { DoesAround result datum
        (λ env. call_at (may_name_in call.entry) env (opener_of env room) (call_of call.entry) path.items) host.old host.new }
    ensures hosted { IfOk result (λ value. IsHosted (datum value)) }
    ensures stays { Stays host.old host.new }
    ensures key { IfErr result IsKeySpelled }
{
    if room == 0 {
        return Err(TOO_MANY_FRAMES);
    }
    let named = may_name(&call);
    match find_target(host, call.contract, named) {
        Ok(target) => call_target(host, room - 1, path, target, call),
        Err(error) => Err(error),
    }
}

/// Calls a function of the target.
#[cycle(calls)]
fn call_target<G: Ground, A: Authority, W: Watch>(
    host: &mut Host<'_, G, A, W>,
    room: u32,
    path: Vec<u64>,
    found: Target<'_>,
    call: ContractCall<'_>,
) -> Result<ScVal, HostErr>
    requires ready { MayRun host.old }
    requires path { IsPathFor path.items room }
    requires held { IsHeld found.copy.storage }
    requires args { AreMade (datums call.args.items) }
    ensures does { DoesAround result datum
        (λ env. enters_at (framed env (host_of env (opener_of env room))) (call_of call.entry) path.items
        (target found.entry)) host.old host.new }
    ensures hosted { IfOk result (λ value. IsHosted (datum value)) }
    ensures stays { Stays host.old host.new }
    ensures key { IfErr result IsKeySpelled }
{
    let alloc = host.allocator();
    let Target {
        contract,
        copy,
        module,
    } = found;
    match new_frame(
        alloc,
        contract,
        call.caller,
        call.function,
        call.args,
        copy,
        path,
    ) {
        Ok(frame) => enter(host, room, frame, module.linked()),
        Err(error) => Err(error),
    }
}

/// Runs the function of a new frame, if the frame's module exports it for so many arguments.
#[cycle(calls)]
fn enter<G: Ground, A: Authority, W: Watch>(
    host: &mut Host<'_, G, A, W>,
    room: u32,
    frame: Frame,
    module: &LinkedModule,
) -> Result<ScVal, HostErr>
    requires ready { MayRun host.old }
    requires frame { IsNewFrame frame }
    requires path { IsPathFor frame.path.items room }
    ensures does { DoesAround result datum
        (λ env. with_start (start_of «module».now (called_name frame.function) (length (called_args frame.function)))
        (λ index store. framed env (host_of env (opener_of env room)) (entered frame «module».now index store)))
        host.old host.new }
    ensures hosted { IfOk result (λ value. IsHosted (datum value)) }
    ensures stays { Stays host.old host.new }
    ensures key { IfErr result IsKeySpelled }
{
    let alloc = host.allocator();
    let name = name_of(&frame.function);
    let count = args_of(&frame.function).len();
    match start_instance(alloc, module, name, count) {
        Ok(instance) => open(host, room, frame, module, instance),
        Err(error) => Err(error),
    }
}

/// Runs an instance in a new frame.
#[cycle(calls)]
fn open<G: Ground, A: Authority, W: Watch>(
    host: &mut Host<'_, G, A, W>,
    room: u32,
    frame: Frame,
    module: &LinkedModule,
    instance: Instance<'_>,
) -> Result<ScVal, HostErr>
    requires ready { MayRun host.old }
    requires frame { IsNewFrame frame }
    requires path { IsPathFor frame.path.items room }
    requires starts { (index : ℕ) × (store : Store)
        × IsFresh instance «module».now index (length (called_args frame.function)) store }
    ensures does { (index : ℕ) (store : Store)
        → IsFresh instance.entry «module».now index (length (called_args frame.function)) store
        → DoesAround result datum (λ env. framed env (host_of env (opener_of env room))
        (entered frame «module».now index store)) host.old host.new }
    ensures hosted { IfOk result (λ value. IsHosted (datum value)) }
    ensures stays { Stays host.old host.new }
    ensures key { IfErr result IsKeySpelled }
{
    match host.open_frame(frame) {
        Ok(suspended) => {
            let result = inside(host, room, module, instance);
            host.close_frame(&result, suspended);
            result
        }
        Err(error) => Err(error),
    }
}

/// Runs the function of the frame that was opened for it.
#[cycle(calls)]
fn inside<G: Ground, A: Authority, W: Watch>(
    host: &mut Host<'_, G, A, W>,
    room: u32,
    module: &LinkedModule,
    instance: Instance<'_>,
) -> Result<ScVal, HostErr>
    requires ready { MayRun host.old }
    requires path { HasRoom room host.old }
    requires args { AreMade (called_args host.old.ledger.frame.function) }
    requires starts { (index : ℕ) × (store : Store)
        × IsFresh instance «module».now index (length (called_args host.old.ledger.frame.function)) store }
    ensures does { (e : Entered) → e.module_ ≡ «module».now → e.args ≡ called_args host.old.ledger.frame.function
        → Starts instance.entry e
        → RunsIn result datum (λ env. after (started (host_of env (opener_of env room) «module».now) e) (finished env))
        host.old host.new }
    ensures hosted { IfOk result (λ value. IsHosted (datum value)) }
    ensures stays { StaysIn host.old host.new }
    ensures key { IfErr result IsKeySpelled }
{
    match begin(host, module) {
        Ok(words) => {
            let mut instance = instance;
            instance.start(words.as_slice());
            match run(host, room, module, instance) {
                Ok(word) => end(host, word),
                Err(error) => Err(error),
            }
        }
        Err(error) => Err(error),
    }
}

/// Runs an instance to its end, and answers its calls of the host.
#[cycle(calls)]
fn run<G: Ground, A: Authority, W: Watch>(
    host: &mut Host<'_, G, A, W>,
    room: u32,
    module: &LinkedModule,
    instance: Instance<'_>,
) -> Result<u64, HostErr>
    requires ready { MayRun host.old }
    requires path { HasRoom room host.old }
    requires phase { instance.phase ≡ CallPhase.Ready }
    requires source { instance.source ≡ «module».now }
    ensures does { (go : Meter → Run) → Does instance.entry go
        → RunsIn result (λ word. word) (λ env. with_world (λ w. w.meter)
        (λ meter. runs (host_of env (opener_of env room) «module».now) (go meter))) host.old host.new }
    ensures stays { StaysIn host.old host.new }
    ensures key { IfErr result IsKeySpelled }
{
    let mut instance = instance;
    loop {
        match instance.step_to(&mut host.ledger.budget) {
            Err(_) => return Err(HostErr::NoMemory),
            Ok(Event::Done(word)) => return Ok(word),
            Ok(Event::Trap(kind)) => return Err(HostErr::Failed(trap_error(kind))),
            Ok(Event::Spent) => return Err(HostErr::Spent),
            Ok(Event::HostCall { import, args }) => {
                let row = module.row(import);
                let memory = instance.memory_mut();
                match answer(host, room, row.import, args.as_slice(), memory) {
                    Ok(word) => instance.give(word),
                    Err(error) => return Err(error),
                }
            }
        }
    }
}

/// The host's answer to a call of an import, with the frame's linear memory.
#[cycle(calls)]
fn answer<G: Ground, A: Authority, W: Watch>(
    host: &mut Host<'_, G, A, W>,
    room: u32,
    import: HostImport,
    words: &[u64],
    memory: &mut [u8],
) -> Result<u64, HostErr>
    requires ready { MayRun host.old }
    requires path { HasRoom room host.old }
    requires arity { length words.now ≡ length (arguments_of «import») }
    requires memory { IsMemory memory.old }
    ensures does { DoesOver memory.old memory.new result (λ word. word)
        (λ env. host_function env (opener_of env room) «import» words.now) host.old host.new }
    ensures size { length memory.new ≡ length memory.old }
    ensures stays { StaysIn host.old host.new }
    ensures key { IfErr result IsKeySpelled }
{
    match part_of(import) {
        Part::Values => value_answer(host, import, words, memory),
        Part::Ledger => ledger_answer(host, import, words),
        Part::Upload => {
            let made = upload_row(host, words);
            shown(host, made)
        }
        Part::Auth => {
            let made = auth_row(host, room, words);
            shown(host, made)
        }
        Part::AuthForArgs => {
            let made = auth_for_args_row(host, room, words);
            shown(host, made)
        }
        Part::Call => {
            let made = call_row(host, room, words);
            shown(host, made)
        }
        Part::TryCall => {
            let made = try_row(host, room, words);
            shown(host, made)
        }
        Part::Create => {
            let made = create_row(host, room, words);
            shown(host, made)
        }
        Part::Construct => {
            let made = construct_row(host, room, words);
            shown(host, made)
        }
    }
}

/// `call`: the value that a contract's function returns.
#[cycle(calls)]
fn call_row<G: Ground, A: Authority, W: Watch>(
    host: &mut Host<'_, G, A, W>,
    room: u32,
    words: &[u64],
) -> Result<Answer, HostErr>
    requires ready { MayRun host.old }
    requires path { HasRoom room host.old }
    requires arity { length words.now ≡ 3 }
    ensures does { DoesIn result answer_of
        (λ env. answered (kinds.Address ∷ kinds.Symbol ∷ kinds.Vec ∷ [])
        (call_in env (opener_of env room)) words.now) host.old host.new }
    ensures made { IsMadeIfOk result }
    ensures stays { StaysIn host.old host.new }
    ensures key { IfErr result IsKeySpelled }
{
    match call_words(host, words) {
        Ok(
            CallArgs {
                contract,
                function,
                args,
            },
        ) => {
            let made = call(
                host,
                room,
                ContractCall {
                    caller: Some(host.ledger.frame.contract),
                    by_host: false,
                    contract,
                    function: function.as_slice(),
                    args,
                },
            );
            valued(made)
        }
        Err(error) => Err(error),
    }
}

/// `try_call`: the same, but a failure is caught, and returned as an error's value.
#[cycle(calls)]
fn try_row<G: Ground, A: Authority, W: Watch>(
    host: &mut Host<'_, G, A, W>,
    room: u32,
    words: &[u64],
) -> Result<Answer, HostErr>
    requires ready { MayRun host.old }
    requires path { HasRoom room host.old }
    requires arity { length words.now ≡ 3 }
    ensures does { DoesIn result answer_of
        (λ env. answered (kinds.Address ∷ kinds.Symbol ∷ kinds.Vec ∷ [])
        (try_in env (opener_of env room)) words.now) host.old host.new }
    ensures made { IsMadeIfOk result }
    ensures stays { StaysIn host.old host.new }
    ensures key { IfErr result IsKeySpelled }
{
    match call_words(host, words) {
        Ok(
            CallArgs {
                contract,
                function,
                args,
            },
        ) => {
            let mark = host.mark()?;
            let made = call(
                host,
                room,
                ContractCall {
                    caller: Some(host.ledger.frame.contract),
                    by_host: false,
                    contract,
                    function: function.as_slice(),
                    args,
                },
            );
            let made = caught(host, mark, made);
            valued(made)
        }
        Err(error) => Err(error),
    }
}

/// `create_contract`: the address of a new contract.
#[cycle(calls)]
fn create_row<G: Ground, A: Authority, W: Watch>(
    host: &mut Host<'_, G, A, W>,
    room: u32,
    words: &[u64],
) -> Result<Answer, HostErr>
    requires ready { MayRun host.old }
    requires path { HasRoom room host.old }
    requires arity { length words.now ≡ 3 }
    ensures does { DoesIn result answer_of
        (λ env. answered (kinds.Address ∷ kinds.Bytes ∷ kinds.Bytes ∷ [])
        (create_contract env (opener_of env room)) words.now) host.old host.new }
    ensures made { IsMadeIfOk result }
    ensures stays { StaysIn host.old host.new }
    ensures key { IfErr result IsKeySpelled }
{
    match create_words(host, words) {
        Ok(contract) => create_here(host, room, contract),
        Err(error) => Err(error),
    }
}

/// `create_contract_with_constructor`: the same, with arguments for the constructor.
#[cycle(calls)]
fn construct_row<G: Ground, A: Authority, W: Watch>(
    host: &mut Host<'_, G, A, W>,
    room: u32,
    words: &[u64],
) -> Result<Answer, HostErr>
    requires ready { MayRun host.old }
    requires path { HasRoom room host.old }
    requires arity { length words.now ≡ 4 }
    ensures does { DoesIn result answer_of
        (λ env. answered (kinds.Address ∷ kinds.Bytes ∷ kinds.Bytes ∷ kinds.Vec ∷ [])
        (create_contract_with_constructor env (opener_of env room)) words.now) host.old host.new }
    ensures made { IsMadeIfOk result }
    ensures stays { StaysIn host.old host.new }
    ensures key { IfErr result IsKeySpelled }
{
    match construct_words(host, words) {
        Ok(contract) => create_here(host, room, contract),
        Err(error) => Err(error),
    }
}

/// Makes a contract for the running frame's contract. Returns its address.
#[cycle(calls)]
fn create_here<G: Ground, A: Authority, W: Watch>(
    host: &mut Host<'_, G, A, W>,
    room: u32,
    contract: NewContract,
) -> Result<Answer, HostErr>
    requires ready { MayRun host.old }
    requires path { HasRoom room host.old }
    requires args { AreArgsHosted contract.args }
    ensures does { DoesIn result answer_of
        (λ env. creates_here env (opener_of env room) (creation_of contract)) host.old host.new }
    ensures made { IsMadeIfOk result }
    ensures stays { StaysIn host.old host.new }
    ensures key { IfErr result IsKeySpelled }
{
    let creator = Some(host.ledger.frame.contract);
    let made = create(host, room, creator, contract);
    addressed(made)
}

/// Makes a contract and calls its constructor, if it has one, while so many more frames may be open. Returns the contract's id.
#[cycle(calls)]
pub(crate) fn create<G: Ground, A: Authority, W: Watch>(
    host: &mut Host<'_, G, A, W>,
    room: u32,
    creator: Option<Hash>,
    contract: NewContract,
) -> Result<Hash, HostErr>
    requires ready { MayRun host.old }
    requires path { HasRoom room host.old }
    requires args { AreArgsHosted contract.args }
    ensures does { DoesAround result (λ id. id)
        (λ env. creates env (opener_of env room) (option_map address_of creator) (creation_of contract)) host.old host.new }
    ensures stays { Stays host.old host.new }
    ensures key { IfErr result IsKeySpelled }
{
    match host.begin() {
        Ok(path) => create_below(host, room, path, creator, contract),
        Err(error) => Err(error),
    }
}

/// A create that has a path.
#[cycle(calls)]
fn create_below<G: Ground, A: Authority, W: Watch>(
    host: &mut Host<'_, G, A, W>,
    room: u32,
    path: Vec<u64>,
    creator: Option<Hash>,
    contract: NewContract,
) -> Result<Hash, HostErr>
    requires ready { MayRun host.old }
    requires room { HasRoom room host.old }
    requires path { IsPathBelow path.items room }
    requires args { AreArgsHosted contract.args }
    ensures does { DoesAround result (λ id. id)
        (λ env. creates_at env (opener_of env room) (option_map address_of creator)
        (creation_of contract) path.items) host.old host.new }
    ensures stays { Stays host.old host.new }
    ensures key { IfErr result IsKeySpelled }
{
    match authorise(host, room, path.as_slice(), creator, &contract) {
        Ok(id) => build(host, room, path, creator, id, contract),
        Err(error) => Err(error),
    }
}

/// The id of a new contract, after its charge and the demand of its deployer's authorisation.
#[cycle(calls)]
fn authorise<G: Ground, A: Authority, W: Watch>(
    host: &mut Host<'_, G, A, W>,
    room: u32,
    path: &[u64],
    creator: Option<Hash>,
    contract: &NewContract,
) -> Result<Hash, HostErr>
    requires ready { MayRun host.old }
    requires room { HasRoom room host.old }
    requires path { IsPathBelow path.now room }
    ensures does { DoesAround result (λ id. id)
        (λ env. authorising env (opener_of env room) (option_map address_of creator)
        (creation_of contract.now) path.now) host.old host.new }
    ensures stays { Stays host.old host.new }
    ensures key { IfErr result IsKeySpelled }
{
    match paid_id(host, contract) {
        Ok(id) => match create_function(host.allocator(), contract) {
            Ok(function) => {
                let met = demand_create(host, path, creator, contract.deployer, &function);
                let settled = settle(host, room, met);
                granted(settled, id)
            }
            Err(error) => Err(error),
        },
        Err(error) => Err(error),
    }
}

/// Makes the instance of a contract with an id, and calls the contract's constructor, if its module has one.
#[cycle(calls)]
fn build<G: Ground, A: Authority, W: Watch>(
    host: &mut Host<'_, G, A, W>,
    room: u32,
    path: Vec<u64>,
    creator: Option<Hash>,
    id: Hash,
    contract: NewContract,
) -> Result<Hash, HostErr>
    requires ready { MayRun host.old }
    requires path { IsPathBelow path.items room }
    requires args { AreArgsHosted contract.args }
    ensures does { DoesAround result (λ id. id)
        (λ env. builds_with env (opener_of env room) (option_map address_of creator)
        (creation_of contract) path.items id) host.old host.new }
    ensures stays { Stays host.old host.new }
    ensures key { IfErr result IsKeySpelled }
{
    match made(host, id, contract.code) {
        Ok(module) => construct(host, room, path, creator, id, module.linked(), contract),
        Err(error) => Err(error),
    }
}

/// Calls the constructor of a contract that was made, if its module has one.
#[cycle(calls)]
fn construct<G: Ground, A: Authority, W: Watch>(
    host: &mut Host<'_, G, A, W>,
    room: u32,
    path: Vec<u64>,
    creator: Option<Hash>,
    id: Hash,
    module: &LinkedModule,
    contract: NewContract,
) -> Result<Hash, HostErr>
    requires ready { MayRun host.old }
    requires path { IsPathBelow path.items room }
    requires args { AreArgsHosted contract.args }
    ensures does { DoesAround result (λ id. id)
        (λ env. constructing (opener_of env room) (option_map address_of creator) id
        (creation_of contract) path.items «module».now) host.old host.new }
    ensures stays { Stays host.old host.new }
    ensures key { IfErr result IsKeySpelled }
{
    let args = given_args(host.allocator(), contract.args);
    if !has_constructor(module) {
        return unless_args(id, args);
    }
    if room == 0 {
        return Err(TOO_MANY_FRAMES);
    }
    match constructor_frame(host.allocator(), id, creator, contract.code, args, path) {
        Ok(frame) => {
            let returned = enter(host, room - 1, frame, module);
            constructed(id, returned)
        }
        Err(error) => Err(error),
    }
}

/// `require_auth`: Void, if the address authorises the running frame's call.
#[cycle(calls)]
fn auth_row<G: Ground, A: Authority, W: Watch>(
    host: &mut Host<'_, G, A, W>,
    room: u32,
    words: &[u64],
) -> Result<Answer, HostErr>
    requires ready { MayRun host.old }
    requires path { HasRoom room host.old }
    requires arity { length words.now ≡ 1 }
    ensures does { DoesIn result answer_of
        (λ env. answered (kinds.Address ∷ []) (require_auth env (opener_of env room)) words.now) host.old host.new }
    ensures made { IsMadeIfOk result }
    ensures stays { StaysIn host.old host.new }
    ensures key { IfErr result IsKeySpelled }
{
    match auth_words(host, words) {
        Ok(address) => {
            let met = demand_own(host, address);
            let settled = settle(host, room, met);
            authorised(settled)
        }
        Err(error) => Err(error),
    }
}

/// `require_auth_for_args`: the same, with other arguments.
#[cycle(calls)]
fn auth_for_args_row<G: Ground, A: Authority, W: Watch>(
    host: &mut Host<'_, G, A, W>,
    room: u32,
    words: &[u64],
) -> Result<Answer, HostErr>
    requires ready { MayRun host.old }
    requires path { HasRoom room host.old }
    requires arity { length words.now ≡ 2 }
    ensures does { DoesIn result answer_of
        (λ env. answered (kinds.Address ∷ kinds.Vec ∷ [])
        (require_auth_for_args env (opener_of env room)) words.now) host.old host.new }
    ensures made { IsMadeIfOk result }
    ensures stays { StaysIn host.old host.new }
    ensures key { IfErr result IsKeySpelled }
{
    match auth_for_args_words(host, words) {
        Ok(AuthArgs { address, args }) => match call_with(host, args) {
            Ok(function) => {
                let met = demand_here(host, address, &function);
                let settled = settle(host, room, met);
                authorised(settled)
            }
            Err(error) => Err(error),
        },
        Err(error) => Err(error),
    }
}

/// Ends a demand after the node that meets it, if one does, is used.
#[cycle(calls)]
fn settle<G: Ground, A: Authority, W: Watch>(
    host: &mut Host<'_, G, A, W>,
    room: u32,
    met: Demand,
) -> Result<(), HostErr>
    requires ready { MayRun host.old }
    requires room { HasRoom room host.old }
    ensures does { DoesAround result (λ u. u) (λ env. settled env (opener_of env room) met) host.old host.new }
    ensures memory { met ≡ Demand.NoMemory → result ≡ Err ends.NoMemory }
    ensures stays { Stays host.old host.new }
    ensures key { IfErr result IsKeySpelled }
{
    match met {
        Demand::ByInvoker => Ok(()),
        Demand::Denied => Err(DENIED),
        Demand::Noted => Ok(()),
        Demand::NoMemory => Err(HostErr::NoMemory),
        Demand::Matched { first: false, .. } => Ok(()),
        Demand::Matched { entry, first: true } => prove(host, room, entry),
    }
}

/// Asks the address of an authorisation entry, whose root is used for the first time, to prove that it authorises.
#[cycle(calls)]
fn prove<G: Ground, A: Authority, W: Watch>(
    host: &mut Host<'_, G, A, W>,
    room: u32,
    entry: usize,
) -> Result<(), HostErr>
    requires ready { MayRun host.old }
    requires room { HasRoom room host.old }
    ensures does { DoesAround result (λ u. u)
        (λ env. proves_entry env (opener_of env room) (slice_get env.authority.entries entry)) host.old host.new }
    ensures stays { Stays host.old host.new }
    ensures key { IfErr result IsKeySpelled }
{
    match ask_entry(host, entry) {
        Ok(Asked::Proved) => Ok(()),
        Ok(Asked::ByContract { contract, args }) => check(host, room, contract, args),
        Err(error) => Err(error),
    }
}

/// Calls the function of a contract that checks an authorisation of the contract.
#[cycle(calls)]
fn check<G: Ground, A: Authority, W: Watch>(
    host: &mut Host<'_, G, A, W>,
    room: u32,
    contract: Hash,
    args: Vec<ScVal>,
) -> Result<(), HostErr>
    requires ready { MayRun host.old }
    requires room { HasRoom room host.old }
    requires args { AreHosted (datums args.items) }
    ensures does { DoesAround result (λ u. u)
        (λ env. asks_then env (opener_of env room) (by_contract contract (datums args.items))) host.old host.new }
    ensures stays { Stays host.old host.new }
    ensures key { IfErr result IsKeySpelled }
{
    let returned = call(
        host,
        room,
        ContractCall {
            caller: None,
            by_host: true,
            contract: ScAddress::Contract(contract),
            function: b"__check_auth",
            args,
        },
    );
    checked(returned)
}
