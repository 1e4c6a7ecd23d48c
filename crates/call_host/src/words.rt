//! The arguments of calls, creates and demands, as their words mean them.

ghost use Rattle.std.specs.Prelude.{◌≡◌, List, [], ◌∷◌, length, IfOk, IfErr};
ghost use Rattle.std.specs.Option.{option_map};
ghost use Rattle.budget_meter.specs.Meter.{Meter};
ghost use Rattle.value_types.specs.Datum.{Datum, vec as vec_datum, items_of};
ghost use Rattle.value_types.specs.Views.{datum, datums};
ghost use Rattle.host_interface.specs.declared.kinds.ArgKind.TheVariants as kinds;
ghost use Rattle.host_spec.specs.Hosted.{AreHosted};
ghost use Rattle.host_spec.specs.declared.error.ValueErr.TheVariants as errs;
ghost use Rattle.call_spec.specs.World.{World, Env};
ghost use Rattle.call_spec.specs.Acts.{gives};
ghost use Rattle.call_spec.specs.Creating.{only_hash, creates_by, create_contract, create_contract_with_constructor};
ghost use Rattle.call_spec.specs.Frames.{Opener};
ghost use Rattle.call_spec.specs.Outcomes.{quiet, Says};
ghost use Rattle.call_spec.specs.Rules.{Rule, answered};
ghost use Rattle.object_store.specs.Shown.{shown_of, AreIndices};
ghost use Rattle.call_host.specs.Creations.{creation_of, args_of, AreArgsHosted};
ghost use Rattle.call_host.specs.Worlds.{MayRun};
ghost use Rattle.call_host.specs.Running.{StaysIn};
ghost use Rattle.call_host.specs.Taken.{Takes, TakesIn, creates_here};
ghost use Rattle.host_ledger.specs.Spelled.{IsKeySpelled};

use crate::errors::OTHER_SIZE;
use crate::host::Host;
use auth_trees::Authority;
use budget_meter::Budget;
use contract_storage::Watch;
use entry_lookup::Ground;
use host_frame::{Values, enter};
use host_ledger::{HostLedger, clone_values};
use host_spec::{HostErr, ValueErr};
use invoke_types::Args;
use std::alloc::Global;
use value_types::{Hash, ScAddress, ScVal};

/// The arguments of `call` and `try_call`.
#[derive(Drop)]
pub struct CallArgs {
    pub contract: ScAddress,
    pub function: Vec<u8>,
    pub args: Vec<ScVal>,
}

/// The arguments of `require_auth_for_args`.
#[derive(Drop)]
pub struct AuthArgs {
    pub address: ScAddress,
    pub args: Args,
}

/// What makes a contract. Without constructor arguments it is a CREATE_CONTRACT, with them, even with none, a CREATE_CONTRACT_V2.
#[derive(Drop)]
pub struct NewContract {
    pub deployer: ScAddress,
    /// The hash of its code.
    pub code: Hash,
    pub salt: Hash,
    pub args: Option<Vec<ScVal>>,
}

/// Clones bytes. Its only error is memory.
fn clone_bytes(alloc: Global, bytes: &[u8]) -> Result<Vec<u8>, ValueErr>
    ensures ok { IfOk result (λ v. v.items ≡ bytes.now) }
    ensures memory { IfErr result (λ e. e ≡ errs.NoMemory) }
{
    Ok(bytes.to_vec(alloc)?)
}

/// The arguments of `call` and `try_call`, after the charges of the call.
#[tactic(auto, using(crate::proofs::Arguments::items_are_hosted))]
pub(crate) fn call_args(
    values: &Values<'_>,
    budget: &mut Budget,
    a: u64,
    b: u64,
    c: u64,
) -> Result<CallArgs, HostErr>
    ensures takes { (rule : Rule (kinds.Address ∷ kinds.Symbol ∷ kinds.Vec ∷ []))
        → Takes result (answered (kinds.Address ∷ kinds.Symbol ∷ kinds.Vec ∷ []) rule (a ∷ b ∷ c ∷ []))
        (λ x. rule x.contract x.function.items (datums x.args.items)) values.now budget.old budget.new }
    ensures hosted { IfOk result (λ x. AreHosted (datums x.args.items)) }
    ensures key { IfErr result IsKeySpelled }
{
    let contract = values.address(a)?;
    let function = values.symbol(b)?;
    let args = values.vec(c)?;
    enter(budget, &[a, b, c])?;
    let function = clone_bytes(values.allocator(), function.get())?;
    let args = clone_values(values.allocator(), args)?;
    Ok(CallArgs {
        contract,
        function,
        args,
    })
}

/// The hash with these bytes, if there are 32.
fn hash_of(bytes: &[u8]) -> Result<Hash, HostErr>
    ensures does { (w : World) → Says result (λ h. h) (only_hash bytes.now (λ h. gives h) w) (quiet w (λ trace. w)) }
    ensures key { IfErr result IsKeySpelled }
{
    let mut hash = Hash([0; 32]);
    if bytes.len() != 32 {
        return Err(OTHER_SIZE);
    }
    hash.0.copy_from_slice(bytes);
    Ok(hash)
}

/// A contract to be made, if the hash of its code and its salt both have 32 bytes.
fn new_contract(
    deployer: ScAddress,
    code: &[u8],
    salt: &[u8],
    args: Option<Vec<ScVal>>,
) -> Result<NewContract, HostErr>
    ensures takes { (env : Env) (opener : Opener) (shown : List Datum) (meter : Meter)
        → Takes result (creates_by env opener deployer code.now salt.now (option_map args_of args))
        (λ x. creates_here env opener (creation_of x)) shown meter meter }
    ensures args { IfOk result (λ x. x.args ≡ args) }
    ensures key { IfErr result IsKeySpelled }
{
    match hash_of(code) {
        Err(error) => Err(error),
        Ok(code) => match hash_of(salt) {
            Err(error) => Err(error),
            Ok(salt) => Ok(NewContract {
                deployer,
                code,
                salt,
                args,
            }),
        },
    }
}

/// The arguments of `create_contract`, after the charges of the call. Both hashes have to have 32 bytes.
pub(crate) fn create_args(
    values: &Values<'_>,
    budget: &mut Budget,
    a: u64,
    b: u64,
    c: u64,
) -> Result<NewContract, HostErr>
    ensures takes { (env : Env) (opener : Opener)
        → Takes result (answered (kinds.Address ∷ kinds.Bytes ∷ kinds.Bytes ∷ []) (create_contract env opener) (a ∷ b ∷ c ∷ []))
        (λ x. creates_here env opener (creation_of x)) values.now budget.old budget.new }
    ensures hosted { IfOk result (λ x. AreArgsHosted x.args) }
    ensures key { IfErr result IsKeySpelled }
{
    let deployer = values.address(a)?;
    let code = values.bytes(b)?;
    let salt = values.bytes(c)?;
    enter(budget, &[a, b, c])?;
    new_contract(deployer, code, salt, None)
}

/// The arguments of `create_contract_with_constructor`, after the charges of the call. Both hashes have to have 32 bytes.
#[tactic(auto, using(crate::proofs::Arguments::items_are_hosted))]
pub(crate) fn constructor_args(
    values: &Values<'_>,
    budget: &mut Budget,
    a: u64,
    b: u64,
    c: u64,
    d: u64,
) -> Result<NewContract, HostErr>
    ensures takes { (env : Env) (opener : Opener)
        → Takes result (answered (kinds.Address ∷ kinds.Bytes ∷ kinds.Bytes ∷ kinds.Vec ∷ [])
        (create_contract_with_constructor env opener) (a ∷ b ∷ c ∷ d ∷ []))
        (λ x. creates_here env opener (creation_of x)) values.now budget.old budget.new }
    ensures hosted { IfOk result (λ x. AreArgsHosted x.args) }
    ensures key { IfErr result IsKeySpelled }
{
    let deployer = values.address(a)?;
    let code = values.bytes(b)?;
    let salt = values.bytes(c)?;
    let args = values.vec(d)?;
    enter(budget, &[a, b, c, d])?;
    let args = clone_values(values.allocator(), args)?;
    new_contract(deployer, code, salt, Some(args))
}

/// The arguments of `call` and `try_call` by the ledger's running frame.
fn call_taken<G: Ground, W: Watch>(
    ledger: &mut HostLedger<'_, G, W>,
    a: u64,
    b: u64,
    c: u64,
) -> Result<CallArgs, HostErr>
    requires { AreIndices ledger.old.objects ledger.old.frame.shown }
    ensures takes { (rule : Rule (kinds.Address ∷ kinds.Symbol ∷ kinds.Vec ∷ []))
        → Takes result (answered (kinds.Address ∷ kinds.Symbol ∷ kinds.Vec ∷ []) rule (a ∷ b ∷ c ∷ []))
        (λ x. rule x.contract x.function.items (datums x.args.items))
        (shown_of ledger.old.objects ledger.old.frame.shown) ledger.old.budget ledger.new.budget }
    ensures hosted { IfOk result (λ x. AreHosted (datums x.args.items)) }
    ensures paid { ledger.new ≡ record ledger.old { budget = ledger.new.budget } }
    ensures key { IfErr result IsKeySpelled }
{
    let values = Values::new(&ledger.objects, &ledger.frame.shown);
    call_args(&values, &mut ledger.budget, a, b, c)
}

/// The arguments of `call` and `try_call` by the running frame, after the charges of the call.
pub fn call_words<G: Ground, A: Authority, W: Watch>(
    host: &mut Host<'_, G, A, W>,
    words: &[u64],
) -> Result<CallArgs, HostErr>
    requires ready { MayRun host.old }
    requires arity { length words.now ≡ 3 }
    ensures takes { (rule : Env → Rule (kinds.Address ∷ kinds.Symbol ∷ kinds.Vec ∷ []))
        → TakesIn result (λ env. answered (kinds.Address ∷ kinds.Symbol ∷ kinds.Vec ∷ []) (rule env) words.now)
        (λ env x. rule env x.contract x.function.items (datums x.args.items)) host.old host.new }
    ensures hosted { IfOk result (λ x. AreHosted (datums x.args.items)) }
    ensures stays { StaysIn host.old host.new }
    ensures key { IfErr result IsKeySpelled }
{
    match words {
        [a, b, c] => call_taken(&mut host.ledger, *a, *b, *c),
        _ => unreachable!(),
    }
}

/// The arguments of `create_contract` by the ledger's running frame.
fn create_taken<G: Ground, W: Watch>(
    ledger: &mut HostLedger<'_, G, W>,
    a: u64,
    b: u64,
    c: u64,
) -> Result<NewContract, HostErr>
    requires { AreIndices ledger.old.objects ledger.old.frame.shown }
    ensures takes { (env : Env) (opener : Opener)
        → Takes result (answered (kinds.Address ∷ kinds.Bytes ∷ kinds.Bytes ∷ []) (create_contract env opener) (a ∷ b ∷ c ∷ []))
        (λ x. creates_here env opener (creation_of x))
        (shown_of ledger.old.objects ledger.old.frame.shown) ledger.old.budget ledger.new.budget }
    ensures hosted { IfOk result (λ x. AreArgsHosted x.args) }
    ensures paid { ledger.new ≡ record ledger.old { budget = ledger.new.budget } }
    ensures key { IfErr result IsKeySpelled }
{
    let values = Values::new(&ledger.objects, &ledger.frame.shown);
    create_args(&values, &mut ledger.budget, a, b, c)
}

/// The arguments of `create_contract` by the running frame, after the charges of the call.
pub fn create_words<G: Ground, A: Authority, W: Watch>(
    host: &mut Host<'_, G, A, W>,
    words: &[u64],
) -> Result<NewContract, HostErr>
    requires ready { MayRun host.old }
    requires arity { length words.now ≡ 3 }
    ensures takes { (opener : Env → Opener)
        → TakesIn result (λ env. answered (kinds.Address ∷ kinds.Bytes ∷ kinds.Bytes ∷ [])
        (create_contract env (opener env)) words.now) (λ env x. creates_here env (opener env) (creation_of x)) host.old host.new }
    ensures hosted { IfOk result (λ x. AreArgsHosted x.args) }
    ensures stays { StaysIn host.old host.new }
    ensures key { IfErr result IsKeySpelled }
{
    match words {
        [a, b, c] => create_taken(&mut host.ledger, *a, *b, *c),
        _ => unreachable!(),
    }
}

/// The arguments of `create_contract_with_constructor` by the ledger's running frame.
fn construct_taken<G: Ground, W: Watch>(
    ledger: &mut HostLedger<'_, G, W>,
    a: u64,
    b: u64,
    c: u64,
    d: u64,
) -> Result<NewContract, HostErr>
    requires { AreIndices ledger.old.objects ledger.old.frame.shown }
    ensures takes { (env : Env) (opener : Opener)
        → Takes result (answered (kinds.Address ∷ kinds.Bytes ∷ kinds.Bytes ∷ kinds.Vec ∷ [])
        (create_contract_with_constructor env opener) (a ∷ b ∷ c ∷ d ∷ [])) (λ x. creates_here env opener (creation_of x))
        (shown_of ledger.old.objects ledger.old.frame.shown) ledger.old.budget ledger.new.budget }
    ensures hosted { IfOk result (λ x. AreArgsHosted x.args) }
    ensures paid { ledger.new ≡ record ledger.old { budget = ledger.new.budget } }
    ensures key { IfErr result IsKeySpelled }
{
    let values = Values::new(&ledger.objects, &ledger.frame.shown);
    constructor_args(&values, &mut ledger.budget, a, b, c, d)
}

/// The arguments of `create_contract_with_constructor` by the running frame, after the charges of the call.
pub fn construct_words<G: Ground, A: Authority, W: Watch>(
    host: &mut Host<'_, G, A, W>,
    words: &[u64],
) -> Result<NewContract, HostErr>
    requires ready { MayRun host.old }
    requires arity { length words.now ≡ 4 }
    ensures takes { (opener : Env → Opener)
        → TakesIn result (λ env. answered (kinds.Address ∷ kinds.Bytes ∷ kinds.Bytes ∷ kinds.Vec ∷ [])
        (create_contract_with_constructor env (opener env)) words.now)
        (λ env x. creates_here env (opener env) (creation_of x)) host.old host.new }
    ensures hosted { IfOk result (λ x. AreArgsHosted x.args) }
    ensures stays { StaysIn host.old host.new }
    ensures key { IfErr result IsKeySpelled }
{
    match words {
        [a, b, c, d] => construct_taken(&mut host.ledger, *a, *b, *c, *d),
        _ => unreachable!(),
    }
}

/// The argument of `require_auth`, after the charges of the call.
fn auth_address(values: &Values<'_>, budget: &mut Budget, a: u64) -> Result<ScAddress, HostErr>
    ensures takes { (rule : Rule (kinds.Address ∷ []))
        → Takes result (answered (kinds.Address ∷ []) rule (a ∷ [])) (λ x. rule x) values.now budget.old budget.new }
    ensures key { IfErr result IsKeySpelled }
{
    let address = values.address(a)?;
    enter(budget, &[a])?;
    Ok(address)
}

/// The argument of `require_auth` by the ledger's running frame.
fn auth_taken<G: Ground, W: Watch>(
    ledger: &mut HostLedger<'_, G, W>,
    a: u64,
) -> Result<ScAddress, HostErr>
    requires { AreIndices ledger.old.objects ledger.old.frame.shown }
    ensures takes { (rule : Rule (kinds.Address ∷ []))
        → Takes result (answered (kinds.Address ∷ []) rule (a ∷ [])) (λ x. rule x)
        (shown_of ledger.old.objects ledger.old.frame.shown) ledger.old.budget ledger.new.budget }
    ensures paid { ledger.new ≡ record ledger.old { budget = ledger.new.budget } }
    ensures key { IfErr result IsKeySpelled }
{
    let values = Values::new(&ledger.objects, &ledger.frame.shown);
    auth_address(&values, &mut ledger.budget, a)
}

/// The argument of `require_auth` by the running frame, after the charges of the call.
pub fn auth_words<G: Ground, A: Authority, W: Watch>(
    host: &mut Host<'_, G, A, W>,
    words: &[u64],
) -> Result<ScAddress, HostErr>
    requires ready { MayRun host.old }
    requires arity { length words.now ≡ 1 }
    ensures takes { (rule : Env → Rule (kinds.Address ∷ []))
        → TakesIn result (λ env. answered (kinds.Address ∷ []) (rule env) words.now) (λ env x. rule env x) host.old host.new }
    ensures stays { StaysIn host.old host.new }
    ensures key { IfErr result IsKeySpelled }
{
    match words {
        [a] => auth_taken(&mut host.ledger, *a),
        _ => unreachable!(),
    }
}

/// The items of a vec, shared. Its only error is memory.
#[tactic(auto, using(crate::proofs::Arguments::items_of_vec))]
fn share_items(alloc: Global, vec: &ScVal, items: &[ScVal]) -> Result<Args, ValueErr>
    requires { vec_datum (items_of (datums items.now)) ≡ datum vec.now }
    ensures ok { IfOk result (λ args. datums args ≡ datums items.now) }
    ensures memory { IfErr result (λ e. e ≡ errs.NoMemory) }
{
    match vec {
        ScVal::Vec(Some(values)) => Ok(Args::of(values)?),
        _ => Ok(Args::from_vec(clone_values(alloc, items)?)?),
    }
}

/// The arguments of `require_auth_for_args`, after the charges of the call.
fn auth_args(values: &Values<'_>, budget: &mut Budget, a: u64, b: u64) -> Result<AuthArgs, HostErr>
    ensures takes { (rule : Rule (kinds.Address ∷ kinds.Vec ∷ []))
        → Takes result (answered (kinds.Address ∷ kinds.Vec ∷ []) rule (a ∷ b ∷ []))
        (λ x. rule x.address (datums x.args)) values.now budget.old budget.new }
    ensures key { IfErr result IsKeySpelled }
{
    let address = values.address(a)?;
    let (vec, items) = values.whole_vec(b)?;
    enter(budget, &[a, b])?;
    let args = share_items(values.allocator(), vec, items)?;
    Ok(AuthArgs { address, args })
}

/// The arguments of `require_auth_for_args` by the ledger's running frame.
fn auth_for_args_taken<G: Ground, W: Watch>(
    ledger: &mut HostLedger<'_, G, W>,
    a: u64,
    b: u64,
) -> Result<AuthArgs, HostErr>
    requires { AreIndices ledger.old.objects ledger.old.frame.shown }
    ensures takes { (rule : Rule (kinds.Address ∷ kinds.Vec ∷ []))
        → Takes result (answered (kinds.Address ∷ kinds.Vec ∷ []) rule (a ∷ b ∷ []))
        (λ x. rule x.address (datums x.args))
        (shown_of ledger.old.objects ledger.old.frame.shown) ledger.old.budget ledger.new.budget }
    ensures paid { ledger.new ≡ record ledger.old { budget = ledger.new.budget } }
    ensures key { IfErr result IsKeySpelled }
{
    let values = Values::new(&ledger.objects, &ledger.frame.shown);
    auth_args(&values, &mut ledger.budget, a, b)
}

/// The arguments of `require_auth_for_args` by the running frame, after the charges of the call.
pub fn auth_for_args_words<G: Ground, A: Authority, W: Watch>(
    host: &mut Host<'_, G, A, W>,
    words: &[u64],
) -> Result<AuthArgs, HostErr>
    requires ready { MayRun host.old }
    requires arity { length words.now ≡ 2 }
    ensures takes { (rule : Env → Rule (kinds.Address ∷ kinds.Vec ∷ []))
        → TakesIn result (λ env. answered (kinds.Address ∷ kinds.Vec ∷ []) (rule env) words.now)
        (λ env x. rule env x.address (datums x.args)) host.old host.new }
    ensures stays { StaysIn host.old host.new }
    ensures key { IfErr result IsKeySpelled }
{
    match words {
        [a, b] => auth_for_args_taken(&mut host.ledger, *a, *b),
        _ => unreachable!(),
    }
}
