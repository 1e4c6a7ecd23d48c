//! An address is asked whether it authorises.

ghost use Rattle.std.specs.Prelude.{◌≡◌, All, IfOk, IfErr};
ghost use Rattle.sha2.specs.Sha256.{sha256};
ghost use Rattle.value_types.specs.Hash.{hash_of};
ghost use Rattle.value_types.specs.Views.{datums};
ghost use Rattle.value_types.specs.declared.address.ScAddress.TheVariants as addresses;
ghost use Rattle.auth_types.specs.AuthEntry.{auth_entry_format};
ghost use Rattle.auth_types.specs.Credentials.{address_credentials_format};
ghost use Rattle.auth_types.specs.Invocation.{invocation_format};
ghost use Rattle.auth_types.specs.Payload.{signed_bytes};
ghost use Rattle.host_spec.specs.declared.error.HostErr.TheVariants as ends;
ghost use Rattle.contract_storage.specs.Stored.{IsLater, HasBounds};
ghost use Rattle.call_spec.specs.World.{World, Env, next_seq};
ghost use Rattle.call_spec.specs.Errors.{DENIED as DENIED_ERROR};
ghost use Rattle.call_spec.specs.Acts.{gives, only_where};
ghost use Rattle.call_spec.specs.Asking.{is_good, check_args as check_args_of};
ghost use Rattle.call_spec.specs.Outcomes.{Says};
ghost use Rattle.host_ledger.specs.Traced.{leaving};
ghost use Rattle.host_ledger.specs.Worlds.{Serves};
ghost use Rattle.host_ledger.specs.Spelled.{IsKeySpelled};
ghost use Rattle.call_parts.specs.Steps.{Charges, Returns};
ghost use Rattle.auth_parts.specs.Asked.{proved, asks_address, asks_payload, asks_signer, asks_first};
ghost use Rattle.auth_parts.specs.Entering.{IsEncodable};
ghost use Rattle.auth_parts.specs.Views.{asked, denied_end, IsAskedHosted};

use crate::arguments::check_args;
use crate::entering::enter_all;
use crate::errors::DENIED;
use crate::nonces::use_nonce;
use crate::payloads::{signed_hash, signed_len};
use auth_types::{AddressCredentials, AuthEntry, Credentials, Invocation};
use budget_meter::{Budget, Kind};
use call_parts::pay;
use contract_storage::{Storage, Watch};
use entry_lookup::Ground;
use host_ledger::made_seq;
use host_spec::{HostErr, ValueErr};
use ledger_types::{Header, Verdicts};
use std::alloc::Global;
use value_types::{Hash, ScAddress, ScVal};

/// What is left after an address was asked whether it authorises.
#[derive(Drop)]
pub enum Asked {
    /// Nothing: the address has proved that it authorises.
    Proved,
    /// The call of the contract's own function, with arguments that have entered the host.
    ByContract { contract: Hash, args: Vec<ScVal> },
}

/// The end of the host function for a failure of authorisation: every failure is one of authorisation.
fn denied(error: ValueErr) -> HostErr
    ensures { result ≡ denied_end error }
{
    match error {
        ValueErr::Failed(_) => DENIED,
        ValueErr::Spent => HostErr::Spent,
        ValueErr::NoMemory => HostErr::NoMemory,
    }
}

/// Makes the arguments of the contract's own function. Its only error is memory.
fn made_args(
    alloc: Global,
    payload: Hash,
    signer: &AddressCredentials,
    root: &Invocation,
) -> Result<Vec<ScVal>, HostErr>
    requires signer { address_credentials_format.fits signer.now }
    requires root { invocation_format.fits root.now }
    ensures args { IfOk result (λ a. datums a.items ≡ check_args_of payload signer.now root.now) }
    ensures encodable { IfOk result (λ a. All IsEncodable a.items) }
    ensures memory { IfErr result (λ e. e ≡ ends.NoMemory) }
{
    match check_args(alloc, payload, signer, root) {
        Ok(args) => Ok(args),
        Err(_) => Err(HostErr::NoMemory),
    }
}

/// Lets the arguments of the contract's own function enter the host.
fn ask_contract(
    alloc: Global,
    budget: &mut Budget,
    contract: Hash,
    payload: Hash,
    signer: &AddressCredentials,
    root: &Invocation,
) -> Result<Asked, HostErr>
    requires signer { address_credentials_format.fits signer.now }
    requires root { invocation_format.fits root.now }
    ensures does { (env : Env) → Charges result asked (asks_address env payload signer.now root.now
        (addresses.Contract contract)) budget.old budget.new }
    ensures hosted { IfOk result IsAskedHosted }
    ensures key { IfErr result IsKeySpelled }
{
    let args = made_args(alloc, payload, signer, root)?;
    match enter_all(budget, args.as_slice()) {
        Ok(()) => Ok(Asked::ByContract { contract, args }),
        Err(error) => Err(denied(error)),
    }
}

/// Tests whether the verdicts hold the signature of an account.
fn ask_account(verdicts: &Verdicts, account: Hash, payload: Hash) -> Result<Asked, HostErr>
    ensures does { Returns result asked (only_where (is_good verdicts.now account payload) DENIED_ERROR (gives proved)) }
    ensures hosted { IfOk result IsAskedHosted }
    ensures key { IfErr result IsKeySpelled }
{
    if verdicts.holds(&account, &payload) {
        Ok(Asked::Proved)
    } else {
        Err(DENIED)
    }
}

/// Asks the address of a signature, whose payload has this hash. Addresses of other kinds never authorise.
fn ask_address(
    alloc: Global,
    budget: &mut Budget,
    verdicts: &Verdicts,
    payload: Hash,
    signer: &AddressCredentials,
    root: &Invocation,
) -> Result<Asked, HostErr>
    requires signer { address_credentials_format.fits signer.now }
    requires root { invocation_format.fits root.now }
    ensures does { (env : Env) → env.authority.verdicts ≡ verdicts.now
        → Charges result asked (asks_address env payload signer.now root.now signer.now.address)
        budget.old budget.new }
    ensures hosted { IfOk result IsAskedHosted }
    ensures key { IfErr result IsKeySpelled }
{
    match signer.address {
        ScAddress::Account(account) => ask_account(verdicts, account.0, payload),
        ScAddress::Contract(contract) => {
            ask_contract(alloc, budget, contract, payload, signer, root)
        }
        _ => Err(DENIED),
    }
}

/// Hashes what the signature of an entry signs, and asks its address.
#[tactic(auto, using(crate::proofs::Steps::signer_fits, crate::proofs::Steps::root_fits))]
fn ask_hashed(
    alloc: Global,
    budget: &mut Budget,
    header: &Header,
    verdicts: &Verdicts,
    entry: &AuthEntry,
    signer: &AddressCredentials,
) -> Result<Asked, HostErr>
    requires fits { auth_entry_format.fits entry.now }
    requires signed { entry.now.credentials ≡ Credentials.Address signer.now }
    ensures does { (env : Env) → env.authority.verdicts ≡ verdicts.now
        → Charges result asked (asks_address env
        (hash_of (sha256 (signed_bytes header.now.network_id signer.now entry.now.root_invocation)))
        signer.now entry.now.root_invocation signer.now.address) budget.old budget.new }
    ensures hosted { IfOk result IsAskedHosted }
    ensures key { IfErr result IsKeySpelled }
{
    match signed_hash(alloc, &header.network_id, entry, signer) {
        Ok(payload) => ask_address(
            alloc,
            budget,
            verdicts,
            payload,
            signer,
            &entry.root_invocation,
        ),
        Err(error) => Err(error),
    }
}

/// Charges for what the signature of an entry signs, hashes it, and asks its address.
#[tactic(auto, using(crate::proofs::Steps::signer_fits, crate::proofs::Steps::root_fits))]
fn ask_payload(
    alloc: Global,
    budget: &mut Budget,
    header: &Header,
    verdicts: &Verdicts,
    entry: &AuthEntry,
    signer: &AddressCredentials,
) -> Result<Asked, HostErr>
    requires fits { auth_entry_format.fits entry.now }
    requires signed { entry.now.credentials ≡ Credentials.Address signer.now }
    ensures does { (env : Env) → env.header ≡ header.now → env.authority.verdicts ≡ verdicts.now
        → Charges result asked (asks_payload env
        (signed_bytes env.header.network_id signer.now entry.now.root_invocation)
        signer.now entry.now.root_invocation) budget.old budget.new }
    ensures hosted { IfOk result IsAskedHosted }
    ensures key { IfErr result IsKeySpelled }
{
    let len = signed_len(&header.network_id, signer, &entry.root_invocation);
    // Memory holds no payload that is so large.
    if len == u64::MAX {
        return Err(HostErr::NoMemory);
    }
    match pay(budget, Kind::ComputeSha256Hash, len) {
        Ok(()) => ask_hashed(alloc, budget, header, verdicts, entry, signer),
        Err(error) => Err(error),
    }
}

/// Uses the nonce of the signature of an entry, and asks its address.
#[tactic(auto, using(crate::proofs::Steps::signer_fits))]
fn ask_signer<G: Ground, W: Watch>(
    alloc: Global,
    storage: &mut Storage<'_, G, W>,
    budget: &mut Budget,
    header: &Header,
    verdicts: &Verdicts,
    entry: &AuthEntry,
    signer: &AddressCredentials,
) -> Result<Asked, HostErr>
    requires fits { auth_entry_format.fits entry.now }
    requires signed { entry.now.credentials ≡ Credentials.Address signer.now }
    requires bounds { HasBounds (next_seq header.now) header.now.settings }
    requires number { storage.old.n ≡ next_seq header.now }
    requires lives { storage.old.lives ≡ header.now.settings }
    ensures does { (env : Env) → env.header ≡ header.now → env.authority.verdicts ≡ verdicts.now
        → Serves env storage.old → (w : World) → w.entries ≡ storage.old.map → w.meter ≡ budget.old
        → Says result asked (asks_signer env entry.now.root_invocation signer.now w) (leaving storage.old storage.new w.trace
        (λ trace. record w { entries = storage.new.map; trace = trace; meter = budget.new })) }
    ensures hosted { IfOk result IsAskedHosted }
    ensures later { IsLater storage.old storage.new }
    ensures key { IfErr result IsKeySpelled }
{
    let n = made_seq(header);
    match use_nonce(storage, budget, n, &header.settings, signer) {
        Ok(()) => ask_payload(alloc, budget, header, verdicts, entry, signer),
        Err(error) => Err(error),
    }
}

/// Proves an authorisation entry, up to the run of a contract's own function: uses the nonce, charges for what was signed, and
/// asks the address. The transaction's source has signed the transaction and is not asked.
pub fn ask<G: Ground, W: Watch>(
    alloc: Global,
    storage: &mut Storage<'_, G, W>,
    budget: &mut Budget,
    header: &Header,
    verdicts: &Verdicts,
    entry: &AuthEntry,
) -> Result<Asked, HostErr>
    requires fits { auth_entry_format.fits entry.now }
    requires bounds { HasBounds (next_seq header.now) header.now.settings }
    requires number { storage.old.n ≡ next_seq header.now }
    requires lives { storage.old.lives ≡ header.now.settings }
    ensures does { (env : Env) → env.header ≡ header.now → env.authority.verdicts ≡ verdicts.now
        → Serves env storage.old → (w : World) → w.entries ≡ storage.old.map → w.meter ≡ budget.old
        → Says result asked (asks_first env entry.now w) (leaving storage.old storage.new w.trace
        (λ trace. record w { entries = storage.new.map; trace = trace; meter = budget.new })) }
    ensures hosted { IfOk result IsAskedHosted }
    ensures later { IsLater storage.old storage.new }
    ensures key { IfErr result IsKeySpelled }
{
    match &entry.credentials {
        Credentials::SourceAccount => Ok(Asked::Proved),
        Credentials::Address(signer) => {
            ask_signer(alloc, storage, budget, header, verdicts, entry, signer)
        }
    }
}
