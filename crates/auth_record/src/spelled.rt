//! Whether authorisation entries have a spelling. Each recorded entry has one. It is tested, so that contracts can say it.

ghost use Rattle.std.specs.Prelude.{◌≡◌, true};
ghost use Rattle.xdr_spec.specs.Format.{list};
ghost use Rattle.value_types.specs.Executable.{executable_format};
ghost use Rattle.invoke_types.specs.Arguments.{invoke_format, create_format, create_v2_format};
ghost use Rattle.invoke_types.specs.Function.{function_format};
ghost use Rattle.invoke_types.specs.Preimage.{preimage_format};
ghost use Rattle.auth_types.specs.AuthEntry.{auth_entry_format};
ghost use Rattle.auth_types.specs.Credentials.{address_credentials_format, credentials_format};
ghost use Rattle.auth_types.specs.Invocation.{one_level, subs_format};
ghost use Rattle.auth_types.specs.Views.{forest_of};

use crate::bounded::{address_fits, hold_i64, hold_u32, is_short, value_fits, values_fit};
use auth_types::{AddressCredentials, AuthEntry, Credentials, Invocation};
use invoke_types::{
    CreateContractArgs, CreateContractArgsV2, Function, InvokeContractArgs, Preimage,
};
use value_types::{Executable, hash_fits};

/// The number of levels below the root of a tree.
const LEVELS_BELOW: u32 = 99;

/// Whether an executable is one that a contract can ask for: its code has a hash.
#[tactic(auto, unfolding(value_types::specs::Executable::executable_format))]
fn executable_fits(executable: Executable) -> bool
    ensures { result ≡ true → executable_format.fits executable }
{
    match executable {
        Executable::Wasm(hash) => {
            hash_fits(hash);
            true
        }
        Executable::StellarAsset => false,
    }
}

/// Whether a preimage is one that a contract can ask for: it names a deployer.
#[tactic(auto, unfolding(invoke_types::specs::Preimage::preimage_format))]
fn preimage_fits(preimage: Preimage) -> bool
    ensures { result ≡ true → preimage_format.fits preimage }
{
    match preimage {
        Preimage::FromAddress { address, salt } => {
            hash_fits(salt);
            address_fits(address)
        }
        Preimage::FromAsset(_) => false,
    }
}

/// Whether a call has a spelling.
#[tactic(auto, unfolding(invoke_types::specs::Arguments::invoke_format))]
fn call_fits(call: &InvokeContractArgs) -> bool
    ensures { result ≡ true → invoke_format.fits call.now }
{
    let address = address_fits(call.contract);
    let name = is_short(call.function.as_blob().as_slice(), 32);
    let args = values_fit(call.args.as_slice());
    address && name && args
}

/// Whether a create has a spelling.
#[tactic(auto, unfolding(invoke_types::specs::Arguments::create_format))]
fn create_fits(create: &CreateContractArgs) -> bool
    ensures { result ≡ true → create_format.fits create.now }
{
    let preimage = preimage_fits(create.preimage);
    let executable = executable_fits(create.executable);
    preimage && executable
}

/// Whether a create with a constructor has a spelling.
#[tactic(auto, unfolding(invoke_types::specs::Arguments::create_v2_format))]
fn construct_fits(create: &CreateContractArgsV2) -> bool
    ensures { result ≡ true → create_v2_format.fits create.now }
{
    let preimage = preimage_fits(create.preimage);
    let executable = executable_fits(create.executable);
    let args = values_fit(create.constructor_args.as_slice());
    preimage && executable && args
}

/// Whether a function has a spelling.
#[tactic(auto, unfolding(invoke_types::specs::Function::function_format))]
fn function_fits(function: &Function) -> bool
    ensures { result ≡ true → function_format.fits function.now }
{
    match function {
        Function::ContractFn(call) => call_fits(call),
        Function::CreateContract(create) => create_fits(create),
        Function::CreateContractV2(create) => construct_fits(create),
    }
}

/// Whether a tree has a spelling with at most so many levels below its root.
#[cycle(tree)]
fn tree_fits(invocation: &Invocation, levels: u32) -> bool
    ensures { result ≡ true → (one_level (subs_format levels)).fits invocation.now }
{
    let function = function_fits(&invocation.function);
    let subs = subs_fit(invocation.sub_invocations.as_slice(), levels);
    function && subs
}

/// Whether trees have a spelling as the sub-invocations of a node with at most so many levels below it.
#[cycle(tree)]
fn subs_fit(items: &[Invocation], levels: u32) -> bool
    ensures { result ≡ true → (subs_format levels).fits (forest_of items.now) }
{
    if levels == 0 {
        return items.is_empty();
    }
    if items.len() > 4_294_967_295 {
        return false;
    }
    for item in items {
        let good = tree_fits(item, levels - 1);
        if !good {
            return false;
        }
    }
    true
}

/// Whether the credentials of an address have a spelling.
#[tactic(auto, unfolding(auth_types::specs::Credentials::address_credentials_format))]
fn signer_fits(signer: &AddressCredentials) -> bool
    ensures { result ≡ true → address_credentials_format.fits signer.now }
{
    hold_i64(signer.nonce);
    hold_u32(signer.signature_expiration_ledger);
    let address = address_fits(signer.address);
    let signature = value_fits(&signer.signature);
    address && signature
}

/// Whether credentials have a spelling.
#[tactic(auto, unfolding(auth_types::specs::Credentials::credentials_format))]
fn credentials_fit(credentials: &Credentials) -> bool
    ensures { result ≡ true → credentials_format.fits credentials.now }
{
    match credentials {
        Credentials::SourceAccount => true,
        Credentials::Address(signer) => signer_fits(signer),
    }
}

/// Whether an entry has a spelling.
#[tactic(auto, unfolding(auth_types::specs::AuthEntry::auth_entry_format, auth_types::specs::Invocation::invocation_format))]
fn entry_fits(entry: &AuthEntry) -> bool
    ensures { result ≡ true → auth_entry_format.fits entry.now }
{
    let credentials = credentials_fit(&entry.credentials);
    let root = tree_fits(&entry.root_invocation, LEVELS_BELOW);
    credentials && root
}

/// Whether entries have a spelling in a row.
pub(crate) fn entries_fit(entries: &[AuthEntry]) -> bool
    ensures { result ≡ true → (list 4294967295 auth_entry_format).fits entries.now }
{
    if entries.len() > 4_294_967_295 {
        return false;
    }
    for entry in entries {
        let good = entry_fits(entry);
        if !good {
            return false;
        }
    }
    true
}
