//! Whose demands an entry may meet.

ghost use Rattle.std.specs.Prelude.{◌≡◌, map, IfOk};
ghost use Rattle.auth_types.specs.Tree.{trees_of};
ghost use Rattle.auth_types.specs.Views.{tree_of, forest_of};
ghost use Rattle.auth_spec.specs.Demands.{is_from_asset, is_stellar_asset, creates_asset, has_asset, have_asset, signer};
ghost use Rattle.auth_spec.specs.Demands.{may_authorise, is_caller};
ghost use Rattle.auth_trees.specs.Flat.{authoriser, is_known};

use auth_types::{AuthEntry, Credentials, Invocation};
use invoke_types::{Function, Preimage};
use std::alloc::Global;
use value_types::{AccountId, Executable, ScAddress};
use xdr_core::NoMemory;

fn is_from_asset(preimage: &Preimage) -> bool
    ensures { result ≡ is_from_asset preimage.now }
{
    match preimage {
        Preimage::FromAddress { .. } => false,
        Preimage::FromAsset(_) => true,
    }
}

fn is_stellar_asset(executable: &Executable) -> bool
    ensures { result ≡ is_stellar_asset executable.now }
{
    match executable {
        Executable::Wasm(_) => false,
        Executable::StellarAsset => true,
    }
}

/// Whether the function is a create from an asset, or of the contract of an asset.
fn creates_asset(function: &Function) -> bool
    ensures { result ≡ creates_asset function.now }
{
    match function {
        Function::ContractFn(_) => false,
        Function::CreateContract(args) => {
            is_from_asset(&args.preimage) || is_stellar_asset(&args.executable)
        }
        Function::CreateContractV2(args) => {
            is_from_asset(&args.preimage) || is_stellar_asset(&args.executable)
        }
    }
}

/// Whether some node of the tree is such a create.
#[cycle(assets)]
fn has_asset(tree: &Invocation) -> bool
    ensures { result ≡ has_asset (tree_of tree.now) }
{
    creates_asset(&tree.function) || have_asset(tree.sub_invocations.as_slice())
}

/// Whether some node of the trees is such a create.
#[cycle(assets)]
fn have_asset(row: &[Invocation]) -> bool
    ensures { result ≡ have_asset (trees_of (forest_of row.now)) }
{
    for tree in row {
        if has_asset(tree) {
            return true;
        }
    }
    false
}

/// The address that an entry is of.
fn signer(source: AccountId, credentials: &Credentials) -> ScAddress
    ensures { result ≡ signer source credentials.now }
{
    match credentials {
        Credentials::SourceAccount => ScAddress::Account(source),
        Credentials::Address(address) => address.address,
    }
}

/// The address whose demands an entry may meet, if it may meet any.
fn authoriser(source: AccountId, entry: &AuthEntry) -> Option<ScAddress>
    ensures { result ≡ authoriser source entry.now }
{
    if has_asset(&entry.root_invocation) {
        None
    } else {
        Some(signer(source, &entry.credentials))
    }
}

/// The addresses whose demands the entries may meet.
pub(crate) fn authorisers(
    alloc: Global,
    entries: &[AuthEntry],
    source: AccountId,
) -> Result<Vec<Option<ScAddress>>, NoMemory>
    ensures { IfOk result (λ addresses. addresses.items ≡ map (authoriser source) entries.now) }
{
    let mut addresses = Vec::new(alloc);
    for entry in entries {
        addresses.push(authoriser(source, entry))?;
    }
    Ok(addresses)
}

/// Whether this is the address.
pub(crate) fn is_known(known: Option<ScAddress>, address: ScAddress) -> bool
    ensures { result ≡ is_known address known }
{
    match known {
        None => false,
        Some(known) => known == address,
    }
}

/// Whether an address of this kind may authorise anything.
pub(crate) fn may_authorise(address: ScAddress) -> bool
    ensures { result ≡ may_authorise address }
{
    match address {
        ScAddress::Account(_) | ScAddress::Contract(_) => true,
        _ => false,
    }
}

/// Whether the address is the caller.
pub fn is_caller(address: ScAddress, caller: Option<ScAddress>) -> bool
    ensures { result ≡ is_caller address caller }
{
    match caller {
        None => false,
        Some(caller) => caller == address,
    }
}
