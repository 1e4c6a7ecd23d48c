//! The arguments of the function that checks an authorisation.

ghost use Rattle.std.specs.Prelude.{◌≡◌, ◌<◌, ◌^◌, [], ◌∷◌, length, All, IfOk};
ghost use Rattle.value_types.specs.Datum.{bytes, vec, items_of};
ghost use Rattle.value_types.specs.Views.{datum, datums};
ghost use Rattle.auth_types.specs.Credentials.{address_credentials_format};
ghost use Rattle.auth_types.specs.Invocation.{invocation_format};
ghost use Rattle.auth_types.specs.Views.{tree_of};
ghost use Rattle.call_spec.specs.Contexts.{contexts_of};
ghost use Rattle.call_spec.specs.Asking.{check_args};
ghost use Rattle.auth_parts.specs.Entering.{IsEncodable};

use crate::contexts::{bytes_of, contexts_of, vec_of};
use auth_types::{AddressCredentials, Invocation};
use std::alloc::Global;
use value_types::{Hash, ScVal, hash_fits};
use xdr_core::NoMemory;

/// The contexts of an invocation, of which there are fewer than 2^32. Memory holds no more.
fn few_contexts(alloc: Global, root: &Invocation) -> Result<Vec<ScVal>, NoMemory>
    ensures contexts { IfOk result (λ c. datums c.items ≡ contexts_of (tree_of root.now)) }
    ensures few { IfOk result (λ c. length c.items < 2 ^ 32) }
{
    let contexts = contexts_of(alloc, root)?;
    if contexts.len() > u32::MAX as usize {
        return Err(NoMemory);
    }
    Ok(contexts)
}

/// The payload's hash, the signature and the contexts, as arguments.
fn args_of(
    alloc: Global,
    payload: Hash,
    signature: &ScVal,
    contexts: Vec<ScVal>,
) -> Result<Vec<ScVal>, NoMemory>
    ensures { IfOk result (λ a. datums a.items
        ≡ bytes payload.0 ∷ datum signature.now ∷ vec (items_of (datums contexts.items)) ∷ []) }
{
    let mut args = Vec::with_capacity(alloc, 3)?;
    args.push(bytes_of(alloc, payload)?)?;
    args.push(signature.clone()?)?;
    args.push(vec_of(contexts)?)?;
    Ok(args)
}

/// The arguments of the function that checks an authorisation: the payload's hash, the signature, and the contexts of the root.
pub(crate) fn check_args(
    alloc: Global,
    payload: Hash,
    signer: &AddressCredentials,
    root: &Invocation,
) -> Result<Vec<ScVal>, NoMemory>
    requires signer { address_credentials_format.fits signer.now }
    requires root { invocation_format.fits root.now }
    ensures args { IfOk result (λ a. datums a.items ≡ check_args payload signer.now root.now) }
    ensures encodable { IfOk result (λ a. All IsEncodable a.items) }
{
    hash_fits(payload);
    let contexts = few_contexts(alloc, root)?;
    let args = args_of(alloc, payload, &signer.signature, contexts)?;
    Ok(args)
}
