//! The payload that a signature signs.

ghost use Rattle.std.specs.Prelude.{◌≡◌, length, IfOk, IfErr};
ghost use Rattle.sha2.specs.Sha256.{sha256};
ghost use Rattle.xdr_core.specs.Sizes.{capped};
ghost use Rattle.value_types.specs.Hash.{hash_of};
ghost use Rattle.auth_types.specs.AuthEntry.{auth_entry_format};
ghost use Rattle.auth_types.specs.Invocation.{invocation_format};
ghost use Rattle.auth_types.specs.Payload.{signed_bytes};
ghost use Rattle.host_spec.specs.declared.error.HostErr.TheVariants as ends;

use auth_types::{AddressCredentials, AuthEntry, Credentials, Invocation, payload_hash};
use host_spec::HostErr;
use std::alloc::Global;
use value_types::{Hash, hash_fits};
use value_xdr::Xdr;
use xdr_core::add_sizes;

/// The bytes of a payload before the root of the tree: the envelope type, the network's id, the nonce and the last ledger.
const HEAD: u64 = 48;

/// The number of bytes that a signature signs, or `u64::MAX` if there are more.
#[tactic(auto, using(crate::proofs::SignedBytes::signed_length), unfolding(xdr_core::specs::Sizes::capped))]
pub(crate) fn signed_len(network: &Hash, signer: &AddressCredentials, root: &Invocation) -> u64
    requires { invocation_format.fits root.now }
    ensures { result ≡ capped (length (signed_bytes network.now signer.now root.now)) }
{
    hash_fits(*network);
    let _ = signer;
    add_sizes(HEAD, root.size())
}

/// The hash of what the signature of an entry signs. Its only error is memory.
pub(crate) fn signed_hash(
    alloc: Global,
    network: &Hash,
    entry: &AuthEntry,
    signer: &AddressCredentials,
) -> Result<Hash, HostErr>
    requires fits { auth_entry_format.fits entry.now }
    requires signed { entry.now.credentials ≡ Credentials.Address signer.now }
    ensures ok { IfOk result (λ hash. hash ≡ hash_of (sha256 (signed_bytes network.now signer.now entry.now.root_invocation))) }
    ensures memory { IfErr result (λ e. e ≡ ends.NoMemory) }
{
    match payload_hash(alloc, network, entry) {
        Ok(hash) => Ok(hash),
        Err(_) => Err(HostErr::NoMemory),
    }
}
