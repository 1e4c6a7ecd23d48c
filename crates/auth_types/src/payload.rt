//! The payload that an authorisation's signature signs.

ghost use Rattle.std.specs.Prelude.{IfOk, OnOk, ◌≡◌, ◌++◌};
ghost use Rattle.value_types.specs.Hash.{hash_format};
ghost use Rattle.auth_types.specs.AuthEntry.{auth_entry_format};
ghost use Rattle.auth_types.specs.Payload.{IsOfAddress, payload, payload_hash_of, signed_bytes};
ghost use Rattle.auth_types.specs.Invocation.{invocation_format};
ghost use Rattle.auth_types.specs.Credentials.{address_credentials_format};

use crate::auth_entry::AuthEntry;
use crate::credentials::{AddressCredentials, Credentials};
use crate::invocation::Invocation;
use sha2::{Digest, Sha256};
use std::alloc::Global;
use value_types::Hash;
use value_xdr::Xdr;
use xdr_core::{NoMemory, Out};

/// The envelope type of an authorisation's payload (ENVELOPE_TYPE_SOROBAN_AUTHORIZATION).
const ENVELOPE_TYPE_SOROBAN_AUTHORIZATION: u32 = 9;

#[tactic(auto, unfolding(crate::specs::Credentials::address_credentials_format, value_types::specs::Hash::hash_format, xdr_spec::specs::Format::number32))]
fn write_signed(
    network: &Hash,
    address: &AddressCredentials,
    root: &Invocation,
    out: &mut Out,
) -> Result<(), NoMemory>
    requires address { address_credentials_format.fits address.now }
    requires root { invocation_format.fits root.now }
    ensures { OnOk result (out.new ≡ out.old ++ signed_bytes network.now address.now root.now) }
{
    out.put_u32(ENVELOPE_TYPE_SOROBAN_AUTHORIZATION)?;
    out.put_fixed(&network.0)?;
    address.nonce.write(out)?;
    address.signature_expiration_ledger.write(out)?;
    root.write(out)
}

/// Writes the hashed bytes of an authorisation.
#[tactic(auto, unfolding(crate::specs::AuthEntry::auth_entry_format, crate::specs::Credentials::credentials_format))]
fn write_payload(network: &Hash, entry: &AuthEntry, out: &mut Out) -> Result<(), NoMemory>
    requires { auth_entry_format.fits entry.now }
    ensures { OnOk result (out.new ≡ out.old ++ payload network.now entry.now.credentials entry.now.root_invocation) }
{
    match &entry.credentials {
        Credentials::SourceAccount => Ok(()),
        Credentials::Address(address) => {
            write_signed(network, address, &entry.root_invocation, out)
        }
    }
}

/// The hash that the signature of an authorisation entry signs on the network with this id: the SHA-256 of the envelope type, the
/// network's id, the nonce, the last ledger of the signature and the root of the tree.
#[tactic(auto, unfolding(value_types::specs::Hash::hash_format))]
pub fn payload_hash(alloc: Global, network: &Hash, entry: &AuthEntry) -> Result<Hash, NoMemory>
    requires signed { IsOfAddress entry.now.credentials }
    requires fits { auth_entry_format.fits entry.now }
    ensures value { IfOk result (λ hash. hash ≡ payload_hash_of network.now entry.now) }
    ensures fits { IfOk result hash_format.fits }
{
    let mut out = Out::for_payload(alloc)?;
    write_payload(network, entry, &mut out)?;
    let bytes = out.into_vec();
    Ok(Hash(Sha256::digest(bytes.as_slice())))
}
