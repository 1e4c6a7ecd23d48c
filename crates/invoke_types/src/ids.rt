//! The ids of contracts.

ghost use Rattle.std.specs.Prelude.{IfOk, ◌≡◌, length};
ghost use Rattle.value_types.specs.Hash.{hash_format};
ghost use Rattle.value_types.specs.AccountId.{account_id_format};
ghost use Rattle.value_types.specs.declared.hash.Hash.{Hash as HashData};
ghost use Rattle.value_types.specs.declared.account_id.AccountId.{AccountId};
ghost use Rattle.value_types.specs.declared.address.ScAddress.TheVariants.{Account, Contract};
ghost use Rattle.invoke_types.specs.declared.preimage.Preimage.TheVariants.{FromAddress};
ghost use Rattle.invoke_types.specs.Preimage.{preimage_format};
ghost use Rattle.invoke_types.specs.ContractId.{contract_id_payload, contract_id_of};

use crate::preimage::Preimage;
use sha2::{Digest, Sha256};
use std::alloc::Global;
use value_types::Hash;
use value_xdr::Xdr;
use xdr_core::{NoMemory, Out};

/// The envelope type of a contract id's preimage (ENVELOPE_TYPE_CONTRACT_ID).
const ENVELOPE_TYPE_CONTRACT_ID: u32 = 8;

/// The id of the contract on the network with this id: the SHA-256 of the envelope type, the network's id and the preimage.
#[tactic(auto, unfolding(value_types::specs::Hash::hash_format, xdr_spec::specs::Format::number32))]
pub fn contract_id(alloc: Global, network: &Hash, preimage: &Preimage) -> Result<Hash, NoMemory>
    requires { preimage_format.fits preimage.now }
    ensures value { IfOk result (λ id. id ≡ contract_id_of network.now preimage.now) }
    ensures fits { IfOk result hash_format.fits }
{
    let mut out = Out::new(alloc);
    out.put_u32(ENVELOPE_TYPE_CONTRACT_ID)?;
    out.put_fixed(&network.0)?;
    preimage.write(&mut out)?;
    let payload = out.into_vec();
    Ok(Hash(Sha256::digest(payload.as_slice())))
}

/// The number of hashed bytes: 112 if an account deploys the contract, 108 if a contract does.
pub fn contract_id_lengths()
    ensures account { (network : HashData) (deployer : AccountId) (salt : HashData) → hash_format.fits network
        → account_id_format.fits deployer → hash_format.fits salt
        → length (contract_id_payload network (FromAddress (Account deployer) salt)) ≡ 112 }
    ensures contract { (network : HashData) (deployer : HashData) (salt : HashData) → hash_format.fits network
        → hash_format.fits deployer → hash_format.fits salt
        → length (contract_id_payload network (FromAddress (Contract deployer) salt)) ≡ 108 }
{}
