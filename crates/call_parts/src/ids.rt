//! The ids of new contracts.

ghost use Rattle.std.specs.Prelude.{◌≡◌, length, IfOk, IfErr};
ghost use Rattle.value_types.specs.Address.{address_format};
ghost use Rattle.host_spec.specs.declared.error.HostErr.TheVariants as ends;
ghost use Rattle.invoke_types.specs.ContractId.{contract_id_payload, contract_id_of};
ghost use Rattle.invoke_types.specs.declared.preimage.Preimage.TheVariants.{FromAddress};
ghost use Rattle.call_spec.specs.World.{Env};
ghost use Rattle.call_spec.specs.Acts.{gives};
ghost use Rattle.call_spec.specs.Creating.{paying_id};
ghost use Rattle.call_parts.specs.Steps.{Charges};
ghost use Rattle.host_ledger.specs.Spelled.{IsKeySpelled};

use crate::charges::pay;
use budget_meter::{Budget, Kind};
use host_spec::HostErr;
use invoke_types::{Preimage, contract_id};
use std::alloc::Global;
use value_types::{Hash, ScAddress, hash_fits};

/// Says that an address has a spelling.
#[tactic(auto, unfolding(value_types::specs::Address::address_format, value_types::specs::AccountId::account_id_format, value_types::specs::Hash::hash_format, xdr_spec::specs::Format::number64))]
fn hold_address(address: ScAddress)
    ensures { address_format.fits address }
{
    match address {
        ScAddress::Account(account) => hash_fits(account.0),
        ScAddress::Contract(contract) => hash_fits(contract),
        ScAddress::MuxedAccount { ed25519, .. } => hash_fits(ed25519),
        ScAddress::ClaimableBalance(balance) => hash_fits(balance),
        ScAddress::LiquidityPool(pool) => hash_fits(pool),
    }
}

/// The number of bytes that are hashed to a contract's id.
#[tactic(auto, using(crate::proofs::Payloads::payload_length))]
fn payload_len(network: &Hash, deployer: ScAddress, salt: Hash) -> u64
    ensures { result ≡ length (contract_id_payload network.now (FromAddress deployer salt)) }
{
    hash_fits(*network);
    hold_address(deployer);
    hash_fits(salt);
    match deployer {
        ScAddress::Account(_) | ScAddress::ClaimableBalance(_) => 112,
        ScAddress::Contract(_) | ScAddress::LiquidityPool(_) => 108,
        ScAddress::MuxedAccount { .. } => 116,
    }
}

/// The id of the contract that a deployer creates with a salt. Its only error is memory.
#[tactic(auto, unfolding(invoke_types::specs::Preimage::preimage_format))]
fn id_of(alloc: Global, network: &Hash, deployer: ScAddress, salt: Hash) -> Result<Hash, HostErr>
    ensures ok { IfOk result (λ id. id ≡ contract_id_of network.now (FromAddress deployer salt)) }
    ensures memory { IfErr result (λ e. e ≡ ends.NoMemory) }
{
    hold_address(deployer);
    hash_fits(salt);
    let preimage = Preimage::FromAddress {
        address: deployer,
        salt,
    };
    match contract_id(alloc, network, &preimage) {
        Ok(id) => Ok(id),
        Err(_) => Err(HostErr::NoMemory),
    }
}

/// The id of the contract that a deployer creates with a salt, after its charge.
pub fn new_id(
    alloc: Global,
    budget: &mut Budget,
    network: &Hash,
    deployer: ScAddress,
    salt: Hash,
) -> Result<Hash, HostErr>
    ensures does { (env : Env) → env.header.network_id ≡ network.now
        → Charges result (λ id. id) (paying_id env (FromAddress deployer salt)
        (gives (contract_id_of network.now (FromAddress deployer salt)))) budget.old budget.new }
    ensures key { IfErr result IsKeySpelled }
{
    let len = payload_len(network, deployer, salt);
    match pay(budget, Kind::ComputeSha256Hash, len) {
        Ok(()) => id_of(alloc, network, deployer, salt),
        Err(error) => Err(error),
    }
}
