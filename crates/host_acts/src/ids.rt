//! The ids of contracts.

ghost use Rattle.std.specs.Prelude.{◌≡◌, ◌==◌, length, true, false, Some, IfOk, IfErr, MatchResult};
ghost use Rattle.value_types.specs.Address.{address_format};
ghost use Rattle.value_types.specs.Datum.{address};
ghost use Rattle.value_types.specs.Hash.{hash_of as hash_with};
ghost use Rattle.invoke_types.specs.ContractId.{contract_id_payload, contract_id_of};
ghost use Rattle.host_spec.specs.Addresses.{as_plain};
ghost use Rattle.host_spec.specs.Answers.{value};
ghost use Rattle.host_spec.specs.declared.error.HostErr.TheVariants as ends;
ghost use Rattle.host_spec.specs.declared.error.ValueErr.TheVariants as errs;
ghost use Rattle.host_frame.specs.Answered.{answer_of};
ghost use Rattle.host_frame.specs.Made.{IsAnswerMade};
ghost use Rattle.call_spec.specs.Errors.{OTHER_SIZE as OTHER_SIZE_ERROR};
ghost use Rattle.call_spec.specs.World.{World};
ghost use Rattle.call_spec.specs.Acts.{gives, paying};
ghost use Rattle.call_spec.specs.Outcomes.{quiet, Says};
ghost use Rattle.call_spec.specs.Rules.{returning};
ghost use Rattle.host_acts.specs.Answered.{IsMadeIfOk};
ghost use Rattle.host_acts.specs.Spelled.{IsKeySpelled};

use crate::errors::OTHER_SIZE;
use budget_meter::{Budget, Kind};
use host_frame::{Answer, charge};
use host_spec::{HostErr, ValueErr};
use invoke_types::{Preimage, contract_id, contract_id_lengths};
use std::alloc::Global;
use value_types::{Hash, ScAddress, ScVal, hash_fits};

/// The hash with these bytes, if there are 32.
pub fn hash_of(bytes: &[u8]) -> Result<Hash, HostErr>
    ensures { MatchResult result (λ h. (length bytes.now == 32 ≡ true) × (h ≡ hash_with bytes.now))
        (λ e. (length bytes.now == 32 ≡ false) × (e ≡ ends.Failed OTHER_SIZE_ERROR)) }
{
    if bytes.len() != 32 {
        return Err(OTHER_SIZE);
    }
    let mut hash = [0; 32];
    hash.copy_from_slice(bytes);
    Ok(Hash(hash))
}

/// Says that an address has a spelling.
#[tactic(auto, unfolding(value_types::specs::Address::address_format, value_types::specs::AccountId::account_id_format, xdr_spec::specs::Format::number64))]
fn hold_address(address: ScAddress)
    ensures { address_format.fits address }
{
    match address {
        ScAddress::Account(account) => hash_fits(account.0),
        ScAddress::Contract(hash) => hash_fits(hash),
        ScAddress::MuxedAccount { ed25519, .. } => hash_fits(ed25519),
        ScAddress::ClaimableBalance(hash) => hash_fits(hash),
        ScAddress::LiquidityPool(hash) => hash_fits(hash),
    }
}

/// The number of bytes whose SHA-256 is the id of a contract.
#[tactic(auto, unfolding(value_types::specs::AccountId::account_id_format))]
fn payload_size(network: Hash, deployer: ScAddress, salt: Hash) -> u64
    requires { as_plain deployer ≡ Some deployer }
    ensures { result ≡ length (contract_id_payload network (Preimage.FromAddress deployer salt)) }
{
    hash_fits(network);
    hash_fits(salt);
    contract_id_lengths();
    match deployer {
        ScAddress::Account(account) => {
            hash_fits(account.0);
            112
        }
        ScAddress::Contract(hash) => {
            hash_fits(hash);
            108
        }
        _ => unreachable!(),
    }
}

/// The address of a contract, as an answer.
#[tactic(auto, using(crate::proofs::Making::contract_made), unfolding(value_types::specs::Address::address_format, value_types::specs::Hash::hash_format))]
pub fn address_of(contract: Hash) -> Answer
    ensures value { answer_of result ≡ value (address (ScAddress.Contract contract)) }
    ensures made { IsAnswerMade (answer_of result) }
{
    Answer::value(ScVal::Address(ScAddress::Contract(contract)))
}

/// The id of the contract that an address deploys with a salt, as an answer.
#[tactic(auto, using(crate::proofs::DataKeys::preimage_fits))]
fn id_answer(
    alloc: Global,
    network: &Hash,
    deployer: ScAddress,
    salt: Hash,
) -> Result<Answer, ValueErr>
    ensures value { IfOk result (λ a. answer_of a ≡ value
        (address (ScAddress.Contract (contract_id_of network.now (Preimage.FromAddress deployer salt))))) }
    ensures made { IfOk result (λ a. IsAnswerMade (answer_of a)) }
    ensures memory { IfErr result (λ e. e ≡ errs.NoMemory) }
{
    hold_address(deployer);
    hash_fits(salt);
    let preimage = Preimage::FromAddress {
        address: deployer,
        salt,
    };
    let id = contract_id(alloc, network, &preimage)?;
    Ok(address_of(id))
}

/// The id of the contract that an address deploys with a salt, after its charge.
pub fn paid_id(
    budget: &mut Budget,
    alloc: Global,
    network: &Hash,
    deployer: ScAddress,
    salt: Hash,
) -> Result<Answer, HostErr>
    requires { as_plain deployer ≡ Some deployer }
    ensures does { (w : World) → w.meter ≡ budget.old
        → Says result answer_of (paying Kind.ComputeSha256Hash
        (length (contract_id_payload network.now (Preimage.FromAddress deployer salt)))
        (returning (gives (contract_id_of network.now (Preimage.FromAddress deployer salt)))
        (λ id. address (ScAddress.Contract id))) w) (quiet w (λ trace. record w { trace = trace; meter = budget.new })) }
    ensures made { IsMadeIfOk result }
    ensures key { IfErr result IsKeySpelled }
{
    let size = payload_size(*network, deployer, salt);
    charge(budget, Kind::ComputeSha256Hash, size)?;
    let answer = id_answer(alloc, network, deployer, salt)?;
    Ok(answer)
}
