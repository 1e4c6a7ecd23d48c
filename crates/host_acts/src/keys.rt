//! The keys of what a contract has in the ledger.

ghost use Rattle.std.specs.Prelude.{◌≡◌, IfOk, IfErr};
ghost use Rattle.value_types.specs.Views.{datum};
ghost use Rattle.host_spec.specs.Hosted.{IsHosted};
ghost use Rattle.host_spec.specs.declared.error.ValueErr.TheVariants as errs;
ghost use Rattle.ledger_types.specs.Key.{key_format};
ghost use Rattle.call_spec.specs.Keys.{data_key as data_key_at, instance_key as instance_key_of, code_key as code_key_of};

use host_spec::ValueErr;
use ledger_types::{Durability, LedgerKey};
use value_types::{Hash, ScAddress, ScVal, contract_fits, hash_fits};

/// The key of a contract's data.
#[tactic(auto, using(crate::proofs::DataKeys::same_scval, crate::proofs::DataKeys::data_key_fits))]
pub fn data_key(contract: Hash, key: &ScVal, durability: Durability) -> Result<LedgerKey, ValueErr>
    requires { IsHosted (datum key.now) }
    ensures key { IfOk result (λ k. k ≡ data_key_at contract (datum key.now) durability) }
    ensures fits { IfOk result (λ k. key_format.fits k) }
    ensures memory { IfErr result (λ e. e ≡ errs.NoMemory) }
{
    contract_fits(contract);
    let key = key.clone()?;
    Ok(LedgerKey::ContractData {
        contract: ScAddress::Contract(contract),
        key,
        durability,
    })
}

/// The key of a contract's instance.
#[tactic(auto, using(crate::proofs::DataKeys::instance_key_fits))]
pub fn instance_key(contract: Hash) -> LedgerKey
    ensures key { result ≡ instance_key_of contract }
    ensures fits { key_format.fits result }
{
    contract_fits(contract);
    LedgerKey::ContractData {
        contract: ScAddress::Contract(contract),
        key: ScVal::LedgerKeyContractInstance,
        durability: Durability::Persistent,
    }
}

/// The key of a code.
#[tactic(auto, using(crate::proofs::DataKeys::code_key_fits))]
pub fn code_key(code: Hash) -> LedgerKey
    ensures key { result ≡ code_key_of code }
    ensures fits { key_format.fits result }
{
    hash_fits(code);
    LedgerKey::ContractCode(code)
}
