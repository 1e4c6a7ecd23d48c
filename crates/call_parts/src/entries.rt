//! The entries of instances and codes.

ghost use Rattle.std.specs.Prelude.{◌≡◌, ◌<◌, ◌^◌, length, IfOk, IfErr};
ghost use Rattle.sha2.specs.Sha256.{sha256};
ghost use Rattle.value_types.specs.Hash.{hash_of};
ghost use Rattle.ledger_types.specs.Entry.{entry_format};
ghost use Rattle.ledger_spec.specs.LedgerMap.{HasCodeHash};
ghost use Rattle.host_spec.specs.declared.error.HostErr.TheVariants as ends;
ghost use Rattle.call_spec.specs.Keys.{instance_entry, code_entry};
ghost use Rattle.host_ledger.specs.Worlds.{IsHeld};

use host_spec::HostErr;
use ledger_types::{
    ContractCodeEntry, ContractDataEntry, Durability, LedgerEntry, LedgerEntryData,
};
use sha2::{Digest, Sha256};
use std::alloc::Global;
use value_types::{
    Blob, Entries, Executable, Hash, Instance, ScAddress, ScVal, contract_fits, hash_fits,
};
use value_xdr::hold_bytes;

/// The entry of an instance.
#[tactic(auto, using(crate::proofs::EntryLaws::instance_same, crate::proofs::EntryLaws::instance_entry_fits))]
pub(crate) fn instance_entry(
    n: u32,
    contract: Hash,
    code: Hash,
    storage: Option<Entries>,
) -> LedgerEntry
    requires { IsHeld storage }
    ensures entry { result ≡ instance_entry n contract (record { code = code; storage = storage }) }
    ensures fits { entry_format.fits result }
    ensures hashed { HasCodeHash result.data }
{
    contract_fits(contract);
    hash_fits(code);
    LedgerEntry {
        last_modified_ledger_seq: n,
        data: LedgerEntryData::ContractData(ContractDataEntry {
            contract: ScAddress::Contract(contract),
            key: ScVal::LedgerKeyContractInstance,
            durability: Durability::Persistent,
            val: ScVal::ContractInstance(Instance {
                executable: Executable::Wasm(code),
                storage,
            }),
        }),
    }
}

/// The hash of a code.
pub(crate) fn code_hash(code: &[u8]) -> Hash
    ensures { result ≡ hash_of (sha256 code.now) }
{
    Hash(Sha256::digest(code))
}

/// Copies bytes. Its only error is memory.
fn copy_of(alloc: Global, bytes: &[u8]) -> Result<Blob, HostErr>
    ensures ok { IfOk result (λ b. b ≡ bytes.now) }
    ensures memory { IfErr result (λ e. e ≡ ends.NoMemory) }
{
    match Vec::from_slice(alloc, bytes) {
        Ok(copy) => Ok(Blob::from_vec(copy)),
        Err(_) => Err(HostErr::NoMemory),
    }
}

/// The entry of a code with its hash.
#[tactic(auto, using(crate::proofs::EntryLaws::code_entry_fits))]
pub(crate) fn code_entry(
    alloc: Global,
    n: u32,
    hash: Hash,
    code: &[u8],
) -> Result<LedgerEntry, HostErr>
    requires few { length code.now < 2 ^ 32 }
    requires hash { hash ≡ hash_of (sha256 code.now) }
    ensures entry { IfOk result (λ e. e ≡ code_entry n hash code.now) }
    ensures fits { IfOk result (λ e. entry_format.fits e) }
    ensures hashed { IfOk result (λ e. HasCodeHash e.data) }
    ensures memory { IfErr result (λ e. e ≡ ends.NoMemory) }
{
    hash_fits(hash);
    hold_bytes(code);
    let code = copy_of(alloc, code)?;
    Ok(LedgerEntry {
        last_modified_ledger_seq: n,
        data: LedgerEntryData::ContractCode(ContractCodeEntry { hash, code }),
    })
}
