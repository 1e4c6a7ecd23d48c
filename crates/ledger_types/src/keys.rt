//! Keys of entries and hashes of keys.

ghost use Rattle.std.specs.Prelude.{◌≡◌, ◌++◌, OnOk, OnErr, IfOk};
ghost use Rattle.sha2.specs.Sha256.{sha256};
ghost use Rattle.xdr_core.specs.Writes.{StartsWith};
ghost use Rattle.ledger_types.specs.Key.{key_format};
ghost use Rattle.ledger_types.specs.Entry.{entry_format, key_of as key_of_entry};

use crate::entry::{LedgerEntry, LedgerEntryData};
use crate::entry_type::LedgerEntryType;
use crate::key::LedgerKey;
use sha2::{Digest, Sha256};
use std::alloc::{AllocError, Global};
use value_types::Hash;
use value_xdr::{Xdr, encode};
use xdr_core::{NoMemory, Out};

/// The key of an entry.
#[tactic(auto, using(crate::proofs::KeyLaws::key_of_fits))]
pub fn key_of(entry: &LedgerEntry) -> Result<LedgerKey, AllocError>
    ensures key { IfOk result (λ key. key ≡ key_of_entry entry.now) }
    ensures fits { entry_format.fits entry.now → IfOk result key_format.fits }
{
    match &entry.data {
        LedgerEntryData::ContractData(entry) => Ok(LedgerKey::ContractData {
            contract: entry.contract,
            key: entry.key.clone()?,
            durability: entry.durability,
        }),
        LedgerEntryData::ContractCode(entry) => Ok(LedgerKey::ContractCode(entry.hash)),
    }
}

/// Writes the spelling of the key of an entry. After an error, bytes of unknown content may follow the old ones.
#[tactic(auto, unfolding(crate::specs::Key::key_format, crate::specs::EntryType::type_format, crate::specs::Entry::entry_format, crate::specs::Entry::body_format, crate::specs::ContractEntries::data_format, crate::specs::ContractEntries::code_format))]
pub fn write_key_of(entry: &LedgerEntry, out: &mut Out) -> Result<(), NoMemory>
    requires { entry_format.fits entry.now }
    ensures ok { OnOk result (out.new ≡ out.old ++ key_format.spell (key_of_entry entry.now)) }
    ensures err { OnErr result (StartsWith out.new out.old) }
{
    match &entry.data {
        LedgerEntryData::ContractData(entry) => {
            LedgerEntryType::ContractData.write(out)?;
            entry.contract.write(out)?;
            entry.key.write(out)?;
            entry.durability.write(out)
        }
        LedgerEntryData::ContractCode(entry) => {
            LedgerEntryType::ContractCode.write(out)?;
            entry.hash.write(out)
        }
    }
}

/// The SHA-256 of a key's spelling, which the TTL entry of the key holds.
pub fn key_hash(alloc: Global, key: &LedgerKey) -> Result<Hash, NoMemory>
    requires { key_format.fits key.now }
    ensures { IfOk result (λ hash. hash.0 ≡ sha256 (key_format.spell key.now)) }
{
    let bytes = encode(alloc, key)?;
    Ok(Hash(Sha256::digest(bytes.as_slice())))
}
