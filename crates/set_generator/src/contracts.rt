//! The contracts of a generated ledger.

ghost use Rattle.std.specs.Prelude.{◌≡◌, IfOk, codes};
ghost use Rattle.set_generator.specs.GeneratedContracts.{address as address_in, bump_hash as bump_hash_in, counter as counter_in};
ghost use Rattle.set_generator.specs.GeneratedContracts.{counter_key as counter_key_in, instance_key as instance_key_in};

use ledger_types::{Durability, LedgerKey};
use sha2::{Digest, Sha256};
use std::alloc::Global;
use value_types::{Blob, Hash, ScAddress, ScVal};
use xdr_core::NoMemory;

/// The module of the contracts, in the binary format of WebAssembly 1.0. Its function `bump` reads the persistent entry `ab`,
/// adds 1 to the U32 there, and writes it back.
pub const BUMP: [u8; 124] = [
    0x00, 0x61, 0x73, 0x6d, 0x01, 0x00, 0x00, 0x00, 0x01, 0x12, 0x03, 0x60, 0x02, 0x7e, 0x7e, 0x01,
    0x7e, 0x60, 0x03, 0x7e, 0x7e, 0x7e, 0x01, 0x7e, 0x60, 0x00, 0x01, 0x7e, 0x02, 0x2d, 0x02, 0x01,
    0x6c, 0x11, 0x67, 0x65, 0x74, 0x5f, 0x63, 0x6f, 0x6e, 0x74, 0x72, 0x61, 0x63, 0x74, 0x5f, 0x64,
    0x61, 0x74, 0x61, 0x00, 0x00, 0x01, 0x6c, 0x11, 0x70, 0x75, 0x74, 0x5f, 0x63, 0x6f, 0x6e, 0x74,
    0x72, 0x61, 0x63, 0x74, 0x5f, 0x64, 0x61, 0x74, 0x61, 0x00, 0x01, 0x03, 0x02, 0x01, 0x02, 0x07,
    0x08, 0x01, 0x04, 0x62, 0x75, 0x6d, 0x70, 0x00, 0x02, 0x0a, 0x21, 0x01, 0x1f, 0x01, 0x01, 0x7e,
    0x42, 0x8e, 0xce, 0x26, 0x42, 0x01, 0x10, 0x00, 0x42, 0x80, 0x80, 0x80, 0x80, 0x10, 0x7c, 0x21,
    0x00, 0x42, 0x8e, 0xce, 0x26, 0x20, 0x00, 0x42, 0x01, 0x10, 0x01, 0x0b,
];

/// Returns the SHA-256 of the module.
#[tactic(auto, unfolding(crate::specs::GeneratedContracts::bump_hash))]
pub fn bump_hash() -> Hash
    ensures { result ≡ bump_hash_in }
{
    Hash(Sha256::digest(&BUMP))
}

/// Returns the address of a contract.
pub fn address(number: u8) -> ScAddress
    ensures { result ≡ address_in number }
{
    let mut id = [0; 32];
    id[31] = number;
    ScAddress::Contract(Hash(id))
}

/// Copies bytes into a text of a value.
pub fn text(alloc: Global, bytes: &[u8]) -> Result<Blob, NoMemory>
    ensures { IfOk result (λ text. text ≡ bytes.now) }
{
    let bytes = Vec::from_slice(alloc, bytes)?;
    Ok(Blob::from_vec(bytes))
}

/// Returns the name of a contract's counter.
pub fn counter(alloc: Global) -> Result<ScVal, NoMemory>
    ensures { IfOk result (λ name. name ≡ counter_in) }
{
    Ok(ScVal::Symbol(text(alloc, b"ab")?))
}

/// Returns the key of a contract's instance.
pub fn instance_key(number: u8) -> LedgerKey
    ensures { result ≡ instance_key_in number }
{
    LedgerKey::ContractData {
        contract: address(number),
        key: ScVal::LedgerKeyContractInstance,
        durability: Durability::Persistent,
    }
}

/// Returns the key of a contract's counter.
pub fn counter_key(alloc: Global, number: u8) -> Result<LedgerKey, NoMemory>
    ensures { IfOk result (λ key. key ≡ counter_key_in number) }
{
    let key = counter(alloc)?;
    Ok(LedgerKey::ContractData {
        contract: address(number),
        key,
        durability: Durability::Persistent,
    })
}
