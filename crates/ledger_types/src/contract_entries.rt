//! The ledger entries of contracts.

ghost use Rattle.std.specs.Prelude.{◌≡◌};
ghost use Rattle.ledger_types.specs.ContractEntries.{data_format, data_lawful, code_format, code_lawful};

use crate::durability::Durability;
use std::alloc::{AllocError, Global};
use value_types::{Blob, Hash, ScAddress, ScVal};
use value_xdr::{Xdr, read_blob, read_head, size_of_blob, write_blob};
use xdr_core::{NoMemory, Out, ReadXdr, Words, add_sizes};

/// The number of an empty extension point.
pub const NO_EXTENSION: u32 = 0;

/// The length of such a number in bytes.
pub const EXTENSION_SIZE: u64 = 4;

/// A value that a contract stores (`ContractDataEntry`).
#[derive(Drop)]
pub struct ContractDataEntry {
    pub contract: ScAddress,
    pub key: ScVal,
    pub durability: Durability,
    pub val: ScVal,
}

impl Clone for ContractDataEntry {
    ghost is_clone = { λ v w. w ≡ v };

    fn clone(&self) -> Result<ContractDataEntry, AllocError> {
        let key = self.key.clone()?;
        let val = self.val.clone()?;
        Ok(ContractDataEntry {
            contract: self.contract,
            key,
            durability: self.durability,
            val,
        })
    }
}

#[tactic(auto, unfolding(crate::specs::ContractEntries::data_format, xdr_core::specs::Sizes::capped))]
impl Xdr for ContractDataEntry {
    ghost format = { data_format };

    fn read_parts<W: Words>(alloc: Global, input: &mut W) -> Result<ContractDataEntry, ReadXdr> {
        read_head(input, NO_EXTENSION)?;
        let contract = ScAddress::read(alloc, input)?;
        let key = ScVal::read(alloc, input)?;
        let durability = Durability::read(alloc, input)?;
        let val = ScVal::read(alloc, input)?;
        Ok(ContractDataEntry {
            contract,
            key,
            durability,
            val,
        })
    }

    fn write_parts(&self, out: &mut Out) -> Result<(), NoMemory> {
        out.put_u32(NO_EXTENSION)?;
        self.contract.write(out)?;
        self.key.write(out)?;
        self.durability.write(out)?;
        self.val.write(out)
    }

    fn size(&self) -> u64 {
        let size = add_sizes(EXTENSION_SIZE, self.contract.size());
        let size = add_sizes(size, self.key.size());
        let size = add_sizes(size, self.durability.size());
        add_sizes(size, self.val.size())
    }

    ghost lawful = { data_lawful };
}

/// A WebAssembly module (`ContractCodeEntry`, without cost inputs).
#[derive(Drop)]
pub struct ContractCodeEntry {
    /// The SHA-256 of `code`.
    pub hash: Hash,
    pub code: Blob,
}

impl Clone for ContractCodeEntry {
    ghost is_clone = { λ v w. w ≡ v };

    fn clone(&self) -> Result<ContractCodeEntry, AllocError> {
        let code = self.code.clone()?;
        Ok(ContractCodeEntry {
            hash: self.hash,
            code,
        })
    }
}

#[tactic(auto, unfolding(crate::specs::ContractEntries::code_format, xdr_spec::specs::Format::opaque, xdr_core::specs::Sizes::capped))]
impl Xdr for ContractCodeEntry {
    ghost format = { code_format };

    fn read_parts<W: Words>(alloc: Global, input: &mut W) -> Result<ContractCodeEntry, ReadXdr> {
        read_head(input, NO_EXTENSION)?;
        let hash = Hash::read(alloc, input)?;
        let code = read_blob(alloc, input, u32::MAX)?;
        Ok(ContractCodeEntry { hash, code })
    }

    fn write_parts(&self, out: &mut Out) -> Result<(), NoMemory> {
        out.put_u32(NO_EXTENSION)?;
        self.hash.write(out)?;
        write_blob(&self.code, out)
    }

    fn size(&self) -> u64 {
        let size = add_sizes(EXTENSION_SIZE, self.hash.size());
        add_sizes(size, size_of_blob(&self.code))
    }

    ghost lawful = { code_lawful };
}
