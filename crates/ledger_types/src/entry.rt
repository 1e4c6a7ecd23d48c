//! Ledger entries.

ghost use Rattle.std.specs.Prelude.{◌≡◌, IfOk};
ghost use Rattle.xdr_core.specs.Reads.{Reads};
ghost use Rattle.ledger_types.specs.Entry.{number, kind_of, type_format, type_lawful, kind, arms, body_format, body_lawful};
ghost use Rattle.ledger_types.specs.Entry.{entry_format, entry_lawful};

use crate::contract_entries::{ContractCodeEntry, ContractDataEntry, EXTENSION_SIZE, NO_EXTENSION};
use std::alloc::{AllocError, Global};
use value_xdr::{Xdr, named, read_head};
use xdr_core::{NoMemory, Out, ReadXdr, Words, add_sizes};

/// The types of entries in this program's ledgers: those of `LedgerEntryType` that belong to contracts.
#[derive(Clone, Copy, Debug, PartialEq, Eq)]
pub enum ContractEntryType {
    ContractData,
    ContractCode,
}

impl ContractEntryType {
    /// The variant with this number, or `None` if no variant has it (RFC 4506, section 4.3).
    pub fn from_number(number: u32) -> Option<ContractEntryType>
        ensures { result ≡ kind_of number }
    {
        match number {
            6 => Some(ContractEntryType::ContractData),
            7 => Some(ContractEntryType::ContractCode),
            _ => None,
        }
    }

    /// The number of the variant (RFC 4506, section 4.3).
    pub fn number(self) -> u32
        ensures { result ≡ number self }
    {
        match self {
            ContractEntryType::ContractData => 6,
            ContractEntryType::ContractCode => 7,
        }
    }
}

#[tactic(auto, unfolding(crate::specs::Entry::type_format, xdr_core::specs::Sizes::capped))]
impl Xdr for ContractEntryType {
    ghost format = { type_format };

    fn read_parts<W: Words>(_alloc: Global, input: &mut W) -> Result<ContractEntryType, ReadXdr> {
        let place = input.place();
        named(ContractEntryType::from_number(input.u32()?), place)
    }

    fn write_parts(&self, out: &mut Out) -> Result<(), NoMemory> {
        out.put_u32(self.number())
    }

    fn size(&self) -> u64 {
        4
    }

    ghost lawful = { type_lawful };
}

/// The body of an entry.
#[derive(Drop)]
pub enum LedgerEntryData {
    /// 6.
    ContractData(ContractDataEntry),
    /// 7.
    ContractCode(ContractCodeEntry),
}

impl Clone for LedgerEntryData {
    ghost is_clone = { λ v w. w ≡ v };

    fn clone(&self) -> Result<LedgerEntryData, AllocError> {
        match self {
            LedgerEntryData::ContractData(entry) => Ok(LedgerEntryData::ContractData(
                entry.clone()?,
            )),
            LedgerEntryData::ContractCode(entry) => Ok(LedgerEntryData::ContractCode(
                entry.clone()?,
            )),
        }
    }
}

impl LedgerEntryData {
    /// The discriminant of the union (RFC 4506, section 4.15).
    pub fn kind(&self) -> ContractEntryType
        ensures { result ≡ kind self.now }
    {
        match self {
            LedgerEntryData::ContractData(_) => ContractEntryType::ContractData,
            LedgerEntryData::ContractCode(_) => ContractEntryType::ContractCode,
        }
    }
}

#[tactic(auto, unfolding(crate::specs::Entry::body_format))]
fn read_arm<W: Words>(
    alloc: Global,
    input: &mut W,
    kind: ContractEntryType,
) -> Result<LedgerEntryData, ReadXdr>
    ensures value { Reads (arms kind).read (W.seen input.old) (W.seen input.new) result }
    ensures fits { IfOk result body_format.fits }
{
    match kind {
        ContractEntryType::ContractData => {
            Ok(LedgerEntryData::ContractData(ContractDataEntry::read(alloc, input)?))
        }
        ContractEntryType::ContractCode => {
            Ok(LedgerEntryData::ContractCode(ContractCodeEntry::read(alloc, input)?))
        }
    }
}

#[tactic(auto, unfolding(crate::specs::Entry::body_format, crate::specs::Entry::type_format, xdr_core::specs::Sizes::capped))]
impl Xdr for LedgerEntryData {
    ghost format = { body_format };

    fn read_parts<W: Words>(alloc: Global, input: &mut W) -> Result<LedgerEntryData, ReadXdr> {
        let kind = ContractEntryType::read(alloc, input)?;
        read_arm(alloc, input, kind)
    }

    fn write_parts(&self, out: &mut Out) -> Result<(), NoMemory> {
        self.kind().write(out)?;
        match self {
            LedgerEntryData::ContractData(entry) => entry.write(out),
            LedgerEntryData::ContractCode(entry) => entry.write(out),
        }
    }

    fn size(&self) -> u64 {
        let body = match self {
            LedgerEntryData::ContractData(entry) => entry.size(),
            LedgerEntryData::ContractCode(entry) => entry.size(),
        };
        add_sizes(self.kind().size(), body)
    }

    ghost lawful = { body_lawful };
}

/// An entry of the ledger (`LedgerEntry`, without a sponsor).
#[derive(Drop)]
pub struct LedgerEntry {
    /// The number of the last ledger that modified the entry.
    pub last_modified_ledger_seq: u32,
    pub data: LedgerEntryData,
}

impl Clone for LedgerEntry {
    ghost is_clone = { λ v w. w ≡ v };

    fn clone(&self) -> Result<LedgerEntry, AllocError> {
        let data = self.data.clone()?;
        Ok(LedgerEntry {
            last_modified_ledger_seq: self.last_modified_ledger_seq,
            data,
        })
    }
}

#[tactic(auto, unfolding(crate::specs::Entry::entry_format, xdr_core::specs::Sizes::capped))]
impl Xdr for LedgerEntry {
    ghost format = { entry_format };

    fn read_parts<W: Words>(alloc: Global, input: &mut W) -> Result<LedgerEntry, ReadXdr> {
        let last_modified_ledger_seq = u32::read(alloc, input)?;
        let data = LedgerEntryData::read(alloc, input)?;
        read_head(input, NO_EXTENSION)?;
        Ok(LedgerEntry {
            last_modified_ledger_seq,
            data,
        })
    }

    fn write_parts(&self, out: &mut Out) -> Result<(), NoMemory> {
        self.last_modified_ledger_seq.write(out)?;
        self.data.write(out)?;
        out.put_u32(NO_EXTENSION)
    }

    fn size(&self) -> u64 {
        let size = add_sizes(self.last_modified_ledger_seq.size(), self.data.size());
        add_sizes(size, EXTENSION_SIZE)
    }

    ghost lawful = { entry_lawful };
}
