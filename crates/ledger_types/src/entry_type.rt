//! The types of ledger entries.

ghost use Rattle.std.specs.Prelude.{◌≡◌};
ghost use Rattle.ledger_types.specs.EntryType.{number, kind_of, type_format, type_lawful};

use std::alloc::Global;
use value_xdr::{Xdr, named};
use xdr_core::{NoMemory, Out, ReadXdr, Words};

/// The types of ledger entries (`LedgerEntryType`, without configuration settings).
#[derive(Clone, Copy, Debug, PartialEq, Eq)]
pub enum LedgerEntryType {
    Account,
    Trustline,
    Offer,
    Data,
    ClaimableBalance,
    LiquidityPool,
    ContractData,
    ContractCode,
    Ttl,
}

impl LedgerEntryType {
    /// The variant with this number, or `None` if no variant has it (RFC 4506, section 4.3).
    pub fn from_number(number: u32) -> Option<LedgerEntryType>
        ensures { result ≡ kind_of number }
    {
        match number {
            0 => Some(LedgerEntryType::Account),
            1 => Some(LedgerEntryType::Trustline),
            2 => Some(LedgerEntryType::Offer),
            3 => Some(LedgerEntryType::Data),
            4 => Some(LedgerEntryType::ClaimableBalance),
            5 => Some(LedgerEntryType::LiquidityPool),
            6 => Some(LedgerEntryType::ContractData),
            7 => Some(LedgerEntryType::ContractCode),
            9 => Some(LedgerEntryType::Ttl),
            _ => None,
        }
    }

    /// The number of the variant (RFC 4506, section 4.3).
    pub fn number(self) -> u32
        ensures { result ≡ number self }
    {
        match self {
            LedgerEntryType::Account => 0,
            LedgerEntryType::Trustline => 1,
            LedgerEntryType::Offer => 2,
            LedgerEntryType::Data => 3,
            LedgerEntryType::ClaimableBalance => 4,
            LedgerEntryType::LiquidityPool => 5,
            LedgerEntryType::ContractData => 6,
            LedgerEntryType::ContractCode => 7,
            LedgerEntryType::Ttl => 9,
        }
    }
}

#[tactic(auto, unfolding(crate::specs::EntryType::type_format, xdr_core::specs::Sizes::capped))]
impl Xdr for LedgerEntryType {
    ghost format = { type_format };

    fn read_parts<W: Words>(_alloc: Global, input: &mut W) -> Result<LedgerEntryType, ReadXdr> {
        let place = input.place();
        named(LedgerEntryType::from_number(input.u32()?), place)
    }

    fn write_parts(&self, out: &mut Out) -> Result<(), NoMemory> {
        out.put_u32(self.number())
    }

    fn size(&self) -> u64 {
        4
    }

    ghost lawful = { type_lawful };
}
