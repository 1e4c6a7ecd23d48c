//! The durability of contract data.

ghost use Rattle.std.specs.Prelude.{◌≡◌};
ghost use Rattle.ledger_types.specs.Durability.{number, kind_of, durability_format, durability_lawful};

use std::alloc::Global;
use value_xdr::{Xdr, named};
use xdr_core::{NoMemory, Out, ReadXdr, Words};

/// The durability of contract data (`ContractDataDurability`).
#[derive(Clone, Copy, Debug, PartialEq, Eq)]
pub enum Durability {
    /// 0: the entry is absent after its live-until ledger.
    Temporary,
    /// 1: the entry is archived after its live-until ledger.
    Persistent,
}

impl Durability {
    /// The variant with this number, or `None` if no variant has it (RFC 4506, section 4.3).
    pub fn from_number(number: u32) -> Option<Durability>
        ensures { result ≡ kind_of number }
    {
        match number {
            0 => Some(Durability::Temporary),
            1 => Some(Durability::Persistent),
            _ => None,
        }
    }

    /// The number of the variant (RFC 4506, section 4.3).
    pub fn number(self) -> u32
        ensures { result ≡ number self }
    {
        match self {
            Durability::Temporary => 0,
            Durability::Persistent => 1,
        }
    }
}

#[tactic(auto, unfolding(crate::specs::Durability::durability_format, xdr_core::specs::Sizes::capped))]
impl Xdr for Durability {
    ghost format = { durability_format };

    fn read_parts<W: Words>(_alloc: Global, input: &mut W) -> Result<Durability, ReadXdr> {
        let place = input.place();
        named(Durability::from_number(input.u32()?), place)
    }

    fn write_parts(&self, out: &mut Out) -> Result<(), NoMemory> {
        out.put_u32(self.number())
    }

    fn size(&self) -> u64 {
        4
    }

    ghost lawful = { durability_lawful };
}
