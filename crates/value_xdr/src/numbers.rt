//! The spelling of numbers of 128 and 256 bits.

ghost use Rattle.value_types.specs.Numbers.{u128_format, u128_lawful, i128_format, i128_lawful, u256_format, u256_lawful};
ghost use Rattle.value_types.specs.Numbers.{i256_format, i256_lawful};

use crate::xdr::Xdr;
use std::alloc::Global;
use value_types::{Int128Parts, Int256Parts, UInt128Parts, UInt256Parts};
use xdr_core::{NoMemory, Out, ReadXdr, Words};

#[tactic(auto, unfolding(value_types::specs::Numbers::u128_format))]
impl Xdr for UInt128Parts {
    ghost format = { u128_format };

    fn read_parts<W: Words>(alloc: Global, input: &mut W) -> Result<UInt128Parts, ReadXdr> {
        let hi = u64::read(alloc, input)?;
        let lo = u64::read(alloc, input)?;
        Ok(UInt128Parts { hi, lo })
    }

    fn write_parts(&self, out: &mut Out) -> Result<(), NoMemory> {
        self.hi.write(out)?;
        self.lo.write(out)
    }

    #[tactic(auto, unfolding(value_types::specs::Numbers::u128_format, xdr_spec::specs::Format::number64, xdr_spec::specs::Format::signed64, xdr_core::specs::Sizes::capped))]
    fn size(&self) -> u64 {
        16
    }

    ghost lawful = { u128_lawful };
}

#[tactic(auto, unfolding(value_types::specs::Numbers::i128_format))]
impl Xdr for Int128Parts {
    ghost format = { i128_format };

    fn read_parts<W: Words>(alloc: Global, input: &mut W) -> Result<Int128Parts, ReadXdr> {
        let hi = i64::read(alloc, input)?;
        let lo = u64::read(alloc, input)?;
        Ok(Int128Parts { hi, lo })
    }

    fn write_parts(&self, out: &mut Out) -> Result<(), NoMemory> {
        self.hi.write(out)?;
        self.lo.write(out)
    }

    #[tactic(auto, unfolding(value_types::specs::Numbers::i128_format, xdr_spec::specs::Format::number64, xdr_spec::specs::Format::signed64, xdr_core::specs::Sizes::capped))]
    fn size(&self) -> u64 {
        16
    }

    ghost lawful = { i128_lawful };
}

#[tactic(auto, unfolding(value_types::specs::Numbers::u256_format))]
impl Xdr for UInt256Parts {
    ghost format = { u256_format };

    fn read_parts<W: Words>(alloc: Global, input: &mut W) -> Result<UInt256Parts, ReadXdr> {
        let hi_hi = u64::read(alloc, input)?;
        let hi_lo = u64::read(alloc, input)?;
        let lo_hi = u64::read(alloc, input)?;
        let lo_lo = u64::read(alloc, input)?;
        Ok(UInt256Parts {
            hi_hi,
            hi_lo,
            lo_hi,
            lo_lo,
        })
    }

    fn write_parts(&self, out: &mut Out) -> Result<(), NoMemory> {
        self.hi_hi.write(out)?;
        self.hi_lo.write(out)?;
        self.lo_hi.write(out)?;
        self.lo_lo.write(out)
    }

    #[tactic(auto, unfolding(value_types::specs::Numbers::u256_format, xdr_spec::specs::Format::number64, xdr_spec::specs::Format::signed64, xdr_core::specs::Sizes::capped))]
    fn size(&self) -> u64 {
        32
    }

    ghost lawful = { u256_lawful };
}

#[tactic(auto, unfolding(value_types::specs::Numbers::i256_format))]
impl Xdr for Int256Parts {
    ghost format = { i256_format };

    fn read_parts<W: Words>(alloc: Global, input: &mut W) -> Result<Int256Parts, ReadXdr> {
        let hi_hi = i64::read(alloc, input)?;
        let hi_lo = u64::read(alloc, input)?;
        let lo_hi = u64::read(alloc, input)?;
        let lo_lo = u64::read(alloc, input)?;
        Ok(Int256Parts {
            hi_hi,
            hi_lo,
            lo_hi,
            lo_lo,
        })
    }

    fn write_parts(&self, out: &mut Out) -> Result<(), NoMemory> {
        self.hi_hi.write(out)?;
        self.hi_lo.write(out)?;
        self.lo_hi.write(out)?;
        self.lo_lo.write(out)
    }

    #[tactic(auto, unfolding(value_types::specs::Numbers::i256_format, xdr_spec::specs::Format::number64, xdr_spec::specs::Format::signed64, xdr_core::specs::Sizes::capped))]
    fn size(&self) -> u64 {
        32
    }

    ghost lawful = { i256_lawful };
}
