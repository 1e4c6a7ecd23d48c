//! The codec of Soroban data.

ghost use Rattle.tx_xdr.specs.Soroban.{footprint_format, footprint_lawful, soroban_format, soroban_lawful};

use crate::numbers::NO_EXT;
use crate::transaction::{Footprint, SorobanData};
use ledger_types::LedgerKey;
use std::alloc::Global;
use value_types::Items;
use value_xdr::{Xdr, read_head};
use xdr_core::{NoMemory, Out, ReadXdr, Words, add_sizes};

#[tactic(auto, unfolding(crate::specs::Soroban::footprint_format, xdr_core::specs::Sizes::capped))]
impl Xdr for Footprint {
    ghost format = { footprint_format };

    fn read_parts<W: Words>(alloc: Global, input: &mut W) -> Result<Footprint, ReadXdr> {
        let read_only = Items::<LedgerKey, 4294967295>::read(alloc, input)?;
        let read_write = Items::<LedgerKey, 4294967295>::read(alloc, input)?;
        Ok(Footprint {
            read_only,
            read_write,
        })
    }

    fn write_parts(&self, out: &mut Out) -> Result<(), NoMemory> {
        self.read_only.write(out)?;
        self.read_write.write(out)
    }

    fn size(&self) -> u64 {
        add_sizes(self.read_only.size(), self.read_write.size())
    }

    ghost lawful = { footprint_lawful };
}

#[tactic(auto, unfolding(crate::specs::Soroban::soroban_format))]
impl Xdr for SorobanData {
    ghost format = { soroban_format };

    fn read_parts<W: Words>(alloc: Global, input: &mut W) -> Result<SorobanData, ReadXdr> {
        read_head(input, NO_EXT)?;
        let footprint = Footprint::read(alloc, input)?;
        let instructions = u32::read(alloc, input)?;
        let disk_read_bytes = u32::read(alloc, input)?;
        let write_bytes = u32::read(alloc, input)?;
        let resource_fee = i64::read(alloc, input)?;
        Ok(SorobanData {
            footprint,
            instructions,
            disk_read_bytes,
            write_bytes,
            resource_fee,
        })
    }

    fn write_parts(&self, out: &mut Out) -> Result<(), NoMemory> {
        out.put_u32(NO_EXT)?;
        self.footprint.write(out)?;
        self.instructions.write(out)?;
        self.disk_read_bytes.write(out)?;
        self.write_bytes.write(out)?;
        self.resource_fee.write(out)
    }

    #[tactic(auto, unfolding(crate::specs::Soroban::soroban_format, xdr_spec::specs::Format::number32, xdr_spec::specs::Format::signed64, xdr_core::specs::Sizes::capped))]
    fn size(&self) -> u64 {
        // The extension point, three numbers of 4 bytes and one of 8.
        self.footprint.size().saturating_add(24)
    }

    ghost lawful = { soroban_lawful };
}
