//! The codec of a transaction's extension.

ghost use Rattle.std.specs.Prelude.{IfOk};
ghost use Rattle.xdr_core.specs.Reads.{Reads};
ghost use Rattle.tx_xdr.specs.Ext.{type_format, type_lawful, arms, ext_format, ext_lawful};

use crate::transaction::{SorobanData, TransactionExt, TransactionExtType};
use std::alloc::Global;
use value_xdr::{Xdr, named};
use xdr_core::{NoMemory, Out, ReadXdr, Words, add_sizes};

#[tactic(auto, unfolding(crate::specs::Ext::type_format, xdr_core::specs::Sizes::capped))]
impl Xdr for TransactionExtType {
    ghost format = { type_format };

    fn read_parts<W: Words>(_alloc: Global, input: &mut W) -> Result<TransactionExtType, ReadXdr> {
        let place = input.place();
        named(TransactionExtType::from_number(input.u32()?), place)
    }

    fn write_parts(&self, out: &mut Out) -> Result<(), NoMemory> {
        out.put_u32(self.number())
    }

    fn size(&self) -> u64 {
        4
    }

    ghost lawful = { type_lawful };
}

#[tactic(auto, unfolding(crate::specs::Ext::ext_format))]
fn read_arm<W: Words>(
    alloc: Global,
    input: &mut W,
    kind: TransactionExtType,
) -> Result<TransactionExt, ReadXdr>
    ensures value { Reads (arms kind).read (W.seen input.old) (W.seen input.new) result }
    ensures fits { IfOk result ext_format.fits }
{
    match kind {
        TransactionExtType::None => Ok(TransactionExt::None),
        TransactionExtType::Soroban => Ok(TransactionExt::Soroban(SorobanData::read(
            alloc, input,
        )?)),
    }
}

#[tactic(auto, unfolding(crate::specs::Ext::ext_format, crate::specs::Ext::type_format, xdr_core::specs::Sizes::capped))]
impl Xdr for TransactionExt {
    ghost format = { ext_format };

    fn read_parts<W: Words>(alloc: Global, input: &mut W) -> Result<TransactionExt, ReadXdr> {
        let kind = TransactionExtType::read(alloc, input)?;
        read_arm(alloc, input, kind)
    }

    fn write_parts(&self, out: &mut Out) -> Result<(), NoMemory> {
        self.kind().write(out)?;
        match self {
            TransactionExt::None => Ok(()),
            TransactionExt::Soroban(soroban) => soroban.write(out),
        }
    }

    fn size(&self) -> u64 {
        let body = match self {
            TransactionExt::None => 0,
            TransactionExt::Soroban(soroban) => soroban.size(),
        };
        add_sizes(self.kind().size(), body)
    }

    ghost lawful = { ext_lawful };
}
