//! The spelling of addresses.

ghost use Rattle.std.specs.Prelude.{◌≡◌, IfOk};
ghost use Rattle.xdr_core.specs.Reads.{Reads};
ghost use Rattle.value_types.specs.Address.{type_format, type_lawful, address_format, address_lawful, arms};

use crate::balance_id::{read_balance_id, write_balance_id};
use crate::head::named;
use crate::xdr::Xdr;
use std::alloc::Global;
use value_types::{AccountId, Hash, ScAddress, ScAddressType, xdr_size_of_address};
use xdr_core::{NoMemory, Out, ReadXdr, Words};

#[tactic(auto, unfolding(value_types::specs::Address::type_format, xdr_core::specs::Sizes::capped))]
impl Xdr for ScAddressType {
    ghost format = { type_format };

    fn read_parts<W: Words>(_alloc: Global, input: &mut W) -> Result<ScAddressType, ReadXdr> {
        let place = input.place();
        named(ScAddressType::from_number(input.u32()?), place)
    }

    fn write_parts(&self, out: &mut Out) -> Result<(), NoMemory> {
        out.put_u32(self.number())
    }

    fn size(&self) -> u64 {
        4
    }

    ghost lawful = { type_lawful };
}

#[tactic(auto, unfolding(value_types::specs::Address::address_format))]
fn read_arm<W: Words>(
    alloc: Global,
    input: &mut W,
    kind: ScAddressType,
) -> Result<ScAddress, ReadXdr>
    ensures value { Reads (arms kind).read (W.seen input.old) (W.seen input.new) result }
    ensures fits { IfOk result address_format.fits }
{
    match kind {
        ScAddressType::Account => Ok(ScAddress::Account(AccountId::read(alloc, input)?)),
        ScAddressType::Contract => Ok(ScAddress::Contract(Hash::read(alloc, input)?)),
        ScAddressType::MuxedAccount => {
            let id = u64::read(alloc, input)?;
            let ed25519 = Hash::read(alloc, input)?;
            Ok(ScAddress::MuxedAccount { id, ed25519 })
        }
        ScAddressType::ClaimableBalance => {
            Ok(ScAddress::ClaimableBalance(read_balance_id(alloc, input)?))
        }
        ScAddressType::LiquidityPool => Ok(ScAddress::LiquidityPool(Hash::read(alloc, input)?)),
    }
}

#[tactic(auto, unfolding(value_types::specs::Address::address_format, value_types::specs::Address::type_format))]
impl Xdr for ScAddress {
    ghost format = { address_format };

    fn read_parts<W: Words>(alloc: Global, input: &mut W) -> Result<ScAddress, ReadXdr> {
        let kind = ScAddressType::read(alloc, input)?;
        read_arm(alloc, input, kind)
    }

    fn write_parts(&self, out: &mut Out) -> Result<(), NoMemory> {
        self.kind().write(out)?;
        match self {
            ScAddress::Account(account) => account.write(out),
            ScAddress::Contract(id) => id.write(out),
            ScAddress::MuxedAccount { id, ed25519 } => {
                id.write(out)?;
                ed25519.write(out)
            }
            ScAddress::ClaimableBalance(id) => write_balance_id(id, out),
            ScAddress::LiquidityPool(id) => id.write(out),
        }
    }

    fn size(&self) -> u64 {
        xdr_size_of_address(*self)
    }

    ghost lawful = { address_lawful };
}
