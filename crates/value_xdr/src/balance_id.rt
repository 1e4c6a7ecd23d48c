//! The spelling of claimable balances' ids.

ghost use Rattle.std.specs.Prelude.{◌≡◌, ◌++◌, length, OnOk, OnErr, IfOk};
ghost use Rattle.xdr_core.specs.Sizes.{capped};
ghost use Rattle.xdr_core.specs.Reads.{Reads};
ghost use Rattle.xdr_core.specs.Writes.{StartsWith};
ghost use Rattle.value_types.specs.BalanceId.{balance_id_format};

use crate::head::read_head;
use crate::xdr::Xdr;
use std::alloc::Global;
use value_types::Hash;
use xdr_core::{NoMemory, Out, ReadXdr, Words};

/// The number of the only type of a claimable balance's id.
const BALANCE_ID: u32 = 0;

/// Reads the type and the 32 bytes of an id. After an error the source may stand anywhere.
pub fn read_balance_id<W: Words>(alloc: Global, input: &mut W) -> Result<Hash, ReadXdr>
    ensures value { Reads balance_id_format.read (W.seen input.old) (W.seen input.new) result }
    ensures fits { IfOk result balance_id_format.fits }
{
    read_head(input, BALANCE_ID)?;
    Hash::read(alloc, input)
}

/// Writes the type and the 32 bytes of an id. If memory runs out, the type may have been written.
pub fn write_balance_id(id: &Hash, out: &mut Out) -> Result<(), NoMemory>
    requires { balance_id_format.fits id.now }
    ensures ok { OnOk result (out.new ≡ out.old ++ balance_id_format.spell id.now) }
    ensures err { OnErr result (StartsWith out.new out.old) }
{
    out.put_u32(BALANCE_ID)?;
    id.write(out)
}

/// The length of the type and the 32 bytes of an id.
#[tactic(auto, unfolding(xdr_core::specs::Sizes::capped))]
pub fn size_of_balance_id(id: &Hash) -> u64
    ensures { balance_id_format.fits id.now → result ≡ capped (length (balance_id_format.spell id.now)) }
{
    id.size().saturating_add(4)
}
