//! Reads a value.

ghost use Rattle.std.specs.Prelude.{◌≡◌, IfOk};
ghost use Rattle.xdr_spec.specs.Format.{optional};
ghost use Rattle.xdr_core.specs.Reads.{Reads, ReadsAs};
ghost use Rattle.value_types.specs.Formats.{arms, instance_format, value_format, items_format, members_format, entry_format};
ghost use Rattle.value_types.specs.Formats.{count_at, one_level};
ghost use Rattle.value_types.specs.Views.{datum_pair};

use crate::blob::read_blob;
use crate::rows::list_for;
use crate::xdr::Xdr;
use std::alloc::Global;
use value_types::{
    Entries, Entry, Executable, Instance, Int128Parts, Int256Parts, ScAddress, ScError, ScVal,
    ScValType, ScVals, UInt128Parts, UInt256Parts,
};
use xdr_core::{ReadXdr, Why, Words, XdrErr};

/// Reads a value with at most `left` levels below it.
#[cycle(read)]
pub fn read_value<W: Words>(alloc: Global, input: &mut W, left: u32) -> Result<ScVal, ReadXdr>
    ensures value { Reads (value_format left).read (W.seen input.old) (W.seen input.new) result }
    ensures fits { IfOk result (value_format left).fits }
{
    let kind = ScValType::read(alloc, input)?;
    read_arm(alloc, input, kind, left)
}

#[cycle(read)]
fn read_arm<W: Words>(
    alloc: Global,
    input: &mut W,
    kind: ScValType,
    left: u32,
) -> Result<ScVal, ReadXdr>
    ensures value { Reads (arms (items_format left) (members_format left) kind).read
        (W.seen input.old) (W.seen input.new) result }
    ensures fits { IfOk result (one_level (items_format left) (members_format left)).fits }
{
    match kind {
        ScValType::Bool => Ok(ScVal::Bool(bool::read(alloc, input)?)),
        ScValType::Void => Ok(ScVal::Void),
        ScValType::Error => Ok(ScVal::Error(ScError::read(alloc, input)?)),
        ScValType::U32 => Ok(ScVal::U32(u32::read(alloc, input)?)),
        ScValType::I32 => Ok(ScVal::I32(i32::read(alloc, input)?)),
        ScValType::U64 => Ok(ScVal::U64(u64::read(alloc, input)?)),
        ScValType::I64 => Ok(ScVal::I64(i64::read(alloc, input)?)),
        ScValType::Timepoint => Ok(ScVal::Timepoint(u64::read(alloc, input)?)),
        ScValType::Duration => Ok(ScVal::Duration(u64::read(alloc, input)?)),
        ScValType::U128 => Ok(ScVal::U128(UInt128Parts::read(alloc, input)?)),
        ScValType::I128 => Ok(ScVal::I128(Int128Parts::read(alloc, input)?)),
        ScValType::U256 => Ok(ScVal::U256(UInt256Parts::read(alloc, input)?)),
        ScValType::I256 => Ok(ScVal::I256(Int256Parts::read(alloc, input)?)),
        ScValType::Bytes => Ok(ScVal::Bytes(read_blob(alloc, input, u32::MAX)?)),
        ScValType::String => Ok(ScVal::String(read_blob(alloc, input, u32::MAX)?)),
        ScValType::Symbol => Ok(ScVal::Symbol(read_blob(alloc, input, 32)?)),
        ScValType::Vec => Ok(ScVal::Vec(read_vec(alloc, input, left)?)),
        ScValType::Map => Ok(ScVal::Map(read_map(alloc, input, left)?)),
        ScValType::Address => Ok(ScVal::Address(ScAddress::read(alloc, input)?)),
        ScValType::ContractInstance => Ok(ScVal::ContractInstance(read_instance(
            alloc, input, left,
        )?)),
        ScValType::LedgerKeyContractInstance => Ok(ScVal::LedgerKeyContractInstance),
        ScValType::LedgerKeyNonce => Ok(ScVal::LedgerKeyNonce(i64::read(alloc, input)?)),
    }
}

#[cycle(read)]
#[tactic(auto, unfolding(xdr_spec::specs::Format::optional, xdr_spec::specs::Format::boolean))]
fn read_vec<W: Words>(alloc: Global, input: &mut W, left: u32) -> Result<Option<ScVals>, ReadXdr>
    ensures value { Reads (optional (items_format left)).read (W.seen input.old) (W.seen input.new) result }
    ensures fits { IfOk result (optional (items_format left)).fits }
{
    if input.boolean()? {
        Ok(Some(read_items(alloc, input, left)?))
    } else {
        Ok(None)
    }
}

#[cycle(read)]
#[tactic(auto, unfolding(xdr_spec::specs::Format::optional, xdr_spec::specs::Format::boolean))]
fn read_map<W: Words>(alloc: Global, input: &mut W, left: u32) -> Result<Option<Entries>, ReadXdr>
    ensures value { Reads (optional (members_format left)).read (W.seen input.old) (W.seen input.new) result }
    ensures fits { IfOk result (optional (members_format left)).fits }
{
    if input.boolean()? {
        Ok(Some(read_members(alloc, input, left)?))
    } else {
        Ok(None)
    }
}

/// Reads an instance with at most `left` levels below it.
#[cycle(read)]
pub fn read_instance<W: Words>(alloc: Global, input: &mut W, left: u32) -> Result<Instance, ReadXdr>
    ensures value { Reads (instance_format (members_format left)).read (W.seen input.old) (W.seen input.new) result }
    ensures fits { IfOk result (instance_format (members_format left)).fits }
{
    let executable = Executable::read(alloc, input)?;
    let storage = read_map(alloc, input, left)?;
    Ok(Instance {
        executable,
        storage,
    })
}

#[cycle(read)]
fn read_items<W: Words>(alloc: Global, input: &mut W, left: u32) -> Result<ScVals, ReadXdr>
    ensures value { Reads (items_format left).read (W.seen input.old) (W.seen input.new) result }
    ensures fits { IfOk result (items_format left).fits }
{
    let count = read_count(input, left)?;
    let mut items = list_for(alloc, count)?;
    for _ in 0..count {
        let item = read_value(alloc, input, left - 1)?;
        items.push(item)?;
    }
    items.shrink_to_fit();
    Ok(ScVals::from_vec(items)?)
}

#[cycle(read)]
fn read_members<W: Words>(alloc: Global, input: &mut W, left: u32) -> Result<Entries, ReadXdr>
    ensures value { Reads (members_format left).read (W.seen input.old) (W.seen input.new) result }
    ensures fits { IfOk result (members_format left).fits }
{
    let count = read_count(input, left)?;
    let mut items = list_for(alloc, count)?;
    for _ in 0..count {
        let entry = read_entry(alloc, input, left - 1)?;
        items.push(entry)?;
    }
    items.shrink_to_fit();
    Ok(Entries::from_vec(items)?)
}

#[cycle(read)]
fn read_entry<W: Words>(alloc: Global, input: &mut W, left: u32) -> Result<Entry, ReadXdr>
    ensures value { ReadsAs datum_pair (entry_format left).read (W.seen input.old) (W.seen input.new) result }
    ensures fits { IfOk result (λ e. (entry_format left).fits (datum_pair e)) }
{
    let key = read_value(alloc, input, left)?;
    let val = read_value(alloc, input, left)?;
    Ok(Entry { key, val })
}

/// Reads the number of members of a collection, which is 0 at the last level.
fn read_count<W: Words>(input: &mut W, left: u32) -> Result<u32, ReadXdr>
    ensures count { Reads (count_at left) (W.seen input.old) (W.seen input.new) result }
    ensures none { IfOk result (λ n. left ≡ 0 → n ≡ 0) }
{
    let place = input.place();
    let count = input.u32()?;
    if left == 0 && count != 0 {
        return Err(ReadXdr::Bad(XdrErr {
            at: place,
            why: Why::Depth,
        }));
    }
    Ok(count)
}
