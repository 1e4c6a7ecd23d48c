//! Reads trees of invocations.

ghost use Rattle.std.specs.Prelude.{◌≡◌, IfOk};
ghost use Rattle.xdr_core.specs.Reads.{Reads};
ghost use Rattle.value_types.specs.Formats.{count_at};
ghost use Rattle.auth_types.specs.Invocation.{one_level, subs_format};

use crate::invocation::{Invocation, Invocations};
use invoke_types::Function;
use std::alloc::Global;
use value_xdr::{Xdr, list_for};
use xdr_core::{ReadXdr, Why, Words, XdrErr};

/// Reads an invocation with at most `left` levels below it.
#[cycle(read)]
pub fn read_invocation<W: Words>(
    alloc: Global,
    input: &mut W,
    left: u32,
) -> Result<Invocation, ReadXdr>
    ensures value { Reads (one_level (subs_format left)).read (W.seen input.old) (W.seen input.new) result }
    ensures fits { IfOk result (one_level (subs_format left)).fits }
{
    let function = Function::read(alloc, input)?;
    let sub_invocations = read_subs(alloc, input, left)?;
    Ok(Invocation {
        function,
        sub_invocations,
    })
}

/// Reads the sub-invocations of an invocation with at most `left` levels below it.
#[cycle(read)]
fn read_subs<W: Words>(alloc: Global, input: &mut W, left: u32) -> Result<Invocations, ReadXdr>
    ensures value { Reads (subs_format left).read (W.seen input.old) (W.seen input.new) result }
    ensures fits { IfOk result (subs_format left).fits }
{
    let count = read_count(input, left)?;
    let mut items = list_for(alloc, count)?;
    for _ in 0..count {
        let item = read_invocation(alloc, input, left - 1)?;
        items.push(item)?;
    }
    items.shrink_to_fit();
    Ok(Invocations::from_vec(items))
}

/// Reads the number of sub-invocations, which is 0 at the last level.
fn read_count<W: Words>(input: &mut W, left: u32) -> Result<u32, ReadXdr>
    ensures count { Reads (count_at left) (W.seen input.old) (W.seen input.new) result }
    ensures none { IfOk result (λ n. left ≡ 0 → n ≡ 0) }
{
    let place = input.place();
    let count = input.u32()?;
    if left == 0 && count != 0 {
        return Err(ReadXdr::Bad(XdrErr {
            at: place,
            why: Why::Depth,
        }));
    }
    Ok(count)
}
