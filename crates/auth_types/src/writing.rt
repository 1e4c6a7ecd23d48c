//! Writes trees of invocations.

ghost use Rattle.std.specs.Prelude.{◌≡◌, ◌++◌, OnOk, OnErr, length};
ghost use Rattle.std.specs.List.{flat_map, AllByRecursion};
ghost use Rattle.xdr_core.specs.Sizes.{capped};
ghost use Rattle.xdr_core.specs.Writes.{StartsWith};
ghost use Rattle.auth_types.specs.Views.{forest_of};
ghost use Rattle.auth_types.specs.Bytes.{tree_bytes, IsTreeBounded, invocation_bytes, IsInvocationBounded};

use crate::invocation::Invocation;
use value_xdr::Xdr;
use xdr_core::{NoMemory, Out, add_sizes};

/// Writes the spelling of a tree of invocations. After an error, bytes of unknown content may follow the old ones.
#[cycle(write)]
pub fn write_invocation(invocation: &Invocation, out: &mut Out) -> Result<(), NoMemory>
    requires { IsInvocationBounded invocation.now }
    ensures ok { OnOk result (out.new ≡ out.old ++ invocation_bytes invocation.now) }
    ensures err { OnErr result (StartsWith out.new out.old) }
{
    invocation.function.write(out)?;
    let subs = invocation.sub_invocations.as_slice();
    out.put_u32(subs.len() as u32)?;
    write_row(subs, out)
}

#[cycle(write)]
fn write_row(items: &[Invocation], out: &mut Out) -> Result<(), NoMemory>
    requires { AllByRecursion IsTreeBounded (forest_of items.now) }
    ensures ok { OnOk result (out.new ≡ out.old ++ flat_map tree_bytes (forest_of items.now)) }
    ensures err { OnErr result (StartsWith out.new out.old) }
{
    for item in items {
        write_invocation(item, out)?;
    }
    Ok(())
}

/// The number of bytes that `write_invocation` writes, or `u64::MAX` if it is larger.
#[cycle(size)]
#[tactic(auto, unfolding(xdr_core::specs::Sizes::capped))]
pub fn size_of_invocation(invocation: &Invocation) -> u64
    ensures { IsInvocationBounded invocation.now → result ≡ capped (length (invocation_bytes invocation.now)) }
{
    let function = invocation.function.size().saturating_add(4);
    add_sizes(function, size_of_row(invocation.sub_invocations.as_slice()))
}

#[cycle(size)]
#[tactic(auto, unfolding(xdr_core::specs::Sizes::capped))]
fn size_of_row(items: &[Invocation]) -> u64
    ensures { AllByRecursion IsTreeBounded (forest_of items.now)
        → result ≡ capped (length (flat_map tree_bytes (forest_of items.now))) }
{
    let mut size = 0u64;
    for item in items {
        size = add_sizes(size, size_of_invocation(item));
    }
    size
}
