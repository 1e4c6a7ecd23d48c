//! The spelling of trees of invocations.

ghost use Rattle.auth_types.specs.Invocation.{invocation_format};
ghost use Rattle.auth_types.specs.InvocationLaws.{invocation_lawful};

use crate::invocation::Invocation;
use crate::{reading, writing};
use std::alloc::Global;
use value_xdr::Xdr;
use xdr_core::{NoMemory, Out, ReadXdr, Words};

/// The number of levels below the root of a tree.
const LEVELS_BELOW: u32 = 99;

#[tactic(auto, unfolding(crate::specs::Invocation::invocation_format))]
impl Xdr for Invocation {
    ghost format = { invocation_format };

    fn read_parts<W: Words>(alloc: Global, input: &mut W) -> Result<Invocation, ReadXdr> {
        reading::read_invocation(alloc, input, LEVELS_BELOW)
    }

    fn write_parts(&self, out: &mut Out) -> Result<(), NoMemory> {
        writing::write_invocation(self, out)
    }

    fn size(&self) -> u64 {
        writing::size_of_invocation(self)
    }

    ghost lawful = { invocation_lawful };
}
