//! The spelling of what a contract runs.

ghost use Rattle.std.specs.Prelude.{◌≡◌, IfOk};
ghost use Rattle.xdr_core.specs.Reads.{Reads};
ghost use Rattle.value_types.specs.Executable.{type_format, type_lawful, executable_format, executable_lawful, arms};

use crate::head::named;
use crate::xdr::Xdr;
use std::alloc::Global;
use value_types::{Executable, ExecutableType, Hash, xdr_size_of_executable};
use xdr_core::{NoMemory, Out, ReadXdr, Words};

#[tactic(auto, unfolding(value_types::specs::Executable::type_format, xdr_core::specs::Sizes::capped))]
impl Xdr for ExecutableType {
    ghost format = { type_format };

    fn read_parts<W: Words>(_alloc: Global, input: &mut W) -> Result<ExecutableType, ReadXdr> {
        let place = input.place();
        named(ExecutableType::from_number(input.u32()?), place)
    }

    fn write_parts(&self, out: &mut Out) -> Result<(), NoMemory> {
        out.put_u32(self.number())
    }

    fn size(&self) -> u64 {
        4
    }

    ghost lawful = { type_lawful };
}

#[tactic(auto, unfolding(value_types::specs::Executable::executable_format))]
fn read_arm<W: Words>(
    alloc: Global,
    input: &mut W,
    kind: ExecutableType,
) -> Result<Executable, ReadXdr>
    ensures value { Reads (arms kind).read (W.seen input.old) (W.seen input.new) result }
    ensures fits { IfOk result executable_format.fits }
{
    match kind {
        ExecutableType::Wasm => Ok(Executable::Wasm(Hash::read(alloc, input)?)),
        ExecutableType::StellarAsset => Ok(Executable::StellarAsset),
    }
}

#[tactic(auto, unfolding(value_types::specs::Executable::executable_format, value_types::specs::Executable::type_format))]
impl Xdr for Executable {
    ghost format = { executable_format };

    fn read_parts<W: Words>(alloc: Global, input: &mut W) -> Result<Executable, ReadXdr> {
        let kind = ExecutableType::read(alloc, input)?;
        read_arm(alloc, input, kind)
    }

    fn write_parts(&self, out: &mut Out) -> Result<(), NoMemory> {
        self.kind().write(out)?;
        match self {
            Executable::Wasm(hash) => hash.write(out),
            Executable::StellarAsset => Ok(()),
        }
    }

    fn size(&self) -> u64 {
        xdr_size_of_executable(*self)
    }

    ghost lawful = { executable_lawful };
}
