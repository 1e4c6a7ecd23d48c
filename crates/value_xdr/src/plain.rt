//! The spellings of plain types.

ghost use Rattle.std.specs.Prelude.{Option};
ghost use Rattle.xdr_spec.specs.Format.{number32, number64, signed32, signed64, boolean, optional};
ghost use Rattle.xdr_spec.proofs.Lemmas.{boolean_lawful, number32_lawful, number64_lawful, optional_lawful, signed32_lawful};
ghost use Rattle.xdr_spec.proofs.Lemmas.{signed64_lawful};

use crate::xdr::Xdr;
use std::alloc::Global;
use xdr_core::{NoMemory, Out, ReadXdr, Words};

#[tactic(auto, unfolding(xdr_spec::specs::Format::number32, xdr_core::specs::Sizes::capped))]
impl Xdr for u32 {
    ghost format = { number32 };

    fn read_parts<W: Words>(_alloc: Global, input: &mut W) -> Result<u32, ReadXdr> {
        Ok(input.u32()?)
    }

    fn write_parts(&self, out: &mut Out) -> Result<(), NoMemory> {
        out.put_u32(*self)
    }

    fn size(&self) -> u64 {
        4
    }

    ghost lawful = { number32_lawful };
}

#[tactic(auto, unfolding(xdr_spec::specs::Format::signed32, xdr_core::specs::Sizes::capped))]
impl Xdr for i32 {
    ghost format = { signed32 };

    fn read_parts<W: Words>(_alloc: Global, input: &mut W) -> Result<i32, ReadXdr> {
        Ok(input.i32()?)
    }

    fn write_parts(&self, out: &mut Out) -> Result<(), NoMemory> {
        out.put_i32(*self)
    }

    fn size(&self) -> u64 {
        4
    }

    ghost lawful = { signed32_lawful };
}

#[tactic(auto, unfolding(xdr_spec::specs::Format::number64, xdr_core::specs::Sizes::capped))]
impl Xdr for u64 {
    ghost format = { number64 };

    fn read_parts<W: Words>(_alloc: Global, input: &mut W) -> Result<u64, ReadXdr> {
        Ok(input.u64()?)
    }

    fn write_parts(&self, out: &mut Out) -> Result<(), NoMemory> {
        out.put_u64(*self)
    }

    fn size(&self) -> u64 {
        8
    }

    ghost lawful = { number64_lawful };
}

#[tactic(auto, unfolding(xdr_spec::specs::Format::signed64, xdr_core::specs::Sizes::capped))]
impl Xdr for i64 {
    ghost format = { signed64 };

    fn read_parts<W: Words>(_alloc: Global, input: &mut W) -> Result<i64, ReadXdr> {
        Ok(input.i64()?)
    }

    fn write_parts(&self, out: &mut Out) -> Result<(), NoMemory> {
        out.put_i64(*self)
    }

    fn size(&self) -> u64 {
        8
    }

    ghost lawful = { signed64_lawful };
}

#[tactic(auto, unfolding(xdr_spec::specs::Format::boolean, xdr_core::specs::Sizes::capped))]
impl Xdr for bool {
    ghost format = { boolean };

    fn read_parts<W: Words>(_alloc: Global, input: &mut W) -> Result<bool, ReadXdr> {
        Ok(input.boolean()?)
    }

    fn write_parts(&self, out: &mut Out) -> Result<(), NoMemory> {
        out.put_boolean(*self)
    }

    fn size(&self) -> u64 {
        4
    }

    ghost lawful = { boolean_lawful };
}

#[tactic(auto, unfolding(xdr_spec::specs::Format::optional, xdr_spec::specs::Format::boolean, xdr_core::specs::Sizes::capped))]
impl<T: Xdr> Xdr for Option<T> {
    ghost format = { optional T.format };

    fn read_parts<W: Words>(alloc: Global, input: &mut W) -> Result<Option<T>, ReadXdr> {
        if input.boolean()? {
            Ok(Some(T::read(alloc, input)?))
        } else {
            Ok(None)
        }
    }

    fn write_parts(&self, out: &mut Out) -> Result<(), NoMemory> {
        match self {
            None => out.put_boolean(false),
            Some(value) => {
                out.put_boolean(true)?;
                value.write(out)
            }
        }
    }

    fn size(&self) -> u64 {
        match self {
            None => 4,
            Some(value) => value.size().saturating_add(4),
        }
    }

    ghost lawful = { optional_lawful T.format T.lawful };
}
