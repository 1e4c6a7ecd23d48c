//! The spelling of errors.

ghost use Rattle.std.specs.Prelude.{◌≡◌, IfOk};
ghost use Rattle.xdr_core.specs.Reads.{Reads};
ghost use Rattle.value_types.specs.Error.{type_format, type_lawful, code_format, code_lawful, error_format, error_lawful, arms};

use crate::head::named;
use crate::xdr::Xdr;
use std::alloc::Global;
use value_types::{ScError, ScErrorCode, ScErrorType};
use xdr_core::{NoMemory, Out, ReadXdr, Words, add_sizes};

#[tactic(auto, unfolding(value_types::specs::Error::type_format, xdr_core::specs::Sizes::capped))]
impl Xdr for ScErrorType {
    ghost format = { type_format };

    fn read_parts<W: Words>(_alloc: Global, input: &mut W) -> Result<ScErrorType, ReadXdr> {
        let place = input.place();
        named(ScErrorType::from_number(input.u32()?), place)
    }

    fn write_parts(&self, out: &mut Out) -> Result<(), NoMemory> {
        out.put_u32(self.number())
    }

    fn size(&self) -> u64 {
        4
    }

    ghost lawful = { type_lawful };
}

#[tactic(auto, unfolding(value_types::specs::Error::code_format, xdr_core::specs::Sizes::capped))]
impl Xdr for ScErrorCode {
    ghost format = { code_format };

    fn read_parts<W: Words>(_alloc: Global, input: &mut W) -> Result<ScErrorCode, ReadXdr> {
        let place = input.place();
        named(ScErrorCode::from_number(input.u32()?), place)
    }

    fn write_parts(&self, out: &mut Out) -> Result<(), NoMemory> {
        out.put_u32(self.number())
    }

    fn size(&self) -> u64 {
        4
    }

    ghost lawful = { code_lawful };
}

#[tactic(auto, unfolding(value_types::specs::Error::error_format))]
fn read_arm<W: Words>(alloc: Global, input: &mut W, kind: ScErrorType) -> Result<ScError, ReadXdr>
    ensures value { Reads (arms kind).read (W.seen input.old) (W.seen input.new) result }
    ensures fits { IfOk result error_format.fits }
{
    Ok(match kind {
        ScErrorType::Contract => ScError::Contract(u32::read(alloc, input)?),
        ScErrorType::WasmVm => ScError::WasmVm(ScErrorCode::read(alloc, input)?),
        ScErrorType::Context => ScError::Context(ScErrorCode::read(alloc, input)?),
        ScErrorType::Storage => ScError::Storage(ScErrorCode::read(alloc, input)?),
        ScErrorType::Object => ScError::Object(ScErrorCode::read(alloc, input)?),
        ScErrorType::Crypto => ScError::Crypto(ScErrorCode::read(alloc, input)?),
        ScErrorType::Events => ScError::Events(ScErrorCode::read(alloc, input)?),
        ScErrorType::Budget => ScError::Budget(ScErrorCode::read(alloc, input)?),
        ScErrorType::Value => ScError::Value(ScErrorCode::read(alloc, input)?),
        ScErrorType::Auth => ScError::Auth(ScErrorCode::read(alloc, input)?),
    })
}

#[tactic(auto, unfolding(value_types::specs::Error::error_format, value_types::specs::Error::type_format, xdr_core::specs::Sizes::capped))]
impl Xdr for ScError {
    ghost format = { error_format };

    fn read_parts<W: Words>(alloc: Global, input: &mut W) -> Result<ScError, ReadXdr> {
        let kind = ScErrorType::read(alloc, input)?;
        read_arm(alloc, input, kind)
    }

    fn write_parts(&self, out: &mut Out) -> Result<(), NoMemory> {
        self.kind().write(out)?;
        match self {
            ScError::Contract(code) => code.write(out),
            ScError::WasmVm(code)
            | ScError::Context(code)
            | ScError::Storage(code)
            | ScError::Object(code)
            | ScError::Crypto(code)
            | ScError::Events(code)
            | ScError::Budget(code)
            | ScError::Value(code)
            | ScError::Auth(code) => code.write(out),
        }
    }

    fn size(&self) -> u64 {
        let body = match self {
            ScError::Contract(code) => code.size(),
            ScError::WasmVm(code)
            | ScError::Context(code)
            | ScError::Storage(code)
            | ScError::Object(code)
            | ScError::Crypto(code)
            | ScError::Events(code)
            | ScError::Budget(code)
            | ScError::Value(code)
            | ScError::Auth(code) => code.size(),
        };
        add_sizes(self.kind().size(), body)
    }

    ghost lawful = { error_lawful };
}
