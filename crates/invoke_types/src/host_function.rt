//! Host functions: what an operation calls.

ghost use Rattle.std.specs.Prelude.{◌≡◌, IfOk};
ghost use Rattle.xdr_core.specs.Reads.{Reads};
ghost use Rattle.invoke_types.specs.HostFunction.{number, kind_of, kind, type_format, type_lawful, arms, host_function_format};
ghost use Rattle.invoke_types.specs.HostFunction.{host_function_lawful};

use crate::arguments::{CreateContractArgs, CreateContractArgsV2, InvokeContractArgs};
use std::alloc::{AllocError, Global};
use value_types::Blob;
use value_xdr::{Xdr, named, read_blob, size_of_blob, write_blob};
use xdr_core::{NoMemory, Out, ReadXdr, Words, add_sizes};

/// The types of host functions (the XDR files' `HostFunctionType`).
#[derive(Clone, Copy, Debug, PartialEq, Eq)]
pub enum HostFunctionType {
    InvokeContract,
    CreateContract,
    UploadContractWasm,
    CreateContractV2,
}

impl HostFunctionType {
    /// The variant with this number, or `None` if no variant has it (RFC 4506, section 4.3).
    pub fn from_number(number: u32) -> Option<HostFunctionType>
        ensures { result ≡ kind_of number }
    {
        match number {
            0 => Some(HostFunctionType::InvokeContract),
            1 => Some(HostFunctionType::CreateContract),
            2 => Some(HostFunctionType::UploadContractWasm),
            3 => Some(HostFunctionType::CreateContractV2),
            _ => None,
        }
    }

    /// The number of the variant (RFC 4506, section 4.3).
    pub fn number(self) -> u32
        ensures { result ≡ number self }
    {
        match self {
            HostFunctionType::InvokeContract => 0,
            HostFunctionType::CreateContract => 1,
            HostFunctionType::UploadContractWasm => 2,
            HostFunctionType::CreateContractV2 => 3,
        }
    }
}

#[tactic(auto, unfolding(crate::specs::HostFunction::type_format, xdr_core::specs::Sizes::capped))]
impl Xdr for HostFunctionType {
    ghost format = { type_format };

    fn read_parts<W: Words>(_alloc: Global, input: &mut W) -> Result<HostFunctionType, ReadXdr> {
        let place = input.place();
        named(HostFunctionType::from_number(input.u32()?), place)
    }

    fn write_parts(&self, out: &mut Out) -> Result<(), NoMemory> {
        out.put_u32(self.number())
    }

    fn size(&self) -> u64 {
        4
    }

    ghost lawful = { type_lawful };
}

/// The host function that an operation calls (the XDR files' `HostFunction`).
#[derive(Drop)]
pub enum HostFunction {
    /// 0: calls a function of a contract.
    InvokeContract(InvokeContractArgs),
    /// 1: creates a contract.
    CreateContract(CreateContractArgs),
    /// 2: uploads a WebAssembly module.
    UploadContractWasm(Blob),
    /// 3: creates a contract and calls its constructor.
    CreateContractV2(CreateContractArgsV2),
}

impl Clone for HostFunction {
    ghost is_clone = { λ v w. w ≡ v };

    fn clone(&self) -> Result<HostFunction, AllocError> {
        match self {
            HostFunction::InvokeContract(args) => Ok(HostFunction::InvokeContract(args.clone()?)),
            HostFunction::CreateContract(args) => Ok(HostFunction::CreateContract(*args)),
            HostFunction::UploadContractWasm(code) => Ok(HostFunction::UploadContractWasm(
                code.clone()?,
            )),
            HostFunction::CreateContractV2(args) => Ok(HostFunction::CreateContractV2(
                args.clone()?,
            )),
        }
    }
}

impl HostFunction {
    /// The discriminant of the union (RFC 4506, section 4.15).
    pub fn kind(&self) -> HostFunctionType
        ensures { result ≡ kind self.now }
    {
        match self {
            HostFunction::InvokeContract(_) => HostFunctionType::InvokeContract,
            HostFunction::CreateContract(_) => HostFunctionType::CreateContract,
            HostFunction::UploadContractWasm(_) => HostFunctionType::UploadContractWasm,
            HostFunction::CreateContractV2(_) => HostFunctionType::CreateContractV2,
        }
    }
}

#[tactic(auto, unfolding(crate::specs::HostFunction::host_function_format))]
fn read_arm<W: Words>(
    alloc: Global,
    input: &mut W,
    kind: HostFunctionType,
) -> Result<HostFunction, ReadXdr>
    ensures value { Reads (arms kind).read (W.seen input.old) (W.seen input.new) result }
    ensures fits { IfOk result host_function_format.fits }
{
    match kind {
        HostFunctionType::InvokeContract => Ok(HostFunction::InvokeContract(
            InvokeContractArgs::read(alloc, input)?,
        )),
        HostFunctionType::CreateContract => Ok(HostFunction::CreateContract(
            CreateContractArgs::read(alloc, input)?,
        )),
        HostFunctionType::UploadContractWasm => Ok(HostFunction::UploadContractWasm(read_blob(
            alloc,
            input,
            u32::MAX,
        )?)),
        HostFunctionType::CreateContractV2 => Ok(HostFunction::CreateContractV2(
            CreateContractArgsV2::read(alloc, input)?,
        )),
    }
}

#[tactic(auto, unfolding(crate::specs::HostFunction::host_function_format, crate::specs::HostFunction::type_format, xdr_spec::specs::Format::opaque, xdr_core::specs::Sizes::capped))]
impl Xdr for HostFunction {
    ghost format = { host_function_format };

    fn read_parts<W: Words>(alloc: Global, input: &mut W) -> Result<HostFunction, ReadXdr> {
        let kind = HostFunctionType::read(alloc, input)?;
        read_arm(alloc, input, kind)
    }

    fn write_parts(&self, out: &mut Out) -> Result<(), NoMemory> {
        self.kind().write(out)?;
        match self {
            HostFunction::InvokeContract(args) => args.write(out),
            HostFunction::CreateContract(args) => args.write(out),
            HostFunction::UploadContractWasm(code) => write_blob(code, out),
            HostFunction::CreateContractV2(args) => args.write(out),
        }
    }

    fn size(&self) -> u64 {
        let body = match self {
            HostFunction::InvokeContract(args) => args.size(),
            HostFunction::CreateContract(args) => args.size(),
            HostFunction::UploadContractWasm(code) => size_of_blob(code),
            HostFunction::CreateContractV2(args) => args.size(),
        };
        add_sizes(self.kind().size(), body)
    }

    ghost lawful = { host_function_lawful };
}
