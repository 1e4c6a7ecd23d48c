//! Authorised functions.

ghost use Rattle.std.specs.Prelude.{◌≡◌, IfOk};
ghost use Rattle.xdr_core.specs.Reads.{Reads};
ghost use Rattle.invoke_types.specs.Function.{number, kind_of, kind, type_format, type_lawful, arms, function_format};
ghost use Rattle.invoke_types.specs.Function.{function_lawful};

use crate::arguments::{CreateContractArgs, CreateContractArgsV2, InvokeContractArgs};
use std::alloc::{AllocError, Global};
use value_xdr::{Xdr, named};
use xdr_core::{NoMemory, Out, ReadXdr, Words, add_sizes};

/// The types of authorised functions (the XDR files' `SorobanAuthorizedFunctionType`).
#[derive(Clone, Copy, Debug, PartialEq, Eq)]
pub enum FunctionType {
    ContractFn,
    CreateContract,
    CreateContractV2,
}

impl FunctionType {
    /// The variant with this number, or `None` if no variant has it (RFC 4506, section 4.3).
    pub fn from_number(number: u32) -> Option<FunctionType>
        ensures { result ≡ kind_of number }
    {
        match number {
            0 => Some(FunctionType::ContractFn),
            1 => Some(FunctionType::CreateContract),
            2 => Some(FunctionType::CreateContractV2),
            _ => None,
        }
    }

    /// The number of the variant (RFC 4506, section 4.3).
    pub fn number(self) -> u32
        ensures { result ≡ number self }
    {
        match self {
            FunctionType::ContractFn => 0,
            FunctionType::CreateContract => 1,
            FunctionType::CreateContractV2 => 2,
        }
    }
}

#[tactic(auto, unfolding(crate::specs::Function::type_format, xdr_core::specs::Sizes::capped))]
impl Xdr for FunctionType {
    ghost format = { type_format };

    fn read_parts<W: Words>(_alloc: Global, input: &mut W) -> Result<FunctionType, ReadXdr> {
        let place = input.place();
        named(FunctionType::from_number(input.u32()?), place)
    }

    fn write_parts(&self, out: &mut Out) -> Result<(), NoMemory> {
        out.put_u32(self.number())
    }

    fn size(&self) -> u64 {
        4
    }

    ghost lawful = { type_lawful };
}

/// The function that a node of an authorisation allows (the XDR files' `SorobanAuthorizedFunction`).
#[derive(Drop)]
pub enum Function {
    /// 0: a call of a function of a contract.
    ContractFn(InvokeContractArgs),
    /// 1: a create.
    CreateContract(CreateContractArgs),
    /// 2: a create with a constructor.
    CreateContractV2(CreateContractArgsV2),
}

impl Clone for Function {
    ghost is_clone = { λ v w. w ≡ v };

    fn clone(&self) -> Result<Function, AllocError> {
        match self {
            Function::ContractFn(args) => Ok(Function::ContractFn(args.clone()?)),
            Function::CreateContract(args) => Ok(Function::CreateContract(*args)),
            Function::CreateContractV2(args) => Ok(Function::CreateContractV2(args.clone()?)),
        }
    }
}

impl Function {
    /// The discriminant of the union (RFC 4506, section 4.15).
    pub fn kind(&self) -> FunctionType
        ensures { result ≡ kind self.now }
    {
        match self {
            Function::ContractFn(_) => FunctionType::ContractFn,
            Function::CreateContract(_) => FunctionType::CreateContract,
            Function::CreateContractV2(_) => FunctionType::CreateContractV2,
        }
    }
}

#[tactic(auto, unfolding(crate::specs::Function::function_format))]
fn read_arm<W: Words>(alloc: Global, input: &mut W, kind: FunctionType) -> Result<Function, ReadXdr>
    ensures value { Reads (arms kind).read (W.seen input.old) (W.seen input.new) result }
    ensures fits { IfOk result function_format.fits }
{
    match kind {
        FunctionType::ContractFn => Ok(Function::ContractFn(InvokeContractArgs::read(
            alloc, input,
        )?)),
        FunctionType::CreateContract => Ok(Function::CreateContract(CreateContractArgs::read(
            alloc, input,
        )?)),
        FunctionType::CreateContractV2 => Ok(Function::CreateContractV2(CreateContractArgsV2::read(
            alloc, input,
        )?)),
    }
}

#[tactic(auto, unfolding(crate::specs::Function::function_format, crate::specs::Function::type_format, xdr_core::specs::Sizes::capped))]
impl Xdr for Function {
    ghost format = { function_format };

    fn read_parts<W: Words>(alloc: Global, input: &mut W) -> Result<Function, ReadXdr> {
        let kind = FunctionType::read(alloc, input)?;
        read_arm(alloc, input, kind)
    }

    fn write_parts(&self, out: &mut Out) -> Result<(), NoMemory> {
        self.kind().write(out)?;
        match self {
            Function::ContractFn(args) => args.write(out),
            Function::CreateContract(args) => args.write(out),
            Function::CreateContractV2(args) => args.write(out),
        }
    }

    fn size(&self) -> u64 {
        let body = match self {
            Function::ContractFn(args) => args.size(),
            Function::CreateContract(args) => args.size(),
            Function::CreateContractV2(args) => args.size(),
        };
        add_sizes(self.kind().size(), body)
    }

    ghost lawful = { function_lawful };
}
