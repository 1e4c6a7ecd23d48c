//! The arguments of calls and creates.

ghost use Rattle.std.specs.Prelude.{◌≡◌, ⊤};
ghost use Rattle.invoke_types.specs.Arguments.{invoke_format, invoke_lawful, create_format, create_lawful, create_v2_format};
ghost use Rattle.invoke_types.specs.Arguments.{create_v2_lawful};

use crate::args::Args;
use crate::preimage::Preimage;
use std::alloc::{AllocError, Global};
use value_types::{Bytes, Executable, ScAddress};
use value_xdr::Xdr;
use xdr_core::{NoMemory, Out, ReadXdr, Words, add_sizes};

/// A call of a contract's function (the XDR files' `InvokeContractArgs`).
#[derive(Drop)]
pub struct InvokeContractArgs {
    pub contract: ScAddress,
    /// The function's name: any bytes.
    pub function: Bytes<32>,
    pub args: Args,
}

impl Clone for InvokeContractArgs {
    ghost is_clone = { λ v w. w ≡ v };

    fn clone(&self) -> Result<InvokeContractArgs, AllocError> {
        let function = self.function.clone()?;
        let args = self.args.clone()?;
        Ok(InvokeContractArgs {
            contract: self.contract,
            function,
            args,
        })
    }
}

#[tactic(auto, unfolding(crate::specs::Arguments::invoke_format, xdr_core::specs::Sizes::capped))]
impl Xdr for InvokeContractArgs {
    ghost format = { invoke_format };

    fn read_parts<W: Words>(alloc: Global, input: &mut W) -> Result<InvokeContractArgs, ReadXdr> {
        let contract = ScAddress::read(alloc, input)?;
        let function = Bytes::<32>::read(alloc, input)?;
        let args = Args::read(alloc, input)?;
        Ok(InvokeContractArgs {
            contract,
            function,
            args,
        })
    }

    fn write_parts(&self, out: &mut Out) -> Result<(), NoMemory> {
        self.contract.write(out)?;
        self.function.write(out)?;
        self.args.write(out)
    }

    fn size(&self) -> u64 {
        let size = add_sizes(self.contract.size(), self.function.size());
        add_sizes(size, self.args.size())
    }

    ghost lawful = { invoke_lawful };
}

/// A create without a constructor (the XDR files' `CreateContractArgs`).
#[derive(Debug)]
pub struct CreateContractArgs {
    /// The preimage of the contract's id.
    pub preimage: Preimage,
    /// The executable of the contract.
    pub executable: Executable,
}

impl Clone for CreateContractArgs {
    ghost is_clone = { λ v w. w ≡ v };

    ghost is_infallible = { λ _. ⊤ };

    fn clone(&self) -> Result<CreateContractArgs, AllocError> {
        Ok(*self)
    }
}

impl Copy for CreateContractArgs {}

#[tactic(auto, unfolding(crate::specs::Arguments::create_format, xdr_core::specs::Sizes::capped))]
impl Xdr for CreateContractArgs {
    ghost format = { create_format };

    fn read_parts<W: Words>(alloc: Global, input: &mut W) -> Result<CreateContractArgs, ReadXdr> {
        let preimage = Preimage::read(alloc, input)?;
        let executable = Executable::read(alloc, input)?;
        Ok(CreateContractArgs {
            preimage,
            executable,
        })
    }

    fn write_parts(&self, out: &mut Out) -> Result<(), NoMemory> {
        self.preimage.write(out)?;
        self.executable.write(out)
    }

    fn size(&self) -> u64 {
        add_sizes(self.preimage.size(), self.executable.size())
    }

    ghost lawful = { create_lawful };
}

/// A create with arguments for the constructor (the XDR files' `CreateContractArgsV2`).
#[derive(Drop)]
pub struct CreateContractArgsV2 {
    /// The preimage of the contract's id.
    pub preimage: Preimage,
    /// The executable of the contract.
    pub executable: Executable,
    pub constructor_args: Args,
}

impl Clone for CreateContractArgsV2 {
    ghost is_clone = { λ v w. w ≡ v };

    fn clone(&self) -> Result<CreateContractArgsV2, AllocError> {
        let constructor_args = self.constructor_args.clone()?;
        Ok(CreateContractArgsV2 {
            preimage: self.preimage,
            executable: self.executable,
            constructor_args,
        })
    }
}

#[tactic(auto, unfolding(crate::specs::Arguments::create_v2_format, xdr_core::specs::Sizes::capped))]
impl Xdr for CreateContractArgsV2 {
    ghost format = { create_v2_format };

    fn read_parts<W: Words>(alloc: Global, input: &mut W) -> Result<CreateContractArgsV2, ReadXdr> {
        let preimage = Preimage::read(alloc, input)?;
        let executable = Executable::read(alloc, input)?;
        let constructor_args = Args::read(alloc, input)?;
        Ok(CreateContractArgsV2 {
            preimage,
            executable,
            constructor_args,
        })
    }

    fn write_parts(&self, out: &mut Out) -> Result<(), NoMemory> {
        self.preimage.write(out)?;
        self.executable.write(out)?;
        self.constructor_args.write(out)
    }

    fn size(&self) -> u64 {
        let size = add_sizes(self.preimage.size(), self.executable.size());
        add_sizes(size, self.constructor_args.size())
    }

    ghost lawful = { create_v2_lawful };
}
