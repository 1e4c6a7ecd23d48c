//! The spelling of operations' results.

ghost use Rattle.std.specs.Prelude.{IfOk};
ghost use Rattle.xdr_core.specs.Reads.{Reads};
ghost use Rattle.tx_results.specs.Operations.{invoke_code_format, invoke_code_lawful, invoke_arms, invoke_format, invoke_lawful};
ghost use Rattle.tx_results.specs.Operations.{extend_format, extend_lawful, inner_kind_format, inner_kind_lawful, inner_arms};
ghost use Rattle.tx_results.specs.Operations.{inner_format, inner_lawful, operation_code_format, operation_code_lawful};
ghost use Rattle.tx_results.specs.Operations.{operation_arms, operation_format, operation_lawful};

use crate::codes::{ExtendResult, InnerKind, InvokeResultCode, OperationResultCode};
use crate::operation::{InnerResult, InvokeResult, OperationResult};
use std::alloc::Global;
use value_types::Hash;
use value_xdr::Xdr;
use xdr_core::{NoMemory, Out, ReadXdr, Why, Words, XdrErr, add_sizes};

// ---- INVOKE_HOST_FUNCTION

#[tactic(auto, unfolding(crate::specs::Operations::invoke_code_format, xdr_core::specs::Sizes::capped))]
impl Xdr for InvokeResultCode {
    ghost format = { invoke_code_format };

    fn read_parts<W: Words>(_alloc: Global, input: &mut W) -> Result<InvokeResultCode, ReadXdr> {
        let place = input.place();
        let number = input.u32()?;
        InvokeResultCode::from_number(number).ok_or(ReadXdr::Bad(XdrErr {
            at: place,
            why: Why::Tag,
        }))
    }

    fn write_parts(&self, out: &mut Out) -> Result<(), NoMemory> {
        out.put_u32(self.number())
    }

    fn size(&self) -> u64 {
        4
    }

    ghost lawful = { invoke_code_lawful };
}

#[tactic(auto, unfolding(crate::specs::Operations::invoke_format))]
fn read_invoke_arm<W: Words>(
    alloc: Global,
    input: &mut W,
    code: InvokeResultCode,
) -> Result<InvokeResult, ReadXdr>
    ensures value { Reads (invoke_arms code).read (W.seen input.old) (W.seen input.new) result }
    ensures fits { IfOk result invoke_format.fits }
{
    match code {
        InvokeResultCode::Success => Ok(InvokeResult::Success(Hash::read(alloc, input)?)),
        InvokeResultCode::Malformed => Ok(InvokeResult::Malformed),
        InvokeResultCode::Trapped => Ok(InvokeResult::Trapped),
        InvokeResultCode::ResourceLimitExceeded => Ok(InvokeResult::ResourceLimitExceeded),
        InvokeResultCode::EntryArchived => Ok(InvokeResult::EntryArchived),
    }
}

#[tactic(auto, unfolding(crate::specs::Operations::invoke_format, crate::specs::Operations::invoke_code_format, xdr_core::specs::Sizes::capped))]
impl Xdr for InvokeResult {
    ghost format = { invoke_format };

    fn read_parts<W: Words>(alloc: Global, input: &mut W) -> Result<InvokeResult, ReadXdr> {
        let code = InvokeResultCode::read(alloc, input)?;
        read_invoke_arm(alloc, input, code)
    }

    fn write_parts(&self, out: &mut Out) -> Result<(), NoMemory> {
        self.code().write(out)?;
        match self {
            InvokeResult::Success(preimage) => preimage.write(out),
            InvokeResult::Malformed
            | InvokeResult::Trapped
            | InvokeResult::ResourceLimitExceeded
            | InvokeResult::EntryArchived => Ok(()),
        }
    }

    fn size(&self) -> u64 {
        let body = match self {
            InvokeResult::Success(preimage) => preimage.size(),
            InvokeResult::Malformed
            | InvokeResult::Trapped
            | InvokeResult::ResourceLimitExceeded
            | InvokeResult::EntryArchived => 0,
        };
        add_sizes(self.code().size(), body)
    }

    ghost lawful = { invoke_lawful };
}

// ---- EXTEND_FOOTPRINT_TTL

#[tactic(auto, unfolding(crate::specs::Operations::extend_format, xdr_core::specs::Sizes::capped))]
impl Xdr for ExtendResult {
    ghost format = { extend_format };

    fn read_parts<W: Words>(_alloc: Global, input: &mut W) -> Result<ExtendResult, ReadXdr> {
        let place = input.place();
        let number = input.u32()?;
        ExtendResult::from_number(number).ok_or(ReadXdr::Bad(XdrErr {
            at: place,
            why: Why::Tag,
        }))
    }

    fn write_parts(&self, out: &mut Out) -> Result<(), NoMemory> {
        out.put_u32(self.number())
    }

    fn size(&self) -> u64 {
        4
    }

    ghost lawful = { extend_lawful };
}

// ---- Bodies that have a result of their own

#[tactic(auto, unfolding(crate::specs::Operations::inner_kind_format, xdr_core::specs::Sizes::capped))]
impl Xdr for InnerKind {
    ghost format = { inner_kind_format };

    fn read_parts<W: Words>(_alloc: Global, input: &mut W) -> Result<InnerKind, ReadXdr> {
        let place = input.place();
        let number = input.u32()?;
        InnerKind::from_number(number).ok_or(ReadXdr::Bad(XdrErr {
            at: place,
            why: Why::Tag,
        }))
    }

    fn write_parts(&self, out: &mut Out) -> Result<(), NoMemory> {
        out.put_u32(self.number())
    }

    fn size(&self) -> u64 {
        4
    }

    ghost lawful = { inner_kind_lawful };
}

#[tactic(auto, unfolding(crate::specs::Operations::inner_format))]
fn read_inner_arm<W: Words>(
    alloc: Global,
    input: &mut W,
    kind: InnerKind,
) -> Result<InnerResult, ReadXdr>
    ensures value { Reads (inner_arms kind).read (W.seen input.old) (W.seen input.new) result }
    ensures fits { IfOk result inner_format.fits }
{
    match kind {
        InnerKind::Invoke => Ok(InnerResult::Invoke(InvokeResult::read(alloc, input)?)),
        InnerKind::Extend => Ok(InnerResult::Extend(ExtendResult::read(alloc, input)?)),
    }
}

#[tactic(auto, unfolding(crate::specs::Operations::inner_format, crate::specs::Operations::inner_kind_format, xdr_core::specs::Sizes::capped))]
impl Xdr for InnerResult {
    ghost format = { inner_format };

    fn read_parts<W: Words>(alloc: Global, input: &mut W) -> Result<InnerResult, ReadXdr> {
        let kind = InnerKind::read(alloc, input)?;
        read_inner_arm(alloc, input, kind)
    }

    fn write_parts(&self, out: &mut Out) -> Result<(), NoMemory> {
        self.kind().write(out)?;
        match self {
            InnerResult::Invoke(result) => result.write(out),
            InnerResult::Extend(result) => result.write(out),
        }
    }

    fn size(&self) -> u64 {
        let body = match self {
            InnerResult::Invoke(result) => result.size(),
            InnerResult::Extend(result) => result.size(),
        };
        add_sizes(self.kind().size(), body)
    }

    ghost lawful = { inner_lawful };
}

// ---- Operations

#[tactic(auto, unfolding(crate::specs::Operations::operation_code_format, xdr_core::specs::Sizes::capped))]
impl Xdr for OperationResultCode {
    ghost format = { operation_code_format };

    fn read_parts<W: Words>(_alloc: Global, input: &mut W) -> Result<OperationResultCode, ReadXdr> {
        let place = input.place();
        let number = input.u32()?;
        OperationResultCode::from_number(number).ok_or(ReadXdr::Bad(XdrErr {
            at: place,
            why: Why::Tag,
        }))
    }

    fn write_parts(&self, out: &mut Out) -> Result<(), NoMemory> {
        out.put_u32(self.number())
    }

    fn size(&self) -> u64 {
        4
    }

    ghost lawful = { operation_code_lawful };
}

#[tactic(auto, unfolding(crate::specs::Operations::operation_format))]
fn read_operation_arm<W: Words>(
    alloc: Global,
    input: &mut W,
    code: OperationResultCode,
) -> Result<OperationResult, ReadXdr>
    ensures value { Reads (operation_arms code).read (W.seen input.old) (W.seen input.new) result }
    ensures fits { IfOk result operation_format.fits }
{
    match code {
        OperationResultCode::Inner => {
            Ok(OperationResult::Inner(InnerResult::read(alloc, input)?))
        }
        OperationResultCode::NotSupported => Ok(OperationResult::NotSupported),
    }
}

#[tactic(auto, unfolding(crate::specs::Operations::operation_format, crate::specs::Operations::operation_code_format, xdr_core::specs::Sizes::capped))]
impl Xdr for OperationResult {
    ghost format = { operation_format };

    fn read_parts<W: Words>(alloc: Global, input: &mut W) -> Result<OperationResult, ReadXdr> {
        let code = OperationResultCode::read(alloc, input)?;
        read_operation_arm(alloc, input, code)
    }

    fn write_parts(&self, out: &mut Out) -> Result<(), NoMemory> {
        self.code().write(out)?;
        match self {
            OperationResult::Inner(result) => result.write(out),
            OperationResult::NotSupported => Ok(()),
        }
    }

    fn size(&self) -> u64 {
        let body = match self {
            OperationResult::Inner(result) => result.size(),
            OperationResult::NotSupported => 0,
        };
        add_sizes(self.code().size(), body)
    }

    ghost lawful = { operation_lawful };
}
