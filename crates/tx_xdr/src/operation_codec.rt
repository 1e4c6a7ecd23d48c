//! The codec of operations.

ghost use Rattle.std.specs.Prelude.{IfOk};
ghost use Rattle.xdr_core.specs.Reads.{Reads};
ghost use Rattle.tx_xdr.specs.Operation.{type_format, type_lawful, arms, body_format, body_lawful, operation_format};
ghost use Rattle.tx_xdr.specs.Operation.{operation_lawful};

use crate::numbers::NO_EXT;
use crate::transaction::{Operation, OperationBody, OperationType};
use auth_types::AuthEntry;
use invoke_types::HostFunction;
use std::alloc::Global;
use tx_parts::MuxedAccount;
use value_types::Items;
use value_xdr::{Xdr, named, read_head};
use xdr_core::{NoMemory, Out, ReadXdr, Words, add_sizes};

#[tactic(auto, unfolding(crate::specs::Operation::type_format, xdr_core::specs::Sizes::capped))]
impl Xdr for OperationType {
    ghost format = { type_format };

    fn read_parts<W: Words>(_alloc: Global, input: &mut W) -> Result<OperationType, ReadXdr> {
        let place = input.place();
        named(OperationType::from_number(input.u32()?), place)
    }

    fn write_parts(&self, out: &mut Out) -> Result<(), NoMemory> {
        out.put_u32(self.number())
    }

    fn size(&self) -> u64 {
        4
    }

    ghost lawful = { type_lawful };
}

#[tactic(auto, unfolding(crate::specs::Operation::body_format))]
fn read_invocation<W: Words>(alloc: Global, input: &mut W) -> Result<OperationBody, ReadXdr>
    ensures value { Reads (arms OperationType.InvokeHostFunction).read (W.seen input.old) (W.seen input.new) result }
    ensures fits { IfOk result body_format.fits }
{
    let host_function = HostFunction::read(alloc, input)?;
    let auth = Items::<AuthEntry, 4294967295>::read(alloc, input)?;
    Ok(OperationBody::InvokeHostFunction {
        host_function,
        auth,
    })
}

#[tactic(auto, unfolding(crate::specs::Operation::body_format))]
fn read_extension<W: Words>(alloc: Global, input: &mut W) -> Result<OperationBody, ReadXdr>
    ensures value { Reads (arms OperationType.ExtendFootprintTtl).read (W.seen input.old) (W.seen input.new) result }
    ensures fits { IfOk result body_format.fits }
{
    read_head(input, NO_EXT)?;
    let extend_to = u32::read(alloc, input)?;
    Ok(OperationBody::ExtendFootprintTtl { extend_to })
}

#[tactic(auto, unfolding(crate::specs::Operation::body_format))]
fn read_restoration<W: Words>(input: &mut W) -> Result<OperationBody, ReadXdr>
    ensures value { Reads (arms OperationType.RestoreFootprint).read (W.seen input.old) (W.seen input.new) result }
    ensures fits { IfOk result body_format.fits }
{
    read_head(input, NO_EXT)?;
    Ok(OperationBody::RestoreFootprint)
}

#[tactic(auto, unfolding(crate::specs::Operation::body_format))]
fn read_arm<W: Words>(
    alloc: Global,
    input: &mut W,
    kind: OperationType,
) -> Result<OperationBody, ReadXdr>
    ensures value { Reads (arms kind).read (W.seen input.old) (W.seen input.new) result }
    ensures fits { IfOk result body_format.fits }
{
    match kind {
        OperationType::InvokeHostFunction => read_invocation(alloc, input),
        OperationType::ExtendFootprintTtl => read_extension(alloc, input),
        OperationType::RestoreFootprint => read_restoration(input),
    }
}

#[tactic(auto, unfolding(crate::specs::Operation::body_format, crate::specs::Operation::type_format, xdr_core::specs::Sizes::capped))]
impl Xdr for OperationBody {
    ghost format = { body_format };

    fn read_parts<W: Words>(alloc: Global, input: &mut W) -> Result<OperationBody, ReadXdr> {
        let kind = OperationType::read(alloc, input)?;
        read_arm(alloc, input, kind)
    }

    fn write_parts(&self, out: &mut Out) -> Result<(), NoMemory> {
        self.kind().write(out)?;
        match self {
            OperationBody::InvokeHostFunction {
                host_function,
                auth,
            } => {
                host_function.write(out)?;
                auth.write(out)
            }
            OperationBody::ExtendFootprintTtl { extend_to } => {
                out.put_u32(NO_EXT)?;
                extend_to.write(out)
            }
            OperationBody::RestoreFootprint => out.put_u32(NO_EXT),
        }
    }

    fn size(&self) -> u64 {
        let body = match self {
            OperationBody::InvokeHostFunction {
                host_function,
                auth,
            } => add_sizes(host_function.size(), auth.size()),
            OperationBody::ExtendFootprintTtl { extend_to } => extend_to.size().saturating_add(4),
            OperationBody::RestoreFootprint => 4,
        };
        add_sizes(self.kind().size(), body)
    }

    ghost lawful = { body_lawful };
}

#[tactic(auto, unfolding(crate::specs::Operation::operation_format, xdr_core::specs::Sizes::capped))]
impl Xdr for Operation {
    ghost format = { operation_format };

    fn read_parts<W: Words>(alloc: Global, input: &mut W) -> Result<Operation, ReadXdr> {
        let source = Option::<MuxedAccount>::read(alloc, input)?;
        let body = OperationBody::read(alloc, input)?;
        Ok(Operation { source, body })
    }

    fn write_parts(&self, out: &mut Out) -> Result<(), NoMemory> {
        self.source.write(out)?;
        self.body.write(out)
    }

    fn size(&self) -> u64 {
        add_sizes(self.source.size(), self.body.size())
    }

    ghost lawful = { operation_lawful };
}
