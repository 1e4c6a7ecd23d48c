//! Events of contracts and of the host.

ghost use Rattle.std.specs.Prelude.{◌≡◌};
ghost use Rattle.invoke_types.specs.Event.{number, kind_of, type_format, type_lawful, event_format, event_lawful};

use crate::values::clone_values;
use std::alloc::{AllocError, Global};
use value_types::{Hash, Items, ScVal};
use value_xdr::{Xdr, named, read_head};
use xdr_core::{NoMemory, Out, ReadXdr, Words, add_sizes};

/// The number of an empty extension point.
const NO_EXTENSION: u32 = 0;

/// The number of the only form of an event's body.
const BODY: u32 = 0;

/// The length of the two numbers in bytes.
const HEADS_SIZE: u64 = 8;

/// The types of events (the XDR files' `ContractEventType`).
#[derive(Clone, Copy, Debug, PartialEq, Eq)]
pub enum ContractEventType {
    System,
    Contract,
    Diagnostic,
}

impl ContractEventType {
    /// The variant with this number, or `None` if no variant has it (RFC 4506, section 4.3).
    pub fn from_number(number: u32) -> Option<ContractEventType>
        ensures { result ≡ kind_of number }
    {
        match number {
            0 => Some(ContractEventType::System),
            1 => Some(ContractEventType::Contract),
            2 => Some(ContractEventType::Diagnostic),
            _ => None,
        }
    }

    /// The number of the variant (RFC 4506, section 4.3).
    pub fn number(self) -> u32
        ensures { result ≡ number self }
    {
        match self {
            ContractEventType::System => 0,
            ContractEventType::Contract => 1,
            ContractEventType::Diagnostic => 2,
        }
    }
}

#[tactic(auto, unfolding(crate::specs::Event::type_format, xdr_core::specs::Sizes::capped))]
impl Xdr for ContractEventType {
    ghost format = { type_format };

    fn read_parts<W: Words>(_alloc: Global, input: &mut W) -> Result<ContractEventType, ReadXdr> {
        let place = input.place();
        named(ContractEventType::from_number(input.u32()?), place)
    }

    fn write_parts(&self, out: &mut Out) -> Result<(), NoMemory> {
        out.put_u32(self.number())
    }

    fn size(&self) -> u64 {
        4
    }

    ghost lawful = { type_lawful };
}

/// An event (the XDR files' `ContractEvent`).
#[derive(Drop)]
pub struct ContractEvent {
    /// The contract that emitted it.
    pub contract_id: Option<Hash>,
    pub event_type: ContractEventType,
    pub topics: Items<ScVal, 4294967295>,
    pub data: ScVal,
}

impl Clone for ContractEvent {
    ghost is_clone = { λ v w. w ≡ v };

    fn clone(&self) -> Result<ContractEvent, AllocError> {
        let topics = clone_values(&self.topics)?;
        let data = self.data.clone()?;
        Ok(ContractEvent {
            contract_id: self.contract_id,
            event_type: self.event_type,
            topics,
            data,
        })
    }
}

#[tactic(auto, unfolding(crate::specs::Event::event_format, xdr_core::specs::Sizes::capped))]
impl Xdr for ContractEvent {
    ghost format = { event_format };

    fn read_parts<W: Words>(alloc: Global, input: &mut W) -> Result<ContractEvent, ReadXdr> {
        read_head(input, NO_EXTENSION)?;
        let contract_id = Option::<Hash>::read(alloc, input)?;
        let event_type = ContractEventType::read(alloc, input)?;
        read_head(input, BODY)?;
        let topics = Items::<ScVal, 4294967295>::read(alloc, input)?;
        let data = ScVal::read(alloc, input)?;
        Ok(ContractEvent {
            contract_id,
            event_type,
            topics,
            data,
        })
    }

    fn write_parts(&self, out: &mut Out) -> Result<(), NoMemory> {
        out.put_u32(NO_EXTENSION)?;
        self.contract_id.write(out)?;
        self.event_type.write(out)?;
        out.put_u32(BODY)?;
        self.topics.write(out)?;
        self.data.write(out)
    }

    fn size(&self) -> u64 {
        let size = add_sizes(HEADS_SIZE, self.contract_id.size());
        let size = add_sizes(size, self.event_type.size());
        let size = add_sizes(size, self.topics.size());
        add_sizes(size, self.data.size())
    }

    ghost lawful = { event_lawful };
}
