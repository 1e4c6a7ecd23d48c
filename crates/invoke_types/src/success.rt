//! Success preimages.

ghost use Rattle.std.specs.Prelude.{◌≡◌, IfOk};
ghost use Rattle.invoke_types.specs.Success.{success_format, success_lawful};

use crate::event::ContractEvent;
use std::alloc::{AllocError, Global};
use value_types::{Items, ScVal};
use value_xdr::Xdr;
use xdr_core::{NoMemory, Out, ReadXdr, Words, add_sizes};

/// The preimage of the hash in the result of a successful host function (the XDR files' `InvokeHostFunctionSuccessPreImage`):
/// its return value and its events.
#[derive(Drop)]
pub struct SuccessPreimage {
    pub return_value: ScVal,
    pub events: Items<ContractEvent, 4294967295>,
}

/// Clones the events.
fn clone_events(
    events: &Items<ContractEvent, 4294967295>,
) -> Result<Items<ContractEvent, 4294967295>, AllocError>
    ensures { IfOk result (λ copies. copies ≡ events.now) }
{
    events.clone()
}

impl Clone for SuccessPreimage {
    ghost is_clone = { λ v w. w ≡ v };

    fn clone(&self) -> Result<SuccessPreimage, AllocError> {
        let return_value = self.return_value.clone()?;
        let events = clone_events(&self.events)?;
        Ok(SuccessPreimage {
            return_value,
            events,
        })
    }
}

#[tactic(auto, unfolding(crate::specs::Success::success_format, xdr_core::specs::Sizes::capped))]
impl Xdr for SuccessPreimage {
    ghost format = { success_format };

    fn read_parts<W: Words>(alloc: Global, input: &mut W) -> Result<SuccessPreimage, ReadXdr> {
        let return_value = ScVal::read(alloc, input)?;
        let events = Items::<ContractEvent, 4294967295>::read(alloc, input)?;
        Ok(SuccessPreimage {
            return_value,
            events,
        })
    }

    fn write_parts(&self, out: &mut Out) -> Result<(), NoMemory> {
        self.return_value.write(out)?;
        self.events.write(out)
    }

    fn size(&self) -> u64 {
        add_sizes(self.return_value.size(), self.events.size())
    }

    ghost lawful = { success_lawful };
}
