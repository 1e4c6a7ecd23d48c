//! The signatures of transactions.

ghost use Rattle.std.specs.Prelude.{◌≡◌};
ghost use Rattle.tx_parts.specs.Signature.{signature_format, signature_lawful};

use std::alloc::{AllocError, Global};
use value_types::Bytes;
use value_xdr::{Xdr, hold_bytes};
use xdr_core::{NoMemory, Out, ReadXdr, Words};

/// A signature, with the last four bytes of the key that made it (`DecoratedSignature`).
#[derive(Drop)]
pub struct DecoratedSignature {
    pub hint: [u8; 4],
    pub signature: Bytes<64>,
}

impl Clone for DecoratedSignature {
    ghost is_clone = { λ v w. w ≡ v };

    fn clone(&self) -> Result<DecoratedSignature, AllocError> {
        Ok(DecoratedSignature {
            hint: self.hint,
            signature: self.signature.clone()?,
        })
    }
}

#[tactic(auto, unfolding(crate::specs::Signature::signature_format, xdr_core::specs::Sizes::capped))]
impl Xdr for DecoratedSignature {
    ghost format = { signature_format };

    fn read_parts<W: Words>(alloc: Global, input: &mut W) -> Result<DecoratedSignature, ReadXdr> {
        let mut hint = [0u8; 4];
        input.fill(&mut hint)?;
        hold_bytes(&hint);
        let signature = Bytes::<64>::read(alloc, input)?;
        Ok(DecoratedSignature { hint, signature })
    }

    fn write_parts(&self, out: &mut Out) -> Result<(), NoMemory> {
        out.put_fixed(&self.hint)?;
        self.signature.write(out)
    }

    fn size(&self) -> u64 {
        self.signature.size().saturating_add(4)
    }

    ghost lawful = { signature_lawful };
}
