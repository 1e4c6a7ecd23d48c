//! The codec of envelopes.

ghost use Rattle.std.specs.Prelude.{IfOk};
ghost use Rattle.xdr_core.specs.Reads.{Reads};
ghost use Rattle.tx_xdr.specs.Envelope.{signed_format, signed_lawful, fee_bump_format, fee_bump_lawful, signed_fee_bump_format};
ghost use Rattle.tx_xdr.specs.Envelope.{signed_fee_bump_lawful, type_format, type_lawful, arms, envelope_format, envelope_lawful};

use crate::envelope::{Envelope, EnvelopeType, FeeBump, SignedFeeBump, SignedTransaction};
use crate::numbers::{ENVELOPE_TYPE_TX, NO_EXT};
use crate::transaction::Transaction;
use std::alloc::Global;
use tx_parts::{DecoratedSignature, MuxedAccount};
use value_types::Items;
use value_xdr::{Xdr, named, read_head};
use xdr_core::{NoMemory, Out, ReadXdr, Words, add_sizes};

#[tactic(auto, unfolding(crate::specs::Envelope::signed_format, xdr_core::specs::Sizes::capped))]
impl Xdr for SignedTransaction {
    ghost format = { signed_format };

    fn read_parts<W: Words>(alloc: Global, input: &mut W) -> Result<SignedTransaction, ReadXdr> {
        let tx = Transaction::read(alloc, input)?;
        let signatures = Items::<DecoratedSignature, 20>::read(alloc, input)?;
        Ok(SignedTransaction { tx, signatures })
    }

    fn write_parts(&self, out: &mut Out) -> Result<(), NoMemory> {
        self.tx.write(out)?;
        self.signatures.write(out)
    }

    fn size(&self) -> u64 {
        add_sizes(self.tx.size(), self.signatures.size())
    }

    ghost lawful = { signed_lawful };
}

#[tactic(auto, unfolding(crate::specs::Envelope::fee_bump_format))]
impl Xdr for FeeBump {
    ghost format = { fee_bump_format };

    fn read_parts<W: Words>(alloc: Global, input: &mut W) -> Result<FeeBump, ReadXdr> {
        let fee_source = MuxedAccount::read(alloc, input)?;
        let fee = i64::read(alloc, input)?;
        read_head(input, ENVELOPE_TYPE_TX)?;
        let inner = SignedTransaction::read(alloc, input)?;
        read_head(input, NO_EXT)?;
        Ok(FeeBump {
            fee_source,
            fee,
            inner,
        })
    }

    fn write_parts(&self, out: &mut Out) -> Result<(), NoMemory> {
        self.fee_source.write(out)?;
        self.fee.write(out)?;
        out.put_u32(ENVELOPE_TYPE_TX)?;
        self.inner.write(out)?;
        out.put_u32(NO_EXT)
    }

    #[tactic(auto, unfolding(crate::specs::Envelope::fee_bump_format, xdr_spec::specs::Format::signed64, xdr_core::specs::Sizes::capped))]
    fn size(&self) -> u64 {
        // The fee of 8 bytes, the inner envelope's type and the extension point of 4 each.
        add_sizes(self.fee_source.size(), self.inner.size()).saturating_add(16)
    }

    ghost lawful = { fee_bump_lawful };
}

#[tactic(auto, unfolding(crate::specs::Envelope::signed_fee_bump_format, xdr_core::specs::Sizes::capped))]
impl Xdr for SignedFeeBump {
    ghost format = { signed_fee_bump_format };

    fn read_parts<W: Words>(alloc: Global, input: &mut W) -> Result<SignedFeeBump, ReadXdr> {
        let fee_bump = FeeBump::read(alloc, input)?;
        let signatures = Items::<DecoratedSignature, 20>::read(alloc, input)?;
        Ok(SignedFeeBump {
            fee_bump,
            signatures,
        })
    }

    fn write_parts(&self, out: &mut Out) -> Result<(), NoMemory> {
        self.fee_bump.write(out)?;
        self.signatures.write(out)
    }

    fn size(&self) -> u64 {
        add_sizes(self.fee_bump.size(), self.signatures.size())
    }

    ghost lawful = { signed_fee_bump_lawful };
}

#[tactic(auto, unfolding(crate::specs::Envelope::type_format, xdr_core::specs::Sizes::capped))]
impl Xdr for EnvelopeType {
    ghost format = { type_format };

    fn read_parts<W: Words>(_alloc: Global, input: &mut W) -> Result<EnvelopeType, ReadXdr> {
        let place = input.place();
        named(EnvelopeType::from_number(input.u32()?), place)
    }

    fn write_parts(&self, out: &mut Out) -> Result<(), NoMemory> {
        out.put_u32(self.number())
    }

    fn size(&self) -> u64 {
        4
    }

    ghost lawful = { type_lawful };
}

#[tactic(auto, unfolding(crate::specs::Envelope::envelope_format))]
fn read_arm<W: Words>(alloc: Global, input: &mut W, kind: EnvelopeType) -> Result<Envelope, ReadXdr>
    ensures value { Reads (arms kind).read (W.seen input.old) (W.seen input.new) result }
    ensures fits { IfOk result envelope_format.fits }
{
    match kind {
        EnvelopeType::Transaction => Ok(Envelope::Transaction(SignedTransaction::read(
            alloc, input,
        )?)),
        EnvelopeType::FeeBump => { Ok(Envelope::FeeBump(SignedFeeBump::read(alloc, input)?)) }
    }
}

#[tactic(auto, unfolding(crate::specs::Envelope::envelope_format, crate::specs::Envelope::type_format, xdr_core::specs::Sizes::capped))]
impl Xdr for Envelope {
    ghost format = { envelope_format };

    fn read_parts<W: Words>(alloc: Global, input: &mut W) -> Result<Envelope, ReadXdr> {
        let kind = EnvelopeType::read(alloc, input)?;
        read_arm(alloc, input, kind)
    }

    fn write_parts(&self, out: &mut Out) -> Result<(), NoMemory> {
        self.kind().write(out)?;
        match self {
            Envelope::Transaction(signed) => signed.write(out),
            Envelope::FeeBump(signed) => signed.write(out),
        }
    }

    fn size(&self) -> u64 {
        let body = match self {
            Envelope::Transaction(signed) => signed.size(),
            Envelope::FeeBump(signed) => signed.size(),
        };
        add_sizes(self.kind().size(), body)
    }

    ghost lawful = { envelope_lawful };
}
