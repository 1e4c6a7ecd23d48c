//! Puts another footprint into an envelope.

ghost use Rattle.std.specs.Prelude.{◌≡◌};
ghost use Rattle.tx_xdr.specs.Envelope.{envelope_format};
ghost use Rattle.tx_xdr.specs.Soroban.{footprint_format};
ghost use Rattle.apply_spec.specs.Simulated.{tx_with, with_footprint as with_footprint_in};

use tx_xdr::{Envelope, Footprint, Transaction, TransactionExt};

/// Puts a footprint into a transaction that has Soroban data.
fn set_footprint(tx: &mut Transaction, footprint: Footprint)
    ensures { tx.new ≡ tx_with footprint tx.old }
{
    if let TransactionExt::Soroban(resources) = &mut tx.ext {
        resources.footprint = footprint;
    }
}

/// Puts a footprint into the transaction of an envelope, of a fee bump into the inner one.
#[tactic(auto, using(crate::proofs::Footprints::envelope_fits))]
pub fn with_footprint(mut envelope: Envelope, footprint: Footprint) -> Envelope
    requires envelope { envelope_format.fits envelope }
    requires footprint { footprint_format.fits footprint }
    ensures with { result ≡ with_footprint_in footprint envelope }
    ensures fits { envelope_format.fits result }
{
    match &mut envelope {
        Envelope::Transaction(signed) => set_footprint(&mut signed.tx, footprint),
        Envelope::FeeBump(signed) => set_footprint(&mut signed.fee_bump.inner.tx, footprint),
    }
    envelope
}
