//! Results with the hashes of the envelopes of a list.

ghost use Rattle.std.specs.Prelude.{◌≡◌, IfOk};
ghost use Rattle.tx_results.specs.Results.{outcome_in, envelope_outcome_format, inner_pair_format, pair_format};
ghost use Rattle.tx_xdr.specs.Envelope.{envelope_format, transaction_in};
ghost use Rattle.tx_xdr.specs.Hashes.{transaction_hash};
ghost use Rattle.apply_spec.specs.Enforced.{result_pair};
ghost use Rattle.spec_apply.specs.Naming.{outcome_with, inner_with, IsResultOf};

use std::alloc::Global;
use tx_results::{
    EnvelopeOutcome, InnerTransactionResultPair, TransactionResult, TransactionResultPair,
};
use tx_xdr::{Envelope, envelope_hash, tx_hash};
use value_types::Hash;
use xdr_core::NoMemory;

/// Returns the result of a fee bump's inner transaction with the hash of that in an envelope.
fn inner_named(
    alloc: Global,
    network: &Hash,
    envelope: &Envelope,
    inner: InnerTransactionResultPair,
) -> Result<InnerTransactionResultPair, NoMemory>
    requires envelope { envelope_format.fits envelope.now }
    requires inner { inner_pair_format.fits inner }
    ensures named { IfOk result (λ i. i ≡ inner_with (transaction_hash network.now (transaction_in envelope.now)) inner) }
    ensures fits { IfOk result inner_pair_format.fits }
{
    let hash = tx_hash(alloc, network, envelope.transaction())?;
    Ok(InnerTransactionResultPair {
        hash,
        result: inner.result,
    })
}

/// Returns the outcome of a fee bump with the hash of the inner transaction of an envelope. Other outcomes have no hash.
fn outcome_named(
    alloc: Global,
    network: &Hash,
    envelope: &Envelope,
    outcome: EnvelopeOutcome,
) -> Result<EnvelopeOutcome, NoMemory>
    requires envelope { envelope_format.fits envelope.now }
    requires outcome { envelope_outcome_format.fits outcome }
    ensures named { IfOk result (λ o. o ≡ outcome_with (transaction_hash network.now (transaction_in envelope.now)) outcome) }
    ensures fits { IfOk result envelope_outcome_format.fits }
{
    match outcome {
        EnvelopeOutcome::Transaction(outcome) => Ok(EnvelopeOutcome::Transaction(outcome)),
        EnvelopeOutcome::FeeBumpInnerSuccess(inner) => Ok(EnvelopeOutcome::FeeBumpInnerSuccess(
            inner_named(alloc, network, envelope, inner)?,
        )),
        EnvelopeOutcome::FeeBumpInnerFailed(inner) => Ok(EnvelopeOutcome::FeeBumpInnerFailed(
            inner_named(alloc, network, envelope, inner)?,
        )),
    }
}

/// Returns the result of an envelope with its hashes. `pair` is its result with another footprint, which has other hashes.
pub(crate) fn named(
    alloc: Global,
    network: &Hash,
    envelope: &Envelope,
    pair: TransactionResultPair,
) -> Result<TransactionResultPair, NoMemory>
    requires envelope { envelope_format.fits envelope.now }
    requires fits { pair_format.fits pair }
    requires of { IsResultOf network.now envelope.now pair }
    ensures named { IfOk result (λ p. p ≡ result_pair network.now envelope.now (outcome_in pair.result.outcome)) }
    ensures fits { IfOk result pair_format.fits }
{
    let TransactionResult {
        fee_charged,
        outcome,
    } = pair.result;
    let outcome = outcome_named(alloc, network, envelope, outcome)?;
    let hash = envelope_hash(alloc, network, envelope)?;
    Ok(TransactionResultPair {
        hash,
        result: TransactionResult {
            fee_charged,
            outcome,
        },
    })
}
