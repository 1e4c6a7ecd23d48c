//! The result of an envelope, by the outcome of its transaction.

ghost use Rattle.std.specs.Prelude.{◌≡◌, pos, IfOk};
ghost use Rattle.value_types.specs.Hash.{hash_format};
ghost use Rattle.tx_xdr.specs.Envelope.{envelope_format};
ghost use Rattle.tx_results.specs.Results.{outcome_format, envelope_outcome_format, pair_format};
ghost use Rattle.apply_spec.specs.Enforced.{is_success as is_success_in, fee_bump_outcome as fee_bump_outcome_in};
ghost use Rattle.apply_spec.specs.Enforced.{envelope_outcome as envelope_outcome_in, result_pair as result_pair_in};

use std::alloc::Global;
use tx_results::{
    EnvelopeOutcome, InnerTransactionResult, InnerTransactionResultPair, TransactionOutcome,
    TransactionResult, TransactionResultPair,
};
use tx_xdr::{Envelope, envelope_hash, tx_hash};
use value_types::Hash;
use xdr_core::NoMemory;

fn is_success(outcome: &TransactionOutcome) -> bool
    ensures { result ≡ is_success_in outcome.now }
{
    matches!(outcome, TransactionOutcome::Success(_))
}

/// Returns the outcome of a fee bump. `hash` is that of its inner transaction.
fn fee_bump_outcome(hash: Hash, outcome: TransactionOutcome) -> EnvelopeOutcome
    requires hash { hash_format.fits hash }
    requires outcome { outcome_format.fits outcome }
    ensures value { result ≡ fee_bump_outcome_in outcome
        (record { hash = hash; result = record { fee_charged = pos 0; outcome = outcome } }) }
    ensures fits { envelope_outcome_format.fits result }
{
    let succeeded = is_success(&outcome);
    let inner = InnerTransactionResultPair {
        hash,
        result: InnerTransactionResult {
            fee_charged: 0,
            outcome,
        },
    };
    if succeeded {
        EnvelopeOutcome::FeeBumpInnerSuccess(inner)
    } else {
        EnvelopeOutcome::FeeBumpInnerFailed(inner)
    }
}

/// Returns the outcome of an envelope by that of its transaction.
fn envelope_outcome(
    alloc: Global,
    network: &Hash,
    envelope: &Envelope,
    outcome: TransactionOutcome,
) -> Result<EnvelopeOutcome, NoMemory>
    requires envelope { envelope_format.fits envelope.now }
    requires outcome { outcome_format.fits outcome }
    ensures value { IfOk result (λ o. o ≡ envelope_outcome_in network.now envelope.now outcome) }
    ensures fits { IfOk result envelope_outcome_format.fits }
{
    match envelope {
        Envelope::Transaction(_) => Ok(EnvelopeOutcome::Transaction(outcome)),
        Envelope::FeeBump(_) => {
            let hash = tx_hash(alloc, network, envelope.transaction())?;
            Ok(fee_bump_outcome(hash, outcome))
        }
    }
}

/// Returns the hash of an envelope with the outcome of its transaction. No fee is charged.
pub fn result_pair(
    alloc: Global,
    network: &Hash,
    envelope: &Envelope,
    outcome: TransactionOutcome,
) -> Result<TransactionResultPair, NoMemory>
    requires envelope { envelope_format.fits envelope.now }
    requires outcome { outcome_format.fits outcome }
    ensures value { IfOk result (λ pair. pair ≡ result_pair_in network.now envelope.now outcome) }
    ensures fits { IfOk result pair_format.fits }
{
    let outcome = envelope_outcome(alloc, network, envelope, outcome)?;
    let hash = envelope_hash(alloc, network, envelope)?;
    Ok(TransactionResultPair {
        hash,
        result: TransactionResult {
            fee_charged: 0,
            outcome,
        },
    })
}
