//! The outcome of a host function that succeeded.

ghost use Rattle.std.specs.Prelude.{◌≡◌, All, IfOk};
ghost use Rattle.sha2.specs.Sha256.{sha256};
ghost use Rattle.value_types.specs.Hash.{hash_of, hash_format};
ghost use Rattle.invoke_types.specs.Success.{success_format};
ghost use Rattle.ledger_types.specs.Key.{key_format};
ghost use Rattle.ledger_spec.specs.LedgerMap.{LedgerMap};
ghost use Rattle.contract_storage.specs.Differences.{AreDifferences};
ghost use Rattle.tx_steps.specs.Changed.{CanStand};
ghost use Rattle.tx_steps.specs.CallResults.{successful_with};
ghost use Rattle.tx_steps.specs.Outcomes.{ended_of_call};
ghost use Rattle.tx_steps.specs.Effects.{ended_of, CanEnd};

use crate::changes::{by_key, changes_at, extensions_at};
use crate::results::{TransactionDone, one_result};
use budget_meter::Used;
use contract_storage::Watch;
use entry_lookup::Ground;
use invoke_types::SuccessPreimage;
use sha2::{Digest, Sha256};
use std::alloc::Global;
use tx_results::{InnerResult, InvokeResult, OperationResult, TransactionOutcome};
use tx_xdr::Footprint;
use value_types::{Hash, Items};
use value_xdr::encode;
use xdr_core::NoMemory;

#[tactic(auto, unfolding(value_types::specs::Hash::hash_format))]
fn sha256_of(bytes: &[u8]) -> Hash
    ensures value { result ≡ hash_of (sha256 bytes.now) }
    ensures fits { hash_format.fits result }
{
    let digest = Sha256::digest(bytes);
    Hash(digest)
}

/// The SHA-256 of a success preimage.
fn success_hash(alloc: Global, success: &SuccessPreimage) -> Result<Hash, NoMemory>
    requires { success_format.fits success.now }
    ensures value { IfOk result (λ hash. hash ≡ hash_of (sha256 (success_format.spell success.now))) }
    ensures fits { IfOk result hash_format.fits }
{
    let bytes = encode(alloc, success)?;
    Ok(sha256_of(&bytes))
}

/// Returns the outcome of a transaction whose host function succeeded. `changes` are what its run changed over the ground. The
/// outcome has a change for each read-write key, and an extension for each read-only key whose entry lives longer after the run.
pub fn succeeded<G: Ground, W: Watch>(
    alloc: Global,
    ground: &G,
    footprint: &Footprint,
    changes: &[contract_storage::Change],
    success: SuccessPreimage,
    used: Used,
    watch: W,
) -> Result<TransactionDone<W>, NoMemory>
    requires read_only { All (λ key. key_format.fits key) footprint.now.read_only }
    requires read_write { All (λ key. key_format.fits key) footprint.now.read_write }
    requires changes { All CanStand changes.now }
    requires success { success_format.fits success }
    ensures done { IfOk result (λ done. (new : LedgerMap) → AreDifferences (G.map ground.now) new changes.now
        → ended_of done ≡ ended_of_call (G.map ground.now) footprint.now (successful_with success new used)) }
    ensures can { IfOk result (λ done. CanEnd (ended_of done)) }
    ensures watch { IfOk result (λ done. done.watch ≡ watch) }
{
    let hash = success_hash(alloc, &success)?;
    let changed = by_key(alloc, changes)?;
    let changes = changes_at(alloc, ground, &changed, footprint.read_write.as_slice())?;
    let extensions = extensions_at(alloc, ground, &changed, footprint.read_only.as_slice())?;
    let only = OperationResult::Inner(InnerResult::Invoke(InvokeResult::Success(hash)));
    let results = one_result(alloc, only)?;
    Ok(TransactionDone {
        outcome: TransactionOutcome::Success(results),
        success: Some(success),
        changes: Items::from_vec(changes),
        extensions: Items::from_vec(extensions),
        used,
        watch,
    })
}
