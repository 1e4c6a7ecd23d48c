//! Runs one transaction: its checks, then its operation.

ghost use Rattle.std.specs.Prelude.{◌≡◌, [], All, IfOk, IsTrue};
ghost use Rattle.auth_types.specs.AuthEntry.{auth_entry_format};
ghost use Rattle.ledger_types.specs.Key.{key_format};
ghost use Rattle.ledger_spec.specs.LedgerFile.{are_settings, has_next};
ghost use Rattle.invoke_types.specs.HostFunction.{host_function_format};
ghost use Rattle.tx_xdr.specs.Operation.{body_format};
ghost use Rattle.tx_xdr.specs.Transaction.{transaction_format};
ghost use Rattle.stage_runs.specs.Transactions.{footprint_in};
ghost use Rattle.apply_spec.specs.Checks.{footprint_of};
ghost use Rattle.tx_apply.specs.Authorities.{authority_in};
ghost use Rattle.tx_apply.specs.Performed.{ended, called, performed};
ghost use Rattle.tx_steps.specs.Effects.{ended_of, CanEnd};
ghost use Rattle.tx_apply.specs.Watching.{HasSeen, called_accesses, body_accesses, accesses_of};

use crate::authority::{Authority, authority_of};
use crate::call::call;
use code_cache::Cache;
use contract_storage::Watch;
use entry_lookup::Ground;
use invoke_types::HostFunction;
use ledger_types::{Header, Verdicts};
use std::alloc::Global;
use tx_results::{OperationResult, TransactionOutcome};
use tx_steps::{TransactionDone, extend_footprint, failed, refusal_of, without_effect};
use tx_xdr::{Operation, OperationBody, Transaction, TransactionExt};
use xdr_core::NoMemory;

/// Runs INVOKE_HOST_FUNCTION with the resources that the transaction declares.
fn call_with<G: Ground, W: Watch>(
    alloc: Global,
    ground: &G,
    header: &Header,
    authority: &Authority<'_>,
    ext: &TransactionExt,
    function: &HostFunction,
    codes: Option<&Cache<'_>>,
    watch: W,
) -> Result<TransactionDone<W>, NoMemory>
    requires function { host_function_format.fits function.now }
    requires entries { All auth_entry_format.fits authority.now.entries.now }
    requires read_only { All (λ key. key_format.fits key) (footprint_in ext.now).read_only }
    requires read_write { All (λ key. key_format.fits key) (footprint_in ext.now).read_write }
    requires settings { IsTrue (are_settings header.now.settings) }
    requires next { IsTrue (has_next header.now) }
    requires fresh { HasSeen (W.seen watch) [] }
    ensures done { IfOk result (λ done. ended_of done
        ≡ called header.now (authority_in authority.now) (G.map ground.now) ext.now function.now) }
    ensures can { IfOk result (λ done. CanEnd (ended_of done)) }
    ensures seen { IfOk result (λ done. HasSeen (W.seen done.watch)
        (called_accesses header.now (authority_in authority.now) (G.map ground.now) ext.now function.now)) }
{
    match ext {
        // The checks reject a transaction without Soroban data.
        TransactionExt::None => Ok(without_effect(alloc, TransactionOutcome::Malformed, watch)),
        TransactionExt::Soroban(resources) => {
            call(
                alloc, ground, header, resources, authority, function, codes, watch,
            )
        }
    }
}

/// Runs the only operation of a transaction that passed its checks.
fn perform<G: Ground, W: Watch>(
    alloc: Global,
    ground: &G,
    header: &Header,
    verdicts: &Verdicts,
    tx: &Transaction,
    operation: &Operation,
    codes: Option<&Cache<'_>>,
    watch: W,
) -> Result<TransactionDone<W>, NoMemory>
    requires body { body_format.fits operation.now.body }
    requires read_only { All (λ key. key_format.fits key) (footprint_of tx.now).read_only }
    requires read_write { All (λ key. key_format.fits key) (footprint_of tx.now).read_write }
    requires settings { IsTrue (are_settings header.now.settings) }
    requires next { IsTrue (has_next header.now) }
    requires fresh { HasSeen (W.seen watch) [] }
    ensures done { IfOk result (λ done. ended_of done
        ≡ performed header.now verdicts.now (G.map ground.now) tx.now operation.now.source operation.now.body) }
    ensures can { IfOk result (λ done. CanEnd (ended_of done)) }
    ensures seen { IfOk result (λ done. HasSeen (W.seen done.watch)
        (body_accesses header.now verdicts.now (G.map ground.now) tx.now operation.now.source operation.now.body)) }
{
    match &operation.body {
        OperationBody::ExtendFootprintTtl { extend_to } => {
            extend_footprint(alloc, ground, header, tx, *extend_to, watch)
        }
        OperationBody::RestoreFootprint => failed(alloc, OperationResult::NotSupported, watch),
        OperationBody::InvokeHostFunction {
            host_function,
            auth,
        } => {
            let authority = authority_of(verdicts, tx, operation.source, auth.as_slice());
            call_with(
                alloc,
                ground,
                header,
                &authority,
                &tx.ext,
                host_function,
                codes,
                watch,
            )
        }
    }
}

/// Checks and runs a transaction over the entries of a ledger.
pub fn run_transaction<G: Ground, W: Watch>(
    alloc: Global,
    ground: &G,
    header: &Header,
    verdicts: &Verdicts,
    tx: &Transaction,
    codes: Option<&Cache<'_>>,
    watch: W,
) -> Result<TransactionDone<W>, NoMemory>
    requires fits { transaction_format.fits tx.now }
    requires settings { IsTrue (are_settings header.now.settings) }
    requires next { IsTrue (has_next header.now) }
    requires fresh { HasSeen (W.seen watch) [] }
    ensures done { IfOk result (λ done. ended_of done ≡ ended header.now verdicts.now (G.map ground.now) tx.now) }
    ensures can { IfOk result (λ done. CanEnd (ended_of done)) }
    ensures seen { IfOk result (λ done. HasSeen (W.seen done.watch)
        (accesses_of header.now verdicts.now (G.map ground.now) tx.now)) }
{
    if let Some(outcome) = refusal_of(alloc, header, tx)? {
        return Ok(without_effect(alloc, outcome, watch));
    }
    match tx.operations.as_slice() {
        [] => Ok(without_effect(alloc, TransactionOutcome::MissingOperation, watch)),
        [operation, ..] => perform(alloc, ground, header, verdicts, tx, operation, codes, watch),
    }
}
