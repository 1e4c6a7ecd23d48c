//! Finds the footprint that a transaction needs.

ghost use Rattle.std.specs.Prelude.{◌≡◌, All, None, IfOk, IsTrue};
ghost use Rattle.auth_types.specs.AuthEntry.{auth_entry_format};
ghost use Rattle.ledger_spec.specs.LedgerFile.{are_settings, has_next};
ghost use Rattle.invoke_types.specs.HostFunction.{host_function_format};
ghost use Rattle.tx_xdr.specs.Operation.{body_format};
ghost use Rattle.tx_xdr.specs.Soroban.{footprint_format};
ghost use Rattle.tx_xdr.specs.Transaction.{transaction_format};
ghost use Rattle.call_spec.specs.WholeRuns.{work_of};
ghost use Rattle.apply_spec.specs.Simulated.{work_needs, body_needs, needs};
ghost use Rattle.tx_apply.specs.Authorities.{authority_in};
ghost use Rattle.tx_steps.specs.Needed.{needs_in};

use crate::authority::{Authority, authority_of};
use crate::recording::record;
use code_cache::Cache;
use entry_lookup::Ground;
use invoke_types::HostFunction;
use ledger_types::{Header, Verdicts};
use std::alloc::Global;
use tx_steps::{Needs, form_refusal, job_of, kept_footprint, no_needs, nothing_used};
use tx_xdr::{Operation, OperationBody, Transaction, TransactionExt};
use xdr_core::NoMemory;

/// The needs of INVOKE_HOST_FUNCTION. A malformed call runs nothing.
fn call_needs<G: Ground>(
    alloc: Global,
    ground: &G,
    header: &Header,
    instructions: u32,
    authority: &Authority<'_>,
    function: &HostFunction,
    codes: Option<&Cache<'_>>,
) -> Result<Needs, NoMemory>
    requires function { host_function_format.fits function.now }
    requires entries { All auth_entry_format.fits authority.now.entries.now }
    requires settings { IsTrue (are_settings header.now.settings) }
    requires next { IsTrue (has_next header.now) }
    ensures needs { IfOk result (λ n. needs_in n
        ≡ work_needs header.now (authority_in authority.now) instructions (G.map ground.now) (work_of function.now)) }
    ensures fits { IfOk result (λ n. footprint_format.fits n.footprint) }
{
    match job_of(function) {
        None => Ok(no_needs(alloc)),
        Some(job) => record(alloc, ground, header, instructions, authority, &job, codes),
    }
}

/// The needs of the only operation of a transaction that passed its checks.
fn operation_needs<G: Ground>(
    alloc: Global,
    ground: &G,
    header: &Header,
    verdicts: &Verdicts,
    tx: &Transaction,
    operation: &Operation,
    codes: Option<&Cache<'_>>,
) -> Result<Needs, NoMemory>
    requires body { body_format.fits operation.now.body }
    requires settings { IsTrue (are_settings header.now.settings) }
    requires next { IsTrue (has_next header.now) }
    ensures needs { IfOk result (λ n. needs_in n
        ≡ body_needs header.now verdicts.now (G.map ground.now) tx.now tx.now.ext operation.now.source operation.now.body) }
    ensures fits { IfOk result (λ n. footprint_format.fits n.footprint) }
{
    let TransactionExt::Soroban(resources) = &tx.ext else {
        return Ok(no_needs(alloc));
    };
    let OperationBody::InvokeHostFunction {
        host_function,
        auth,
    } = &operation.body
    else {
        return Ok(no_needs(alloc));
    };
    let authority = authority_of(verdicts, tx, operation.source, auth.as_slice());
    call_needs(
        alloc,
        ground,
        header,
        resources.instructions,
        &authority,
        host_function,
        codes,
    )
}

/// Finds the footprint that a transaction needs over the entries of a ledger.
pub(crate) fn needed<G: Ground>(
    alloc: Global,
    ground: &G,
    header: &Header,
    verdicts: &Verdicts,
    tx: &Transaction,
    codes: Option<&Cache<'_>>,
) -> Result<Needs, NoMemory>
    requires fits { transaction_format.fits tx.now }
    requires settings { IsTrue (are_settings header.now.settings) }
    requires next { IsTrue (has_next header.now) }
    ensures needs { IfOk result (λ n. needs_in n ≡ needs header.now verdicts.now (G.map ground.now) tx.now) }
    ensures fits { IfOk result (λ n. footprint_format.fits n.footprint) }
{
    if let Some(footprint) = kept_footprint(tx) {
        return Ok(Needs {
            footprint: footprint.clone()?,
            used: nothing_used(),
        });
    }
    if form_refusal(header, tx).is_some() {
        return Ok(no_needs(alloc));
    }
    match tx.operations.as_slice() {
        [] => Ok(no_needs(alloc)),
        [operation, ..] => operation_needs(alloc, ground, header, verdicts, tx, operation, codes),
    }
}
