//! The outcomes of transactions, with what they do to the entries of a ledger.

ghost use Rattle.std.specs.Prelude.{◌≡◌, ◌≢◌, ◌∷◌, [], IfOk, IsSomeAnd};
ghost use Rattle.stage_runs.specs.Whole.{nothing_used};
ghost use Rattle.tx_steps.specs.Outcomes.{without_changes as without_changes_in, without_effect as without_effect_in};
ghost use Rattle.tx_steps.specs.Outcomes.{unsuccessful};
ghost use Rattle.tx_steps.specs.Effects.{ended_of};
ghost use Rattle.tx_steps.specs.CallResults.{result_of as result_of_end};

use budget_meter::Used;
use contract_storage::Watch;
use host_spec::HostErr;
use invoke_types::SuccessPreimage;
use stage_runs::{Change, Extension};
use std::alloc::Global;
use tx_results::{InnerResult, InvokeResult, OperationResult, TransactionOutcome};
use value_types::Items;
use xdr_core::NoMemory;

/// The outcome of a transaction and its effect, with the observer of its run.
#[derive(Drop)]
pub struct TransactionDone<W: Watch> {
    pub outcome: TransactionOutcome,
    /// The success preimage of a host function that succeeded.
    pub success: Option<SuccessPreimage>,
    /// At the keys that the transaction declares read-write, in their order.
    pub changes: Items<Change, 4294967295>,
    /// Pending until they are put in.
    pub extensions: Items<Extension, 4294967295>,
    pub used: Used,
    pub watch: W,
}

/// The sums of a transaction that ran nothing.
pub fn nothing_used() -> Used
    ensures { result ≡ nothing_used }
{
    Used {
        instructions: 0,
        memory: 0,
    }
}

fn without_changes<W: Watch>(
    alloc: Global,
    outcome: TransactionOutcome,
    used: Used,
    watch: W,
) -> TransactionDone<W>
    ensures done { ended_of result ≡ without_changes_in outcome used }
    ensures watch { result.watch ≡ watch }
{
    TransactionDone {
        outcome,
        success: None,
        changes: Items::from_vec(Vec::new(alloc)),
        extensions: Items::from_vec(Vec::new(alloc)),
        used,
        watch,
    }
}

/// Returns an outcome without an effect, of a transaction that ran nothing.
pub fn without_effect<W: Watch>(
    alloc: Global,
    outcome: TransactionOutcome,
    watch: W,
) -> TransactionDone<W>
    ensures done { ended_of result ≡ without_effect_in outcome }
    ensures watch { result.watch ≡ watch }
{
    without_changes(alloc, outcome, nothing_used(), watch)
}

/// Returns the results of a transaction with one operation.
pub(crate) fn one_result(
    alloc: Global,
    only: OperationResult,
) -> Result<Items<OperationResult, 4294967295>, NoMemory>
    ensures { IfOk result (λ results. results ≡ only ∷ []) }
{
    let mut results = Vec::new(alloc);
    results.push(only)?;
    Ok(Items::from_vec(results))
}

/// Returns the outcome of a transaction whose only operation failed.
pub fn failed<W: Watch>(
    alloc: Global,
    only: OperationResult,
    watch: W,
) -> Result<TransactionDone<W>, NoMemory>
    ensures done { IfOk result (λ done. ended_of done ≡ without_effect_in (TransactionOutcome.Failed (only ∷ []))) }
    ensures watch { IfOk result (λ done. done.watch ≡ watch) }
{
    let results = one_result(alloc, only)?;
    Ok(without_effect(alloc, TransactionOutcome::Failed(results), watch))
}

/// Returns the outcome of a transaction whose host function did not succeed, with the sums that it used.
pub fn failed_call<W: Watch>(
    alloc: Global,
    result_of_call: InvokeResult,
    used: Used,
    watch: W,
) -> Result<TransactionDone<W>, NoMemory>
    ensures done { IfOk result (λ done. ended_of done ≡ unsuccessful result_of_call used) }
    ensures watch { IfOk result (λ done. done.watch ≡ watch) }
{
    let results = one_result(
        alloc,
        OperationResult::Inner(InnerResult::Invoke(result_of_call)),
    )?;
    Ok(without_changes(alloc, TransactionOutcome::Failed(results), used, watch))
}

/// The result of a host function that ended without a value, or `None` if memory ran out.
fn result_of(end: &HostErr) -> Option<InvokeResult>
    ensures { result ≡ result_of_end end.now }
{
    match end {
        HostErr::Failed(_) | HostErr::Undeclared(_) | HostErr::Archived(_) => {
            Some(InvokeResult::Trapped)
        }
        HostErr::Spent => Some(InvokeResult::ResourceLimitExceeded),
        HostErr::NoMemory => None,
    }
}

/// Returns the outcome of a transaction whose host function ended without a value, with the sums that it used. If the host
/// function ran out of memory, there is none.
pub fn ended<W: Watch>(
    alloc: Global,
    end: &HostErr,
    used: Used,
    watch: W,
) -> Result<TransactionDone<W>, NoMemory>
    ensures done { IfOk result (λ done. IsSomeAnd (result_of_end end.now) (λ r. ended_of done ≡ unsuccessful r used)) }
    ensures watch { IfOk result (λ done. done.watch ≡ watch) }
    ensures memory { IfOk result (λ done. end.now ≢ HostErr.NoMemory) }
{
    match result_of(end) {
        Some(result_of_call) => failed_call(alloc, result_of_call, used, watch),
        None => Err(NoMemory),
    }
}
