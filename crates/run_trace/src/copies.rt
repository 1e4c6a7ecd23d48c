//! What is told, as lines that own it.

ghost use Rattle.std.specs.Prelude.{◌≡◌, IfOk};
ghost use Rattle.run_trace.specs.Endings.{ending_in};
ghost use Rattle.run_trace.specs.declared.line.What.TheVariants.{Called, Accessed, Demanded, Emitted, Ended};

use crate::line::{Ending, Manner, What};
use budget_meter::Used;
use contract_storage::{Access, End, Met, Outcome};
use invoke_types::{ContractEvent, Function};
use ledger_types::LedgerKey;
use std::alloc::{AllocError, Global};
use value_types::{Blob, Items, ScAddress, ScVal};

/// A call that began.
pub(crate) fn called(
    alloc: Global,
    address: ScAddress,
    function: &[u8],
    args: &[ScVal],
) -> Result<What, AllocError>
    ensures { IfOk result (λ what. what ≡ Called address function.now args.now) }
{
    Ok(What::Called {
        address,
        function: Blob::from_vec(function.to_vec(alloc)?),
        args: Items::from_vec(args.to_vec(alloc)?),
    })
}

/// An access that was made.
pub(crate) fn accessed(
    access: Access,
    key: &LedgerKey,
    outcome: Outcome,
) -> Result<What, AllocError>
    ensures { IfOk result (λ what. what ≡ Accessed access key.now outcome) }
{
    Ok(What::Accessed {
        access,
        key: key.clone()?,
        outcome,
    })
}

/// A demand that was made.
pub(crate) fn demanded(
    address: ScAddress,
    function: &Function,
    met: Met,
) -> Result<What, AllocError>
    ensures { IfOk result (λ what. what ≡ Demanded address function.now met) }
{
    Ok(What::Demanded {
        address,
        function: function.clone()?,
        met,
    })
}

/// An event that was emitted.
pub(crate) fn emitted(event: &ContractEvent) -> Result<What, AllocError>
    ensures { IfOk result (λ what. what ≡ Emitted event.now) }
{
    Ok(What::Emitted(event.clone()?))
}

/// How a call ended.
fn ending_of(end: End<'_>) -> Result<Ending, AllocError>
    ensures { IfOk result (λ ending. ending ≡ ending_in end.entry) }
{
    match end {
        End::Value(value) => Ok(Ending::Value(value.clone()?)),
        End::Failed(error) => Ok(Ending::Failed(error)),
        End::Spent => Ok(Ending::Spent),
        End::Undeclared(key) => Ok(Ending::Undeclared(key.clone()?)),
        End::Archived(key) => Ok(Ending::Archived(key.clone()?)),
        End::NoMemory => Ok(Ending::NoMemory),
    }
}

/// A call that ended.
pub(crate) fn ended(end: End<'_>, took: Used, manner: Manner) -> Result<What, AllocError>
    ensures { IfOk result (λ what. what ≡ Ended (ending_in end.entry) took manner) }
{
    Ok(What::Ended {
        ending: ending_of(end)?,
        took,
        manner,
    })
}
