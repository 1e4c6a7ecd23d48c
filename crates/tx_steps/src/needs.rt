//! The footprint that a transaction needs, if it runs no host function.

ghost use Rattle.std.specs.Prelude.{◌≡◌, false, true, None, IfSome};
ghost use Rattle.tx_xdr.specs.Soroban.{footprint_format};
ghost use Rattle.apply_spec.specs.Checks.{footprint_of};
ghost use Rattle.apply_spec.specs.Recorded.{no_footprint};
ghost use Rattle.apply_spec.specs.Simulated.{needs_nothing, acts_on_footprint, keeps_footprint};
ghost use Rattle.tx_steps.specs.Needed.{needs_in};

use crate::results::nothing_used;
use budget_meter::Used;
use std::alloc::Global;
use tx_xdr::{Footprint, Operation, OperationBody, Transaction, TransactionExt};

/// The footprint that a transaction needs, and the sums of the run that needs it.
#[derive(Drop)]
pub struct Needs {
    pub footprint: Footprint,
    pub used: Used,
}

/// Returns the needs of a run that accesses no key.
pub fn no_keys(alloc: Global, used: Used) -> Needs
    ensures needs { needs_in result ≡ record { footprint = no_footprint; used = used } }
    ensures fits { footprint_format.fits result.footprint }
{
    Needs {
        footprint: Footprint::empty(alloc),
        used,
    }
}

/// Returns the needs of a transaction that runs nothing.
pub fn no_needs(alloc: Global) -> Needs
    ensures needs { needs_in result ≡ needs_nothing }
    ensures fits { footprint_format.fits result.footprint }
{
    no_keys(alloc, nothing_used())
}

fn acts_on_footprint(operation: &Operation) -> bool
    ensures { result ≡ acts_on_footprint operation.now.body }
{
    match operation.body {
        OperationBody::InvokeHostFunction { .. } => false,
        OperationBody::ExtendFootprintTtl { .. } | OperationBody::RestoreFootprint => true,
    }
}

/// Returns the footprint of a transaction that acts on the footprint that it declares, or `None` if the transaction does not.
pub fn kept_footprint(tx: &Transaction) -> Option<&Footprint>
    ensures kept { IfSome result (λ f. (f.now ≡ footprint_of tx.now) × (keeps_footprint tx.now ≡ true)) }
    ensures other { result ≡ None → keeps_footprint tx.now ≡ false }
{
    let TransactionExt::Soroban(resources) = &tx.ext else {
        return None;
    };
    match tx.operations.as_slice() {
        [operation] if acts_on_footprint(operation) => Some(&resources.footprint),
        _ => None,
    }
}
