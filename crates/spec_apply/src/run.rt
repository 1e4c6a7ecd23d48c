//! The run of a listed envelope.

ghost use Rattle.std.specs.Prelude.{◌≡◌, IfOk, IsTrue};
ghost use Rattle.ledger_spec.specs.LedgerFile.{are_settings, has_next};
ghost use Rattle.tx_xdr.specs.Envelope.{envelope_format};
ghost use Rattle.spec_apply.specs.Runs.{IsRunOn, IsRunSpelled};

use crate::naming::named;
use code_cache::Cache;
use entry_lookup::Ground;
use ledger_apply::{TxDone, simulate_with};
use ledger_types::{Header, Verdicts};
use std::alloc::Global;
use tx_xdr::{Envelope, Footprint};
use xdr_core::NoMemory;

/// The run of a listed envelope: its effect, with the hashes of the envelope as it was listed, and the footprint that the run
/// needs.
#[derive(Drop)]
pub(crate) struct Run {
    pub done: TxDone,
    pub footprint: Footprint,
}

/// Runs a listed envelope over the entries of a ledger, with the footprint that its run needs. The declared footprint of a call
/// is not read. `codes` keeps each code that it loads for later runs. The result does not depend on `codes`.
pub(crate) fn run_over<G: Ground>(
    alloc: Global,
    ground: &G,
    header: &Header,
    verdicts: &Verdicts,
    envelope: &Envelope,
    codes: Option<&Cache<'_>>,
) -> Result<Run, NoMemory>
    requires fits { envelope_format.fits envelope.now }
    requires settings { IsTrue (are_settings header.now.settings) }
    requires next { IsTrue (has_next header.now) }
    ensures run { IfOk result (IsRunOn header.now verdicts.now (G.map ground.now) envelope.now) }
    ensures spelled { IfOk result IsRunSpelled }
{
    let simulated = simulate_with(alloc, ground, header, verdicts, envelope, codes)?;
    let done = simulated.done;
    let result = named(alloc, &header.network_id, envelope, done.result)?;
    Ok(Run {
        done: TxDone {
            result,
            success: done.success,
            changes: done.changes,
            extensions: done.extensions,
            used: done.used,
        },
        footprint: simulated.footprint,
    })
}
