//! Runs one cluster.

ghost use Rattle.std.specs.Prelude.{◌≡◌, IfOk, IsTrue};
ghost use Rattle.ledger_spec.specs.LedgerFile.{are_settings, has_next};
ghost use Rattle.stage_runs.specs.Runs.{run_all as run_all_in, run_cluster as run_cluster_in, start};
ghost use Rattle.apply_spec.specs.Enforced.{enforced};
ghost use Rattle.ledger_parts.specs.Notes.{noted_in, shown_note};
ghost use Rattle.ledger_parts.specs.Shown.{shown_step};
ghost use Rattle.set_steps.specs.LoggedLists.{written_sides, AddsLists};
ghost use Rattle.set_steps.specs.State.{running_in, done_in, IsKeyed};
ghost use Rattle.set_steps.specs.Spelled.{AreEnvelopes};

use crate::step::run_next;
use change_log::Changes;
use code_cache::Cache;
use ledger_parts::Entries;
use ledger_types::{Header, Verdicts};
use set_steps::{ClusterDone, ClusterRun, Pending, Reports};
use std::alloc::Global;
use tx_xdr::Envelope;
use xdr_core::NoMemory;

/// Runs transactions of a cluster in their order.
fn run_all<E: Entries>(
    alloc: Global,
    entries: &mut E,
    header: &Header,
    verdicts: &Verdicts,
    running: ClusterRun,
    envelopes: &[Envelope],
    codes: Option<&Cache<'_>>,
    logs: bool,
    log: &mut Vec<Changes>,
) -> Result<ClusterRun, NoMemory>
    requires fits { AreEnvelopes envelopes.now }
    requires settings { IsTrue (are_settings header.now.settings) }
    requires next { IsTrue (has_next header.now) }
    ensures run { IfOk result (λ r. running_in (E.own entries.new) r
        ≡ run_all_in (shown_step (E.shown entries.old) (enforced header.now verdicts.now))
        (running_in (E.own entries.old) running) envelopes.now) }
    ensures shown { IfOk result (λ _. E.shown entries.new ≡ E.shown entries.old) }
    ensures log { IfOk result (λ _. AddsLists logs (noted_in (shown_step (E.shown entries.old)
        (enforced header.now verdicts.now)) (shown_note (E.shown entries.old) written_sides)
        (running_in (E.own entries.old) running) envelopes.now) log.old.items log.new.items) }
{
    let mut running = running;
    for envelope in envelopes {
        running = run_next(
            alloc, entries, header, verdicts, running, envelope, codes, logs, log,
        )?;
    }
    Ok(running)
}

/// Runs a cluster: its transactions in their order, on the entries. It starts without pending extensions.
///
/// `header` is that of the previous ledger, with the close time of the ledger that is being made. A code that `codes` has is
/// loaded where it is first needed, and kept. The result does not depend on `codes`. If `logs` is set, what each transaction
/// changed is added to the log.
pub fn run_cluster<E: Entries>(
    alloc: Global,
    entries: &mut E,
    header: &Header,
    verdicts: &Verdicts,
    envelopes: &[Envelope],
    codes: Option<&Cache<'_>>,
    logs: bool,
    log: &mut Vec<Changes>,
) -> Result<ClusterDone, NoMemory>
    requires fits { AreEnvelopes envelopes.now }
    requires settings { IsTrue (are_settings header.now.settings) }
    requires next { IsTrue (has_next header.now) }
    ensures run { IfOk result (λ d. done_in (E.own entries.new) d
        ≡ run_cluster_in (shown_step (E.shown entries.old) (enforced header.now verdicts.now))
        (E.own entries.old) envelopes.now) }
    ensures keyed { IfOk result IsKeyed }
    ensures shown { IfOk result (λ _. E.shown entries.new ≡ E.shown entries.old) }
    ensures log { IfOk result (λ _. AddsLists logs (noted_in (shown_step (E.shown entries.old)
        (enforced header.now verdicts.now)) (shown_note (E.shown entries.old) written_sides)
        (start (E.own entries.old)) envelopes.now) log.old.items log.new.items) }
{
    let mut reports = Reports::new(alloc);
    reports.reserve(envelopes.len())?;
    let running = ClusterRun {
        pending: Pending::new(alloc),
        reports,
    };
    let ClusterRun { pending, reports } = run_all(
        alloc, entries, header, verdicts, running, envelopes, codes, logs, log,
    )?;
    Ok(ClusterDone {
        pending: pending.into_vec(alloc)?,
        reports,
    })
}
