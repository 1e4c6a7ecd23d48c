//! Runs a stage by a schedule.

ghost use Rattle.std.specs.Prelude.{◌≡◌, ◌++◌, List, All, IfOk, OnOk, IsTrue};
ghost use Rattle.ledger_spec.specs.LedgerFile.{are_settings, has_next};
ghost use Rattle.stage_runs.specs.Orders.{interleaved, collected};
ghost use Rattle.stage_runs.specs.Runs.{RunState, clusters_in as clusters_of_stage, ended};
ghost use Rattle.stage_runs.specs.Sets.{run_scheduled};
ghost use Rattle.apply_spec.specs.Enforced.{enforced};
ghost use Rattle.set_steps.specs.State.{between, pending_of, reports_of, IsKeyed};
ghost use Rattle.set_steps.specs.Stages.{stage_of, IsSpelled};
ghost use Rattle.schedule_runs.specs.Stopped.{IsAt, left_by};

use crate::lane::lanes_of;
use crate::order::{close, run_order};
use ledger_file::Ledger;
use ledger_types::{Header, Verdicts};
use set_steps::{ClusterDone, Reports, SetStage, end_stage};
use std::alloc::Global;
use xdr_core::NoMemory;

/// Runs the transactions of a stage in an order, and returns what its clusters leave beside the entries.
fn run_in_order(
    alloc: Global,
    ledger: &mut Ledger,
    header: &Header,
    verdicts: &Verdicts,
    stage: SetStage<'_>,
    order: &[u32],
) -> Result<Vec<ClusterDone>, NoMemory>
    requires fits { IsSpelled stage }
    requires settings { IsTrue (are_settings header.now.settings) }
    requires next { IsTrue (has_next header.now) }
    ensures run { IfOk result (λ done. left_by ledger.new.entries done.items ≡ collected
        (interleaved (enforced header.now verdicts.now) ledger.old.entries
        (clusters_of_stage (stage_of stage.entry)) order.now)) }
    ensures keyed { IfOk result (λ done. All IsKeyed done.items) }
{
    let mut lanes = lanes_of(alloc, stage)?;
    run_order(alloc, ledger, header, verdicts, &mut lanes, order)?;
    close(alloc, lanes)
}

/// Runs a stage in an order, and ends it.
pub fn run_whole(
    alloc: Global,
    ledger: &mut Ledger,
    header: &Header,
    verdicts: &Verdicts,
    reports: &mut Reports,
    stage: SetStage<'_>,
    order: &[u32],
) -> Result<(), NoMemory>
    requires fits { IsSpelled stage }
    requires settings { IsTrue (are_settings header.now.settings) }
    requires next { IsTrue (has_next header.now) }
    ensures run { OnOk result (between ledger.new.entries reports.new ≡ ended (run_scheduled (enforced header.now verdicts.now)
        (between ledger.old.entries reports.old) (clusters_of_stage (stage_of stage.entry)) order.now)) }
{
    let done = run_in_order(alloc, ledger, header, verdicts, stage, order)?;
    end_stage(&mut ledger.entries, reports, done)
}

/// Adds the reports of clusters, in the order of the clusters.
fn add_reports(reports: &mut Reports, done: Vec<ClusterDone>) -> Result<(), NoMemory>
    ensures { OnOk result (reports.new ≡ reports.old ++ reports_of done.items) }
{
    for one in done {
        reports.append(one.reports)?;
    }
    Ok(())
}

/// Runs the first transactions of a stage in an order. The stage does not end, so no pending extension is put in.
pub fn run_part(
    alloc: Global,
    ledger: &mut Ledger,
    header: &Header,
    verdicts: &Verdicts,
    reports: &mut Reports,
    stage: SetStage<'_>,
    order: &[u32],
) -> Result<(), NoMemory>
    requires fits { IsSpelled stage }
    requires settings { IsTrue (are_settings header.now.settings) }
    requires next { IsTrue (has_next header.now) }
    ensures run { OnOk result (IsAt ledger.new.entries reports.new (run_scheduled (enforced header.now verdicts.now)
        (between ledger.old.entries reports.old) (clusters_of_stage (stage_of stage.entry)) order.now)) }
{
    let done = run_in_order(alloc, ledger, header, verdicts, stage, order)?;
    add_reports(reports, done)
}
