//! Runs a set by a schedule.

ghost use Rattle.std.specs.Prelude.{◌≡◌, All, IfOk, IfErr, OnOk, IsTrue, None, length, map};
ghost use Rattle.std.specs.List.{AllByRecursion};
ghost use Rattle.xdr_spec.specs.Format.{optional};
ghost use Rattle.invoke_types.specs.Success.{success_format};
ghost use Rattle.ledger_spec.specs.LedgerFile.{are_settings, has_next};
ghost use Rattle.tx_xdr.specs.Set.{set_format};
ghost use Rattle.tx_results.specs.Report.{HavePreimages};
ghost use Rattle.tx_results.specs.Results.{result_set_format};
ghost use Rattle.stage_runs.specs.Runs.{HasNoConflict};
ghost use Rattle.stage_runs.specs.Sets.{stopped};
ghost use Rattle.call_spec.specs.World.{next_seq};
ghost use Rattle.apply_spec.specs.Enforced.{enforced};
ghost use Rattle.apply_spec.specs.Outputs.{results_of, preimages_of};
ghost use Rattle.apply_spec.specs.Runs.{new_header};
ghost use Rattle.set_steps.specs.State.{between};
ghost use Rattle.set_steps.specs.Stages.{clusters_of, IsSpelled};
ghost use Rattle.schedule_runs.specs.Plans.{first_incomplete as first_incomplete_in, planned_of, run_stopped, run_stopped_over};
ghost use Rattle.schedule_runs.specs.Plans.{stages_in};
ghost use Rattle.schedule_runs.specs.Refused.{IsRefused};
ghost use Rattle.schedule_runs.specs.Stopped.{IsAt};

use crate::complete::first_incomplete;
use crate::stage::{run_part, run_whole};
use crate::{Order, SchedErr, Schedule};
use entry_map::EntryMap;
use ledger_apply::Applied;
use ledger_file::Ledger;
use ledger_types::{Header, Verdicts};
use set_steps::{Reports, SetStage, first_in_turn, stages_of};
use std::alloc::Global;
use tx_xdr::TxSet;
use xdr_core::NoMemory;

/// Runs the first steps of stages by their orders, counted over all stages. A stage ends if all its steps run.
fn run_steps(
    alloc: Global,
    ledger: &mut Ledger,
    header: &Header,
    verdicts: &Verdicts,
    reports: &mut Reports,
    stages: &[SetStage<'_>],
    orders: &[Order],
    steps: u64,
) -> Result<(), NoMemory>
    requires fits { All IsSpelled stages.now }
    requires settings { IsTrue (are_settings header.now.settings) }
    requires next { IsTrue (has_next header.now) }
    requires even { length orders.now ≡ length stages.now }
    ensures run { OnOk result (IsAt ledger.new.entries reports.new (stopped (enforced header.now verdicts.now) steps
        (between ledger.old.entries reports.old) (planned_of (clusters_of stages.now) orders.now))) }
{
    let mut left = steps;
    for (index, stage) in stages.iter().enumerate() {
        let order = orders[index].as_slice();
        let length = order.len() as u64;
        if length > left {
            let first = &order[..left as usize];
            return run_part(alloc, ledger, header, verdicts, reports, *stage, first);
        }
        run_whole(alloc, ledger, header, verdicts, reports, *stage, order)?;
        left -= length;
    }
    Ok(())
}

/// The ledger after a run, with its results. `running` is the header of the ledger before, with the close time of the new one. It
/// takes no memory.
fn close_ledger(entries: EntryMap, running: Header, reports: Reports) -> Applied
    requires { IsTrue (has_next running) }
    ensures header { result.ledger.header ≡ record running { seq = next_seq running } }
    ensures entries { result.ledger.entries ≡ entries }
    ensures results { result.results.pairs ≡ map (λ r. r.result) reports }
    ensures successes { result.successes ≡ map (λ r. r.success) reports }
    ensures spelled { result_set_format.fits result.results }
    ensures successes_spelled { All (λ s. (optional success_format).fits s) result.successes }
    ensures each { length result.successes ≡ length result.results.pairs }
    ensures preimages { HavePreimages result.results.pairs result.successes }
{
    let header = Header {
        seq: running.seq + 1,
        ..running
    };
    let (results, successes) = reports.into_parts();
    Applied {
        ledger: Ledger { header, entries },
        results,
        successes,
    }
}

/// Runs the first steps of stages over a ledger, and makes the new ledger's header.
fn run_on(
    alloc: Global,
    ledger: Ledger,
    close_time: u64,
    verdicts: &Verdicts,
    stages: &[SetStage<'_>],
    orders: &[Order],
    steps: u64,
) -> Result<Applied, NoMemory>
    requires fits { All IsSpelled stages.now }
    requires settings { IsTrue (are_settings ledger.header.settings) }
    requires next { IsTrue (has_next ledger.header) }
    requires even { length orders.now ≡ length stages.now }
    ensures header { IfOk result (λ a. a.ledger.header ≡ new_header ledger.header close_time) }
    ensures entries { IfOk result (λ a. a.ledger.entries ≡ (run_stopped_over ledger.header verdicts.now ledger.entries
        (clusters_of stages.now) close_time orders.now steps).entries) }
    ensures results { IfOk result (λ a. a.results.pairs ≡ results_of (run_stopped_over ledger.header verdicts.now ledger.entries
        (clusters_of stages.now) close_time orders.now steps)) }
    ensures successes { IfOk result (λ a. a.successes ≡ preimages_of (run_stopped_over ledger.header verdicts.now ledger.entries
        (clusters_of stages.now) close_time orders.now steps)) }
    ensures spelled { IfOk result (λ a. result_set_format.fits a.results) }
    ensures successes_spelled { IfOk result (λ a. All (λ s. (optional success_format).fits s) a.successes) }
    ensures each { IfOk result (λ a. length a.successes ≡ length a.results.pairs) }
    ensures preimages { IfOk result (λ a. HavePreimages a.results.pairs a.successes) }
{
    let mut ledger = ledger;
    let running = Header {
        close_time,
        ..ledger.header
    };
    let mut reports = Reports::new(alloc);
    run_steps(
        alloc,
        &mut ledger,
        &running,
        verdicts,
        &mut reports,
        stages,
        orders,
        steps,
    )?;
    Ok(close_ledger(ledger.entries, running, reports))
}

/// Runs the first steps of stages over a ledger, unless two clusters of a stage conflict or the orders are not complete.
fn run_stages<'a>(
    alloc: Global,
    ledger: Ledger,
    close_time: u64,
    verdicts: &Verdicts,
    stages: &[SetStage<'a>],
    orders: &[Order],
    steps: u64,
) -> Result<Applied, SchedErr<'a>>
    requires fits { All IsSpelled stages.now }
    requires settings { IsTrue (are_settings ledger.header.settings) }
    requires next { IsTrue (has_next ledger.header) }
    ensures refused { IfErr result (IsRefused (clusters_of stages.now) orders.now ledger) }
    ensures free { IfOk result (λ _. AllByRecursion HasNoConflict (clusters_of stages.now)) }
    ensures complete { IfOk result (λ _. first_incomplete_in (clusters_of stages.now) orders.now ≡ None) }
    ensures header { IfOk result (λ a. a.ledger.header ≡ new_header ledger.header close_time) }
    ensures entries { IfOk result (λ a. a.ledger.entries ≡ (run_stopped_over ledger.header verdicts.now ledger.entries
        (clusters_of stages.now) close_time orders.now steps).entries) }
    ensures results { IfOk result (λ a. a.results.pairs ≡ results_of (run_stopped_over ledger.header verdicts.now ledger.entries
        (clusters_of stages.now) close_time orders.now steps)) }
    ensures successes { IfOk result (λ a. a.successes ≡ preimages_of (run_stopped_over ledger.header verdicts.now ledger.entries
        (clusters_of stages.now) close_time orders.now steps)) }
    ensures spelled { IfOk result (λ a. result_set_format.fits a.results) }
    ensures successes_spelled { IfOk result (λ a. All (λ s. (optional success_format).fits s) a.successes) }
    ensures each { IfOk result (λ a. length a.successes ≡ length a.results.pairs) }
    ensures preimages { IfOk result (λ a. HavePreimages a.results.pairs a.successes) }
{
    if let Some(conflict) = first_in_turn(alloc, stages)? {
        return Err(SchedErr::Conflict {
            stage: conflict.stage,
            found: conflict.found,
            ledger,
        });
    }
    if let Some(stage) = first_incomplete(alloc, stages, orders)? {
        return Err(SchedErr::Incomplete { stage, ledger });
    }
    let applied = run_on(alloc, ledger, close_time, verdicts, stages, orders, steps)?;
    Ok(applied)
}

/// Runs the first transactions of a set in the order of a schedule, counted over all stages. A stage whose transactions all ran
/// ends, also if it has none. Results stand in the order of the set.
///
/// `close_time` is that of the new ledger, in seconds since 1970. Conflicts are looked for before the schedule is tested, and
/// both before anything runs. The test of the schedule takes time in proportion to the schedule and the set.
pub fn run_schedule<'a>(
    alloc: Global,
    ledger: Ledger,
    set: &'a TxSet,
    close_time: u64,
    verdicts: &Verdicts,
    schedule: &Schedule,
    steps: u64,
) -> Result<Applied, SchedErr<'a>>
    requires fits { set_format.fits set.now }
    requires settings { IsTrue (are_settings ledger.header.settings) }
    requires next { IsTrue (has_next ledger.header) }

    // A set is refused for its least conflict, else for the first stage whose list is missing or not complete, and only for
    // these.
    ensures refused { IfErr result (IsRefused (stages_in set.now) schedule.now.stages ledger) }
    ensures free { IfOk result (λ _. AllByRecursion HasNoConflict (stages_in set.now)) }
    ensures complete { IfOk result (λ _. first_incomplete_in (stages_in set.now) schedule.now.stages ≡ None) }

    ensures header { IfOk result (λ a. a.ledger.header ≡ new_header ledger.header close_time) }
    ensures entries { IfOk result (λ a. a.ledger.entries ≡ (run_stopped ledger.header verdicts.now ledger.entries set.now
        close_time schedule.now.stages steps).entries) }
    ensures results { IfOk result
        (λ a. a.results.pairs ≡ results_of (run_stopped ledger.header verdicts.now ledger.entries set.now
        close_time schedule.now.stages steps)) }
    ensures successes { IfOk result
        (λ a. a.successes ≡ preimages_of (run_stopped ledger.header verdicts.now ledger.entries set.now
        close_time schedule.now.stages steps)) }

    // The results and the success preimages can be written.
    ensures spelled { IfOk result (λ a. result_set_format.fits a.results) }
    ensures successes_spelled { IfOk result (λ a. All (λ s. (optional success_format).fits s) a.successes) }
    ensures each { IfOk result (λ a. length a.successes ≡ length a.results.pairs) }
    ensures preimages { IfOk result (λ a. HavePreimages a.results.pairs a.successes) }
{
    let stages = stages_of(alloc, set)?;
    let orders = schedule.stages.as_slice();
    run_stages(alloc, ledger, close_time, verdicts, &stages, orders, steps)
}
