//! The outputs of a set over a ledger: the report, the new ledger's file, and the lines.

ghost use Rattle.std.specs.Prelude.{◌≡◌, ◌≤◌, ◌<◌, ◌^◌, All, IfErr, IfOk, IfSome, IsTrue, Some, None, true, length, map};
ghost use Rattle.std.specs.Prelude.{if◌then◌else◌};
ghost use Rattle.std.specs.List.{AllByRecursion};
ghost use Rattle.std.specs.Option.{option_map};
ghost use Rattle.change_log.specs.Log.{log_format};
ghost use Rattle.apply_spec.specs.Runs.{new_header, run_set as run_set_in};
ghost use Rattle.spec_apply.specs.Logged.{logged_set};
ghost use Rattle.spec_apply.specs.Refused.{IsConflictUnlessMemory};
ghost use Rattle.stage_runs.specs.Runs.{clusters_in, HasNoConflict};
ghost use Rattle.tx_xdr.specs.Stages.{stages_of};
ghost use Rattle.apply_spec.specs.Outputs.{outputs_with, preimages_of, results_of};
ghost use Rattle.invoke_types.specs.Success.{success_format};
ghost use Rattle.ledger_spec.specs.LedgerFile.{are_settings, has_next, ledger_bytes};
ghost use Rattle.ledger_spec.specs.LedgerMap.{key_bytes};
ghost use Rattle.ledger_types.specs.Header.{header_format};
ghost use Rattle.ledger_types.specs.Key.{key_format};
ghost use Rattle.tx_results.specs.Report.{report_bytes};
ghost use Rattle.tx_results.specs.Results.{result_set_format};
ghost use Rattle.tx_xdr.specs.Set.{set_format};
ghost use Rattle.xdr_spec.specs.Format.{optional};
ghost use Rattle.command_io.specs.Counts.{IsOfBytes};
ghost use Rattle.command_io.specs.Seen.{seen};
ghost use Rattle.command_io.specs.Steps.{UnlessNoMemory};
ghost use Rattle.soroban_top.specs.LogPlays.{SetPlays};
ghost use Rattle.soroban_top.specs.LogStored.{logs_by, IsLogOf};
ghost use Rattle.soroban_top.specs.FirstConflict.{free_of_conflict};
ghost use Rattle.soroban_top.specs.Scheduled.{may_run, outputs_by, outputs_of, outputs_stopped};
ghost use Rattle.soroban_top.specs.Views.{outputs_in};

use crate::ScheduledSteps;
use change_log::Log;
use command_io::{KeyBytes, Status, hashed, log_out, push_hash, report_out};
use edge_io::Gate;
use ledger_file::Ledger;
use ledger_types::{LedgerKey, Verdicts};
use schedule_runs::{SchedErr, run_schedule};
use spec_apply::{Applied, ApplyErr, Logged, apply_logged, apply_set};
use std::alloc::Global;
use std::thread::Threads;
use tx_xdr::TxSet;
use value_xdr::encode;
use xdr_core::NoMemory;

/// How a set is run.
#[derive(Clone, Copy)]
pub struct Run<'a> {
    /// The order of its transactions, if a schedule is given.
    pub scheduled: &'a Option<ScheduledSteps>,
    pub close_time: u64,
    pub verdicts: &'a Verdicts,
    pub workers: usize,
    /// Whether a change log is kept. None is kept of a run by a schedule.
    pub logs: bool,
}

/// The report, the new ledger's file, the lines, and the change log's file, if one is kept.
#[derive(Drop)]
pub struct Outputs {
    pub report: Vec<u8>,
    pub ledger: Vec<u8>,
    pub lines: Vec<u8>,
    pub log: Option<Vec<u8>>,
}

/// Runs a set over a ledger, and writes the bytes to store and the lines to print. A set with a conflict is not run, nor is one
/// with a schedule that is not complete. With several workers and no schedule, two threads make the outputs.
pub fn make_outputs<R: Threads + Sync, G: Gate + Sync>(
    rt: &R,
    alloc: Global,
    ledger: Ledger,
    set: TxSet,
    run: &Run<'_>,
    gate: &G,
) -> Result<Outputs, Status>
    requires set { set_format.fits set }
    requires header { header_format.fits ledger.header }
    requires settings { IsTrue (are_settings ledger.header.settings) }
    requires next { IsTrue (has_next ledger.header) }
    requires workers { (1 ≤ run.now.workers) × (run.now.workers ≤ 64) }
    ensures free { IfOk result (λ _. may_run run.now.scheduled.now set ≡ Ok tt) }
    ensures outputs { IfOk result (λ o. outputs_in o ≡ outputs_by run.now.scheduled.now
        (seen ledger) run.now.verdicts.now set run.now.close_time) }
    ensures log { IfOk result (λ o. IsLogOf (seen ledger) run.now.verdicts.now set run.now.close_time
        (logs_by run.now.scheduled.now run.now.logs) o.log) }
    ensures plays { IfOk result (λ _. logs_by run.now.scheduled.now run.now.logs ≡ true
        → SetPlays (seen ledger) run.now.verdicts.now set run.now.close_time) }
    ensures refused { IfErr result (λ status. UnlessNoMemory status (may_run run.now.scheduled.now set ≡ Err status)) }
    ensures cause { IfErr result IsOfBytes }
{
    match run.scheduled {
        None => by_workers(rt, alloc, ledger, set, run, gate),
        Some(scheduled) => by_schedule(rt, alloc, ledger, set, run, scheduled),
    }
}

/// What a set does to a ledger, and the change log, if one was kept.
#[derive(Drop)]
struct Ran {
    applied: Applied,
    log: Option<Log>,
}

/// Runs a set by workers, and keeps its change log, if one is asked for.
fn run_set<'a, R: Threads + Sync, G: Gate + Sync>(
    rt: &R,
    alloc: Global,
    ledger: Ledger,
    set: &'a TxSet,
    run: &Run<'_>,
    gate: &G,
) -> Result<Ran, ApplyErr<'a>>
    requires set { set_format.fits set.now }
    requires settings { IsTrue (are_settings ledger.header.settings) }
    requires next { IsTrue (has_next ledger.header) }
    requires workers { (1 ≤ run.now.workers) × (run.now.workers ≤ 64) }
    ensures conflict { IfErr result (IsConflictUnlessMemory (map clusters_in (stages_of set.now)) ledger) }
    ensures free { IfOk result (λ _. AllByRecursion HasNoConflict (map clusters_in (stages_of set.now))) }
    ensures close_time { IfOk result (λ _. run.now.close_time < 2 ^ 64) }
    ensures header { IfOk result (λ a. a.applied.ledger.header ≡ new_header ledger.header run.now.close_time) }
    ensures entries { IfOk result (λ a. a.applied.ledger.entries
        ≡ (run_set_in ledger.header run.now.verdicts.now ledger.entries set.now run.now.close_time).entries) }
    ensures results { IfOk result (λ a. a.applied.results.pairs ≡ results_of
        (run_set_in ledger.header run.now.verdicts.now ledger.entries set.now run.now.close_time)) }
    ensures successes { IfOk result (λ a. a.applied.successes ≡ preimages_of
        (run_set_in ledger.header run.now.verdicts.now ledger.entries set.now run.now.close_time)) }
    ensures spelled { IfOk result (λ a. result_set_format.fits a.applied.results) }
    ensures successes_spelled { IfOk result (λ a. All (λ s. (optional success_format).fits s) a.applied.successes) }
    ensures each { IfOk result (λ a. length a.applied.successes ≡ length a.applied.results.pairs) }
    ensures log { IfOk result (λ a. a.log ≡ (if run.now.logs
        then Some (logged_set ledger.header run.now.verdicts.now ledger.entries set.now run.now.close_time) else None)) }
    ensures log_spelled { IfOk result (λ a. IfSome a.log log_format.fits) }
    ensures plays { IfOk result (λ _. run.now.logs ≡ true
        → SetPlays (seen ledger) run.now.verdicts.now set.now run.now.close_time) }
{
    if run.logs {
        let logged = apply_logged(
            rt,
            alloc,
            ledger,
            set,
            run.close_time,
            run.verdicts,
            run.workers,
            gate,
        )?;
        let Logged { applied, log } = logged;
        return Ok(Ran {
            applied,
            log: Some(log),
        });
    }
    let applied = apply_set(
        rt,
        alloc,
        ledger,
        set,
        run.close_time,
        run.verdicts,
        run.workers,
        gate,
    )?;
    Ok(Ran { applied, log: None })
}

/// Runs a set in its own order, by workers.
fn by_workers<R: Threads + Sync, G: Gate + Sync>(
    rt: &R,
    alloc: Global,
    ledger: Ledger,
    set: TxSet,
    run: &Run<'_>,
    gate: &G,
) -> Result<Outputs, Status>
    requires set { set_format.fits set }
    requires header { header_format.fits ledger.header }
    requires settings { IsTrue (are_settings ledger.header.settings) }
    requires next { IsTrue (has_next ledger.header) }
    requires workers { (1 ≤ run.now.workers) × (run.now.workers ≤ 64) }
    ensures free { IfOk result (λ _. free_of_conflict set ≡ Ok tt) }
    ensures outputs { IfOk result (λ o. outputs_in o ≡ outputs_of
        (seen ledger) run.now.verdicts.now set run.now.close_time) }
    ensures log { IfOk result (λ o. IsLogOf (seen ledger) run.now.verdicts.now set run.now.close_time run.now.logs o.log) }
    ensures plays { IfOk result (λ _. run.now.logs ≡ true
        → SetPlays (seen ledger) run.now.verdicts.now set run.now.close_time) }
    ensures refused { IfErr result (λ status. UnlessNoMemory status (free_of_conflict set ≡ Err status)) }
    ensures cause { IfErr result IsOfBytes }
{
    match run_set(rt, alloc, ledger, &set, run, gate) {
        Ok(ran) => {
            let Ran { applied, log } = ran;
            let log = log_out(alloc, log)?;
            let outputs = written(rt, alloc, run.workers, applied, set, log)?;
            Ok(outputs)
        }
        Err(ApplyErr::Conflict { stage, found, .. }) => {
            let key = key_bytes(alloc, found.key)?;
            Err(Status::Conflict {
                stage: stage as u64,
                a: found.a as u64,
                b: found.b as u64,
                key,
            })
        }
        Err(ApplyErr::NoMemory) => Err(Status::NoMemory),
    }
}

/// Runs the first steps of a set in the order of a schedule, on one thread.
fn by_schedule<R: Threads + Sync>(
    rt: &R,
    alloc: Global,
    ledger: Ledger,
    set: TxSet,
    run: &Run<'_>,
    scheduled: &ScheduledSteps,
) -> Result<Outputs, Status>
    requires set { set_format.fits set }
    requires header { header_format.fits ledger.header }
    requires settings { IsTrue (are_settings ledger.header.settings) }
    requires next { IsTrue (has_next ledger.header) }
    ensures free { IfOk result (λ _. may_run (Some scheduled.now) set ≡ Ok tt) }
    ensures outputs { IfOk result (λ o. outputs_in o ≡ outputs_stopped
        (seen ledger) run.now.verdicts.now set run.now.close_time scheduled.now) }
    ensures log { IfOk result (λ o. option_map (λ b. b.items) o.log ≡ None) }
    ensures refused { IfErr result (λ status. UnlessNoMemory status (may_run (Some scheduled.now) set ≡ Err status)) }
    ensures cause { IfErr result IsOfBytes }
{
    let schedule = &scheduled.schedule;
    match run_schedule(
        alloc,
        ledger,
        &set,
        run.close_time,
        run.verdicts,
        schedule,
        scheduled.steps,
    ) {
        Ok(applied) => {
            let outputs = written(rt, alloc, 1, applied, set, None)?;
            Ok(outputs)
        }
        Err(SchedErr::Conflict { stage, found, .. }) => {
            let key = key_bytes(alloc, found.key)?;
            Err(Status::Conflict {
                stage: stage as u64,
                a: found.a as u64,
                b: found.b as u64,
                key,
            })
        }
        Err(SchedErr::Incomplete { stage, .. }) => Err(Status::Incomplete {
            stage: stage as u64,
        }),
        Err(SchedErr::NoMemory) => Err(Status::NoMemory),
    }
}

/// The XDR bytes of a key.
fn key_bytes(alloc: Global, key: &LedgerKey) -> Result<KeyBytes, NoMemory>
    requires { key_format.fits key.now }
    ensures { IfOk result (λ bytes. bytes ≡ key_bytes key.now) }
{
    let bytes = encode(alloc, key)?;
    Ok(KeyBytes::from_vec(bytes))
}

/// Writes the bytes to store and the lines to print after a run, and adds the change log's file, if there is one. What has run is
/// dropped.
pub fn written<R: Threads + Sync, X: Drop>(
    rt: &R,
    alloc: Global,
    workers: usize,
    applied: Applied,
    ran: X,
    log: Option<Vec<u8>>,
) -> Result<Outputs, NoMemory>
    requires header { header_format.fits applied.ledger.header }
    requires results { result_set_format.fits applied.results }
    requires successes { All (λ s. (optional success_format).fits s) applied.successes }
    requires each { length applied.successes ≡ length applied.results.pairs }
    ensures log { IfOk result (λ o. o.log ≡ log) }
    ensures outputs { IfOk result (λ o. outputs_in o ≡ outputs_with applied.ledger.header.seq applied.results.pairs
        (report_bytes applied.results applied.successes) (ledger_bytes applied.ledger.header applied.ledger.entries)) }
{
    let Applied {
        ledger,
        results,
        successes,
    } = applied;
    let seq = ledger.header.seq;
    let (report, mut lines) = report_out(alloc, seq, &results, successes.as_slice())?;
    let rest = (ran, results, successes);
    let (report_hash, made) = hashed(rt, alloc, workers, &report, ledger, rest);
    let (ledger, ledger_hash) = made?;
    push_hash(alloc, &mut lines, b"report ", &report_hash)?;
    push_hash(alloc, &mut lines, b"ledger ", &ledger_hash)?;
    Ok(Outputs {
        report,
        ledger,
        lines,
        log,
    })
}
