//! Applies transaction sets.

ghost use Rattle.std.specs.Prelude.{◌≡◌, ◌≤◌, true, false, All, Ok, IfOk, IfErr, OnOk, IsTrue, length, map};
ghost use Rattle.std.specs.List.{AllByRecursion};
ghost use Rattle.xdr_spec.specs.Format.{optional};
ghost use Rattle.invoke_types.specs.Success.{success_format};
ghost use Rattle.ledger_spec.specs.LedgerFile.{are_settings, has_next};
ghost use Rattle.ledger_spec.specs.LedgerMap.{IsLedgerMap};
ghost use Rattle.tx_xdr.specs.Set.{set_format};
ghost use Rattle.tx_xdr.specs.Stages.{stages_of as stages_of_set};
ghost use Rattle.tx_results.specs.Report.{HavePreimages};
ghost use Rattle.tx_results.specs.Results.{result_set_format};
ghost use Rattle.stage_runs.specs.Runs.{run_stage as run_stage_in, run_set as run_stages_in, clusters_in, HasNoConflict};
ghost use Rattle.stage_runs.specs.Runs.{run_clusters};
ghost use Rattle.ledger_parts.specs.Notes.{noted_in_stage};
ghost use Rattle.change_log.specs.Log.{log_format};
ghost use Rattle.change_log.specs.Play.{played};
ghost use Rattle.apply_spec.specs.Enforced.{enforced};
ghost use Rattle.apply_spec.specs.Outputs.{results_of, preimages_of};
ghost use Rattle.apply_spec.specs.Runs.{run_set, new_header};
ghost use Rattle.set_steps.specs.Logged.{logged_set};
ghost use Rattle.set_steps.specs.LoggedLists.{written_sides, AreStageLogs, IsStageLog};
ghost use Rattle.set_steps.specs.State.{between};
ghost use Rattle.set_steps.specs.Stages.{stage_of, clusters_of, IsSpelled};
ghost use Rattle.ledger_apply.specs.Final.{IsApplied, IsLogged, CanBeWritten};
ghost use Rattle.ledger_apply.specs.Refused.{IsConflictUnlessMemory};

use crate::error::ApplyErr;
use crate::stage::{run_component, run_stage};
use change_log::{Log, LoggedStage};
use edge_io::Gate;
use entry_map::EntryMap;
use invoke_types::SuccessPreimage;
use ledger_file::Ledger;
use ledger_types::{Header, Verdicts};
use set_steps::{Reports, SetStage, Workers, first_conflict, log_of, push_stage, stages_of};
use std::alloc::Global;
use std::thread::Threads;
use tx_results::ResultSet;
use tx_xdr::TxSet;
use value_types::Items;
use xdr_core::NoMemory;

/// The ledger after a set, and the results and success preimages in the set's order.
#[derive(Drop)]
pub struct Applied {
    pub ledger: Ledger,
    pub results: ResultSet,
    /// One for each result: the success preimage, if the transaction called a contract and succeeded.
    pub successes: Items<Option<SuccessPreimage>, 4294967295>,
}

/// What a set does to a ledger, and the change log.
#[derive(Drop)]
pub struct Logged {
    pub applied: Applied,
    pub log: Log,
}

/// Runs one stage of a set. `index` is its index in the set. Returns the stage's log, if one is kept.
fn run_one<R: Threads + Sync, T: Gate + Sync>(
    workers: &Workers<'_, R, T>,
    alloc: Global,
    entries: &mut EntryMap,
    header: &Header,
    verdicts: &Verdicts,
    reports: &mut Reports,
    index: usize,
    stage: SetStage<'_>,
) -> Result<Option<LoggedStage>, NoMemory>
    requires fits { IsSpelled stage }
    requires settings { IsTrue (are_settings header.now.settings) }
    requires next { IsTrue (has_next header.now) }
    requires free { HasNoConflict (clusters_in (stage_of stage)) }
    ensures run { OnOk result (between entries.new reports.new
        ≡ run_stage_in (enforced header.now verdicts.now) (between entries.old reports.old)
        (clusters_in (stage_of stage.entry))) }
    ensures log { IfOk result (IsStageLog workers.now.logs (noted_in_stage (enforced header.now verdicts.now) written_sides
        (between entries.old reports.old) (clusters_in (stage_of stage.entry)))
        (run_clusters (enforced header.now verdicts.now) (between entries.old reports.old)
        (clusters_in (stage_of stage.entry))).entries entries.new) }
{
    match stage {
        SetStage::Component(component) => run_component(
            workers, alloc, entries, header, verdicts, reports, index, component,
        ),
        SetStage::Parallel(stage) => run_stage(
            workers, alloc, entries, header, verdicts, reports, index, stage,
        ),
    }
}

/// Runs stages in their order. Returns their logs, if a log is kept.
fn run_stages<R: Threads + Sync, T: Gate + Sync>(
    workers: &Workers<'_, R, T>,
    alloc: Global,
    entries: &mut EntryMap,
    header: &Header,
    verdicts: &Verdicts,
    reports: &mut Reports,
    stages: &[SetStage<'_>],
) -> Result<Vec<LoggedStage>, NoMemory>
    requires fits { All IsSpelled stages.now }
    requires settings { IsTrue (are_settings header.now.settings) }
    requires next { IsTrue (has_next header.now) }
    requires free { AllByRecursion HasNoConflict (clusters_of stages.now) }
    ensures run { OnOk result (between entries.new reports.new
        ≡ run_stages_in (enforced header.now verdicts.now) (between entries.old reports.old) (clusters_of stages.now)) }
    ensures log { IfOk result (λ log. AreStageLogs workers.now.logs (enforced header.now verdicts.now)
        (between entries.old reports.old) (clusters_of stages.now) entries.new log.items) }
{
    // What is known of `entries` as a map of a ledger comes from a call.
    let _count = entries.len();
    let mut log = Vec::new(alloc);
    for (index, stage) in stages.iter().enumerate() {
        let logged = run_one(
            workers, alloc, entries, header, verdicts, reports, index, *stage,
        )?;
        push_stage(&mut log, logged)?;
    }
    Ok(log)
}

/// Puts together what a set makes of a ledger. `header` is that of the new ledger. It takes no memory.
fn applied_of(header: Header, entries: EntryMap, reports: Reports) -> Applied
    ensures ledger { result.ledger ≡ record { header = header; entries = entries } }
    ensures results { result.results.pairs ≡ map (λ r. r.result) reports }
    ensures successes { result.successes ≡ map (λ r. r.success) reports }
    ensures written { CanBeWritten result }
{
    let (results, successes) = reports.into_parts();
    Applied {
        ledger: Ledger { header, entries },
        results,
        successes,
    }
}

/// Runs the stages of a set over a ledger, and makes the new ledger's header and the log. The log has no stages if none is kept.
fn run_on<R: Threads + Sync, T: Gate + Sync>(
    workers: &Workers<'_, R, T>,
    alloc: Global,
    ledger: Ledger,
    close_time: u64,
    verdicts: &Verdicts,
    stages: &[SetStage<'_>],
) -> Result<(Applied, Log), NoMemory>
    requires fits { All IsSpelled stages.now }
    requires settings { IsTrue (are_settings ledger.header.settings) }
    requires next { IsTrue (has_next ledger.header) }
    requires free { AllByRecursion HasNoConflict (clusters_of stages.now) }
    ensures applied { IfOk result (λ a. IsApplied ledger verdicts.now (clusters_of stages.now) close_time a.0) }
    ensures written { IfOk result (λ a. CanBeWritten a.0) }
    ensures map { IfOk result (λ a. IsLedgerMap a.0.ledger.entries) }
    ensures log { IfOk result (λ a. IsLogged workers.now.logs ledger verdicts.now (clusters_of stages.now) close_time a.0 a.1) }
{
    let Ledger {
        header,
        mut entries,
    } = ledger;
    let running = Header {
        close_time,
        ..header
    };
    let mut reports = Reports::new(alloc);
    let logged = run_stages(
        workers,
        alloc,
        &mut entries,
        &running,
        verdicts,
        &mut reports,
        stages,
    )?;
    // What is known of `entries` as a map of a ledger comes from a call.
    let _count = entries.len();
    let log = log_of(header.seq, header.close_time, close_time, logged)?;
    let made = Header {
        seq: header.seq + 1,
        ..running
    };
    let applied = applied_of(made, entries, reports);
    Ok((applied, log))
}

/// Applies a set to a ledger, as `apply_set` and `apply_logged` do. The log has no stages if none is kept.
fn apply_with<'a, R: Threads + Sync, T: Gate + Sync>(
    rt: &R,
    alloc: Global,
    ledger: Ledger,
    set: &'a TxSet,
    close_time: u64,
    verdicts: &Verdicts,
    workers: usize,
    gate: &T,
    logs: bool,
) -> Result<(Applied, Log), ApplyErr<'a>>
    requires fits { set_format.fits set.now }
    requires settings { IsTrue (are_settings ledger.header.settings) }
    requires next { IsTrue (has_next ledger.header) }
    requires workers { (1 ≤ workers) × (workers ≤ 64) }

    // A set is refused for its least conflict, and only for that.
    ensures conflict { IfErr result (IsConflictUnlessMemory (map clusters_in (stages_of_set set.now)) ledger) }
    ensures free { IfOk result (λ _. AllByRecursion HasNoConflict (map clusters_in (stages_of_set set.now))) }

    ensures applied { IfOk result (λ a. IsApplied ledger verdicts.now (map clusters_in (stages_of_set set.now)) close_time a.0) }
    ensures written { IfOk result (λ a. CanBeWritten a.0) }
    ensures map { IfOk result (λ a. IsLedgerMap a.0.ledger.entries) }
    ensures log { IfOk result (λ a. IsLogged logs ledger verdicts.now (map clusters_in (stages_of_set set.now)) close_time
        a.0 a.1) }
{
    let stages = stages_of(alloc, set)?;
    let workers = Workers {
        rt,
        count: workers,
        gate,
        logs,
    };
    if let Some(conflict) = first_conflict(&workers, alloc, &stages)? {
        return Err(ApplyErr::Conflict {
            stage: conflict.stage,
            found: conflict.found,
            ledger,
        });
    }
    let applied = run_on(&workers, alloc, ledger, close_time, verdicts, &stages)?;
    Ok(applied)
}

/// Applies a set to a ledger, unless two clusters of one of its stages conflict. All stages are tested before anything runs.
///
/// `close_time` is that of the new ledger, in seconds since 1970. The clusters of a stage go to the workers in runs of
/// ceil(clusters / workers) clusters that follow one another. A worker enters the gate before each cluster. The stages run one
/// after the other, and the outcome is the same for every number of workers. The workers look for the conflicts, too, if there
/// are many stages.
pub fn apply_set<'a, R: Threads + Sync, T: Gate + Sync>(
    rt: &R,
    alloc: Global,
    ledger: Ledger,
    set: &'a TxSet,
    close_time: u64,
    verdicts: &Verdicts,
    workers: usize,
    gate: &T,
) -> Result<Applied, ApplyErr<'a>>
    requires fits { set_format.fits set.now }
    requires settings { IsTrue (are_settings ledger.header.settings) }
    requires next { IsTrue (has_next ledger.header) }
    requires workers { (1 ≤ workers) × (workers ≤ 64) }

    // A set is refused for its least conflict, and only for that.
    ensures conflict { IfErr result (IsConflictUnlessMemory (map clusters_in (stages_of_set set.now)) ledger) }
    ensures free { IfOk result (λ _. AllByRecursion HasNoConflict (map clusters_in (stages_of_set set.now))) }

    ensures header { IfOk result (λ a. a.ledger.header ≡ new_header ledger.header close_time) }
    ensures entries { IfOk result (λ a. a.ledger.entries
        ≡ (run_set ledger.header verdicts.now ledger.entries set.now close_time).entries) }
    ensures results { IfOk result (λ a. a.results.pairs ≡ results_of
        (run_set ledger.header verdicts.now ledger.entries set.now close_time)) }
    ensures successes { IfOk result (λ a. a.successes ≡ preimages_of
        (run_set ledger.header verdicts.now ledger.entries set.now close_time)) }

    // The results and the success preimages can be written.
    ensures spelled { IfOk result (λ a. result_set_format.fits a.results) }
    ensures successes_spelled { IfOk result (λ a. All (λ s. (optional success_format).fits s) a.successes) }
    ensures each { IfOk result (λ a. length a.successes ≡ length a.results.pairs) }
    ensures preimages { IfOk result (λ a. HavePreimages a.results.pairs a.successes) }
{
    let (applied, _log) = apply_with(
        rt, alloc, ledger, set, close_time, verdicts, workers, gate, false,
    )?;
    Ok(applied)
}

/// Applies a set to a ledger as `apply_set` does, and also returns the change log. Played on the old ledger, the log gives the
/// new one, and backwards the old one. Each transaction's changes are logged before they are made.
pub fn apply_logged<'a, R: Threads + Sync, T: Gate + Sync>(
    rt: &R,
    alloc: Global,
    ledger: Ledger,
    set: &'a TxSet,
    close_time: u64,
    verdicts: &Verdicts,
    workers: usize,
    gate: &T,
) -> Result<Logged, ApplyErr<'a>>
    requires fits { set_format.fits set.now }
    requires settings { IsTrue (are_settings ledger.header.settings) }
    requires next { IsTrue (has_next ledger.header) }
    requires workers { (1 ≤ workers) × (workers ≤ 64) }

    // A set is refused for its least conflict, and only for that.
    ensures conflict { IfErr result (IsConflictUnlessMemory (map clusters_in (stages_of_set set.now)) ledger) }
    ensures free { IfOk result (λ _. AllByRecursion HasNoConflict (map clusters_in (stages_of_set set.now))) }

    ensures header { IfOk result (λ a. a.applied.ledger.header ≡ new_header ledger.header close_time) }
    ensures entries { IfOk result (λ a. a.applied.ledger.entries
        ≡ (run_set ledger.header verdicts.now ledger.entries set.now close_time).entries) }
    ensures results { IfOk result (λ a. a.applied.results.pairs ≡ results_of
        (run_set ledger.header verdicts.now ledger.entries set.now close_time)) }
    ensures successes { IfOk result (λ a. a.applied.successes ≡ preimages_of
        (run_set ledger.header verdicts.now ledger.entries set.now close_time)) }

    // The results and the success preimages can be written.
    ensures spelled { IfOk result (λ a. result_set_format.fits a.applied.results) }
    ensures successes_spelled { IfOk result (λ a. All (λ s. (optional success_format).fits s) a.applied.successes) }
    ensures each { IfOk result (λ a. length a.applied.successes ≡ length a.applied.results.pairs) }
    ensures preimages { IfOk result (λ a. HavePreimages a.applied.results.pairs a.applied.successes) }

    // The log is that of the set's run, and it can be written.
    ensures log { IfOk result (λ a. a.log ≡ logged_set ledger.header verdicts.now ledger.entries set.now close_time) }
    ensures log_spelled { IfOk result (λ a. log_format.fits a.log) }

    // The new entries are a map of a ledger.
    ensures map { IfOk result (λ a. IsLedgerMap a.applied.ledger.entries) }

    // Played on the old ledger, the log gives the new one, and backwards on the new ledger the old one.
    ensures forwards { IfOk result (λ a. played false a.log ledger.header ledger.entries
        ≡ Ok (a.applied.ledger.header, a.applied.ledger.entries)) }
    ensures backwards { IfOk result (λ a. played true a.log a.applied.ledger.header a.applied.ledger.entries
        ≡ Ok (ledger.header, ledger.entries)) }
{
    let made = apply_with(
        rt, alloc, ledger, set, close_time, verdicts, workers, gate, true,
    )?;
    let (applied, log) = made;
    Ok(Logged { applied, log })
}
