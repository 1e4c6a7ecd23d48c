//! Runs stages.

ghost use Rattle.std.specs.Prelude.{◌≡◌, All, IfOk, OnOk, IsTrue, map};
ghost use Rattle.ledger_spec.specs.LedgerFile.{are_settings, has_next};
ghost use Rattle.stage_runs.specs.Runs.{ended, run_stage as run_stage_in, run_clusters, clusters_in, HasNoConflict};
ghost use Rattle.stage_runs.specs.Parts.{owns_back};
ghost use Rattle.ledger_parts.specs.Cut.{runs_over};
ghost use Rattle.ledger_parts.specs.Notes.{noted_over, noted_in_stage};
ghost use Rattle.apply_spec.specs.Enforced.{enforced};
ghost use Rattle.tx_xdr.specs.Stages.{component_stage};
ghost use Rattle.set_steps.specs.State.{between};
ghost use Rattle.set_steps.specs.Spelled.{IsStage, IsComponent};
ghost use Rattle.set_steps.specs.Stages.{stage_of, IsSpelled};
ghost use Rattle.set_steps.specs.LoggedLists.{written_sides, IsStageLog};
ghost use Rattle.set_steps.specs.Job.{cluster_of, own_of, IsCut, AreMoved};

use crate::parts::work_through;
use change_log::LoggedStage;
use edge_io::Gate;
use entry_map::EntryMap;
use ledger_types::{Header, Verdicts};
use set_steps::{
    Job, Reports, SetStage, Workers, count_envelopes, cut, cut_one, end_logged, end_stage,
    logged_stage, put_back,
};
use std::alloc::Global;
use std::thread::Threads;
use tx_xdr::{Component, Stage};
use xdr_core::NoMemory;

/// Runs the parts that were cut out of the entries, puts them back, and ends the stage. Room for what the clusters leave, but for
/// their logs, is made before they run.
fn run_parts<R: Threads + Sync, T: Gate + Sync>(
    workers: &Workers<'_, R, T>,
    alloc: Global,
    entries: &mut EntryMap,
    header: &Header,
    verdicts: &Verdicts,
    reports: &mut Reports,
    index: usize,
    stage: SetStage<'_>,
    parts: Vec<Job<'_>>,
) -> Result<Option<LoggedStage>, NoMemory>
    requires spelled { IsSpelled stage }
    requires same { map cluster_of parts.items ≡ clusters_in (stage_of stage) }
    requires settings { IsTrue (are_settings header.now.settings) }
    requires next { IsTrue (has_next header.now) }
    requires cut { All IsCut parts.items }
    requires moved { AreMoved entries.old parts.items }
    ensures run { OnOk result (between entries.new reports.new
        ≡ ended (owns_back (between entries.old reports.old) (runs_over (enforced header.now verdicts.now) entries.old
        (map own_of parts.entry.items) (map cluster_of parts.entry.items)))) }
    ensures log { IfOk result (IsStageLog workers.now.logs (noted_over (enforced header.now verdicts.now) written_sides
        entries.old (map own_of parts.entry.items) (map cluster_of parts.entry.items))
        (owns_back (between entries.old reports.old) (runs_over (enforced header.now verdicts.now) entries.old
        (map own_of parts.entry.items) (map cluster_of parts.entry.items))).entries entries.new) }
{
    reports.reserve(count_envelopes(&parts))?;
    let room = Vec::with_capacity(alloc, parts.len())?;
    let jobs = work_through(
        workers, alloc, entries, header, verdicts, index, stage, parts,
    )?;
    let mut lists = Vec::new(alloc);
    let done = put_back(entries, room, jobs, &mut lists)?;
    if workers.logs {
        let end = end_logged(alloc, entries, reports, done)?;
        let stage = logged_stage(lists, end)?;
        Ok(Some(stage))
    } else {
        end_stage(entries, reports, done)?;
        Ok(None)
    }
}

/// Runs a stage without a conflict: its clusters by workers, each on its part of the entries, and then its end. `index` is that
/// of the stage in its set. Returns the stage's log, if one is kept.
pub fn run_stage<R: Threads + Sync, T: Gate + Sync>(
    workers: &Workers<'_, R, T>,
    alloc: Global,
    entries: &mut EntryMap,
    header: &Header,
    verdicts: &Verdicts,
    reports: &mut Reports,
    index: usize,
    stage: &Stage,
) -> Result<Option<LoggedStage>, NoMemory>
    requires fits { IsStage stage.now }
    requires settings { IsTrue (are_settings header.now.settings) }
    requires next { IsTrue (has_next header.now) }
    requires free { HasNoConflict (clusters_in stage.now) }
    ensures run { OnOk result (between entries.new reports.new
        ≡ run_stage_in (enforced header.now verdicts.now) (between entries.old reports.old) (clusters_in stage.now)) }
    ensures log { IfOk result (IsStageLog workers.now.logs (noted_in_stage (enforced header.now verdicts.now) written_sides
        (between entries.old reports.old) (clusters_in stage.now)) (run_clusters (enforced header.now verdicts.now)
        (between entries.old reports.old) (clusters_in stage.now)).entries entries.new) }
{
    let parts = cut(alloc, entries, stage.clusters.as_slice())?;
    run_parts(
        workers,
        alloc,
        entries,
        header,
        verdicts,
        reports,
        index,
        SetStage::Parallel(stage),
        parts,
    )
}

/// Runs a component: a stage of one cluster. `index` is that of the stage in its set. Returns the stage's log, if one is kept.
pub fn run_component<R: Threads + Sync, T: Gate + Sync>(
    workers: &Workers<'_, R, T>,
    alloc: Global,
    entries: &mut EntryMap,
    header: &Header,
    verdicts: &Verdicts,
    reports: &mut Reports,
    index: usize,
    component: &Component,
) -> Result<Option<LoggedStage>, NoMemory>
    requires fits { IsComponent component.now }
    requires settings { IsTrue (are_settings header.now.settings) }
    requires next { IsTrue (has_next header.now) }
    ensures run { OnOk result (between entries.new reports.new
        ≡ run_stage_in (enforced header.now verdicts.now) (between entries.old reports.old)
        (clusters_in (component_stage component.now))) }
    ensures log { IfOk result (IsStageLog workers.now.logs (noted_in_stage (enforced header.now verdicts.now) written_sides
        (between entries.old reports.old) (clusters_in (component_stage component.now)))
        (run_clusters (enforced header.now verdicts.now) (between entries.old reports.old)
        (clusters_in (component_stage component.now))).entries entries.new) }
{
    let part = cut_one(alloc, entries, component.envelopes.as_slice())?;
    let mut parts = Vec::with_capacity(alloc, 1)?;
    parts.push(part)?;
    run_parts(
        workers,
        alloc,
        entries,
        header,
        verdicts,
        reports,
        index,
        SetStage::Component(component),
        parts,
    )
}
