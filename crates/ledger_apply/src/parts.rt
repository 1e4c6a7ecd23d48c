//! Runs the parts of a stage's clusters.

ghost use Rattle.std.specs.Prelude.{◌≡◌, All, IfOk, OnOk, IsTrue, map};
ghost use Rattle.ledger_spec.specs.LedgerFile.{are_settings, has_next};
ghost use Rattle.worker_runs.specs.Worked.{IsWorked};
ghost use Rattle.stage_runs.specs.Runs.{clusters_in};
ghost use Rattle.apply_spec.specs.Enforced.{enforced};
ghost use Rattle.set_steps.specs.Spelled.{AreEnvelopes};
ghost use Rattle.set_steps.specs.Stages.{stage_of, IsSpelled};
ghost use Rattle.set_steps.specs.Job.{cluster_of, IsRun};

use crate::job::ClusterWork;
use code_cache::Cache;
use edge_io::Gate;
use entry_map::EntryMap;
use ledger_parts::Lent;
use ledger_types::{Header, Verdicts};
use set_steps::{Job, SetStage, Workers, shared_codes};
use std::alloc::Global;
use std::thread::Threads;
use worker_runs::run_each;
use xdr_core::NoMemory;

/// Hands the jobs to the workers. The entries that are left are lent to all of them, and so are the codes. `index` is that of the
/// stage in its set.
fn work_all<R: Threads + Sync, T: Gate + Sync>(
    workers: &Workers<'_, R, T>,
    alloc: Global,
    lent: &EntryMap,
    codes: &Cache<'_>,
    header: &Header,
    verdicts: &Verdicts,
    index: usize,
    jobs: &mut [Job<'_>],
)
    requires fits { All (λ job. AreEnvelopes job.envelopes.now) jobs.old }
    requires settings { IsTrue (are_settings header.now.settings) }
    requires next { IsTrue (has_next header.now) }
    ensures { IsWorked (λ _ x y. IsRun (enforced header.now verdicts.now) workers.now.logs lent.now x y) 0 jobs.old jobs.new }
{
    let work = ClusterWork {
        alloc,
        lent,
        codes,
        header,
        verdicts,
        gate: workers.gate,
        stage: index,
        logs: workers.logs,
    };
    run_each(workers.rt, &work, workers.count, jobs);
}

/// Runs the jobs of a stage, one for each cluster. A code that the clusters declare read-only, and that none of them declares
/// read-write, is loaded where it is first needed, and kept for all jobs.
fn work_with_codes<R: Threads + Sync, T: Gate + Sync>(
    workers: &Workers<'_, R, T>,
    alloc: Global,
    lent: &EntryMap,
    header: &Header,
    verdicts: &Verdicts,
    index: usize,
    stage: SetStage<'_>,
    jobs: &mut [Job<'_>],
) -> Result<(), NoMemory>
    requires spelled { IsSpelled stage }
    requires same { map cluster_of jobs.old ≡ clusters_in (stage_of stage) }
    requires fits { All (λ job. AreEnvelopes job.envelopes.now) jobs.old }
    requires settings { IsTrue (are_settings header.now.settings) }
    requires next { IsTrue (has_next header.now) }
    ensures { OnOk result (IsWorked (λ _ x y. IsRun (enforced header.now verdicts.now) workers.now.logs lent.now x y) 0
        jobs.old jobs.new) }
{
    let ground = Lent { entries: lent };
    let listed = shared_codes(alloc, &ground, stage)?;
    let codes = Cache::of(alloc, listed)?;
    work_all(workers, alloc, lent, &codes, header, verdicts, index, jobs);
    Ok(())
}

/// Runs the jobs of a stage, as `work_with_codes` does, and returns them.
pub fn work_through<'a, R: Threads + Sync, T: Gate + Sync>(
    workers: &Workers<'_, R, T>,
    alloc: Global,
    lent: &EntryMap,
    header: &Header,
    verdicts: &Verdicts,
    index: usize,
    stage: SetStage<'_>,
    jobs: Vec<Job<'a>>,
) -> Result<Vec<Job<'a>>, NoMemory>
    requires spelled { IsSpelled stage }
    requires same { map cluster_of jobs.items ≡ clusters_in (stage_of stage) }
    requires fits { All (λ job. AreEnvelopes job.envelopes.now) jobs.items }
    requires settings { IsTrue (are_settings header.now.settings) }
    requires next { IsTrue (has_next header.now) }
    ensures { IfOk result (λ worked. IsWorked (λ _ x y. IsRun (enforced header.now verdicts.now) workers.now.logs lent.now x y) 0
        jobs.entry.items worked.items) }
{
    let mut jobs = jobs;
    work_with_codes(
        workers, alloc, lent, header, verdicts, index, stage, &mut jobs,
    )?;
    Ok(jobs)
}
