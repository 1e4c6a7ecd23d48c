//! Applies a plain list of envelopes.

ghost use Rattle.std.specs.Prelude.{◌≡◌, ◌≤◌, ◌<◌, All, IfOk, OnOk, IsTrue, length, map};
ghost use Rattle.xdr_spec.specs.Format.{optional};
ghost use Rattle.invoke_types.specs.Success.{success_format};
ghost use Rattle.ledger_spec.specs.LedgerFile.{are_settings, has_next};
ghost use Rattle.tx_xdr.specs.Envelope.{envelope_format};
ghost use Rattle.tx_results.specs.Report.{HavePreimages};
ghost use Rattle.tx_results.specs.Results.{result_set_format};
ghost use Rattle.worker_runs.specs.Worked.{IsWorked};
ghost use Rattle.stage_runs.specs.Runs.{start};
ghost use Rattle.apply_spec.specs.ListRuns.{listed, run_each, run_list, count_kept, kept_count};
ghost use Rattle.apply_spec.specs.Outputs.{results_of, preimages_of};
ghost use Rattle.apply_spec.specs.Runs.{new_header};
ghost use Rattle.spec_apply.specs.Passing.{state_of};
ghost use Rattle.spec_apply.specs.Runs.{IsWorkedOn, IsDoneJob, envelope_of};

use crate::codes::codes_of;
use crate::job::{Job, ListWork};
use crate::order::run_in_order;
use crate::pass::Pass;
use code_cache::Cache;
use edge_io::Gate;
use entry_map::EntryMap;
use invoke_types::SuccessPreimage;
use ledger_file::Ledger;
use ledger_types::{Header, Verdicts};
use set_steps::{Reports, Workers};
use std::alloc::Global;
use std::collections::BTreeMap;
use std::thread::Threads;
use tx_results::ResultSet;
use tx_xdr::Envelope;
use value_types::Items;
use worker_runs::run_each;
use xdr_core::NoMemory;

/// The ledger after a list, the results and success preimages in the list's order, and how many runs were kept.
#[derive(Drop)]
pub struct Listed {
    pub ledger: Ledger,
    pub results: ResultSet,
    /// One for each result: the success preimage, if the transaction called a contract and succeeded.
    pub successes: Items<Option<SuccessPreimage>, 4294967295>,
    /// The number of runs on the opening ledger that were kept.
    pub kept: u64,
}

/// Makes a job of each envelope.
fn jobs_of<'a>(alloc: Global, list: &'a [Envelope]) -> Result<Vec<Job<'a>>, NoMemory>
    ensures { IfOk result (λ jobs. map envelope_of jobs.items ≡ list.entry.now) }
{
    let mut jobs = Vec::with_capacity(alloc, list.len())?;
    for envelope in list {
        jobs.push(Job {
            envelope,
            run: Err(NoMemory),
        })?;
    }
    Ok(jobs)
}

/// Hands the jobs to the workers. The entries and the codes are lent to all of them.
fn work_all<R: Threads + Sync, T: Gate + Sync>(
    workers: &Workers<'_, R, T>,
    alloc: Global,
    opening: &EntryMap,
    codes: &Cache<'_>,
    header: &Header,
    verdicts: &Verdicts,
    jobs: &mut [Job<'_>],
)
    requires fits { All (λ job. envelope_format.fits job.envelope.now) jobs.old }
    requires settings { IsTrue (are_settings header.now.settings) }
    requires next { IsTrue (has_next header.now) }
    ensures { IsWorked (λ _ x y. IsWorkedOn header.now verdicts.now opening.now x y) 0 jobs.old jobs.new }
{
    let work = ListWork {
        alloc,
        opening,
        codes,
        header,
        verdicts,
        gate: workers.gate,
    };
    run_each(workers.rt, &work, workers.count, jobs);
}

/// Runs all envelopes on the opening ledger. Each of its codes is loaded where it is first needed, and kept for all of them.
fn run_on_opening<'a, R: Threads + Sync, T: Gate + Sync>(
    workers: &Workers<'_, R, T>,
    alloc: Global,
    opening: &EntryMap,
    header: &Header,
    verdicts: &Verdicts,
    list: &'a [Envelope],
) -> Result<Vec<Job<'a>>, NoMemory>
    requires fits { All (λ envelope. envelope_format.fits envelope) list.now }
    requires settings { IsTrue (are_settings header.now.settings) }
    requires next { IsTrue (has_next header.now) }
    ensures same { IfOk result (λ jobs. map envelope_of jobs.items ≡ list.entry.now) }
    ensures done { IfOk result (λ jobs. All (IsDoneJob header.now verdicts.now opening.now) jobs.items) }
{
    let listed = codes_of(alloc, opening)?;
    let codes = Cache::of(alloc, listed)?;
    let mut jobs = jobs_of(alloc, list)?;
    work_all(workers, alloc, opening, &codes, header, verdicts, &mut jobs);
    Ok(jobs)
}

/// Runs the envelopes of a list over the entries of a ledger: all of them on these entries first, and then in order. `header` is
/// that of the old ledger, with the close time of the new one.
fn pass_over<R: Threads + Sync, T: Gate + Sync>(
    workers: &Workers<'_, R, T>,
    alloc: Global,
    entries: EntryMap,
    header: &Header,
    verdicts: &Verdicts,
    list: &[Envelope],
) -> Result<Pass, NoMemory>
    requires fits { All (λ envelope. envelope_format.fits envelope) list.now }
    requires few { length list.now ≤ 4294967295 }
    requires settings { IsTrue (are_settings header.now.settings) }
    requires next { IsTrue (has_next header.now) }
    ensures state { IfOk result (λ pass. state_of pass ≡ run_each (listed header.now verdicts.now) (start entries) list.now) }
    ensures kept { IfOk result (λ pass. pass.kept ≡ count_kept header.now verdicts.now entries (start entries) list.now) }
{
    let jobs = run_on_opening(workers, alloc, &entries, header, verdicts, list)?;
    let mut pass = Pass {
        entries,
        moved: BTreeMap::new(alloc),
        reports: Reports::new(alloc),
        kept: 0,
    };
    run_in_order(alloc, &mut pass, header, verdicts, jobs)?;
    Ok(pass)
}

/// Puts together what a list makes of a ledger. `header` is that of the new ledger. It takes no memory.
fn listed_of(header: Header, pass: Pass) -> Listed
    ensures ledger { result.ledger ≡ record { header = header; entries = pass.entries } }
    ensures results { result.results.pairs ≡ results_of (state_of pass) }
    ensures successes { result.successes ≡ preimages_of (state_of pass) }
    ensures kept { result.kept ≡ pass.kept }
    ensures spelled { result_set_format.fits result.results }
    ensures successes_spelled { All (λ s. (optional success_format).fits s) result.successes }
    ensures each { length result.successes ≡ length result.results.pairs }
    ensures preimages { HavePreimages result.results.pairs result.successes }
{
    let Pass {
        entries,
        moved: _,
        reports,
        kept,
    } = pass;
    let (results, successes) = reports.into_parts();
    Listed {
        ledger: Ledger { header, entries },
        results,
        successes,
        kept,
    }
}

/// Applies a list of envelopes to a ledger, one after the other. Their declared footprints are not trusted: each envelope runs
/// with the footprint that its run needs on the ledger as it is then. Its changes and extensions are put in at once.
///
/// Workers first run all envelopes on the opening ledger, in runs of ceil(envelopes / workers) that follow one another. A worker
/// enters the gate before each envelope, as cluster of stage 0. Then, in order, a run is kept if the ledger still has the same
/// at the keys of the footprint that the run needs. This takes O(k log n) comparisons of keys, where the runs need k keys and
/// n entries change. The outcome is the same for every number of workers.
///
/// `close_time` is that of the new ledger, in seconds since 1970.
pub fn apply_list<R: Threads + Sync, T: Gate + Sync>(
    rt: &R,
    alloc: Global,
    ledger: Ledger,
    list: &[Envelope],
    close_time: u64,
    verdicts: &Verdicts,
    workers: usize,
    gate: &T,
) -> Result<Listed, NoMemory>
    requires fits { All (λ envelope. envelope_format.fits envelope) list.now }
    requires few { length list.now ≤ 4294967295 }
    requires settings { IsTrue (are_settings ledger.header.settings) }
    requires next { IsTrue (has_next ledger.header) }
    requires workers { (1 ≤ workers) × (workers ≤ 64) }

    ensures header { IfOk result (λ a. a.ledger.header ≡ new_header ledger.header close_time) }
    ensures entries { IfOk result (λ a. a.ledger.entries
        ≡ (run_list ledger.header verdicts.now ledger.entries list.now close_time).entries) }
    ensures results { IfOk result (λ a. a.results.pairs ≡ results_of
        (run_list ledger.header verdicts.now ledger.entries list.now close_time)) }
    ensures successes { IfOk result (λ a. a.successes ≡ preimages_of
        (run_list ledger.header verdicts.now ledger.entries list.now close_time)) }
    ensures kept { IfOk result (λ a. a.kept ≡ kept_count ledger.header verdicts.now ledger.entries list.now close_time) }

    // The results and the success preimages can be written.
    ensures spelled { IfOk result (λ a. result_set_format.fits a.results) }
    ensures successes_spelled { IfOk result (λ a. All (λ s. (optional success_format).fits s) a.successes) }
    ensures each { IfOk result (λ a. length a.successes ≡ length a.results.pairs) }
    ensures preimages { IfOk result (λ a. HavePreimages a.results.pairs a.successes) }
{
    let workers = Workers {
        rt,
        count: workers,
        gate,
        logs: false,
    };
    let Ledger { header, entries } = ledger;
    let running = Header {
        close_time,
        ..header
    };
    let pass = pass_over(&workers, alloc, entries, &running, verdicts, list)?;
    let made = Header {
        seq: header.seq + 1,
        ..running
    };
    Ok(listed_of(made, pass))
}
