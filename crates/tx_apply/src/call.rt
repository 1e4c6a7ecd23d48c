//! INVOKE_HOST_FUNCTION.

ghost use Rattle.std.specs.Prelude.{◌≡◌, [], All, IfOk, IsTrue};
ghost use Rattle.value_types.specs.Views.{datum, datums};
ghost use Rattle.auth_types.specs.AuthEntry.{auth_entry_format};
ghost use Rattle.ledger_types.specs.Key.{key_format};
ghost use Rattle.ledger_spec.specs.LedgerFile.{are_settings, has_next};
ghost use Rattle.invoke_types.specs.HostFunction.{host_function_format};
ghost use Rattle.invoke_types.specs.Success.{success_format};
ghost use Rattle.host_spec.specs.Hosted.{IsHosted, AreHosted};
ghost use Rattle.call_spec.specs.World.{next_seq};
ghost use Rattle.call_spec.specs.Footprints.{by_footprint};
ghost use Rattle.call_spec.specs.WholeRuns.{work_of, whole};
ghost use Rattle.call_spec.specs.Invoked.{by_run, invoked};
ghost use Rattle.tx_apply.specs.Authorities.{authority_in};
ghost use Rattle.tx_steps.specs.Jobs.{work_in, values_in, IsSpelled};
ghost use Rattle.tx_steps.specs.CallResults.{outcome_with};
ghost use Rattle.tx_apply.specs.Running.{entered_run};
ghost use Rattle.tx_steps.specs.Outcomes.{ended_of_call};
ghost use Rattle.tx_steps.specs.Effects.{ended_of, CanEnd};
ghost use Rattle.tx_apply.specs.Watching.{HasSeen, entered_accesses, run_accesses, work_accesses};

use crate::authority::Authority;
use crate::run::run_told;
use auth_trees::Marks;
use budget_meter::{Budget, Limits};
use code_cache::Cache;
use contract_call::{Events, Host, HostLedger, enter_all};
use contract_storage::{Storage, Watch};
use entry_lookup::Ground;
use host_spec::HostErr;
use invoke_types::{HostFunction, SuccessPreimage};
use ledger_types::{Header, Settings};
use std::alloc::Global;
use tx_results::InvokeResult;
use tx_steps::{
    Job, Resolved, TransactionDone, declares_archived, ended, failed_call, job_of, nothing_used,
    reads_more, succeeded, values, writes_more,
};
use tx_xdr::SorobanData;
use value_types::{Items, ScVal};
use xdr_core::NoMemory;

/// A budget with the declared limit of instructions.
pub fn budget_of(settings: &Settings, instructions: u32) -> Budget
    requires { IsTrue (are_settings settings.now) }
    ensures limits { result.limits ≡ record { instructions = instructions; memory = settings.now.memory_limit } }
    ensures terms { result.terms ≡ settings.now.terms }
    ensures used { result.used ≡ record { instructions = 0; memory = 0 } }
{
    let limits = Limits {
        instructions: u64::from(instructions),
        memory: settings.memory_limit,
    };
    Budget::new(limits, settings.terms)
}

/// The success preimage.
fn success_of(value: ScVal, events: Events) -> SuccessPreimage
    requires { IsHosted (datum value) }
    ensures value { result ≡ record { return_value = value; events = events } }
    ensures fits { success_format.fits result }
{
    let events = events.into_vec();
    SuccessPreimage {
        return_value: value,
        events: Items::from_vec(events),
    }
}

/// Returns the events of a run, and its observer.
fn parts_of<G: Ground, W: Watch>(host: Host<'_, G, Marks<'_>, W>) -> (Events, W)
    ensures events { result.0 ≡ host.entry.ledger.events }
    ensures watch { W.seen result.1 ≡ host.entry.ledger.storage.touched.seen }
{
    let Host {
        ledger,
        open: _,
        marks: _,
        verdicts: _,
        codes: _,
    } = host;
    let HostLedger {
        header: _,
        storage,
        events,
        budget: _,
        objects: _,
        frame: _,
    } = ledger;
    (events, storage.into_watch())
}

/// The outcome of a host function that returned a value in ledger `n`: it may have written too much.
fn returned<G: Ground, W: Watch>(
    alloc: Global,
    ground: &G,
    n: u32,
    resources: &SorobanData,
    host: Host<'_, G, Marks<'_>, W>,
    value: ScVal,
) -> Result<TransactionDone<W>, NoMemory>
    requires read_only { All (λ key. key_format.fits key) resources.now.footprint.read_only }
    requires read_write { All (λ key. key_format.fits key) resources.now.footprint.read_write }
    requires value { IsHosted (datum value) }
    requires base { host.ledger.storage.base ≡ G.map ground.now }
    ensures done { IfOk result (λ done. ended_of done ≡ ended_of_call (G.map ground.now) resources.now.footprint
        (outcome_with n resources.now
        (G.map ground.now) value host.entry.ledger.storage.map host.entry.ledger.events host.entry.ledger.budget.used)) }
    ensures can { IfOk result (λ done. CanEnd (ended_of done)) }
    ensures watch { IfOk result (λ done. W.seen done.watch ≡ host.entry.ledger.storage.touched.seen) }
{
    let used = host.ledger.budget.spent();
    let changes = host.ledger.storage.changes()?;
    let (events, watch) = parts_of(host);
    if writes_more(ground, n, &changes, resources.write_bytes) {
        return failed_call(alloc, InvokeResult::ResourceLimitExceeded, used, watch);
    }
    let success = success_of(value, events);
    succeeded(
        alloc,
        ground,
        &resources.footprint,
        &changes,
        success,
        used,
        watch,
    )
}

/// Runs a host function whose arguments have entered the host.
fn run<G: Ground, W: Watch>(
    alloc: Global,
    ground: &G,
    header: &Header,
    resources: &SorobanData,
    authority: &Authority<'_>,
    job: &Job<'_>,
    budget: Budget,
    codes: Option<&Cache<'_>>,
    watch: W,
) -> Result<TransactionDone<W>, NoMemory>
    requires spelled { IsSpelled job.now }
    requires hosted { AreHosted (datums (values_in job.now)) }
    requires entries { All auth_entry_format.fits authority.now.entries.now }
    requires read_only { All (λ key. key_format.fits key) resources.now.footprint.read_only }
    requires read_write { All (λ key. key_format.fits key) resources.now.footprint.read_write }
    requires settings { IsTrue (are_settings header.now.settings) }
    requires next { IsTrue (has_next header.now) }
    requires fresh { HasSeen (W.seen watch) [] }
    ensures done { IfOk result (λ done. ended_of done ≡ ended_of_call (G.map ground.now) resources.now.footprint
        (by_run (next_seq header.now) resources.now (G.map ground.now)
        (entered_run header.now (authority_in authority.now) budget (work_in job.now) (G.map ground.now)))) }
    ensures can { IfOk result (λ done. CanEnd (ended_of done)) }
    ensures seen { IfOk result (λ done. HasSeen (W.seen done.watch) (entered_accesses (by_footprint resources.now.footprint)
        header.now (authority_in authority.now) budget (work_in job.now) (G.map ground.now))) }
{
    let n = header.seq + 1;
    let storage = Storage::enforcing(
        alloc,
        ground,
        n,
        &header.settings,
        resources.footprint.read_only.as_slice(),
        resources.footprint.read_write.as_slice(),
        watch,
    )?;
    let marks = Marks::prepare(alloc, authority.entries, authority.source)?;
    let mut host = Host::new(
        alloc,
        storage,
        header,
        budget,
        marks,
        authority.verdicts,
        codes,
    );
    match run_told(alloc, &mut host, job) {
        Ok(value) => returned(alloc, ground, n, resources, host, value),
        Err(end) => {
            let used = host.ledger.budget.spent();
            let (_events, watch) = parts_of(host);
            ended(alloc, &end, used, watch)
        }
    }
}

/// Runs a host function. First its arguments enter the host.
fn enter_and_run<G: Ground, W: Watch>(
    alloc: Global,
    ground: &G,
    header: &Header,
    resources: &SorobanData,
    authority: &Authority<'_>,
    job: &Job<'_>,
    codes: Option<&Cache<'_>>,
    watch: W,
) -> Result<TransactionDone<W>, NoMemory>
    requires spelled { IsSpelled job.now }
    requires entries { All auth_entry_format.fits authority.now.entries.now }
    requires read_only { All (λ key. key_format.fits key) resources.now.footprint.read_only }
    requires read_write { All (λ key. key_format.fits key) resources.now.footprint.read_write }
    requires settings { IsTrue (are_settings header.now.settings) }
    requires next { IsTrue (has_next header.now) }
    requires fresh { HasSeen (W.seen watch) [] }
    ensures done { IfOk result (λ done. ended_of done ≡ ended_of_call (G.map ground.now) resources.now.footprint
        (by_run (next_seq header.now) resources.now (G.map ground.now)
        (whole header.now (authority_in authority.now) resources.now.instructions (work_in job.now) (G.map ground.now)))) }
    ensures can { IfOk result (λ done. CanEnd (ended_of done)) }
    ensures seen { IfOk result (λ done. HasSeen (W.seen done.watch)
        (run_accesses header.now (authority_in authority.now) resources.now (G.map ground.now) (work_in job.now))) }
{
    let mut budget = budget_of(&header.settings, resources.instructions);
    match enter_all(&mut budget, values(job)) {
        Ok(()) => run(
            alloc, ground, header, resources, authority, job, budget, codes, watch,
        ),
        Err(end) => ended(alloc, &HostErr::from(end), budget.spent(), watch),
    }
}

/// Runs a host function over entries that are found quickly. The first test that holds decides.
fn call_over<G: Ground, W: Watch>(
    alloc: Global,
    ground: &G,
    header: &Header,
    resources: &SorobanData,
    authority: &Authority<'_>,
    function: &HostFunction,
    codes: Option<&Cache<'_>>,
    watch: W,
) -> Result<TransactionDone<W>, NoMemory>
    requires function { host_function_format.fits function.now }
    requires entries { All auth_entry_format.fits authority.now.entries.now }
    requires read_only { All (λ key. key_format.fits key) resources.now.footprint.read_only }
    requires read_write { All (λ key. key_format.fits key) resources.now.footprint.read_write }
    requires settings { IsTrue (are_settings header.now.settings) }
    requires next { IsTrue (has_next header.now) }
    requires fresh { HasSeen (W.seen watch) [] }
    ensures done { IfOk result (λ done. ended_of done ≡ ended_of_call (G.map ground.now) resources.now.footprint
        (invoked header.now (authority_in authority.now) resources.now (G.map ground.now) function.now)) }
    ensures can { IfOk result (λ done. CanEnd (ended_of done)) }
    ensures seen { IfOk result (λ done. HasSeen (W.seen done.watch)
        (work_accesses header.now (authority_in authority.now) resources.now (G.map ground.now) (work_of function.now))) }
{
    let n = header.seq + 1;
    let Some(job) = job_of(function) else {
        return failed_call(alloc, InvokeResult::Malformed, nothing_used(), watch);
    };
    if declares_archived(ground, n, &resources.footprint) {
        return failed_call(alloc, InvokeResult::EntryArchived, nothing_used(), watch);
    }
    if reads_more(ground, n, &resources.footprint, resources.disk_read_bytes) {
        return failed_call(
            alloc,
            InvokeResult::ResourceLimitExceeded,
            nothing_used(),
            watch,
        );
    }
    enter_and_run(
        alloc, ground, header, resources, authority, &job, codes, watch,
    )
}

/// INVOKE_HOST_FUNCTION. Each declared key is looked up once, and the run then finds it among those.
pub(crate) fn call<G: Ground, W: Watch>(
    alloc: Global,
    ground: &G,
    header: &Header,
    resources: &SorobanData,
    authority: &Authority<'_>,
    function: &HostFunction,
    codes: Option<&Cache<'_>>,
    watch: W,
) -> Result<TransactionDone<W>, NoMemory>
    requires function { host_function_format.fits function.now }
    requires entries { All auth_entry_format.fits authority.now.entries.now }
    requires read_only { All (λ key. key_format.fits key) resources.now.footprint.read_only }
    requires read_write { All (λ key. key_format.fits key) resources.now.footprint.read_write }
    requires settings { IsTrue (are_settings header.now.settings) }
    requires next { IsTrue (has_next header.now) }
    requires fresh { HasSeen (W.seen watch) [] }
    ensures done { IfOk result (λ done. ended_of done ≡ ended_of_call (G.map ground.now) resources.now.footprint
        (invoked header.now (authority_in authority.now) resources.now (G.map ground.now) function.now)) }
    ensures can { IfOk result (λ done. CanEnd (ended_of done)) }
    ensures seen { IfOk result (λ done. HasSeen (W.seen done.watch)
        (work_accesses header.now (authority_in authority.now) resources.now (G.map ground.now) (work_of function.now))) }
{
    let footprint = &resources.footprint;
    let resolved = Resolved::new(
        alloc,
        ground,
        footprint.read_only.as_slice(),
        footprint.read_write.as_slice(),
    )?;
    call_over(
        alloc, &resolved, header, resources, authority, function, codes, watch,
    )
}
