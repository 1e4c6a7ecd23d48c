//! Finds the footprint that a host function needs, by a run over a storage that records the keys that it touches.

ghost use Rattle.std.specs.Prelude.{◌≡◌, ◌≢◌, All, false, IfOk, IsTrue};
ghost use Rattle.value_types.specs.Views.{datums};
ghost use Rattle.auth_types.specs.AuthEntry.{auth_entry_format};
ghost use Rattle.ledger_spec.specs.LedgerFile.{are_settings, has_next};
ghost use Rattle.tx_xdr.specs.Soroban.{footprint_format};
ghost use Rattle.host_spec.specs.Hosted.{AreHosted};
ghost use Rattle.call_spec.specs.WholeRuns.{whole};
ghost use Rattle.apply_spec.specs.Recorded.{footprint_by, no_footprint};
ghost use Rattle.apply_spec.specs.Simulated.{needs_of};
ghost use Rattle.tx_apply.specs.Authorities.{authority_in};
ghost use Rattle.tx_steps.specs.Jobs.{work_in, values_in, IsSpelled};
ghost use Rattle.tx_apply.specs.Running.{entered_run};
ghost use Rattle.tx_steps.specs.Needed.{needs_in};
ghost use Rattle.tx_steps.specs.Touched.{touched_in};
ghost use Rattle.tx_apply.specs.Recording.{ran_out};

use crate::authority::Authority;
use crate::call::budget_of;
use crate::run::run_job;
use auth_trees::Marks;
use budget_meter::{Budget, Used};
use code_cache::Cache;
use contract_call::{Host, enter_all};
use contract_storage::{NoWatch, Storage};
use entry_lookup::Ground;
use host_spec::{HostErr, ValueErr};
use ledger_types::Header;
use std::alloc::Global;
use tx_steps::{Job, Needs, footprint_of, no_keys, values};
use value_types::ScVal;
use xdr_core::NoMemory;

/// Whether memory ran out.
fn ran_out(end: &Result<ScVal, HostErr>) -> bool
    ensures { result ≡ ran_out end.now }
{
    match end {
        Ok(_value) => false,
        Err(end) => match end {
            HostErr::NoMemory => true,
            HostErr::Failed(_) | HostErr::Spent | HostErr::Undeclared(_) | HostErr::Archived(_) => {
                false
            }
        },
    }
}

/// The needs of a run that ended so, from what its host has recorded.
fn needs_after<G: Ground>(
    alloc: Global,
    host: &Host<'_, G, Marks<'_>, NoWatch>,
    end: &Result<ScVal, HostErr>,
) -> Result<Needs, NoMemory>
    ensures ended { IfOk result (λ n. ran_out end.now ≡ false) }
    ensures footprint { IfOk result (λ n. n.footprint ≡ footprint_by (touched_in host.now.ledger.storage.touched.keys)) }
    ensures used { IfOk result (λ n. n.used ≡ host.now.ledger.budget.used) }
    ensures fits { IfOk result (λ n. footprint_format.fits n.footprint) }
{
    if ran_out(end) {
        return Err(NoMemory);
    }
    Ok(Needs {
        footprint: footprint_of(alloc, host.ledger.storage.recorded())?,
        used: host.ledger.budget.spent(),
    })
}

/// The needs of a host function whose arguments have entered the host: those of its run.
fn run_recorded<G: Ground>(
    alloc: Global,
    ground: &G,
    header: &Header,
    authority: &Authority<'_>,
    job: &Job<'_>,
    budget: Budget,
    codes: Option<&Cache<'_>>,
) -> Result<Needs, NoMemory>
    requires spelled { IsSpelled job.now }
    requires hosted { AreHosted (datums (values_in job.now)) }
    requires entries { All auth_entry_format.fits authority.now.entries.now }
    requires settings { IsTrue (are_settings header.now.settings) }
    requires next { IsTrue (has_next header.now) }
    ensures needs { IfOk result (λ n. needs_in n
        ≡ needs_of (entered_run header.now (authority_in authority.now) budget (work_in job.now) (G.map ground.now))) }
    ensures fits { IfOk result (λ n. footprint_format.fits n.footprint) }
{
    let storage = Storage::recording(alloc, ground, header.seq + 1, &header.settings, NoWatch);
    let marks = Marks::prepare(alloc, authority.entries, authority.source)?;
    let mut host = Host::new(
        alloc,
        storage,
        header,
        budget,
        marks,
        authority.verdicts,
        codes,
    );
    let end = run_job(alloc, &mut host, job);
    needs_after(alloc, &host, &end)
}

/// The needs of a host function whose arguments do not enter the host. It accesses no key.
fn not_entered(alloc: Global, error: ValueErr, used: Used) -> Result<Needs, NoMemory>
    ensures ended { IfOk result (λ n. error ≢ ValueErr.NoMemory) }
    ensures needs { IfOk result (λ n. needs_in n ≡ record { footprint = no_footprint; used = used }) }
    ensures fits { IfOk result (λ n. footprint_format.fits n.footprint) }
{
    match error {
        ValueErr::NoMemory => Err(NoMemory),
        ValueErr::Failed(_) | ValueErr::Spent => Ok(no_keys(alloc, used)),
    }
}

/// Finds the footprint that a host function needs, and the sums of the run that needs it: the keys that one run touches over a
/// storage that allows every access. How that run ends does not matter.
pub(crate) fn record<G: Ground>(
    alloc: Global,
    ground: &G,
    header: &Header,
    instructions: u32,
    authority: &Authority<'_>,
    job: &Job<'_>,
    codes: Option<&Cache<'_>>,
) -> Result<Needs, NoMemory>
    requires spelled { IsSpelled job.now }
    requires entries { All auth_entry_format.fits authority.now.entries.now }
    requires settings { IsTrue (are_settings header.now.settings) }
    requires next { IsTrue (has_next header.now) }
    ensures needs { IfOk result (λ n. needs_in n
        ≡ needs_of (whole header.now (authority_in authority.now) instructions (work_in job.now) (G.map ground.now))) }
    ensures fits { IfOk result (λ n. footprint_format.fits n.footprint) }
{
    let mut budget = budget_of(&header.settings, instructions);
    match enter_all(&mut budget, values(job)) {
        Ok(()) => run_recorded(alloc, ground, header, authority, job, budget, codes),
        Err(error) => not_entered(alloc, error, budget.spent()),
    }
}
