//! Cuts the parts of a stage's clusters out of the entries, and puts them back.

ghost use Rattle.std.specs.Prelude.{◌≡◌, ◌∷◌, ◌++◌, [], All, IfOk, OnOk, map};
ghost use Rattle.std.specs.List.{flat_map, fold};
ghost use Rattle.ledger_parts.specs.Cut.{left_of, cut_from};
ghost use Rattle.code_cache.specs.Cached.{AreRising};
ghost use Rattle.set_steps.specs.Spelled.{AreEnvelopes, IsCluster};
ghost use Rattle.set_steps.specs.Stages.{IsSpelled};
ghost use Rattle.set_steps.specs.Job.{cluster_of, own_of, IsCut, AreDone, back};

use crate::job::Job;
use crate::moving::move_written;
use crate::running::ClusterDone;
use crate::stages::SetStage;
use change_log::Changes;
use code_cache::Code;
use entry_map::EntryMap;
use ledger_parts::Lent;
use stage_codes::{cluster_codes, stage_codes};
use std::alloc::Global;
use tx_xdr::{Cluster, Envelope};
use xdr_core::NoMemory;

/// Takes the entries that a cluster declares read-write out of a map.
pub fn cut_one<'a>(
    alloc: Global,
    entries: &mut EntryMap,
    envelopes: &'a [Envelope],
) -> Result<Job<'a>, NoMemory>
    requires { AreEnvelopes envelopes.now }
    ensures entries { OnOk result (entries.new ≡ left_of entries.old (envelopes.entry.now ∷ [])) }
    ensures cluster { IfOk result (λ job. cluster_of job ≡ envelopes.entry.now) }
    ensures own { IfOk result (λ job. own_of job ∷ [] ≡ cut_from entries.old (envelopes.entry.now ∷ [])) }
    ensures cut { IfOk result IsCut }
{
    let mut own = EntryMap::new(alloc);
    move_written(entries, &mut own, envelopes)?;
    Ok(Job {
        envelopes,
        own,
        done: Err(NoMemory),
        log: Vec::new(alloc),
    })
}

/// Takes the entries of clusters out of a map, cluster after cluster.
pub fn cut<'a>(
    alloc: Global,
    entries: &mut EntryMap,
    clusters: &'a [Cluster],
) -> Result<Vec<Job<'a>>, NoMemory>
    requires { All IsCluster clusters.now }
    ensures entries { OnOk result (entries.new ≡ left_of entries.old (map (λ c. c.envelopes) clusters.entry.now)) }
    ensures clusters { IfOk result (λ jobs. map cluster_of jobs.items ≡ map (λ c. c.envelopes) clusters.entry.now) }
    ensures own { IfOk result (λ jobs. map own_of jobs.items ≡ cut_from entries.old (map (λ c. c.envelopes) clusters.entry.now)) }
    ensures cut { IfOk result (λ jobs. All IsCut jobs.items) }
{
    let mut jobs = Vec::with_capacity(alloc, clusters.len())?;
    for cluster in clusters {
        let job = cut_one(alloc, entries, cluster.envelopes.as_slice())?;
        jobs.push(job)?;
    }
    Ok(jobs)
}

/// Counts the transactions of jobs. More than 2^64 - 1 count as 2^64 - 1.
pub fn count_envelopes(jobs: &[Job<'_>]) -> usize {
    let mut count: usize = 0;
    for job in jobs {
        count = count.saturating_add(job.envelopes.len());
    }
    count
}

/// Lists the codes that the clusters of a stage share: those that they declare read-only.
pub fn shared_codes<'a>(
    alloc: Global,
    ground: &'a Lent<'_>,
    stage: SetStage<'_>,
) -> Result<Vec<Code<'a>>, NoMemory>
    requires { IsSpelled stage }
    ensures { IfOk result (λ codes. AreRising codes.items) }
{
    match stage {
        SetStage::Component(component) => {
            cluster_codes(alloc, ground, component.envelopes.as_slice())
        }
        SetStage::Parallel(stage) => stage_codes(alloc, ground, stage.clusters.as_slice()),
    }
}

/// Puts the entries of parts back, and lists what else their clusters left, in their order. It is out of memory if memory ran out
/// in the run of one of the clusters. The list needs no memory if it has room for all jobs; the map may. What the clusters logged
/// is added to the log.
pub fn put_back(
    entries: &mut EntryMap,
    room: Vec<ClusterDone>,
    jobs: Vec<Job<'_>>,
    log: &mut Vec<Changes>,
) -> Result<Vec<ClusterDone>, NoMemory>
    requires fits { All (λ job. AreEnvelopes job.envelopes.now) jobs.items }
    requires empty { room.items ≡ [] }
    ensures entries { OnOk result (entries.new ≡ fold back entries.old jobs.entry.items) }
    ensures done { IfOk result (λ done. AreDone jobs.entry.items done.items) }
    ensures log { IfOk result (λ _. log.new.items ≡ log.old.items ++ flat_map (λ job. job.log.items) jobs.entry.items) }
{
    let mut dones = room;
    for job in jobs {
        let Job {
            envelopes,
            mut own,
            done,
            log: mut lists,
        } = job;
        let one = done?;
        dones.push(one)?;
        log.append(&mut lists)?;
        move_written(&mut own, entries, envelopes)?;
    }
    Ok(dones)
}
