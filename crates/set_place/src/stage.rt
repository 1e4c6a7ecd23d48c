//! Runs stages, and the beginning of a stage.

ghost use Rattle.std.specs.Prelude.{◌≡◌, [], ◌∷◌, All, List, IfOk, IfSome, OnOk, IsTrue, map, option_map};
ghost use Rattle.ledger_spec.specs.LedgerFile.{are_settings, has_next};
ghost use Rattle.tx_xdr.specs.Envelope.{envelope_format};
ghost use Rattle.stage_runs.specs.Runs.{Reported, clusters_in, start};
ghost use Rattle.stage_runs.specs.Runs.{run_clusters as run_clusters_in, run_stage as run_stage_in, run_set};
ghost use Rattle.apply_spec.specs.Enforced.{enforced};
ghost use Rattle.set_steps.specs.Spelled.{AreEnvelopes, IsCluster};
ghost use Rattle.set_steps.specs.Stages.{stage_of, clusters_of, IsSpelled};
ghost use Rattle.set_steps.specs.State.{between, IsKeyed};
ghost use Rattle.set_place.specs.Places.{met_at, met_in_stage, met_on};
ghost use Rattle.set_place.specs.Reaching.{in_stage};

use crate::Place;
use crate::cluster::{reach_in_cluster, run_clusters, run_next};
use ledger_file::Ledger;
use ledger_types::{Header, Verdicts};
use set_steps::{ClusterDone, Reports, SetStage, end_stage};
use std::alloc::Global;
use tx_xdr::{Cluster, Envelope};
use xdr_core::NoMemory;

/// Runs the clusters of a stage. Returns what they leave beside the entries.
fn run_whole(
    alloc: Global,
    ledger: &mut Ledger,
    header: &Header,
    verdicts: &Verdicts,
    stage: SetStage<'_>,
) -> Result<Vec<ClusterDone>, NoMemory>
    requires fits { IsSpelled stage }
    requires settings { IsTrue (are_settings header.now.settings) }
    requires next { IsTrue (has_next header.now) }
    ensures run { IfOk result (λ done. (reports : List Reported) → in_stage ledger.new.entries reports done.items
        ≡ run_clusters_in (enforced header.now verdicts.now)
        (between ledger.old.entries reports) (clusters_in (stage_of stage.entry))) }
    ensures keyed { IfOk result (λ done. All IsKeyed done.items) }
{
    match stage {
        SetStage::Component(component) => {
            let mut done = Vec::new(alloc);
            let envelopes = component.envelopes.as_slice();
            run_next(alloc, ledger, header, verdicts, &mut done, envelopes)?;
            Ok(done)
        }
        SetStage::Parallel(stage) => {
            let clusters = stage.clusters.as_slice();
            run_clusters(alloc, ledger, header, verdicts, clusters)
        }
    }
}

/// Runs a stage, and ends it.
fn run_stage(
    alloc: Global,
    ledger: &mut Ledger,
    header: &Header,
    verdicts: &Verdicts,
    reports: &mut Reports,
    stage: SetStage<'_>,
) -> Result<(), NoMemory>
    requires fits { IsSpelled stage }
    requires settings { IsTrue (are_settings header.now.settings) }
    requires next { IsTrue (has_next header.now) }
    ensures run { OnOk result (between ledger.new.entries reports.new
        ≡ run_stage_in (enforced header.now verdicts.now) (between ledger.old.entries reports.old)
        (clusters_in (stage_of stage.entry))) }
{
    let done = run_whole(alloc, ledger, header, verdicts, stage)?;
    end_stage(&mut ledger.entries, reports, done)
}

/// Runs stages, one after the other. Returns what they report.
fn run_stages(
    alloc: Global,
    ledger: &mut Ledger,
    header: &Header,
    verdicts: &Verdicts,
    stages: &[SetStage<'_>],
) -> Result<Reports, NoMemory>
    requires fits { All IsSpelled stages.now }
    requires settings { IsTrue (are_settings header.now.settings) }
    requires next { IsTrue (has_next header.now) }
    ensures run { IfOk result (λ reports. between ledger.new.entries reports
        ≡ run_set (enforced header.now verdicts.now) (start ledger.old.entries) (clusters_of stages.now)) }
{
    let mut reports = Reports::new(alloc);
    for stage in stages {
        run_stage(alloc, ledger, header, verdicts, &mut reports, *stage)?;
    }
    Ok(reports)
}

/// Runs what stands before a place of clusters. Returns the transaction there, if there is one.
fn reach_in_clusters<'a>(
    alloc: Global,
    ledger: &mut Ledger,
    header: &Header,
    verdicts: &Verdicts,
    clusters: &'a [Cluster],
    place: Place,
) -> Result<Option<&'a Envelope>, NoMemory>
    requires fits { All IsCluster clusters.now }
    requires settings { IsTrue (are_settings header.now.settings) }
    requires next { IsTrue (has_next header.now) }
    ensures met { IfOk result (λ o. (reports : List Reported) → option_map (λ tx. met_on ledger.new.entries tx.now) o
        ≡ met_in_stage (enforced header.now verdicts.now) (between ledger.old.entries reports) place.cluster
        place.transaction (map (λ c. c.envelopes) clusters.now)) }
    ensures fits { IfOk result (λ o. IfSome o (λ tx. envelope_format.fits tx.now)) }
{
    match clusters.get(place.cluster) {
        None => Ok(None),
        Some(cluster) => {
            let before = &clusters[..place.cluster];
            let _left = run_clusters(alloc, ledger, header, verdicts, before)?;
            let envelopes = cluster.envelopes.as_slice();
            reach_in_cluster(
                alloc,
                ledger,
                header,
                verdicts,
                envelopes,
                place.transaction,
            )
        }
    }
}

/// Runs what stands before a place of a component, which is a stage of one cluster.
fn reach_in_component<'a>(
    alloc: Global,
    ledger: &mut Ledger,
    header: &Header,
    verdicts: &Verdicts,
    envelopes: &'a [Envelope],
    place: Place,
) -> Result<Option<&'a Envelope>, NoMemory>
    requires fits { AreEnvelopes envelopes.now }
    requires settings { IsTrue (are_settings header.now.settings) }
    requires next { IsTrue (has_next header.now) }
    ensures met { IfOk result (λ o. (reports : List Reported) → option_map (λ tx. met_on ledger.new.entries tx.now) o
        ≡ met_in_stage (enforced header.now verdicts.now) (between ledger.old.entries reports) place.cluster
        place.transaction (envelopes.now ∷ [])) }
    ensures fits { IfOk result (λ o. IfSome o (λ tx. envelope_format.fits tx.now)) }
{
    if place.cluster > 0 {
        return Ok(None);
    }
    reach_in_cluster(
        alloc,
        ledger,
        header,
        verdicts,
        envelopes,
        place.transaction,
    )
}

/// Runs what stands before a place of a stage. Returns the transaction there, if there is one.
fn reach_in_stage<'a>(
    alloc: Global,
    ledger: &mut Ledger,
    header: &Header,
    verdicts: &Verdicts,
    stage: SetStage<'a>,
    place: Place,
) -> Result<Option<&'a Envelope>, NoMemory>
    requires fits { IsSpelled stage }
    requires settings { IsTrue (are_settings header.now.settings) }
    requires next { IsTrue (has_next header.now) }
    ensures met { IfOk result (λ o. (reports : List Reported) → option_map (λ tx. met_on ledger.new.entries tx.now) o
        ≡ met_in_stage (enforced header.now verdicts.now) (between ledger.old.entries reports) place.cluster
        place.transaction (clusters_in (stage_of stage.entry))) }
    ensures fits { IfOk result (λ o. IfSome o (λ tx. envelope_format.fits tx.now)) }
{
    match stage {
        SetStage::Component(component) => {
            let envelopes = component.envelopes.as_slice();
            reach_in_component(alloc, ledger, header, verdicts, envelopes, place)
        }
        SetStage::Parallel(stage) => {
            let clusters = stage.clusters.as_slice();
            reach_in_clusters(alloc, ledger, header, verdicts, clusters, place)
        }
    }
}

/// Runs what stands before a place of stages. Returns the transaction there, if there is one.
pub(crate) fn reach_in_stages<'a>(
    alloc: Global,
    ledger: &mut Ledger,
    header: &Header,
    verdicts: &Verdicts,
    stages: &[SetStage<'a>],
    place: Place,
) -> Result<Option<&'a Envelope>, NoMemory>
    requires fits { All IsSpelled stages.now }
    requires settings { IsTrue (are_settings header.now.settings) }
    requires next { IsTrue (has_next header.now) }
    ensures met { IfOk result (λ o. option_map (λ tx. met_on ledger.new.entries tx.now) o
        ≡ met_at (enforced header.now verdicts.now) (start ledger.old.entries) (clusters_of stages.now) place) }
    ensures fits { IfOk result (λ o. IfSome o (λ tx. envelope_format.fits tx.now)) }
{
    match stages.get(place.stage) {
        None => Ok(None),
        Some(stage) => {
            let before = &stages[..place.stage];
            let _reports = run_stages(alloc, ledger, header, verdicts, before)?;
            reach_in_stage(alloc, ledger, header, verdicts, *stage, place)
        }
    }
}
