//! A cluster that runs by a schedule.

ghost use Rattle.std.specs.Prelude.{◌≡◌, ◌++◌, [], All, IfOk, OnOk, IsTrue, map};
ghost use Rattle.ledger_spec.specs.LedgerFile.{are_settings, has_next};
ghost use Rattle.stage_runs.specs.Orders.{first_moves, lane_of};
ghost use Rattle.stage_runs.specs.Runs.{clusters_in as clusters_of_stage};
ghost use Rattle.apply_spec.specs.Enforced.{enforced};
ghost use Rattle.set_steps.specs.Spelled.{AreEnvelopes, IsCluster};
ghost use Rattle.set_steps.specs.Stages.{stage_of, IsSpelled};
ghost use Rattle.schedule_runs.specs.Lanes.{lane_in, left_in, on_lane, clusters_in, IsLane};

use ledger_apply::run_transaction;
use ledger_file::Ledger;
use ledger_types::{Header, Verdicts};
use set_steps::{ClusterRun, Pending, Reports, SetStage};
use std::alloc::Global;
use std::mem;
use tx_xdr::{Cluster, Envelope};
use xdr_core::NoMemory;

/// A cluster between two of its transactions.
#[derive(Drop)]
pub struct Lane<'a> {
    pub cluster: &'a [Envelope],
    /// The index of its next transaction.
    pub next: usize,
    pub running: ClusterRun,
}

/// The state of a cluster of which nothing ran. It takes no memory.
fn nothing_ran(alloc: Global) -> ClusterRun
    ensures pending { result.pending ≡ [] }
    ensures reports { result.reports ≡ [] }
{
    ClusterRun {
        pending: Pending::new(alloc),
        reports: Reports::new(alloc),
    }
}

/// Makes the lane of a cluster of which nothing ran. It takes no memory.
fn open<'a>(alloc: Global, cluster: &'a [Envelope]) -> Lane<'a>
    requires { AreEnvelopes cluster.now }
    ensures lane { lane_in result ≡ lane_of cluster.now }
    ensures fits { IsLane result }
    ensures cluster { result.cluster.now ≡ cluster.now }
{
    Lane {
        cluster,
        next: 0,
        running: nothing_ran(alloc),
    }
}

/// Runs the next transaction of a cluster, if one is left.
pub fn run_next(
    alloc: Global,
    ledger: &mut Ledger,
    header: &Header,
    verdicts: &Verdicts,
    lane: &mut Lane<'_>,
) -> Result<(), NoMemory>
    requires fits { IsLane lane.old }
    requires settings { IsTrue (are_settings header.now.settings) }
    requires next { IsTrue (has_next header.now) }
    ensures run { OnOk result (on_lane ledger.new.entries lane.new ≡ first_moves (enforced header.now verdicts.now)
        ledger.old.entries (lane_in lane.old) [] (left_in lane.old)) }
    ensures fits { OnOk result (IsLane lane.new) }
{
    match lane.cluster.get(lane.next) {
        None => Ok(()),
        Some(envelope) => {
            let running = mem::replace(&mut lane.running, nothing_ran(alloc));
            lane.running = run_transaction(
                alloc, ledger, header, verdicts, running, envelope, None,
            )?;
            lane.next += 1;
            Ok(())
        }
    }
}

/// Adds the lanes of clusters of which nothing ran.
fn push_lanes<'a>(
    alloc: Global,
    lanes: &mut Vec<Lane<'a>>,
    clusters: &'a [Cluster],
) -> Result<(), NoMemory>
    requires lanes { All IsLane lanes.old.items }
    requires fits { All IsCluster clusters.now }
    ensures lanes { OnOk result (map lane_in lanes.new.items ≡ map lane_in lanes.old.items
        ++ map (λ c. lane_of c.envelopes) clusters.now) }
    ensures clusters { OnOk result (clusters_in lanes.new.items ≡ clusters_in lanes.old.items
        ++ map (λ c. c.envelopes) clusters.now) }
    ensures fits { OnOk result (All IsLane lanes.new.items) }
{
    for cluster in clusters {
        lanes.push(open(alloc, cluster.envelopes.as_slice()))?;
    }
    Ok(())
}

/// Makes the lanes of a stage of which nothing ran.
#[tactic(auto, using(crate::proofs::Staged::map_lanes))]
pub fn lanes_of<'a>(alloc: Global, stage: SetStage<'a>) -> Result<Vec<Lane<'a>>, NoMemory>
    requires { IsSpelled stage }
    ensures lanes { IfOk result (λ lanes. map lane_in lanes.items ≡ map lane_of (clusters_of_stage (stage_of stage.entry))) }
    ensures clusters { IfOk result (λ lanes. clusters_in lanes.items ≡ clusters_of_stage (stage_of stage.entry)) }
    ensures fits { IfOk result (λ lanes. All IsLane lanes.items) }
{
    let mut lanes = Vec::new(alloc);
    match stage {
        SetStage::Component(component) => {
            lanes.push(open(alloc, component.envelopes.as_slice()))?;
        }
        SetStage::Parallel(stage) => push_lanes(alloc, &mut lanes, stage.clusters.as_slice())?,
    }
    Ok(lanes)
}
