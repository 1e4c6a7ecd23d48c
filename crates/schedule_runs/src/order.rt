//! Runs the transactions of a stage in an order.

ghost use Rattle.std.specs.Prelude.{◌≡◌, All, IfOk, OnOk, IsTrue, map};
ghost use Rattle.std.specs.List.{fold, flat_map};
ghost use Rattle.ledger_spec.specs.LedgerFile.{are_settings, has_next};
ghost use Rattle.stage_runs.specs.Orders.{move_next};
ghost use Rattle.apply_spec.specs.Enforced.{enforced};
ghost use Rattle.set_steps.specs.State.{pending_of, reports_of, IsKeyed};
ghost use Rattle.schedule_runs.specs.Lanes.{lane_in, on_lanes, IsLane};

use crate::lane::{Lane, run_next};
use ledger_file::Ledger;
use ledger_types::{Header, Verdicts};
use set_steps::{ClusterDone, ClusterRun};
use std::alloc::Global;
use xdr_core::NoMemory;

/// Runs the next transaction of a cluster for each number of an order. A number without such a cluster, or whose cluster has no
/// transaction left, does nothing.
pub fn run_order(
    alloc: Global,
    ledger: &mut Ledger,
    header: &Header,
    verdicts: &Verdicts,
    lanes: &mut [Lane<'_>],
    order: &[u32],
) -> Result<(), NoMemory>
    requires fits { All IsLane lanes.old }
    requires settings { IsTrue (are_settings header.now.settings) }
    requires next { IsTrue (has_next header.now) }
    ensures run { OnOk result (on_lanes ledger.new.entries lanes.new
        ≡ fold (move_next (enforced header.now verdicts.now)) (on_lanes ledger.old.entries lanes.old) order.now) }
{
    for number in order {
        let index = *number as usize;
        if index < lanes.len() {
            run_next(alloc, ledger, header, verdicts, &mut lanes[index])?;
        }
    }
    Ok(())
}

/// Returns what clusters leave beside the entries, in the order of the clusters.
pub fn close(alloc: Global, lanes: Vec<Lane<'_>>) -> Result<Vec<ClusterDone>, NoMemory>
    ensures pending { IfOk result (λ done. pending_of done.items ≡ flat_map (λ l. l.pending) (map lane_in lanes.entry.items)) }
    ensures reports { IfOk result (λ done. reports_of done.items ≡ flat_map (λ l. l.results) (map lane_in lanes.entry.items)) }
    ensures keyed { IfOk result (λ done. All IsKeyed done.items) }
{
    let mut done = Vec::new(alloc);
    for lane in lanes {
        let ClusterRun { pending, reports } = lane.running;
        let pending = pending.into_vec(alloc)?;
        done.push(ClusterDone { pending, reports })?;
    }
    Ok(done)
}
