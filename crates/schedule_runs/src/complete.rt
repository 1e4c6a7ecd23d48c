//! Tests whether a schedule is complete.

ghost use Rattle.std.specs.Prelude.{◌≡◌, All, length, IfOk, IfSome, is_some, nat_lt};
ghost use Rattle.std.specs.List.{list_all};
ghost use Rattle.stage_runs.specs.Orders.{is_complete as is_complete_in};
ghost use Rattle.stage_runs.specs.Runs.{clusters_in as clusters_of_stage};
ghost use Rattle.set_steps.specs.Stages.{clusters_of, stage_of, IsSpelled};
ghost use Rattle.schedule_runs.specs.Lanes.{clusters_in};
ghost use Rattle.schedule_runs.specs.Complete.{counts_from, have_lengths as have_lengths_in};
ghost use Rattle.schedule_runs.specs.Plans.{first_incomplete as first_incomplete_in};

use crate::Order;
use crate::lane::{Lane, lanes_of};
use set_steps::SetStage;
use std::alloc::Global;
use xdr_core::NoMemory;

/// Counts how often the number of each cluster occurs in an order, or returns `None` if a number is that of no cluster.
fn count_numbers(
    alloc: Global,
    order: &[u32],
    clusters: usize,
) -> Result<Option<Vec<usize>>, NoMemory>
    ensures counts { IfOk result (λ o. IfSome o (λ counts. counts.items ≡ counts_from 0 clusters order.now)) }
    ensures all { IfOk result (λ o. is_some o ≡ list_all (λ number. nat_lt number clusters) order.now) }
{
    let mut counts = vec![in alloc; 0; clusters]?;
    for number in order {
        let number = *number as usize;
        if number >= clusters {
            return Ok(None);
        }
        counts[number] += 1;
    }
    Ok(Some(counts))
}

/// Whether each cluster has as many transactions as are counted for it.
fn have_lengths(counts: &[usize], lanes: &[Lane<'_>]) -> bool
    requires { length counts.now ≡ length lanes.now }
    ensures { result ≡ have_lengths_in counts.now (clusters_in lanes.now) }
{
    for (index, lane) in lanes.iter().enumerate() {
        if counts[index] != lane.cluster.len() {
            return false;
        }
    }
    true
}

/// Whether an order lists the number of each cluster as often as the cluster has transactions, and no other number. It takes time
/// in proportion to the order and the clusters.
fn is_complete(alloc: Global, order: &[u32], lanes: &[Lane<'_>]) -> Result<bool, NoMemory>
    ensures { IfOk result (λ b. b ≡ is_complete_in order.now (clusters_in lanes.now)) }
{
    match count_numbers(alloc, order, lanes.len())? {
        Some(counts) => Ok(have_lengths(&counts, lanes)),
        None => Ok(false),
    }
}

/// Whether the order of a stage is complete.
fn is_stage_complete(alloc: Global, order: &[u32], stage: SetStage<'_>) -> Result<bool, NoMemory>
    requires { IsSpelled stage }
    ensures { IfOk result (λ b. b ≡ is_complete_in order.now (clusters_of_stage (stage_of stage.entry))) }
{
    let lanes = lanes_of(alloc, stage)?;
    is_complete(alloc, order, &lanes)
}

/// Finds the least index at which a stage has no order, an order has no stage, or an order is not complete.
pub fn first_incomplete(
    alloc: Global,
    stages: &[SetStage<'_>],
    orders: &[Order],
) -> Result<Option<usize>, NoMemory>
    requires { All IsSpelled stages.now }
    ensures { IfOk result (λ o. o ≡ first_incomplete_in (clusters_of stages.now) orders.now) }
{
    for (index, stage) in stages.iter().enumerate() {
        if index >= orders.len() {
            return Ok(Some(index));
        }
        if !is_stage_complete(alloc, orders[index].as_slice(), *stage)? {
            return Ok(Some(index));
        }
    }
    if orders.len() > stages.len() {
        Ok(Some(stages.len()))
    } else {
        Ok(None)
    }
}
