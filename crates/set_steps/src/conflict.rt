//! Finds the first conflict of a set.

ghost use Rattle.std.specs.Prelude.{All, IfOk, IfSome, IfNone};
ghost use Rattle.std.specs.List.{AllByRecursion};
ghost use Rattle.ledger_spec.specs.LedgerMap.{key_bytes};
ghost use Rattle.ledger_types.specs.Key.{key_format};
ghost use Rattle.stage_runs.specs.Runs.{clusters_in, HasNoConflict};
ghost use Rattle.stage_runs.specs.Conflicts.{IsLeastConflict, IsFirstConflict};
ghost use Rattle.set_steps.specs.Stages.{stage_of, clusters_of, IsSpelled};

use crate::search::first_by_workers;
use crate::stages::SetStage;
use crate::workers::Workers;
use stage_plan::{Conflict, find_conflict};
use std::alloc::Global;
use std::thread::Threads;
use xdr_core::NoMemory;

/// One thread searches so many stages: a search is often shorter than the start of a thread.
const FEW_STAGES: usize = 8;

/// A conflict of a set: the index of its stage, and the conflict in that stage.
#[derive(Clone, Copy)]
pub struct SetConflict<'a> {
    pub stage: usize,
    pub found: Conflict<'a>,
}

/// Finds the least conflict of a stage. A component has only one cluster.
pub fn conflict_in<'a>(alloc: Global, stage: SetStage<'a>) -> Result<Option<Conflict<'a>>, NoMemory>
    requires { IsSpelled stage }
    ensures some { IfOk result (λ o. IfSome o
        (λ f. IsLeastConflict (clusters_in (stage_of stage.entry)) f.a f.b (key_bytes f.key.now))) }
    ensures none { IfOk result (λ o. IfNone o (HasNoConflict (clusters_in (stage_of stage.entry)))) }
    ensures key { IfOk result (λ o. IfSome o (λ f. key_format.fits f.key.now)) }
{
    match stage {
        SetStage::Component(_) => Ok(None),
        SetStage::Parallel(stage) => find_conflict(alloc, stage),
    }
}

/// Finds the least conflict of the first stage that has one.
pub fn first_in_turn<'a>(
    alloc: Global,
    stages: &[SetStage<'a>],
) -> Result<Option<SetConflict<'a>>, NoMemory>
    requires { All IsSpelled stages.now }
    ensures some { IfOk result (λ o. IfSome o
        (λ c. IsFirstConflict (clusters_of stages.now) c.stage c.found.a c.found.b (key_bytes c.found.key.now))) }
    ensures none { IfOk result (λ o. IfNone o (AllByRecursion HasNoConflict (clusters_of stages.now))) }
    ensures key { IfOk result (λ o. IfSome o (λ c. key_format.fits c.found.key.now)) }
{
    for (index, stage) in stages.iter().enumerate() {
        if let Some(found) = conflict_in(alloc, *stage)? {
            return Ok(Some(SetConflict {
                stage: index,
                found,
            }));
        }
    }
    Ok(None)
}

/// Finds the least conflict of the first stage that has one. If the set has more than `FEW_STAGES` stages, all workers look for
/// them.
pub fn first_conflict<'a, R: Threads + Sync, T>(
    workers: &Workers<'_, R, T>,
    alloc: Global,
    stages: &[SetStage<'a>],
) -> Result<Option<SetConflict<'a>>, NoMemory>
    requires spelled { All IsSpelled stages.now }
    ensures some { IfOk result (λ o. IfSome o
        (λ c. IsFirstConflict (clusters_of stages.now) c.stage c.found.a c.found.b (key_bytes c.found.key.now))) }
    ensures none { IfOk result (λ o. IfNone o (AllByRecursion HasNoConflict (clusters_of stages.now))) }
    ensures key { IfOk result (λ o. IfSome o (λ c. key_format.fits c.found.key.now)) }
{
    if workers.count == 1 || stages.len() <= FEW_STAGES {
        return first_in_turn(alloc, stages);
    }
    first_by_workers(workers, alloc, stages)
}
