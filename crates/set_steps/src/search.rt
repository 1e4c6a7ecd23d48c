//! Looks for the conflicts of a set's stages by several workers.

ghost use Rattle.std.specs.Prelude.{◌≡◌, All, IfOk, IfSome, IfNone, map};
ghost use Rattle.std.specs.List.{AllByRecursion};
ghost use Rattle.ledger_spec.specs.LedgerMap.{key_bytes};
ghost use Rattle.ledger_types.specs.Key.{key_format};
ghost use Rattle.worker_runs.specs.Worked.{IsWorked};
ghost use Rattle.stage_runs.specs.Runs.{clusters_in, HasNoConflict};
ghost use Rattle.stage_runs.specs.Conflicts.{IsFirstConflict, IsLeastConflict};
ghost use Rattle.set_steps.specs.Search.{IsAnswered, IsSearched};
ghost use Rattle.set_steps.specs.Stages.{clusters_of, stage_of, IsSpelled};

use crate::conflict::{SetConflict, conflict_in};
use crate::stages::SetStage;
use crate::workers::Workers;
use stage_plan::Conflict;
use std::alloc::Global;
use std::thread::Threads;
use worker_runs::{Work, run_each};
use xdr_core::NoMemory;

/// A stage of a set, with room for its least conflict.
#[derive(Drop)]
pub struct StageSearch<'a> {
    pub stage: SetStage<'a>,
    /// `Err(NoMemory)` until the stage was searched, and if memory ran out in the search.
    pub found: Result<Option<Conflict<'a>>, NoMemory>,
}

/// What the workers do with a stage: they look for its least conflict.
#[derive(Drop)]
pub struct SearchWork {
    pub alloc: Global,
}

impl<'a> Work<StageSearch<'a>> for SearchWork {
    ghost can = { λ _ _ search. IsSpelled search.stage };

    ghost gives = { λ _ _ x y. IsSearched x y };

    fn work(&self, _index: usize, search: &mut StageSearch<'a>) {
        search.found = conflict_in(self.alloc, search.stage);
    }
}

/// Makes room for what is found in each stage.
fn searches_of<'a>(alloc: Global, stages: &[SetStage<'a>]) -> Result<Vec<StageSearch<'a>>, NoMemory>
    ensures { IfOk result (λ searches. map (λ s. s.stage) searches.items ≡ stages.now) }
{
    let mut searches = Vec::with_capacity(alloc, stages.len())?;
    for stage in stages {
        searches.push(StageSearch {
            stage: *stage,
            found: Err(NoMemory),
        })?;
    }
    Ok(searches)
}

/// Hands the stages to the workers.
fn search_all<R: Threads + Sync, T>(
    workers: &Workers<'_, R, T>,
    alloc: Global,
    searches: &mut [StageSearch<'_>],
)
    requires { All (λ s. IsSpelled s.stage) searches.old }
    ensures { IsWorked (λ _ x y. IsSearched x y) 0 searches.old searches.new }
{
    let work = SearchWork { alloc };
    run_each(workers.rt, &work, workers.count, searches);
}

/// Looks for the conflict of each stage, and returns what was found.
fn search_through<'a, R: Threads + Sync, T>(
    workers: &Workers<'_, R, T>,
    alloc: Global,
    searches: Vec<StageSearch<'a>>,
) -> Vec<StageSearch<'a>>
    requires spelled { All (λ s. IsSpelled s.stage) searches.items }
    ensures { IsWorked (λ _ x y. IsSearched x y) 0 searches.entry.items result.items }
{
    let mut searches = searches;
    search_all(workers, alloc, &mut searches);
    searches
}

/// Returns what was found in a stage.
fn answer_of<'a>(search: &StageSearch<'a>) -> Result<Option<Conflict<'a>>, NoMemory>
    requires { IsAnswered search.now }
    ensures some { IfOk result (λ o. IfSome o
        (λ f. IsLeastConflict (clusters_in (stage_of search.now.stage)) f.a f.b (key_bytes f.key.now))) }
    ensures none { IfOk result (λ o. IfNone o (HasNoConflict (clusters_in (stage_of search.now.stage)))) }
    ensures key { IfOk result (λ o. IfSome o (λ f. key_format.fits f.key.now)) }
{
    search.found
}

/// Returns the least conflict of the first of these stages that has one. It is out of memory if memory ran out in the search of a
/// stage before.
fn first_found<'a>(searches: &[StageSearch<'a>]) -> Result<Option<SetConflict<'a>>, NoMemory>
    requires { All IsAnswered searches.now }
    ensures some { IfOk result (λ o. IfSome o (λ c. IsFirstConflict (clusters_of (map (λ s. s.stage) searches.now))
        c.stage c.found.a c.found.b (key_bytes c.found.key.now))) }
    ensures none { IfOk result (λ o. IfNone o (AllByRecursion HasNoConflict (clusters_of (map (λ s. s.stage) searches.now)))) }
    ensures key { IfOk result (λ o. IfSome o (λ c. key_format.fits c.found.key.now)) }
{
    for (index, search) in searches.iter().enumerate() {
        if let Some(found) = answer_of(search)? {
            return Ok(Some(SetConflict {
                stage: index,
                found,
            }));
        }
    }
    Ok(None)
}

/// Finds the least conflict of the first stage that has one. The workers look for the conflicts of all stages.
pub fn first_by_workers<'a, R: Threads + Sync, T>(
    workers: &Workers<'_, R, T>,
    alloc: Global,
    stages: &[SetStage<'a>],
) -> Result<Option<SetConflict<'a>>, NoMemory>
    requires { All IsSpelled stages.now }
    ensures some { IfOk result (λ o. IfSome o
        (λ c. IsFirstConflict (clusters_of stages.now) c.stage c.found.a c.found.b (key_bytes c.found.key.now))) }
    ensures none { IfOk result (λ o. IfNone o (AllByRecursion HasNoConflict (clusters_of stages.now))) }
    ensures key { IfOk result (λ o. IfSome o (λ c. key_format.fits c.found.key.now)) }
{
    let searches = searches_of(alloc, stages)?;
    let searched = search_through(workers, alloc, searches);
    first_found(&searched)
}
