//! Hands jobs to workers.

ghost use denote.Param.Send.{IsSync, IsSend};
ghost use Rattle.std.specs.Prelude.{◌<◌, ◌+◌, ◌^◌};
ghost use Rattle.worker_runs.specs.Worked.{CanWork, IsRun, IsWorked};

use crate::work::Work;
use std::thread::{Threads, for_each_mut, join_mut};

/// Works on each job of a list. Each worker takes a run of ceil(jobs / workers) jobs that follow one another, and works on them
/// in order. If there are several runs, each has a thread of its own, and the caller's thread only waits: a new thread often
/// begins on the processor of the thread that started it, and would have to wait there. Where no further thread can be started,
/// the caller's thread works on these jobs, too.
pub fn run_each<R: Threads + Sync, J: Send, W: Work<J> + Sync>(
    rt: &R,
    work: &W,
    workers: usize,
    jobs: &mut [J],
)
    requires workers { 0 < workers }
    requires can { CanWork (W.can work.now) 0 jobs.old }
    ensures { IsWorked (W.gives work.now) 0 jobs.old jobs.new }
{
    let size = jobs.len().div_ceil(workers);
    if size < jobs.len() {
        spread(rt, work, size, 0, jobs);
    } else {
        in_turn(rt, work, 0, jobs);
    }
}

/// Starts a thread for each run of at most `size` jobs, and waits for all of them. `first` is the index of the first job.
#[cycle(threads)]
fn spread<R: Threads + Sync, J: Send, W: Work<J> + Sync>(
    rt: &R,
    work: &W,
    size: usize,
    first: usize,
    jobs: &mut [J],
)
    requires size { 0 < size }
    requires can { IsRun (W.can work.now) first jobs.old }
    ensures { IsWorked (W.gives work.now) first jobs.old jobs.new }
{
    if jobs.is_empty() {
        return;
    }
    let (run, rest) = jobs.split_at_mut(size.min(jobs.len()));
    let next = first + run.len();
    beside(rt, work, size, first, run, next, rest);
}

/// Starts a thread for a run of jobs, and threads for the jobs behind it, which begin with the index `next`.
#[cycle(threads)]
fn beside<R: Threads + Sync, J: Send, W: Work<J> + Sync>(
    rt: &R,
    work: &W,
    size: usize,
    first: usize,
    run: &mut [J],
    next: usize,
    rest: &mut [J],
)
    requires size { 0 < size }
    requires run { IsRun (W.can work.now) first run.old }
    requires rest { IsRun (W.can work.now) next rest.old }
    ensures run { IsWorked (W.gives work.now) first run.old run.new }
    ensures rest { IsWorked (W.gives work.now) next rest.old rest.new }
{
    let mut front = ||
        requires { IsSync R.row × IsSync W.row × IsSend J.row × IsRun (W.can work.now) first run.now }
        ensures { IsWorked (W.gives work.entry.now) first run.entry.now run.exit.now }
    { in_turn(rt, work, first, run) };
    let mut back = ||
        requires { IsSync R.row × IsSync W.row × IsSend J.row × (0 < size) × IsRun (W.can work.now) next rest.now }
        ensures { IsWorked (W.gives work.entry.now) next rest.entry.now rest.exit.now }
    { spread(rt, work, size, next, rest) };
    join_mut(rt, &mut front, &mut back);
}

/// Works on jobs in order, in the caller's thread. `first` is the index of the first one.
fn in_turn<R: Threads + Sync, J: Send, W: Work<J> + Sync>(
    rt: &R,
    work: &W,
    first: usize,
    jobs: &mut [J],
)
    requires can { IsRun (W.can work.now) first jobs.old }
    ensures { IsWorked (W.gives work.now) first jobs.old jobs.new }
{
    let each = move |index: usize, job: &mut J|
        requires { (first + index < 2 ^ 64) × W.can work.now (first + index) job.now }
        ensures { W.gives work.entry.now (first + index) job.entry.now job.exit.now }
    { work.work(first + index, job) };
    for_each_mut(rt, jobs, 1, &each);
}
