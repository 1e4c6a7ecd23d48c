//! The order in which a set runs: a schedule, if one is given.

ghost use Rattle.std.specs.Prelude.{◌≡◌, [], ◌∷◌, IfOk, IfErr, IfSome, is_some};
ghost use Rattle.command_io.specs.Counts.{HasCause, IsOfBytes, NoLower, SameCounts};
ghost use Rattle.command_io.specs.Product.{file};
ghost use Rattle.command_io.specs.Steps.{Gives, GivesExactly, UnlessFault, status_of};
ghost use Rattle.soroban_top.specs.Asked.{schedule_files};
ghost use Rattle.soroban_top.specs.Scheduled.{schedule_at, schedule_in, scheduled_at};

use crate::options::SCHEDULE;
use command_io::{FileArg, Status, read_file};
use command_words::ScheduleOptions;
use edge_io::{Files, Word};
use schedule_runs::Schedule;
use std::alloc::Global;
use xdr_core::ReadXdr;

/// A schedule, and how many of its steps run.
#[derive(Drop)]
pub struct ScheduledSteps {
    pub schedule: Schedule,
    pub steps: u64,
}

/// Reads the order of a set, if a schedule is given.
pub fn read_scheduled<F: Files>(
    alloc: Global,
    files: &mut F,
    options: &Option<ScheduleOptions>,
) -> Result<Option<ScheduledSteps>, Status>
    ensures given { IfSome (F.contents files.old) (λ m. Gives (λ o. o) result (scheduled_at m options.now)) }
    ensures asked { IfOk result (λ o. is_some o ≡ is_some options.now) }
    ensures same { F.contents files.new ≡ F.contents files.old }
    ensures counts { NoLower (F.faults files.old) (F.faults files.new) }
    ensures cause { IfErr result (HasCause (schedule_files options.now) (F.faults files.old) (F.faults files.new)) }
    ensures steady { F.steady files.old → IfSome (F.contents files.old) (λ m. UnlessFault (status_of (scheduled_at m options.now))
        (F.steady files.new × SameCounts (F.faults files.old) (F.faults files.new))) }
    ensures steady_exact { F.steady files.old → IfSome (F.contents files.old) (λ m.
        GivesExactly (λ o. o) result (scheduled_at m options.now)) }
{
    match options {
        None => Ok(None),
        Some(options) => {
            let schedule = read_schedule(alloc, files, &options.file)?;
            let steps = options.steps;
            Ok(Some(ScheduledSteps { schedule, steps }))
        }
    }
}

/// Reads the schedule in a file.
fn read_schedule<F: Files>(alloc: Global, files: &mut F, name: &Word) -> Result<Schedule, Status>
    ensures given { IfSome (F.contents files.old) (λ m. Gives (λ s. s) result (schedule_at m name.now)) }
    ensures same { F.contents files.new ≡ F.contents files.old }
    ensures counts { NoLower (F.faults files.old) (F.faults files.new) }
    ensures cause { IfErr result (HasCause (file 5 name.now ∷ []) (F.faults files.old) (F.faults files.new)) }
    ensures steady { F.steady files.old → IfSome (F.contents files.old) (λ m. UnlessFault (status_of (schedule_at m name.now))
        (F.steady files.new × SameCounts (F.faults files.old) (F.faults files.new))) }
    ensures steady_exact { F.steady files.old → IfSome (F.contents files.old) (λ m.
        GivesExactly (λ s. s) result (schedule_at m name.now)) }
{
    let file = FileArg {
        option: SCHEDULE,
        name,
    };
    let bytes = read_file(alloc, files, &file)?;
    schedule_in(alloc, bytes.as_slice())
}

#[tactic(auto, unfolding(crate::specs::Scheduled::schedule_in))]
fn schedule_in(alloc: Global, bytes: &[u8]) -> Result<Schedule, Status>
    ensures given { Gives (λ s. s) result (schedule_in bytes.now) }
    ensures cause { IfErr result IsOfBytes }
{
    match schedule_runs::read_schedule(alloc, bytes) {
        Ok(schedule) => Ok(schedule),
        Err(ReadXdr::Bad(error)) => Err(Status::Schedule { at: error.at }),
        // Bytes in memory never stop.
        Err(ReadXdr::NoMemory | ReadXdr::Stopped) => Err(Status::NoMemory),
    }
}
