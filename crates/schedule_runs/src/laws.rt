//! The law of sets that run by a schedule.

ghost use Rattle.schedule_runs.specs.Laws.{WholeLaw};

/// A complete schedule whose steps all run does what its set does, if the set has no conflict.
pub fn whole_schedules()
    ensures { WholeLaw }
{}
