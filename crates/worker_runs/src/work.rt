//! The work of a worker.

ghost use Rattle.std.specs.Prelude.{ℕ};

/// Work that several workers share. It is done on one job at a time.
pub trait Work<J> {
    /// What the work needs of a job. The number is the job's index in its list.
    ghost can: { Self → ℕ → J → Type 0 };

    /// What the work leaves: the job before, and the job after.
    ghost gives: { Self → ℕ → J → J → Type 0 };

    /// Does the work on a job. `index` is the job's index in its list.
    fn work(&self, index: usize, job: &mut J)
        requires { can self.now index job.old }
        ensures { gives self.now index job.old job.new };
}
