//! What a program adds: its kinds of cases.

ghost use denote.Param.Send.{IsSync};

use crate::case_err::CaseErr;
use crate::fragments::Fragments;
use std::alloc::Global;
use std::rt::Runtime;
use std::thread::Threads;

/// A line of a table, up to its expected outcome.
#[derive(Clone, Copy)]
pub struct Case<'a> {
    /// The line's first word.
    pub kind: &'a str,
    /// The words behind it.
    pub words: &'a str,
}

/// A program's kinds of cases.
pub trait Judge {
    /// Forgets what the lines of the table before prepared.
    fn begin_table<R: Runtime + AllocGlobal>(&mut self, rt: &R, alloc: Global);

    /// Appends the outcome of a case to `out`: its lines, each with a newline at its end. A line that has no outcome, but
    /// only prepares what later cases find, appends nothing. A line that is not understood returns `CaseErr::Lacks`.
    fn outcome<R: Runtime + AllocGlobal + Threads + Sync>(
        &mut self,
        rt: &R,
        alloc: Global,
        fragments: &Fragments,
        case: Case,
        out: &mut String,
    ) -> Result<(), CaseErr>
        requires sync { IsSync R.row };
}
