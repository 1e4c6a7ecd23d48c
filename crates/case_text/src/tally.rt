//! How many cases hold, and the report of those that do not.

use crate::case_err::CaseErr;
use std::alloc::Global;
use std::fmt::Write;

/// The number of cases that were judged, and of those that failed.
#[derive(Clone, Copy)]
pub struct Tally {
    judged: u64,
    failed: u64,
}

impl Tally {
    /// Makes a tally of no cases.
    pub fn new() -> Tally {
        Tally {
            judged: 0,
            failed: 0,
        }
    }

    /// Counts a case.
    pub fn count(&mut self, holds: bool) {
        self.judged = self.judged.saturating_add(1);
        if !holds {
            self.failed = self.failed.saturating_add(1);
        }
    }

    /// Whether a case was judged and none failed. A run without cases fails, so that a wrong `args` file cannot pass.
    pub fn all_hold(&self) -> bool {
        self.judged != 0 && self.failed == 0
    }

    /// The last line of a program's output.
    pub fn last_line(&self, alloc: Global, program: &str) -> Result<String, CaseErr> {
        let (judged, failed) = (self.judged, self.failed);
        let line = if judged == 0 {
            format!(in alloc; "{program}: no case was judged; usage: {program} TABLE..\n")?
        } else if failed == 0 {
            format!(in alloc; "{program}: {judged} cases hold\n")?
        } else {
            format!(in alloc; "{program}: {failed} of {judged} cases fail\n")?
        };
        Ok(line)
    }
}

/// Appends to a report the line of a case that fails, with its number, and the expected and the actual outcome.
pub fn push_failure(
    report: &mut String,
    number: usize,
    line: &str,
    expected: &str,
    came: &str,
) -> Result<(), CaseErr> {
    writeln!(report, "{number}: {line}")?;
    push_lines(report, "  expected ", expected)?;
    push_lines(report, "  came     ", came)
}

/// Appends the lines of a text, each with a head.
fn push_lines(report: &mut String, head: &str, text: &str) -> Result<(), CaseErr> {
    for line in text.lines() {
        writeln!(report, "{head}{line}")?;
    }
    Ok(())
}
