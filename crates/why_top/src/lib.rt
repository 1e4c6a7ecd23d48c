//! Shows what a run of a transaction did, and why a call failed: from the words to the lines.
#![tactic(auto)]

ghost use Rattle.std.specs.Prelude.{◌≡◌, ◌≢◌, ◌≤◌, IfErr};
ghost use Rattle.why_top.specs.Counts.{AreAllThere, IsNoFault, NoLower, SameCounts};
ghost use Rattle.why_top.specs.Ends.{code_due, said_of, Ends, IsDue, Prints};

mod counted;
mod error;
mod explaining;
mod over_files;
mod placing;
mod reading;

pub use counted::{archived_of, bytes_of, events_of};
use edge_io::{EdgeErr, Files, Say, Word};
pub use error::WhyErr;
pub use explaining::{Run, explain, explain_over, watched};
pub use over_files::explain_files;
pub use placing::explain_place;
use std::alloc::Global;
use why_words::request_of;
pub use why_words::{Form, Request, Target};

/// The exit code if a call failed.
const FAULT: u8 = 4;

/// The exit code if memory ran out.
const NO_MEMORY: u8 = 5;

/// Runs the program of these words, and prints its lines, or the line of its refusal. Returns the exit code. It stores no file.
pub fn why<F: Files, S: Say>(alloc: Global, words: &[Word], files: &mut F, say: &mut S) -> u8
    // The lines or the line that are due are printed, and their code is returned: 4 if not all could be printed, and 5 if memory
    // ran out.
    ensures ends { Ends words.now (F.contents files.old) (F.faults files.old) (F.faults files.new) result
        (S.text say.old) (S.text say.new) (S.faults say.old) (S.faults say.new) }
    // On steady files that are there no call fails, and on a steady output none does: they stay steady, and no count changes.
    // If both are steady, the code is not 4.
    ensures present { F.steady files.old → AreAllThere words.now (F.contents files.old) →
        F.steady files.new × SameCounts (F.faults files.old) (F.faults files.new) }
    ensures say_steady { S.steady say.old → S.steady say.new × (S.faults say.new ≡ S.faults say.old) }
    ensures steady { F.steady files.old → S.steady say.old → AreAllThere words.now (F.contents files.old) → result ≢ 4 }
    ensures same { F.contents files.new ≡ F.contents files.old }
    ensures counts { NoLower (F.faults files.old) (F.faults files.new) }
    ensures say_count { S.faults say.old ≤ S.faults say.new }
{
    let came_to = lines(alloc, words, files);
    finish(alloc, came_to, say)
}

/// Prints the lines of a run, or the line of a refusal. Returns the exit code.
fn finish<S: Say>(alloc: Global, came_to: Result<Vec<u8>, WhyErr>, say: &mut S) -> u8
    ensures prints { Prints (said_of (λ v. v.items) came_to) (code_due came_to) result
        (S.text say.old) (S.text say.new) (S.faults say.old) (S.faults say.new) }
    ensures steady { S.steady say.old → IfErr came_to IsNoFault → result ≢ 4 }
    ensures say_steady { S.steady say.old → S.steady say.new × (S.faults say.new ≡ S.faults say.old) }
    ensures say_count { S.faults say.old ≤ S.faults say.new }
{
    match came_to {
        Ok(lines) => print(say, &lines, 0),
        Err(error) => match error.line(alloc) {
            Ok(line) => print(say, &line, error.code()),
            Err(_) => NO_MEMORY,
        },
    }
}

/// Prints the bytes, and returns the code that is due for them, unless the output fails or memory runs out.
fn print<S: Say>(say: &mut S, bytes: &[u8], due: u8) -> u8
    ensures prints { Prints bytes.now due result (S.text say.old) (S.text say.new) (S.faults say.old) (S.faults say.new) }
    ensures steady { S.steady say.old → due ≢ 4 → result ≢ 4 }
    ensures say_steady { S.steady say.old → S.steady say.new × (S.faults say.new ≡ S.faults say.old) }
    ensures say_count { S.faults say.old ≤ S.faults say.new }
{
    match say.say(bytes) {
        Ok(()) => due,
        Err(EdgeErr::Failed) => FAULT,
        Err(EdgeErr::NoMemory) => NO_MEMORY,
    }
}

/// The lines of a run.
fn lines<F: Files>(alloc: Global, words: &[Word], files: &mut F) -> Result<Vec<u8>, WhyErr>
    ensures due { IsDue (λ v. v.items) words.now (F.contents files.old) (F.faults files.old) (F.faults files.new) result }
    ensures steady { F.steady files.old → AreAllThere words.now (F.contents files.old) →
        IfErr result IsNoFault × F.steady files.new × SameCounts (F.faults files.old) (F.faults files.new) }
    ensures same { F.contents files.new ≡ F.contents files.old }
    ensures counts { NoLower (F.faults files.old) (F.faults files.new) }
{
    let request = request_of(alloc, words)?;
    explain_files(alloc, files, &request)
}
