//! One command, from its words to its status. What all commands share, from their files to their printed lines, is `command_io`.
#![tactic(auto)]

ghost use Rattle.std.specs.Prelude.{◌≡◌, ◌≤◌, ◌⊎◌, None, IfOk, IfErr, IfSome};
ghost use Rattle.command_words.specs.Words.{IsInRange, asked_of};
ghost use Rattle.edge_io.specs.Text.{extended};
ghost use Rattle.command_io.specs.Counts.{NoLower, SameCounts, FaultHasCause, HasCause, HasCauseFor, NoneRose};
ghost use Rattle.command_io.specs.Inputs.{AreThere};
ghost use Rattle.command_io.specs.Left.{Leaves, OnRefused};
ghost use Rattle.command_io.specs.Lines.{line_of};
ghost use Rattle.command_io.specs.Steps.{Gives, GivesExactly, UnlessFault, UnlessFree, status_of};
ghost use Rattle.soroban_top.specs.Asked.{reads_of, reads_named, files_named};
ghost use Rattle.soroban_top.specs.Ends.{Ends, outside};
ghost use Rattle.soroban_top.specs.LogPlays.{LogPlaysIf};
ghost use Rattle.soroban_top.specs.Outcome.{due, outcome_if, outcome_of, says_of};

mod apply;
mod building;
mod generating;
mod laws;
mod listing;
mod migrate;
mod options;
mod outputs;
mod recording;
mod replaying;
mod request;
mod scheduled;
mod show;
mod simulate;
mod simulation;
mod vetting;

pub use command_io::{KeyBytes, Status, finish};
use command_io::{asked, store_all};
use command_words::Request;
use edge_io::{Files, Gate, Say, Word};
pub use laws::{
    apply_laws, apply_list_laws, build_laws, first_conflict_laws, gen_laws, migrate_laws,
    play_back_laws, play_laws, schedule_laws, show_laws, simulate_laws, vet_law,
};
use request::produce;
use scheduled::ScheduledSteps;
use std::alloc::Global;
use std::thread::Threads;

/// Runs the command of the words, and prints the lines of its status.
///
/// The runtime starts the threads of the workers of `apply` and `apply-list`. They enter the gate before each cluster if no
/// schedule is given, and before each envelope of a list.
pub fn soroban<R: Threads + Sync, F: Files, S: Say, G: Gate + Sync>(
    rt: &R,
    alloc: Global,
    words: &[Word],
    files: &mut F,
    say: &mut S,
    gate: &G,
) -> Status
    // Usage comes exactly if the words are wrong, unless its line could not be printed or memory ran out.
    ensures usage_only { result ≡ Status.Usage → asked_of words.now ≡ None }
    ensures usage { asked_of words.now ≡ None → UnlessFree result (result ≡ Status.Usage) }

    // A fault has the name of a file whose count rose, or the empty name if the output's count rose.
    ensures cause { HasCauseFor (files_named (asked_of words.now))
        (F.faults files.old) (F.faults files.new) (S.faults say.old) (S.faults say.new) result }

    // If the content of the files is known, any status but a fault and NoMemory is the one that is due.
    ensures due { IfSome (F.contents files.old) (λ m. UnlessFree result (result ≡ due (asked_of words.now) m)) }

    // If no count rose, the status is the one that is due, unless memory ran out.
    ensures exact { IfSome (F.contents files.old) (λ m. NoneRose (files_named (asked_of words.now))
        (F.faults files.old) (F.faults files.new) (S.faults say.old) (S.faults say.new) →
        (result ≡ due (asked_of words.now) m) ⊎ (result ≡ Status.NoMemory)) }

    // With steady files and a steady output, the status is the one that is due, unless memory ran out. For a missing file that is
    // a fault of its name.
    ensures steady_exact { F.steady files.old → S.steady say.old → IfSome (F.contents files.old) (λ m.
        (result ≡ due (asked_of words.now) m) ⊎ (result ≡ Status.NoMemory)) }

    // The files and the output's text afterwards. A change log that is stored can be played there and back.
    ensures left { IfSome (F.contents files.old) (λ m. Ends (asked_of words.now) m result
        (outside (F.contents files.old) (S.text say.old)) (outside (F.contents files.new) (S.text say.new))) }
    ensures refused { OnRefused result
        ((F.contents files.new ≡ F.contents files.old) × (S.text say.new ≡ extended (S.text say.old) (line_of result))) }

    // With steady files no count rises if no fault is due, or if each file that is read exists. The count of a steady output
    // never rises.
    ensures steady { F.steady files.old → IfSome (F.contents files.old) (λ m. UnlessFault (due (asked_of words.now) m)
        (SameCounts (F.faults files.old) (F.faults files.new))) }
    ensures present { F.steady files.old → IfSome (F.contents files.old) (λ m. AreThere (reads_named (asked_of words.now)) m →
        SameCounts (F.faults files.old) (F.faults files.new)) }
    ensures say_steady { S.steady say.old → S.faults say.new ≡ S.faults say.old }
    ensures counts { NoLower (F.faults files.old) (F.faults files.new) }
    ensures say_count { S.faults say.old ≤ S.faults say.new }
{
    let outcome = perform(rt, alloc, words, files, gate);
    finish(alloc, outcome, say)
}

/// Reads, computes and stores. Returns the lines to print, or the status whose line is to be printed.
fn perform<R: Threads + Sync, F: Files, G: Gate + Sync>(
    rt: &R,
    alloc: Global,
    words: &[Word],
    files: &mut F,
    gate: &G,
) -> Result<Vec<u8>, Status>
    ensures usage_only { status_of result ≡ Status.Usage → asked_of words.now ≡ None }
    ensures usage { asked_of words.now ≡ None → UnlessFree (status_of result) (status_of result ≡ Status.Usage) }
    ensures cause { FaultHasCause (files_named (asked_of words.now)) (F.faults files.old) (F.faults files.new)
        (status_of result) }
    ensures given { IfSome (F.contents files.old)
        (λ m. Gives (λ v. v.items) result (says_of (outcome_if (asked_of words.now) m))) }
    ensures left { IfSome (F.contents files.old) (λ m. Leaves (status_of result) (reads_named (asked_of words.now))
        (outcome_if (asked_of words.now) m) (F.contents files.old) (F.contents files.new)) }
    ensures plays { IfOk result (λ _. IfSome (F.contents files.old) (λ m. LogPlaysIf (asked_of words.now) m)) }
    ensures refused { OnRefused (status_of result) (F.contents files.new ≡ F.contents files.old) }
    ensures steady { F.steady files.old → IfSome (F.contents files.old) (λ m. UnlessFault (due (asked_of words.now) m)
        (SameCounts (F.faults files.old) (F.faults files.new))) }
    ensures steady_exact { F.steady files.old → IfSome (F.contents files.old) (λ m.
        GivesExactly (λ v. v.items) result (says_of (outcome_if (asked_of words.now) m))) }
    ensures counts { NoLower (F.faults files.old) (F.faults files.new) }
{
    let request = asked(alloc, words)?;
    run(rt, alloc, &request, files, gate)
}

/// Does the same for a request.
fn run<R: Threads + Sync, F: Files, G: Gate + Sync>(
    rt: &R,
    alloc: Global,
    request: &Request,
    files: &mut F,
    gate: &G,
) -> Result<Vec<u8>, Status>
    requires range { IsInRange request.now }
    ensures cause { IfErr result (HasCause (files_named (Some request.now)) (F.faults files.old) (F.faults files.new)) }
    ensures given { IfSome (F.contents files.old) (λ m. Gives (λ v. v.items) result (says_of (outcome_of request.now m))) }
    ensures left { IfSome (F.contents files.old) (λ m. Leaves (status_of result) (reads_of request.now)
        (outcome_of request.now m) (F.contents files.old) (F.contents files.new)) }
    ensures plays { IfOk result (λ _. IfSome (F.contents files.old) (λ m. LogPlaysIf (Some request.now) m)) }
    ensures refused { OnRefused (status_of result) (F.contents files.new ≡ F.contents files.old) }
    ensures steady { F.steady files.old → IfSome (F.contents files.old) (λ m. UnlessFault (status_of (outcome_of request.now m))
        (SameCounts (F.faults files.old) (F.faults files.new))) }
    ensures steady_exact { F.steady files.old → IfSome (F.contents files.old) (λ m.
        GivesExactly (λ v. v.items) result (says_of (outcome_of request.now m))) }
    ensures counts { NoLower (F.faults files.old) (F.faults files.new) }
{
    let product = produce(rt, alloc, request, files, gate)?;
    store_all(files, &product.stores)?;
    Ok(product.lines)
}
