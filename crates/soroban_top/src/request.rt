//! From a request to its product.

ghost use Rattle.std.specs.Prelude.{◌≡◌, IfOk, IfErr, IfSome, Some};
ghost use Rattle.command_words.specs.Words.{IsInRange};
ghost use Rattle.command_io.specs.Counts.{HasCause, NoLower, SameCounts};
ghost use Rattle.command_io.specs.Steps.{Gives, GivesExactly, UnlessFault, status_of};
ghost use Rattle.command_io.specs.Views.{made_of, targets_of};
ghost use Rattle.soroban_top.specs.Asked.{reads_of, writes_of};
ghost use Rattle.soroban_top.specs.LogPlays.{LogPlaysIf};
ghost use Rattle.soroban_top.specs.Outcome.{outcome_of};

use crate::apply::apply;
use crate::building::build;
use crate::generating::generate;
use crate::listing::apply_list;
use crate::migrate::migrate;
use crate::recording::record;
use crate::replaying::play;
use crate::show::show;
use crate::simulate::simulate;
use crate::vetting::vet;
use command_io::{Product, Status};
use command_words::Request;
use edge_io::{Files, Gate};
use std::alloc::Global;
use std::thread::Threads;

/// Reads the files of a command, and makes its stores and lines.
pub fn produce<'a, R: Threads + Sync, F: Files, G: Gate + Sync>(
    rt: &R,
    alloc: Global,
    request: &'a Request,
    files: &mut F,
    gate: &G,
) -> Result<Product<'a>, Status>
    requires range { IsInRange request.now }
    ensures given { IfSome (F.contents files.old) (λ m. Gives made_of result (outcome_of request.now m)) }
    ensures plays { IfOk result (λ _. IfSome (F.contents files.old) (λ m. LogPlaysIf (Some request.now) m)) }
    ensures targets { IfOk result (λ p. targets_of p.stores.items ≡ writes_of request.now) }
    ensures same { F.contents files.new ≡ F.contents files.old }
    ensures counts { NoLower (F.faults files.old) (F.faults files.new) }
    ensures cause { IfErr result (HasCause (reads_of request.now) (F.faults files.old) (F.faults files.new)) }
    ensures steady { F.steady files.old → IfSome (F.contents files.old) (λ m. UnlessFault (status_of (outcome_of request.now m))
        (F.steady files.new × SameCounts (F.faults files.old) (F.faults files.new))) }
    ensures steady_exact { F.steady files.old → IfSome (F.contents files.old) (λ m.
        GivesExactly made_of result (outcome_of request.now m)) }
{
    match request {
        Request::Apply(options) => apply(rt, alloc, files, options, gate),
        Request::Simulate(options) => simulate(alloc, files, options),
        Request::Show(options) => show(alloc, files, options),
        Request::Vet(options) => vet(alloc, files, options),
        Request::Migrate(options) => migrate(alloc, files, options),
        Request::Gen(options) => generate(alloc, options),
        Request::Build(options) => build(alloc, files, options),
        Request::Play(options) => play(alloc, files, options),
        Request::ApplyList(options) => apply_list(rt, alloc, files, options, gate),
        Request::Record(options) => record(alloc, files, options),
    }
}
