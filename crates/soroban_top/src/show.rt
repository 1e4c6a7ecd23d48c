//! The command `show`: prints the content of a file.

ghost use Rattle.std.specs.Prelude.{◌≡◌, IfOk, IfErr, IfSome};
ghost use Rattle.command_words.specs.declared.request.Request.TheVariants.{Show as Asked};
ghost use Rattle.command_io.specs.Counts.{HasCause, NoLower, SameCounts};
ghost use Rattle.command_io.specs.Shown.{shown_opened};
ghost use Rattle.command_io.specs.Steps.{Gives, GivesExactly, UnlessFault, status_of};
ghost use Rattle.command_io.specs.Views.{made_of, targets_of};
ghost use Rattle.soroban_top.specs.Asked.{reads_of, writes_of};
ghost use Rattle.soroban_top.specs.Outcome.{outcome_of};

use crate::options::ONLY_FILE;
use command_io::{FileArg, Product, Status, read_file, shown_opened};
use command_words::ShowRequest;
use edge_io::Files;
use std::alloc::Global;

/// Reads the file, and makes the lines of its content.
pub fn show<'a, F: Files>(
    alloc: Global,
    files: &mut F,
    request: &'a ShowRequest,
) -> Result<Product<'a>, Status>
    ensures given { IfSome (F.contents files.old) (λ m. Gives made_of result (outcome_of (Asked request.now) m)) }
    ensures targets { IfOk result (λ p. targets_of p.stores.items ≡ writes_of (Asked request.now)) }
    ensures same { F.contents files.new ≡ F.contents files.old }
    ensures counts { NoLower (F.faults files.old) (F.faults files.new) }
    ensures cause { IfErr result (HasCause (reads_of (Asked request.now)) (F.faults files.old) (F.faults files.new)) }
    ensures steady { F.steady files.old
        → IfSome (F.contents files.old) (λ m. UnlessFault (status_of (outcome_of (Asked request.now) m))
        (F.steady files.new × SameCounts (F.faults files.old) (F.faults files.new))) }
    ensures steady_exact { F.steady files.old → IfSome (F.contents files.old) (λ m.
        GivesExactly made_of result (outcome_of (Asked request.now) m)) }
{
    let file = FileArg {
        option: ONLY_FILE,
        name: &request.file,
    };
    let text = read_file(alloc, files, &file)?;
    let lines = shown_opened(
        alloc,
        request.base64,
        request.kind,
        &request.file,
        text.as_slice(),
    )?;
    Ok(Product {
        stores: Vec::new(alloc),
        lines,
    })
}
