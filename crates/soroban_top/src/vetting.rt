//! The command `vet`: validates a WebAssembly module.

ghost use Rattle.std.specs.Prelude.{◌≡◌, IfOk, IfErr, IfSome};
ghost use Rattle.command_words.specs.declared.request.Request.TheVariants.{Vet as Asked};
ghost use Rattle.command_io.specs.Counts.{HasCause, NoLower, SameCounts};
ghost use Rattle.command_io.specs.Steps.{Gives, GivesExactly, UnlessFault, status_of};
ghost use Rattle.command_io.specs.Vetted.{vetted};
ghost use Rattle.command_io.specs.Views.{made_of, targets_of};
ghost use Rattle.soroban_top.specs.Asked.{reads_of, writes_of};
ghost use Rattle.soroban_top.specs.Outcome.{outcome_of};

use crate::options::ONLY_FILE;
use command_io::{FileArg, Product, Status, read_file, vetted};
use command_words::VetRequest;
use edge_io::Files;
use std::alloc::Global;

/// Reads and checks the module, and makes its line.
pub fn vet<'a, F: Files>(
    alloc: Global,
    files: &mut F,
    request: &'a VetRequest,
) -> Result<Product<'a>, Status>
    ensures given { IfSome (F.contents files.old) (λ m. Gives made_of result (outcome_of (Asked request.now) m)) }
    ensures targets { IfOk result (λ p. targets_of p.stores.items ≡ writes_of (Asked request.now)) }
    ensures same { F.contents files.new ≡ F.contents files.old }
    ensures counts { NoLower (F.faults files.old) (F.faults files.new) }
    ensures cause { IfErr result (HasCause (reads_of (Asked request.now)) (F.faults files.old) (F.faults files.new)) }
    ensures steady { F.steady files.old
        → IfSome (F.contents files.old) (λ m. UnlessFault (status_of (outcome_of (Asked request.now) m))
        (F.steady files.new × SameCounts (F.faults files.old) (F.faults files.new))) }
    ensures steady_exact { F.steady files.old → IfSome (F.contents files.old) (λ m.
        GivesExactly made_of result (outcome_of (Asked request.now) m)) }
{
    let module_file = FileArg {
        option: ONLY_FILE,
        name: &request.module_file,
    };
    let bytes = read_file(alloc, files, &module_file)?;
    let lines = vetted(alloc, bytes.as_slice())?;
    Ok(Product {
        stores: Vec::new(alloc),
        lines,
    })
}
