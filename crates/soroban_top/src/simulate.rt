//! The command `simulate`: finds the footprint that a transaction needs, and its result with that footprint.

ghost use Rattle.std.specs.Prelude.{◌≡◌, IfOk, IfErr, IfSome};
ghost use Rattle.command_words.specs.declared.request.Request.TheVariants.{Simulate as Asked};
ghost use Rattle.command_io.specs.Counts.{HasCause, NoLower, SameCounts};
ghost use Rattle.command_io.specs.Product.{file};
ghost use Rattle.command_io.specs.Steps.{Gives, GivesExactly, UnlessFault, status_of};
ghost use Rattle.command_io.specs.Views.{made_of, targets_of};
ghost use Rattle.soroban_top.specs.Asked.{reads_of, writes_of};
ghost use Rattle.soroban_top.specs.Outcome.{simulated, outcome_of};
ghost use Rattle.soroban_top.specs.Views.{simulation_in};

use crate::options::{LEDGER, OUT, TX, VERDICTS};
use crate::simulation::{Simulation, make_simulation};
use command_io::{FileArg, OutputFile, Product, Status, read_envelope, read_ledger, read_verdicts};
use command_words::SimulateRequest;
use edge_io::Files;
use std::alloc::{AllocError, Global};

/// Reads and checks the three files, and makes the file with the footprint and the result, and the lines.
pub fn simulate<'a, F: Files>(
    alloc: Global,
    files: &mut F,
    request: &'a SimulateRequest,
) -> Result<Product<'a>, Status>
    ensures given { IfSome (F.contents files.old) (λ m. Gives made_of result (outcome_of (Asked request.now) m)) }
    ensures targets { IfOk result (λ p. targets_of p.stores.items ≡ writes_of (Asked request.now)) }
    ensures same { F.contents files.new ≡ F.contents files.old }
    ensures counts { NoLower (F.faults files.old) (F.faults files.new) }
    ensures cause { IfErr result (HasCause (reads_of (Asked request.now)) (F.faults files.old) (F.faults files.new)) }
    ensures steady { F.steady files.old
        → IfSome (F.contents files.old) (λ m. UnlessFault (status_of (outcome_of (Asked request.now) m))
        (F.steady files.new × SameCounts (F.faults files.old) (F.faults files.new))) }
    ensures steady_exact { F.steady files.old → IfSome (F.contents files.old) (λ m.
        GivesExactly made_of result (outcome_of (Asked request.now) m)) }
{
    let ledger = read_ledger(alloc, files, LEDGER, &request.ledger)?;
    let verdicts = read_verdicts(alloc, files, VERDICTS, &request.verdicts)?;
    let envelope = read_envelope(alloc, files, TX, &request.tx, request.base64)?;
    let simulation = make_simulation(alloc, &ledger, &verdicts, envelope, request.close_time)?;
    let product = product_of(alloc, request, simulation)?;
    Ok(product)
}

/// Stores the file, and prints the lines.
fn product_of<'a>(
    alloc: Global,
    request: &'a SimulateRequest,
    simulation: Simulation,
) -> Result<Product<'a>, AllocError>
    ensures made { IfOk result (λ p. made_of p ≡ simulated (file 3 request.now.out) (simulation_in simulation)) }
    ensures targets { IfOk result (λ p. targets_of p.stores.items ≡ writes_of (Asked request.now)) }
{
    let file = FileArg {
        option: OUT,
        name: &request.out,
    };
    let mut stores = Vec::new(alloc);
    stores.push(OutputFile {
        file,
        bytes: simulation.file,
    })?;
    Ok(Product {
        stores,
        lines: simulation.lines,
    })
}
