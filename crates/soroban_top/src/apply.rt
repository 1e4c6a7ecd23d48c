//! The command `apply`: applies a transaction set to a ledger.

ghost use Rattle.std.specs.Prelude.{◌≡◌, ◌≤◌, [], ◌∷◌, ◌++◌, IfOk, IfErr, IfSome, is_some};
ghost use Rattle.std.specs.Option.{option_map};
ghost use Rattle.command_words.specs.declared.request.Request.TheVariants.{Apply as Asked};
ghost use Rattle.command_io.specs.Counts.{HasCause, NoLower, SameCounts};
ghost use Rattle.command_io.specs.Product.{file};
ghost use Rattle.command_io.specs.Steps.{Gives, GivesExactly, UnlessFault, status_of};
ghost use Rattle.command_io.specs.Views.{made_of, targets_of};
ghost use Rattle.soroban_top.specs.Asked.{log_files, reads_of, writes_of};
ghost use Rattle.soroban_top.specs.LogPlays.{LogPlays};
ghost use Rattle.soroban_top.specs.LogStored.{log_after, log_target, with_log};
ghost use Rattle.soroban_top.specs.Outcome.{applied, outcome_of};
ghost use Rattle.soroban_top.specs.Views.{outputs_in};

use crate::options::{LEDGER, LEDGER_OUT, LOG_OUT, REPORT, SET, VERDICTS};
use crate::outputs::{Outputs, Run, make_outputs};
use crate::scheduled::read_scheduled;
use command_io::{FileArg, OutputFile, Product, Status, read_ledger, read_set, read_verdicts};
use command_words::ApplyRequest;
use edge_io::{Files, Gate, Word};
use std::alloc::{AllocError, Global};
use std::thread::Threads;

/// Reads and checks the three files, and that of a schedule, if it is given, and makes the report, the new ledger and the lines.
pub fn apply<'a, R: Threads + Sync, F: Files, G: Gate + Sync>(
    rt: &R,
    alloc: Global,
    files: &mut F,
    request: &'a ApplyRequest,
    gate: &G,
) -> Result<Product<'a>, Status>
    requires workers { (1 ≤ request.now.workers) × (request.now.workers ≤ 64) }
    ensures given { IfSome (F.contents files.old) (λ m. Gives made_of result (outcome_of (Asked request.now) m)) }
    ensures plays { IfOk result (λ _. IfSome (F.contents files.old) (LogPlays request.now)) }
    ensures targets { IfOk result (λ p. targets_of p.stores.items ≡ writes_of (Asked request.now)) }
    ensures same { F.contents files.new ≡ F.contents files.old }
    ensures counts { NoLower (F.faults files.old) (F.faults files.new) }
    ensures cause { IfErr result (HasCause (reads_of (Asked request.now)) (F.faults files.old) (F.faults files.new)) }
    ensures steady { F.steady files.old
        → IfSome (F.contents files.old) (λ m. UnlessFault (status_of (outcome_of (Asked request.now) m))
        (F.steady files.new × SameCounts (F.faults files.old) (F.faults files.new))) }
    ensures steady_exact { F.steady files.old → IfSome (F.contents files.old) (λ m.
        GivesExactly made_of result (outcome_of (Asked request.now) m)) }
{
    let ledger = read_ledger(alloc, files, LEDGER, &request.ledger)?;
    let verdicts = read_verdicts(alloc, files, VERDICTS, &request.verdicts)?;
    let set = read_set(alloc, files, SET, &request.set, request.base64)?;
    let scheduled = read_scheduled(alloc, files, &request.schedule)?;
    let run = Run {
        scheduled: &scheduled,
        close_time: request.close_time,
        verdicts: &verdicts,
        workers: request.workers as usize,
        logs: request.log.is_some(),
    };
    let outputs = make_outputs(rt, alloc, ledger, set, &run, gate)?;
    let product = product_of(alloc, request, outputs)?;
    Ok(product)
}

/// The report is stored first, then the new ledger, then the change log, if one was kept.
fn product_of<'a>(
    alloc: Global,
    request: &'a ApplyRequest,
    outputs: Outputs,
) -> Result<Product<'a>, AllocError>
    ensures made { IfOk result (λ p. made_of p ≡ log_after request.now.log (option_map (λ b. b.items) outputs.log)
        (applied (file 3 request.now.report) (file 4 request.now.ledger_out) (outputs_in outputs))) }
    ensures targets { IfOk result (λ p. targets_of p.stores.items ≡ file 3 request.now.report
        ∷ file 4 request.now.ledger_out ∷ log_target (is_some outputs.log) request.now.log) }
{
    let mut outputs = outputs;
    let log = outputs.log.take();
    let product = stores_of(alloc, &request.report, &request.ledger_out, outputs)?;
    log_stored(product, &request.log, log)
}

/// The report is stored first, then the new ledger. A change log is left out.
pub(crate) fn stores_of<'a>(
    alloc: Global,
    report: &'a Word,
    ledger_out: &'a Word,
    outputs: Outputs,
) -> Result<Product<'a>, AllocError>
    ensures made { IfOk result (λ p. made_of p ≡ applied (file 3 report.now) (file 4 ledger_out.now) (outputs_in outputs)) }
    ensures targets { IfOk result (λ p. targets_of p.stores.items ≡ file 3 report.now ∷ file 4 ledger_out.now ∷ []) }
{
    let report = FileArg {
        option: REPORT,
        name: report,
    };
    let ledger_out = FileArg {
        option: LEDGER_OUT,
        name: ledger_out,
    };
    let mut stores = Vec::new(alloc);
    stores.push(OutputFile {
        file: report,
        bytes: outputs.report,
    })?;
    stores.push(OutputFile {
        file: ledger_out,
        bytes: outputs.ledger,
    })?;
    Ok(Product {
        stores,
        lines: outputs.lines,
    })
}

/// Adds the store of the change log, if one was kept.
fn log_stored<'a>(
    product: Product<'a>,
    name: &'a Option<Word>,
    log: Option<Vec<u8>>,
) -> Result<Product<'a>, AllocError>
    ensures made { IfOk result (λ p. made_of p ≡ log_after name.now (option_map (λ b. b.items) log) (made_of product.entry)) }
    ensures targets { IfOk result (λ p. targets_of p.stores.items
        ≡ targets_of product.entry.stores.items ++ log_target (is_some log) name.now) }
{
    match log {
        None => Ok(product),
        Some(bytes) => with_log(product, name, bytes),
    }
}

/// Adds the store of a change log, if it has a name.
fn with_log<'a>(
    product: Product<'a>,
    name: &'a Option<Word>,
    bytes: Vec<u8>,
) -> Result<Product<'a>, AllocError>
    ensures made { IfOk result (λ p. made_of p ≡ with_log name.now bytes.items (made_of product.entry)) }
    ensures targets { IfOk result (λ p. targets_of p.stores.items ≡ targets_of product.entry.stores.items ++ log_files name.now) }
{
    match name {
        None => Ok(product),
        Some(name) => {
            let mut product = product;
            let file = FileArg {
                option: LOG_OUT,
                name,
            };
            product.stores.push(OutputFile { file, bytes })?;
            Ok(product)
        }
    }
}
