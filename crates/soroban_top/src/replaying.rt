//! The command `play`: plays a change log on a ledger.

ghost use Rattle.std.specs.Prelude.{◌≡◌, [], ◌∷◌, false, length, IfOk, IfErr, IfSome, IsTrue};
ghost use Rattle.change_log.specs.Log.{log_format};
ghost use Rattle.command_words.specs.declared.request.Request.TheVariants.{Play as Asked};
ghost use Rattle.ledger_spec.specs.LedgerFile.{has_next};
ghost use Rattle.ledger_types.specs.Header.{header_format};
ghost use Rattle.command_io.specs.Counts.{HasCause, IsOfBytes, NoLower, SameCounts};
ghost use Rattle.command_io.specs.Product.{file};
ghost use Rattle.command_io.specs.Seen.{seen};
ghost use Rattle.command_io.specs.Steps.{Gives, GivesExactly, UnlessFault, status_of};
ghost use Rattle.command_io.specs.Views.{made_of, targets_of};
ghost use Rattle.soroban_top.specs.Asked.{reads_of, writes_of};
ghost use Rattle.soroban_top.specs.Outcome.{outcome_of};
ghost use Rattle.soroban_top.specs.Replayed.{played_ledger_at, played_line, played_to, replayed};

use crate::options::{PLAYED_LEDGER, PLAYED_LOG, PLAYED_OUT};
use change_log::Log;
use command_io::{FileArg, OutputFile, Product, Status, read_any_ledger, read_ledger, read_log};
use command_words::PlayRequest;
use edge_io::Files;
use ledger_file::{Ledger, write_ledger};
use std::alloc::{AllocError, Global};
use text_lines::push_number;
use xdr_core::NoMemory;

/// Reads the ledger and the log, and makes the file of the ledger that the log leads to, and the line.
pub fn play<'a, F: Files>(
    alloc: Global,
    files: &mut F,
    request: &'a PlayRequest,
) -> Result<Product<'a>, Status>
    ensures given { IfSome (F.contents files.old) (λ m. Gives made_of result (outcome_of (Asked request.now) m)) }
    ensures targets { IfOk result (λ p. targets_of p.stores.items ≡ writes_of (Asked request.now)) }
    ensures same { F.contents files.new ≡ F.contents files.old }
    ensures counts { NoLower (F.faults files.old) (F.faults files.new) }
    ensures cause { IfErr result (HasCause (reads_of (Asked request.now)) (F.faults files.old) (F.faults files.new)) }
    ensures steady { F.steady files.old
        → IfSome (F.contents files.old) (λ m. UnlessFault (status_of (outcome_of (Asked request.now) m))
        (F.steady files.new × SameCounts (F.faults files.old) (F.faults files.new))) }
    ensures steady_exact { F.steady files.old → IfSome (F.contents files.old) (λ m.
        GivesExactly made_of result (outcome_of (Asked request.now) m)) }
{
    let ledger = read_played(alloc, files, request)?;
    let file = FileArg {
        option: PLAYED_LOG,
        name: &request.log,
    };
    let log = read_log(alloc, files, &file)?;
    product_of(alloc, request, ledger, &log)
}

/// Reads the ledger that a log is played on. Forwards, another ledger has to be able to follow it.
fn read_played<F: Files>(
    alloc: Global,
    files: &mut F,
    request: &PlayRequest,
) -> Result<Ledger, Status>
    ensures given { IfSome (F.contents files.old)
        (λ m. Gives seen result (played_ledger_at m request.now.back request.now.ledger)) }
    ensures fits { IfOk result (λ l. header_format.fits l.header) }
    ensures next { request.now.back ≡ false → IfOk result (λ l. IsTrue (has_next l.header)) }
    ensures same { F.contents files.new ≡ F.contents files.old }
    ensures counts { NoLower (F.faults files.old) (F.faults files.new) }
    ensures cause { IfErr result (HasCause (file 1 request.now.ledger ∷ []) (F.faults files.old) (F.faults files.new)) }
    ensures steady { F.steady files.old
        → IfSome (F.contents files.old) (λ m. UnlessFault (status_of (played_ledger_at m request.now.back request.now.ledger))
        (F.steady files.new × SameCounts (F.faults files.old) (F.faults files.new))) }
    ensures steady_exact { F.steady files.old → IfSome (F.contents files.old) (λ m.
        GivesExactly seen result (played_ledger_at m request.now.back request.now.ledger)) }
{
    if request.back {
        let file = FileArg {
            option: PLAYED_LEDGER,
            name: &request.ledger,
        };
        read_any_ledger(alloc, files, &file)
    } else {
        read_ledger(alloc, files, PLAYED_LEDGER, &request.ledger)
    }
}

/// Plays the log, and makes the ledger's file and the line.
#[tactic(auto, unfolding(crate::specs::Replayed::replayed))]
fn product_of<'a>(
    alloc: Global,
    request: &'a PlayRequest,
    ledger: Ledger,
    log: &Log,
) -> Result<Product<'a>, Status>
    requires fits { header_format.fits ledger.header }
    requires log { log_format.fits log.now }
    requires next { request.now.back ≡ false → IsTrue (has_next ledger.header) }
    ensures made { Gives made_of result
        (replayed (file 2 request.now.ledger_out) request.now.back log.now (seen ledger)) }
    ensures targets { IfOk result (λ p. targets_of p.stores.items ≡ writes_of (Asked request.now)) }
    ensures cause { IfErr result IsOfBytes }
{
    let ledger = change_log::play(alloc, log, ledger, request.back)?;
    let product = stored(alloc, request, &ledger, log)?;
    Ok(product)
}

/// Writes the ledger's file and the line.
fn stored<'a>(
    alloc: Global,
    request: &'a PlayRequest,
    ledger: &Ledger,
    log: &Log,
) -> Result<Product<'a>, NoMemory>
    requires header { header_format.fits ledger.now.header }
    ensures made { IfOk result (λ p. Ok (made_of p)
        ≡ played_to (file 2 request.now.ledger_out) (length log.now.stages) (Ok (seen ledger.now))) }
    ensures targets { IfOk result (λ p. targets_of p.stores.items ≡ writes_of (Asked request.now)) }
{
    let bytes = write_ledger(alloc, ledger)?.into_vec();
    let lines = played_line(alloc, log)?;
    let mut stores = Vec::new(alloc);
    let file = FileArg {
        option: PLAYED_OUT,
        name: &request.ledger_out,
    };
    stores.push(OutputFile { file, bytes })?;
    Ok(Product { stores, lines })
}

/// Makes the line with the number of a log's stages.
fn played_line(alloc: Global, log: &Log) -> Result<Vec<u8>, AllocError>
    ensures { IfOk result (λ v. v.items ≡ played_line (length log.now.stages)) }
{
    let mut line = Vec::from_slice(alloc, b"played ")?;
    let stages = log.stages.as_slice().len();
    push_number(&mut line, stages as u64, b" stages\n")?;
    Ok(line)
}
