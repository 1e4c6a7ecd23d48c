//! The command `migrate`: writes a ledger's file in the newest version.

ghost use Rattle.std.specs.Prelude.{◌≡◌, IfOk, IfErr, IfSome};
ghost use Rattle.std.specs.FinMap.{len};
ghost use Rattle.command_words.specs.declared.request.Request.TheVariants.{Migrate as Asked};
ghost use Rattle.ledger_types.specs.Header.{header_format};
ghost use Rattle.command_io.specs.Counts.{HasCause, NoLower, SameCounts};
ghost use Rattle.command_io.specs.Product.{file};
ghost use Rattle.command_io.specs.Seen.{seen};
ghost use Rattle.command_io.specs.Steps.{Gives, GivesExactly, UnlessFault, status_of};
ghost use Rattle.command_io.specs.Views.{made_of, targets_of};
ghost use Rattle.soroban_top.specs.Asked.{reads_of, writes_of};
ghost use Rattle.soroban_top.specs.Migrated.{migrated, migrated_line};
ghost use Rattle.soroban_top.specs.Outcome.{outcome_of};

use crate::options::{MIGRATED_LEDGER, MIGRATED_OUT};
use command_io::{FileArg, OutputFile, Product, Status, read_any_ledger};
use command_words::MigrateRequest;
use edge_io::Files;
use ledger_file::{Ledger, write_ledger};
use std::alloc::{AllocError, Global};
use text_lines::push_number;
use xdr_core::NoMemory;

/// Reads the ledger, and makes its file in the newest version and the line.
pub fn migrate<'a, F: Files>(
    alloc: Global,
    files: &mut F,
    request: &'a MigrateRequest,
) -> Result<Product<'a>, Status>
    ensures given { IfSome (F.contents files.old) (λ m. Gives made_of result (outcome_of (Asked request.now) m)) }
    ensures targets { IfOk result (λ p. targets_of p.stores.items ≡ writes_of (Asked request.now)) }
    ensures same { F.contents files.new ≡ F.contents files.old }
    ensures counts { NoLower (F.faults files.old) (F.faults files.new) }
    ensures cause { IfErr result (HasCause (reads_of (Asked request.now)) (F.faults files.old) (F.faults files.new)) }
    ensures steady { F.steady files.old
        → IfSome (F.contents files.old) (λ m. UnlessFault (status_of (outcome_of (Asked request.now) m))
        (F.steady files.new × SameCounts (F.faults files.old) (F.faults files.new))) }
    ensures steady_exact { F.steady files.old → IfSome (F.contents files.old) (λ m.
        GivesExactly made_of result (outcome_of (Asked request.now) m)) }
{
    let file = FileArg {
        option: MIGRATED_LEDGER,
        name: &request.ledger,
    };
    let ledger = read_any_ledger(alloc, files, &file)?;
    let product = product_of(alloc, request, &ledger)?;
    Ok(product)
}

/// Writes the ledger's file and the line.
#[tactic(auto, unfolding(crate::specs::Migrated::migrated))]
fn product_of<'a>(
    alloc: Global,
    request: &'a MigrateRequest,
    ledger: &Ledger,
) -> Result<Product<'a>, NoMemory>
    requires { header_format.fits ledger.now.header }
    ensures made { IfOk result (λ p. made_of p ≡ migrated (file 1 request.now.ledger_out) (seen ledger.now)) }
    ensures targets { IfOk result (λ p. targets_of p.stores.items ≡ writes_of (Asked request.now)) }
{
    let bytes = write_ledger(alloc, ledger)?.into_vec();
    let lines = migrated_line(alloc, ledger)?;
    let mut stores = Vec::new(alloc);
    let file = FileArg {
        option: MIGRATED_OUT,
        name: &request.ledger_out,
    };
    stores.push(OutputFile { file, bytes })?;
    Ok(Product { stores, lines })
}

/// Makes the line with the number of a ledger's entries.
fn migrated_line(alloc: Global, ledger: &Ledger) -> Result<Vec<u8>, AllocError>
    ensures { IfOk result (λ v. v.items ≡ migrated_line (len ledger.now.entries)) }
{
    let mut line = Vec::from_slice(alloc, b"migrated ")?;
    let records = ledger.entries.len();
    push_number(&mut line, records as u64, b" records\n")?;
    Ok(line)
}
