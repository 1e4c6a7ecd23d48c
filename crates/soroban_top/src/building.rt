//! The command `build`: builds a transaction set from a list of envelopes.

ghost use Rattle.std.specs.Prelude.{◌≡◌, ◌≤◌, IfOk, IfErr, IfSome};
ghost use Rattle.command_words.specs.declared.request.Request.TheVariants.{Build as Asked};
ghost use Rattle.tx_xdr.specs.Envelope.{envelopes_format};
ghost use Rattle.command_io.specs.Counts.{HasCause, NoLower, SameCounts};
ghost use Rattle.command_io.specs.Product.{file};
ghost use Rattle.command_io.specs.Steps.{Gives, GivesExactly, UnlessFault, status_of};
ghost use Rattle.command_io.specs.Views.{made_of, targets_of};
ghost use Rattle.soroban_top.specs.Asked.{reads_of, writes_of};
ghost use Rattle.soroban_top.specs.Outcome.{outcome_of};
ghost use Rattle.soroban_top.specs.SetBuilt.{built_line, set_built};

use crate::options::{BUILT_SET, LISTED};
use command_io::{FileArg, OutputFile, Product, Status, read_list};
use command_words::BuildRequest;
use edge_io::Files;
use set_build::{Counts, counts_of};
use std::alloc::{AllocError, Global};
use text_lines::push_number;
use tx_xdr::Envelope;
use value_types::Items;
use value_xdr::encode;
use xdr_core::NoMemory;

/// Reads the list, and makes the file of the set that is built from it, and the line.
pub fn build<'a, F: Files>(
    alloc: Global,
    files: &mut F,
    request: &'a BuildRequest,
) -> Result<Product<'a>, Status>
    requires some { 1 ≤ request.now.clusters }
    requires few { request.now.clusters ≤ 1024 }
    ensures given { IfSome (F.contents files.old) (λ m. Gives made_of result (outcome_of (Asked request.now) m)) }
    ensures targets { IfOk result (λ p. targets_of p.stores.items ≡ writes_of (Asked request.now)) }
    ensures same { F.contents files.new ≡ F.contents files.old }
    ensures counts { NoLower (F.faults files.old) (F.faults files.new) }
    ensures cause { IfErr result (HasCause (reads_of (Asked request.now)) (F.faults files.old) (F.faults files.new)) }
    ensures steady { F.steady files.old
        → IfSome (F.contents files.old) (λ m. UnlessFault (status_of (outcome_of (Asked request.now) m))
        (F.steady files.new × SameCounts (F.faults files.old) (F.faults files.new))) }
    ensures steady_exact { F.steady files.old → IfSome (F.contents files.old) (λ m.
        GivesExactly made_of result (outcome_of (Asked request.now) m)) }
{
    let file = FileArg {
        option: LISTED,
        name: &request.list,
    };
    let list = read_list(alloc, files, &file)?;
    let product = product_of(alloc, request, list)?;
    Ok(product)
}

/// Builds the set, and makes its file and the line.
#[tactic(auto, unfolding(crate::specs::SetBuilt::set_built))]
fn product_of<'a>(
    alloc: Global,
    request: &'a BuildRequest,
    list: Items<Envelope, 4294967295>,
) -> Result<Product<'a>, NoMemory>
    requires fits { envelopes_format.fits list }
    requires some { 1 ≤ request.now.clusters }
    requires few { request.now.clusters ≤ 1024 }
    ensures made { IfOk result (λ p. made_of p ≡ set_built (file 1 request.now.set) request.now.clusters list) }
    ensures targets { IfOk result (λ p. targets_of p.stores.items ≡ writes_of (Asked request.now)) }
{
    let transactions = list.as_slice().len() as u64;
    let set = set_build::build(alloc, list, request.clusters as u32)?;
    let lines = built_line(alloc, transactions, counts_of(&set))?;
    let bytes = encode(alloc, &set)?;
    let mut stores = Vec::new(alloc);
    let file = FileArg {
        option: BUILT_SET,
        name: &request.set,
    };
    stores.push(OutputFile { file, bytes })?;
    Ok(Product { stores, lines })
}

/// Makes the line with the numbers of a set's transactions, stages and clusters.
fn built_line(alloc: Global, transactions: u64, counts: Counts) -> Result<Vec<u8>, AllocError>
    ensures { IfOk result (λ v. v.items ≡ built_line transactions counts.stages counts.clusters) }
{
    let mut line = Vec::from_slice(alloc, b"built ")?;
    push_number(&mut line, transactions, b" transactions in ")?;
    push_number(&mut line, counts.stages, b" stages, ")?;
    push_number(&mut line, counts.clusters, b" clusters\n")?;
    Ok(line)
}
