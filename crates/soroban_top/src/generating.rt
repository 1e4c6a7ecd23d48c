//! The command `gen`: makes a transaction set, and a ledger and verdicts on which it runs.

ghost use Rattle.std.specs.Prelude.{◌≡◌, ◌≤◌, IfErr, IfOk};
ghost use Rattle.command_words.specs.declared.request.Request.TheVariants.{Gen as Asked};
ghost use Rattle.command_io.specs.Views.{made_of, targets_of};
ghost use Rattle.soroban_top.specs.Asked.{writes_of};
ghost use Rattle.soroban_top.specs.Generating.{generated, made_files, made_line};

use crate::options::{MADE_LEDGER, MADE_SET, MADE_VERDICTS};
use command_io::{FileArg, OutputFile, Product, Status};
use command_words::GenRequest;
use set_generator::Generated;
use std::alloc::{AllocError, Global};
use text_lines::push_number;

/// Makes the three files and the line.
#[tactic(auto, unfolding(crate::specs::Generating::generated))]
pub fn generate<'a>(alloc: Global, request: &'a GenRequest) -> Result<Product<'a>, Status>
    requires { request.now.count ≤ 100000 }
    ensures made { IfOk result (λ p. made_of p ≡ generated request.now) }
    ensures targets { IfOk result (λ p. targets_of p.stores.items ≡ writes_of (Asked request.now)) }
    ensures memory { IfErr result (λ status. status ≡ Status.NoMemory) }
{
    let made = set_generator::generate(alloc, request.count as u32, request.seed)?;
    let product = product_of(alloc, request, made)?;
    Ok(product)
}

/// The set is stored first, then the ledger, then the verdicts.
fn product_of<'a>(
    alloc: Global,
    request: &'a GenRequest,
    made: Generated,
) -> Result<Product<'a>, AllocError>
    ensures made { IfOk result (λ p. made_of p ≡ made_files request.now made) }
    ensures targets { IfOk result (λ p. targets_of p.stores.items ≡ writes_of (Asked request.now)) }
{
    let lines = made_line(alloc, request.count, made.stages)?;
    let set = FileArg {
        option: MADE_SET,
        name: &request.set,
    };
    let ledger = FileArg {
        option: MADE_LEDGER,
        name: &request.ledger,
    };
    let verdicts = FileArg {
        option: MADE_VERDICTS,
        name: &request.verdicts,
    };
    let mut stores = Vec::new(alloc);
    stores.push(OutputFile {
        file: set,
        bytes: made.set.into_vec(),
    })?;
    stores.push(OutputFile {
        file: ledger,
        bytes: made.ledger.into_vec(),
    })?;
    stores.push(OutputFile {
        file: verdicts,
        bytes: made.verdicts.into_vec(),
    })?;
    Ok(Product { stores, lines })
}

fn made_line(alloc: Global, transactions: u64, stages: u32) -> Result<Vec<u8>, AllocError>
    ensures { IfOk result (λ v. v.items ≡ made_line transactions stages) }
{
    let mut line = Vec::from_slice(alloc, b"made ")?;
    push_number(&mut line, transactions, b" transactions in ")?;
    push_number(&mut line, stages as u64, b" stages\n")?;
    Ok(line)
}
