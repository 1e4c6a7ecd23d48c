//! The files of a generated set and its ledger.

ghost use Rattle.std.specs.Prelude.{◌≡◌, ◌≤◌, [], IfOk};
ghost use Rattle.ledger_types.specs.Verdicts.{verdicts_format};
ghost use Rattle.ledger_spec.specs.LedgerFile.{ledger_bytes};
ghost use Rattle.tx_xdr.specs.Set.{set_format};
ghost use Rattle.set_generator.specs.GeneratedSet.{generated_set as generated_set_in};
ghost use Rattle.set_generator.specs.GeneratedLedger.{generated_header, generated_entries};
ghost use Rattle.set_generator.specs.GeneratedFiles.{generated_files};

use crate::ledger::generated_ledger;
use crate::set::{generated_set, stage_count};
use ledger_file::write_ledger;
use ledger_types::Verdicts;
use std::alloc::Global;
use value_types::{Blob, Items};
use value_xdr::encode;
use xdr_core::NoMemory;

/// The files of a generated set, and the number of its stages.
#[derive(Drop)]
pub struct Generated {
    pub set: Blob,
    pub ledger: Blob,
    pub verdicts: Blob,
    pub stages: u32,
}

fn make_set(alloc: Global, count: u32, seed: u64) -> Result<Blob, NoMemory>
    requires { count ≤ 100000 }
    ensures { IfOk result (λ file. file ≡ set_format.spell (generated_set_in count seed)) }
{
    let set = generated_set(alloc, count, seed)?;
    let bytes = encode(alloc, &set)?;
    Ok(Blob::from_vec(bytes))
}

fn make_ledger(alloc: Global) -> Result<Blob, NoMemory>
    ensures { IfOk result (λ file. file ≡ ledger_bytes generated_header generated_entries) }
{
    let ledger = generated_ledger(alloc)?;
    write_ledger(alloc, &ledger)
}

fn make_verdicts(alloc: Global) -> Result<Blob, NoMemory>
    ensures { IfOk result (λ file. file ≡ verdicts_format.spell (record { pairs = [] })) }
{
    let pairs = Vec::new(alloc);
    let none = Verdicts {
        pairs: Items::from_vec(pairs),
    };
    let bytes = encode(alloc, &none)?;
    Ok(Blob::from_vec(bytes))
}

/// Makes the files of `count` transactions, which are drawn from a seed. It takes O(count) time and memory.
#[tactic(auto, unfolding(crate::specs::GeneratedFiles::generated_files))]
pub fn generate(alloc: Global, count: u32, seed: u64) -> Result<Generated, NoMemory>
    requires { count ≤ 100000 }
    ensures { IfOk result (λ made. made ≡ generated_files count seed) }
{
    let set = make_set(alloc, count, seed)?;
    let ledger = make_ledger(alloc)?;
    let verdicts = make_verdicts(alloc)?;
    Ok(Generated {
        set,
        ledger,
        verdicts,
        stages: stage_count(count),
    })
}
