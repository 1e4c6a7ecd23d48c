//! The command `apply-list`: applies a plain list of envelopes to a ledger.

ghost use Rattle.std.specs.Prelude.{◌≡◌, ◌≤◌, ◌++◌, IfErr, IfOk, IfSome, IsTrue, OnOk};
ghost use Rattle.command_words.specs.declared.request.Request.TheVariants.{ApplyList as Asked};
ghost use Rattle.ledger_spec.specs.LedgerFile.{are_settings, has_next};
ghost use Rattle.ledger_types.specs.Header.{header_format};
ghost use Rattle.tx_xdr.specs.Envelope.{envelopes_format};
ghost use Rattle.command_io.specs.Counts.{HasCause, NoLower, SameCounts};
ghost use Rattle.command_io.specs.Seen.{seen};
ghost use Rattle.command_io.specs.Steps.{Gives, GivesExactly, UnlessFault, status_of};
ghost use Rattle.command_io.specs.Views.{made_of, targets_of};
ghost use Rattle.soroban_top.specs.Asked.{reads_of, writes_of};
ghost use Rattle.soroban_top.specs.ListApplied.{kept_line, outputs_of_list};
ghost use Rattle.soroban_top.specs.Outcome.{outcome_of};
ghost use Rattle.soroban_top.specs.Views.{outputs_in};

use crate::apply::stores_of;
use crate::options::{LEDGER, LISTED, VERDICTS};
use crate::outputs::{Outputs, written};
use command_io::{FileArg, Product, Status, read_ledger, read_list, read_verdicts};
use command_words::ApplyListRequest;
use edge_io::{Files, Gate};
use ledger_file::Ledger;
use ledger_types::Verdicts;
use spec_apply::{Applied, Listed, apply_list as run_list};
use std::alloc::{AllocError, Global};
use std::thread::Threads;
use text_lines::push_number;
use tx_xdr::Envelope;
use value_types::Items;
use xdr_core::NoMemory;

/// Reads and checks the three files, and makes the report, the new ledger and the lines.
pub fn apply_list<'a, R: Threads + Sync, F: Files, G: Gate + Sync>(
    rt: &R,
    alloc: Global,
    files: &mut F,
    request: &'a ApplyListRequest,
    gate: &G,
) -> Result<Product<'a>, Status>
    requires workers { (1 ≤ request.now.workers) × (request.now.workers ≤ 64) }
    ensures given { IfSome (F.contents files.old) (λ m. Gives made_of result (outcome_of (Asked request.now) m)) }
    ensures targets { IfOk result (λ p. targets_of p.stores.items ≡ writes_of (Asked request.now)) }
    ensures same { F.contents files.new ≡ F.contents files.old }
    ensures counts { NoLower (F.faults files.old) (F.faults files.new) }
    ensures cause { IfErr result (HasCause (reads_of (Asked request.now)) (F.faults files.old) (F.faults files.new)) }
    ensures steady { F.steady files.old
        → IfSome (F.contents files.old) (λ m. UnlessFault (status_of (outcome_of (Asked request.now) m))
        (F.steady files.new × SameCounts (F.faults files.old) (F.faults files.new))) }
    ensures steady_exact { F.steady files.old → IfSome (F.contents files.old) (λ m.
        GivesExactly made_of result (outcome_of (Asked request.now) m)) }
{
    let ledger = read_ledger(alloc, files, LEDGER, &request.ledger)?;
    let verdicts = read_verdicts(alloc, files, VERDICTS, &request.verdicts)?;
    let file = FileArg {
        option: LISTED,
        name: &request.list,
    };
    let list = read_list(alloc, files, &file)?;
    let run = ListRun {
        close_time: request.close_time,
        verdicts: &verdicts,
        workers: request.workers as usize,
    };
    let outputs = list_outputs(rt, alloc, ledger, list, &run, gate)?;
    let stores = stores_of(alloc, &request.report, &request.ledger_out, outputs)?;
    Ok(stores)
}

/// How a list is run.
#[derive(Clone, Copy)]
struct ListRun<'a> {
    close_time: u64,
    verdicts: &'a Verdicts,
    workers: usize,
}

/// Adds the line about the runs that were kept.
fn push_kept(lines: &mut Vec<u8>, kept: u64, count: u64) -> Result<(), AllocError>
    ensures { OnOk result (lines.new.items ≡ lines.old.items ++ kept_line kept count) }
{
    lines.extend_from_slice(b"kept ")?;
    push_number(lines, kept, b" of ")?;
    push_number(lines, count, b"\n")?;
    Ok(())
}

/// Runs a list over a ledger, and writes the bytes to store and the lines to print.
fn list_outputs<R: Threads + Sync, G: Gate + Sync>(
    rt: &R,
    alloc: Global,
    ledger: Ledger,
    list: Items<Envelope, 4294967295>,
    run: &ListRun<'_>,
    gate: &G,
) -> Result<Outputs, NoMemory>
    requires list { envelopes_format.fits list }
    requires header { header_format.fits ledger.header }
    requires settings { IsTrue (are_settings ledger.header.settings) }
    requires next { IsTrue (has_next ledger.header) }
    requires workers { (1 ≤ run.now.workers) × (run.now.workers ≤ 64) }
    ensures { IfOk result (λ o. outputs_in o ≡ outputs_of_list (seen ledger) run.now.verdicts.now list run.now.close_time) }
{
    let listed = run_list(
        rt,
        alloc,
        ledger,
        list.as_slice(),
        run.close_time,
        run.verdicts,
        run.workers,
        gate,
    )?;
    let Listed {
        ledger,
        results,
        successes,
        kept,
    } = listed;
    let count = list.as_slice().len() as u64;
    let applied = Applied {
        ledger,
        results,
        successes,
    };
    let mut outputs = written(rt, alloc, run.workers, applied, list, None)?;
    push_kept(&mut outputs.lines, kept, count)?;
    Ok(outputs)
}
