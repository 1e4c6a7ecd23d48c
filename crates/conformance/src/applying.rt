//! Sets that are applied to ledgers, and reports.

ghost use Rattle.std.specs.Prelude.{All, IsTrue, ◌≡◌, length};
ghost use Rattle.ledger_spec.specs.LedgerFile.{are_settings, has_next};
ghost use Rattle.tx_results.specs.Results.{result_set_format};
ghost use Rattle.invoke_types.specs.Success.{success_format};
ghost use Rattle.xdr_spec.specs.Format.{optional};
ghost use Rattle.tx_xdr.specs.Set.{set_format};

use crate::errors::{made, unread};
use crate::hashes::push_hex_line;
use crate::ledgers::push_no_ledger;
use case_text::{Case, CaseErr, Fragments, first_word, number, push_str};
use edge_io::OpenGate;
use entry_map::StoredEntry;
use invoke_types::SuccessPreimage;
use ledger_apply::{Applied, ApplyErr, apply_set};
use ledger_file::{Ledger, read_ledger, read_verdicts};
use ledger_types::Verdicts;
use std::alloc::Global;
use std::fmt::Write;
use std::thread::Threads;
use tx_results::{ResultSet, write_report, write_results};
use tx_xdr::{TxSet, read_set};
use value_xdr::decode;

/// A file of verdicts that has none.
const NO_VERDICTS: [u8; 4] = [0; 4];

/// What a row shows of an applied set.
#[derive(Clone, Copy)]
enum Shown {
    /// The code of each result as a word in hex digits, and the last ledger in which each entry of the new ledger is live.
    Lives,
    /// The report's bytes.
    Report,
}

/// A ledger's file, the close time of the next ledger, and what is shown of it.
#[derive(Clone, Copy)]
struct Applying<'a> {
    ledger: &'a [u8],
    close_time: u64,
    shown: Shown,
}

/// `apply` and `applied-report` LEDGER SET CLOSE-TIME: the codes of the results, and the lives of the new ledger's entries; or
/// the report's bytes.
pub fn applied<T: Threads + Sync>(
    threads: &T,
    alloc: Global,
    fragments: &Fragments,
    case: Case,
    out: &mut String,
) -> Result<(), CaseErr> {
    let (ledger, rest) = first_word(case.words);
    let (set, close_time) = first_word(rest);
    let ledger = fragments.bytes(alloc, ledger)?;
    let set = fragments.bytes(alloc, set)?;
    let applying = Applying {
        ledger: &ledger,
        close_time: number(close_time)?,
        shown: match case.kind {
            "apply" => Shown::Lives,
            _ => Shown::Report,
        },
    };
    apply_bytes(threads, alloc, applying, &set, out)
}

fn apply_bytes<T: Threads + Sync>(
    threads: &T,
    alloc: Global,
    applying: Applying,
    set: &[u8],
    out: &mut String,
) -> Result<(), CaseErr> {
    match read_set(alloc, set) {
        Ok(set) => apply_read(threads, alloc, applying, &set, out),
        Err(error) => Err(unread(error, "a set")),
    }
}

fn apply_read<T: Threads + Sync>(
    threads: &T,
    alloc: Global,
    applying: Applying,
    set: &TxSet,
    out: &mut String,
) -> Result<(), CaseErr>
    requires { set_format.fits set.now }
{
    match read_verdicts(alloc, &NO_VERDICTS) {
        Ok(verdicts) => apply_judged(threads, alloc, applying, set, &verdicts, out),
        Err(error) => Err(unread(error, "verdicts")),
    }
}

fn apply_judged<T: Threads + Sync>(
    threads: &T,
    alloc: Global,
    applying: Applying,
    set: &TxSet,
    verdicts: &Verdicts,
    out: &mut String,
) -> Result<(), CaseErr>
    requires { set_format.fits set.now }
{
    match read_ledger(alloc, applying.ledger, true) {
        Ok(ledger) => apply_to(threads, alloc, applying, ledger, set, verdicts, out),
        Err(error) => push_no_ledger(out, error),
    }
}

fn apply_to<T: Threads + Sync>(
    threads: &T,
    alloc: Global,
    applying: Applying,
    ledger: Ledger,
    set: &TxSet,
    verdicts: &Verdicts,
    out: &mut String,
) -> Result<(), CaseErr>
    requires fits { set_format.fits set.now }
    requires settings { IsTrue (are_settings ledger.header.settings) }
    requires next { IsTrue (has_next ledger.header) }
{
    let time = applying.close_time;
    match apply_set(threads, alloc, ledger, set, time, verdicts, 1, &OpenGate) {
        Ok(applied) => push_applied(alloc, out, &applied, applying.shown),
        Err(error) => push_conflict(out, &error),
    }
}

fn push_applied(
    alloc: Global,
    out: &mut String,
    applied: &Applied,
    shown: Shown,
) -> Result<(), CaseErr>
    requires results { result_set_format.fits applied.now.results }
    requires successes { All (λ success. (optional success_format).fits success) applied.now.successes }
    requires each { length applied.now.successes ≡ length applied.now.results.pairs }
{
    match shown {
        Shown::Lives => push_lives(out, applied),
        Shown::Report => push_report(alloc, out, &applied.results, applied.successes.as_slice()),
    }
}

fn push_conflict(out: &mut String, error: &ApplyErr) -> Result<(), CaseErr> {
    match error {
        ApplyErr::Conflict { stage, found, .. } => {
            let (a, b) = (found.a, found.b);
            writeln!(out, "conflict of clusters {a} and {b} in stage {stage}")?;
            Ok(())
        }
        ApplyErr::NoMemory => Err(CaseErr::NoMemory),
    }
}

fn push_lives(out: &mut String, applied: &Applied) -> Result<(), CaseErr> {
    push_codes(out, &applied.results)?;
    out.push_str(", lives")?;
    for row in applied.ledger.entries.rows() {
        push_row(out, row)?;
    }
    push_str(out, "\n")
}

fn push_row(out: &mut String, row: &[Box<StoredEntry>]) -> Result<(), CaseErr> {
    for stored in row {
        let live_until = stored.kept.live_until;
        write!(out, " {live_until}")?;
    }
    Ok(())
}

fn push_codes(out: &mut String, results: &ResultSet) -> Result<(), CaseErr> {
    out.push_str("codes")?;
    for pair in results.pairs.as_slice() {
        let code = pair.result.outcome.code().number();
        write!(out, " {code:x}")?;
    }
    Ok(())
}

/// RESULTS SUCCESS: the report of a set of one result. SUCCESS is a success preimage, or nothing.
pub fn report(
    alloc: Global,
    fragments: &Fragments,
    words: &str,
    out: &mut String,
) -> Result<(), CaseErr> {
    let (results, success) = first_word(words);
    let results = fragments.bytes(alloc, results)?;
    let success = fragments.bytes(alloc, success)?;
    report_bytes(alloc, &results, &success, out)
}

fn report_bytes(
    alloc: Global,
    results: &[u8],
    success: &[u8],
    out: &mut String,
) -> Result<(), CaseErr> {
    match decode::<ResultSet>(alloc, results) {
        Ok(results) => report_of_one(alloc, &results, success, out),
        Err(error) => Err(unread(error, "results")),
    }
}

#[tactic(auto, unfolding(xdr_spec::specs::Format::optional))]
fn report_of_one(
    alloc: Global,
    results: &ResultSet,
    success: &[u8],
    out: &mut String,
) -> Result<(), CaseErr>
    requires { result_set_format.fits results.now }
{
    if results.pairs.as_slice().len() != 1 {
        return Err(CaseErr::Lacks("one result"));
    }
    if success.is_empty() {
        return push_report(alloc, out, results, &[None]);
    }
    match decode::<SuccessPreimage>(alloc, success) {
        Ok(success) => push_report(alloc, out, results, &[Some(success)]),
        Err(error) => Err(unread(error, "a success preimage")),
    }
}

fn push_report(
    alloc: Global,
    out: &mut String,
    results: &ResultSet,
    successes: &[Option<SuccessPreimage>],
) -> Result<(), CaseErr>
    requires results { result_set_format.fits results.now }
    requires successes { All (λ success. (optional success_format).fits success) successes.now }
    requires each { length successes.now ≡ length results.now.pairs }
{
    let alone = made(write_results(alloc, results))?;
    let report = made(write_report(alloc, results, successes))?;
    push_written(alloc, out, alone.as_slice(), report.as_slice())
}

fn push_written(
    alloc: Global,
    out: &mut String,
    alone: &[u8],
    report: &[u8],
) -> Result<(), CaseErr> {
    if report.starts_with(alone) {
        push_hex_line(alloc, out, report)
    } else {
        push_str(out, "results written otherwise\n")
    }
}
