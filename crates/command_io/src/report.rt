//! The files that a run leaves: the bytes of the report, of the ledger and of the change log, their hashes, and the lines about
//! them.

ghost use Rattle.std.specs.Prelude.{◌≡◌, ◌≤◌, ◌++◌, All, IfOk, IfSome, List, OnOk, length, ℕ};
ghost use Rattle.std.specs.Option.{option_map};
ghost use Rattle.apply_spec.specs.Outputs.{count_line, hash_line, has_succeeded as has_succeeded_in, successes};
ghost use Rattle.change_log.specs.Log.{log_format};
ghost use Rattle.invoke_types.specs.Success.{success_format};
ghost use Rattle.ledger_spec.specs.LedgerFile.{ledger_bytes};
ghost use Rattle.ledger_types.specs.Header.{header_format};
ghost use Rattle.sha2.specs.Sha256.{sha256};
ghost use Rattle.tx_results.specs.Report.{report_bytes};
ghost use Rattle.tx_results.specs.Results.{result_set_format};
ghost use Rattle.xdr_spec.specs.Format.{optional};

use change_log::{Log, write_log};
use invoke_types::SuccessPreimage;
use ledger_file::{Ledger, write_ledger};
use sha2::{Digest, Sha256};
use std::alloc::{AllocError, Global};
use std::thread::{Threads, join};
use text_lines::{push_hex, push_number};
use tx_results::{
    EnvelopeOutcome, ResultSet, TransactionOutcome, TransactionResultPair, write_report,
};
use xdr_core::NoMemory;

/// Makes the line that counts the transactions of ledger `seq`.
fn count_line(
    alloc: Global,
    seq: u32,
    results: &[TransactionResultPair],
) -> Result<Vec<u8>, AllocError>
    ensures { IfOk result (λ v. v.items ≡ count_line seq results.now) }
{
    let succeeded = successes(results);
    let mut line = Vec::from_slice(alloc, b"ledger ")?;
    push_number(&mut line, seq as u64, b": ")?;
    push_number(&mut line, results.len() as u64, b" transactions, ")?;
    push_number(&mut line, succeeded as u64, b" succeeded, ")?;
    push_number(&mut line, (results.len() - succeeded) as u64, b" failed\n")?;
    Ok(line)
}

fn successes(results: &[TransactionResultPair]) -> usize
    ensures count { result ≡ successes results.now }
    ensures bound { result ≤ length results.now }
{
    results
        .iter()
        .filter(|pair| has_succeeded(&pair.result.outcome))
        .count()
}

fn has_succeeded(outcome: &EnvelopeOutcome) -> bool
    ensures { result ≡ has_succeeded_in outcome.now }
{
    matches!(
        outcome,
        EnvelopeOutcome::Transaction(TransactionOutcome::Success(_))
            | EnvelopeOutcome::FeeBumpInnerSuccess(_)
    )
}

/// Appends a line: a name, and a hash in hex.
pub fn push_hash(
    alloc: Global,
    lines: &mut Vec<u8>,
    name: &[u8],
    hash: &[u8; 32],
) -> Result<(), AllocError>
    ensures { OnOk result ((bytes : List ℕ) → hash.now ≡ sha256 bytes
        → lines.new.items ≡ lines.old.items ++ hash_line name.now bytes) }
{
    lines.extend_from_slice(name)?;
    push_hex(alloc, lines, hash, b"\n")?;
    Ok(())
}

/// Writes the report after a run, and the line that counts its transactions.
pub fn report_out(
    alloc: Global,
    seq: u32,
    results: &ResultSet,
    successes: &[Option<SuccessPreimage>],
) -> Result<(Vec<u8>, Vec<u8>), NoMemory>
    requires results { result_set_format.fits results.now }
    requires successes { All (λ s. (optional success_format).fits s) successes.now }
    requires each { length successes.now ≡ length results.now.pairs }
    ensures report { IfOk result (λ made. made.0.items ≡ report_bytes results.now successes.now) }
    ensures line { IfOk result (λ made. made.1.items ≡ count_line seq results.now.pairs) }
{
    let report = write_report(alloc, results, successes)?.into_vec();
    let line = count_line(alloc, seq, results.pairs.as_slice())?;
    Ok((report, line))
}

/// The SHA-256 of bytes.
fn hash_of(bytes: &[u8]) -> [u8; 32]
    ensures { result ≡ sha256 bytes.now }
{
    Sha256::digest(bytes)
}

/// Writes the ledger's file after a run, and hashes it. Then it drops the ledger, and the rest that nobody needs any more.
fn ledger_out<X: Drop>(
    alloc: Global,
    ledger: Ledger,
    _rest: X,
) -> Result<(Vec<u8>, [u8; 32]), NoMemory>
    requires { header_format.fits ledger.header }
    ensures bytes { IfOk result (λ made. made.0.items ≡ ledger_bytes ledger.header ledger.entries) }
    ensures hash { IfOk result (λ made. made.1 ≡ sha256 made.0.items) }
{
    let bytes = write_ledger(alloc, &ledger)?.into_vec();
    let hash = hash_of(&bytes);
    Ok((bytes, hash))
}

/// Hashes the report, and makes the ledger's file with its hash, and drops the rest. With several workers, one thread does the
/// first, and another one all else.
pub fn hashed<R: Threads + Sync, X: Drop>(
    rt: &R,
    alloc: Global,
    workers: usize,
    report: &[u8],
    ledger: Ledger,
    rest: X,
) -> ([u8; 32], Result<(Vec<u8>, [u8; 32]), NoMemory>)
    requires { header_format.fits ledger.header }
    ensures report { result.0 ≡ sha256 report.now }
    ensures bytes { IfOk result.1 (λ made. made.0.items ≡ ledger_bytes ledger.header ledger.entries) }
    ensures hash { IfOk result.1 (λ made. made.1 ≡ sha256 made.0.items) }
{
    if workers == 1 {
        let hash = hash_of(report);
        return (hash, ledger_out(alloc, ledger, rest));
    }
    join(
        rt,
        move || -> [u8; 32]
            ensures { result ≡ sha256 report.entry.now }
        { hash_of(report) },
        move || ledger_out(alloc, ledger, rest),
    )
}

/// Writes the file of a change log, if one was kept, and drops the log.
pub fn log_out(alloc: Global, log: Option<Log>) -> Result<Option<Vec<u8>>, NoMemory>
    requires { IfSome log log_format.fits }
    ensures { IfOk result (λ bytes. option_map (λ b. b.items) bytes ≡ option_map (λ l. log_format.spell l) log) }
{
    match log {
        None => Ok(None),
        Some(log) => Ok(Some(write_log(alloc, &log)?.into_vec())),
    }
}
