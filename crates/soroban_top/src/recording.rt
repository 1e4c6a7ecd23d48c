//! The command `record`: finds the authorisation entries that a transaction needs.

ghost use Rattle.std.specs.Prelude.{◌≡◌, ◌≤◌, ◌<◌, ◌^◌, length, IfOk, IfErr, IfSome, IsTrue};
ghost use Rattle.auth_record.specs.Views.{recorded_in};
ghost use Rattle.command_words.specs.declared.request.Request.TheVariants.{Record as Asked};
ghost use Rattle.ledger_spec.specs.LedgerFile.{are_settings, has_next};
ghost use Rattle.tx_xdr.specs.Envelope.{envelope_format};
ghost use Rattle.command_io.specs.Counts.{HasCause, NoLower, SameCounts};
ghost use Rattle.command_io.specs.Product.{file};
ghost use Rattle.command_io.specs.Seen.{seen};
ghost use Rattle.command_io.specs.Steps.{Gives, GivesExactly, UnlessFault, status_of};
ghost use Rattle.command_io.specs.Views.{made_of, targets_of};
ghost use Rattle.soroban_top.specs.Asked.{reads_of, writes_of};
ghost use Rattle.soroban_top.specs.EntriesRecorded.{entries_format, entries_stored, recorded_for, recorded_lines};
ghost use Rattle.soroban_top.specs.Outcome.{outcome_of};

use crate::options::{RECORDED_LEDGER, RECORDED_OUT, RECORDED_TX};
use crate::simulation::running_header;
use auth_record::{Recorded, record_auth};
use command_io::{FileArg, OutputFile, Product, Status, read_envelope, read_ledger};
use command_words::RecordRequest;
use edge_io::Files;
use ledger_file::Ledger;
use std::alloc::{AllocError, Global};
use text_lines::push_number;
use tx_xdr::Envelope;
use value_xdr::encode;
use xdr_core::NoMemory;

/// Reads and checks the two files, and makes the file with the entries, and the lines.
pub fn record<'a, F: Files>(
    alloc: Global,
    files: &mut F,
    request: &'a RecordRequest,
) -> Result<Product<'a>, Status>
    requires nonce { request.now.nonce ≤ 2 ^ 62 }
    requires expiration { request.now.expiration < 2 ^ 32 }
    ensures given { IfSome (F.contents files.old) (λ m. Gives made_of result (outcome_of (Asked request.now) m)) }
    ensures targets { IfOk result (λ p. targets_of p.stores.items ≡ writes_of (Asked request.now)) }
    ensures same { F.contents files.new ≡ F.contents files.old }
    ensures counts { NoLower (F.faults files.old) (F.faults files.new) }
    ensures cause { IfErr result (HasCause (reads_of (Asked request.now)) (F.faults files.old) (F.faults files.new)) }
    ensures steady { F.steady files.old
        → IfSome (F.contents files.old) (λ m. UnlessFault (status_of (outcome_of (Asked request.now) m))
        (F.steady files.new × SameCounts (F.faults files.old) (F.faults files.new))) }
    ensures steady_exact { F.steady files.old → IfSome (F.contents files.old) (λ m.
        GivesExactly made_of result (outcome_of (Asked request.now) m)) }
{
    let ledger = read_ledger(alloc, files, RECORDED_LEDGER, &request.ledger)?;
    let envelope = read_envelope(alloc, files, RECORDED_TX, &request.tx, false)?;
    let product = make_product(alloc, &ledger, envelope, request)?;
    Ok(product)
}

/// Records an envelope over a ledger, and makes the file and the lines. The envelope is dropped here, once, and not at each exit
/// of the caller.
fn make_product<'a>(
    alloc: Global,
    ledger: &Ledger,
    envelope: Envelope,
    request: &'a RecordRequest,
) -> Result<Product<'a>, NoMemory>
    requires envelope { envelope_format.fits envelope }
    requires settings { IsTrue (are_settings ledger.now.header.settings) }
    requires next { IsTrue (has_next ledger.now.header) }
    requires nonce { request.now.nonce ≤ 2 ^ 62 }
    requires expiration { request.now.expiration < 2 ^ 32 }
    ensures made { IfOk result (λ p. made_of p
        ≡ entries_stored (file 2 request.now.out) (recorded_for request.now (seen ledger.now) envelope)) }
    ensures targets { IfOk result (λ p. targets_of p.stores.items ≡ writes_of (Asked request.now)) }
{
    let recorded = run(alloc, ledger, &envelope, request)?;
    product_of(alloc, request, &recorded)
}

/// Records an envelope that is lent.
#[tactic(auto, unfolding(crate::specs::EntriesRecorded::recorded_for))]
fn run(
    alloc: Global,
    ledger: &Ledger,
    envelope: &Envelope,
    request: &RecordRequest,
) -> Result<Recorded, NoMemory>
    requires envelope { envelope_format.fits envelope.now }
    requires settings { IsTrue (are_settings ledger.now.header.settings) }
    requires next { IsTrue (has_next ledger.now.header) }
    requires nonce { request.now.nonce ≤ 2 ^ 62 }
    requires expiration { request.now.expiration < 2 ^ 32 }
    ensures recorded { IfOk result (λ r. recorded_in r ≡ recorded_for request.now (seen ledger.now) envelope.now) }
    ensures fits { IfOk result (λ r. entries_format.fits r.entries) }
{
    let header = running_header(&ledger.header, request.close_time);
    let expiration = request.expiration as u32;
    record_auth(alloc, ledger, &header, envelope, request.nonce, expiration)
}

/// Makes the file of the entries, and the lines.
fn product_of<'a>(
    alloc: Global,
    request: &'a RecordRequest,
    recorded: &Recorded,
) -> Result<Product<'a>, NoMemory>
    requires fits { entries_format.fits recorded.now.entries }
    ensures made { IfOk result (λ p. made_of p ≡ entries_stored (file 2 request.now.out) (recorded_in recorded.now)) }
    ensures targets { IfOk result (λ p. targets_of p.stores.items ≡ writes_of (Asked request.now)) }
{
    let lines = lines_of(alloc, recorded)?;
    let bytes = encode(alloc, &recorded.entries)?;
    let mut stores = Vec::new(alloc);
    let file = FileArg {
        option: RECORDED_OUT,
        name: &request.out,
    };
    stores.push(OutputFile { file, bytes })?;
    Ok(Product { stores, lines })
}

/// Makes the lines with the number of entries, and whether a demand was caught.
fn lines_of(alloc: Global, recorded: &Recorded) -> Result<Vec<u8>, AllocError>
    ensures { IfOk result (λ v. v.items ≡ recorded_lines (length recorded.now.entries) recorded.now.caught) }
{
    let mut lines = Vec::from_slice(alloc, b"entries ")?;
    let entries = recorded.entries.as_slice().len();
    push_number(&mut lines, entries as u64, b"\n")?;
    lines.extend_from_slice(b"caught ")?;
    push_number(&mut lines, u64::from(recorded.caught), b"\n")?;
    Ok(lines)
}
