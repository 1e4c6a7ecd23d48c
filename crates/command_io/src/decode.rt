//! Decodes the bytes of files: base64 text, sets, envelopes, lists of envelopes, ledgers, verdicts, contract values, change logs.

ghost use Rattle.std.specs.Prelude.{◌≡◌, ℕ, List, true, IfOk, IfErr, IsTrue};
ghost use Rattle.base64.specs.GeneralPurpose.{IsBytes};
ghost use Rattle.base64_text.specs.Text.{IsTextOf};
ghost use Rattle.change_log.specs.Log.{log_format};
ghost use Rattle.ledger_spec.specs.LedgerFile.{are_settings, has_next};
ghost use Rattle.ledger_types.specs.Header.{header_format};
ghost use Rattle.tx_xdr.specs.Envelope.{envelope_format, envelopes_format};
ghost use Rattle.tx_xdr.specs.Set.{set_format};
ghost use Rattle.value_types.specs.Formats.{scval_format};
ghost use Rattle.xdr_spec.specs.Refusal.{Spells};
ghost use Rattle.command_io.specs.Counts.{IsOfBytes};
ghost use Rattle.command_io.specs.Inputs.{any_ledger_in, envelope_in, ledger_in, list_in, log_in, opened, set_in, value_in};
ghost use Rattle.command_io.specs.Inputs.{verdicts_in};
ghost use Rattle.command_io.specs.Seen.{seen};
ghost use Rattle.command_io.specs.Steps.{Gives};
ghost use Rattle.command_io.specs.declared.status.Status.TheVariants.{NotBase64};

use crate::Status;
use base64_text::{TextErr, decode_text};
use change_log::Log;
use edge_io::Word;
use ledger_file::{Ledger, LedgerErr, read_ledger};
use ledger_types::Verdicts;
use std::alloc::Global;
use tx_xdr::{Envelope, TxSet, read_envelope, read_set};
use value_types::{Items, ScVal};
use value_xdr::{decode, value_from_bytes};
use xdr_core::ReadXdr;

/// Decodes the base64 text in the file of this name.
pub fn open_text(alloc: Global, name: &Word, text: &[u8]) -> Result<Vec<u8>, Status>
    ensures given { Gives (λ v. v.items) result (opened true name.now text.now) }
    ensures cause { IfErr result IsOfBytes }
    // The text is the encoding of the bytes, or of no bytes if it is refused.
    ensures encoding { IfOk result (λ v. IsTextOf v.items text.now) }
    ensures none { result ≡ Err (NotBase64 name.now) → (bytes : List ℕ) → IsBytes bytes → IsTextOf bytes text.now → ⊥ }
{
    let name = name.clone()?;
    match decode_text(alloc, text) {
        Ok(bytes) => Ok(bytes),
        Err(TextErr::NotBase64) => Err(Status::NotBase64 { name }),
        Err(TextErr::NoMemory) => Err(Status::NoMemory),
    }
}

/// Reads a set; the error is the status of its refusal.
#[tactic(auto, unfolding(crate::specs::Inputs::set_in))]
pub fn set_in(alloc: Global, bytes: &[u8]) -> Result<TxSet, Status>
    ensures given { Gives (λ s. s) result (set_in bytes.now) }
    ensures fits { IfOk result set_format.fits }
    ensures cause { IfErr result IsOfBytes }
{
    let set = read_set(alloc, bytes)?;
    Ok(set)
}

/// Reads an envelope; the error is the status of its refusal.
#[tactic(auto, unfolding(crate::specs::Inputs::envelope_in))]
pub fn envelope_in(alloc: Global, bytes: &[u8]) -> Result<Envelope, Status>
    ensures given { Gives (λ e. e) result (envelope_in bytes.now) }
    ensures fits { IfOk result envelope_format.fits }
    ensures cause { IfErr result IsOfBytes }
{
    let envelope = read_envelope(alloc, bytes)?;
    Ok(envelope)
}

/// Reads a list of envelopes; the error is the status of its refusal.
#[tactic(auto, unfolding(crate::specs::Inputs::list_in))]
pub fn list_in(alloc: Global, bytes: &[u8]) -> Result<Items<Envelope, 4294967295>, Status>
    ensures given { Gives (λ l. l) result (list_in bytes.now) }
    ensures fits { IfOk result (λ l. envelopes_format.fits l) }
    ensures cause { IfErr result IsOfBytes }
{
    let list = decode::<Items<Envelope, 4294967295>>(alloc, bytes)?;
    Ok(list)
}

/// Reads a ledger that another ledger may follow; the error is the status of its refusal.
#[tactic(auto, unfolding(crate::specs::Inputs::ledger_in))]
pub fn ledger_in(alloc: Global, bytes: &[u8]) -> Result<Ledger, Status>
    ensures given { Gives seen result (ledger_in bytes.now) }
    ensures fits { IfOk result (λ l. header_format.fits l.header) }
    ensures settings { IfOk result (λ l. IsTrue (are_settings l.header.settings)) }
    ensures next { IfOk result (λ l. IsTrue (has_next l.header)) }
    ensures cause { IfErr result IsOfBytes }
{
    let ledger = ledger_file::read_ledger(alloc, bytes, true)?;
    Ok(ledger)
}

/// Reads any ledger, also one that no ledger may follow.
#[tactic(auto, unfolding(crate::specs::Inputs::any_ledger_in))]
pub fn any_ledger_in(alloc: Global, bytes: &[u8]) -> Result<Ledger, Status>
    ensures given { Gives seen result (any_ledger_in bytes.now) }
    ensures fits { IfOk result (λ l. header_format.fits l.header) }
    ensures cause { IfErr result IsOfBytes }
{
    let ledger = read_ledger(alloc, bytes, false)?;
    Ok(ledger)
}

/// Reads a value; the error is the status of its refusal.
#[tactic(auto, unfolding(crate::specs::Inputs::value_in))]
pub fn value_in(alloc: Global, bytes: &[u8]) -> Result<ScVal, Status>
    ensures given { Gives (λ v. v) result (value_in bytes.now) }
    ensures spelled { IfOk result (λ v. Spells scval_format v bytes.now) }
    ensures cause { IfErr result IsOfBytes }
{
    let value = value_from_bytes(alloc, bytes)?;
    Ok(value)
}

/// Reads verdicts; the error is the status of their refusal.
#[tactic(auto, unfolding(crate::specs::Inputs::verdicts_in))]
pub fn verdicts_in(alloc: Global, bytes: &[u8]) -> Result<Verdicts, Status>
    ensures given { Gives (λ v. v) result (verdicts_in bytes.now) }
    ensures cause { IfErr result IsOfBytes }
{
    match ledger_file::read_verdicts(alloc, bytes) {
        Ok(verdicts) => Ok(verdicts),
        Err(ReadXdr::Bad(error)) => Err(Status::Verdicts { at: error.at }),
        // Bytes in memory never stop.
        Err(ReadXdr::NoMemory | ReadXdr::Stopped) => Err(Status::NoMemory),
    }
}

/// Reads a log; the error is the status of its refusal.
#[tactic(auto, unfolding(crate::specs::Inputs::log_in))]
pub fn log_in(alloc: Global, bytes: &[u8]) -> Result<Log, Status>
    ensures given { Gives (λ l. l) result (log_in bytes.now) }
    ensures fits { IfOk result (λ l. log_format.fits l) }
    ensures cause { IfErr result IsOfBytes }
{
    let log = change_log::read_log(alloc, bytes)?;
    Ok(log)
}
