//! Reads the input files of a command, and decodes them. A set that is no base64 text is read piece by piece, each other file
//! whole.

ghost use Rattle.std.specs.Prelude.{◌≡◌, ◌<◌, [], ◌∷◌, true, false, IfOk, IfErr, IfSome, IsTrue};
ghost use Rattle.change_log.specs.Log.{log_format};
ghost use Rattle.ledger_spec.specs.LedgerFile.{are_settings, has_next};
ghost use Rattle.ledger_types.specs.Header.{header_format};
ghost use Rattle.tx_xdr.specs.Envelope.{envelope_format, envelopes_format};
ghost use Rattle.tx_xdr.specs.Set.{set_format};
ghost use Rattle.command_io.specs.Counts.{HasCause, IsOfBytes, NoLower, SameCounts};
ghost use Rattle.command_io.specs.Inputs.{any_ledger_at, envelope_at, envelope_opened, ledger_at, list_at, log_at, set_at};
ghost use Rattle.command_io.specs.Inputs.{set_opened, verdicts_at};
ghost use Rattle.command_io.specs.Pieces.{as_poured};
ghost use Rattle.command_io.specs.Product.{file};
ghost use Rattle.command_io.specs.Seen.{seen};
ghost use Rattle.command_io.specs.Steps.{Gives, GivesExactly, UnlessFault, status_of};
ghost use Rattle.command_io.specs.Views.{file_of};

use crate::decode::{
    any_ledger_in, envelope_in, ledger_in, list_in, log_in, open_text, set_in, verdicts_in,
};
use crate::files::read_file;
use crate::{FileArg, Status};
use change_log::Log;
use edge_io::{Files, Word};
use file_pour::{PouredErr, read_poured};
use ledger_file::Ledger;
use ledger_types::Verdicts;
use std::alloc::Global;
use tx_xdr::{Envelope, TxSet};
use value_types::Items;

/// Reads the ledger in a file.
pub fn read_ledger<F: Files>(
    alloc: Global,
    files: &mut F,
    option: u8,
    name: &Word,
) -> Result<Ledger, Status>
    requires { option < 8 }
    ensures given { IfSome (F.contents files.old) (λ m. Gives seen result (ledger_at m name.now)) }
    ensures fits { IfOk result (λ l. header_format.fits l.header) }
    ensures settings { IfOk result (λ l. IsTrue (are_settings l.header.settings)) }
    ensures next { IfOk result (λ l. IsTrue (has_next l.header)) }
    ensures same { F.contents files.new ≡ F.contents files.old }
    ensures counts { NoLower (F.faults files.old) (F.faults files.new) }
    ensures cause { IfErr result (HasCause (file option name.now ∷ []) (F.faults files.old) (F.faults files.new)) }
    ensures steady { F.steady files.old → IfSome (F.contents files.old) (λ m. UnlessFault (status_of (ledger_at m name.now))
        (F.steady files.new × SameCounts (F.faults files.old) (F.faults files.new))) }
    ensures steady_exact { F.steady files.old → IfSome (F.contents files.old) (λ m.
        GivesExactly seen result (ledger_at m name.now)) }
{
    let bytes = read_file(alloc, files, &FileArg { option, name })?;
    ledger_in(alloc, bytes.as_slice())
}

/// Reads the ledger in a file, also one that no ledger may follow.
pub fn read_any_ledger<F: Files>(
    alloc: Global,
    files: &mut F,
    file: &FileArg<'_>,
) -> Result<Ledger, Status>
    ensures given { IfSome (F.contents files.old) (λ m. Gives seen result (any_ledger_at m file.now.name.now)) }
    ensures fits { IfOk result (λ l. header_format.fits l.header) }
    ensures same { F.contents files.new ≡ F.contents files.old }
    ensures counts { NoLower (F.faults files.old) (F.faults files.new) }
    ensures cause { IfErr result (HasCause (file_of file.now ∷ []) (F.faults files.old) (F.faults files.new)) }
    ensures steady { F.steady files.old
        → IfSome (F.contents files.old) (λ m. UnlessFault (status_of (any_ledger_at m file.now.name.now))
        (F.steady files.new × SameCounts (F.faults files.old) (F.faults files.new))) }
    ensures steady_exact { F.steady files.old → IfSome (F.contents files.old) (λ m.
        GivesExactly seen result (any_ledger_at m file.now.name.now)) }
{
    let bytes = read_file(alloc, files, file)?;
    any_ledger_in(alloc, bytes.as_slice())
}

/// Reads the verdicts in a file.
pub fn read_verdicts<F: Files>(
    alloc: Global,
    files: &mut F,
    option: u8,
    name: &Word,
) -> Result<Verdicts, Status>
    requires { option < 8 }
    ensures given { IfSome (F.contents files.old) (λ m. Gives (λ v. v) result (verdicts_at m name.now)) }
    ensures same { F.contents files.new ≡ F.contents files.old }
    ensures counts { NoLower (F.faults files.old) (F.faults files.new) }
    ensures cause { IfErr result (HasCause (file option name.now ∷ []) (F.faults files.old) (F.faults files.new)) }
    ensures steady { F.steady files.old → IfSome (F.contents files.old) (λ m. UnlessFault (status_of (verdicts_at m name.now))
        (F.steady files.new × SameCounts (F.faults files.old) (F.faults files.new))) }
    ensures steady_exact { F.steady files.old → IfSome (F.contents files.old) (λ m.
        GivesExactly (λ v. v) result (verdicts_at m name.now)) }
{
    let bytes = read_file(alloc, files, &FileArg { option, name })?;
    verdicts_in(alloc, bytes.as_slice())
}

/// Reads the transaction set in a file, which may be base64 text.
pub fn read_set<F: Files>(
    alloc: Global,
    files: &mut F,
    option: u8,
    name: &Word,
    base64: bool,
) -> Result<TxSet, Status>
    requires { option < 8 }
    ensures given { IfSome (F.contents files.old) (λ m. Gives (λ s. s) result (set_at m base64 name.now)) }
    ensures fits { IfOk result set_format.fits }
    ensures same { F.contents files.new ≡ F.contents files.old }
    ensures counts { NoLower (F.faults files.old) (F.faults files.new) }
    ensures cause { IfErr result (HasCause (file option name.now ∷ []) (F.faults files.old) (F.faults files.new)) }
    ensures steady { F.steady files.old → IfSome (F.contents files.old) (λ m. UnlessFault (status_of (set_at m base64 name.now))
        (F.steady files.new × SameCounts (F.faults files.old) (F.faults files.new))) }
    ensures steady_exact { F.steady files.old → IfSome (F.contents files.old) (λ m.
        GivesExactly (λ s. s) result (set_at m base64 name.now)) }
{
    let file = FileArg { option, name };
    if base64 {
        let text = read_file(alloc, files, &file)?;
        set_of_text(alloc, name, text.as_slice())
    } else {
        read_pieces(alloc, files, &file)
    }
}

/// The set that a file's base64 text encodes.
fn set_of_text(alloc: Global, name: &Word, text: &[u8]) -> Result<TxSet, Status>
    ensures given { Gives (λ s. s) result (set_opened true name.now text.now) }
    ensures fits { IfOk result set_format.fits }
    ensures cause { IfErr result IsOfBytes }
{
    let bytes = open_text(alloc, name, text)?;
    set_in(alloc, &bytes)
}

/// Reads the transaction set in a file, piece by piece.
fn read_pieces<F: Files>(alloc: Global, files: &mut F, file: &FileArg<'_>) -> Result<TxSet, Status>
    ensures given { IfSome (F.contents files.old) (λ m. Gives (λ s. s) result (set_at m false file.now.name.now)) }
    ensures fits { IfOk result set_format.fits }
    ensures same { F.contents files.new ≡ F.contents files.old }
    ensures counts { NoLower (F.faults files.old) (F.faults files.new) }
    ensures cause { IfErr result (HasCause (file_of file.now ∷ []) (F.faults files.old) (F.faults files.new)) }
    ensures steady { F.steady files.old
        → IfSome (F.contents files.old) (λ m. UnlessFault (status_of (set_at m false file.now.name.now))
        (F.steady files.new × SameCounts (F.faults files.old) (F.faults files.new))) }
    ensures steady_exact { F.steady files.old → IfSome (F.contents files.old) (λ m.
        GivesExactly (λ s. s) result (set_at m false file.now.name.now)) }
{
    // Cloned before the call, so that a fault can name the file.
    let name = file.name.clone()?;
    let read = read_poured(alloc, files, file.option, file.name);
    in_pieces(read, name)
}

/// The set that was read of a file of this name, or the status of the error.
fn in_pieces(read: Result<TxSet, PouredErr>, name: Word) -> Result<TxSet, Status>
    ensures { result ≡ as_poured name read }
{
    match read {
        Ok(set) => Ok(set),
        Err(PouredErr::Fault) => Err(Status::Fault { name }),
        Err(PouredErr::TooLong) => Err(Status::TooLong { name }),
        Err(PouredErr::Bad(error)) => Err(Status::Malformed {
            at: error.at,
            why: error.why,
        }),
        Err(PouredErr::NoMemory) => Err(Status::NoMemory),
    }
}

/// Reads the envelope in a file, which may be base64 text.
pub fn read_envelope<F: Files>(
    alloc: Global,
    files: &mut F,
    option: u8,
    name: &Word,
    base64: bool,
) -> Result<Envelope, Status>
    requires { option < 8 }
    ensures given { IfSome (F.contents files.old) (λ m. Gives (λ e. e) result (envelope_at m base64 name.now)) }
    ensures fits { IfOk result envelope_format.fits }
    ensures same { F.contents files.new ≡ F.contents files.old }
    ensures counts { NoLower (F.faults files.old) (F.faults files.new) }
    ensures cause { IfErr result (HasCause (file option name.now ∷ []) (F.faults files.old) (F.faults files.new)) }
    ensures steady { F.steady files.old
        → IfSome (F.contents files.old) (λ m. UnlessFault (status_of (envelope_at m base64 name.now))
        (F.steady files.new × SameCounts (F.faults files.old) (F.faults files.new))) }
    ensures steady_exact { F.steady files.old → IfSome (F.contents files.old) (λ m.
        GivesExactly (λ e. e) result (envelope_at m base64 name.now)) }
{
    let text = read_file(alloc, files, &FileArg { option, name })?;
    envelope_opened(alloc, base64, name, text.as_slice())
}

/// The envelope that a file's text spells.
fn envelope_opened(
    alloc: Global,
    base64: bool,
    name: &Word,
    text: &[u8],
) -> Result<Envelope, Status>
    ensures given { Gives (λ e. e) result (envelope_opened base64 name.now text.now) }
    ensures fits { IfOk result envelope_format.fits }
    ensures cause { IfErr result IsOfBytes }
{
    if base64 {
        let bytes = open_text(alloc, name, text)?;
        envelope_in(alloc, &bytes)
    } else {
        envelope_in(alloc, text)
    }
}

/// Reads the list of envelopes in a file.
pub fn read_list<F: Files>(
    alloc: Global,
    files: &mut F,
    file: &FileArg<'_>,
) -> Result<Items<Envelope, 4294967295>, Status>
    ensures given { IfSome (F.contents files.old) (λ m. Gives (λ l. l) result (list_at m file.now.name.now)) }
    ensures fits { IfOk result (λ l. envelopes_format.fits l) }
    ensures same { F.contents files.new ≡ F.contents files.old }
    ensures counts { NoLower (F.faults files.old) (F.faults files.new) }
    ensures cause { IfErr result (HasCause (file_of file.now ∷ []) (F.faults files.old) (F.faults files.new)) }
    ensures steady { F.steady files.old
        → IfSome (F.contents files.old) (λ m. UnlessFault (status_of (list_at m file.now.name.now))
        (F.steady files.new × SameCounts (F.faults files.old) (F.faults files.new))) }
    ensures steady_exact { F.steady files.old → IfSome (F.contents files.old) (λ m.
        GivesExactly (λ l. l) result (list_at m file.now.name.now)) }
{
    let bytes = read_file(alloc, files, file)?;
    list_in(alloc, bytes.as_slice())
}

/// Reads the log in a file.
pub fn read_log<F: Files>(alloc: Global, files: &mut F, file: &FileArg<'_>) -> Result<Log, Status>
    ensures given { IfSome (F.contents files.old) (λ m. Gives (λ l. l) result (log_at m file.now.name.now)) }
    ensures fits { IfOk result (λ l. log_format.fits l) }
    ensures same { F.contents files.new ≡ F.contents files.old }
    ensures counts { NoLower (F.faults files.old) (F.faults files.new) }
    ensures cause { IfErr result (HasCause (file_of file.now ∷ []) (F.faults files.old) (F.faults files.new)) }
    ensures steady { F.steady files.old
        → IfSome (F.contents files.old) (λ m. UnlessFault (status_of (log_at m file.now.name.now))
        (F.steady files.new × SameCounts (F.faults files.old) (F.faults files.new))) }
    ensures steady_exact { F.steady files.old → IfSome (F.contents files.old) (λ m.
        GivesExactly (λ l. l) result (log_at m file.now.name.now)) }
{
    let bytes = read_file(alloc, files, file)?;
    log_in(alloc, bytes.as_slice())
}
