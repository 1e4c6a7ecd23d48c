//! Reads the files of the program: each is read whole and checked.

ghost use Rattle.std.specs.Prelude.{◌≡◌, ◌<◌, [], ◌∷◌, true, Ok as Good, Some, IfOk, IfErr, IfSome, IsTrue};
ghost use Rattle.xdr_spec.specs.Refusal.{Spells};
ghost use Rattle.base64_text.specs.Text.{bytes_in};
ghost use Rattle.ledger_types.specs.Verdicts.{verdicts_format};
ghost use Rattle.ledger_spec.specs.LedgerFile.{are_settings, has_next, ledger_of};
ghost use Rattle.edge_io.specs.Contents.{IsThere};
ghost use Rattle.why_top.specs.Counts.{HasCause, IsNoFault, IsOfBytes, NoLower, SameCounts, file};
ghost use Rattle.why_top.specs.Files.{FileSpells, Holds, HoldsLedger, HoldsVerdicts, TextSpells};
ghost use Rattle.why_top.specs.Refused.{AreNoVerdicts, AreRefusedVerdicts, IsNoBase64, IsNoLedger, IsNoSpelling};
ghost use Rattle.why_top.specs.Refused.{IsRefusedFile, IsRefusedLedger, IsRefusedText, IsUnread};

use crate::error::WhyErr;
use base64_text::{TextErr, decode_text};
use edge_io::{Blob, Files, ReadErr, Word, read_whole};
use ledger_file::Ledger;
use ledger_types::Verdicts;
use std::alloc::Global;
use value_xdr::{Xdr, decode};
use xdr_core::ReadXdr;

/// The numbers of the file options, for which failed calls are counted.
pub(crate) const TX: u8 = 0;

const LEDGER: u8 = 1;

const VERDICTS: u8 = 2;

pub(crate) const SET: u8 = 3;

fn read_file<F: Files>(
    alloc: Global,
    files: &mut F,
    option: u8,
    name: &Word,
) -> Result<Blob, WhyErr>
    requires { option < 8 }
    ensures held { IfSome (F.contents files.old) (λ m. IfOk result (λ blob. Holds m name.now blob)) }
    ensures refused { IfSome (F.contents files.old) (λ m. IfErr result (IsUnread m name.now)) }
    ensures same { F.contents files.new ≡ F.contents files.old }
    ensures counts { NoLower (F.faults files.old) (F.faults files.new) }
    ensures cause { IfErr result (HasCause (file option name.now ∷ []) (F.faults files.old) (F.faults files.new)) }
    ensures steady { F.steady files.old → IsThere (F.contents files.old) name.now →
        IfErr result IsNoFault × F.steady files.new × SameCounts (F.faults files.old) (F.faults files.new) }
{
    // Cloned before the call, so that a fault can name the file.
    let again = name.clone()?;
    match read_whole(alloc, files, option, name) {
        Ok(blob) => Ok(blob),
        Err(ReadErr::Fault) => Err(WhyErr::Fault { name: again }),
        Err(ReadErr::TooLong) => Err(WhyErr::TooLong { name: again }),
        Err(ReadErr::NoMemory) => Err(WhyErr::NoMemory),
    }
}

/// Reads the ledger in a file.
pub(crate) fn read_ledger<F: Files>(
    alloc: Global,
    files: &mut F,
    name: &Word,
) -> Result<Ledger, WhyErr>
    ensures held { IfSome (F.contents files.old) (λ m. IfOk result (λ l. HoldsLedger m name.now l.header l.entries)) }
    ensures refused { IfSome (F.contents files.old) (λ m. IfErr result (IsRefusedLedger m name.now)) }
    ensures settings { IfOk result (λ l. IsTrue (are_settings l.header.settings)) }
    ensures next { IfOk result (λ l. IsTrue (has_next l.header)) }
    ensures same { F.contents files.new ≡ F.contents files.old }
    ensures counts { NoLower (F.faults files.old) (F.faults files.new) }
    ensures cause { IfErr result (HasCause (file 1 name.now ∷ []) (F.faults files.old) (F.faults files.new)) }
    ensures steady { F.steady files.old → IsThere (F.contents files.old) name.now →
        IfErr result IsNoFault × F.steady files.new × SameCounts (F.faults files.old) (F.faults files.new) }
{
    let bytes = read_file(alloc, files, LEDGER, name)?;
    ledger_in(alloc, bytes.as_slice())
}

/// The ledger whose file has these bytes.
fn ledger_in(alloc: Global, bytes: &[u8]) -> Result<Ledger, WhyErr>
    ensures means { IfOk result (λ l. ledger_of true bytes.now ≡ Good (l.header, l.entries)) }
    ensures refused { IfErr result (IsNoLedger bytes.now) }
    ensures settings { IfOk result (λ l. IsTrue (are_settings l.header.settings)) }
    ensures next { IfOk result (λ l. IsTrue (has_next l.header)) }
    ensures cause { IfErr result IsOfBytes }
{
    let ledger = ledger_file::read_ledger(alloc, bytes, true)?;
    Ok(ledger)
}

/// Reads the verdicts in a file.
pub(crate) fn read_verdicts<F: Files>(
    alloc: Global,
    files: &mut F,
    name: &Word,
) -> Result<Verdicts, WhyErr>
    ensures held { IfSome (F.contents files.old) (λ m. IfOk result (HoldsVerdicts m name.now)) }
    ensures refused { IfSome (F.contents files.old) (λ m. IfErr result (AreRefusedVerdicts m name.now)) }
    ensures same { F.contents files.new ≡ F.contents files.old }
    ensures counts { NoLower (F.faults files.old) (F.faults files.new) }
    ensures cause { IfErr result (HasCause (file 2 name.now ∷ []) (F.faults files.old) (F.faults files.new)) }
    ensures steady { F.steady files.old → IsThere (F.contents files.old) name.now →
        IfErr result IsNoFault × F.steady files.new × SameCounts (F.faults files.old) (F.faults files.new) }
{
    let bytes = read_file(alloc, files, VERDICTS, name)?;
    verdicts_in(alloc, bytes.as_slice())
}

/// The verdicts that these bytes spell.
fn verdicts_in(alloc: Global, bytes: &[u8]) -> Result<Verdicts, WhyErr>
    ensures spells { IfOk result (λ verdicts. Spells verdicts_format verdicts bytes.now) }
    ensures refused { IfErr result (AreNoVerdicts bytes.now) }
    ensures cause { IfErr result IsOfBytes }
{
    match ledger_file::read_verdicts(alloc, bytes) {
        Ok(verdicts) => Ok(verdicts),
        Err(ReadXdr::Bad(error)) => Err(WhyErr::Verdicts { at: error.at }),
        // Bytes in memory never stop.
        Err(ReadXdr::NoMemory | ReadXdr::Stopped) => Err(WhyErr::NoMemory),
    }
}

/// Reads the value that a file spells, an envelope or a set. The file may be base64 text.
pub(crate) fn read_spelled<T: Xdr + Drop, F: Files>(
    alloc: Global,
    files: &mut F,
    option: u8,
    name: &Word,
    base64: bool,
) -> Result<T, WhyErr>
    requires { option < 8 }
    ensures held { IfSome (F.contents files.old) (λ m. IfOk result (FileSpells T.format m base64 name.now)) }
    ensures refused { IfSome (F.contents files.old) (λ m. IfErr result (IsRefusedFile T.format m base64 name.now)) }
    ensures fits { IfOk result T.format.fits }
    ensures same { F.contents files.new ≡ F.contents files.old }
    ensures counts { NoLower (F.faults files.old) (F.faults files.new) }
    ensures cause { IfErr result (HasCause (file option name.now ∷ []) (F.faults files.old) (F.faults files.new)) }
    ensures steady { F.steady files.old → IsThere (F.contents files.old) name.now →
        IfErr result IsNoFault × F.steady files.new × SameCounts (F.faults files.old) (F.faults files.new) }
{
    let text = read_file(alloc, files, option, name)?;
    opened(alloc, base64, name, text.as_slice())
}

/// The value that a file's text spells, which may be base64.
fn opened<T: Xdr + Drop>(alloc: Global, base64: bool, name: &Word, text: &[u8]) -> Result<T, WhyErr>
    ensures spells { IfOk result (TextSpells T.format base64 text.now) }
    ensures refused { IfErr result (IsRefusedText T.format base64 name.now text.now) }
    ensures fits { IfOk result T.format.fits }
    ensures cause { IfErr result IsOfBytes }
{
    if base64 {
        let bytes = decoded(alloc, name, text)?;
        spelled(alloc, &bytes)
    } else {
        spelled(alloc, text)
    }
}

/// The bytes that the base64 text of a file encodes.
fn decoded(alloc: Global, name: &Word, text: &[u8]) -> Result<Vec<u8>, WhyErr>
    ensures opens { IfOk result (λ v. bytes_in text.now ≡ Some v.items) }
    ensures refused { IfErr result (IsNoBase64 true name.now text.now) }
    ensures cause { IfErr result IsOfBytes }
{
    let name = name.clone()?;
    match decode_text(alloc, text) {
        Ok(bytes) => Ok(bytes),
        Err(TextErr::NotBase64) => Err(WhyErr::NotBase64 { name }),
        Err(TextErr::NoMemory) => Err(WhyErr::NoMemory),
    }
}

/// The value that these bytes spell.
fn spelled<T: Xdr + Drop>(alloc: Global, bytes: &[u8]) -> Result<T, WhyErr>
    ensures spells { IfOk result (λ value. Spells T.format value bytes.now) }
    ensures refused { IfErr result (IsNoSpelling T.format bytes.now) }
    ensures cause { IfErr result IsOfBytes }
{
    let value = decode(alloc, bytes)?;
    Ok(value)
}
