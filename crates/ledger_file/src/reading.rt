//! Reads ledgers from bytes.

ghost use Rattle.std.specs.Prelude.{◌≡◌, Bool, Ok, IfOk, IfErr, IsTrue};
ghost use Rattle.xdr_spec.specs.Decoded.{decoded};
ghost use Rattle.ledger_types.specs.File.{file_format};
ghost use Rattle.ledger_types.specs.Header.{header_format};
ghost use Rattle.ledger_spec.specs.LedgerFile.{ledger_of, are_settings, has_next};
ghost use Rattle.ledger_file.specs.Reading.{IsRefusalUnlessMemory};

use crate::error::LedgerErr;
use crate::ledger::Ledger;
use crate::records::map_of_records;
use crate::rules::header_refusal;
use ledger_spec::{LedgerRefusal, LedgerWhy};
use ledger_types::LedgerFile;
use std::alloc::Global;
use value_xdr::decode;
use xdr_core::ReadXdr;

/// Decodes a file.
fn read_file(alloc: Global, bytes: &[u8]) -> Result<LedgerFile, LedgerErr>
    ensures file { IfOk result (λ file. decoded file_format bytes.now ≡ Ok file) }
    ensures fits { IfOk result file_format.fits }
    ensures refused { IfErr result (λ e. (follows : Bool) → IsRefusalUnlessMemory (ledger_of follows bytes.now) e) }
{
    match decode::<LedgerFile>(alloc, bytes) {
        Ok(file) => Ok(file),
        // Bytes in memory never stop.
        Err(ReadXdr::NoMemory | ReadXdr::Stopped) => Err(LedgerErr::NoMemory),
        Err(ReadXdr::Bad(e)) => Err(LedgerErr::Refused(LedgerRefusal {
            why: LedgerWhy::Xdr,
            at: e.at,
        })),
    }
}

/// Reads the ledger of a file. `follows` asks that another ledger may follow it.
///
/// All bytes are decoded first. The protocol and the settings are tested next, then the ledger's number if `follows` is
/// true, and then the records in their order. The first fault decides.
pub fn read_ledger(alloc: Global, bytes: &[u8], follows: bool) -> Result<Ledger, LedgerErr>
    ensures ledger { IfOk result (λ ledger. ledger_of follows bytes.now ≡ Ok (ledger.header, ledger.entries)) }
    ensures refused { IfErr result (IsRefusalUnlessMemory (ledger_of follows bytes.now)) }

    // The ledger can be written again.
    ensures header { IfOk result (λ ledger. header_format.fits ledger.header) }

    // A set can be applied to the ledger, if another ledger may follow.
    ensures settings { IfOk result (λ ledger. IsTrue (are_settings ledger.header.settings)) }
    ensures next { IfOk result (λ ledger. IsTrue follows → IsTrue (has_next ledger.header)) }
{
    let LedgerFile {
        header,
        records,
        ..
    } = read_file(alloc, bytes)?;
    if let Some(refusal) = header_refusal(&header, follows) {
        return Err(LedgerErr::Refused(refusal));
    }
    let entries = map_of_records(alloc, records.into_vec())?;
    Ok(Ledger { header, entries })
}
