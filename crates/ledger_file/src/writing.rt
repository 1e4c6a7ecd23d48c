//! Writes ledgers as bytes.

ghost use Rattle.std.specs.Prelude.{◌≡◌, ◌++◌, OnOk, OnErr, IfOk};
ghost use Rattle.std.specs.FinMap.{entries as entries_of};
ghost use Rattle.std.specs.List.{AllByRecursion, flat_map};
ghost use Rattle.xdr_core.specs.Writes.{StartsWith};
ghost use Rattle.ledger_types.specs.Header.{header_format};
ghost use Rattle.ledger_types.specs.Record.{record_format};
ghost use Rattle.ledger_spec.specs.LedgerFile.{record_of, ledger_bytes};
ghost use Rattle.entry_map.specs.Entries.{pairs_of, IsAt};
ghost use Rattle.ledger_file.specs.Records.{record_bytes, IsKept};

use crate::ledger::Ledger;
use entry_map::{EntryMap, StoredEntry};
use file_version::FileVersion;
use ledger_types::TtlEntry;
use std::alloc::Global;
use value_types::Blob;
use value_xdr::Xdr;
use xdr_core::{NoMemory, Out};

/// Writes the record of an entry.
#[tactic(auto, unfolding(ledger_types::specs::Record::record_format))]
fn write_record(stored: &StoredEntry, out: &mut Out) -> Result<(), NoMemory>
    requires { IsKept stored.now.kept }
    ensures ok { OnOk result (out.new ≡ out.old ++ record_format.spell (record_of stored.now.kept)) }
    ensures err { OnErr result (StartsWith out.new out.old) }
{
    stored.kept.entry.write(out)?;
    let ttl = TtlEntry {
        key_hash: stored.key_hash,
        live_until_ledger_seq: stored.kept.live_until,
    };
    ttl.write(out)
}

/// Writes the records of a row of entries.
fn write_row(row: &[Box<StoredEntry>], out: &mut Out) -> Result<(), NoMemory>
    requires { AllByRecursion IsAt (pairs_of row.now) }
    ensures ok { OnOk result (out.new ≡ out.old ++ flat_map record_bytes (pairs_of row.now)) }
    ensures err { OnErr result (StartsWith out.new out.old) }
{
    for stored in row {
        write_record(stored, out)?;
    }
    Ok(())
}

/// Writes the records of all entries.
fn write_records(entries: &EntryMap, out: &mut Out) -> Result<(), NoMemory>
    ensures ok { OnOk result (out.new ≡ out.old ++ flat_map record_bytes (entries_of entries.now)) }
    ensures err { OnErr result (StartsWith out.new out.old) }
{
    for row in entries.rows() {
        write_row(row, out)?;
    }
    Ok(())
}

/// Writes the file of a ledger, in version 2.
pub fn write_ledger(alloc: Global, ledger: &Ledger) -> Result<Blob, NoMemory>
    requires { header_format.fits ledger.now.header }
    ensures { IfOk result (λ file. file ≡ ledger_bytes ledger.now.header ledger.now.entries) }
{
    let mut out = Out::new(alloc);
    out.put_u32(FileVersion::V2.number())?;
    ledger.header.write(&mut out)?;
    out.put_u32(ledger.entries.len() as u32)?;
    write_records(&ledger.entries, &mut out)?;
    Ok(Blob::from_vec(out.into_vec()))
}
