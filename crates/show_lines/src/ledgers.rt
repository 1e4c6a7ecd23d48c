//! The lines that show a value or a ledger.

ghost use Rattle.std.specs.Prelude.{◌≡◌, ◌++◌, length, OnOk, IfOk};
ghost use Rattle.std.specs.List.{AllByRecursion, flat_map};
ghost use Rattle.std.specs.FinMap.{entries as entries_of};
ghost use Rattle.ledger_types.specs.Entry.{key_of};
ghost use Rattle.ledger_spec.specs.LedgerMap.{key_bytes};
ghost use Rattle.entry_map.specs.Entries.{pairs_of, IsAt};
ghost use Rattle.show_lines.specs.LedgerLines.{header_line, ledger_lines, record_line, value_line};
ghost use Rattle.value_types.specs.Formats.{scval_format};

use entry_map::{EntryMap, StoredEntry};
use ledger_file::Ledger;
use ledger_types::Header;
use std::alloc::{AllocError, Global};
use text_lines::{push_hex, push_number};
use value_types::{ScVal, depth};

/// The line of a value: the number of its type, the length of its spelling (`size`), and its depth.
pub fn value_line(alloc: Global, value: &ScVal, size: usize) -> Result<Vec<u8>, AllocError>
    requires fits { scval_format.fits value.now }
    requires size { size ≡ length (scval_format.spell value.now) }
    ensures { IfOk result (λ v. v.items ≡ value_line value.now) }
{
    let mut line = Vec::from_slice(alloc, b"type ")?;
    push_number(&mut line, value.kind().number() as u64, b" size ")?;
    push_number(&mut line, size as u64, b" depth ")?;
    push_number(&mut line, depth(value), b"\n")?;
    Ok(line)
}

/// The lines of a ledger: its number, its close time and the number of its entries, and for each entry the SHA-256 of its key and
/// its live-until ledger.
pub fn ledger_lines(alloc: Global, ledger: &Ledger) -> Result<Vec<u8>, AllocError>
    ensures { IfOk result (λ v. v.items ≡ ledger_lines ledger.now.header ledger.now.entries) }
{
    let mut lines = header_line(alloc, &ledger.header, ledger.entries.len())?;
    push_records(alloc, &mut lines, &ledger.entries)?;
    Ok(lines)
}

fn header_line(alloc: Global, header: &Header, records: usize) -> Result<Vec<u8>, AllocError>
    ensures { IfOk result (λ v. v.items ≡ header_line header.now records) }
{
    let mut line = Vec::from_slice(alloc, b"seq ")?;
    push_number(&mut line, header.seq as u64, b" time ")?;
    push_number(&mut line, header.close_time, b" records ")?;
    push_number(&mut line, records as u64, b"\n")?;
    Ok(line)
}

fn push_records(alloc: Global, lines: &mut Vec<u8>, entries: &EntryMap) -> Result<(), AllocError>
    ensures { OnOk result (lines.new.items ≡ lines.old.items ++ flat_map record_line (entries_of entries.now)) }
{
    for row in entries.rows() {
        push_row(alloc, lines, row)?;
    }
    Ok(())
}

fn push_row(alloc: Global, lines: &mut Vec<u8>, row: &[Box<StoredEntry>]) -> Result<(), AllocError>
    requires { AllByRecursion IsAt (pairs_of row.now) }
    ensures { OnOk result (lines.new.items ≡ lines.old.items ++ flat_map record_line (pairs_of row.now)) }
{
    for stored in row {
        push_record(alloc, lines, stored)?;
    }
    Ok(())
}

fn push_record(alloc: Global, lines: &mut Vec<u8>, stored: &StoredEntry) -> Result<(), AllocError>
    ensures { OnOk result (lines.new.items ≡ lines.old.items ++ record_line
        (key_bytes (key_of stored.now.kept.entry), stored.now.kept)) }
{
    push_hex(alloc, lines, &stored.key_hash.0, b" ")?;
    push_number(lines, stored.kept.live_until as u64, b"\n")
}
