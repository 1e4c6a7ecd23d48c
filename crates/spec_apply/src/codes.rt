//! The codes of a ledger.

ghost use Rattle.std.specs.Prelude.{IfOk};
ghost use Rattle.code_cache.specs.Cached.{AreRising};

use code_cache::Code;
use entry_map::{EntryMap, Row};
use ledger_types::{LedgerEntry, LedgerEntryData};
use stage_codes::{Codes, in_order};
use std::alloc::Global;
use xdr_core::NoMemory;

/// Adds the code of an entry, if it is a code entry.
fn add_code<'a>(codes: &mut Codes<'a>, entry: &'a LedgerEntry) -> Result<(), NoMemory> {
    if let LedgerEntryData::ContractCode(code) = &entry.data {
        codes.insert(code.hash.0, code.code.as_slice())?;
    }
    Ok(())
}

/// Adds the codes of a row of entries.
fn add_row<'a>(codes: &mut Codes<'a>, row: &'a Row) -> Result<(), NoMemory> {
    for stored in row {
        add_code(codes, &stored.kept.entry)?;
    }
    Ok(())
}

/// Returns the codes of a ledger, sorted by their hashes.
pub(crate) fn codes_of(alloc: Global, entries: &EntryMap) -> Result<Vec<Code<'_>>, NoMemory>
    ensures { IfOk result (λ codes. AreRising codes.items) }
{
    let mut codes = Codes::new(alloc);
    for row in entries.rows() {
        add_row(&mut codes, row)?;
    }
    Ok(in_order(alloc, codes)?)
}
