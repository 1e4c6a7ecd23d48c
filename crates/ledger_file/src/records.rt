//! Makes a map of a file's records.

ghost use Rattle.std.specs.Prelude.{◌≡◌, None, Ok, Err, [], ◌∷◌, ◌++◌, OnOk, IfOk, IfErr};
ghost use Rattle.std.specs.FinMap.{entries as entries_of, len};
ghost use Rattle.std.specs.List.{AllByRecursion};
ghost use Rattle.sha2.specs.Sha256.{sha256};
ghost use Rattle.ledger_types.specs.Key.{key_format};
ghost use Rattle.ledger_types.specs.Entry.{key_of as key_of_entry};
ghost use Rattle.ledger_types.specs.Record.{record_format};
ghost use Rattle.ledger_spec.specs.LedgerMap.{key_bytes};
ghost use Rattle.ledger_spec.specs.LedgerFile.{first_fault, fault_of, map_of, record_key, kept_of};
ghost use Rattle.entry_map.specs.Entries.{last_key};
ghost use Rattle.ledger_file.specs.Records.{pair_of, IsFaultUnlessMemory, IsFirstUnlessMemory};

use crate::error::LedgerErr;
use crate::rules::record_fault;
use entry_map::{EntryMap, StoredEntry};
use ledger_spec::{Kept, LedgerRefusal};
use ledger_types::{BoxedRecord, LedgerKey, LedgerRecord, key_hash, key_of};
use std::alloc::Global;
use xdr_core::NoMemory;

/// Tests the record that follows those of the map, whose key this is.
fn judge(
    alloc: Global,
    entries: &EntryMap,
    key: &LedgerKey,
    item: &LedgerRecord,
) -> Result<(), LedgerErr>
    requires fits { key_format.fits key.now }
    requires key { key.now ≡ key_of_entry item.now.entry }
    ensures good { OnOk result (fault_of (last_key (entries_of entries.now)) item.now ≡ None) }
    ensures err { IfErr result (IsFaultUnlessMemory (len entries.now) (fault_of (last_key (entries_of entries.now)) item.now)) }
{
    let hash = key_hash(alloc, key)?;
    match record_fault(entries.ends_below(key), &hash, item) {
        None => Ok(()),
        Some(why) => Err(LedgerErr::Refused(LedgerRefusal {
            why,
            at: entries.len() as u64,
        })),
    }
}

/// Tests the record that follows those of the map.
fn judge_record(alloc: Global, entries: &EntryMap, item: &LedgerRecord) -> Result<(), LedgerErr>
    requires { record_format.fits item.now }
    ensures good { OnOk result (fault_of (last_key (entries_of entries.now)) item.now ≡ None) }
    ensures err { IfErr result (IsFaultUnlessMemory (len entries.now) (fault_of (last_key (entries_of entries.now)) item.now)) }
{
    let key = key_of(&item.entry)?;
    judge(alloc, entries, &key, item)
}

/// Pairs a value with the result of another call. An error drops the value.
fn beside<T: Drop, U, E>(value: T, made: Result<U, E>) -> Result<(T, U), E>
    ensures ok { IfOk result (λ pair. (pair.0 ≡ value) × (made ≡ Ok pair.1)) }
    ensures err { IfErr result (λ e. made ≡ Err e) }
{
    match made {
        Ok(made) => Ok((value, made)),
        Err(e) => Err(e),
    }
}

/// Makes the map's entry of a record, whose hash is that of its key.
fn stored(alloc: Global, item: LedgerRecord) -> Result<Box<StoredEntry>, NoMemory>
    requires { item.ttl.key_hash.0 ≡ sha256 (record_key item) }
    ensures { IfOk result (λ stored. stored.value.kept ≡ kept_of item) }
{
    let stored = Box::new(
        alloc,
        StoredEntry {
            key_hash: item.ttl.key_hash,
            kept: Kept {
                entry: item.entry,
                live_until: item.ttl.live_until_ledger_seq,
            },
        },
    )?;
    Ok(stored)
}

/// Tests and adds the record that follows those of the map.
fn add_record(alloc: Global, entries: &mut EntryMap, item: LedgerRecord) -> Result<(), LedgerErr>
    requires { record_format.fits item }
    ensures good { OnOk result (fault_of (last_key (entries_of entries.old)) item ≡ None) }
    ensures ok { OnOk result (entries_of entries.new ≡ entries_of entries.old ++ pair_of item ∷ []) }
    ensures err { IfErr result (IsFaultUnlessMemory (len entries.old) (fault_of (last_key (entries_of entries.old)) item)) }
{
    let judged = judge_record(alloc, entries, &item);
    let (item, ()) = beside(item, judged)?;
    let entry = stored(alloc, item)?;
    entries.push(entry)?;
    Ok(())
}

/// Does the same for a record on the heap.
fn push_record(alloc: Global, entries: &mut EntryMap, item: BoxedRecord) -> Result<(), LedgerErr>
    requires { record_format.fits item }
    ensures good { OnOk result (fault_of (last_key (entries_of entries.old)) item ≡ None) }
    ensures ok { OnOk result (entries_of entries.new ≡ entries_of entries.old ++ pair_of item ∷ []) }
    ensures err { IfErr result (IsFaultUnlessMemory (len entries.old) (fault_of (last_key (entries_of entries.old)) item)) }
{
    add_record(alloc, entries, item.into_record())
}

/// Makes the map of a file's records, or returns the first record's fault.
pub fn map_of_records(alloc: Global, records: Vec<BoxedRecord>) -> Result<EntryMap, LedgerErr>
    requires { AllByRecursion record_format.fits records.items }
    ensures good { OnOk result (first_fault 0 None records.items ≡ None) }
    ensures ok { IfOk result (λ entries. entries ≡ map_of records.items) }
    ensures err { IfErr result (IsFirstUnlessMemory (first_fault 0 None records.items)) }
{
    let mut entries = EntryMap::new(alloc);
    for item in records {
        push_record(alloc, &mut entries, item)?;
    }
    Ok(entries)
}
