//! One entry of a map.

ghost use Rattle.std.specs.Prelude.{◌≡◌, IfOk};
ghost use Rattle.sha2.specs.Sha256.{sha256};
ghost use Rattle.ledger_types.specs.Key.{key_format};
ghost use Rattle.ledger_types.specs.Entry.{entry_format, key_of as key_of_entry};
ghost use Rattle.ledger_spec.specs.LedgerMap.{key_bytes, HasCodeHash, IsKeptAt};

use ledger_spec::Kept;
use ledger_types::{LedgerEntry, LedgerKey, key_hash, key_of};
use std::alloc::Global;
use value_types::Hash;
use xdr_core::NoMemory;

/// An entry with its live-until ledger, and the SHA-256 of its key's XDR bytes. The ledger file and the lines of `show`
/// contain this hash, so the map keeps it.
#[derive(Drop)]
pub struct StoredEntry {
    pub key_hash: Hash,
    pub kept: Kept,
    pub ghost hashed: { key_hash.0 ≡ sha256 (key_bytes (key_of_entry kept.entry)) },
}

/// Makes an entry at a key as a map stores it.
pub fn store_at(alloc: Global, key: &LedgerKey, kept: Kept) -> Result<Box<StoredEntry>, NoMemory>
    requires fits { key_format.fits key.now }
    requires kept { IsKeptAt (key_bytes key.now) kept }
    ensures { IfOk result (λ stored. stored.value.kept ≡ kept) }
{
    let key_hash = key_hash(alloc, key)?;
    Ok(Box::new(alloc, StoredEntry { key_hash, kept })?)
}

/// Makes the key of an entry, and the entry as a map stores it.
pub fn store_entry(
    alloc: Global,
    entry: LedgerEntry,
    live_until: u32,
) -> Result<(LedgerKey, Box<StoredEntry>), NoMemory>
    requires fits { entry_format.fits entry }
    requires hashed { HasCodeHash entry.data }
    ensures key { IfOk result (λ made. made.0 ≡ key_of_entry entry) }
    ensures stored { IfOk result (λ made. made.1.value.kept ≡ record { entry = entry; live_until = live_until }) }
    ensures spelled { IfOk result (λ made. key_format.fits made.0) }
    ensures kept { IfOk result (λ made. IsKeptAt (key_bytes made.0) made.1.value.kept) }
{
    let key = key_of(&entry)?;
    let key_hash = key_hash(alloc, &key)?;
    let stored = StoredEntry {
        key_hash,
        kept: Kept { entry, live_until },
    };
    let stored = Box::new(alloc, stored)?;
    Ok((key, stored))
}
