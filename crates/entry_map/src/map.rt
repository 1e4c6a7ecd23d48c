//! The map: look-ups, and changes that put entries in or take them out.

ghost use Rattle.std.specs.Prelude.{◌≡◌, ◌<◌, ◌+◌, ◌++◌, [], ◌∷◌, IsTrue, IfOk, IfSome, OnOk, OnErr, None};
ghost use Rattle.std.specs.List.{AllByRecursion};
ghost use Rattle.std.specs.Option.{option_copied, option_map};
ghost use Rattle.std.specs.FinMap.{empty, len, entries as entries_of, insert as insert_in, remove as remove_in};
ghost use Rattle.ledger_types.specs.Key.{key_format};
ghost use Rattle.ledger_spec.specs.LedgerFile.{is_above};
ghost use Rattle.ledger_spec.specs.LedgerMap.{find as find_in, key_bytes, IsLedgerMap, IsKeptAt};
ghost use Rattle.ledger_spec.specs.Changes.{raise as raise_in};
ghost use Rattle.entry_map.specs.Entries.{kept_of, own_bytes, pair_of, pairs_of, last_key, is_last};
ghost use Rattle.entry_map.specs.Rows.{joined, rows_of, before, after, HasEntry, IsGap};

use crate::rows::{
    Place, Row, ends_below, entry_at, insert_at, place_of, push_last, raise_at, remove_at,
    replace_at, set_at,
};
use crate::stored::{StoredEntry, store_at};
use ledger_spec::Kept;
use ledger_types::LedgerKey;
use std::alloc::Global;
use std::marker::Model;
use xdr_core::NoMemory;

/// As many entries as a 32-bit count can hold.
const MOST_ENTRIES: usize = 4_294_967_295;

/// The entries of a ledger, sorted by their keys' XDR bytes. A look-up and a change take O(log n) comparisons of keys, and an
/// entry that is added behind all others takes none. A look-up takes no memory.
#[derive(Drop)]
pub struct EntryMap {
    rows: Vec<Row>,
    count: usize,
}

impl Model for EntryMap {
    ghost use Rattle.std.specs.FinMap.{code};
    ghost use Rattle.std.specs.Coded.{coded_list, coded_ℕ};
    ghost use Rattle.ledger_spec.specs.contracts.Kept as kept;
    ghost use Rattle.ledger_spec.specs.LedgerMap.{LedgerMap};

    ghost Value = { LedgerMap };

    ghost coded = { code (coded_list coded_ℕ) kept.the_row.coded };

    ghost use Rattle.entry_map.specs.Entries.{map_of};
    ghost use Rattle.entry_map.specs.Rows.{AreRows, joined, rows_of};

    ghost view = { λ t. map_of (joined (rows_of t.rows.items)) };

    ghost invariant = { λ t. AreRows (rows_of t.rows.items) t.count };
}

/// Puts an entry into a gap and counts it, unless there are 2^32 - 1 entries already.
fn add_at(
    rows: &mut Vec<Row>,
    count: &mut usize,
    at: Place,
    stored: Box<StoredEntry>,
) -> Result<(), NoMemory>
    requires full { AllByRecursion HasEntry (rows_of rows.old.items) }
    requires gap { IsGap (rows_of rows.old.items) at }
    ensures ok { OnOk result (pairs_of (joined (rows_of rows.new.items))
        ≡ pairs_of (before (rows_of rows.old.items) at.row at.index)
        ++ pair_of stored ∷ pairs_of (after (rows_of rows.old.items) at.row at.index)) }
    ensures few { OnOk result (count.old < 4294967295) }
    ensures counted { OnOk result (count.new ≡ count.old + 1) }
    ensures err { OnErr result (pairs_of (joined (rows_of rows.new.items)) ≡ pairs_of (joined (rows_of rows.old.items))) }
    ensures same { OnErr result (count.new ≡ count.old) }
    ensures full { AllByRecursion HasEntry (rows_of rows.new.items) }
{
    if *count >= MOST_ENTRIES {
        return Err(NoMemory);
    }
    insert_at(rows, at, stored)?;
    *count += 1;
    Ok(())
}

impl EntryMap {
    /// Makes a map without entries.
    pub fn new(alloc: Global) -> EntryMap
        ensures { result ≡ empty }
    {
        EntryMap {
            rows: Vec::new(alloc),
            count: 0,
        }
    }

    /// Returns the number of entries.
    pub fn len(&self) -> usize
        ensures len { result ≡ len self.now }
        ensures map { IsLedgerMap self.now }
    {
        self.count
    }

    /// Returns the entries in rows, sorted by their keys' XDR bytes.
    pub fn rows(&self) -> &[Row]
        ensures entries { pairs_of (joined (rows_of result.now)) ≡ entries_of self.now }
        ensures map { IsLedgerMap self.now }
    {
        &self.rows
    }

    /// Whether a key is above all others. This takes one comparison at most.
    pub fn ends_below(&self, key: &LedgerKey) -> bool
        requires { key_format.fits key.now }
        ensures { result ≡ is_above (last_key (entries_of self.now)) (key_bytes key.now) }
    {
        match self.rows.last() {
            Some(row) => ends_below(row, key),
            None => true,
        }
    }

    /// Finds the entry at a key. It takes no memory.
    pub fn find(&self, key: &LedgerKey) -> Option<&Kept>
        requires { key_format.fits key.now }
        ensures found { option_copied result ≡ find_in self.now key.now }
        ensures map { IsLedgerMap self.now }
    {
        match place_of(&self.rows, key) {
            Ok(at) => Some(&entry_at(&self.rows, at).kept),
            Err(_) => None,
        }
    }

    /// Stores an entry at its key, and returns the entry that it replaces. Only a new key takes memory. A map that would
    /// grow past 2^32 - 1 entries is out of memory.
    pub fn insert(
        &mut self,
        key: &LedgerKey,
        stored: Box<StoredEntry>,
    ) -> Result<Option<Box<StoredEntry>>, NoMemory>
        requires fits { key_format.fits key.now }
        requires kept { IsKeptAt (key_bytes key.now) stored.value.kept }
        ensures old { IfOk result (λ old. option_map kept_of old ≡ find_in self.old key.now) }
        ensures ok { OnOk result (self.new ≡ insert_in self.old (key_bytes key.now) stored.value.kept) }
        ensures err { OnErr result (self.new ≡ self.old) }
        ensures absent { OnErr result (find_in self.old key.now ≡ None) }
    {
        match place_of(&self.rows, key) {
            Ok(at) => Ok(Some(replace_at(&mut self.rows, at, stored))),
            Err(at) => {
                add_at(&mut self.rows, &mut self.count, at, stored)?;
                Ok(None)
            }
        }
    }

    /// Stores an entry at its key. An entry in place of another keeps the hash of their key. Only a new key is hashed and takes
    /// memory. A map that would grow past 2^32 - 1 entries is out of memory.
    pub fn set(&mut self, alloc: Global, key: &LedgerKey, kept: Kept) -> Result<(), NoMemory>
        requires fits { key_format.fits key.now }
        requires kept { IsKeptAt (key_bytes key.now) kept }
        ensures ok { OnOk result (self.new ≡ insert_in self.old (key_bytes key.now) kept) }
        ensures err { OnErr result (self.new ≡ self.old) }
    {
        match place_of(&self.rows, key) {
            Ok(at) => {
                set_at(&mut self.rows, at, kept);
                Ok(())
            }
            Err(at) => {
                let stored = store_at(alloc, key, kept)?;
                add_at(&mut self.rows, &mut self.count, at, stored)?;
                Ok(())
            }
        }
    }

    /// Adds an entry whose key is above all others. Keys are not compared.
    pub fn push(&mut self, stored: Box<StoredEntry>) -> Result<(), NoMemory>
        requires last { IsTrue (is_last self.old (own_bytes stored)) }
        requires kept { IsKeptAt (own_bytes stored) stored.value.kept }
        ensures ok { OnOk result (entries_of self.new ≡ entries_of self.old ++ (own_bytes stored, stored.value.kept) ∷ []) }
        ensures err { OnErr result (self.new ≡ self.old) }
    {
        if self.count >= MOST_ENTRIES {
            return Err(NoMemory);
        }
        push_last(&mut self.rows, stored)?;
        self.count += 1;
        Ok(())
    }

    /// Takes the entry at a key out of the map. It takes no memory. `insert` puts it back as it is.
    pub fn take(&mut self, key: &LedgerKey) -> Option<Box<StoredEntry>>
        requires { key_format.fits key.now }
        ensures taken { option_map kept_of result ≡ find_in self.old key.now }
        ensures left { self.new ≡ remove_in self.old (key_bytes key.now) }
        ensures kept { IfSome result (λ held. IsKeptAt (key_bytes key.now) held.value.kept) }
    {
        match place_of(&self.rows, key) {
            Ok(at) => {
                self.count -= 1;
                Some(remove_at(&mut self.rows, at))
            }
            Err(_) => None,
        }
    }

    /// Raises the live-until ledger of the entry at a key, if there is one, to at least this ledger. It takes no memory.
    pub fn raise(&mut self, key: &LedgerKey, live_until: u32)
        requires { key_format.fits key.now }
        ensures { self.new ≡ raise_in self.old key.now live_until }
    {
        if let Ok(at) = place_of(&self.rows, key) {
            raise_at(&mut self.rows, at, live_until);
        }
    }
}
