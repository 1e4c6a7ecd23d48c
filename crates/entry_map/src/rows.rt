//! The rows in which a map keeps its entries.

ghost use Rattle.std.specs.Prelude.{◌≡◌, ◌≤◌, ◌<◌, ◌+◌, ◌^◌, suc, max, [], ◌∷◌, ◌++◌, OnOk, OnErr, get_or, set, length};
ghost use Rattle.std.specs.List.{AllByRecursion, remove as without};
ghost use Rattle.ledger_types.specs.Entry.{key_of as key_of_entry};
ghost use Rattle.ledger_types.specs.KeyOrder.{ranked_key};
ghost use Rattle.ledger_spec.specs.LedgerMap.{key_bytes};
ghost use Rattle.entry_map.specs.Entries.{Boxed, kept_of, lasting, own_bytes, own_key, pair_of, pairs_of, AreSorted};
ghost use Rattle.entry_map.specs.Rows.{rows_of, joined, before, after, cut, ends_below as ends_below_in, HasEntry, AreBelow};
ghost use Rattle.entry_map.specs.Rows.{AreAbove, IsSearched, IsPlaced, IsPlace, IsGap, moved};

use crate::order::cmp_entry;
use crate::stored::StoredEntry;
use ledger_spec::Kept;
use ledger_types::LedgerKey;
use std::cmp::Ordering;
use std::mem::replace;
use xdr_core::NoMemory;

/// Entries in the order of their keys' XDR bytes.
pub type Row = Vec<Box<StoredEntry>>;

/// As many entries as a row has before it is cut in two.
const MOST_IN_ROW: usize = 256;

/// As many entries as stay in a row that is cut in two.
const HALF_ROW: usize = 128;

/// The place of an entry in rows, or the gap before it.
#[derive(Clone, Copy, Debug, PartialEq, Eq)]
pub struct Place {
    pub row: usize,
    pub index: usize,
}

/// Whether the last key of a row is below a key.
pub fn ends_below(row: &[Box<StoredEntry>], key: &LedgerKey) -> bool
    ensures { result ≡ ends_below_in (ranked_key key.now) row.now }
{
    match row.last() {
        Some(stored) => cmp_entry(&stored.kept.entry, key).is_lt(),
        None => true,
    }
}

/// Returns the first row whose last key is not below a key, or the last row.
fn row_of(rows: &[Row], key: &LedgerKey) -> usize
    requires sorted { AreSorted (pairs_of (joined (rows_of rows.now))) }
    requires full { AllByRecursion HasEntry (rows_of rows.now) }
    ensures within { 0 < length rows.now → result < length rows.now }
    ensures below { AreBelow (ranked_key key.now) (before (rows_of rows.now) result 0) }
    ensures above { AreAbove (ranked_key key.now) (after (rows_of rows.now) (suc result) 0) }
{
    let mut low = 0;
    let mut high = rows.len().saturating_sub(1);
    while low < high {
        let middle = low + (high - low) / 2;
        if ends_below(&rows[middle], key) {
            low = middle + 1;
        } else {
            high = middle;
        }
    }
    low
}

/// Returns the index of the entry at a key in a row, or that of the first entry above the key.
fn index_in(row: &[Box<StoredEntry>], key: &LedgerKey) -> Result<usize, usize>
    requires { AreSorted (pairs_of row.now) }
    ensures { IsSearched (ranked_key key.now) row.now result }
{
    let mut low = 0;
    let mut high = row.len();
    while low < high {
        let middle = low + (high - low) / 2;
        match cmp_entry(&row[middle].kept.entry, key) {
            Ordering::Less => low = middle + 1,
            Ordering::Equal => return Ok(middle),
            Ordering::Greater => high = middle,
        }
    }
    Err(low)
}

/// Returns the place of the entry at a key, or the gap where it would be.
pub fn place_of(rows: &[Row], key: &LedgerKey) -> Result<Place, Place>
    requires sorted { AreSorted (pairs_of (joined (rows_of rows.now))) }
    requires full { AllByRecursion HasEntry (rows_of rows.now) }
    ensures { IsPlaced (ranked_key key.now) (rows_of rows.now) result }
{
    let row = row_of(rows, key);
    if row >= rows.len() {
        return Err(Place { row, index: 0 });
    }
    match index_in(&rows[row], key) {
        Ok(index) => Ok(Place { row, index }),
        Err(index) => Err(Place { row, index }),
    }
}

/// Returns the entry at a place.
pub fn entry_at(rows: &[Row], at: Place) -> &StoredEntry
    requires { IsPlace (rows_of rows.now) at }
    ensures { (d : Boxed) → result.now ≡ (get_or (get_or (rows_of rows.now) at.row []) at.index d).value }
{
    &rows[at.row][at.index]
}

/// Adds a row with one entry.
fn push_row(rows: &mut Vec<Row>, stored: Box<StoredEntry>) -> Result<(), NoMemory>
    requires { AllByRecursion HasEntry (rows_of rows.old.items) }
    ensures ok { OnOk result (pairs_of (joined (rows_of rows.new.items))
        ≡ pairs_of (joined (rows_of rows.old.items)) ++ pair_of stored ∷ []) }
    ensures err { OnErr result (rows_of rows.new.items ≡ rows_of rows.old.items) }
    ensures full { AllByRecursion HasEntry (rows_of rows.new.items) }
{
    let mut row = Vec::new(*rows.allocator());
    row.push(stored)?;
    rows.push(row)?;
    Ok(())
}

/// Puts an entry into a row.
fn insert_in(rows: &mut Vec<Row>, at: Place, stored: Box<StoredEntry>) -> Result<(), NoMemory>
    requires full { AllByRecursion HasEntry (rows_of rows.old.items) }
    requires row { at.row < length rows.old.items }
    requires index { at.index ≤ length (get_or (rows_of rows.old.items) at.row []) }
    ensures ok { OnOk result (pairs_of (joined (rows_of rows.new.items))
        ≡ pairs_of (before (rows_of rows.old.items) at.row at.index)
        ++ pair_of stored ∷ pairs_of (after (rows_of rows.old.items) at.row at.index)) }
    ensures err { OnErr result (rows_of rows.new.items ≡ rows_of rows.old.items) }
    ensures full { AllByRecursion HasEntry (rows_of rows.new.items) }
{
    rows[at.row].insert(at.index, stored)?;
    Ok(())
}

/// Cuts a row in two.
fn cut_row(rows: &mut Vec<Row>, row: usize) -> Result<(), NoMemory>
    requires full { AllByRecursion HasEntry (rows_of rows.old.items) }
    requires row { row < length rows.old.items }
    requires half { 128 < length (get_or (rows_of rows.old.items) row []) }
    ensures ok { OnOk result (rows_of rows.new.items ≡ cut (rows_of rows.old.items) row 128) }
    ensures err { OnErr result (rows_of rows.new.items ≡ rows_of rows.old.items) }
{
    rows.reserve(1)?;
    let rest = rows[row].split_off(HALF_ROW)?;
    // There is room for the second row.
    rows.insert(row + 1, rest)?;
    Ok(())
}

/// Returns where a gap is once its row is cut in two.
fn after_cut(at: Place) -> Place
    requires { at.row + 1 < 2 ^ 64 }
    ensures { result ≡ moved at }
{
    if at.index <= HALF_ROW {
        at
    } else {
        Place {
            row: at.row + 1,
            index: at.index - HALF_ROW,
        }
    }
}

/// Puts an entry into a gap. A full row is cut in two before.
pub fn insert_at(rows: &mut Vec<Row>, at: Place, stored: Box<StoredEntry>) -> Result<(), NoMemory>
    requires full { AllByRecursion HasEntry (rows_of rows.old.items) }
    requires gap { IsGap (rows_of rows.old.items) at }
    ensures ok { OnOk result (pairs_of (joined (rows_of rows.new.items))
        ≡ pairs_of (before (rows_of rows.old.items) at.row at.index)
        ++ pair_of stored ∷ pairs_of (after (rows_of rows.old.items) at.row at.index)) }
    ensures err { OnErr result (pairs_of (joined (rows_of rows.new.items)) ≡ pairs_of (joined (rows_of rows.old.items))) }
    ensures full { AllByRecursion HasEntry (rows_of rows.new.items) }
{
    if rows.is_empty() {
        return push_row(rows, stored);
    }
    if rows[at.row].len() < MOST_IN_ROW {
        return insert_in(rows, at, stored);
    }
    cut_row(rows, at.row)?;
    insert_in(rows, after_cut(at), stored)
}

/// Adds an entry after all others: to the last row, or as a new row if that is full.
pub fn push_last(rows: &mut Vec<Row>, stored: Box<StoredEntry>) -> Result<(), NoMemory>
    requires { AllByRecursion HasEntry (rows_of rows.old.items) }
    ensures ok { OnOk result (pairs_of (joined (rows_of rows.new.items))
        ≡ pairs_of (joined (rows_of rows.old.items)) ++ pair_of stored ∷ []) }
    ensures err { OnErr result (rows_of rows.new.items ≡ rows_of rows.old.items) }
    ensures full { AllByRecursion HasEntry (rows_of rows.new.items) }
{
    if rows.is_empty() {
        return push_row(rows, stored);
    }
    let row = rows.len() - 1;
    let index = rows[row].len();
    if index < MOST_IN_ROW {
        insert_in(rows, Place { row, index }, stored)
    } else {
        push_row(rows, stored)
    }
}

/// Takes an entry out of its row, which may become empty.
fn remove_in(rows: &mut Vec<Row>, at: Place) -> Box<StoredEntry>
    requires { IsPlace (rows_of rows.old.items) at }
    ensures entry { (d : Boxed) → result ≡ get_or (get_or (rows_of rows.old.items) at.row []) at.index d }
    ensures rows { rows_of rows.new.items ≡ set (rows_of rows.old.items) at.row
        (without (get_or (rows_of rows.old.items) at.row []) at.index) }
{
    rows[at.row].remove(at.index)
}

/// Takes a row out if it is empty.
fn remove_if_empty(rows: &mut Vec<Row>, row: usize)
    requires row { row < length rows.old.items }
    requires full { AllByRecursion HasEntry (without (rows_of rows.old.items) row) }
    ensures entries { joined (rows_of rows.new.items) ≡ joined (rows_of rows.old.items) }
    ensures full { AllByRecursion HasEntry (rows_of rows.new.items) }
{
    if rows[row].is_empty() {
        let _empty = rows.remove(row);
    }
}

/// Takes an entry out. It takes no memory.
pub fn remove_at(rows: &mut Vec<Row>, at: Place) -> Box<StoredEntry>
    requires full { AllByRecursion HasEntry (rows_of rows.old.items) }
    requires place { IsPlace (rows_of rows.old.items) at }
    ensures entry { (d : Boxed) → result ≡ get_or (get_or (rows_of rows.old.items) at.row []) at.index d }
    ensures left { pairs_of (joined (rows_of rows.new.items))
        ≡ pairs_of (before (rows_of rows.old.items) at.row at.index)
        ++ pairs_of (after (rows_of rows.old.items) at.row (suc at.index)) }
    ensures full { AllByRecursion HasEntry (rows_of rows.new.items) }
{
    let stored = remove_in(rows, at);
    remove_if_empty(rows, at.row);
    stored
}

/// Puts an entry in the place of another, which is returned. It takes no memory.
pub fn replace_at(rows: &mut Vec<Row>, at: Place, stored: Box<StoredEntry>) -> Box<StoredEntry>
    requires full { AllByRecursion HasEntry (rows_of rows.old.items) }
    requires place { IsPlace (rows_of rows.old.items) at }
    ensures entry { (d : Boxed) → result ≡ get_or (get_or (rows_of rows.old.items) at.row []) at.index d }
    ensures new { pairs_of (joined (rows_of rows.new.items))
        ≡ pairs_of (before (rows_of rows.old.items) at.row at.index)
        ++ pair_of stored ∷ pairs_of (after (rows_of rows.old.items) at.row (suc at.index)) }
    ensures full { AllByRecursion HasEntry (rows_of rows.new.items) }
{
    replace(&mut rows[at.row][at.index], stored)
}

/// Stores an entry in place of another with the same key, whose hash stays.
fn keep(stored: &mut StoredEntry, kept: Kept)
    requires { key_bytes (key_of_entry stored.old.kept.entry) ≡ key_bytes (key_of_entry kept.entry) }
    ensures { stored.new.kept ≡ kept }
{
    stored.kept = kept;
}

/// Stores an entry in the place of another with the same key, whose hash stays. It takes no memory.
pub fn set_at(rows: &mut Vec<Row>, at: Place, kept: Kept)
    requires full { AllByRecursion HasEntry (rows_of rows.old.items) }
    requires place { IsPlace (rows_of rows.old.items) at }
    requires key { (d : Boxed) → own_bytes (get_or (get_or (rows_of rows.old.items) at.row []) at.index d)
        ≡ key_bytes (key_of_entry kept.entry) }
    ensures new { pairs_of (joined (rows_of rows.new.items))
        ≡ pairs_of (before (rows_of rows.old.items) at.row at.index)
        ++ (ranked_key (key_of_entry kept.entry), kept) ∷ pairs_of (after (rows_of rows.old.items) at.row (suc at.index)) }
    ensures full { AllByRecursion HasEntry (rows_of rows.new.items) }
{
    keep(&mut rows[at.row][at.index], kept);
}

/// Returns the later of two live-until ledgers.
fn later(one: u32, other: u32) -> u32
    ensures { result ≡ max one other }
{
    one.max(other)
}

/// Raises the live-until ledger of an entry to at least this ledger.
fn raise(stored: &mut StoredEntry, live_until: u32)
    ensures { stored.new.kept ≡ lasting stored.old.kept live_until }
{
    stored.kept.live_until = later(stored.kept.live_until, live_until);
}

/// Raises the live-until ledger of the entry at a place to at least this ledger. It takes no memory.
pub fn raise_at(rows: &mut Vec<Row>, at: Place, live_until: u32)
    requires full { AllByRecursion HasEntry (rows_of rows.old.items) }
    requires place { IsPlace (rows_of rows.old.items) at }
    ensures new { (d : Boxed) → pairs_of (joined (rows_of rows.new.items))
        ≡ pairs_of (before (rows_of rows.old.items) at.row at.index)
        ++ (
          own_key (get_or (get_or (rows_of rows.old.items) at.row []) at.index d),
          lasting (kept_of (get_or (get_or (rows_of rows.old.items) at.row []) at.index d)) live_until,
        )
        ∷ pairs_of (after (rows_of rows.old.items) at.row (suc at.index)) }
    ensures full { AllByRecursion HasEntry (rows_of rows.new.items) }
{
    raise(&mut rows[at.row][at.index], live_until);
}
