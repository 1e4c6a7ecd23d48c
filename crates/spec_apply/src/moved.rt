//! The keys at which a ledger differs from the opening one.

ghost use Rattle.std.specs.Prelude.{◌≡◌, IfOk, IfNone, IfSome, OnOk, None, true, false};
ghost use Rattle.std.specs.BTreeMap.{UpdatesBy, get as get_in};
ghost use Rattle.std.specs.Option.{option_copied, option_map, unwrap_or};
ghost use Rattle.entry_map.specs.Entries.{kept_of};
ghost use Rattle.ledger_types.specs.Key.{key_format};
ghost use Rattle.ledger_types.specs.KeyOrder.{key_cmp};
ghost use Rattle.ledger_spec.specs.LedgerMap.{LedgerMap, IsKeptAt, key_bytes};
ghost use Rattle.stage_runs.specs.Runs.{change as change_in, put_in};
ghost use Rattle.ledger_apply.specs.Done.{CanChange};
ghost use Rattle.tx_xdr.specs.Soroban.{footprint_format};
ghost use Rattle.apply_spec.specs.ListRuns.{agrees};
ghost use Rattle.spec_apply.specs.Moved.{AreMoved, are_still, with_after};

use crate::same::are_same;
use entry_map::{EntryMap, StoredEntry};
use ledger_spec::Kept;
use ledger_types::LedgerKey;
use stage_runs::{Change, Extension};
use std::alloc::Global;
use std::collections::BTreeMap;
use tx_xdr::Footprint;
use xdr_core::NoMemory;

/// The keys at which a ledger differs from the opening one, each with what the opening ledger has there.
pub(crate) type Moved = BTreeMap<LedgerKey, Option<Box<StoredEntry>>>;

/// Lends the entry that a map had stored.
fn lent(stored: &Option<Box<StoredEntry>>) -> Option<&Kept>
    ensures { option_copied result ≡ option_map kept_of stored.now }
{
    match stored {
        Some(stored) => Some(&stored.kept),
        None => None,
    }
}

// ---- whether the ledgers agree

/// Whether the ledger has the same as the opening one at each of these keys.
fn are_still(moved: &Moved, keys: &[LedgerKey]) -> bool
    ensures { result ≡ are_still moved.now keys.now }
{
    for key in keys {
        if moved.contains_key(key) {
            return false;
        }
    }
    true
}

/// Whether the ledger has the same as the opening one at each key of a footprint. It takes O(k log n) comparisons of keys, where
/// the footprint has k keys and the ledgers differ at n keys.
pub(crate) fn agrees(moved: &Moved, footprint: &Footprint) -> bool
    requires { footprint_format.fits footprint.now }
    ensures { (opening entries : LedgerMap) → AreMoved opening entries moved.now
        → result ≡ agrees footprint.now opening entries }
{
    are_still(moved, footprint.read_only.as_slice())
        && are_still(moved, footprint.read_write.as_slice())
}

// ---- changes

/// Takes out what the opening ledger has at a key. If the ledgers agree there, this is `now`, which the other ledger has.
fn take_opening(
    moved: &mut Moved,
    key: &LedgerKey,
    now: Option<Box<StoredEntry>>,
) -> Option<Box<StoredEntry>>
    ensures taken { result ≡ unwrap_or (get_in key_cmp moved.old key.now) now }
    ensures left { UpdatesBy key_cmp (key_cmp key.now) moved.old moved.new None }
{
    match moved.remove(key) {
        Some(opening) => opening,
        None => now,
    }
}

/// Puts in the entry that a change leaves, if there is one.
fn put_after(
    alloc: Global,
    entries: &mut EntryMap,
    key: &LedgerKey,
    after: Option<Kept>,
) -> Result<(), NoMemory>
    requires fits { key_format.fits key.now }
    requires after { IfSome after (IsKeptAt (key_bytes key.now)) }
    ensures { OnOk result (entries.new ≡ with_after entries.old key.now after) }
{
    match after {
        Some(kept) => entries.set(alloc, key, kept),
        None => Ok(()),
    }
}

/// Makes a change that alters the ledger. It takes O(log n) comparisons of keys.
fn alter(
    alloc: Global,
    entries: &mut EntryMap,
    moved: &mut Moved,
    change: Change,
) -> Result<(), NoMemory>
    requires { CanChange change }
    ensures entries { OnOk result (entries.new ≡ change_in entries.old change) }
    ensures moved { OnOk result ((opening : LedgerMap) → AreMoved opening entries.old moved.old
        → AreMoved opening entries.new moved.new) }
{
    let Change { key, after } = change;
    let now = entries.take(&key);
    let opening = take_opening(moved, &key, now);
    let is_back = are_same(lent(&opening), after.as_ref());
    put_after(alloc, entries, &key, after)?;
    if is_back {
        return Ok(());
    }
    let _old = moved.insert(key, opening)?;
    Ok(())
}

/// Makes a change. A key that gets back what the opening ledger has is no longer among those at which the ledgers differ.
pub(crate) fn change(
    alloc: Global,
    entries: &mut EntryMap,
    moved: &mut Moved,
    change: Change,
) -> Result<(), NoMemory>
    requires { CanChange change }
    ensures entries { OnOk result (entries.new ≡ change_in entries.old change) }
    ensures moved { OnOk result ((opening : LedgerMap) → AreMoved opening entries.old moved.old
        → AreMoved opening entries.new moved.new) }
{
    if are_same(entries.find(&change.key), change.after.as_ref()) {
        return Ok(());
    }
    alter(alloc, entries, moved, change)
}

/// Returns the change that an extension makes, or `None` if the entry lives as long already, or there is none.
fn change_of(entries: &EntryMap, extension: Extension) -> Result<Option<Change>, NoMemory>
    requires { key_format.fits extension.key }
    ensures change { IfOk result (λ made. IfSome made (λ c. put_in entries.now extension ≡ change_in entries.now c)) }
    ensures can { IfOk result (λ made. IfSome made CanChange) }
    ensures none { IfOk result (λ made. IfNone made (put_in entries.now extension ≡ entries.now)) }
{
    let Extension { key, live_until } = extension;
    match entries.find(&key) {
        None => Ok(None),
        Some(kept) => {
            if live_until <= kept.live_until {
                return Ok(None);
            }
            let entry = kept.entry.clone()?;
            let after = Some(Kept { entry, live_until });
            Ok(Some(Change { key, after }))
        }
    }
}

/// Puts in an extension of a key at which the ledgers agree. An entry whose life gets longer is cloned.
fn extend_still(
    alloc: Global,
    entries: &mut EntryMap,
    moved: &mut Moved,
    extension: Extension,
) -> Result<(), NoMemory>
    requires { key_format.fits extension.key }
    ensures entries { OnOk result (entries.new ≡ put_in entries.old extension) }
    ensures moved { OnOk result ((opening : LedgerMap) → AreMoved opening entries.old moved.old
        → AreMoved opening entries.new moved.new) }
{
    match change_of(entries, extension)? {
        None => Ok(()),
        Some(made) => change(alloc, entries, moved, made),
    }
}

/// Borrows what the opening ledger has at a key, if the ledgers differ there.
fn opening_of<'m>(moved: &'m Moved, key: &LedgerKey) -> Option<&'m Option<Box<StoredEntry>>>
    ensures { option_copied result ≡ get_in key_cmp moved.now key.now }
{
    moved.get(key)
}

/// Takes a key out of those at which the ledgers differ, if it is back as the opening ledger has it.
fn forget(moved: &mut Moved, key: &LedgerKey, is_back: bool)
    ensures back { is_back ≡ true → UpdatesBy key_cmp (key_cmp key.now) moved.old moved.new None }
    ensures stays { is_back ≡ false → moved.new ≡ moved.old }
{
    if is_back {
        let _opening = take_opening(moved, key, None);
    }
}

/// Puts in an extension: the greater live-until ledger stays. An entry is cloned only if the ledgers agreed at its key.
pub(crate) fn extend(
    alloc: Global,
    entries: &mut EntryMap,
    moved: &mut Moved,
    extension: Extension,
) -> Result<(), NoMemory>
    requires { key_format.fits extension.key }
    ensures entries { OnOk result (entries.new ≡ put_in entries.old extension) }
    ensures moved { OnOk result ((opening : LedgerMap) → AreMoved opening entries.old moved.old
        → AreMoved opening entries.new moved.new) }
{
    let Some(opening) = opening_of(moved, &extension.key) else {
        return extend_still(alloc, entries, moved, extension);
    };
    entries.raise(&extension.key, extension.live_until);
    let is_back = are_same(lent(opening), entries.find(&extension.key));
    forget(moved, &extension.key, is_back);
    Ok(())
}
