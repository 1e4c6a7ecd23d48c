//! The changes and extensions that a host function leaves at declared keys.

ghost use Rattle.std.specs.Prelude.{◌≡◌, ◌++◌, [], All, IfOk, IfSome, OnOk};
ghost use Rattle.std.specs.List.{AllByRecursion, cons_option};
ghost use Rattle.std.specs.Option.{option_map};
ghost use Rattle.ledger_types.specs.Key.{key_format};
ghost use Rattle.ledger_spec.specs.LedgerMap.{LedgerMap, find as find_in, key_bytes, IsKeptAt};
ghost use Rattle.entry_lookup.specs.Found.{kept_of};
ghost use Rattle.contract_storage.specs.Differences.{AreDifferences};
ghost use Rattle.stage_runs.specs.Whole.{changes_of, extension_of as extension_in};
ghost use Rattle.tx_steps.specs.Changed.{found_in, longer_in, with_change, CanStand, CanLie, Leads};
ghost use Rattle.tx_steps.specs.Effects.{CanChange};

use crate::reading::look;
use entry_lookup::{Found, Ground};
use ledger_spec::Kept;
use ledger_types::LedgerKey;
use stage_runs::{Change, Extension};
use std::alloc::Global;
use std::collections::BTreeMap;
use xdr_core::NoMemory;

/// Clones an entry with its live-until ledger.
fn clone_kept(kept: &Option<Kept>) -> Result<Option<Kept>, NoMemory>
    ensures { IfOk result (λ clone. clone ≡ kept.now) }
{
    match kept {
        None => Ok(None),
        Some(kept) => Ok(Some(Kept {
            entry: kept.entry.clone()?,
            live_until: kept.live_until,
        })),
    }
}

/// Puts a change into a map.
fn put(
    changed: &mut BTreeMap<LedgerKey, Option<Kept>>,
    change: &contract_storage::Change,
) -> Result<(), NoMemory>
    ensures { OnOk result (changed.new.entries ≡ with_change changed.old.entries change.entry.now) }
{
    let key = change.key.clone()?;
    let after = clone_kept(&change.now)?;
    let _old = changed.insert(key, after)?;
    Ok(())
}

/// Puts changes into a map by their keys.
pub(crate) fn by_key(
    alloc: Global,
    changes: &[contract_storage::Change],
) -> Result<BTreeMap<LedgerKey, Option<Kept>>, NoMemory>
    requires { All CanStand changes.now }
    ensures leads { IfOk result (λ changed. (old new : LedgerMap) → AreDifferences old new changes.now
        → Leads old new changed.entries) }
    ensures lie { IfOk result (λ changed. AllByRecursion CanLie changed.entries) }
{
    let mut changed = BTreeMap::new(alloc);
    for change in changes {
        put(&mut changed, change)?;
    }
    Ok(changed)
}

/// Finds the entry at a key after the changes.
fn find_changed<'b, G: Ground>(
    ground: &'b G,
    changed: &'b BTreeMap<LedgerKey, Option<Kept>>,
    key: &LedgerKey,
) -> Option<Found<'b>>
    requires fits { key_format.fits key.now }
    requires lie { AllByRecursion CanLie changed.now.entries }
    ensures found { option_map kept_of result ≡ found_in (G.map ground.now) changed.now.entries key.now }
    ensures kept { IfSome result (λ found. IsKeptAt (key_bytes key.now) (kept_of found)) }
{
    match changed.get(key) {
        None => look(ground, key),
        Some(now) => match now {
            None => None,
            Some(kept) => Some(Found {
                entry: &kept.entry,
                live_until: kept.live_until,
            }),
        },
    }
}

/// Clones an entry that is found.
fn clone_found(found: Option<Found<'_>>) -> Result<Option<Kept>, NoMemory>
    ensures { IfOk result (λ kept. kept ≡ option_map kept_of found.entry) }
{
    match found {
        None => Ok(None),
        Some(found) => Ok(Some(Kept {
            entry: found.entry.clone()?,
            live_until: found.live_until,
        })),
    }
}

/// Returns a change for each key: what is there after the changes.
pub(crate) fn changes_at<G: Ground>(
    alloc: Global,
    ground: &G,
    changed: &BTreeMap<LedgerKey, Option<Kept>>,
    keys: &[LedgerKey],
) -> Result<Vec<Change>, NoMemory>
    requires fits { All (λ key. key_format.fits key) keys.now }
    requires lie { AllByRecursion CanLie changed.now.entries }
    ensures changes { IfOk result (λ changes. (new : LedgerMap) → Leads (G.map ground.now) new changed.now.entries
        → changes.items ≡ changes_of new keys.now) }
    ensures can { IfOk result (λ changes. All CanChange changes.items) }
{
    let mut changes = Vec::new(alloc);
    for key in keys {
        let after = clone_found(find_changed(ground, changed, key))?;
        let key = key.clone()?;
        changes.push(Change { key, after })?;
    }
    Ok(changes)
}

/// Returns the extension of a key whose entry lives longer after the changes. A key without a change has none.
fn extension<G: Ground>(
    ground: &G,
    changed: &BTreeMap<LedgerKey, Option<Kept>>,
    key: &LedgerKey,
) -> Result<Option<Extension>, NoMemory>
    requires fits { key_format.fits key.now }
    requires lie { AllByRecursion CanLie changed.now.entries }
    ensures { IfOk result (λ extension. extension ≡ extension_in key.now (find_in (G.map ground.now) key.now)
        (found_in (G.map ground.now) changed.now.entries key.now)) }
{
    let Some(_changed) = changed.get(key) else {
        return Ok(None);
    };
    let Some(old) = ground.find(key) else {
        return Ok(None);
    };
    let Some(new) = find_changed(ground, changed, key) else {
        return Ok(None);
    };
    if new.live_until <= old.live_until {
        return Ok(None);
    }
    let key = key.clone()?;
    Ok(Some(Extension {
        key,
        live_until: new.live_until,
    }))
}

/// Adds an extension, if there is one.
fn push_extension(
    extensions: &mut Vec<Extension>,
    extension: Option<Extension>,
) -> Result<(), NoMemory>
    ensures { OnOk result (extensions.new.items ≡ extensions.old.items ++ cons_option extension []) }
{
    if let Some(extension) = extension {
        extensions.push(extension)?;
    }
    Ok(())
}

/// Returns an extension for each key whose entry lives longer after the changes.
pub(crate) fn extensions_at<G: Ground>(
    alloc: Global,
    ground: &G,
    changed: &BTreeMap<LedgerKey, Option<Kept>>,
    keys: &[LedgerKey],
) -> Result<Vec<Extension>, NoMemory>
    requires fits { All (λ key. key_format.fits key) keys.now }
    requires lie { AllByRecursion CanLie changed.now.entries }
    ensures { IfOk result (λ extensions. extensions.items ≡ longer_in (G.map ground.now) changed.now.entries keys.now) }
{
    let mut extensions = Vec::new(alloc);
    for key in keys {
        let extension = extension(ground, changed, key)?;
        push_extension(&mut extensions, extension)?;
    }
    Ok(extensions)
}
