//! What two maps have at some keys, borrowed from where it is, and the change log of it.

ghost use Rattle.std.specs.Prelude.{◌≡◌, ◌<◌, ◌^◌, All, IfOk, IfSome, OnOk, length, map as map_in};
ghost use Rattle.std.specs.BTreeMap.{IsOrdered};
ghost use Rattle.std.specs.Cmp.Lexicographic.{slice_cmp};
ghost use Rattle.std.specs.FinMap.{get};
ghost use Rattle.std.specs.List.{AllByRecursion, flat_map};
ghost use Rattle.std.specs.Option.{option_map};
ghost use Rattle.std.specs.Ordering.{nat_cmp};
ghost use Rattle.ledger_types.specs.Key.{key_format};
ghost use Rattle.ledger_spec.specs.LedgerMap.{IsKeptAt, IsLedgerMap, find as find_in, key_bytes};
ghost use Rattle.entry_lookup.specs.Found.{kept_of};
ghost use Rattle.stage_runs.specs.Maps.{Bytes, LedgerMap};
ghost use Rattle.stage_runs.specs.Runs.{change as change_in};
ghost use Rattle.change_log.specs.Groups.{changes_of};
ghost use Rattle.change_log.specs.Views.{all_groups_in, IsChanged};
ghost use Rattle.tx_steps.specs.Effects.{CanChange};
ghost use Rattle.set_steps.specs.Lives.{before_lives, living as living_in, AreKeyed};
ghost use Rattle.set_steps.specs.Sides.{sides_in, AddsChange, AddsChanges, AddsLife, AddsLives, AreSides, Having, IsListOf};
ghost use Rattle.set_steps.specs.Sides.{IsMade, IsSide};

use crate::lives::Life;
use change_log::{Changed, Changes, log_changes};
use entry_lookup::{Found, Ground};
use ledger_parts::Entries;
use ledger_types::LedgerKey;
use stage_runs::Change;
use std::alloc::{AllocError, Global};
use std::collections::BTreeMap;
use value_xdr::encode;
use xdr_core::NoMemory;

/// As many changes as a list of a log can hold. A run that makes more is out of memory.
const MOST_CHANGES: usize = 4_294_967_295;

/// What two maps have at keys, by the XDR bytes of the keys.
pub(crate) type Sides<'a> = BTreeMap<Vec<u8>, Changed<'a>>;

/// Returns what two maps have at a key. If nothing is told of it, both have what is there now.
fn side_at<'a, G: Ground>(
    ground: &'a G,
    sides: &Sides<'a>,
    bytes: &[u8],
    key: &LedgerKey,
) -> Changed<'a>
    requires fits { key_format.fits key.now }
    requires bytes { bytes.now ≡ key_bytes key.now }
    ensures { (before after : Having) → AreSides before after (get (G.map ground.now)) (sides_in sides.now)
        → IsSide (before (key_bytes key.now)) (after (key_bytes key.now)) result }
{
    match sides.get(bytes) {
        Some(side) => *side,
        None => {
            let found = ground.find(key);
            Changed {
                before: found,
                after: found,
            }
        }
    }
}

/// Returns what is found with another life.
fn living(found: Option<Found<'_>>, live_until: u32) -> Option<Found<'_>>
    ensures found { option_map kept_of result ≡ option_map (living_in live_until) (option_map kept_of found.entry) }
    ensures number { live_until < 2 ^ 32 }
{
    match found {
        None => None,
        Some(found) => Some(Found {
            entry: found.entry,
            live_until,
        }),
    }
}

/// Adds what was at a key before a life was raised.
fn add_life<'a, G: Ground>(
    alloc: Global,
    ground: &'a G,
    sides: &mut Sides<'a>,
    life: &Life,
) -> Result<(), NoMemory>
    requires { key_format.fits life.now.key }
    ensures { OnOk result (AddsLife (get (G.map ground.now)) life.now (sides_in sides.old) (sides_in sides.new)) }
{
    let bytes = encode(alloc, &life.key)?;
    let side = side_at(ground, sides, &bytes, &life.key);
    let before = living(side.before, life.live_until);
    let _old = sides.insert(
        bytes,
        Changed {
            before,
            after: side.after,
        },
    )?;
    Ok(())
}

/// Adds what was at keys before lives were raised, the last one first.
fn add_lives<'a, G: Ground>(
    alloc: Global,
    ground: &'a G,
    sides: &mut Sides<'a>,
    lives: &[Life],
) -> Result<(), NoMemory>
    requires { AreKeyed lives.now }
    ensures { OnOk result (AddsLives (get (G.map ground.now)) lives.now (sides_in sides.old) (sides_in sides.new)) }
{
    for done in 0..lives.len() {
        let index = lives.len() - 1 - done;
        add_life(alloc, ground, sides, &lives[index])?;
    }
    Ok(())
}

/// Returns what transactions see at the key of a change after it is made.
fn after_change<'a, E: Entries>(entries: &'a E, change: &'a Change) -> Option<Found<'a>>
    requires { CanChange change.now }
    ensures found { (own : LedgerMap) → option_map kept_of result
        ≡ get (E.shown entries.now (change_in own change.now)) (key_bytes change.now.key) }
    ensures kept { IfSome (option_map kept_of result) (IsKeptAt (key_bytes change.now.key)) }
{
    match &change.after {
        Some(kept) => Some(Found {
            entry: &kept.entry,
            live_until: kept.live_until,
        }),
        None => entries.find_lent(&change.key),
    }
}

/// Adds a change, which is not made yet.
fn add_change<'a, E: Entries>(
    alloc: Global,
    entries: &'a E,
    sides: &mut Sides<'a>,
    change: &'a Change,
) -> Result<(), NoMemory>
    requires { CanChange change.now }
    ensures { OnOk result (AddsChange (E.shown entries.now) (get (E.map entries.now)) change.now
        (sides_in sides.old) (sides_in sides.new)) }
{
    let bytes = encode(alloc, &change.key)?;
    let side = side_at(entries, sides, &bytes, &change.key);
    let after = after_change(entries, change);
    let _old = sides.insert(
        bytes,
        Changed {
            before: side.before,
            after,
        },
    )?;
    Ok(())
}

/// Adds changes in their order.
fn add_changes<'a, E: Entries>(
    alloc: Global,
    entries: &'a E,
    sides: &mut Sides<'a>,
    changes: &'a [Change],
) -> Result<(), NoMemory>
    requires { All CanChange changes.now }
    ensures { OnOk result (AddsChanges (E.shown entries.now) (get (E.map entries.now)) changes.now
        (sides_in sides.old) (sides_in sides.new)) }
{
    for change in changes {
        add_change(alloc, entries, sides, change)?;
    }
    Ok(())
}

/// Lists what a map has, in the order of its keys.
fn listed<T: Drop>(alloc: Global, map: BTreeMap<Vec<u8>, T>) -> Result<Vec<T>, AllocError>
    ensures same { IfOk result (λ list. list.items ≡ map_in (λ p. p.1) map.entries) }
    ensures ordered { IsOrdered (λ x y. slice_cmp nat_cmp x.items y.items) map }
{
    map.into_iter().map(|(_key, value)| value).collect(alloc)
}

/// Returns the change log of sides.
fn log_listed(alloc: Global, list: &[Changed<'_>]) -> Result<Changes, NoMemory>
    requires { AllByRecursion IsChanged list.now }
    ensures list { IfOk result (λ changes. changes ≡ flat_map changes_of (all_groups_in list.now)) }
    ensures few { IfOk result (λ changes. length changes < 2 ^ 32) }
{
    let changes = log_changes(alloc, list)?;
    if changes.as_slice().len() > MOST_CHANGES {
        return Err(NoMemory);
    }
    Ok(changes)
}

/// Returns the change log of lives that were raised: what was there before, and what is there now.
pub(crate) fn lives_log<G: Ground>(
    alloc: Global,
    ground: &G,
    lives: &[Life],
) -> Result<Changes, NoMemory>
    requires keyed { AreKeyed lives.now }
    requires map { IsLedgerMap (G.map ground.now) }
    ensures { IfOk result (IsListOf (λ q. before_lives lives.now q (get (G.map ground.now) q)) (get (G.map ground.now))) }
{
    let mut sides = BTreeMap::new(alloc);
    add_lives(alloc, ground, &mut sides, lives)?;
    let list = listed(alloc, sides)?;
    log_listed(alloc, &list)
}

/// Returns the change log of a transaction, before its changes are made: what was there before lives were raised, and what will
/// be there after the changes. No entry is copied but into the log.
pub fn changes_log<E: Entries>(
    alloc: Global,
    entries: &E,
    lives: &[Life],
    changes: &[Change],
) -> Result<Changes, NoMemory>
    requires keyed { AreKeyed lives.now }
    requires changes { All CanChange changes.now }
    ensures { IfOk result (IsMade (E.shown entries.now) (E.own entries.now) (E.map entries.now) lives.now changes.now) }
{
    // What is known of `entries` as a map of a ledger comes from a call.
    let _count = entries.len();
    let mut sides = BTreeMap::new(alloc);
    add_lives(alloc, entries, &mut sides, lives)?;
    add_changes(alloc, entries, &mut sides, changes)?;
    let list = listed(alloc, sides)?;
    log_listed(alloc, &list)
}
