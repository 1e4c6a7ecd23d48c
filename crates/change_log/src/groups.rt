//! Writes the changes of the groups of two maps.

ghost use Rattle.std.specs.Prelude.{◌≡◌, ◌++◌, [], ◌∷◌, if◌then◌else◌, IfOk, OnOk};
ghost use Rattle.std.specs.List.{AllByRecursion, flat_map};
ghost use Rattle.ledger_types.specs.Entry.{entry_format};
ghost use Rattle.entry_lookup.specs.Found.{kept_of};
ghost use Rattle.change_log.specs.Groups.{made, gone, altered, changes_of, hash_of as hash_in, ttl_of as ttl_in};
ghost use Rattle.change_log.specs.Groups.{keeps_entry as keeps_entry_in};
ghost use Rattle.change_log.specs.Views.{group_in, all_groups_in, IsChanged};

use crate::change::LedgerEntryChange;
use crate::entry::LoggedEntry;
use crate::log::Changes;
use crate::read::hash_of;
use entry_lookup::Found;
use ledger_types::{LedgerKey, TtlEntry, key_of};
use std::alloc::Global;
use value_types::Hash;
use xdr_core::NoMemory;

/// What two maps have at a key.
#[derive(Clone, Copy)]
pub struct Changed<'a> {
    pub before: Option<Found<'a>>,
    pub after: Option<Found<'a>>,
}

/// A copy of an entry.
fn entry_of(found: Found<'_>) -> Result<LoggedEntry, NoMemory>
    ensures { IfOk result (λ logged. logged ≡ LoggedEntry.Entry found.entry.entry.now) }
{
    Ok(LoggedEntry::Entry(found.entry.clone()?))
}

/// The TTL entry of an entry whose key has this hash.
fn ttl_of(hash: Hash, live_until: u32) -> LoggedEntry
    ensures { result ≡ LoggedEntry.Ttl (record { key_hash = hash; live_until_ledger_seq = live_until }) }
{
    LoggedEntry::Ttl(TtlEntry {
        key_hash: hash,
        live_until_ledger_seq: live_until,
    })
}

/// Adds the changes of an entry that is new.
fn push_made(
    alloc: Global,
    changes: &mut Vec<LedgerEntryChange>,
    new: Found<'_>,
) -> Result<(), NoMemory>
    requires { entry_format.fits new.entry.now }
    ensures { OnOk result (changes.new.items ≡ changes.old.items ++ changes_of (made (kept_of new.entry))) }
{
    let hash = hash_of(alloc, new.entry)?;
    changes.push(LedgerEntryChange::Created(entry_of(new)?))?;
    changes.push(LedgerEntryChange::Created(ttl_of(hash, new.live_until)))?;
    Ok(())
}

/// Adds the states of an entry and of its TTL entry.
fn push_states(
    changes: &mut Vec<LedgerEntryChange>,
    old: Found<'_>,
    hash: Hash,
) -> Result<(), NoMemory>
    requires { hash ≡ hash_in old.entry.now }
    ensures { OnOk result (changes.new.items ≡ changes.old.items
        ++ (LedgerEntryChange.State (LoggedEntry.Entry old.entry.entry.now)
        ∷ LedgerEntryChange.State (ttl_in (kept_of old.entry)) ∷ [])) }
{
    changes.push(LedgerEntryChange::State(entry_of(old)?))?;
    changes.push(LedgerEntryChange::State(ttl_of(hash, old.live_until)))?;
    Ok(())
}

/// Adds the changes of an entry that is gone.
fn push_gone(
    alloc: Global,
    changes: &mut Vec<LedgerEntryChange>,
    old: Found<'_>,
) -> Result<(), NoMemory>
    requires { entry_format.fits old.entry.now }
    ensures { OnOk result (changes.new.items ≡ changes.old.items ++ changes_of (gone (kept_of old.entry))) }
{
    let hash = hash_of(alloc, old.entry)?;
    push_states(changes, old, hash)?;
    changes.push(LedgerEntryChange::Removed(key_of(old.entry)?))?;
    changes.push(LedgerEntryChange::Removed(LedgerKey::Ttl(hash)))?;
    Ok(())
}

/// Adds the update of an entry, if it is another one.
fn push_new_entry(
    changes: &mut Vec<LedgerEntryChange>,
    new: Found<'_>,
    keeps: bool,
) -> Result<(), NoMemory>
    ensures { OnOk result (changes.new.items ≡ changes.old.items
        ++ (if keeps then [] else LedgerEntryChange.Updated (LoggedEntry.Entry new.entry.entry.now) ∷ [])) }
{
    if keeps {
        return Ok(());
    }
    changes.push(LedgerEntryChange::Updated(entry_of(new)?))?;
    Ok(())
}

/// Adds the update of a TTL entry, if it is another one.
fn push_new_life(
    changes: &mut Vec<LedgerEntryChange>,
    hash: Hash,
    live_until: u32,
    keeps: bool,
) -> Result<(), NoMemory>
    ensures { OnOk result (changes.new.items ≡ changes.old.items
        ++ (if keeps then [] else LedgerEntryChange.Updated
        (LoggedEntry.Ttl (record { key_hash = hash; live_until_ledger_seq = live_until })) ∷ [])) }
{
    if keeps {
        return Ok(());
    }
    changes.push(LedgerEntryChange::Updated(ttl_of(hash, live_until)))?;
    Ok(())
}

/// Adds the changes of an entry that differs, or whose live-until ledger differs.
fn push_altered(
    alloc: Global,
    changes: &mut Vec<LedgerEntryChange>,
    old: Found<'_>,
    new: Found<'_>,
    keeps_entry: bool,
) -> Result<(), NoMemory>
    requires fits { entry_format.fits old.entry.now }
    requires same_key { hash_in old.entry.now ≡ hash_in new.entry.now }
    requires keeps { keeps_entry ≡ keeps_entry_in (kept_of old) (kept_of new) }
    ensures { OnOk result (changes.new.items ≡ changes.old.items
        ++ changes_of (altered (kept_of old.entry) (kept_of new.entry))) }
{
    let hash = hash_of(alloc, old.entry)?;
    push_states(changes, old, hash)?;
    push_new_entry(changes, new, keeps_entry)?;
    push_new_life(
        changes,
        hash,
        new.live_until,
        old.live_until == new.live_until,
    )
}

/// Adds the changes at a key, if the maps differ there.
pub fn push_changes(
    alloc: Global,
    changes: &mut Vec<LedgerEntryChange>,
    changed: Changed<'_>,
) -> Result<(), NoMemory>
    requires { IsChanged changed }
    ensures { OnOk result (changes.new.items ≡ changes.old.items ++ flat_map changes_of (group_in changed.entry)) }
{
    match changed.before {
        None => match changed.after {
            None => Ok(()),
            Some(new) => push_made(alloc, changes, new),
        },
        Some(old) => match changed.after {
            None => push_gone(alloc, changes, old),
            Some(new) => {
                let keeps_entry = *old.entry == *new.entry;
                if keeps_entry && old.live_until == new.live_until {
                    Ok(())
                } else {
                    push_altered(alloc, changes, old, new, keeps_entry)
                }
            }
        },
    }
}

/// Returns the changes at some keys. If the keys rise by their XDR bytes, and the maps agree at all other keys, these are the
/// change groups of the two maps.
pub fn log_changes(alloc: Global, changed: &[Changed<'_>]) -> Result<Changes, NoMemory>
    requires { AllByRecursion IsChanged changed.now }
    ensures { IfOk result (λ list. list ≡ flat_map changes_of (all_groups_in changed.now)) }
{
    let mut changes = Vec::new(alloc);
    for at_key in changed {
        push_changes(alloc, &mut changes, *at_key)?;
    }
    Ok(Changes::from_vec(changes))
}
