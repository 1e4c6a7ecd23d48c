//! Reads the groups that a list of changes consists of.

ghost use Rattle.std.specs.Prelude.{◌≡◌, ◌++◌, All, Some, None, IfOk, IfSome, OnOk};
ghost use Rattle.std.specs.Str.{bytes_eq};
ghost use Rattle.std.specs.Option.{option_map};
ghost use Rattle.sha2.specs.Sha256.{sha256};
ghost use Rattle.ledger_types.specs.Entry.{entry_format, key_of as key_of_entry};
ghost use Rattle.ledger_types.specs.Key.{key_format};
ghost use Rattle.ledger_spec.specs.LedgerFile.{has_code_hash as has_code_hash_in, is_above as is_above_key};
ghost use Rattle.ledger_spec.specs.LedgerMap.{key_bytes};
ghost use Rattle.entry_lookup.specs.Found.{kept_of};
ghost use Rattle.change_log.specs.Read as reading;
ghost use Rattle.change_log.specs.Views.{group_of, groups_of, partial_of, done_of, progress_of};
ghost use Rattle.change_log.specs.Fits.{FitsChange, IsPartial, IsGroup};

use crate::change::LedgerEntryChange;
use crate::entry::LoggedEntry;
use crate::group::Group;
use entry_lookup::Found;
use ledger_types::{LedgerEntry, LedgerEntryData, LedgerKey, TtlEntry, cmp_keys, key_hash, key_of};
use sha2::{Digest, Sha256};
use std::alloc::Global;
use value_types::Hash;
use xdr_core::NoMemory;

/// What has been read of a group.
#[derive(Clone, Copy)]
enum Partial<'a> {
    Nothing,
    /// An entry that is created.
    Created(&'a LedgerEntry),
    /// The state of an entry.
    Stated(&'a LedgerEntry),
    /// The states of an entry and of its TTL entry.
    Held(Found<'a>),
    /// These states, and the removed key.
    Removed(Found<'a>),
    /// These states, and the update of the entry.
    Updated {
        old: Found<'a>,
        entry: &'a LedgerEntry,
    },
}

/// A group that is complete, if one is, and what has been read after it.
#[derive(Clone, Copy)]
struct Progress<'a> {
    done: Option<Group<'a>>,
    partial: Partial<'a>,
}

/// Returns the hash of an entry's key.
pub fn hash_of(alloc: Global, entry: &LedgerEntry) -> Result<Hash, NoMemory>
    requires { entry_format.fits entry.now }
    ensures { IfOk result (λ hash. hash.0 ≡ sha256 (key_bytes (key_of_entry entry.now))) }
{
    let key = key_of(entry)?;
    key_hash(alloc, &key)
}

/// Whether a hash is that of an entry's key.
fn is_hash(alloc: Global, entry: &LedgerEntry, hash: &Hash) -> Result<bool, NoMemory>
    requires { entry_format.fits entry.now }
    ensures { IfOk result (λ is. is ≡ reading.is_hash entry.now hash.now) }
{
    let own = hash_of(alloc, entry)?;
    Ok(hash.0.as_slice() == own.0.as_slice())
}

/// Whether two keys have the same XDR bytes.
fn same_key(one: &LedgerKey, other: &LedgerKey) -> bool
    requires fits { key_format.fits one.now }
    requires other_fits { key_format.fits other.now }
    ensures { result ≡ bytes_eq (key_bytes one.now) (key_bytes other.now) }
{
    cmp_keys(one, other).is_eq()
}

/// Whether a key is that of an entry.
fn is_key(entry: &LedgerEntry, key: &LedgerKey) -> Result<bool, NoMemory>
    requires fits { entry_format.fits entry.now }
    requires key_fits { key_format.fits key.now }
    ensures { IfOk result (λ is. is ≡ reading.is_key entry.now key.now) }
{
    let own = key_of(entry)?;
    Ok(same_key(key, &own))
}

/// Whether a key is that of the TTL entry of an entry.
fn is_ttl_key(alloc: Global, entry: &LedgerEntry, key: &LedgerKey) -> Result<bool, NoMemory>
    requires { entry_format.fits entry.now }
    ensures { IfOk result (λ is. is ≡ reading.is_ttl_key entry.now key.now) }
{
    match key {
        LedgerKey::Ttl(hash) => is_hash(alloc, entry, hash),
        _ => Ok(false),
    }
}

/// Whether the hash of a code entry is the hash of its code.
fn has_code_hash(body: &LedgerEntryData) -> bool
    ensures { result ≡ has_code_hash_in body.now }
{
    match body {
        LedgerEntryData::ContractData(_) => true,
        LedgerEntryData::ContractCode(entry) => {
            let hash = Sha256::digest(entry.code.as_slice());
            entry.hash.0.as_slice() == hash.as_slice()
        }
    }
}

/// Whether an entry is another one at the same key, with the right code hash.
fn is_update(old: &LedgerEntry, new: &LedgerEntry) -> Result<bool, NoMemory>
    requires fits { entry_format.fits old.now }
    requires new_fits { entry_format.fits new.now }
    ensures { IfOk result (λ is. is ≡ reading.is_update old.now new.now) }
{
    let key = key_of(new)?;
    Ok(is_key(old, &key)? && *old != *new && has_code_hash(&new.data))
}

/// Whether a TTL entry is that of an entry and lives until another ledger than this one.
fn is_ttl_update(
    alloc: Global,
    entry: &LedgerEntry,
    live_until: u32,
    ttl: &TtlEntry,
) -> Result<bool, NoMemory>
    requires { entry_format.fits entry.now }
    ensures { IfOk result (λ is. is ≡ reading.is_ttl_update entry.now live_until ttl.now) }
{
    Ok(is_hash(alloc, entry, &ttl.key_hash)? && live_until != ttl.live_until_ledger_seq)
}

/// An entry with the life of its TTL entry.
fn kept_by<'a>(entry: &'a LedgerEntry, ttl: &TtlEntry) -> Found<'a>
    ensures { kept_of result ≡ reading.kept_by entry.now ttl.now }
{
    Found {
        entry,
        live_until: ttl.live_until_ledger_seq,
    }
}

/// The step, if the test holds.
fn progress_if<'a>(
    test: bool,
    done: Option<Group<'a>>,
    partial: Partial<'a>,
) -> Option<Progress<'a>>
    ensures { option_map progress_of result ≡ reading.progress_if test (done_of done.entry) (partial_of partial.entry) }
{
    if test {
        Some(Progress { done, partial })
    } else {
        None
    }
}

/// Reads the first change of a group, which follows a group that may be complete.
fn begin<'a>(done: Option<Group<'a>>, change: &'a LedgerEntryChange) -> Option<Progress<'a>>
    ensures { option_map progress_of result ≡ reading.begin (done_of done.entry) change.now }
{
    match change {
        LedgerEntryChange::Created(LoggedEntry::Entry(entry)) => {
            progress_if(has_code_hash(&entry.data), done, Partial::Created(entry))
        }
        LedgerEntryChange::State(LoggedEntry::Entry(entry)) => {
            progress_if(has_code_hash(&entry.data), done, Partial::Stated(entry))
        }
        _ => None,
    }
}

/// Reads the TTL entry of a created entry.
fn end_made<'a>(
    alloc: Global,
    entry: &'a LedgerEntry,
    change: &'a LedgerEntryChange,
) -> Result<Option<Progress<'a>>, NoMemory>
    requires { entry_format.fits entry.now }
    ensures { IfOk result (λ s. option_map progress_of s ≡ reading.end_made entry.now change.now) }
{
    match change {
        LedgerEntryChange::Created(LoggedEntry::Ttl(ttl)) => Ok(progress_if(
            is_hash(alloc, entry, &ttl.key_hash)?,
            Some(Group::Made(kept_by(entry, ttl))),
            Partial::Nothing,
        )),
        _ => Ok(None),
    }
}

/// Reads the state of the TTL entry of an entry.
fn hold<'a>(
    alloc: Global,
    entry: &'a LedgerEntry,
    change: &'a LedgerEntryChange,
) -> Result<Option<Progress<'a>>, NoMemory>
    requires { entry_format.fits entry.now }
    ensures { IfOk result (λ s. option_map progress_of s ≡ reading.hold entry.now change.now) }
{
    match change {
        LedgerEntryChange::State(LoggedEntry::Ttl(ttl)) => Ok(progress_if(
            is_hash(alloc, entry, &ttl.key_hash)?,
            None,
            Partial::Held(kept_by(entry, ttl)),
        )),
        _ => Ok(None),
    }
}

/// Reads what follows the states of an entry and of its TTL entry.
fn alter<'a>(
    alloc: Global,
    old: Found<'a>,
    change: &'a LedgerEntryChange,
) -> Result<Option<Progress<'a>>, NoMemory>
    requires fits { entry_format.fits old.entry.now }
    requires change { FitsChange change.now }
    ensures { IfOk result (λ s. option_map progress_of s ≡ reading.alter (kept_of old.entry) change.now) }
{
    match change {
        LedgerEntryChange::Removed(key) => Ok(progress_if(
            is_key(old.entry, key)?,
            None,
            Partial::Removed(old),
        )),
        LedgerEntryChange::Updated(LoggedEntry::Entry(entry)) => Ok(progress_if(
            is_update(old.entry, entry)?,
            None,
            Partial::Updated { old, entry },
        )),
        LedgerEntryChange::Updated(LoggedEntry::Ttl(ttl)) => Ok(progress_if(
            is_ttl_update(alloc, old.entry, old.live_until, ttl)?,
            Some(Group::Altered {
                old,
                new: kept_by(old.entry, ttl),
            }),
            Partial::Nothing,
        )),
        _ => Ok(None),
    }
}

/// Reads the removed key of the TTL entry.
fn end_gone<'a>(
    alloc: Global,
    old: Found<'a>,
    change: &'a LedgerEntryChange,
) -> Result<Option<Progress<'a>>, NoMemory>
    requires { entry_format.fits old.entry.now }
    ensures { IfOk result (λ s. option_map progress_of s ≡ reading.end_gone (kept_of old.entry) change.now) }
{
    match change {
        LedgerEntryChange::Removed(key) => Ok(progress_if(
            is_ttl_key(alloc, old.entry, key)?,
            Some(Group::Gone(old)),
            Partial::Nothing,
        )),
        _ => Ok(None),
    }
}

/// The group of an entry that was updated alone.
fn altered_entry<'a>(old: Found<'a>, entry: &'a LedgerEntry) -> Group<'a>
    ensures { group_of result ≡ reading.altered_entry (kept_of old.entry) entry.now }
{
    Group::Altered {
        old,
        new: Found {
            entry,
            live_until: old.live_until,
        },
    }
}

/// Reads what follows the update of an entry: that of its TTL entry, or the next group.
fn end_altered<'a>(
    alloc: Global,
    old: Found<'a>,
    entry: &'a LedgerEntry,
    change: &'a LedgerEntryChange,
) -> Result<Option<Progress<'a>>, NoMemory>
    requires { entry_format.fits old.entry.now }
    ensures { IfOk result (λ s. option_map progress_of s ≡ reading.end_altered (kept_of old.entry) entry.now change.now) }
{
    match change {
        LedgerEntryChange::Updated(LoggedEntry::Ttl(ttl)) => Ok(progress_if(
            is_ttl_update(alloc, old.entry, old.live_until, ttl)?,
            Some(Group::Altered {
                old,
                new: kept_by(entry, ttl),
            }),
            Partial::Nothing,
        )),
        _ => Ok(begin(Some(altered_entry(old, entry)), change)),
    }
}

/// Reads one change.
fn step<'a>(
    alloc: Global,
    partial: Partial<'a>,
    change: &'a LedgerEntryChange,
) -> Result<Option<Progress<'a>>, NoMemory>
    requires partial { IsPartial (partial_of partial) }
    requires change { FitsChange change.now }
    ensures { IfOk result (λ s. option_map progress_of s ≡ reading.step (partial_of partial.entry) change.now) }
{
    match partial {
        Partial::Nothing => Ok(begin(None, change)),
        Partial::Created(entry) => end_made(alloc, entry, change),
        Partial::Stated(entry) => hold(alloc, entry, change),
        Partial::Held(old) => alter(alloc, old, change),
        Partial::Removed(old) => end_gone(alloc, old, change),
        Partial::Updated { old, entry } => end_altered(alloc, old, entry, change),
    }
}

/// Returns the last group, at the end of a list. If a group is not complete, there is none.
fn finish<'a>(partial: Partial<'a>) -> Option<Option<Group<'a>>>
    ensures { option_map done_of result ≡ reading.finish (partial_of partial.entry) }
{
    match partial {
        Partial::Nothing => Some(None),
        Partial::Updated { old, entry } => Some(Some(altered_entry(old, entry))),
        _ => None,
    }
}

/// Adds a group, if there is one.
fn add<'a>(groups: &mut Vec<Group<'a>>, done: Option<Group<'a>>) -> Result<(), NoMemory>
    ensures { OnOk result (groups_of groups.new.items ≡ groups_of groups.old.items ++ done_of done.entry) }
{
    if let Some(group) = done {
        groups.push(group)?;
    }
    Ok(())
}

/// Reads the groups of a list of changes, in any order of their keys.
fn read_all<'a>(
    alloc: Global,
    changes: &'a [LedgerEntryChange],
) -> Result<Option<Vec<Group<'a>>>, NoMemory>
    requires { All FitsChange changes.now }
    ensures { IfOk result (λ read. option_map (λ gs. groups_of gs.items) read ≡ reading.read_from reading.nothing changes.now) }
{
    let mut groups = Vec::new(alloc);
    let mut partial = Partial::Nothing;
    for change in changes {
        match step(alloc, partial, change)? {
            None => return Ok(None),
            Some(next) => {
                add(&mut groups, next.done)?;
                partial = next.partial;
            }
        }
    }
    match finish(partial) {
        None => Ok(None),
        Some(last) => {
            add(&mut groups, last)?;
            Ok(Some(groups))
        }
    }
}

/// Whether a key is above that of an entry.
fn is_above_entry(before: &LedgerEntry, key: &LedgerKey) -> Result<bool, NoMemory>
    requires fits { entry_format.fits before.now }
    requires key_fits { key_format.fits key.now }
    ensures { IfOk result (λ is. is ≡ is_above_key (Some (key_bytes (key_of_entry before.now))) (key_bytes key.now)) }
{
    let own = key_of(before)?;
    Ok(cmp_keys(&own, key).is_lt())
}

/// Whether the key of an entry is above that of the entry before it.
fn is_above(before: Option<&LedgerEntry>, entry: &LedgerEntry) -> Result<bool, NoMemory>
    requires before { IfSome before (λ b. entry_format.fits b.now) }
    requires fits { entry_format.fits entry.now }
    ensures { IfOk result (λ is. is ≡ is_above_key (option_map (λ b. key_bytes (key_of_entry b.now)) before.entry)
        (key_bytes (key_of_entry entry.now))) }
{
    match before {
        None => Ok(true),
        Some(before) => {
            let key = key_of(entry)?;
            is_above_entry(before, &key)
        }
    }
}

/// Whether the keys of groups rise strictly by their XDR bytes.
fn rise(groups: &[Group<'_>]) -> Result<bool, NoMemory>
    requires { All (λ g. IsGroup (group_of g)) groups.now }
    ensures { IfOk result (λ rises. rises ≡ reading.rise_after None (groups_of groups.now)) }
{
    let mut before = None;
    for group in groups {
        let entry = group.entry();
        if !is_above(before, entry)? {
            return Ok(false);
        }
        before = Some(entry);
    }
    Ok(true)
}

/// Reads the groups that a list of changes consists of. There are none if it is no list of groups with rising keys.
pub fn read_groups<'a>(
    alloc: Global,
    changes: &'a [LedgerEntryChange],
) -> Result<Option<Vec<Group<'a>>>, NoMemory>
    requires { All FitsChange changes.now }
    ensures groups { IfOk result (λ read. option_map (λ gs. groups_of gs.items) read ≡ reading.groups_in changes.now) }
    ensures fits { IfOk result (λ read. IfSome read (λ gs. All (λ g. IsGroup (group_of g)) gs.items)) }
{
    match read_all(alloc, changes)? {
        None => Ok(None),
        Some(groups) => {
            if rise(&groups)? {
                Ok(Some(groups))
            } else {
                Ok(None)
            }
        }
    }
}
