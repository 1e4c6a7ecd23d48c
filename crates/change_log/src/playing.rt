//! Plays a log on a ledger.

ghost use Rattle.std.specs.Prelude.{◌≡◌, ◌++◌, ◌+◌, ◌<◌, ◌^◌, ◌∷◌, [], All, false, Ok, IfOk, IfErr, IfSome, IsTrue, OnOk};
ghost use Rattle.std.specs.Option.{option_copied, option_map};
ghost use Rattle.ledger_spec.specs.LedgerFile.{has_next};
ghost use Rattle.entry_lookup.specs.Found.{kept_of};
ghost use Rattle.change_log.specs.Log.{log_format};
ghost use Rattle.change_log.specs.Play as playing;
ghost use Rattle.change_log.specs.Views.{group_of, groups_of, all_placed, IsPlayed, IsPlayedTo, IsStuckUnlessMemory};
ghost use Rattle.change_log.specs.Views.{IsUnfitUnlessMemory};
ghost use Rattle.change_log.specs.Fits.{FitsChange, IsGroup};
ghost use Rattle.ledger_spec.specs.LedgerMap.{key_bytes, IsKeptAt};
ghost use Rattle.ledger_types.specs.Key.{key_format};

use crate::error::{ListIndex, PlayErr};
use crate::group::Group;
use crate::log::{Changes, Log, LoggedStage};
use crate::read::read_groups;
use entry_lookup::Found;
use entry_map::EntryMap;
use ledger_file::Ledger;
use ledger_spec::Kept;
use ledger_types::{Header, LedgerKey, key_of};
use std::alloc::Global;
use xdr_core::NoMemory;

/// Whether an entry of a map is this one.
fn is_held(kept: Option<&Kept>, before: Option<Found<'_>>) -> bool
    ensures { result ≡ playing.is_held (option_copied kept.entry) (option_map kept_of before.entry) }
{
    match kept {
        None => before.is_none(),
        Some(kept) => match before {
            None => false,
            Some(old) => kept.entry == *old.entry && kept.live_until == old.live_until,
        },
    }
}

/// Puts an entry in the place of what the map has at its key, or takes that out.
fn set_to(
    alloc: Global,
    entries: &mut EntryMap,
    key: &LedgerKey,
    after: Option<Found<'_>>,
) -> Result<(), NoMemory>
    requires fits { key_format.fits key.now }
    requires kept { IfSome after (λ found. IsKeptAt (key_bytes key.now) (kept_of found)) }
    ensures { OnOk result (entries.new ≡ playing.set_to entries.old (key_bytes key.now) (option_map kept_of after.entry)) }
{
    match after {
        None => {
            let _old = entries.take(key);
            Ok(())
        }
        Some(found) => {
            let kept = Kept {
                entry: found.entry.clone()?,
                live_until: found.live_until,
            };
            entries.set(alloc, key, kept)
        }
    }
}

/// Plays a group. It fits if the map has what the group replaces.
fn play_group(
    alloc: Global,
    entries: &mut EntryMap,
    group: Group<'_>,
    back: bool,
) -> Result<bool, NoMemory>
    requires { IsGroup (group_of group) }
    ensures { IfOk result (λ fits. IsPlayed fits entries.new (playing.replaced back entries.old (group_of group.entry))) }
{
    let key = key_of(group.entry())?;
    if !is_held(entries.find(&key), group.replaced(back)) {
        return Ok(false);
    }
    set_to(alloc, entries, &key, group.put(back))?;
    Ok(true)
}

/// Plays groups one after the other, until one does not fit.
fn play_groups(
    alloc: Global,
    entries: &mut EntryMap,
    groups: &[Group<'_>],
    back: bool,
) -> Result<bool, NoMemory>
    requires { All (λ g. IsGroup (group_of g)) groups.now }
    ensures { IfOk result (λ fit. IsPlayed fit entries.new (playing.replaced_all back entries.old (groups_of groups.now))) }
{
    for group in groups {
        if !play_group(alloc, entries, *group, back)? {
            return Ok(false);
        }
    }
    Ok(true)
}

/// Returns items in the order of playing: from the first to the last, or backwards from the last.
fn in_order<T>(items: Vec<T>, back: bool) -> Vec<T>
    ensures { result.items ≡ playing.in_order back items.items }
{
    let mut items = items;
    if back {
        items.reverse();
    }
    items
}

/// Plays the groups of a list.
fn play_read(
    alloc: Global,
    entries: &mut EntryMap,
    groups: Vec<Group<'_>>,
    back: bool,
) -> Result<bool, NoMemory>
    requires { All (λ g. IsGroup (group_of g)) groups.items }
    ensures { IfOk result (λ fit. IsPlayed fit entries.new
        (playing.replaced_all back entries.old (playing.in_order back (groups_of groups.entry.items)))) }
{
    let groups = in_order(groups, back);
    play_groups(alloc, entries, &groups, back)
}

/// Plays a list of changes. It fits if it is a list of groups that fit.
fn play_changes(
    alloc: Global,
    entries: &mut EntryMap,
    changes: &Changes,
    back: bool,
) -> Result<bool, NoMemory>
    requires { All FitsChange changes.now }
    ensures { IfOk result (λ fits. IsPlayed fits entries.new (playing.played_list back entries.old changes.now)) }
{
    match read_groups(alloc, changes.as_slice())? {
        None => Ok(false),
        Some(groups) => play_read(alloc, entries, groups, back),
    }
}

/// A list of changes of a log, and where it is.
#[derive(Clone, Copy)]
struct Placed<'a> {
    at: ListIndex,
    changes: &'a Changes,
}

/// Adds the lists of the transactions of a stage.
fn add_transactions<'a>(
    lists: &mut Vec<Placed<'a>>,
    stage: usize,
    transactions: &'a [Changes],
) -> Result<(), NoMemory>
    ensures { OnOk result (all_placed lists.new.items
        ≡ all_placed lists.old.items ++ playing.placed_from stage 0 transactions.now) }
{
    for (list, changes) in transactions.iter().enumerate() {
        lists.push(Placed {
            at: ListIndex { stage, list },
            changes,
        })?;
    }
    Ok(())
}

/// Adds the lists of a stage.
fn add_stage<'a>(
    lists: &mut Vec<Placed<'a>>,
    stage: usize,
    logged: &'a LoggedStage,
) -> Result<(), NoMemory>
    ensures { OnOk result (all_placed lists.new.items ≡ all_placed lists.old.items
        ++ playing.placed_from stage 0 (logged.now.transactions ++ logged.now.end ∷ [])) }
{
    let transactions = logged.transactions.as_slice();
    add_transactions(lists, stage, transactions)?;
    let at = ListIndex {
        stage,
        list: transactions.len(),
    };
    lists.push(Placed {
        at,
        changes: &logged.end,
    })?;
    Ok(())
}

/// Returns the lists of a log.
fn lists_of(alloc: Global, log: &Log) -> Result<Vec<Placed<'_>>, NoMemory>
    ensures { IfOk result (λ lists. all_placed lists.items ≡ playing.lists_of log.now) }
{
    let mut lists = Vec::new(alloc);
    let stages = log.stages.as_slice();
    for (stage, logged) in stages.iter().enumerate() {
        add_stage(&mut lists, stage, logged)?;
    }
    Ok(lists)
}

/// Plays lists one after the other. Returns where the first is that does not fit.
fn play_lists(
    alloc: Global,
    entries: &mut EntryMap,
    lists: &[Placed<'_>],
    back: bool,
) -> Result<Option<ListIndex>, NoMemory>
    requires { All (λ p. All FitsChange p.changes.now) lists.now }
    ensures { IfOk result (λ at. IsPlayedTo at entries.new (playing.played_all back entries.old (all_placed lists.now))) }
{
    for list in lists {
        if !play_changes(alloc, entries, list.changes, back)? {
            return Ok(Some(list.at));
        }
    }
    Ok(None)
}

/// Plays all lists of a log.
fn play_all(alloc: Global, log: &Log, entries: EntryMap, back: bool) -> Result<EntryMap, PlayErr>
    requires { log_format.fits log.now }
    ensures ok { IfOk result (λ new.
        playing.played_all back entries (playing.in_order back (playing.lists_of log.now)) ≡ Ok new) }
    ensures unfit { IfErr result (IsStuckUnlessMemory
        (playing.played_all back entries (playing.in_order back (playing.lists_of log.now)))) }
{
    let mut entries = entries;
    let lists = in_order(lists_of(alloc, log)?, back);
    match play_lists(alloc, &mut entries, &lists, back)? {
        Some(at) => Err(PlayErr::Unfit { at: Some(at) }),
        None => Ok(entries),
    }
}

/// Whether a log is of the ledger with this header.
fn is_of(log: &Log, header: &Header, back: bool) -> bool
    ensures { result ≡ playing.is_of back log.now header.now }
{
    if back {
        u64::from(header.seq) == u64::from(log.old_seq) + 1
            && header.close_time == log.new_close_time
    } else {
        header.seq == log.old_seq && header.close_time == log.old_close_time
    }
}

/// Returns the header of the ledger that a log leads to.
fn header_after(log: &Log, header: &Header, back: bool) -> Header
    requires { back ≡ false → log.now.old_seq + 1 < 2 ^ 32 }
    ensures { result ≡ playing.header_after back log.now header.now }
{
    if back {
        Header {
            seq: log.old_seq,
            close_time: log.old_close_time,
            ..*header
        }
    } else {
        Header {
            seq: log.old_seq + 1,
            close_time: log.new_close_time,
            ..*header
        }
    }
}

/// Plays a log on a ledger: forwards, which gives the new ledger of the old one, or backwards.
///
/// The header is tested first. Then each list of changes is read and played, in the order of playing, and the first one that
/// does not fit decides. A change takes O(log n) comparisons of keys, for n entries of the ledger.
pub fn play(alloc: Global, log: &Log, ledger: Ledger, back: bool) -> Result<Ledger, PlayErr>
    requires fits { log_format.fits log.now }
    requires next { back ≡ false → IsTrue (has_next ledger.header) }
    ensures ok { IfOk result (λ new. playing.played back log.now ledger.header ledger.entries ≡ Ok (new.header, new.entries)) }
    ensures unfit { IfErr result (IsUnfitUnlessMemory (playing.played back log.now ledger.header ledger.entries)) }
{
    if !is_of(log, &ledger.header, back) {
        return Err(PlayErr::Unfit { at: None });
    }
    let Ledger { header, entries } = ledger;
    let entries = play_all(alloc, log, entries, back)?;
    Ok(Ledger {
        header: header_after(log, &header, back),
        entries,
    })
}
