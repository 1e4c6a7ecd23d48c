//! The pending extensions of a cluster.

ghost use Rattle.std.specs.Prelude.{◌≡◌, ◌∷◌, ◌++◌, [], not, max, All, IfOk, OnOk, filter, if◌then◌else◌};
ghost use Rattle.std.specs.Option.{option_map_or};
ghost use Rattle.ledger_types.specs.Key.{key_format};
ghost use Rattle.ledger_spec.specs.LedgerMap.{key_bytes};
ghost use Rattle.stage_runs.specs.Runs.{put_all_in};
ghost use Rattle.set_steps.specs.Lives.{KeepsLives};
ghost use Rattle.set_steps.specs.Pending.{has_bytes, is_awaited as is_awaited_in};

use crate::lives::{Life, keep_life};
use ledger_parts::Entries;
use ledger_types::LedgerKey;
use stage_runs::Extension;
use std::alloc::Global;
use std::collections::BTreeMap;
use std::marker::Model;
use value_xdr::encode;
use xdr_core::NoMemory;

/// The pending extensions of one key: the index of the first one in the list of all extensions, and the greatest
/// live-until ledger among them.
#[derive(Clone, Copy, Debug, PartialEq, Eq)]
pub struct Awaited {
    pub since: usize,
    pub live_until: u32,
}

/// Adds one more extension of a key, at the end of the list.
fn awaited_with(before: Option<Awaited>, end: usize, live_until: u32) -> Awaited
    ensures since { result.since ≡ option_map_or (λ a. a.since) before end }
    ensures life { result.live_until ≡ option_map_or (λ a. max a.live_until live_until) before live_until }
{
    match before {
        Some(awaited) => Awaited {
            since: awaited.since,
            live_until: awaited.live_until.max(live_until),
        },
        None => Awaited {
            since: end,
            live_until,
        },
    }
}

/// Whether the extension at an index of the list is still pending.
fn is_awaited(awaited: Option<Awaited>, index: usize) -> bool
    ensures { result ≡ is_awaited_in awaited index }
{
    match awaited {
        Some(awaited) => awaited.since <= index,
        None => false,
    }
}

/// The pending extensions of a cluster, in the order in which they came. Adding one takes O(log n) comparisons of keys,
/// and so does putting in all extensions of a key.
///
/// Contracts see the list of the pending extensions.
#[derive(Drop)]
pub struct Pending {
    /// All extensions so far, also those that were put in.
    row: Vec<Extension>,
    /// By the XDR bytes of a key. A key without pending extensions is absent.
    by_key: BTreeMap<Vec<u8>, Awaited>,
}

impl Model for Pending {
    ghost use Rattle.std.specs.Prelude.{List};
    ghost use Rattle.std.specs.Coded.{coded_list};
    ghost use Rattle.stage_runs.specs.contracts.Extension as extension;
    ghost use Rattle.stage_runs.specs.declared.Extension.{Extension as ExtensionData};
    ghost use Rattle.set_steps.specs.Pending.{awaiting, still_pending, IsAwaiting};

    ghost Value = { List ExtensionData };

    ghost coded = { coded_list extension.the_row.coded };

    ghost view = { λ p. still_pending (awaiting p.by_key) 0 p.row.items };

    ghost invariant = { λ p. IsAwaiting (awaiting p.by_key) p.row.items };
}

impl Pending {
    /// Makes an empty list.
    pub fn new(alloc: Global) -> Pending
        ensures { result ≡ [] }
    {
        Pending {
            row: Vec::new(alloc),
            by_key: BTreeMap::new(alloc),
        }
    }

    /// Adds an extension.
    pub fn with(self, alloc: Global, extension: Extension) -> Result<Pending, NoMemory>
        requires { key_format.fits extension.key }
        ensures { IfOk result (λ p. p ≡ self ++ extension ∷ []) }
    {
        let Pending {
            mut row,
            mut by_key,
        } = self;
        let key = encode(alloc, &extension.key)?;
        let live_until = extension.live_until;
        let before = by_key.get(key.as_slice()).copied();
        by_key.insert(key, awaited_with(before, row.len(), live_until))?;
        row.push(extension)?;
        Ok(Pending { row, by_key })
    }

    /// Adds extensions in their order.
    pub fn with_all(self, alloc: Global, extensions: Vec<Extension>) -> Result<Pending, NoMemory>
        requires { All (λ e. key_format.fits e.key) extensions.items }
        ensures { IfOk result (λ p. p ≡ self ++ extensions.items) }
    {
        let mut pending = self;
        for extension in extensions {
            pending = pending.with(alloc, extension)?;
        }
        Ok(pending)
    }

    /// Puts in the pending extensions of a key: the greater live-until ledger stays. Keeps the life before, if there are any.
    pub fn put_in<E: Entries>(
        &mut self,
        alloc: Global,
        entries: &mut E,
        key: &LedgerKey,
        lives: &mut Vec<Life>,
    ) -> Result<(), NoMemory>
        requires { key_format.fits key.now }
        ensures entries { OnOk result (E.own entries.new ≡ put_all_in (E.own entries.old)
            (filter (has_bytes (key_bytes key.now)) self.old)) }
        ensures pending { OnOk result (self.new ≡ filter (λ e. not (has_bytes (key_bytes key.now) e)) self.old) }
        ensures shown { E.shown entries.new ≡ E.shown entries.old }
        ensures lives { OnOk result (KeepsLives (E.map entries.old) (E.map entries.new) lives.old.items lives.new.items) }
    {
        let bytes = encode(alloc, key)?;
        match self.by_key.remove(bytes.as_slice()) {
            None => Ok(()),
            Some(awaited) => {
                keep_life(entries, lives, key)?;
                entries.raise(key, awaited.live_until);
                Ok(())
            }
        }
    }

    /// Returns the pending extensions in order.
    pub fn into_vec(self, alloc: Global) -> Result<Vec<Extension>, NoMemory>
        ensures pending { IfOk result (λ v. v.items ≡ self) }
        ensures spelled { IfOk result (λ v. All (λ e. key_format.fits e.key) v.items) }
    {
        let Pending { row, by_key } = self;
        let mut pending = Vec::new(alloc);
        let mut index = 0;
        for extension in row {
            let key = encode(alloc, &extension.key)?;
            let awaited = is_awaited(by_key.get(key.as_slice()).copied(), index);
            push_where(&mut pending, awaited, extension)?;
            index += 1;
        }
        Ok(pending)
    }
}

/// Adds an extension if it is still pending.
fn push_where(
    pending: &mut Vec<Extension>,
    awaited: bool,
    extension: Extension,
) -> Result<(), NoMemory>
    ensures { OnOk result (pending.new.items ≡ (if awaited then pending.old.items ++ extension ∷ [] else pending.old.items)) }
{
    if awaited {
        pending.push(extension)?;
    }
    Ok(())
}
