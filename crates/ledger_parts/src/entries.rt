//! The entries that a cluster runs on.

ghost use Rattle.std.specs.Prelude.{◌≡◌, ◌<◌, ◌+◌, ◌^◌, IfSome, OnOk, OnErr, refl};
ghost use Rattle.std.specs.FinMap.{get, len, empty, insert as insert_in};
ghost use Rattle.std.specs.Option.{option_map, option_or};
ghost use Rattle.ledger_types.specs.Key.{key_format};
ghost use Rattle.ledger_spec.specs.LedgerMap.{LedgerMap, IsKeptAt, IsLedgerMap, find as find_in, key_bytes};
ghost use Rattle.ledger_spec.specs.Changes.{raise as raise_in};
ghost use Rattle.entry_lookup.specs.Found.{kept_of};
ghost use Rattle.stage_runs.specs.Maps.{Bytes};
ghost use Rattle.stage_runs.specs.Runs.{change as change_in};
ghost use Rattle.ledger_parts.specs.Shown.{shown as shown_by};
ghost use Rattle.ledger_parts.specs.Sees.{sees_all, sees_lent};

use crate::part::{MOST_ENTRIES, OnPart};
use entry_lookup::{Found, Ground};
use entry_map::EntryMap;
use ledger_file::Ledger;
use ledger_spec::Kept;
use ledger_types::LedgerKey;
use stage_runs::Change;
use std::alloc::Global;
use xdr_core::NoMemory;

/// The entries that a cluster runs on: those of its own, which it changes, and what its transactions see of them and of others.
pub trait Entries: Ground {
    /// The own entries.
    ghost own: { Self → LedgerMap };

    /// What transactions see, given the own entries.
    ghost shown: { Self → LedgerMap → LedgerMap };

    /// Returns the number of own entries. It takes no memory.
    fn len(&self) -> usize
        ensures len { result ≡ len (own self.now) }
        ensures map { IsLedgerMap (Self.map self.now) };

    /// Finds what is lent at a key: the entry that transactions see there if there is no own one. It takes no memory.
    fn find_lent(&self, key: &LedgerKey) -> Option<Found<'_>>
        requires { key_format.fits key.now }
        ensures found { option_map kept_of result ≡ find_in (shown self.now empty) key.now }
        ensures kept { IfSome result (λ found. IsKeptAt (key_bytes key.now) (kept_of found)) };

    /// Makes a change to the own entries.
    fn change(&mut self, alloc: Global, change: Change) -> Result<(), NoMemory>
        requires key { key_format.fits change.key }
        requires after { IfSome change.after (IsKeptAt (key_bytes change.key)) }
        ensures own { OnOk result (own self.new ≡ change_in (own self.old) change) }
        ensures shown { shown self.new ≡ shown self.old };

    /// Raises the live-until ledger of the own entry at a key, if there is one, to at least this ledger. It takes no memory.
    fn raise(&mut self, key: &LedgerKey, live_until: u32)
        requires { key_format.fits key.now }
        ensures own { own self.new ≡ raise_in (own self.old) key.now live_until }
        ensures shown { shown self.new ≡ shown self.old };

    /// `Ground::find` finds what transactions see.
    ghost shows: { (entries : Self) → Self.map entries ≡ shown entries (own entries) };

    /// At each key transactions see the own entry, or what is lent there if there is none.
    ghost sees: { (entries : Self) (own : LedgerMap) (q : Bytes)
        → get (shown entries own) q ≡ option_or (get own q) (get (shown entries empty) q) };
}

/// Stores an entry at its key, if a ledger has room for one more entry beside this many others.
fn put_beside(
    alloc: Global,
    entries: &mut EntryMap,
    others: usize,
    key: &LedgerKey,
    kept: Kept,
) -> Result<(), NoMemory>
    requires fits { key_format.fits key.now }
    requires kept { IsKeptAt (key_bytes key.now) kept }
    requires few { len entries.old + others < 2 ^ 32 }
    ensures ok { OnOk result (entries.new ≡ insert_in entries.old (key_bytes key.now) kept) }
    ensures few { len entries.new + others < 2 ^ 32 }
{
    if entries.len() + others >= MOST_ENTRIES {
        return Err(NoMemory);
    }
    entries.set(alloc, key, kept)
}

/// A cluster may run on a whole ledger: all entries are its own.
impl Entries for Ledger {
    ghost own = { λ ledger. ledger.entries };

    ghost shown = { λ _ entries. entries };

    fn len(&self) -> usize {
        self.entries.len()
    }

    fn find_lent(&self, _key: &LedgerKey) -> Option<Found<'_>> {
        None
    }

    fn change(&mut self, alloc: Global, change: Change) -> Result<(), NoMemory> {
        let Change { key, after } = change;
        match after {
            Some(kept) => self.entries.set(alloc, &key, kept),
            None => {
                let _taken = self.entries.take(&key);
                Ok(())
            }
        }
    }

    fn raise(&mut self, key: &LedgerKey, live_until: u32) {
        self.entries.raise(key, live_until);
    }

    ghost shows = { λ _. refl };

    ghost sees = { λ _ own q. sees_all own q };
}

/// A cluster may run on its part: the entries that it declares read-write are its own.
impl<'a> Entries for OnPart<'a> {
    ghost own = { λ seen. seen.part.own };

    ghost shown = { λ seen own. shown_by seen.part.read_only seen.lent.now own };

    fn len(&self) -> usize {
        // What is known of `lent` as a map of a ledger comes from a call.
        let _count = self.lent.len();
        self.part.own.len()
    }

    fn find_lent(&self, key: &LedgerKey) -> Option<Found<'_>> {
        let _count = self.lent.len();
        self.lent_at(key)
    }

    fn change(&mut self, alloc: Global, change: Change) -> Result<(), NoMemory> {
        let Change { key, after } = change;
        let others = self.lent.len();
        match after {
            Some(kept) => put_beside(alloc, &mut self.part.own, others, &key, kept),
            None => {
                let _taken = self.part.own.take(&key);
                Ok(())
            }
        }
    }

    fn raise(&mut self, key: &LedgerKey, live_until: u32) {
        self.part.own.raise(key, live_until);
    }

    ghost shows = { λ _. refl };

    ghost sees = { λ seen own q. sees_lent seen.part.read_only seen.lent.now own q };
}
