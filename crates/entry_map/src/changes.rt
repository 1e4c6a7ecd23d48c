//! Puts, makes and deletes, by what an access in a ledger finds.

ghost use Rattle.std.specs.Prelude.{◌≡◌, ◌+◌, ◌<◌, ◌^◌, IfOk, OnOk, OnErr};
ghost use Rattle.std.specs.FinMap.{insert as insert_in};
ghost use Rattle.ledger_types.specs.Key.{key_format};
ghost use Rattle.ledger_types.specs.Entry.{entry_format, key_of as key_of_entry};
ghost use Rattle.ledger_spec.specs.LedgerMap.{HasCodeHash, key_bytes};
ghost use Rattle.ledger_spec.specs.Seen.{seen};
ghost use Rattle.ledger_spec.specs.States.{state_of};
ghost use Rattle.ledger_spec.specs.Changes.{put as put_in, delete as delete_in, make as make_in, first_life, written};
ghost use Rattle.entry_map.specs.Changed.{life_of_put, IsChange, IsMake};

use crate::map::EntryMap;
use crate::stored::store_entry;
use ledger_spec::{KeyState, first_life, state_of};
use ledger_types::{LedgerEntry, LedgerKey, Settings};
use std::alloc::Global;
use xdr_core::NoMemory;

/// Whether a put or a delete was done. It is not if the entry there is archived.
#[derive(Clone, Copy, Debug, PartialEq, Eq)]
pub enum Change {
    Done,
    Archived,
}

/// The outcome of a make: the entry was created, or the key has a live or an archived entry already.
#[derive(Clone, Copy, Debug, PartialEq, Eq)]
pub enum Made {
    Created,
    Live,
    Archived,
}

impl EntryMap {
    /// Returns the state of a key in ledger `n`. It takes no memory.
    pub fn state(&self, n: u32, key: &LedgerKey) -> KeyState
        requires { key_format.fits key.now }
        ensures { result ≡ state_of (seen n self.now key.now) }
    {
        state_of(n, self.find(key))
    }

    /// Deletes the entry at a key in ledger `n`. It takes no memory.
    pub fn delete(&mut self, n: u32, key: &LedgerKey) -> Change
        requires { key_format.fits key.now }
        ensures { IsChange (delete_in n self.old key.now) self.old self.new result }
    {
        match self.state(n, key) {
            KeyState::Live => {
                let _taken = self.take(key);
                Change::Done
            }
            KeyState::Absent => Change::Done,
            KeyState::Archived => Change::Archived,
        }
    }

    /// Returns the live-until ledger of an entry that is put in ledger `n`, or `None` if the key is archived.
    fn life_of_put(
        &self,
        settings: &Settings,
        n: u32,
        key: &LedgerKey,
        entry: &LedgerEntry,
    ) -> Option<u32>
        requires fits { key_format.fits key.now }
        requires first { first_life settings.now n entry.now < 2 ^ 32 }
        ensures { result ≡ life_of_put (seen n self.now key.now) settings.now n entry.now }
    {
        let found = self.find(key);
        match state_of(n, found) {
            KeyState::Live => found.map(|kept| kept.live_until),
            KeyState::Absent => Some(first_life(settings, n, entry)),
            KeyState::Archived => None,
        }
    }

    /// Puts an entry at its key in ledger `n`.
    pub fn put(
        &mut self,
        alloc: Global,
        settings: &Settings,
        n: u32,
        key: &LedgerKey,
        entry: LedgerEntry,
    ) -> Result<Change, NoMemory>
        requires key { key.now ≡ key_of_entry entry }
        requires fits { entry_format.fits entry }
        requires hashed { HasCodeHash entry.data }
        requires first { first_life settings.now n entry < 2 ^ 32 }
        ensures ok { IfOk result (IsChange (put_in settings.now n self.old entry) self.old self.new) }
        ensures err { OnErr result (self.new ≡ self.old) }
    {
        match self.life_of_put(settings, n, key, &entry) {
            None => Ok(Change::Archived),
            Some(life) => {
                self.write(alloc, n, entry, life)?;
                Ok(Change::Done)
            }
        }
    }

    /// Makes an entry in ledger `n`, with a given live-until ledger, if its key is absent.
    pub fn make(
        &mut self,
        alloc: Global,
        n: u32,
        key: &LedgerKey,
        entry: LedgerEntry,
        live_until: u32,
    ) -> Result<Made, NoMemory>
        requires key { key.now ≡ key_of_entry entry }
        requires fits { entry_format.fits entry }
        requires hashed { HasCodeHash entry.data }
        ensures ok { IfOk result (IsMake (make_in n self.old entry live_until) self.old self.new) }
        ensures err { OnErr result (self.new ≡ self.old) }
    {
        match self.state(n, key) {
            KeyState::Live => Ok(Made::Live),
            KeyState::Archived => Ok(Made::Archived),
            KeyState::Absent => {
                self.write(alloc, n, entry, live_until)?;
                Ok(Made::Created)
            }
        }
    }

    /// Stores an entry at its key, with `n` as its last modified ledger.
    fn write(
        &mut self,
        alloc: Global,
        n: u32,
        entry: LedgerEntry,
        live_until: u32,
    ) -> Result<(), NoMemory>
        requires fits { entry_format.fits entry }
        requires hashed { HasCodeHash entry.data }
        ensures ok { OnOk result (self.new ≡ insert_in self.old (key_bytes (key_of_entry entry))
            (record { entry = written n entry; live_until = live_until })) }
        ensures err { OnErr result (self.new ≡ self.old) }
    {
        let LedgerEntry { data, .. } = entry;
        let entry = LedgerEntry {
            last_modified_ledger_seq: n,
            data,
        };
        let (key, stored) = store_entry(alloc, entry, live_until)?;
        let _old = self.insert(&key, stored)?;
        Ok(())
    }
}
