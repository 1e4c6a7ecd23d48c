//! The calls of a storage: look-ups, puts, deletes, makes and extensions. Each finds the slot of its key and judges its access.
//! What they do then is in `noting`, but for `get`, whose entry stays borrowed.

ghost use mir.Syntax.{named};
ghost use Rattle.std.specs.Prelude.{◌≡◌, [], IfOk};
ghost use Rattle.std.specs.Borrow.{sem};
ghost use Rattle.std.specs.Io.BufRead.{Rests};
ghost use Rattle.ledger_types.specs.Key.{key_format};
ghost use Rattle.ledger_types.specs.Entry.{entry_format, key_of as key_of_entry};
ghost use Rattle.ledger_spec.specs.LedgerMap.{HasCodeHash};
ghost use Rattle.contract_storage.specs.Acts.{Does, Reads, has_act, get_act, put_act, del_act, make_act, extend_act, lent};
ghost use Rattle.contract_storage.specs.contracts.storage.Storage.{the_row};

use crate::access::{Access, StoErr};
use crate::sight::Sight;
use crate::spot::Spot;
use crate::storage::Storage;
use crate::watch::Watch;
use entry_lookup::Ground;
use ledger_types::{LedgerEntry, LedgerKey};
use value_types::{ScError, ScErrorCode};

impl<'a, G: Ground, W: Watch> Storage<'a, G, W> {
    /// Whether there is a live entry at a key. It takes memory only if the storage records.
    pub fn has(&mut self, key: &LedgerKey) -> Result<bool, StoErr>
        requires { key_format.fits key.now }
        ensures { Reads (has_act key.now) result self.old self.new }
    {
        match self.entries.slot_for(Access::Read, key) {
            Ok(at) => self.entries.has(Spot { at, key }),
            Err(e) => Err(e),
        }
    }

    /// Borrows the live entry at a key. It takes memory only if the storage records.
    pub fn get(&mut self, key: &LedgerKey) -> Result<&LedgerEntry, StoErr>
        requires { key_format.fits key.now }
        // Once the entry is no longer borrowed.
        ensures* answer { sem 𝓛 (Rests (the_row (record { mir = named 1; lft = [] }) G.row W.row G.Ground W.Watch) self.entry
            (λ new. Reads (get_act key.now) (lent result) self.old new)) }
        ensures fits { IfOk result (λ entry. entry_format.fits entry.now) }
    {
        let at = match self.entries.slot_for(Access::Read, key) {
            Ok(at) => at,
            Err(e) => return Err(e),
        };
        let spot = Spot { at, key };
        let outcome = self.entries.outcome_at(spot);
        if self.entries.note(Access::Read, spot, outcome).is_err() {
            return Err(StoErr::NoMemory);
        }
        match self.entries.sight(spot) {
            Sight::Live(found) => Ok(found.entry),
            Sight::Absent => Err(StoErr::Missing),
            Sight::Archived => Err(StoErr::Archived),
        }
    }

    /// Puts an entry at its key.
    pub fn put(&mut self, key: &LedgerKey, entry: LedgerEntry) -> Result<(), StoErr>
        requires key { key.now ≡ key_of_entry entry }
        requires fits { entry_format.fits entry }
        requires hashed { HasCodeHash entry.data }
        ensures { Does (put_act entry) result self.old self.new }
    {
        let at = match self.entries.slot_for(Access::Write, key) {
            Ok(at) => at,
            Err(e) => return Err(e),
        };
        self.entries.put(Spot { at, key }, entry)
    }

    /// Deletes the live entry at a key, if there is one.
    pub fn del(&mut self, key: &LedgerKey) -> Result<(), StoErr>
        requires { key_format.fits key.now }
        ensures { Does (del_act key.now) result self.old self.new }
    {
        match self.entries.slot_for(Access::Write, key) {
            Ok(at) => self.entries.del(Spot { at, key }),
            Err(e) => Err(e),
        }
    }

    /// Makes an entry with a given live-until ledger, unless the key has a live entry. Returns whether it made one.
    pub fn make(
        &mut self,
        key: &LedgerKey,
        entry: LedgerEntry,
        live_until: u32,
    ) -> Result<bool, StoErr>
        requires key { key.now ≡ key_of_entry entry }
        requires fits { entry_format.fits entry }
        requires hashed { HasCodeHash entry.data }
        ensures { Does (make_act entry live_until) result self.old self.new }
    {
        let at = match self.entries.slot_for(Access::Write, key) {
            Ok(at) => at,
            Err(e) => return Err(e),
        };
        self.entries.make(Spot { at, key }, entry, live_until)
    }

    /// Extends the life of a live entry by `extend_to` ledgers from now, if at most `threshold` ledgers are left. A
    /// threshold above `extend_to` fails before the access, so no key is recorded.
    pub fn extend(&mut self, key: &LedgerKey, threshold: u32, extend_to: u32) -> Result<(), StoErr>
        requires { key_format.fits key.now }
        ensures { Does (extend_act key.now threshold extend_to) result self.old self.new }
    {
        if extend_to < threshold {
            return Err(StoErr::BadExtend(ScError::Storage(ScErrorCode::InvalidInput)));
        }
        match self.entries.slot_for(Access::Extend, key) {
            Ok(at) => self.entries.extend(Spot { at, key }, threshold, extend_to),
            Err(e) => Err(e),
        }
    }
}
