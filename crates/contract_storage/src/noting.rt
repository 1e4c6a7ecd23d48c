//! Accesses that are allowed, once the slot of their key is known. Each is noted, and then does what it has to.

ghost use Rattle.std.specs.Prelude.{◌≡◌, true, false, nat_lt};
ghost use Rattle.ledger_types.specs.Entry.{entry_format, key_of as key_of_entry};
ghost use Rattle.ledger_spec.specs.LedgerMap.{HasCodeHash};
ghost use Rattle.contract_storage.specs.Acts.{Does, Reads, has_act, put_act, del_act, make_act, extend_act};
ghost use Rattle.contract_storage.specs.Places.{IsSpot};
ghost use Rattle.contract_storage.specs.Slotted.{stored_of};
ghost use Rattle.contract_storage.specs.Touched.{admits};

use crate::access::{Access, StoErr};
use crate::entries::Entries;
use crate::sight::Sight;
use crate::spot::Spot;
use crate::watch::Watch;
use entry_lookup::Ground;
use ledger_types::LedgerEntry;

impl<'a, G: Ground, W: Watch> Entries<'a, G, W> {
    /// Whether there is a live entry at a key.
    pub(crate) fn has(&mut self, spot: Spot<'_>) -> Result<bool, StoErr>
        requires spot { IsSpot self.old.layer.keys spot }
        requires allowed { admits (stored_of self.old).declared Access.Read spot.key.now ≡ true }
        ensures { Reads (has_act spot.entry.key.now) result (stored_of self.old) (stored_of self.new) }
    {
        let outcome = self.outcome_at(spot);
        if self.note(Access::Read, spot, outcome).is_err() {
            return Err(StoErr::NoMemory);
        }
        match self.sight(spot) {
            Sight::Live(_) => Ok(true),
            Sight::Absent => Ok(false),
            Sight::Archived => Err(StoErr::Archived),
        }
    }

    /// Puts an entry at its key.
    pub(crate) fn put(&mut self, spot: Spot<'_>, entry: LedgerEntry) -> Result<(), StoErr>
        requires spot { IsSpot self.old.layer.keys spot }
        requires allowed { admits (stored_of self.old).declared Access.Write spot.key.now ≡ true }
        requires key { spot.key.now ≡ key_of_entry entry }
        requires fits { entry_format.fits entry }
        requires hashed { HasCodeHash entry.data }
        ensures { Does (put_act entry) result (stored_of self.old) (stored_of self.new) }
    {
        let Ok(noted) = self.note_key(Access::Write, spot) else {
            return Err(StoErr::NoMemory);
        };
        let answer = self.put_allowed(spot, entry);
        self.ended(noted, Access::Write, spot, answer)
    }

    /// Deletes the live entry at a key, if there is one.
    pub(crate) fn del(&mut self, spot: Spot<'_>) -> Result<(), StoErr>
        requires spot { IsSpot self.old.layer.keys spot }
        requires allowed { admits (stored_of self.old).declared Access.Write spot.key.now ≡ true }
        ensures { Does (del_act spot.entry.key.now) result (stored_of self.old) (stored_of self.new) }
    {
        let Ok(noted) = self.note_key(Access::Write, spot) else {
            return Err(StoErr::NoMemory);
        };
        let deleted = self.del_allowed(spot);
        self.ended(noted, Access::Write, spot, deleted)
    }

    /// Makes an entry with a given live-until ledger, unless the key has a live entry. Returns whether it made one.
    pub(crate) fn make(
        &mut self,
        spot: Spot<'_>,
        entry: LedgerEntry,
        live_until: u32,
    ) -> Result<bool, StoErr>
        requires spot { IsSpot self.old.layer.keys spot }
        requires allowed { admits (stored_of self.old).declared Access.Write spot.key.now ≡ true }
        requires key { spot.key.now ≡ key_of_entry entry }
        requires fits { entry_format.fits entry }
        requires hashed { HasCodeHash entry.data }
        ensures { Does (make_act entry live_until) result (stored_of self.old) (stored_of self.new) }
    {
        let Ok(noted) = self.note_key(Access::Write, spot) else {
            return Err(StoErr::NoMemory);
        };
        let answer = self.make_allowed(spot, entry, live_until);
        self.ended(noted, Access::Write, spot, answer)
    }

    /// Extends the life of a live entry by `extend_to` ledgers from now, if at most `threshold` ledgers are left. The threshold
    /// is not above `extend_to`.
    pub(crate) fn extend(
        &mut self,
        spot: Spot<'_>,
        threshold: u32,
        extend_to: u32,
    ) -> Result<(), StoErr>
        requires spot { IsSpot self.old.layer.keys spot }
        requires allowed { admits (stored_of self.old).declared Access.Extend spot.key.now ≡ true }
        requires unless_backward { nat_lt extend_to threshold ≡ false }
        ensures { Does (extend_act spot.entry.key.now threshold extend_to) result (stored_of self.old) (stored_of self.new) }
    {
        let Ok(noted) = self.note_key(Access::Extend, spot) else {
            return Err(StoErr::NoMemory);
        };
        let answer = self.extend_allowed(spot, threshold, extend_to);
        self.ended(noted, Access::Extend, spot, answer)
    }
}
