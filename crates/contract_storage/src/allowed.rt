//! What an access that is allowed does to the entries. It notes nothing.

ghost use Rattle.std.specs.Prelude.{◌≡◌, nat_lt, false};
ghost use Rattle.ledger_types.specs.Entry.{entry_format, key_of as key_of_entry};
ghost use Rattle.ledger_spec.specs.LedgerMap.{HasCodeHash};
ghost use Rattle.contract_storage.specs.Acts.{Performs, puts, deletes, makes, extends};
ghost use Rattle.contract_storage.specs.Places.{IsSpot};
ghost use Rattle.contract_storage.specs.Slotted.{stored_of};

use crate::access::StoErr;
use crate::entries::Entries;
use crate::sight::Sight;
use crate::spot::Spot;
use crate::watch::Watch;
use entry_lookup::Ground;
use ledger_types::LedgerEntry;
use value_types::{ScError, ScErrorCode};

impl<'a, G: Ground, W: Watch> Entries<'a, G, W> {
    /// Puts an entry at its key.
    pub(crate) fn put_allowed(&mut self, spot: Spot<'_>, entry: LedgerEntry) -> Result<(), StoErr>
        requires spot { IsSpot self.old.layer.keys spot }
        requires key { spot.key.now ≡ key_of_entry entry }
        requires fits { entry_format.fits entry }
        requires hashed { HasCodeHash entry.data }
        ensures performs { Performs (puts entry) result (stored_of self.old) (stored_of self.new) }
        ensures keys { self.new.layer.keys ≡ self.old.layer.keys }
    {
        let Some(live_until) = self.life_of_put(spot, &entry) else {
            return Err(StoErr::Archived);
        };
        self.write(spot, entry, live_until)
    }

    /// Deletes the live entry at a key, if there is one.
    pub(crate) fn del_allowed(&mut self, spot: Spot<'_>) -> Result<(), StoErr>
        requires { IsSpot self.old.layer.keys spot }
        ensures performs { Performs (deletes spot.entry.key.now) result (stored_of self.old) (stored_of self.new) }
        ensures keys { self.new.layer.keys ≡ self.old.layer.keys }
    {
        match self.sight(spot) {
            Sight::Live(_) => (),
            Sight::Absent => return Ok(()),
            Sight::Archived => return Err(StoErr::Archived),
        }
        self.settle(spot, None)
    }

    /// Makes an entry with a given live-until ledger, unless the key has a live entry. Returns whether it made one.
    pub(crate) fn make_allowed(
        &mut self,
        spot: Spot<'_>,
        entry: LedgerEntry,
        live_until: u32,
    ) -> Result<bool, StoErr>
        requires spot { IsSpot self.old.layer.keys spot }
        requires key { spot.key.now ≡ key_of_entry entry }
        requires fits { entry_format.fits entry }
        requires hashed { HasCodeHash entry.data }
        ensures performs { Performs (makes entry live_until) result (stored_of self.old) (stored_of self.new) }
        ensures keys { self.new.layer.keys ≡ self.old.layer.keys }
    {
        match self.sight(spot) {
            Sight::Live(_) => return Ok(false),
            Sight::Absent => (),
            Sight::Archived => return Err(StoErr::Archived),
        }
        match self.write(spot, entry, live_until) {
            Ok(()) => Ok(true),
            Err(e) => Err(e),
        }
    }

    /// Extends the life of a live entry by `extend_to` ledgers from now, if at most `threshold` ledgers are left.
    pub(crate) fn extend_allowed(
        &mut self,
        spot: Spot<'_>,
        threshold: u32,
        extend_to: u32,
    ) -> Result<(), StoErr>
        requires spot { IsSpot self.old.layer.keys spot }
        requires unless_backward { nat_lt extend_to threshold ≡ false }
        ensures performs { Performs (extends spot.entry.key.now threshold extend_to) result (stored_of self.old)
            (stored_of self.new) }
        ensures keys { self.new.layer.keys ≡ self.old.layer.keys }
    {
        let found = match self.sight(spot) {
            Sight::Live(found) => found,
            Sight::Absent => return Err(StoErr::Missing),
            Sight::Archived => return Err(StoErr::Archived),
        };
        let Some(life) = self.life_asked(found.entry, extend_to) else {
            return Err(StoErr::BadExtend(ScError::Storage(ScErrorCode::InvalidAction)));
        };
        if !self.is_longer(found.live_until, threshold, life) {
            return Ok(());
        }
        let Ok(now) = self.living_until(spot, found, life) else {
            return Err(StoErr::NoMemory);
        };
        self.settle(spot, Some(now))
    }
}
