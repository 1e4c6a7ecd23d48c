//! The entries of a ledger at the keys of slots, as one transaction sees and changes them: what an access needs once the slot of
//! its key is known.

ghost use Rattle.std.specs.Prelude.{◌≡◌, ◌≤◌, ◌-◌, ◌^◌, ◌<◌, ◌&&◌, List, Some, None, true, false, length, nat_lt, nat_le};
ghost use Rattle.std.specs.Prelude.{IfOk, IfErr, IfSome, OnOk, OnErr};
ghost use Rattle.std.specs.Option.{option_map};
ghost use Rattle.ledger_types.specs.Key.{key_format};
ghost use Rattle.ledger_types.specs.Entry.{entry_format, key_of as key_of_entry};
ghost use Rattle.ledger_spec.specs.LedgerMap.{find, key_bytes, IsKeptAt, HasCodeHash};
ghost use Rattle.ledger_spec.specs.Seen.{seen};
ghost use Rattle.ledger_spec.specs.Changes.{asked_life, furthest as furthest_in, written as written_in};
ghost use Rattle.ledger_types.specs.declared.key.LedgerKey.{LedgerKey as LedgerKey'};
ghost use Rattle.entry_lookup.specs.Found.{kept_of};
ghost use Rattle.contract_storage.specs.Acts.{sight_seen, life_of_put, IsSeenAt, ran_out};
ghost use Rattle.contract_storage.specs.Differences.{AreDifferences};
ghost use Rattle.contract_storage.specs.Layered.{set_at};
ghost use Rattle.contract_storage.specs.Overlays.{kept_in};
ghost use Rattle.contract_storage.specs.Places.{place_in, IsSpot};
ghost use Rattle.contract_storage.specs.Slotted.{stored_of, IsSlotFor};
ghost use Rattle.contract_storage.specs.Stored.{HasBounds, with_keys, with_map, with_seen, with_snapshot, with_touched};
ghost use Rattle.contract_storage.specs.Stored.{IsHalfReleased, IsReleased, IsRestored};
ghost use Rattle.contract_storage.specs.Touched.{admits, noted, touched_by, AreSpelled, IsNotedIn};
ghost use Rattle.contract_storage.specs.Watched.{see};
ghost use Rattle.contract_storage.specs.declared.access.Access.{Access as Access'};
ghost use Rattle.contract_storage.specs.declared.touched.Touch.{Touch as Touch'};

use crate::access::{Access, StoErr};
use crate::changes::Change;
use crate::layer::{Layer, Shared};
use crate::sight::{Sight, sight_of};
use crate::spot::Spot;
use crate::touched::{Noted, Touch};
use crate::watch::{Moment, Outcome, Watch};
use entry_lookup::{Found, Ground};
use ledger_spec::{Kept, first_life, is_temporary};
use ledger_types::{LedgerEntry, LedgerKey, Settings};
use std::alloc::Global;
use std::marker::Model;
use std::rc::Rc;
use xdr_core::NoMemory;

/// The entries of a ledger at the keys of slots. Either the slots are those of the keys that a footprint declares, or all
/// accesses are allowed, a key gets its slot when it is looked for first, and the touched keys are recorded.
#[derive(Drop)]
pub(crate) struct Entries<'a, G: Ground, W: Watch> {
    layer: Layer<'a, G>,
    /// Whether only the keys with slots are allowed.
    enforces: bool,
    /// Sees each access that is allowed.
    watch: W,
    n: u32,
    lives: Settings,
    alloc: Global,
}

impl<'a, G: Ground, W: Watch> Model for Entries<'a, G, W> {
    ghost use Rattle.std.specs.FinMap.{code};
    ghost use Rattle.std.specs.Coded.{coded_list, coded_ℕ};
    ghost use Rattle.ledger_spec.specs.contracts.Kept as kept;
    ghost use Rattle.ledger_types.specs.contracts.header.Settings as settings;
    ghost use Rattle.ledger_types.specs.contracts.key.LedgerKey as key;
    ghost use Rattle.contract_storage.specs.contracts.touched.Touch as touch;
    ghost use Rattle.contract_storage.specs.Stored.{HasBounds};
    ghost use Rattle.contract_storage.specs.Slotted.{Slotted, slotted_code};

    ghost Value = { Slotted };

    ghost coded = { slotted_code (code (coded_list coded_ℕ) kept.the_row.coded) settings.the_row.coded key.the_row.coded
        touch.the_row.coded };

    ghost view = { λ s. record { layer = s.layer; enforces = s.enforces; seen = W.seen s.watch; n = s.n; lives = s.lives } };

    ghost invariant = { λ s. HasBounds s.n s.lives };
}

// Returns an entry as it is written in ledger `n`.
fn written(n: u32, entry: LedgerEntry, live_until: u32) -> Kept
    ensures { result ≡ record { entry = written_in n entry; live_until = live_until } }
{
    let LedgerEntry { data, .. } = entry;
    Kept {
        entry: LedgerEntry {
            last_modified_ledger_seq: n,
            data,
        },
        live_until,
    }
}

// Returns the last ledger that an extension may reach.
fn furthest(settings: &Settings, n: u32) -> u32
    requires { furthest_in settings.now n < 2 ^ 32 }
    ensures { result ≡ furthest_in settings.now n }
{
    (u64::from(n) + u64::from(settings.max_entry_ttl)).saturating_sub(1) as u32
}

// Whether memory ran out.
fn ran_out<T>(answer: &Result<T, StoErr>) -> bool
    ensures { result ≡ ran_out answer.now }
{
    match answer {
        Ok(_) => false,
        Err(e) => match e {
            StoErr::NoMemory => true,
            StoErr::Undeclared | StoErr::Archived | StoErr::Missing | StoErr::BadExtend(_) => false,
        },
    }
}

// Returns how an access ended.
fn outcome_of<T>(answer: &Result<T, StoErr>) -> Outcome {
    match answer {
        Ok(_) => Outcome::Done,
        Err(e) => match e {
            StoErr::Undeclared | StoErr::Missing | StoErr::NoMemory => Outcome::Missing,
            StoErr::Archived => Outcome::Archived,
            StoErr::BadExtend(_) => Outcome::Refused,
        },
    }
}

// Makes an entry one that can be shared.
fn shared(alloc: Global, kept: Kept) -> Result<Shared, NoMemory>
    ensures { IfOk result (λ shared. kept_in shared ≡ kept) }
{
    let Kept { entry, live_until } = kept;
    Ok(Shared {
        entry: Rc::new(alloc, entry)?,
        live_until,
    })
}

impl<'a, G: Ground, W: Watch> Entries<'a, G, W> {
    /// Gives the entries of a layer to a transaction in ledger `n`.
    pub(crate) fn new(
        alloc: Global,
        layer: Layer<'a, G>,
        enforces: bool,
        n: u32,
        lives: &Settings,
        watch: W,
    ) -> Entries<'a, G, W>
        requires { HasBounds n lives.now }
        ensures { result ≡ record { layer = layer.entry; enforces = enforces; seen = W.seen watch; n = n; lives = lives.now } }
    {
        Entries {
            layer,
            enforces,
            watch,
            n,
            lives: *lives,
            alloc,
        }
    }

    /// Returns the recorded keys in the order of their first access, each with its strongest access.
    #[tactic(auto, unfolding(crate::specs::Slotted::stored_of))]
    pub(crate) fn recorded(&self) -> &[Touch]
        ensures keys { result.now ≡ (stored_of self.now).touched.keys }
        ensures spelled { AreSpelled result.now }
    {
        self.layer.touches()
    }

    /// Whether an access to the key of a slot is allowed.
    #[tactic(auto, unfolding(crate::specs::Slotted::stored_of))]
    pub(crate) fn allows(&self, access: Access, at: usize) -> bool
        requires { at < length self.now.layer.keys }
        ensures { (key : LedgerKey') → place_in key self.now.layer.keys ≡ Some at
            → result ≡ admits (stored_of self.now).declared access key }
    {
        let writes = self.layer.writes(at);
        match access {
            Access::Write => writes || !self.enforces,
            Access::Read => true,
            Access::Extend => true,
        }
    }

    /// Finds the slot of a key, if the access is allowed. A storage that records adds a slot if there is none. That takes memory.
    #[tactic(auto, unfolding(crate::specs::Slotted::stored_of))]
    pub(crate) fn slot_for(&mut self, access: Access, key: &LedgerKey) -> Result<usize, StoErr>
        requires { key_format.fits key.now }
        ensures { IsSlotFor access key.now result self.old self.new }
    {
        match self.layer.slot_of(key) {
            Some(at) => {
                if self.allows(access, at) {
                    Ok(at)
                } else {
                    Err(StoErr::Undeclared)
                }
            }
            None => self.new_slot(key),
        }
    }

    // Adds a slot for a key that has none, if all accesses are allowed.
    #[tactic(auto, unfolding(crate::specs::Slotted::stored_of))]
    fn new_slot(&mut self, key: &LedgerKey) -> Result<usize, StoErr>
        requires fits { key_format.fits key.now }
        requires absent { place_in key.now self.old.layer.keys ≡ None }
        ensures { (access : Access') → IsSlotFor access key.now result self.old self.new }
    {
        if self.enforces {
            return Err(StoErr::Undeclared);
        }
        let Ok(at) = self.layer.add(key, true) else {
            return Err(StoErr::NoMemory);
        };
        Ok(at)
    }

    /// Notes an access that is allowed. Only a storage that records takes memory for it. Running out of memory changes nothing.
    #[tactic(auto, unfolding(crate::specs::Slotted::stored_of))]
    pub(crate) fn note(
        &mut self,
        access: Access,
        spot: Spot<'_>,
        outcome: Outcome,
    ) -> Result<(), NoMemory>
        requires { IsSpot self.old.layer.keys spot }
        ensures ok { OnOk result (stored_of self.new ≡ with_touched (stored_of self.old)
            (noted (stored_of self.old).declared access spot.entry.key.now (stored_of self.old).touched)) }
        ensures keys { self.new.layer.keys ≡ self.old.layer.keys }
        ensures err { OnErr result (((stored_of self.old).declared ≡ None) × (self.new ≡ self.old)) }
    {
        self.note_key(access, spot)?;
        self.watch.accessed(access, spot.key, outcome);
        Ok(())
    }

    /// Notes the key of an access that is allowed, if keys are recorded, and returns how to take that back. The observer is not
    /// told. Running out of memory changes nothing.
    #[tactic(auto, unfolding(crate::specs::Slotted::stored_of))]
    pub(crate) fn note_key(
        &mut self,
        access: Access,
        spot: Spot<'_>,
    ) -> Result<Option<Noted>, NoMemory>
        requires { IsSpot self.old.layer.keys spot }
        ensures ok { OnOk result (stored_of self.new ≡ with_keys (stored_of self.old)
            (touched_by (stored_of self.old).declared access spot.entry.key.now (stored_of self.old).touched.keys)) }
        ensures noted { IfOk result
            (IsNotedIn (stored_of self.old).declared spot.entry.key.now (stored_of self.old).touched.keys) }
        ensures keys { self.new.layer.keys ≡ self.old.layer.keys }
        ensures err { OnErr result (((stored_of self.old).declared ≡ None) × (self.new ≡ self.old)) }
    {
        if self.enforces {
            return Ok(None);
        }
        Ok(Some(self.layer.note(access, spot)?))
    }

    /// Tells the observer what an access finds at a key, if it wants to know.
    pub(crate) fn outcome_at(&self, spot: Spot<'_>) -> Outcome
        requires { IsSpot self.now.layer.keys spot }
    {
        if !self.watch.is_on() {
            return Outcome::Done;
        }
        match self.sight(spot) {
            Sight::Live(_) => Outcome::Done,
            Sight::Absent => Outcome::Missing,
            Sight::Archived => Outcome::Archived,
        }
    }

    /// Tells the observer of a moment of the run.
    pub(crate) fn tell(&mut self, moment: Moment<'_>)
        ensures { self.new ≡ self.old }
    {
        self.watch.told(moment);
    }

    /// Returns the observer.
    #[tactic(auto, unfolding(crate::specs::Slotted::stored_of))]
    pub(crate) fn into_watch(self) -> W
        ensures { W.seen result ≡ (stored_of self.entry).touched.seen }
    {
        let Entries { watch, .. } = self;
        watch
    }

    /// Ends a call whose access was noted and returned `answer`. If memory ran out, the note is taken back. Else the observer is
    /// told.
    #[tactic(auto, unfolding(crate::specs::Slotted::stored_of))]
    pub(crate) fn ended<T: Drop>(
        &mut self,
        noted: Option<Noted>,
        access: Access,
        spot: Spot<'_>,
        answer: Result<T, StoErr>,
    ) -> Result<T, StoErr>
        requires spot { IsSpot self.old.layer.keys spot }
        requires noted { (before : List Touch')
            × ((stored_of self.old).touched.keys ≡ touched_by (stored_of self.old).declared access spot.key.now before)
            × IsNotedIn (stored_of self.old).declared spot.key.now before noted }
        ensures same { result ≡ answer }
        ensures out { ran_out answer ≡ true → (before : List Touch')
            → (stored_of self.old).touched.keys ≡ touched_by (stored_of self.old).declared access spot.entry.key.now before
            → IsNotedIn (stored_of self.old).declared spot.entry.key.now before noted
            → stored_of self.new ≡ with_keys (stored_of self.old) before }
        ensures ends { ran_out answer ≡ false → stored_of self.new
            ≡ with_seen (stored_of self.old) (see access spot.entry.key.now (stored_of self.old).touched.seen) }
    {
        if !ran_out(&answer) {
            self.watch.accessed(access, spot.key, outcome_of(&answer));
            return answer;
        }
        self.forget(spot, noted);
        answer
    }

    // Takes back the note of an access, if there is one.
    fn forget(&mut self, spot: Spot<'_>, noted: Option<Noted>)
        requires spot { IsSpot self.old.layer.keys spot }
        requires noted { (access : Access') × (before : List Touch')
            × ((stored_of self.old).touched.keys ≡ touched_by (stored_of self.old).declared access spot.key.now before)
            × IsNotedIn (stored_of self.old).declared spot.key.now before noted }
        ensures { (access : Access') (before : List Touch')
            → (stored_of self.old).touched.keys ≡ touched_by (stored_of self.old).declared access spot.entry.key.now before
            → IsNotedIn (stored_of self.old).declared spot.entry.key.now before noted
            → stored_of self.new ≡ with_keys (stored_of self.old) before }
    {
        if let Some(noted) = noted {
            self.layer.take_back(spot.at, noted);
        }
    }

    /// Returns what an access finds at a key. It takes no memory.
    #[tactic(auto, unfolding(crate::specs::Slotted::stored_of))]
    pub(crate) fn sight(&self, spot: Spot<'_>) -> Sight<'_>
        requires { IsSpot self.now.layer.keys spot }
        ensures seen { sight_seen result ≡ seen (stored_of self.now).n (stored_of self.now).map spot.entry.key.now }
        ensures kept { IsSeenAt (key_bytes spot.entry.key.now) (sight_seen result) }
    {
        sight_of(self.n, self.layer.find(spot))
    }

    /// Shares the live entry that was found at a key, with another live-until ledger. Only an entry of the ground is cloned.
    #[tactic(auto, unfolding(crate::specs::Slotted::stored_of))]
    pub(crate) fn living_until(
        &self,
        spot: Spot<'_>,
        found: Found<'_>,
        live_until: u32,
    ) -> Result<Shared, NoMemory>
        requires spot { IsSpot self.now.layer.keys spot }
        requires there { find (stored_of self.now).map spot.key.now ≡ Some (kept_of found) }
        ensures { IfOk result (λ shared. kept_in shared ≡ record (kept_of found.entry) { live_until = live_until }) }
    {
        Ok(Shared {
            entry: self.layer.share(self.alloc, spot, found)?,
            live_until,
        })
    }

    /// Returns the live-until ledger of an entry that is put, or `None` if the key is archived.
    #[tactic(auto, unfolding(crate::specs::Slotted::stored_of))]
    pub(crate) fn life_of_put(&self, spot: Spot<'_>, entry: &LedgerEntry) -> Option<u32>
        requires { IsSpot self.now.layer.keys spot }
        ensures { result ≡ life_of_put (seen (stored_of self.now).n (stored_of self.now).map spot.entry.key.now)
            (stored_of self.now).lives (stored_of self.now).n entry.now }
    {
        match self.sight(spot) {
            Sight::Live(found) => Some(found.live_until),
            Sight::Absent => Some(first_life(&self.lives, self.n, entry)),
            Sight::Archived => None,
        }
    }

    /// Returns the live-until ledger that an extension asks for, or `None` if it is too far for a temporary entry.
    #[tactic(auto, unfolding(crate::specs::Slotted::stored_of))]
    pub(crate) fn life_asked(&self, entry: &LedgerEntry, extend_to: u32) -> Option<u32>
        ensures { result ≡ asked_life (stored_of self.now).lives (stored_of self.now).n entry.now extend_to }
    {
        let furthest = furthest(&self.lives, self.n);
        let asked = u64::from(self.n) + u64::from(extend_to);
        if asked <= u64::from(furthest) {
            Some(asked as u32)
        } else if is_temporary(&entry.data) {
            None
        } else {
            Some(furthest)
        }
    }

    /// Whether an extension to the ledger `life` lengthens a life.
    #[tactic(auto, unfolding(crate::specs::Slotted::stored_of))]
    pub(crate) fn is_longer(&self, live_until: u32, threshold: u32, life: u32) -> bool
        ensures { result ≡ (nat_lt live_until life && nat_le (live_until - (stored_of self.now).n) threshold) }
    {
        live_until < life && live_until.saturating_sub(self.n) <= threshold
    }

    /// Writes an entry at its key, with the ledger that is made as its last modified ledger.
    #[tactic(auto, unfolding(crate::specs::Slotted::stored_of))]
    pub(crate) fn write(
        &mut self,
        spot: Spot<'_>,
        entry: LedgerEntry,
        live_until: u32,
    ) -> Result<(), StoErr>
        requires spot { IsSpot self.old.layer.keys spot }
        requires key { spot.key.now ≡ key_of_entry entry }
        requires fits { entry_format.fits entry }
        requires hashed { HasCodeHash entry.data }
        ensures ok { OnOk result (stored_of self.new ≡ with_map (stored_of self.old)
            (set_at (stored_of self.old).map (key_bytes spot.entry.key.now)
            (Some (record { entry = written_in (stored_of self.old).n entry; live_until = live_until })))) }
        ensures keys { self.new.layer.keys ≡ self.old.layer.keys }
        ensures err { IfErr result (λ e. e ≡ StoErr.NoMemory) }
        ensures stays { OnErr result (stored_of self.new ≡ stored_of self.old) }
    {
        let kept = written(self.n, entry, live_until);
        let Ok(now) = shared(self.alloc, kept) else {
            return Err(StoErr::NoMemory);
        };
        self.settle(spot, Some(now))
    }

    /// Writes an entry at a key, or removes the entry there.
    #[tactic(auto, unfolding(crate::specs::Slotted::stored_of))]
    pub(crate) fn settle(&mut self, spot: Spot<'_>, now: Option<Shared>) -> Result<(), StoErr>
        requires spot { IsSpot self.old.layer.keys spot }
        requires kept { IfSome now (λ shared. IsKeptAt (key_bytes spot.key.now) (kept_in shared)) }
        ensures ok { OnOk result (stored_of self.new ≡ with_map (stored_of self.old)
            (set_at (stored_of self.old).map (key_bytes spot.entry.key.now) (option_map kept_in now))) }
        ensures keys { self.new.layer.keys ≡ self.old.layer.keys }
        ensures err { IfErr result (λ e. e ≡ StoErr.NoMemory) }
        ensures stays { OnErr result (stored_of self.new ≡ stored_of self.old) }
    {
        match self.layer.write(spot, now) {
            Ok(()) => Ok(()),
            Err(_) => Err(StoErr::NoMemory),
        }
    }

    /// Opens a snapshot. Running out of memory changes nothing.
    #[tactic(auto, unfolding(crate::specs::Slotted::stored_of))]
    pub(crate) fn snapshot(&mut self) -> Result<(), NoMemory>
        ensures ok { OnOk result (stored_of self.new ≡ with_snapshot (stored_of self.old)) }
        ensures err { OnErr result (stored_of self.new ≡ stored_of self.old) }
    {
        self.layer.open(self.alloc)
    }

    /// Undoes all writes since the newest open snapshot, and closes it.
    #[tactic(auto, unfolding(crate::specs::Slotted::stored_of))]
    pub(crate) fn restore(&mut self)
        requires { 1 ≤ length (stored_of self.old).snapshots }
        ensures { IsRestored (stored_of self.old) (stored_of self.new) }
    {
        self.layer.back();
    }

    /// Closes the newest open snapshot, and keeps the writes since.
    #[tactic(auto, unfolding(crate::specs::Slotted::stored_of))]
    pub(crate) fn release(&mut self) -> Result<(), NoMemory>
        requires { 1 ≤ length (stored_of self.old).snapshots }
        ensures ok { OnOk result (IsReleased (stored_of self.old) (stored_of self.new)) }
        ensures err { OnErr result (IsHalfReleased (stored_of self.old) (stored_of self.new)) }
    {
        self.layer.close()
    }

    /// Returns the changes from the ground's map to the present one.
    #[tactic(auto, unfolding(crate::specs::Slotted::stored_of))]
    pub(crate) fn changes(&self) -> Result<Vec<Change>, NoMemory>
        ensures { IfOk result (λ changes. AreDifferences (stored_of self.now).base (stored_of self.now).map changes.items) }
    {
        self.layer.changes(self.alloc)
    }
}
