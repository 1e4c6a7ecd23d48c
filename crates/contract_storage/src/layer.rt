//! Writes over the entries of a ledger, and how to undo them.

ghost use Rattle.std.specs.Prelude.{◌≡◌, ◌≤◌, ◌<◌, ◌++◌, ◌∷◌, [], Bool, List, OnOk, OnErr, IfOk, IfErr, IfSome, Some, None};
ghost use Rattle.std.specs.Prelude.{length, slice_get};
ghost use Rattle.std.specs.List.{AllByRecursion};
ghost use Rattle.std.specs.Option.{option_map};
ghost use Rattle.ledger_types.specs.Key.{key_format};
ghost use Rattle.ledger_spec.specs.LedgerMap.{LedgerMap, find as find_in, key_bytes, IsKeptAt};
ghost use Rattle.ledger_types.specs.declared.key.LedgerKey.{LedgerKey as LedgerKey'};
ghost use Rattle.entry_lookup.specs.Found.{kept_of};
ghost use Rattle.contract_storage.specs.Layered.{unwritten, with_slots, with_snapshot, with_touches, with_write};
ghost use Rattle.contract_storage.specs.Layered.{HasOtherMaps, IsMixed};
ghost use Rattle.contract_storage.specs.Listed.{WasNoted};
ghost use Rattle.contract_storage.specs.Overlays.{back, kept_in, overlay_of, saved_in, undone, with_saved, with_state};
ghost use Rattle.contract_storage.specs.Overlays.{AreMixed, IsState, IsWithin};
ghost use Rattle.contract_storage.specs.Places.{place_in, IsSpot};
ghost use Rattle.contract_storage.specs.Touched.{touch, AreSpelled, IsNoted};
ghost use Rattle.contract_storage.specs.Differences.{AreDifferences};
ghost use Rattle.contract_storage.specs.declared.layer.Overlay.{Overlay as Overlay'};
ghost use Rattle.contract_storage.specs.declared.touched.Touch.{Touch as Touch'};

use crate::access::Access;
use crate::changes::{Change, changes_of};
use crate::spot::Spot;
use crate::table::Table;
use crate::touched::{Noted, Touch};
use entry_lookup::{Found, Ground};
use ledger_types::{LedgerEntry, LedgerKey};
use std::alloc::Global;
use std::collections::BTreeMap;
use std::marker::Model;
use std::mem::replace;
use std::rc::Rc;
use xdr_core::NoMemory;

/// An entry with its live-until ledger. A longer life shares the entry with what it replaces. Only the first extension of an
/// entry of the ground copies it.
#[derive(Drop)]
pub(crate) struct Shared {
    pub entry: Rc<LedgerEntry>,
    pub live_until: u32,
}

/// The state of a slot.
#[derive(Drop)]
pub(crate) enum Overlay {
    /// The key has the entry of the ground, if there is one.
    Same,
    /// The key has no entry.
    Gone,
    /// The key has this entry.
    Now(Shared),
}

/// How to undo a write: the number of its slot, with the state before.
#[derive(Drop)]
pub(crate) struct Undo {
    pub at: usize,
    pub before: Overlay,
}

/// What a restore of an open snapshot puts back: each slot that was written since, with its state at the snapshot. Slots that
/// were written while a newer snapshot was open come to it when that one is released.
#[derive(Drop)]
pub(crate) struct Saved {
    pub states: BTreeMap<usize, Overlay>,
}

/// The entries of a ledger at the keys of slots, with writes over them. A write takes memory only for an open snapshot, and a
/// restore takes none.
#[derive(Drop)]
pub(crate) struct Layer<'a, G: Ground> {
    table: Table<'a, G>,
    /// The state of each slot.
    states: Vec<Overlay>,
    /// The open snapshots, the oldest first.
    saved: Vec<Saved>,
}

impl<'a, G: Ground> Model for Layer<'a, G> {
    ghost use Rattle.std.specs.FinMap.{code};
    ghost use Rattle.std.specs.Coded.{coded_list, coded_ℕ};
    ghost use Rattle.ledger_spec.specs.contracts.Kept as kept;
    ghost use Rattle.ledger_types.specs.contracts.key.LedgerKey as key;
    ghost use Rattle.contract_storage.specs.contracts.touched.Touch as touch;
    ghost use Rattle.contract_storage.specs.Layered.{Layered, layered_code};

    ghost Value = { Layered };

    ghost coded = { layered_code (code (coded_list coded_ℕ) kept.the_row.coded) key.the_row.coded touch.the_row.coded };

    ghost use Rattle.contract_storage.specs.Overlays.{layered, saved_in, IsSound};

    ghost view = { λ s. layered s.table.base s.table.keys s.table.touches s.states.items (saved_in s.saved.items) };

    ghost invariant = { λ s. IsSound s.table.keys s.states.items (saved_in s.saved.items) };
}

impl<'a, G: Ground> Layer<'a, G> {
    /// Makes a layer without slots.
    pub(crate) fn new(alloc: Global, base: &'a G) -> Layer<'a, G>
        ensures { result ≡ unwritten (G.map base.now) [] }
    {
        Layer {
            table: Table::new(alloc, base),
            states: Vec::new(alloc),
            saved: Vec::new(alloc),
        }
    }

    /// Returns the touched keys.
    pub(crate) fn touches(&self) -> &[Touch]
        ensures keys { result.now ≡ self.now.touches }
        ensures spelled { AreSpelled result.now }
    {
        self.table.touches()
    }

    /// Finds the slot of a key. It takes no memory.
    pub(crate) fn slot_of(&self, key: &LedgerKey) -> Option<usize>
        ensures { result ≡ place_in key.now self.now.keys }
    {
        self.table.find(key)
    }

    /// Whether the key of a slot is read-write.
    pub(crate) fn writes(&self, at: usize) -> bool
        requires { at < length self.now.keys }
        ensures { option_map (λ k. k.1) (slice_get self.now.keys at) ≡ Some result }
    {
        self.table.writes(at)
    }

    /// Adds a slot for a key that has none, and returns its number. Running out of memory changes nothing.
    pub(crate) fn add(&mut self, key: &LedgerKey, writes: bool) -> Result<usize, NoMemory>
        requires fits { key_format.fits key.now }
        requires absent { place_in key.now self.old.keys ≡ None }
        ensures ok { OnOk result (self.new ≡ with_slots self.old (self.old.keys ++ (key.now, writes) ∷ [])) }
        ensures number { IfOk result (λ number. number ≡ length self.old.keys) }
        ensures err { OnErr result (self.new ≡ self.old) }
    {
        self.states.reserve(1)?;
        let number = self.table.add(key, writes)?;
        self.states.push(Overlay::Same)?;
        Ok(number)
    }

    /// Adds an access to the touched keys, and returns how to take it back. Running out of memory changes nothing.
    pub(crate) fn note(&mut self, access: Access, spot: Spot<'_>) -> Result<Noted, NoMemory>
        requires { IsSpot self.old.keys spot }
        ensures ok { OnOk result (self.new ≡ with_touches self.old (touch access spot.entry.key.now self.old.touches)) }
        ensures noted { IfOk result (IsNoted spot.entry.key.now self.old.touches) }
        ensures err { OnErr result (self.new ≡ self.old) }
    {
        self.table.note(access, spot)
    }

    /// Takes back the last access that was added, which was to the key of this slot. It takes no memory.
    pub(crate) fn take_back(&mut self, at: usize, noted: Noted)
        requires { (before : List Touch') × WasNoted self.old.keys at noted before self.old.touches }
        ensures { (before : List Touch') → WasNoted self.old.keys at noted before self.old.touches
            → self.new ≡ with_touches self.old before }
    {
        self.table.take_back(at, noted);
    }

    /// Finds the entry at a key. It takes no memory.
    pub(crate) fn find(&self, spot: Spot<'_>) -> Option<Found<'_>>
        requires { IsSpot self.now.keys spot }
        ensures found { option_map kept_of result ≡ find_in self.now.map spot.entry.key.now }
        ensures kept { IfSome result (λ found. IsKeptAt (key_bytes spot.entry.key.now) (kept_of found)) }
    {
        match &self.states[spot.at] {
            Overlay::Same => self.table.below(spot),
            Overlay::Gone => None,
            Overlay::Now(shared) => Some(found_of(shared)),
        }
    }

    /// Shares the entry that was found at a key. Only an entry of the ground is cloned.
    pub(crate) fn share(
        &self,
        alloc: Global,
        spot: Spot<'_>,
        found: Found<'_>,
    ) -> Result<Rc<LedgerEntry>, NoMemory>
        requires spot { IsSpot self.now.keys spot }
        requires there { find_in self.now.map spot.key.now ≡ Some (kept_of found) }
        ensures { IfOk result (λ entry. entry.value ≡ (kept_of found.entry).entry) }
    {
        match &self.states[spot.at] {
            Overlay::Same | Overlay::Gone => cloned(alloc, found.entry),
            Overlay::Now(shared) => Ok(shared.entry.clone()?),
        }
    }

    /// Writes an entry at a key, or removes the entry there. It takes memory only for the first write of the slot since the
    /// newest open snapshot. Running out of memory changes nothing.
    pub(crate) fn write(&mut self, spot: Spot<'_>, now: Option<Shared>) -> Result<(), NoMemory>
        requires spot { IsSpot self.old.keys spot }
        requires kept { IfSome now (λ shared. IsKeptAt (key_bytes spot.key.now) (kept_in shared)) }
        ensures ok { OnOk result (self.new ≡ with_write self.old (key_bytes spot.entry.key.now) (option_map kept_in now)) }
        ensures err { OnErr result (self.new ≡ self.old) }
    {
        let before = replace(&mut self.states[spot.at], overlay_of(now));
        match save(&mut self.saved, spot.at, before) {
            Ok(()) => Ok(()),
            Err(before) => {
                self.states[spot.at] = before;
                Err(NoMemory)
            }
        }
    }

    /// Opens a snapshot. Running out of memory changes nothing.
    pub(crate) fn open(&mut self, alloc: Global) -> Result<(), NoMemory>
        ensures ok { OnOk result (self.new ≡ with_snapshot self.old) }
        ensures err { OnErr result (self.new ≡ self.old) }
    {
        let states = BTreeMap::new(alloc);
        self.saved.push(Saved { states })?;
        Ok(())
    }

    /// Goes back to the newest open snapshot, and closes it. It takes no memory, and O(log n) time for each slot that was written
    /// since.
    pub(crate) fn back(&mut self)
        requires { 1 ≤ length self.old.snapshots }
        ensures back { self.old.snapshots ≡ self.new.snapshots ++ self.new.map ∷ [] }
        ensures maps { HasOtherMaps self.old self.new }
    {
        if let Some(saved) = self.saved.pop() {
            put_all_back(&mut self.states, saved.states);
        }
    }

    /// Closes the newest open snapshot. The writes since stay, and an older snapshot can undo them. It takes O(log n) time for
    /// each slot that was written since. If memory runs out, some of these slots have their entries at the snapshot again.
    pub(crate) fn close(&mut self) -> Result<(), NoMemory>
        requires { 1 ≤ length self.old.snapshots }
        ensures closed { (map : LedgerMap) × (self.old.snapshots ≡ self.new.snapshots ++ map ∷ [])
            × OnErr result (IsMixed self.old.map map self.new.map) }
        ensures map { OnOk result (self.new.map ≡ self.old.map) }
        ensures maps { HasOtherMaps self.old self.new }
    {
        let Some(mut newest) = self.saved.pop() else {
            return Ok(());
        };
        let open = self.saved.len();
        if open == 0 {
            return Ok(());
        }
        match merge(&mut self.saved[open - 1].states, &mut newest.states) {
            Ok(()) => Ok(()),
            Err(undo) => {
                put_all_back(&mut self.states, newest.states);
                put_back(&mut self.states, undo);
                Err(NoMemory)
            }
        }
    }

    /// Returns the changes from the ground's map to the present one.
    pub(crate) fn changes(&self, alloc: Global) -> Result<Vec<Change>, NoMemory>
        ensures { IfOk result (λ changes. AreDifferences self.now.base self.now.map changes.items) }
    {
        changes_of(alloc, &self.table, self.states.as_slice())
    }
}

// Returns what a write of this entry leaves at its slot.
fn overlay_of(now: Option<Shared>) -> Overlay
    ensures { result ≡ overlay_of now }
{
    match now {
        None => Overlay::Gone,
        Some(shared) => Overlay::Now(shared),
    }
}

// Clones an entry of the ground, so that it can be shared.
fn cloned(alloc: Global, entry: &LedgerEntry) -> Result<Rc<LedgerEntry>, NoMemory>
    ensures { IfOk result (λ clone. clone.value ≡ entry.now) }
{
    Ok(Rc::new(alloc, entry.clone()?)?)
}

// Borrows an entry.
fn found_of(shared: &Shared) -> Found<'_>
    ensures { kept_of result ≡ kept_in shared.now }
{
    Found {
        entry: shared.entry.as_ref(),
        live_until: shared.live_until,
    }
}

// Gives the newest open snapshot the state that a slot had before a write, unless it has one of the slot. If memory runs out, the
// state comes back.
fn save(saved: &mut Vec<Saved>, at: usize, before: Overlay) -> Result<(), Overlay>
    ensures ok { OnOk result (saved_in saved.new.items
        ≡ with_saved (saved_in saved.old.items) (record { at = at; before = before })) }
    ensures err { IfErr result (λ back. back ≡ before) }
    ensures stays { OnErr result (saved_in saved.new.items ≡ saved_in saved.old.items) }
{
    let open = saved.len();
    if open == 0 {
        return Ok(());
    }
    match keep_first(&mut saved[open - 1].states, Undo { at, before }) {
        Ok(()) => Ok(()),
        Err(Undo { before, .. }) => Err(before),
    }
}

// Keeps the state of a slot, unless there is one of the slot. If memory runs out, the state comes back.
fn keep_first(states: &mut BTreeMap<usize, Overlay>, undo: Undo) -> Result<(), Undo>
    ensures ok { OnOk result (states.new.entries ≡ with_state states.old.entries undo) }
    ensures err { IfErr result (λ back. back ≡ undo) }
    ensures stays { OnErr result (states.new.entries ≡ states.old.entries) }
{
    if states.contains_key(&undo.at) {
        return Ok(());
    }
    let Undo { at, before } = undo;
    match states.insert(at, before) {
        Ok(_) => Ok(()),
        Err(failed) => {
            let (at, before) = failed.value;
            Err(Undo { at, before })
        }
    }
}

// Moves the states of a snapshot that is released to the next older one, which keeps its own. If memory runs out, one state comes
// back, and others stay.
fn merge(
    older: &mut BTreeMap<usize, Overlay>,
    newest: &mut BTreeMap<usize, Overlay>,
) -> Result<(), Undo>
    ensures ok { OnOk result ((now : List Overlay')
        → back older.new.entries now ≡ back older.old.entries (back newest.old.entries now)) }
    ensures err { IfErr result (λ undo. (now : List Overlay')
        → back older.new.entries (back (undone undo ∷ newest.new.entries) now)
        ≡ back older.old.entries (back newest.old.entries now)) }
    ensures states { (keys : List (LedgerKey' × Bool)) → AllByRecursion (IsState keys) older.old.entries
        → AllByRecursion (IsState keys) newest.old.entries → AllByRecursion (IsState keys) older.new.entries
        × AllByRecursion (IsState keys) newest.new.entries × IfErr result (λ undo. IsState keys (undone undo)) }
    ensures mixed { IfErr result (λ undo. (now : List Overlay')
        → AreMixed now (back newest.old.entries now) (back (undone undo ∷ newest.new.entries) now)) }
{
    while let Some((at, before)) = newest.pop_first() {
        keep_first(older, Undo { at, before })?;
    }
    Ok(())
}

// Undoes the writes of these slots. It takes no memory.
fn put_all_back(states: &mut Vec<Overlay>, saved: BTreeMap<usize, Overlay>)
    requires { AllByRecursion (IsWithin (length states.old.items)) saved.entries }
    ensures { states.new.items ≡ back saved.entries states.old.items }
{
    let mut saved = saved;
    while let Some((at, before)) = saved.pop_last() {
        put_back(states, Undo { at, before });
    }
}

// Undoes one write. It takes no memory.
fn put_back(states: &mut Vec<Overlay>, undo: Undo)
    requires { undo.at < length states.old.items }
    ensures { states.new.items ≡ back (undone undo ∷ []) states.old.items }
{
    let Undo { at, before } = undo;
    states[at] = before;
}
