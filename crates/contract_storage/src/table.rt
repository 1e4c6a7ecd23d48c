//! The table of slots: keys, each found by one search, with what the ground has at them and where they were touched.

ghost use Rattle.std.specs.Prelude.{◌≡◌, ◌<◌, ◌++◌, ◌∷◌, [], List, Some, None, length, slice_get, IfOk, IfSome, OnOk, OnErr};
ghost use Rattle.std.specs.Option.{option_map};
ghost use Rattle.ledger_types.specs.Key.{key_format};
ghost use Rattle.ledger_spec.specs.LedgerMap.{find as find_in, key_bytes, IsKeptAt};
ghost use Rattle.entry_lookup.specs.Found.{kept_of};
ghost use Rattle.contract_storage.specs.Places.{place_in, IsSpot};
ghost use Rattle.contract_storage.specs.Listed.{WasNoted};
ghost use Rattle.contract_storage.specs.Touched.{touch, index_in, AreSpelled, IsNoted};
ghost use Rattle.contract_storage.specs.declared.touched.Touch.{Touch as Touch'};

use crate::access::Access;
use crate::spot::Spot;
use crate::touched::{Noted, Touch, stronger};
use crate::wide::{Wide, are_same, wide_value};
use entry_lookup::{Found, Ground};
use ledger_types::LedgerKey;
use std::alloc::Global;
use std::collections::BTreeMap;
use std::marker::Model;
use std::slice::from_ref;
use value_paths::Cases;
use xdr_core::NoMemory;

/// The highest number of keys that an XDR list can have.
const MOST_KEYS: usize = 4_294_967_295;

/// A key, and what never changes about it.
#[derive(Drop)]
pub(crate) struct Slot<'a> {
    pub key: LedgerKey,
    /// Whether the key is read-write.
    pub writes: bool,
    /// What the ground has at the key.
    pub below: Option<Found<'a>>,
}

/// Keys by the numbers of their slots. A search takes O(log n) comparisons of keys, and a question about a slot by its number
/// takes none. Each key is within its XDR format. At most 2^32 - 1 keys are touched, so a list of them is within its XDR format.
#[derive(Drop)]
pub(crate) struct Table<'a, G: Ground> {
    pub base: &'a G,
    pub slots: Vec<Slot<'a>>,
    /// The number of the slot of each key.
    pub index: BTreeMap<LedgerKey, usize>,
    /// Tells wide keys apart. What it says is not relied on.
    pub wide: Cases,
    /// The index of the key of each slot among the touched keys.
    pub marks: Vec<Option<usize>>,
    /// The touched keys in the order of their first access.
    pub touches: Vec<Touch>,
}

impl<'a, G: Ground> Model for Table<'a, G> {
    ghost use Rattle.std.specs.FinMap.{code};
    ghost use Rattle.std.specs.Coded.{coded_list, coded_ℕ};
    ghost use Rattle.ledger_spec.specs.contracts.Kept as kept;
    ghost use Rattle.ledger_types.specs.contracts.key.LedgerKey as key;
    ghost use Rattle.contract_storage.specs.contracts.touched.Touch as touch;
    ghost use Rattle.contract_storage.specs.Listed.{Listed, listed_code, keys_in, IsTable};

    ghost Value = { Listed };

    ghost coded = { listed_code (code (coded_list coded_ℕ) kept.the_row.coded) key.the_row.coded touch.the_row.coded };

    ghost view = { λ t. record { base = G.map t.base.now; keys = keys_in t.slots.items; touches = t.touches.items } };

    ghost invariant = { λ t. IsTable (G.map t.base.now) t.index.entries t.slots.items t.marks.items t.touches.items };
}

/// Finds the entry at a key in the ground.
fn find_below<'a, G: Ground>(base: &'a G, key: &LedgerKey) -> Option<Found<'a>>
    requires { key_format.fits key.now }
    ensures found { option_map kept_of result ≡ find_in (G.map base.now) key.now }
    ensures kept { IfSome result (λ found. IsKeptAt (key_bytes key.now) (kept_of found)) }
{
    base.find(key)
}

impl<'a, G: Ground> Table<'a, G> {
    /// Makes a table without slots.
    pub(crate) fn new(alloc: Global, base: &'a G) -> Table<'a, G>
        ensures { result ≡ record { base = G.map base.now; keys = []; touches = [] } }
    {
        Table {
            base,
            slots: Vec::new(alloc),
            index: BTreeMap::new(alloc),
            wide: Cases::new(alloc),
            marks: Vec::new(alloc),
            touches: Vec::new(alloc),
        }
    }

    /// Returns the touched keys.
    pub(crate) fn touches(&self) -> &[Touch]
        ensures keys { result.now ≡ self.now.touches }
        ensures spelled { AreSpelled result.now }
    {
        self.touches.as_slice()
    }

    /// Finds the slot of a key. A wide key that has one is compared with one other key of its size. It takes no memory.
    pub(crate) fn find(&self, key: &LedgerKey) -> Option<usize>
        ensures { result ≡ place_in key.now self.now.keys }
    {
        match self.find_wide(key) {
            Some(at) => Some(at),
            None => self.index.get(key).copied(),
        }
    }

    /// Finds the slot of a wide key.
    fn find_wide(&self, key: &LedgerKey) -> Option<usize>
        ensures { IfSome result (λ at. Some at ≡ place_in key.now self.now.keys) }
    {
        let value = wide_value(key)?;
        let like = self
            .wide
            .like(&Wide { slots: &self.slots }, from_ref(value));
        for at in like {
            if let Some(found) = self.found_at(*at, key) {
                return Some(found);
            }
        }
        None
    }

    /// Returns the number of a slot if its key is this one.
    fn found_at(&self, at: usize, key: &LedgerKey) -> Option<usize>
        ensures { IfSome result (λ found. Some found ≡ place_in key.now self.now.keys) }
    {
        if at < self.slots.len() && are_same(&self.slots[at].key, key) {
            Some(at)
        } else {
            None
        }
    }

    /// Whether the key of a slot is read-write.
    pub(crate) fn writes(&self, at: usize) -> bool
        requires { at < length self.now.keys }
        ensures { option_map (λ k. k.1) (slice_get self.now.keys at) ≡ Some result }
    {
        self.slots[at].writes
    }

    /// Returns what the ground has at a key.
    pub(crate) fn below(&self, spot: Spot<'_>) -> Option<Found<'a>>
        requires { IsSpot self.now.keys spot }
        ensures found { option_map kept_of result ≡ find_in self.now.base spot.entry.key.now }
        ensures kept { IfSome result (λ found. IsKeptAt (key_bytes spot.entry.key.now) (kept_of found)) }
    {
        self.slots[spot.at].below
    }

    /// Adds a slot for a key that has none, and returns its number. Running out of memory changes nothing.
    pub(crate) fn add(&mut self, key: &LedgerKey, writes: bool) -> Result<usize, NoMemory>
        requires fits { key_format.fits key.now }
        requires absent { place_in key.now self.old.keys ≡ None }
        ensures ok { OnOk result (self.new ≡ record self.old { keys = self.old.keys ++ (key.now, writes) ∷ [] }) }
        ensures number { IfOk result (λ number. number ≡ length self.old.keys) }
        ensures err { OnErr result (self.new ≡ self.old) }
    {
        let named = key.clone()?;
        let again = key.clone()?;
        let below = find_below(self.base, key);
        self.slots.reserve(1)?;
        self.marks.reserve(1)?;
        let number = self.slots.len();
        let _none = self.index.insert(named, number)?;
        self.slots.push(Slot {
            key: again,
            writes,
            below,
        })?;
        self.marks.push(None)?;
        self.know_wide(number);
        Ok(number)
    }

    /// Tells a wide key from the others from now on. If memory runs out, searches may take longer.
    fn know_wide(&mut self, number: usize)
        ensures { self.new ≡ self.old }
    {
        let slots = Wide { slots: &self.slots };
        if slots.has(number) {
            let _known = self.wide.add(&slots, number);
        }
    }

    /// Adds an access to the touched keys, and returns how to take it back. It fails, and changes nothing, if memory runs out or
    /// a new key comes after 2^32 - 1 others.
    pub(crate) fn note(&mut self, access: Access, spot: Spot<'_>) -> Result<Noted, NoMemory>
        requires { IsSpot self.old.keys spot }
        ensures ok { OnOk result (self.new ≡ record self.old { touches = touch access spot.entry.key.now self.old.touches }) }
        ensures noted { IfOk result (IsNoted spot.entry.key.now self.old.touches) }
        ensures err { OnErr result (self.new ≡ self.old) }
    {
        match self.mark(spot) {
            Some(i) => {
                let before = self.touches[i].access;
                self.touches[i].access = stronger(before, access);
                Ok(Noted::Again(before))
            }
            None => {
                self.note_first(access, spot)?;
                Ok(Noted::First)
            }
        }
    }

    /// Returns the index of a key among the touched keys, if it was touched.
    fn mark(&self, spot: Spot<'_>) -> Option<usize>
        requires { IsSpot self.now.keys spot }
        ensures { result ≡ index_in spot.entry.key.now self.now.touches }
    {
        self.marks[spot.at]
    }

    /// Adds the first access to a key. It fails, and changes nothing, if memory runs out or there are 2^32 - 1 keys already.
    fn note_first(&mut self, access: Access, spot: Spot<'_>) -> Result<(), NoMemory>
        requires spot { IsSpot self.old.keys spot }
        requires first { index_in spot.key.now self.old.touches ≡ None }
        ensures ok { OnOk result (self.new ≡ record self.old { touches = touch access spot.entry.key.now self.old.touches }) }
        ensures err { OnErr result (self.new ≡ self.old) }
    {
        if self.touches.len() >= MOST_KEYS {
            return Err(NoMemory);
        }
        let key = spot.key.clone()?;
        self.touches.reserve(1)?;
        let index = self.touches.len();
        self.marks[spot.at] = Some(index);
        self.touches.push(Touch { key, access })?;
        Ok(())
    }

    /// Takes back the last access that was added, which was to the key of this slot. It takes no memory.
    pub(crate) fn take_back(&mut self, at: usize, noted: Noted)
        requires { (before : List Touch') × WasNoted self.old.keys at noted before self.old.touches }
        ensures { (before : List Touch') → WasNoted self.old.keys at noted before self.old.touches
            → self.new ≡ record self.old { touches = before } }
    {
        match noted {
            Noted::First => {
                self.touches.pop();
                self.marks[at] = None;
            }
            Noted::Again(before) => {
                if let Some(i) = self.marks[at] {
                    self.touches[i].access = before;
                }
            }
        }
    }
}
