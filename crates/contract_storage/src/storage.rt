//! The storage: its start, its snapshots, and what it changed and recorded. Its accesses are in `calls`.

ghost use Rattle.std.specs.Prelude.{◌≡◌, ◌≤◌, All, None, length, IfOk, IsSomeAnd, OnOk, OnErr};
ghost use Rattle.ledger_types.specs.Key.{key_format};
ghost use Rattle.contract_storage.specs.Differences.{AreDifferences};
ghost use Rattle.contract_storage.specs.Footprint.{IsFootprint};
ghost use Rattle.contract_storage.specs.Stored.{HasBounds, starting, with_snapshot};
ghost use Rattle.contract_storage.specs.Stored.{IsHalfReleased, IsReleased, IsRestored};
ghost use Rattle.contract_storage.specs.Touched.{AreSpelled};

use crate::changes::Change;
use crate::entries::Entries;
use crate::footprint::declared_layer;
use crate::layer::Layer;
use crate::touched::Touch;
use crate::watch::{Moment, Watch};
use entry_lookup::Ground;
use ledger_types::{LedgerKey, Settings};
use std::alloc::Global;
use std::marker::Model;
use xdr_core::NoMemory;

/// The entries of a ledger as one transaction sees and changes them. Changes since a snapshot can be undone. Either the footprint
/// of the transaction decides which accesses are allowed, or all are allowed and the touched keys are recorded.
///
/// Each declared or recorded key has a slot, with what the ledger has at the key and what was written. An access searches for its
/// key once, among the keys with slots, in O(log n) comparisons. The first access to a recorded key also looks it up in the
/// ledger, and searches again to add its slot. Contracts of a storage do not see its slots.
#[derive(Drop)]
pub struct Storage<'a, G: Ground, W: Watch> {
    pub(crate) entries: Entries<'a, G, W>,
}

impl<'a, G: Ground, W: Watch> Model for Storage<'a, G, W> {
    ghost use Rattle.std.specs.FinMap.{code};
    ghost use Rattle.std.specs.Coded.{coded_list, coded_ℕ};
    ghost use Rattle.ledger_spec.specs.contracts.Kept as kept;
    ghost use Rattle.ledger_types.specs.contracts.header.Settings as settings;
    ghost use Rattle.ledger_types.specs.contracts.key.LedgerKey as key;
    ghost use Rattle.contract_storage.specs.contracts.touched.Touch as touch;
    ghost use Rattle.contract_storage.specs.Stored.{Stored, stored_code};
    ghost use Rattle.contract_storage.specs.Slotted.{stored_of};

    ghost Value = { Stored };

    ghost coded = { stored_code (code (coded_list coded_ℕ) kept.the_row.coded) settings.the_row.coded key.the_row.coded
        touch.the_row.coded };

    ghost view = { λ s. stored_of s.entries };
}

impl<'a, G: Ground, W: Watch> Storage<'a, G, W> {
    /// Makes the storage of a transaction in ledger `n`, which allows the accesses that a footprint declares.
    #[tactic(auto, unfolding(crate::specs::Slotted::stored_of))]
    pub fn enforcing(
        alloc: Global,
        base: &'a G,
        n: u32,
        lives: &Settings,
        read_only: &[LedgerKey],
        read_write: &[LedgerKey],
        watch: W,
    ) -> Result<Storage<'a, G, W>, NoMemory>
        requires bounds { HasBounds n lives.now }
        requires read_only { All (λ key. key_format.fits key) read_only.now }
        requires read_write { All (λ key. key_format.fits key) read_write.now }
        ensures starts { IfOk result (λ s. s ≡ starting (G.map base.now) n lives.now s.declared (W.seen watch)) }
        ensures declared { IfOk result (λ s. IsSomeAnd s.declared (IsFootprint read_only.now read_write.now)) }
    {
        let layer = declared_layer(alloc, base, read_only, read_write)?;
        Ok(Storage {
            entries: Entries::new(alloc, layer, true, n, lives, watch),
        })
    }

    /// Makes the storage of a transaction in ledger `n`, which allows all accesses and records the keys that they touch.
    #[tactic(auto, unfolding(crate::specs::Slotted::stored_of))]
    pub fn recording(
        alloc: Global,
        base: &'a G,
        n: u32,
        lives: &Settings,
        watch: W,
    ) -> Storage<'a, G, W>
        requires bounds { HasBounds n lives.now }
        ensures { result ≡ starting (G.map base.now) n lives.now None (W.seen watch) }
    {
        Storage {
            entries: Entries::new(alloc, Layer::new(alloc, base), false, n, lives, watch),
        }
    }

    /// Returns the recorded keys in the order of their first access, each with its strongest access. Write is above Extend, and
    /// Extend is above Read. A storage that enforces a footprint records none.
    pub fn recorded(&self) -> &[Touch]
        ensures keys { result.now ≡ self.now.touched.keys }
        ensures spelled { AreSpelled result.now }
    {
        self.entries.recorded()
    }

    /// Tells the observer of a moment of the run.
    pub fn tell(&mut self, moment: Moment<'_>)
        ensures { self.new ≡ self.old }
    {
        self.entries.tell(moment);
    }

    /// Returns the observer.
    pub fn into_watch(self) -> W
        ensures { W.seen result ≡ self.entry.touched.seen }
    {
        let Storage { entries } = self;
        entries.into_watch()
    }

    /// Opens a snapshot, in amortised O(1). `restore` or `release` closes it. Snapshots close in reverse order: the newest first.
    /// Running out of memory changes nothing.
    pub fn snapshot(&mut self) -> Result<(), NoMemory>
        ensures ok { OnOk result (self.new ≡ with_snapshot self.old) }
        ensures err { OnErr result (self.new ≡ self.old) }
    {
        self.entries.snapshot()
    }

    /// Undoes all writes since the newest open snapshot, and closes it, in O(log n) for each key that was written since, without
    /// comparing keys. Recorded keys stay. It takes no memory.
    pub fn restore(&mut self)
        requires { 1 ≤ length self.old.snapshots }
        ensures { IsRestored self.old self.new }
    {
        self.entries.restore();
    }

    /// Closes the newest open snapshot, and keeps the writes since, in O(log n) for each key that was written since, without
    /// comparing keys. An older snapshot that is open can still undo them. If memory runs out, the snapshot is closed, and each
    /// key has its entry before the call, or that at the snapshot. Older snapshots can still be restored.
    pub fn release(&mut self) -> Result<(), NoMemory>
        requires { 1 ≤ length self.old.snapshots }
        ensures ok { OnOk result (IsReleased self.old self.new) }
        ensures err { OnErr result (IsHalfReleased self.old self.new) }
    {
        self.entries.release()
    }

    /// Returns the changes from the ground's map to the present one: the keys at which they differ, sorted by their XDR bytes.
    pub fn changes(&self) -> Result<Vec<Change>, NoMemory>
        ensures { IfOk result (λ changes. AreDifferences self.now.base self.now.map changes.items) }
    {
        self.entries.changes()
    }
}
