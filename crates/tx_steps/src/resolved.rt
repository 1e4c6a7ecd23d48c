//! The entries at declared keys, each looked up once.

ghost use Rattle.std.specs.Prelude.{◌≡◌, All, IfOk};
ghost use Rattle.std.specs.List.{AllByRecursion};
ghost use Rattle.ledger_types.specs.Key.{key_format};
ghost use Rattle.tx_steps.specs.Resolved.{IsRight};

use entry_lookup::{Found, Ground};
use ledger_types::LedgerKey;
use std::alloc::Global;
use std::marker::Model;
use xdr_core::NoMemory;

/// As many keys as are looked up before. A search compares its key with each of them.
const MOST_LOOKED: usize = 16;

/// A key that was looked up, with what is there.
#[derive(Drop)]
pub(crate) struct Looked<'b> {
    pub key: &'b LedgerKey,
    pub found: Option<Found<'b>>,
}

/// The entries of a ledger. What is at the first declared keys was found before, so a search for one of them takes a few
/// comparisons of keys. Contracts see the map of the entries.
#[derive(Drop)]
pub struct Resolved<'b, G: Ground> {
    ground: &'b G,
    rows: Vec<Looked<'b>>,
}

impl<'b, G: Ground> Model for Resolved<'b, G> {
    ghost use Rattle.std.specs.FinMap.{code};
    ghost use Rattle.std.specs.Coded.{coded_list, coded_ℕ};
    ghost use Rattle.ledger_spec.specs.contracts.Kept as kept;
    ghost use Rattle.ledger_spec.specs.LedgerMap.{LedgerMap};
    ghost use Rattle.std.specs.List.{AllByRecursion};
    ghost use Rattle.tx_steps.specs.Resolved.{IsRight};

    ghost Value = { LedgerMap };

    ghost coded = { code (coded_list coded_ℕ) kept.the_row.coded };

    ghost view = { λ s. G.map s.ground.now };

    ghost invariant = { λ s. AllByRecursion (IsRight (G.map s.ground.now)) s.rows.items };
}

/// Looks up keys, and adds what is there, up to `MOST_LOOKED` keys in all.
fn look_up<'b, G: Ground>(
    ground: &'b G,
    keys: &'b [LedgerKey],
    rows: &mut Vec<Looked<'b>>,
) -> Result<(), NoMemory>
    requires fits { All (λ key. key_format.fits key) keys.now }
    requires right { AllByRecursion (IsRight (G.map ground.now)) rows.old.items }
    ensures { AllByRecursion (IsRight (G.map ground.now)) rows.new.items }
{
    for key in keys {
        if rows.len() >= MOST_LOOKED {
            return Ok(());
        }
        let found = ground.find(key);
        rows.push(Looked { key, found })?;
    }
    Ok(())
}

impl<'b, G: Ground> Resolved<'b, G> {
    /// Looks up the keys that a transaction declares. The read-write ones come first, since a run searches for them most.
    pub fn new(
        alloc: Global,
        ground: &'b G,
        read_only: &'b [LedgerKey],
        read_write: &'b [LedgerKey],
    ) -> Result<Resolved<'b, G>, NoMemory>
        requires read_only { All (λ key. key_format.fits key) read_only.now }
        requires read_write { All (λ key. key_format.fits key) read_write.now }
        ensures { IfOk result (λ resolved. resolved ≡ G.map ground.now) }
    {
        let mut rows = Vec::new(alloc);
        look_up(ground, read_write, &mut rows)?;
        look_up(ground, read_only, &mut rows)?;
        Ok(Resolved { ground, rows })
    }
}

impl<'b, G: Ground> Ground for Resolved<'b, G> {
    ghost map = { λ resolved. resolved };

    fn find(&self, key: &LedgerKey) -> Option<Found<'_>> {
        for row in &self.rows {
            if *row.key == *key {
                return row.found;
            }
        }
        self.ground.find(key)
    }
}
