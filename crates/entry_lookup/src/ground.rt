//! The ledger entries that a contract's storage reads.

ghost use Rattle.std.specs.Prelude.{◌≡◌};
ghost use Rattle.std.specs.Option.{option_map};
ghost use Rattle.ledger_spec.specs.Key.{key_format};
ghost use Rattle.ledger_spec.specs.LedgerMap.{LedgerMap, IsLedgerMap, find as find_in};
ghost use Rattle.entry_lookup.specs.Found.{kept_of};

use ledger_spec::{LedgerEntry, LedgerKey};

/// A borrowed entry and its live-until ledger.
#[derive(Clone, Copy)]
pub struct Found<'a> {
    pub entry: &'a LedgerEntry,
    pub live_until: u32,
}

/// The entries of a ledger, or a part of them.
pub trait Ground {
    /// The entries as a map.
    ghost map: { Self → LedgerMap };

    /// Finds the entry at a key. It takes no memory.
    fn find(&self, key: &LedgerKey) -> Option<Found<'_>>
        requires { key_format.fits key.now }
        ensures found { option_map kept_of result ≡ find_in (map self.now) key.now }
        ensures map { IsLedgerMap (map self.now) };
}
