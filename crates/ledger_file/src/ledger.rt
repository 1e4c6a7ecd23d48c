//! A ledger in memory.

ghost use Rattle.std.specs.Prelude.{◌≡◌};

use entry_lookup::{Found, Ground};
use entry_map::EntryMap;
use ledger_types::{Header, LedgerKey};

/// A ledger: its header and its entries.
#[derive(Drop)]
pub struct Ledger {
    pub header: Header,
    pub entries: EntryMap,
}

impl Ground for Ledger {
    ghost map = { λ ledger. ledger.entries };

    fn find(&self, key: &LedgerKey) -> Option<Found<'_>> {
        match self.entries.find(key) {
            Some(kept) => Some(Found {
                entry: &kept.entry,
                live_until: kept.live_until,
            }),
            None => None,
        }
    }
}
