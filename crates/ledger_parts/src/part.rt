//! A part of a ledger, and what a cluster sees from it.

ghost use Rattle.std.specs.Prelude.{◌≡◌, ◌<◌, ◌+◌, ◌^◌, IfOk, None, if◌then◌else◌};
ghost use Rattle.std.specs.Option.{option_map};
ghost use Rattle.std.specs.FinMap.{len};
ghost use Rattle.ledger_types.specs.Key.{key_format};
ghost use Rattle.ledger_spec.specs.LedgerMap.{find as find_in, key_bytes};
ghost use Rattle.entry_lookup.specs.Found.{kept_of};
ghost use Rattle.ledger_parts.specs.Shown.{is_read, shown};

use crate::key_set::KeySet;
use entry_lookup::{Found, Ground};
use entry_map::EntryMap;
use ledger_spec::Kept;
use ledger_types::LedgerKey;
use std::alloc::Global;
use xdr_core::NoMemory;

/// As many entries as a ledger can have.
pub(crate) const MOST_ENTRIES: usize = 4_294_967_295;

/// What a cluster takes out of a ledger: the entries at the keys that it declares read-write. The part also has the keys that the
/// cluster declares read-only. It borrows nothing.
#[derive(Drop)]
pub struct Part {
    pub own: EntryMap,
    pub read_only: KeySet,
}

/// A part, with the rest of the ledger, which all parts of a stage borrow.
#[derive(Drop)]
pub struct OnPart<'a> {
    pub part: Part,
    pub lent: &'a EntryMap,
    pub ghost few: { len part.own + len lent.now < 2 ^ 32 },
}

/// The entries that all parts of a stage borrow, for those who only find entries.
#[derive(Clone, Copy)]
pub struct Lent<'a> {
    pub entries: &'a EntryMap,
}

/// Borrows an entry and its live-until ledger.
fn lend(kept: &Kept) -> Found<'_>
    ensures { kept_of result ≡ kept.now }
{
    Found {
        entry: &kept.entry,
        live_until: kept.live_until,
    }
}

impl<'a> OnPart<'a> {
    /// Puts a part over the rest of its ledger. If they have more entries together than a ledger can have, it is out of memory.
    pub fn new(part: Part, lent: &'a EntryMap) -> Result<OnPart<'a>, NoMemory>
        ensures part { IfOk result (λ seen. seen.part ≡ part) }
        ensures lent { IfOk result (λ seen. seen.lent.now ≡ lent.now) }
    {
        if part.own.len() + lent.len() > MOST_ENTRIES {
            return Err(NoMemory);
        }
        Ok(OnPart { part, lent })
    }

    /// Finds the lent entry at a key that the cluster declares read-only.
    pub(crate) fn lent_at(&self, key: &LedgerKey) -> Option<Found<'_>>
        requires { key_format.fits key.now }
        ensures { option_map kept_of result ≡ (if is_read self.now.part.read_only (key_bytes key.now)
            then find_in self.now.lent.now key.now else None) }
    {
        if !self.part.read_only.has(key) {
            return None;
        }
        match self.lent.find(key) {
            Some(kept) => Some(lend(kept)),
            None => None,
        }
    }
}

/// Transactions see the part's own entries, and the lent ones at the keys that the cluster declares read-only.
impl<'a> Ground for OnPart<'a> {
    ghost map = { λ seen. shown seen.part.read_only seen.lent.now seen.part.own };

    fn find(&self, key: &LedgerKey) -> Option<Found<'_>> {
        // What is known of `lent` as a map of a ledger comes from a call.
        let _count = self.lent.len();
        match self.part.own.find(key) {
            Some(kept) => Some(lend(kept)),
            None => self.lent_at(key),
        }
    }
}

impl<'a> Ground for Lent<'a> {
    ghost map = { λ lent. lent.entries.now };

    fn find(&self, key: &LedgerKey) -> Option<Found<'_>> {
        match self.entries.find(key) {
            Some(kept) => Some(lend(kept)),
            None => None,
        }
    }
}
