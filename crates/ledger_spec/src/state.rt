//! The state of a key in a ledger, and the first life of a new entry.

ghost use Rattle.std.specs.Prelude.{◌≡◌, ◌<◌, ◌^◌};
ghost use Rattle.std.specs.Option.{option_copied};
ghost use Rattle.ledger_spec.specs.Seen.{seen_of, is_temporary as is_temporary_data};
ghost use Rattle.ledger_spec.specs.Changes.{first_life as first_life_of};
ghost use Rattle.ledger_spec.specs.States.{state_of};

use crate::Kept;
use ledger_types::{Durability, LedgerEntry, LedgerEntryData, Settings};

/// What an access finds at a key: a live entry, none, or an archived one.
#[derive(Clone, Copy, Debug, PartialEq, Eq)]
pub enum KeyState {
    Live,
    Absent,
    Archived,
}

/// Whether an entry is temporary.
pub fn is_temporary(body: &LedgerEntryData) -> bool
    ensures { result ≡ is_temporary_data body.now }
{
    match body {
        LedgerEntryData::ContractData(entry) => match entry.durability {
            Durability::Temporary => true,
            Durability::Persistent => false,
        },
        LedgerEntryData::ContractCode(_) => false,
    }
}

/// Returns the state in ledger `n` of a key with this entry.
pub fn state_of(n: u32, found: Option<&Kept>) -> KeyState
    ensures { result ≡ state_of (seen_of n (option_copied found.entry)) }
{
    match found {
        None => KeyState::Absent,
        Some(kept) => {
            if n <= kept.live_until {
                KeyState::Live
            } else if is_temporary(&kept.entry.data) {
                KeyState::Absent
            } else {
                KeyState::Archived
            }
        }
    }
}

/// Returns the live-until ledger of an entry that is new in ledger `n`.
pub fn first_life(settings: &Settings, n: u32, entry: &LedgerEntry) -> u32
    requires { first_life_of settings.now n entry.now < 2 ^ 32 }
    ensures { result ≡ first_life_of settings.now n entry.now }
{
    let least = if is_temporary(&entry.data) {
        settings.min_temporary_ttl
    } else {
        settings.min_persistent_ttl
    };
    (u64::from(n) + u64::from(least)).saturating_sub(1) as u32
}
