//! Definitions and laws of a ledger: the map from keys to entries with their live-until ledgers, and the ledger file.
#![tactic(auto)]

mod laws;
mod state;

pub use laws::{
    changes_keep_ledger_maps, delete_is_absent, extend_is_longer, make_is_seen, put_is_seen,
    raise_is_longest, seen_by_life, taken_goes_back,
};
pub use ledger_types::{LedgerEntry, LedgerKey};
pub use state::{KeyState, first_life, is_temporary, state_of};

/// An entry and the last ledger in which it is live.
#[derive(Drop)]
pub struct Kept {
    pub entry: LedgerEntry,
    pub live_until: u32,
}

/// Why a ledger file is rejected, with the number that is printed (own).
#[derive(Clone, Copy, Debug, PartialEq, Eq)]
pub enum LedgerWhy {
    /// 1: the bytes are not the XDR of a ledger file.
    Xdr,
    /// 2: a record's key is not above the key before it.
    Order,
    /// 3: a record's TTL entry has the hash of another key.
    TtlHash,
    /// 4: the hash of a code entry is not the hash of its code.
    CodeHash,
    /// 5: the protocol is below 23, or a setting is out of its range.
    Settings,
    /// 6: the ledger's number is too high for another ledger to follow.
    SeqEnd,
}

/// Why a ledger file is rejected, and where. `at` is an offset in the bytes for `Xdr`, the index of the record for
/// `Order`, `TtlHash` and `CodeHash`, and 0 for the others.
#[derive(Clone, Copy, Debug, PartialEq, Eq)]
pub struct LedgerRefusal {
    pub why: LedgerWhy,
    pub at: u64,
}
