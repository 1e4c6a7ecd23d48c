//! The bytes that a host function writes.

ghost use Rattle.std.specs.Prelude.{◌≡◌, All, nat_lt};
ghost use Rattle.std.specs.List.{sum_by};
ghost use Rattle.xdr_core.specs.Sizes.{capped};
ghost use Rattle.ledger_spec.specs.LedgerMap.{LedgerMap};
ghost use Rattle.contract_storage.specs.Differences.{AreDifferences};
ghost use Rattle.contract_storage.specs.Acts.{seen_in};
ghost use Rattle.call_spec.specs.Invoked.{written_bytes as written_bytes_in};
ghost use Rattle.tx_steps.specs.Changed.{is_unaltered_by, changed_bytes as changed_bytes_in, CanStand};

use contract_storage::Change;
use entry_lookup::{Found, Ground};
use ledger_spec::Kept;
use value_xdr::Xdr;
use xdr_core::add_sizes;

/// Whether an entry that is found is live in ledger `n` and equal to this one.
fn is_unaltered(found: Option<Found<'_>>, n: u32, kept: &Kept) -> bool
    ensures { result ≡ is_unaltered_by kept.now (seen_in n found.entry) }
{
    match found {
        Some(found) => n <= found.live_until && kept.entry == *found.entry,
        None => false,
    }
}

/// The XDR bytes of the entry that a change leaves, if it is live in ledger `n` and was not live with an equal entry before.
fn changed_bytes<G: Ground>(ground: &G, n: u32, change: &Change) -> u64
    requires { CanStand change.now }
    ensures { result ≡ changed_bytes_in n (G.map ground.now) change.entry.now }
{
    match &change.now {
        None => 0,
        Some(kept) => {
            if kept.live_until < n {
                return 0;
            }
            if is_unaltered(ground.find(&change.key), n, kept) {
                return 0;
            }
            kept.entry.size()
        }
    }
}

/// The sum over all changes. It stops at 2^64 - 1.
fn all_changed_bytes<G: Ground>(ground: &G, n: u32, changes: &[Change]) -> u64
    requires { All CanStand changes.now }
    ensures { result ≡ capped (sum_by (changed_bytes_in n (G.map ground.now)) changes.now) }
{
    let mut total = 0;
    for change in changes {
        total = add_sizes(total, changed_bytes(ground, n, change));
    }
    total
}

/// Whether the XDR bytes that the changes write are more than `most`.
pub fn writes_more<G: Ground>(ground: &G, n: u32, changes: &[Change], most: u32) -> bool
    requires { All CanStand changes.now }
    ensures { (new : LedgerMap) → AreDifferences (G.map ground.now) new changes.now
        → result ≡ nat_lt most (written_bytes_in n (G.map ground.now) new) }
{
    u64::from(most) < all_changed_bytes(ground, n, changes)
}
