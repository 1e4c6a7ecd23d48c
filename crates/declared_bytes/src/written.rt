//! The bytes that count as written.

ghost use Rattle.std.specs.Prelude.{◌≡◌, All};
ghost use Rattle.std.specs.List.{sum_by};
ghost use Rattle.xdr_core.specs.Sizes.{capped};
ghost use Rattle.ledger_types.specs.Key.{key_format};
ghost use Rattle.ledger_spec.specs.Seen.{seen};
ghost use Rattle.call_spec.specs.Invoked.{is_unaltered as is_unaltered_in};
ghost use Rattle.declared_bytes.specs.Counted.{changed_bytes as changed_bytes_in, CanCount};

use entry_lookup::Ground;
use ledger_spec::Kept;
use ledger_types::LedgerKey;
use stage_runs::Change;
use value_xdr::Xdr;
use xdr_core::add_sizes;

/// Whether the entry at a key is live in ledger `n` and equal to this one.
fn is_unaltered<G: Ground>(ground: &G, n: u32, key: &LedgerKey, kept: &Kept) -> bool
    requires { key_format.fits key.now }
    ensures { result ≡ is_unaltered_in kept.now.entry (seen n (G.map ground.now) key.now) }
{
    match ground.find(key) {
        Some(found) => n <= found.live_until && kept.entry == *found.entry,
        None => false,
    }
}

/// The XDR bytes of the entry that a change leaves, if it is live in ledger `n` and was not live with an equal entry before.
fn changed_bytes<G: Ground>(ground: &G, n: u32, change: &Change) -> u64
    requires { CanCount change.now }
    ensures { result ≡ changed_bytes_in n (G.map ground.now) change.now }
{
    match &change.after {
        None => 0,
        Some(kept) => {
            if kept.live_until < n {
                return 0;
            }
            if is_unaltered(ground, n, &change.key, kept) {
                return 0;
            }
            kept.entry.size()
        }
    }
}

/// The sum over all changes. It stops at 2^64 - 1.
pub fn written_bytes<G: Ground>(ground: &G, n: u32, changes: &[Change]) -> u64
    requires { All CanCount changes.now }
    ensures { result ≡ capped (sum_by (changed_bytes_in n (G.map ground.now)) changes.now) }
{
    let mut total = 0;
    for change in changes {
        total = add_sizes(total, changed_bytes(ground, n, change));
    }
    total
}
