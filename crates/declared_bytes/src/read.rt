//! The bytes that count as read.

ghost use Rattle.std.specs.Prelude.{◌≡◌, ◌+◌, All, IfSome};
ghost use Rattle.std.specs.List.{sum_by};
ghost use Rattle.std.specs.Option.{option_map};
ghost use Rattle.xdr_core.specs.Sizes.{capped};
ghost use Rattle.ledger_types.specs.Key.{key_format};
ghost use Rattle.tx_xdr.specs.Soroban.{footprint_format};
ghost use Rattle.ledger_spec.specs.LedgerMap.{find as find_in, key_bytes, IsKeptAt};
ghost use Rattle.ledger_spec.specs.Seen.{seen};
ghost use Rattle.call_spec.specs.Invoked.{live_bytes as live_bytes_in, read_bytes as read_bytes_in};
ghost use Rattle.entry_lookup.specs.Found.{kept_of};

use entry_lookup::{Found, Ground};
use ledger_types::LedgerKey;
use tx_xdr::Footprint;
use value_xdr::Xdr;
use xdr_core::add_sizes;

/// Finds the entry at a key, which belongs to this key.
fn look<'b, G: Ground>(ground: &'b G, key: &LedgerKey) -> Option<Found<'b>>
    requires { key_format.fits key.now }
    ensures found { option_map kept_of result ≡ find_in (G.map ground.now) key.now }
    ensures kept { IfSome result (λ found. IsKeptAt (key_bytes key.now) (kept_of found)) }
{
    ground.find(key)
}

/// The XDR bytes of the entry at a key, if it is live in ledger `n`.
fn live_bytes<G: Ground>(ground: &G, n: u32, key: &LedgerKey) -> u64
    requires { key_format.fits key.now }
    ensures { result ≡ live_bytes_in (seen n (G.map ground.now) key.now) }
{
    match look(ground, key) {
        Some(found) => {
            if found.live_until < n {
                0
            } else {
                found.entry.size()
            }
        }
        None => 0,
    }
}

/// Adds the XDR bytes of the entries at the keys that are live in ledger `n`. The sum stops at 2^64 - 1.
fn add_live<G: Ground>(ground: &G, n: u32, keys: &[LedgerKey], before: u64) -> u64
    requires { All (λ key. key_format.fits key) keys.now }
    ensures { result ≡ capped (before + sum_by (λ key. live_bytes_in (seen n (G.map ground.now) key)) keys.now) }
{
    let mut total = before;
    for key in keys {
        total = add_sizes(total, live_bytes(ground, n, key));
    }
    total
}

/// The XDR bytes of the entries at the declared keys that are live in ledger `n`. The sum stops at 2^64 - 1.
#[tactic(auto, using(crate::proofs::Fitting::read_only_fit, crate::proofs::Fitting::read_write_fit))]
pub fn read_bytes<G: Ground>(ground: &G, n: u32, footprint: &Footprint) -> u64
    requires { footprint_format.fits footprint.now }
    ensures { result ≡ capped (read_bytes_in n (G.map ground.now) footprint.now) }
{
    let read_only = add_live(ground, n, footprint.read_only.as_slice(), 0);
    add_live(ground, n, footprint.read_write.as_slice(), read_only)
}
