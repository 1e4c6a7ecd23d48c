//! The entries at declared keys before a host function runs: whether one is archived, and the bytes that are read.

ghost use Rattle.std.specs.Prelude.{◌≡◌, ◌+◌, All, IfSome, nat_lt};
ghost use Rattle.std.specs.List.{list_any, sum_by};
ghost use Rattle.std.specs.Option.{option_map};
ghost use Rattle.xdr_core.specs.Sizes.{capped};
ghost use Rattle.ledger_types.specs.Key.{key_format};
ghost use Rattle.ledger_spec.specs.LedgerMap.{find as find_in, key_bytes, IsKeptAt};
ghost use Rattle.ledger_spec.specs.Seen.{seen};
ghost use Rattle.entry_lookup.specs.Found.{kept_of};
ghost use Rattle.call_spec.specs.Invoked.{is_archived as is_archived_in, live_bytes as live_bytes_in};
ghost use Rattle.call_spec.specs.Invoked.{declares_archived as declares_archived_in, read_bytes};

use entry_lookup::{Found, Ground};
use ledger_spec::is_temporary;
use ledger_types::LedgerKey;
use tx_xdr::Footprint;
use value_xdr::Xdr;
use xdr_core::add_sizes;

/// Finds the entry at a key, which belongs to this key.
pub(crate) fn look<'b, G: Ground>(ground: &'b G, key: &LedgerKey) -> Option<Found<'b>>
    requires { key_format.fits key.now }
    ensures found { option_map kept_of result ≡ find_in (G.map ground.now) key.now }
    ensures kept { IfSome result (λ found. IsKeptAt (key_bytes key.now) (kept_of found)) }
{
    ground.find(key)
}

/// Whether the entry at a key is archived in ledger `n`.
fn is_archived<G: Ground>(ground: &G, n: u32, key: &LedgerKey) -> bool
    requires { key_format.fits key.now }
    ensures { result ≡ is_archived_in (seen n (G.map ground.now) key.now) }
{
    match ground.find(key) {
        Some(found) => found.live_until < n && !is_temporary(&found.entry.data),
        None => false,
    }
}

/// Whether the entry at one of the keys is archived in ledger `n`.
fn has_archived<G: Ground>(ground: &G, n: u32, keys: &[LedgerKey]) -> bool
    requires { All (λ key. key_format.fits key) keys.now }
    ensures { result ≡ list_any (λ key. is_archived_in (seen n (G.map ground.now) key)) keys.now }
{
    for key in keys {
        if is_archived(ground, n, key) {
            return true;
        }
    }
    false
}

/// Whether the entry at a declared key is archived in ledger `n`.
pub fn declares_archived<G: Ground>(ground: &G, n: u32, footprint: &Footprint) -> bool
    requires read_only { All (λ key. key_format.fits key) footprint.now.read_only }
    requires read_write { All (λ key. key_format.fits key) footprint.now.read_write }
    ensures { result ≡ declares_archived_in n (G.map ground.now) footprint.now }
{
    has_archived(ground, n, footprint.read_only.as_slice())
        || has_archived(ground, n, footprint.read_write.as_slice())
}

/// The XDR bytes of the entry at a key, if it is live in ledger `n`.
fn live_bytes<G: Ground>(ground: &G, n: u32, key: &LedgerKey) -> u64
    requires { key_format.fits key.now }
    ensures { result ≡ live_bytes_in (seen n (G.map ground.now) key.now) }
{
    match look(ground, key) {
        Some(found) => {
            if found.live_until < n {
                0
            } else {
                found.entry.size()
            }
        }
        None => 0,
    }
}

/// Adds the XDR bytes of the entries at the keys that are live in ledger `n`. The sum stops at 2^64 - 1.
fn add_live<G: Ground>(ground: &G, n: u32, keys: &[LedgerKey], before: u64) -> u64
    requires { All (λ key. key_format.fits key) keys.now }
    ensures { result ≡ capped (before + sum_by (λ key. live_bytes_in (seen n (G.map ground.now) key)) keys.now) }
{
    let mut total = before;
    for key in keys {
        total = add_sizes(total, live_bytes(ground, n, key));
    }
    total
}

/// Whether the XDR bytes of the live entries at declared keys are more than `most`.
pub fn reads_more<G: Ground>(ground: &G, n: u32, footprint: &Footprint, most: u32) -> bool
    requires read_only { All (λ key. key_format.fits key) footprint.now.read_only }
    requires read_write { All (λ key. key_format.fits key) footprint.now.read_write }
    ensures { result ≡ nat_lt most (read_bytes n (G.map ground.now) footprint.now) }
{
    let read_only = add_live(ground, n, footprint.read_only.as_slice(), 0);
    let total = add_live(ground, n, footprint.read_write.as_slice(), read_only);
    u64::from(most) < total
}
