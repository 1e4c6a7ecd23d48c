//! The declared keys whose entries are archived.

ghost use Rattle.std.specs.Prelude.{◌≡◌, [], ◌∷◌, ◌++◌, All, IfOk, OnOk, filter, if◌then◌else◌};
ghost use Rattle.ledger_types.specs.Key.{key_format};
ghost use Rattle.tx_xdr.specs.Soroban.{footprint_format};
ghost use Rattle.declared_bytes.specs.Counted.{is_archived_at, archived_in};

use entry_lookup::Ground;
use ledger_spec::is_temporary;
use ledger_types::LedgerKey;
use std::alloc::{AllocError, Global};
use tx_xdr::Footprint;

/// Whether the entry at a key is archived in ledger `n`.
fn is_archived<G: Ground>(ground: &G, n: u32, key: &LedgerKey) -> bool
    requires { key_format.fits key.now }
    ensures { result ≡ is_archived_at n (G.map ground.now) key.now }
{
    match ground.find(key) {
        Some(found) => found.live_until < n && !is_temporary(&found.entry.data),
        None => false,
    }
}

/// Appends a key if its entry is archived in ledger `n`.
fn push_if_archived<G: Ground>(
    ground: &G,
    n: u32,
    key: &LedgerKey,
    archived: &mut Vec<LedgerKey>,
) -> Result<(), AllocError>
    requires { key_format.fits key.now }
    ensures { OnOk result (archived.new.items
        ≡ archived.old.items ++ (if is_archived_at n (G.map ground.now) key.now then key.now ∷ [] else [])) }
{
    if is_archived(ground, n, key) {
        archived.push(key.clone()?)?;
    }
    Ok(())
}

/// Appends those of the keys whose entries are archived in ledger `n`.
fn push_archived<G: Ground>(
    ground: &G,
    n: u32,
    keys: &[LedgerKey],
    archived: &mut Vec<LedgerKey>,
) -> Result<(), AllocError>
    requires { All (λ key. key_format.fits key) keys.now }
    ensures { OnOk result (archived.new.items
        ≡ archived.old.items ++ filter (is_archived_at n (G.map ground.now)) keys.now) }
{
    for key in keys {
        push_if_archived(ground, n, key, archived)?;
    }
    Ok(())
}

/// The declared keys whose entries are archived in ledger `n`, in the order of the footprint.
#[tactic(auto, using(crate::proofs::Fitting::read_only_fit, crate::proofs::Fitting::read_write_fit))]
pub fn archived_keys<G: Ground>(
    alloc: Global,
    ground: &G,
    n: u32,
    footprint: &Footprint,
) -> Result<Vec<LedgerKey>, AllocError>
    requires { footprint_format.fits footprint.now }
    ensures { IfOk result (λ keys. keys.items ≡ archived_in n (G.map ground.now) footprint.now) }
{
    let mut archived = Vec::new(alloc);
    push_archived(ground, n, footprint.read_only.as_slice(), &mut archived)?;
    push_archived(ground, n, footprint.read_write.as_slice(), &mut archived)?;
    Ok(archived)
}
