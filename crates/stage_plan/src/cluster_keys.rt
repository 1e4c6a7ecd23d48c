//! The keys that a cluster declares, each once.

ghost use Rattle.std.specs.Prelude.{◌≡◌, true, false, All, IfOk, OnOk};
ghost use Rattle.ledger_types.specs.Key.{key_format};
ghost use Rattle.stage_runs.specs.Runs.{written_keys};
ghost use Rattle.stage_plan.specs.Spelled.{IsCluster};
ghost use Rattle.stage_plan.specs.DeclaredKeys.{read_keys, declared_in, DeclaredLaw, kept, kept_all};

use crate::declaring::{read_only_of, read_write_of};
use crate::key_map::KeyMap;
use ledger_types::LedgerKey;
use std::alloc::Global;
use tx_xdr::Cluster;
use xdr_core::NoMemory;

/// Keys in the order of their XDR bytes, each with whether it is declared read-write.
pub type Keys<'a> = KeyMap<'a, bool>;

/// Adds a key that is not there yet.
fn keep<'a>(keys: &mut Keys<'a>, key: &'a LedgerKey, writes: bool) -> Result<(), NoMemory>
    requires { key_format.fits key.now }
    ensures { OnOk result (keys.new ≡ kept writes keys.old key.now) }
{
    if keys.get(key).is_none() {
        keys.insert(key, writes)?;
    }
    Ok(())
}

/// Adds those of these keys that are not there yet.
fn keep_all<'a>(keys: &mut Keys<'a>, more: &'a [LedgerKey], writes: bool) -> Result<(), NoMemory>
    requires { All key_format.fits more.now }
    ensures { OnOk result (keys.new ≡ kept_all writes keys.old more.now) }
{
    for key in more {
        keep(keys, key, writes)?;
    }
    Ok(())
}

/// Adds the keys that a cluster declares read-write.
fn keep_written<'a>(keys: &mut Keys<'a>, cluster: &'a Cluster) -> Result<(), NoMemory>
    requires { IsCluster cluster.now.envelopes }
    ensures { OnOk result (keys.new ≡ kept_all true keys.old (written_keys cluster.now.envelopes)) }
{
    let envelopes = cluster.envelopes.as_slice();
    for envelope in envelopes {
        keep_all(keys, read_write_of(envelope), true)?;
    }
    Ok(())
}

/// Adds the keys that a cluster declares read-only and that are not there yet.
fn keep_read<'a>(keys: &mut Keys<'a>, cluster: &'a Cluster) -> Result<(), NoMemory>
    requires { IsCluster cluster.now.envelopes }
    ensures { OnOk result (keys.new ≡ kept_all false keys.old (read_keys cluster.now.envelopes)) }
{
    let envelopes = cluster.envelopes.as_slice();
    for envelope in envelopes {
        keep_all(keys, read_only_of(envelope), false)?;
    }
    Ok(())
}

/// Finds the keys that the transactions of a cluster declare, whatever their results. It takes O(n log n) comparisons of keys,
/// where n is how many keys they declare.
pub fn declared<'a>(alloc: Global, cluster: &'a Cluster) -> Result<Keys<'a>, NoMemory>
    requires { IsCluster cluster.now.envelopes }
    ensures { IfOk result (λ keys. keys ≡ declared_in cluster.now.envelopes) }
{
    let mut keys = Keys::new(alloc);
    keep_written(&mut keys, cluster)?;
    keep_read(&mut keys, cluster)?;
    Ok(keys)
}

/// A cluster's keys are those that a transaction declares, read-write if some transaction declares them so.
pub fn keys_are_declared()
    ensures { DeclaredLaw }
{}
