//! Moves the entries of clusters.

ghost use Rattle.std.specs.Prelude.{◌≡◌, not, List, ℕ, IfOk, OnOk};
ghost use Rattle.std.specs.FinMap.{retain_keys};
ghost use Rattle.ledger_parts.specs.Shown.{is_read};
ghost use Rattle.stage_runs.specs.Maps.{laid_over};
ghost use Rattle.stage_runs.specs.Runs.{writes_in};
ghost use Rattle.stage_plan.specs.DeclaredKeys.{read_keys};
ghost use Rattle.set_steps.specs.Spelled.{AreEnvelopes};

use entry_map::EntryMap;
use ledger_parts::{KeySet, move_all};
use stage_plan::{read_only_of, read_write_of};
use std::alloc::Global;
use tx_xdr::Envelope;
use xdr_core::NoMemory;

/// Moves the entries at the keys that these transactions declare read-write from one map to another, where they replace what is
/// there.
pub fn move_written(
    from: &mut EntryMap,
    to: &mut EntryMap,
    envelopes: &[Envelope],
) -> Result<(), NoMemory>
    requires { AreEnvelopes envelopes.now }
    ensures from { OnOk result (from.new ≡ retain_keys from.old (λ q. not (writes_in envelopes.now q))) }
    ensures to { OnOk result (to.new ≡ laid_over (retain_keys from.old (writes_in envelopes.now)) to.old) }
{
    for envelope in envelopes {
        move_all(from, to, read_write_of(envelope))?;
    }
    Ok(())
}

/// Collects the keys that these transactions declare read-only.
pub fn read_keys_of(alloc: Global, envelopes: &[Envelope]) -> Result<KeySet, NoMemory>
    ensures { IfOk result (λ keys. (bytes : List ℕ) → is_read keys bytes ≡ is_read (read_keys envelopes.now) bytes) }
{
    let mut keys = KeySet::new(alloc);
    for envelope in envelopes {
        keys.add_all(read_only_of(envelope))?;
    }
    Ok(keys)
}
