//! Moves entries between maps.

ghost use Rattle.std.specs.Prelude.{◌≡◌, All, OnOk, not};
ghost use Rattle.std.specs.FinMap.{remove, retain_keys};
ghost use Rattle.ledger_types.specs.Key.{key_format};
ghost use Rattle.ledger_spec.specs.LedgerMap.{find as find_in, key_bytes};
ghost use Rattle.stage_runs.specs.Maps.{has_bytes, laid_over};
ghost use Rattle.ledger_parts.specs.Shown.{with_found};

use entry_map::EntryMap;
use ledger_types::LedgerKey;
use xdr_core::NoMemory;

/// Moves the entry at a key, if there is one.
fn move_one(from: &mut EntryMap, to: &mut EntryMap, key: &LedgerKey) -> Result<(), NoMemory>
    requires { key_format.fits key.now }
    ensures from { OnOk result (from.new ≡ remove from.old (key_bytes key.now)) }
    ensures to { OnOk result (to.new ≡ with_found to.old key.now (find_in from.old key.now)) }
{
    match from.take(key) {
        Some(stored) => {
            let _old = to.insert(key, stored)?;
            Ok(())
        }
        None => Ok(()),
    }
}

/// Moves the entries at these keys from one map to another, where they replace what is there. Only the rows of the other map take
/// memory. After an error entries may be missing from both maps.
pub fn move_all(from: &mut EntryMap, to: &mut EntryMap, keys: &[LedgerKey]) -> Result<(), NoMemory>
    requires { All key_format.fits keys.now }
    ensures from { OnOk result (from.new ≡ retain_keys from.old (λ q. not (has_bytes keys.now q))) }
    ensures to { OnOk result (to.new ≡ laid_over (retain_keys from.old (has_bytes keys.now)) to.old) }
{
    for key in keys {
        move_one(from, to, key)?;
    }
    Ok(())
}
