//! The keys that a transaction declares.

ghost use Rattle.std.specs.Prelude.{◌≡◌, All, false, true, IfOk, OnOk};
ghost use Rattle.ledger_types.specs.Key.{key_format};
ghost use Rattle.contract_storage.specs.Footprint.{with_key, with_keys, IsFootprint};
ghost use Rattle.contract_storage.specs.Layered.{unwritten, with_slots};

use crate::layer::Layer;
use entry_lookup::Ground;
use ledger_types::LedgerKey;
use std::alloc::Global;
use xdr_core::NoMemory;

/// Adds a slot for a key, unless it has one.
fn declare<G: Ground>(
    layer: &mut Layer<'_, G>,
    key: &LedgerKey,
    writes: bool,
) -> Result<(), NoMemory>
    requires { key_format.fits key.now }
    ensures keys { OnOk result (layer.new.keys ≡ with_key layer.old.keys key.now writes) }
    ensures same { layer.new ≡ with_slots layer.old layer.new.keys }
{
    match layer.slot_of(key) {
        Some(_) => Ok(()),
        None => {
            layer.add(key, writes)?;
            Ok(())
        }
    }
}

/// Adds slots for the keys of a list that have none.
fn declare_all<G: Ground>(
    layer: &mut Layer<'_, G>,
    keys: &[LedgerKey],
    writes: bool,
) -> Result<(), NoMemory>
    requires { All (λ key. key_format.fits key) keys.now }
    ensures keys { OnOk result (layer.new.keys ≡ with_keys layer.old.keys keys.now writes) }
    ensures same { layer.new ≡ with_slots layer.old layer.new.keys }
{
    for key in keys {
        declare(layer, key, writes)?;
    }
    Ok(())
}

/// Makes a layer with slots for the keys of a footprint, each with whether it is read-write.
pub(crate) fn declared_layer<'a, G: Ground>(
    alloc: Global,
    base: &'a G,
    read_only: &[LedgerKey],
    read_write: &[LedgerKey],
) -> Result<Layer<'a, G>, NoMemory>
    requires read_only { All (λ key. key_format.fits key) read_only.now }
    requires read_write { All (λ key. key_format.fits key) read_write.now }
    ensures starts { IfOk result (λ layer. layer ≡ unwritten (G.map base.now) layer.keys) }
    ensures declared { IfOk result (λ layer. IsFootprint read_only.now read_write.now layer.keys) }
{
    let mut layer = Layer::new(alloc, base);
    declare_all(&mut layer, read_write, true)?;
    declare_all(&mut layer, read_only, false)?;
    Ok(layer)
}
