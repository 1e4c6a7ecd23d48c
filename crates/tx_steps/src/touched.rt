//! The footprint of the keys that a run has touched.

ghost use Rattle.std.specs.Prelude.{◌≡◌, false, if◌then◌else◌, IfOk, OnOk};
ghost use Rattle.std.specs.BTreeSet.{insert_key};
ghost use Rattle.ledger_types.specs.KeyOrder.{key_cmp};
ghost use Rattle.tx_xdr.specs.Soroban.{footprint_format};
ghost use Rattle.contract_storage.specs.Touched.{AreSpelled};
ghost use Rattle.call_spec.specs.Laws.{is_write};
ghost use Rattle.apply_spec.specs.Recorded.{footprint_by};
ghost use Rattle.tx_steps.specs.Touched.{kind_in, touched_in, keys_in};

use contract_storage::{Access, Touch};
use ledger_types::LedgerKey;
use std::alloc::{AllocError, Global};
use std::collections::BTreeSet;
use tx_xdr::Footprint;
use value_types::Items;
use xdr_core::NoMemory;

fn is_write(access: Access) -> bool
    ensures { result ≡ is_write (kind_in access) }
{
    match access {
        Access::Write => true,
        Access::Read | Access::Extend => false,
    }
}

/// Adds a key if it is chosen.
fn add_chosen(
    keys: &mut BTreeSet<LedgerKey>,
    key: &LedgerKey,
    is_chosen: bool,
) -> Result<(), NoMemory>
    ensures { OnOk result (keys.new.keys ≡ (if is_chosen then insert_key key_cmp keys.old.keys key.now else keys.old.keys)) }
{
    if is_chosen {
        keys.insert(key.clone()?)?;
    }
    Ok(())
}

fn in_order(alloc: Global, keys: BTreeSet<LedgerKey>) -> Result<Vec<LedgerKey>, AllocError>
    ensures { IfOk result (λ list. list.items ≡ keys.keys) }
{
    keys.into_iter().collect(alloc)
}

/// The keys with a write, or those without, in the order of their XDR bytes.
fn keys_of(
    alloc: Global,
    touches: &[Touch],
    written: bool,
) -> Result<Items<LedgerKey, 4294967295>, NoMemory>
    requires { AreSpelled touches.now }
    ensures { IfOk result (λ keys. keys ≡ keys_in written touches.now) }
{
    let mut keys = BTreeSet::new(alloc);
    for touch in touches {
        add_chosen(&mut keys, &touch.key, is_write(touch.access) == written)?;
    }
    Ok(Items::from_vec(in_order(alloc, keys)?))
}

/// Returns the footprint of recorded keys: those with a write are read-write, and the others are read-only.
pub fn footprint_of(alloc: Global, touches: &[Touch]) -> Result<Footprint, NoMemory>
    requires { AreSpelled touches.now }
    ensures footprint { IfOk result (λ f. f ≡ footprint_by (touched_in touches.now)) }
    ensures fits { IfOk result (λ f. footprint_format.fits f) }
{
    let read_only = keys_of(alloc, touches, false)?;
    let read_write = keys_of(alloc, touches, true)?;
    Ok(Footprint {
        read_only,
        read_write,
    })
}
