//! Changes and extensions of the entries that a cluster runs on.

ghost use Rattle.std.specs.Prelude.{◌≡◌, All, OnOk};
ghost use Rattle.ledger_types.specs.Key.{key_format};
ghost use Rattle.stage_runs.specs.Runs.{change_all as change_all_in, put_all_in};
ghost use Rattle.tx_steps.specs.Effects.{CanChange};

use entry_map::EntryMap;
use ledger_parts::Entries;
use stage_runs::{Change, Extension};
use std::alloc::Global;
use xdr_core::NoMemory;

/// Makes changes in their order.
pub fn change_all<E: Entries>(
    alloc: Global,
    entries: &mut E,
    changes: Vec<Change>,
) -> Result<(), NoMemory>
    requires { All CanChange changes.items }
    ensures own { OnOk result (E.own entries.new ≡ change_all_in (E.own entries.old) changes.items) }
    ensures shown { OnOk result (E.shown entries.new ≡ E.shown entries.old) }
{
    for change in changes {
        entries.change(alloc, change)?;
    }
    Ok(())
}

/// Puts in extensions: the greater live-until ledger stays. It takes no memory.
pub fn put_all(entries: &mut EntryMap, extensions: &[Extension])
    requires { All (λ e. key_format.fits e.key) extensions.now }
    ensures { entries.new ≡ put_all_in entries.old extensions.now }
{
    for extension in extensions {
        entries.raise(&extension.key, extension.live_until);
    }
}
