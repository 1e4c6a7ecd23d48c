//! A ledger between the envelopes of a list.

ghost use Rattle.std.specs.Prelude.{◌≡◌, All, OnOk};
ghost use Rattle.ledger_types.specs.Key.{key_format};
ghost use Rattle.ledger_spec.specs.LedgerMap.{LedgerMap};
ghost use Rattle.stage_runs.specs.Runs.{change_all as change_all_in, put_all_in, after, ended};
ghost use Rattle.ledger_apply.specs.Done.{CanChange, IsWithin, effect_of};
ghost use Rattle.spec_apply.specs.Moved.{AreMoved};
ghost use Rattle.spec_apply.specs.Passing.{state_of};

use crate::moved::{Moved, change, extend};
use entry_map::EntryMap;
use ledger_apply::TxDone;
use set_steps::Reports;
use stage_runs::{Change, Extension};
use std::alloc::Global;
use xdr_core::NoMemory;

/// A ledger between the envelopes of a list.
#[derive(Drop)]
pub(crate) struct Pass {
    pub entries: EntryMap,
    /// The keys at which the entries differ from those of the opening ledger.
    pub moved: Moved,
    pub reports: Reports,
    /// The number of runs on the opening ledger that were kept.
    pub kept: u64,
}

/// Makes changes in their order.
fn change_all(
    alloc: Global,
    entries: &mut EntryMap,
    moved: &mut Moved,
    changes: Vec<Change>,
) -> Result<(), NoMemory>
    requires { All CanChange changes.items }
    ensures entries { OnOk result (entries.new ≡ change_all_in entries.old changes.items) }
    ensures moved { OnOk result ((opening : LedgerMap) → AreMoved opening entries.old moved.old
        → AreMoved opening entries.new moved.new) }
{
    for made in changes {
        change(alloc, entries, moved, made)?;
    }
    Ok(())
}

/// Puts in extensions: the greater live-until ledger stays.
fn extend_all(
    alloc: Global,
    entries: &mut EntryMap,
    moved: &mut Moved,
    extensions: Vec<Extension>,
) -> Result<(), NoMemory>
    requires { All (λ e. key_format.fits e.key) extensions.items }
    ensures entries { OnOk result (entries.new ≡ put_all_in entries.old extensions.items) }
    ensures moved { OnOk result ((opening : LedgerMap) → AreMoved opening entries.old moved.old
        → AreMoved opening entries.new moved.new) }
{
    for extension in extensions {
        extend(alloc, entries, moved, extension)?;
    }
    Ok(())
}

/// Puts in the changes and the extensions of a run, and adds its report.
pub(crate) fn put_in(alloc: Global, pass: &mut Pass, done: TxDone) -> Result<(), NoMemory>
    requires { IsWithin done }
    ensures state { OnOk result (state_of pass.new ≡ ended (after (effect_of done) (state_of pass.old))) }
    ensures moved { OnOk result ((opening : LedgerMap) → AreMoved opening pass.old.entries pass.old.moved
        → AreMoved opening pass.new.entries pass.new.moved) }
    ensures kept { OnOk result (pass.new.kept ≡ pass.old.kept) }
{
    change_all(
        alloc,
        &mut pass.entries,
        &mut pass.moved,
        done.changes.into_vec(),
    )?;
    extend_all(
        alloc,
        &mut pass.entries,
        &mut pass.moved,
        done.extensions.into_vec(),
    )?;
    pass.reports.push(done.result, done.success)
}
