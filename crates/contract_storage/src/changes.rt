//! The changes that the states of slots make.

ghost use Rattle.std.specs.Prelude.{◌≡◌, ◌<◌, ◌++◌, ℕ, [], Some, IfOk, OnOk, length, slice_get};
ghost use Rattle.std.specs.List.{cons_option};
ghost use Rattle.std.specs.Option.{option_map};
ghost use Rattle.entry_lookup.specs.Found.{kept_of};
ghost use Rattle.contract_storage.specs.Overlays.{kept_in, shown, IsState};
ghost use Rattle.contract_storage.specs.Differences.{is_kept, difference, AreDifferences};
ghost use Rattle.contract_storage.specs.declared.layer.Overlay.{Overlay as Overlay'};

use crate::layer::{Overlay, Shared};
use crate::table::Table;
use entry_lookup::{Found, Ground};
use ledger_spec::Kept;
use ledger_types::LedgerKey;
use std::alloc::Global;
use xdr_core::NoMemory;

/// A key that was changed, with its entry now, or `None` if it has none any more.
#[derive(Drop)]
pub struct Change {
    pub key: LedgerKey,
    pub now: Option<Kept>,
}

// Clones an entry with its live-until ledger.
fn clone_kept(shared: &Shared) -> Result<Kept, NoMemory>
    ensures { IfOk result (λ clone. clone ≡ kept_in shared.now) }
{
    Ok(Kept {
        entry: shared.entry.as_ref().clone()?,
        live_until: shared.live_until,
    })
}

// Tests whether the ground has this entry, with this live-until ledger.
fn is_kept(found: Option<Found<'_>>, shared: &Shared) -> bool
    ensures { result ≡ is_kept (option_map kept_of found.entry) (kept_in shared.now) }
{
    match found {
        None => false,
        Some(found) => {
            found.live_until == shared.live_until && found.entry == shared.entry.as_ref()
        }
    }
}

// Returns the change of a key with this state, or `None` if the key has the entry of the ground.
fn change_of(
    below: Option<Found<'_>>,
    key: &LedgerKey,
    state: &Overlay,
) -> Result<Option<Change>, NoMemory>
    ensures { IfOk result (λ change. change ≡ difference (option_map kept_of below.entry) (key.now, state.now)) }
{
    let now = match state {
        Overlay::Same => return Ok(None),
        Overlay::Gone => {
            if below.is_none() {
                return Ok(None);
            }
            None
        }
        Overlay::Now(shared) => {
            if is_kept(below, shared) {
                return Ok(None);
            }
            Some(clone_kept(shared)?)
        }
    };
    let key = key.clone()?;
    Ok(Some(Change { key, now }))
}

// Adds a change, if there is one.
fn push_change(changes: &mut Vec<Change>, change: Option<Change>) -> Result<(), NoMemory>
    ensures { OnOk result (changes.new.items ≡ changes.old.items ++ cons_option change []) }
{
    if let Some(change) = change {
        changes.push(change)?;
    }
    Ok(())
}

// Borrows the state of a slot.
fn state_at(states: &[Overlay], at: usize) -> &Overlay
    requires { at < length states.now }
    ensures { slice_get states.now at ≡ Some result.now }
{
    &states[at]
}

/// Returns the changes that the states of slots make to the ground's map. It goes through the keys in their order.
pub(crate) fn changes_of<G: Ground>(
    alloc: Global,
    table: &Table<'_, G>,
    states: &[Overlay],
) -> Result<Vec<Change>, NoMemory>
    requires each { length states.now ≡ length table.now.keys }
    requires held { (i : ℕ) (x : Overlay') → slice_get states.now i ≡ Some x → IsState table.now.keys (i, x) }
    ensures { IfOk result (λ changes.
        AreDifferences table.now.base (shown table.now.base table.now.keys states.now) changes.items) }
{
    let mut changes = Vec::new(alloc);
    for (key, at) in table.index.iter() {
        let state = state_at(states, *at);
        let change = change_of(table.slots[*at].below, key, state)?;
        push_change(&mut changes, change)?;
    }
    Ok(changes)
}
