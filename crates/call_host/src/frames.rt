//! How a frame's run begins and ends, apart from the run of its code.

ghost use Rattle.std.specs.Prelude.{◌≡◌, length, IfOk, not, IfErr};
ghost use Rattle.value_types.specs.Views.{datum, datums};
ghost use Rattle.host_spec.specs.Hosted.{IsHosted};
ghost use Rattle.host_frame.specs.Made.{AreMade};
ghost use Rattle.object_store.specs.Shown.{shown_of, AreIndices};
ghost use Rattle.contract_storage.specs.Stored.{IsLater};
ghost use Rattle.call_spec.specs.World.{World, Env};
ghost use Rattle.call_spec.specs.Frames.{is_same as is_same_copy, writes_if, writes_instance, finished};
ghost use Rattle.call_spec.specs.Outcomes.{quiet, Says};
ghost use Rattle.host_ledger.specs.Traced.{leaving};
ghost use Rattle.host_ledger.specs.Worlds.{Serves, IsHeld, copied};
ghost use Rattle.host_ledger.specs.Spelled.{IsKeySpelled};
ghost use Rattle.call_host.specs.Framed.{argument_words};

use crate::functions::clone_args;
use budget_meter::Budget;
use call_parts::{charge_run, is_same, returned_value, show_args, write_instance};
use contract_storage::{Storage, Watch};
use entry_lookup::Ground;
use host_ledger::{Frame, InstanceCopy};
use host_spec::HostErr;
use object_store::{Objects, Shown};
use value_types::{Hash, ScVal};
use wasm_spec::Module;

/// Charges for a run of a module's function, and shows clones of its arguments. Returns their words.
pub(crate) fn argument_words(
    objects: &mut Objects,
    shown: &mut Shown,
    budget: &mut Budget,
    module: &Module,
    args: &[ScVal],
) -> Result<Vec<u64>, HostErr>
    requires made { AreMade (datums args.now) }
    requires indices { AreIndices objects.old shown.old }
    ensures does { (w : World) → w.frame.shown ≡ shown_of objects.old shown.old → w.meter ≡ budget.old
        → Says result (λ words. words.items) (argument_words «module».now.memories (datums args.now) w)
        (quiet w (λ trace. record w {
          frame = record w.frame { shown = shown_of objects.new shown.new };
          trace = trace;
          meter = budget.new;
        })) }
    ensures count { IfOk result (λ words. length words.items ≡ length (datums args.now)) }
    ensures indices { AreIndices objects.new shown.new }
    ensures key { IfErr result IsKeySpelled }
{
    match charge_run(budget, module) {
        Ok(()) => match clone_args(objects.allocator(), args) {
            Ok(args) => show_args(objects, shown, budget, args),
            Err(error) => Err(error),
        },
        Err(error) => Err(error),
    }
}

/// Writes the frame's copy of the instance if it differs from the instance at the frame's start.
fn write_if_changed<G: Ground, W: Watch>(
    storage: &mut Storage<'_, G, W>,
    budget: &mut Budget,
    n: u32,
    contract: Hash,
    first: &InstanceCopy,
    copy: &InstanceCopy,
) -> Result<(), HostErr>
    requires held { IsHeld copy.now.storage }
    requires number { storage.old.n ≡ n }
    ensures does { (env : Env) → Serves env storage.old → (w : World) → w.entries ≡ storage.old.map → w.meter ≡ budget.old
        → w.frame.contract ≡ contract → w.frame.first ≡ copied first.now → w.frame.copy ≡ copied copy.now
        → Says result (λ u. u) (writes_instance env w)
        (leaving storage.old storage.new w.trace
        (λ trace. record w { entries = storage.new.map; trace = trace; meter = budget.new })) }
    ensures later { IsLater storage.old storage.new }
    ensures key { IfErr result IsKeySpelled }
{
    if is_same(first, copy) {
        return Ok(());
    }
    write_instance(storage, budget, n, contract, copy)
}

/// Ends a frame whose code returned a word: the value that the word means, and the write of the instance.
pub(crate) fn finish<G: Ground, W: Watch>(
    storage: &mut Storage<'_, G, W>,
    budget: &mut Budget,
    n: u32,
    objects: &Objects,
    frame: &Frame,
    word: u64,
) -> Result<ScVal, HostErr>
    requires held { IsHeld frame.now.copy.storage }
    requires number { storage.old.n ≡ n }
    requires indices { AreIndices objects.now frame.now.shown }
    ensures does { (env : Env) → Serves env storage.old → (w : World) → w.entries ≡ storage.old.map → w.meter ≡ budget.old
        → w.frame.shown ≡ shown_of objects.now frame.now.shown → w.frame.contract ≡ frame.now.contract
        → w.frame.first ≡ copied frame.now.first → w.frame.copy ≡ copied frame.now.copy
        → Says result datum (finished env word w)
        (leaving storage.old storage.new w.trace
        (λ trace. record w { entries = storage.new.map; trace = trace; meter = budget.new })) }
    ensures hosted { IfOk result (λ value. IsHosted (datum value)) }
    ensures later { IsLater storage.old storage.new }
    ensures key { IfErr result IsKeySpelled }
{
    let value = returned_value(objects, &frame.shown, word)?;
    write_if_changed(
        storage,
        budget,
        n,
        frame.contract,
        &frame.first,
        &frame.copy,
    )?;
    Ok(value)
}
