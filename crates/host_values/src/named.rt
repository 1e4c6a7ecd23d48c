//! Calls by the module and the name of an import.

ghost use Rattle.std.specs.Prelude.{◌≡◌, ℕ, List};
ghost use Rattle.host_spec.specs.Acts.{state};
ghost use Rattle.object_store.specs.Shown.{shown_of, AreIndices};
ghost use Rattle.host_frame.specs.Made.{IsMemory};
ghost use Rattle.host_interface.specs.Named.{import_named};
ghost use Rattle.host_values.specs.Called.{IsNamedCall, HostCalls, function_named};

use crate::call::call_function;
use budget_meter::Budget;
use host_interface::import_named;
use host_spec::HostErr;
use object_store::{Objects, Shown};

/// What a function over values is lent: all objects, those that the frame has shown, the frame's linear memory, and the budget.
#[derive(Drop)]
pub struct HostValues<'a> {
    pub objects: &'a mut Objects,
    pub shown: &'a mut Shown,
    pub memory: &'a mut [u8],
    pub budget: &'a mut Budget,
}

/// Calls the function over values with this module and this name. It searches the table: a caller that has the function itself
/// uses `call_function`.
pub fn value_call(
    host: &mut HostValues<'_>,
    module: &[u8],
    name: &[u8],
    args: &[u64],
) -> Result<u64, HostErr>
    requires call { IsNamedCall (import_named «module».now name.now) args.now }
    requires indices { AreIndices host.old.objects.now host.old.shown.now }
    requires memory { IsMemory host.old.memory.now }
    ensures same_objects { host.new.objects.ghost_name ≡ host.old.objects.ghost_name }
    ensures same_shown { host.new.shown.ghost_name ≡ host.old.shown.ghost_name }
    ensures same_memory { host.new.memory.ghost_name ≡ host.old.memory.ghost_name }
    ensures same_budget { host.new.budget.ghost_name ≡ host.old.budget.ghost_name }
    ensures does { HostCalls result (function_named «module».now name.now) args.now
        (state (shown_of host.old.objects.now host.old.shown.now) host.old.memory.now host.old.budget.now)
        (state (shown_of host.new.objects.now host.new.shown.now) host.new.memory.now host.new.budget.now) }
    ensures indices { AreIndices host.new.objects.now host.new.shown.now }
{
    let Some(import) = import_named(module, name) else {
        unreachable!();
    };
    let word = call_function(
        host.objects,
        host.shown,
        host.memory,
        host.budget,
        import,
        args,
    )?;
    Ok(word)
}
