//! Branches and returns.

ghost use Rattle.std.specs.Prelude.{slice_get};
ghost use Rattle.wasm_machine.specs.Machine.{jumps, returns};
ghost use Rattle.wasm_machine.specs.MachineState.{CanMove, Moves};

use crate::machine::{MachineState, Outcome};
use wasm_code::FlatCode;

/// Branches to the target. Removes `dropped` operands under the one that the branch carries, if it carries one.
pub fn jump(code: &FlatCode, machine: &mut MachineState, target_index: usize, dropped: usize)
    requires { CanMove (jumps (slice_get code.now.targets target_index) dropped) machine.old }
    ensures { Moves (jumps (slice_get code.now.targets target_index) dropped) machine.old Outcome.Goes machine.new }
{
    let target = code.targets.as_slice()[target_index];
    machine.operands.cut(target.result, dropped);
    machine.pc = target.pc;
}

/// Returns from a function to its caller, or ends the run.
pub fn leave(machine: &mut MachineState) -> Outcome
    ensures { Moves (λ x. returns x.frames x) machine.old result machine.new }
{
    match machine.frames.pop() {
        None => Outcome::Ends,
        Some(waiting) => {
            machine.pc = waiting.pc;
            machine.locals = waiting.locals;
            Outcome::Goes
        }
    }
}
