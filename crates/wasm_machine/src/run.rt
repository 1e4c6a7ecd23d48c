//! Runs up to their end or to the next call of an import.

ghost use Rattle.std.specs.Prelude.{◌≡◌, slice_get, IfOk, OnOk};
ghost use Rattle.wasm_spec.specs.Runs.{Run};
ghost use Rattle.wasm_machine.specs.Behaves.{Behaves};
ghost use Rattle.wasm_machine.specs.MachineState.{machine_of};
ghost use Rattle.wasm_machine.specs.Says.{Says, IsLess};
ghost use Rattle.wasm_spec.specs.Spending.{IsLater};

use crate::machine::{MachineState, Outcome, Quick};
use crate::quick::{is_plain, is_quick, take_branch, take_plain};
use crate::step::{next_step, take};
use budget_meter::Budget;
use std::alloc::AllocError;
use wasm_code::FlatCode;
use wasm_spec::{Module, TrapKind, Value, ValueType};

/// Why a run paused or ended.
#[derive(Drop)]
pub enum Paused {
    /// The outermost call returned. The topmost operand is its result.
    Done(Option<Value>),
    /// The run called the import of this index with these arguments and waits for its result, which has this type.
    HostCall(u32, Vec<u64>, Option<ValueType>),
    Trap(TrapKind),
    /// The budget cannot pay for the next instruction.
    Spent,
}

/// Runs to the end, to the next call of an import, or until the budget is spent.
pub fn run(
    source: &Module,
    code: &FlatCode,
    machine: &mut MachineState,
    budget: &mut Budget,
) -> Result<Paused, AllocError>
    requires { (r : Run) × Behaves source.now code.now (machine_of machine.old budget.old) r }
    ensures says { IfOk result (λ p. (r : Run) → Behaves source.now code.now (machine_of machine.old budget.old) r
        → Says source.now code.now r p (machine_of machine.new budget.new)) }
    ensures spends { IsLater budget.old budget.new }
    ensures less { IfOk result (λ p. IsLess code.now p (machine_of machine.old budget.old) (machine_of machine.new budget.new)) }
{
    loop {
        let next = next_step(source, code, machine, budget);
        // Most steps are plain, so this is the first test.
        if is_plain(next) {
            match take_plain(source, code, machine, budget, next) {
                Quick::Goes => {}
                Quick::Traps(kind) => return Ok(Paused::Trap(kind)),
                Quick::RunsOut => return Ok(Paused::Spent),
                Quick::NoMemory => return Err(AllocError),
            }
        } else if is_quick(next) {
            match take_branch(source, code, machine, budget, next) {
                Quick::Goes => {}
                Quick::Traps(kind) => return Ok(Paused::Trap(kind)),
                Quick::RunsOut => return Ok(Paused::Spent),
                Quick::NoMemory => return Err(AllocError),
            }
        } else {
            match take(source, code, machine, budget, next)? {
                Outcome::Goes => {}
                Outcome::Ends => return Ok(Paused::Done(machine.operands.top())),
                Outcome::Traps(kind) => return Ok(Paused::Trap(kind)),
                Outcome::RunsOut => return Ok(Paused::Spent),
                Outcome::Asks(function_index, args, result) => return Ok(Paused::HostCall(
                    function_index,
                    args,
                    result,
                )),
            }
        }
    }
}
