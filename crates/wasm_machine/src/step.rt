//! One step of the machine that calls, returns, grows the memory or is free of charge.

ghost use Rattle.std.specs.Prelude.{◌≡◌, ◌≢◌, ◌<◌, ◌^◌, ◌∷◌, false, slice_get, IfOk, Some};
ghost use Rattle.wasm_spec.specs.declared.instructions.Plain.TheVariants as plain;
ghost use Rattle.wasm_spec.specs.Effects.{effect_of};
ghost use Rattle.wasm_machine.specs.Machine.{Fails, affects, executes, passes, is_free, pays, moves, move};
ghost use Rattle.wasm_code.specs.declared.step.Step.TheVariants as flat;
ghost use Rattle.wasm_code.specs.Ops.{step_of};
ghost use Rattle.wasm_machine.specs.MachineState.{IsMove, machine_of, CanMove, Moves};
ghost use Rattle.wasm_machine.specs.Quick.{is_quick};
ghost use Rattle.wasm_spec.specs.Spending.{IsLater};

use crate::calls::{call, call_import, call_indirect};
use crate::jumps::leave;
use crate::machine::{MachineState, Outcome};
use crate::payment::pay;
use crate::store::PAGE_BYTES;
use budget_meter::{Budget, Kind};
use std::alloc::AllocError;
use wasm_code::{FlatCode, Op, type_at};
use wasm_spec::{Module, TrapKind, Value};

/// Returns whether the step is free of charge.
fn is_free(op: &Op) -> bool
    ensures { result ≡ is_free (step_of op.now) }
{
    matches!(*op, Op::Skip(_) | Op::Import(_) | Op::End)
}

/// Executes `memory.grow`. A growth past the memory's largest size fails without a charge.
#[tactic(auto, using(wasm_spec::proofs::Lemmas::same, wasm_spec::proofs::Lemmas::charged_later))]
fn grow(machine: &mut MachineState, budget: &mut Budget) -> Result<Outcome, AllocError>
    requires pc { machine.old.pc < 2 ^ 63 }
    requires moves { affects (effect_of plain.MemoryGrow machine.old.operands machine.old.locals.items machine.old.store)
        (machine_of machine.old budget.old) ≢ Fails }
    ensures moves { IfOk result (λ o. IsMove
        (affects (effect_of plain.MemoryGrow machine.old.operands machine.old.locals.items machine.old.store)
        (machine_of machine.old budget.old)) o (machine_of machine.new budget.new)) }
    ensures unpaid { IfOk result (λ o. o ≡ Outcome.RunsOut → machine.new.store ≡ machine.old.store) }
    ensures spends { IsLater budget.old budget.new }
{
    let more = machine.operands.pop32();
    let pages = machine.store.pages();
    if u64::from(pages) + u64::from(more) > u64::from(machine.store.most_pages()) {
        machine.operands.push(Value::I32(u32::MAX))?;
        machine.pc += 1;
        return Ok(Outcome::Goes);
    }
    if budget
        .charge(Kind::MemAlloc, u64::from(more) * PAGE_BYTES as u64)
        .is_err()
    {
        return Ok(Outcome::RunsOut);
    }
    machine.store.grow(more)?;
    machine.operands.push(Value::I32(pages))?;
    machine.pc += 1;
    Ok(Outcome::Goes)
}

/// Executes a step that is free of charge.
fn pass(
    source: &Module,
    machine: &mut MachineState,
    budget: &Budget,
    op: &Op,
) -> Result<Outcome, AllocError>
    requires pc { machine.old.pc < 2 ^ 63 }
    requires moves { passes source.now (step_of op.now) (machine_of machine.old budget.now) ≢ Fails }
    ensures { IfOk result (λ o. IsMove (passes source.now (step_of op.now) (machine_of machine.old budget.now)) o
        (machine_of machine.new budget.now)) }
{
    match *op {
        Op::Skip(to) => {
            machine.pc = to;
            Ok(Outcome::Goes)
        }
        Op::Import(function_index) => call_import(source, machine, function_index),
        Op::End => Ok(leave(machine)),
        _ => unreachable!(),
    }
}

/// Executes `call_indirect`: the topmost operand is the index of the table element.
#[tactic(auto, using(crate::proofs::MoveLaws::top_found))]
fn call_by_table(
    source: &Module,
    code: &FlatCode,
    machine: &mut MachineState,
    index: u32,
) -> Result<Outcome, AllocError>
    requires pc { machine.old.pc < 2 ^ 63 }
    requires moves { CanMove (executes source.now code.now (flat.CallIndirect index)) machine.old }
    ensures { IfOk result (λ o. Moves (executes source.now code.now (flat.CallIndirect index)) machine.old o machine.new) }
{
    let element = machine.operands.pop32();
    match type_at(source, index) {
        None => unreachable!(),
        Some(wanted) => call_indirect(source, code, machine, element, wanted),
    }
}

/// Executes a step that has been charged, other than a quick one.
#[tactic(auto, using(wasm_spec::proofs::Lemmas::same))]
fn execute(
    source: &Module,
    code: &FlatCode,
    machine: &mut MachineState,
    budget: &mut Budget,
    op: &Op,
) -> Result<Outcome, AllocError>
    requires pc { machine.old.pc < 2 ^ 63 }
    requires slow { is_quick (step_of op.now) ≡ false }
    requires moves { executes source.now code.now (step_of op.now) (machine_of machine.old budget.old) ≢ Fails }
    ensures moves { IfOk result (λ o. IsMove (executes source.now code.now (step_of op.now) (machine_of machine.old budget.old)) o
        (machine_of machine.new budget.new)) }
    ensures spends { IsLater budget.old budget.new }
{
    match *op {
        Op::MemoryGrow => grow(machine, budget),
        Op::Unreachable => Ok(Outcome::Traps(TrapKind::Unreachable)),
        Op::Call(function_index) => call(source, code, machine, function_index),
        Op::CallIndirect(index) => call_by_table(source, code, machine, index),
        _ => unreachable!(),
    }
}

/// Charges a step that is not quick and executes it.
fn pay_and_execute(
    source: &Module,
    code: &FlatCode,
    machine: &mut MachineState,
    budget: &mut Budget,
    op: &Op,
) -> Result<Outcome, AllocError>
    requires pc { machine.old.pc < 2 ^ 63 }
    requires slow { is_quick (step_of op.now) ≡ false }
    requires moves { pays (machine_of machine.old budget.old) (executes source.now code.now (step_of op.now)) ≢ Fails }
    ensures moves { IfOk result (λ o. IsMove
        (pays (machine_of machine.old budget.old) (executes source.now code.now (step_of op.now))) o
        (machine_of machine.new budget.new)) }
    ensures spends { IsLater budget.old budget.new }
{
    if !pay(&mut machine.left, budget) {
        return Ok(Outcome::RunsOut);
    }
    execute(source, code, machine, budget, op)
}

/// Executes the next step, which is `op` and not quick.
#[tactic(auto, using(wasm_spec::proofs::Lemmas::same))]
pub fn take(
    source: &Module,
    code: &FlatCode,
    machine: &mut MachineState,
    budget: &mut Budget,
    op: &Op,
) -> Result<Outcome, AllocError>
    requires pc { machine.old.pc < 2 ^ 63 }
    requires slow { is_quick (step_of op.now) ≡ false }
    requires moves { moves source.now code.now (Some (step_of op.now)) (machine_of machine.old budget.old) ≢ Fails }
    ensures moves { IfOk result (λ o. IsMove
        (moves source.now code.now (Some (step_of op.now)) (machine_of machine.old budget.old)) o
        (machine_of machine.new budget.new)) }
    ensures spends { IsLater budget.old budget.new }
{
    if is_free(op) {
        pass(source, machine, budget, op)
    } else {
        pay_and_execute(source, code, machine, budget, op)
    }
}

/// Returns the next step.
pub fn next_step<'a>(
    source: &Module,
    code: &'a FlatCode,
    machine: &MachineState,
    budget: &Budget,
) -> &'a Op
    requires { move source.now code.now (machine_of machine.now budget.now) ≢ Fails }
    ensures step { slice_get code.now.steps machine.now.pc ≡ Some (step_of result.now) }
    ensures pc { machine.now.pc < 2 ^ 63 }
{
    code.steps.at(machine.pc)
}
