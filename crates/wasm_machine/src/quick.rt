//! One step of the machine that neither calls nor returns. Most steps of a run are of this kind, so its outcome is small.

ghost use Rattle.std.specs.Prelude.{◌≡◌, ◌≢◌, ◌<◌, ◌^◌, ◌∷◌, true, false, slice_get, IfOk, Some};
ghost use Rattle.wasm_spec.specs.declared.instructions.Plain.TheVariants as plain;
ghost use Rattle.wasm_spec.specs.Effects.{effect_of};
ghost use Rattle.wasm_machine.specs.Machine.{Fails, affects, executes, jumps_by, pays};
ghost use Rattle.wasm_code.specs.declared.step.Step.TheVariants as flat;
ghost use Rattle.wasm_code.specs.Ops.{step_of, plain_of};
ghost use Rattle.wasm_machine.specs.MachineState.{machine_of, CanMove, IsMove, Moves};
ghost use Rattle.wasm_machine.specs.Quick.{is_plain, is_quick, IsQuick};
ghost use Rattle.wasm_spec.specs.Spending.{IsLater};

use crate::jumps::jump;
use crate::machine::{MachineState, Outcome, Quick};
use crate::payment::pay;
use crate::plain::apply;
use budget_meter::Budget;
use wasm_code::{FlatCode, Op};
use wasm_spec::Module;

/// Returns whether the step neither calls nor returns nor grows the memory, and is charged.
pub fn is_quick(op: &Op) -> bool
    ensures { result ≡ is_quick (step_of op.now) }
{
    match *op {
        Op::MemoryGrow
        | Op::Unreachable
        | Op::Skip(_)
        | Op::Call(_)
        | Op::CallIndirect(_)
        | Op::Import(_)
        | Op::End => false,
        _ => true,
    }
}

/// Returns whether the step is an instruction other than `memory.grow` that never branches.
pub fn is_plain(op: &Op) -> bool
    ensures { result ≡ is_plain (step_of op.now) }
{
    match *op {
        Op::MemoryGrow
        | Op::Unreachable
        | Op::Pass
        | Op::Unless(_)
        | Op::Skip(_)
        | Op::Jump(_, _)
        | Op::JumpIf(_, _)
        | Op::Table(_)
        | Op::Call(_)
        | Op::CallIndirect(_)
        | Op::Import(_)
        | Op::End => false,
        _ => true,
    }
}

/// Executes an instruction other than `memory.grow` that never branches.
fn go_on(machine: &mut MachineState, budget: &Budget, op: &Op) -> Quick
    requires pc { machine.old.pc < 2 ^ 63 }
    requires other { plain_of op.now ≢ plain.MemoryGrow }
    requires moves { affects (effect_of (plain_of op.now) machine.old.operands machine.old.locals.items machine.old.store)
        (machine_of machine.old budget.now) ≢ Fails }
    ensures { IsQuick (affects (effect_of (plain_of op.now) machine.old.operands machine.old.locals.items machine.old.store)
        (machine_of machine.old budget.now)) result (machine_of machine.new budget.now) }
{
    match apply(
        op,
        &mut machine.operands,
        &mut machine.locals,
        &mut machine.store,
    ) {
        Ok(None) => {
            machine.pc += 1;
            Quick::Goes
        }
        Ok(Some(kind)) => Quick::Traps(kind),
        Err(_) => Quick::NoMemory,
    }
}

/// Jumps to the step `to` if the topmost operand is 0.
#[tactic(auto, using(crate::proofs::MoveLaws::top_found))]
fn unless(source: &Module, code: &FlatCode, machine: &mut MachineState, to: usize)
    requires pc { machine.old.pc < 2 ^ 63 }
    requires moves { CanMove (executes source.now code.now (flat.Unless to)) machine.old }
    ensures { Moves (executes source.now code.now (flat.Unless to)) machine.old Outcome.Goes machine.new }
{
    if machine.operands.pop32() == 0 {
        machine.pc = to;
    } else {
        machine.pc += 1;
    }
}

/// Branches to the target if the topmost operand is not 0.
#[tactic(auto, using(crate::proofs::MoveLaws::top_found))]
fn jump_if(
    source: &Module,
    code: &FlatCode,
    machine: &mut MachineState,
    target_index: usize,
    dropped: usize,
)
    requires pc { machine.old.pc < 2 ^ 63 }
    requires moves { CanMove (executes source.now code.now (flat.JumpIf target_index dropped)) machine.old }
    ensures { Moves (executes source.now code.now (flat.JumpIf target_index dropped)) machine.old Outcome.Goes machine.new }
{
    if machine.operands.pop32() == 0 {
        machine.pc += 1;
    } else {
        jump(code, machine, target_index, dropped);
    }
}

/// Branches as an entry of a branch table says.
fn jump_by(code: &FlatCode, machine: &mut MachineState, op: &Op)
    requires { CanMove (jumps_by code.now (Some (step_of op.now))) machine.old }
    ensures { Moves (jumps_by code.now (Some (step_of op.now))) machine.old Outcome.Goes machine.new }
{
    match *op {
        Op::Jump(target_index, dropped) => jump(code, machine, target_index, dropped),
        _ => unreachable!(),
    }
}

/// Branches by the branch table behind this step. The topmost operand selects the entry; the last one is the default.
#[tactic(auto, using(crate::proofs::MoveLaws::top_found))]
fn jump_by_table(source: &Module, code: &FlatCode, machine: &mut MachineState, count: usize)
    requires pc { machine.old.pc < 2 ^ 63 }
    requires moves { CanMove (executes source.now code.now (flat.Table count)) machine.old }
    ensures { Moves (executes source.now code.now (flat.Table count)) machine.old Outcome.Goes machine.new }
{
    let picked = (machine.operands.pop32() as usize).min(count);
    match code.steps.get(machine.pc + 1 + picked) {
        None => unreachable!(),
        Some(op) => jump_by(code, machine, &op),
    }
}

/// Executes a branch that has been charged.
fn branch(source: &Module, code: &FlatCode, machine: &mut MachineState, budget: &Budget, op: &Op)
    requires pc { machine.old.pc < 2 ^ 63 }
    requires quick { is_quick (step_of op.now) ≡ true }
    requires jumps { is_plain (step_of op.now) ≡ false }
    requires moves { executes source.now code.now (step_of op.now) (machine_of machine.old budget.now) ≢ Fails }
    ensures { IsMove (executes source.now code.now (step_of op.now) (machine_of machine.old budget.now)) Outcome.Goes
        (machine_of machine.new budget.now) }
{
    match *op {
        Op::Pass => machine.pc += 1,
        Op::Unless(to) => unless(source, code, machine, to),
        Op::Jump(target_index, dropped) => jump(code, machine, target_index, dropped),
        Op::JumpIf(target_index, dropped) => jump_if(source, code, machine, target_index, dropped),
        Op::Table(count) => jump_by_table(source, code, machine, count),
        _ => unreachable!(),
    }
}

/// Executes an instruction that has been charged.
fn execute_plain(
    source: &Module,
    code: &FlatCode,
    machine: &mut MachineState,
    budget: &Budget,
    op: &Op,
) -> Quick
    requires pc { machine.old.pc < 2 ^ 63 }
    requires plain { is_plain (step_of op.now) ≡ true }
    requires moves { executes source.now code.now (step_of op.now) (machine_of machine.old budget.now) ≢ Fails }
    ensures { IsQuick (executes source.now code.now (step_of op.now) (machine_of machine.old budget.now)) result
        (machine_of machine.new budget.now) }
{
    go_on(machine, budget, op)
}

/// Charges and executes the next step, which is the instruction `op`.
#[tactic(auto, using(wasm_spec::proofs::Lemmas::same))]
pub fn take_plain(
    source: &Module,
    code: &FlatCode,
    machine: &mut MachineState,
    budget: &mut Budget,
    op: &Op,
) -> Quick
    requires pc { machine.old.pc < 2 ^ 63 }
    requires plain { is_plain (step_of op.now) ≡ true }
    requires moves { pays (machine_of machine.old budget.old) (executes source.now code.now (step_of op.now)) ≢ Fails }
    ensures moves { IsQuick (pays (machine_of machine.old budget.old) (executes source.now code.now (step_of op.now))) result
        (machine_of machine.new budget.new) }
    ensures spends { IsLater budget.old budget.new }
{
    if !pay(&mut machine.left, budget) {
        return Quick::RunsOut;
    }
    execute_plain(source, code, machine, budget, op)
}

/// Charges and executes the next step, which is the branch `op`.
#[tactic(auto, using(wasm_spec::proofs::Lemmas::same))]
pub fn take_branch(
    source: &Module,
    code: &FlatCode,
    machine: &mut MachineState,
    budget: &mut Budget,
    op: &Op,
) -> Quick
    requires pc { machine.old.pc < 2 ^ 63 }
    requires quick { is_quick (step_of op.now) ≡ true }
    requires jumps { is_plain (step_of op.now) ≡ false }
    requires moves { pays (machine_of machine.old budget.old) (executes source.now code.now (step_of op.now)) ≢ Fails }
    ensures moves { IsQuick (pays (machine_of machine.old budget.old) (executes source.now code.now (step_of op.now))) result
        (machine_of machine.new budget.new) }
    ensures spends { IsLater budget.old budget.new }
{
    if !pay(&mut machine.left, budget) {
        return Quick::RunsOut;
    }
    branch(source, code, machine, budget, op);
    Quick::Goes
}
