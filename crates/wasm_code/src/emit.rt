//! The compiler from a module's instruction trees to flat code.

ghost use Rattle.std.specs.Prelude.{◌≡◌, ◌<◌, ◌≤◌, ◌+◌, ◌-◌, ◌^◌, [], length, Some, Bool, IfOk, OnOk, option_copied};
ghost use Rattle.std.specs.List.{AllByRecursion};
ghost use Rattle.wasm_spec.specs.Code.{Code, control, end};
ghost use Rattle.wasm_spec.specs.Views.{before, code_of};
ghost use Rattle.wasm_spec.specs.Typing.{Typed, result_of};
ghost use Rattle.wasm_code.specs.Closed.{Closed, ControlClosed, FunctionClosed};
ghost use Rattle.wasm_code.specs.Placed.{arity, counts_of, height_after_call, IsCompiled};
ghost use Rattle.wasm_code.specs.Emitted.{Emitted, EmittedAll, RowEmitted, Puts, Opens, Closes, Forgets, Patches};
ghost use Rattle.wasm_code.specs.Emitted.{FunctionEmitted, ImportsEmitted, jump_step};

use crate::labels::{Labels, Open};
use crate::op::Steps;
use crate::step::{FlatCode, Step, Target};
use crate::types::{function_type, type_at};
use std::alloc::{AllocError, Global};
use wasm_spec::{Control, FuncType, Function, Instr, Items, Module, Numeric, Plain, ValueType};

/// The code emitted so far, the labels in scope, and the label of the current function's own block.
#[derive(Drop)]
pub struct Emitter {
    pub steps: Steps,
    pub targets: Vec<Target>,
    pub labels: Labels,
    pub home: Open,
}

/// Returns the result type of a function of this type.
fn result_of(function_type: &FuncType) -> Option<ValueType>
    ensures { result ≡ result_of function_type.now }
{
    function_type.results.as_slice().first().copied()
}

/// Returns the number of values in a result: 0 or 1.
fn arity(carried: Option<ValueType>) -> usize
    ensures value { result ≡ arity carried }
    ensures bound { result ≤ 1 }
{
    match carried {
        None => 0,
        Some(_) => 1,
    }
}

/// Returns the number of operands that an instruction pops.
fn taken(plain: Plain) -> usize
    ensures { result ≡ (counts_of plain).takes }
{
    match plain {
        Plain::Nop
        | Plain::LocalGet(_)
        | Plain::GlobalGet(_)
        | Plain::MemorySize
        | Plain::I32Const(_)
        | Plain::I64Const(_) => 0,
        Plain::Drop
        | Plain::LocalSet(_)
        | Plain::LocalTee(_)
        | Plain::GlobalSet(_)
        | Plain::Load(_, _)
        | Plain::MemoryGrow => 1,
        Plain::Store(_, _) => 2,
        Plain::Select => 3,
        Plain::Numeric(Numeric::Eqz(_) | Numeric::Unary(_, _) | Numeric::Convert(_)) => 1,
        Plain::Numeric(Numeric::Compare(_, _) | Numeric::Binary(_, _)) => 2,
    }
}

/// Returns the number of operands that an instruction pushes.
fn given(plain: Plain) -> usize
    ensures value { result ≡ (counts_of plain).gives }
    ensures bound { result ≤ 1 }
{
    match plain {
        Plain::Nop | Plain::Drop | Plain::LocalSet(_) | Plain::GlobalSet(_) | Plain::Store(_, _) =>
            0,
        Plain::Select
        | Plain::LocalGet(_)
        | Plain::LocalTee(_)
        | Plain::GlobalGet(_)
        | Plain::Load(_, _)
        | Plain::MemorySize
        | Plain::MemoryGrow
        | Plain::I32Const(_)
        | Plain::I64Const(_)
        | Plain::Numeric(_) => 1,
    }
}

/// Appends a step.
fn put(out: &mut Emitter, step: Step) -> Result<(), AllocError>
    ensures { OnOk result (Puts out.old out.new step) }
{
    out.steps.push(step)?;
    Ok(())
}

/// Returns the height of the operands after `more` are pushed. It cannot overflow, since there are never more operands than
/// steps.
fn higher(out: &Emitter, height: usize, more: usize) -> usize
    requires height { height < length out.now.steps }
    requires more { more ≤ 1 }
    ensures { result ≡ height + more }
{
    prove!(height < out.steps.len());
    height + more
}

/// Appends a branch to a label, at a step with `height` operands.
fn jump(out: &mut Emitter, label: Open, height: usize, conditional: bool) -> Result<(), AllocError>
    ensures { OnOk result
        (Puts out.old out.new (jump_step conditional label.target (height - label.height - arity label.result))) }
{
    let dropped = height
        .saturating_sub(label.height)
        .saturating_sub(arity(label.result));
    if conditional {
        put(out, Step::JumpIf(label.target, dropped))
    } else {
        put(out, Step::Jump(label.target, dropped))
    }
}

/// Opens a label whose target is `pc` until the label is closed. Returns the index of the target.
fn open_label(
    out: &mut Emitter,
    pc: usize,
    carried: Option<ValueType>,
    height: usize,
) -> Result<usize, AllocError>
    ensures { IfOk result (λ target. Opens out.old out.new pc carried height target) }
{
    let target = out.targets.len();
    out.targets.push(Target {
        pc,
        result: carried,
    })?;
    out.labels.push(Open {
        target,
        result: carried,
        height,
    })?;
    Ok(target)
}

/// Closes the innermost label and sets its target to the next step.
fn close_label(out: &mut Emitter, target: usize, carried: Option<ValueType>)
    requires { target < length out.old.targets.items }
    ensures { Closes out.old out.new target carried }
{
    out.targets[target] = Target {
        pc: out.steps.len(),
        result: carried,
    };
    out.labels.pop();
}

/// Closes the label of a loop. Its target stays the start of the loop.
fn forget_label(out: &mut Emitter)
    ensures { Forgets out.old out.new }
{
    out.labels.pop();
}

/// Sets where the test of an `if` and the end of its first branch lead.
fn patch(out: &mut Emitter, test: usize, skip: usize)
    requires test { test < length out.old.steps }
    requires skip { skip < length out.old.steps }
    ensures { Patches out.old out.new test skip }
{
    let end = out.steps.len();
    out.steps.set(test, Step::Unless(skip + 1));
    out.steps.set(skip, Step::Skip(end));
}

/// Appends the jumps of a `br_table`: one to each of `depths`, and one to `other`.
fn emit_row(out: &mut Emitter, depths: &[u32], other: u32, height: usize) -> Result<(), AllocError>
    requires depths { AllByRecursion (λ k. k < length out.old.labels) depths.now }
    requires other { other < length out.old.labels }
    ensures { OnOk result (RowEmitted out.old out.new height depths.now other) }
{
    for depth in depths {
        let label = out.labels.at(*depth as usize);
        jump(out, label, height, false)?;
    }
    let label = out.labels.at(other as usize);
    jump(out, label, height, false)
}

/// Appends a control instruction with no instructions inside. Returns the number of operands after it.
fn emit_control(
    out: &mut Emitter,
    module: &Module,
    instruction: &Control,
    height: usize,
) -> Result<usize, AllocError>
    requires closed { ControlClosed «module».now (length out.old.labels) instruction.now }
    requires bound { height ≤ length out.old.steps }
    ensures placed { IfOk result (λ after. Emitted «module».now out.old out.new height after (control instruction.now)) }
    ensures bound { IfOk result (λ after. after ≤ length out.new.steps) }
{
    match instruction {
        Control::Unreachable => {
            put(out, Step::Unreachable)?;
            Ok(height)
        }
        Control::Br(depth) => {
            let label = out.labels.at(*depth as usize);
            jump(out, label, height, false)?;
            Ok(height)
        }
        Control::BrIf(depth) => {
            let label = out.labels.at(*depth as usize);
            let below = height.saturating_sub(1);
            jump(out, label, below, true)?;
            Ok(below)
        }
        Control::BrTable(depths, other) => {
            put(out, Step::Table(depths.as_slice().len()))?;
            emit_row(out, depths.as_slice(), *other, height.saturating_sub(1))?;
            Ok(height)
        }
        Control::Return => {
            let home = out.home;
            jump(out, home, height, false)?;
            Ok(height)
        }
        Control::Call(function) => {
            put(out, Step::Call(*function))?;
            let called = function_type(module, *function);
            Ok(after_call(out, called, height))
        }
        Control::CallIndirect(type_index) => {
            put(out, Step::CallIndirect(*type_index))?;
            let called = type_at(module, *type_index);
            Ok(after_call(out, called, height.saturating_sub(1)))
        }
    }
}

/// Returns the number of operands after the call of a function of this type.
fn after_call(out: &Emitter, called: Option<&FuncType>, height: usize) -> usize
    requires { height < length out.now.steps }
    ensures value { result ≡ height_after_call (option_copied called.entry) height }
    ensures bound { result ≤ length out.now.steps }
{
    match called {
        None => height,
        Some(called) => {
            let below = height.saturating_sub(called.params.as_slice().len());
            higher(out, below, arity(result_of(called)))
        }
    }
}

/// Appends an instruction. Returns the number of operands after it.
#[cycle(emit)]
fn emit_one(
    out: &mut Emitter,
    module: &Module,
    instruction: &Instr,
    height: usize,
) -> Result<usize, AllocError>
    requires closed { Closed «module».now (length out.old.labels) (before instruction.now end) }
    requires bound { height ≤ length out.old.steps }
    ensures placed { IfOk result (λ after. Emitted «module».now out.old out.new height after (before instruction.now)) }
    ensures bound { IfOk result (λ after. after ≤ length out.new.steps) }
{
    match instruction {
        Instr::Plain(plain) => {
            put(out, Step::Plain(*plain))?;
            let below = height.saturating_sub(taken(*plain));
            Ok(higher(out, below, given(*plain)))
        }
        Instr::Control(control) => emit_control(out, module, control, height),
        Instr::Block(result_type, body) => {
            put(out, Step::Pass)?;
            let target = open_label(out, 0, *result_type, height)?;
            emit_all(out, module, body.as_slice(), height)?;
            close_label(out, target, *result_type);
            Ok(higher(out, height, arity(*result_type)))
        }
        Instr::Loop(result_type, body) => {
            put(out, Step::Pass)?;
            let start = out.steps.len();
            open_label(out, start, None, height)?;
            emit_all(out, module, body.as_slice(), height)?;
            forget_label(out);
            Ok(higher(out, height, arity(*result_type)))
        }
        Instr::If(result_type, yes, no) => {
            let below = height.saturating_sub(1);
            let test = out.steps.len();
            put(out, Step::Unless(0))?;
            let target = open_label(out, 0, *result_type, below)?;
            emit_all(out, module, yes.as_slice(), below)?;
            let skip = out.steps.len();
            put(out, Step::Skip(0))?;
            emit_all(out, module, no.as_slice(), below)?;
            patch(out, test, skip);
            close_label(out, target, *result_type);
            Ok(higher(out, below, arity(*result_type)))
        }
    }
}

/// Appends a sequence of instructions.
#[cycle(emit)]
fn emit_all(
    out: &mut Emitter,
    module: &Module,
    instructions: &[Instr],
    height: usize,
) -> Result<(), AllocError>
    requires closed { Closed «module».now (length out.old.labels) (code_of instructions.now) }
    requires bound { height ≤ length out.old.steps }
    ensures { OnOk result (EmittedAll «module».now out.old out.new height (code_of instructions.now)) }
{
    let mut current_height = height;
    for instruction in instructions {
        current_height = emit_one(out, module, instruction, current_height)?;
    }
    Ok(())
}

/// Appends a function and its `End`. Returns the index of its first step.
fn emit_function(
    out: &mut Emitter,
    module: &Module,
    function: &Function,
) -> Result<usize, AllocError>
    requires labels { out.old.labels ≡ [] }
    requires closed { FunctionClosed «module».now function.now }
    ensures { IfOk result (λ entry. FunctionEmitted «module».now out.old out.new function.now entry) }
{
    let Some(function_type) = type_at(module, function.type_index) else {
        unreachable!()
    };
    let carried = result_of(function_type);
    let pc = out.steps.len();
    let target = open_label(out, 0, carried, 0)?;
    out.home = Open {
        target,
        result: carried,
        height: 0,
    };
    emit_all(out, module, function.body.as_slice(), 0)?;
    close_label(out, target, carried);
    put(out, Step::End)?;
    Ok(pc)
}

/// Appends two steps for each import, before the code of all functions, so that a host can call an import as it calls a function.
fn emit_imports(out: &mut Emitter, module: &Module) -> Result<(), AllocError>
    requires steps { out.old.steps ≡ [] }
    requires labels { out.old.labels ≡ [] }
    requires few { length «module».now.imports < 2 ^ 32 }
    ensures { OnOk result (ImportsEmitted «module».now out.new) }
{
    for import in 0..module.imports.as_slice().len() {
        put(out, Step::Import(import as u32))?;
        put(out, Step::End)?;
    }
    Ok(())
}

/// Compiles a valid module to flat code.
pub fn compile(alloc: Global, module: &Module) -> Result<FlatCode, AllocError>
    requires { Typed «module».now }
    ensures { IfOk result (IsCompiled «module».now) }
{
    let mut out = Emitter {
        steps: Steps::new(alloc),
        targets: Vec::new(alloc),
        labels: Labels::new(alloc),
        home: Open {
            target: 0,
            result: None,
            height: 0,
        },
    };
    emit_imports(&mut out, module)?;
    let mut entries = Vec::new(alloc);
    for function in module.functions.as_slice() {
        entries.push(emit_function(&mut out, module, function)?)?;
    }
    let Emitter {
        steps,
        targets,
        labels: _,
        home: _,
    } = out;
    Ok(FlatCode {
        steps,
        targets: Items::from_vec(targets),
        entries: Items::from_vec(entries),
    })
}
