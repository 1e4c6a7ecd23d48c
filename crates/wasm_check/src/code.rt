//! Validation of instruction sequences (core sections 3.3.5 and 3.3.6).

ghost use Rattle.std.specs.Prelude.{◌≡◌, [], reverse, OnOk, slice_get};
ghost use Rattle.std.specs.List.{list_all};
ghost use Rattle.wasm_spec.specs.Code.{Code};
ghost use Rattle.wasm_spec.specs.Views.{before, code_of};
ghost use Rattle.wasm_spec.specs.Typing.{inside, label};
ghost use Rattle.module_spec.specs.Check.{check_plain, check_control, check_call, check_table, check_indirect};
ghost use Rattle.module_spec.specs.Check.{check_by_signature, check_code, body_check, pops, same_label};
ghost use Rattle.wasm_check.specs.Checks.{Checks, ChecksOn, IsChecked};
ghost use Rattle.wasm_check.specs.Contexts.{context_in};

use crate::context::{Labels, Scope};
use crate::error::Fault;
use crate::operands::{Stack, same_type};
use crate::signature::signature_of;
use std::alloc::Global;
use wasm_code::function_type;
use wasm_spec::{Control, FuncType, Instr, Module, Plain, ValueType};

/// Checks an instruction of core sections 3.3.1 to 3.3.4.
fn check_plain(module: &Module, scope: &Scope, plain: Plain, stack: &mut Stack) -> Result<(), Fault>
    ensures { Checks (check_plain (context_in module.now scope.now) plain stack.old) result stack.new }
{
    match plain {
        Plain::Drop => {
            stack.pop_any().ok_or(Fault::Ill)?;
            Ok(())
        }
        Plain::Select => stack.select(),
        _ => check_signature(module, scope, plain, stack),
    }
}

/// Checks an instruction whose operand types follow from its signature.
fn check_signature(
    module: &Module,
    scope: &Scope,
    plain: Plain,
    stack: &mut Stack,
) -> Result<(), Fault>
    ensures { Checks (check_by_signature (context_in module.now scope.now) plain stack.old) result stack.new }
{
    let signature = signature_of(module, scope, plain).ok_or(Fault::Ill)?;
    stack.apply(signature)
}

/// Pops the arguments of a call, the last one first. Stops where every further pop would succeed: so all calls together
/// pop no more operands than the code pushes, even if the code has many calls of a function with many parameters.
fn pop_arguments(types: &[ValueType], stack: &mut Stack) -> Result<(), Fault>
    ensures { Checks (pops (reverse types.now) stack.old) result stack.new }
{
    let mut left = types.len();
    while left > 0 && !stack.is_bottomless() {
        left -= 1;
        stack.pop(types[left])?;
    }
    Ok(())
}

/// Checks a call of a function of the type.
fn check_call(called: &FuncType, stack: &mut Stack) -> Result<(), Fault>
    ensures { Checks (check_call called.now stack.old) result stack.new }
{
    pop_arguments(called.params.as_slice(), stack)?;
    stack.push_result(called.results.as_slice().first().copied())
}

/// Returns whether the label exists and has the result type `taken`.
fn is_same_label(taken: Option<ValueType>, label: Option<Option<ValueType>>) -> bool
    ensures { result ≡ same_label taken label }
{
    match label {
        None => false,
        Some(None) => taken.is_none(),
        Some(Some(value_type)) => match taken {
            None => false,
            Some(taken) => same_type(taken, value_type),
        },
    }
}

/// Returns whether each of these labels exists and has the result type `taken`.
fn are_same_labels(labels: &Labels, indices: &[u32], taken: Option<ValueType>) -> bool
    ensures { result ≡ list_all (λ k. same_label taken (slice_get labels.now k)) indices.now }
{
    indices
        .iter()
        .all(|index| is_same_label(taken, labels.at(*index as usize)))
}

/// Checks `br_table`, whose default label has the result type `taken`.
fn check_table(
    labels: &Labels,
    indices: &[u32],
    taken: Option<ValueType>,
    stack: &mut Stack,
) -> Result<(), Fault>
    ensures { Checks (check_table labels.now indices.now taken stack.old) result stack.new }
{
    stack.pop(ValueType::I32)?;
    stack.pop_result(taken)?;
    if are_same_labels(labels, indices, taken) {
        stack.forget();
        Ok(())
    } else {
        Err(Fault::Ill)
    }
}

/// Checks a control instruction that contains no other instructions.
fn check_control(
    module: &Module,
    scope: &Scope,
    control: &Control,
    stack: &mut Stack,
) -> Result<(), Fault>
    ensures { Checks (check_control (context_in module.now scope.now) control.now stack.old) result stack.new }
{
    match control {
        Control::Unreachable => {
            stack.forget();
            Ok(())
        }
        Control::Br(depth) => {
            let taken = scope.labels.at(*depth as usize).ok_or(Fault::Ill)?;
            stack.pop_result(taken)?;
            stack.forget();
            Ok(())
        }
        Control::BrIf(depth) => {
            let taken = scope.labels.at(*depth as usize).ok_or(Fault::Ill)?;
            stack.pop(ValueType::I32)?;
            stack.pop_result(taken)?;
            stack.push_result(taken)
        }
        Control::BrTable(depths, depth) => {
            let taken = scope.labels.at(*depth as usize).ok_or(Fault::Ill)?;
            check_table(&scope.labels, depths.as_slice(), taken, stack)
        }
        Control::Return => {
            stack.pop_result(scope.result)?;
            stack.forget();
            Ok(())
        }
        Control::Call(function) => {
            let called = function_type(module, *function).ok_or(Fault::Ill)?;
            check_call(called, stack)
        }
        Control::CallIndirect(type_index) => check_indirect(module, *type_index, stack),
    }
}

/// Checks `call_indirect`.
fn check_indirect(module: &Module, type_index: u32, stack: &mut Stack) -> Result<(), Fault>
    ensures { Checks (check_indirect module.now type_index stack.old) result stack.new }
{
    if module.tables.as_slice().is_empty() {
        return Err(Fault::Ill);
    }
    let called = module
        .types
        .as_slice()
        .get(type_index as usize)
        .ok_or(Fault::Ill)?;
    stack.pop(ValueType::I32)?;
    check_call(called, stack)
}

/// Checks an instruction.
#[cycle(check)]
fn check_one(
    alloc: Global,
    module: &Module,
    scope: &mut Scope,
    instruction: &Instr,
    stack: &mut Stack,
) -> Result<(), Fault>
    ensures scope { OnOk result (context_in module.now scope.new ≡ context_in module.now scope.old) }
    ensures checks { (rest : Code)
        → ChecksOn (check_code (context_in module.now scope.old) (before instruction.now rest) stack.old) result
        (check_code (context_in module.now scope.old) rest stack.new) }
{
    match instruction {
        Instr::Plain(plain) => check_plain(module, scope, *plain, stack),
        Instr::Control(control) => check_control(module, scope, control, stack),
        Instr::Block(result_type, body) => {
            check_body(
                alloc,
                module,
                scope,
                *result_type,
                *result_type,
                body.as_slice(),
            )?;
            stack.push_result(*result_type)
        }
        Instr::Loop(result_type, body) => {
            check_body(alloc, module, scope, None, *result_type, body.as_slice())?;
            stack.push_result(*result_type)
        }
        Instr::If(result_type, taken, other) => {
            stack.pop(ValueType::I32)?;
            check_body(
                alloc,
                module,
                scope,
                *result_type,
                *result_type,
                taken.as_slice(),
            )?;
            check_body(
                alloc,
                module,
                scope,
                *result_type,
                *result_type,
                other.as_slice(),
            )?;
            stack.push_result(*result_type)
        }
    }
}

/// Checks the body of a block, from an empty stack to the block's result.
#[cycle(check)]
pub fn check_body(
    alloc: Global,
    module: &Module,
    scope: &mut Scope,
    label: Option<ValueType>,
    result_type: Option<ValueType>,
    body: &[Instr],
) -> Result<(), Fault>
    ensures scope { OnOk result (context_in module.now scope.new ≡ context_in module.now scope.old) }
    ensures checks { IsChecked
        (body_check (inside label (context_in module.now scope.old)) result_type (code_of body.now)) result }
{
    let mut stack = Stack::new(alloc);
    scope.labels.push(label)?;
    check_all(alloc, module, scope, body, &mut stack)?;
    scope.labels.pop();
    stack.end(result_type)
}

/// Checks a sequence of instructions.
#[cycle(check)]
fn check_all(
    alloc: Global,
    module: &Module,
    scope: &mut Scope,
    instructions: &[Instr],
    stack: &mut Stack,
) -> Result<(), Fault>
    ensures scope { OnOk result (context_in module.now scope.new ≡ context_in module.now scope.old) }
    ensures checks { Checks (check_code (context_in module.now scope.old) (code_of instructions.now) stack.old) result stack.new }
{
    for instruction in instructions {
        check_one(alloc, module, scope, instruction, stack)?;
    }
    Ok(())
}
