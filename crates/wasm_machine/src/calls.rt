//! Calls of functions and imports.

ghost use Rattle.std.specs.Prelude.{◌≡◌, ◌<◌, ◌≤◌, ◌^◌, ◌++◌, false, map, length, replicate, IfOk, OnOk, Some};
ghost use Rattle.wasm_spec.specs.Typing.{function_type};
ghost use Rattle.wasm_spec.specs.Stores.{number_of, zero_of};
ghost use Rattle.wasm_spec.specs.Meaning.{same_types, same_function_type, is_import, start_locals};
ghost use Rattle.wasm_machine.specs.Machine.{asks, calls_own, calls, calls_at, calls_typed, calls_element, calls_indirect};
ghost use Rattle.wasm_machine.specs.Machine.{asks_from_outside};
ghost use Rattle.wasm_machine.specs.MachineState.{CanMove, Moves};

use crate::frames::Waiting;
use crate::machine::{MachineState, Outcome};
use std::alloc::{AllocError, Global};
use wasm_code::{FlatCode, function_type};
use wasm_spec::{FuncType, Function, Locals, Module, TrapKind, Value, ValueType};

/// The largest number of open calls, the running one included.
const MOST_CALLS: usize = 512;

/// Returns the value as an unsigned number.
fn number_of(value: Value) -> u64
    ensures { result ≡ number_of value }
{
    match value {
        Value::I32(number) => u64::from(number),
        Value::I64(number) => number,
    }
}

/// Returns the initial value of a local of the type.
fn zero_of(value_type: ValueType) -> Value
    ensures { result ≡ zero_of value_type }
{
    match value_type {
        ValueType::I32 => Value::I32(0),
        ValueType::I64 => Value::I64(0),
    }
}

/// Returns the values as unsigned numbers.
fn numbers(alloc: Global, values: &[Value]) -> Result<Vec<u64>, AllocError>
    ensures { IfOk result (λ numbers. numbers.items ≡ map number_of values.now) }
{
    values.iter().map(|value| number_of(*value)).collect(alloc)
}

/// Pushes the initial values of a group of locals.
fn push_zeros(locals: &mut Vec<Value>, group: Locals) -> Result<(), AllocError>
    ensures { OnOk result (locals.new.items ≡ locals.old.items ++ replicate group.count (zero_of group.value_type)) }
{
    let length = locals.len() + group.count as usize;
    locals.resize(length, zero_of(group.value_type))
}

/// Pushes the initial values of a function's own locals behind its arguments.
pub fn add_locals(locals: &mut Vec<Value>, function: &Function) -> Result<(), AllocError>
    ensures { OnOk result (locals.new.items ≡ start_locals function.now locals.old.items) }
{
    for group in function.locals.as_slice() {
        push_zeros(locals, *group)?;
    }
    Ok(())
}

/// Returns whether two lists of value types are equal.
pub fn same_types(left: &[ValueType], right: &[ValueType]) -> bool
    ensures { result ≡ same_types left.now right.now }
{
    left == right
}

/// Returns whether two function types are equal.
fn same_function_type(left: &FuncType, right: &FuncType) -> bool
    ensures { result ≡ same_function_type left.now right.now }
{
    same_types(left.params.as_slice(), right.params.as_slice())
        && same_types(left.results.as_slice(), right.results.as_slice())
}

/// Returns whether the function of the index is an import.
pub fn is_import(source: &Module, function_index: u32) -> bool
    ensures { result ≡ is_import source.now function_index }
{
    source
        .imports
        .as_slice()
        .get(function_index as usize)
        .is_some()
}

/// Pauses the run at a call of an import.
fn ask(
    machine: &mut MachineState,
    function_index: u32,
    func_type: &FuncType,
) -> Result<Outcome, AllocError>
    requires pc { machine.old.pc < 2 ^ 63 }
    requires moves { CanMove (asks func_type.now function_index) machine.old }
    ensures { IfOk result (λ o. Moves (asks func_type.now function_index) machine.old o machine.new) }
{
    let args = machine
        .operands
        .take_arguments(func_type.params.as_slice().len())?;
    machine.pc += 1;
    let words = numbers(*args.allocator(), &args)?;
    Ok(Outcome::Asks(
        function_index,
        words,
        func_type.results.as_slice().first().copied(),
    ))
}

/// Enters a function of the module, or traps if too many calls are open.
fn enter(
    machine: &mut MachineState,
    function: &Function,
    entry: usize,
    func_type: &FuncType,
) -> Result<Outcome, AllocError>
    requires pc { machine.old.pc < 2 ^ 63 }
    requires moves { CanMove (calls_own (Some function.now) (Some entry) func_type.now) machine.old }
    ensures { IfOk result (λ o. Moves (calls_own (Some function.now) (Some entry) func_type.now) machine.old o machine.new) }
{
    let mut locals = machine
        .operands
        .take_arguments(func_type.params.as_slice().len())?;
    if machine.frames.count() >= MOST_CALLS - 1 {
        return Ok(Outcome::Traps(TrapKind::CallDepth));
    }
    add_locals(&mut locals, function)?;
    let waiting = Waiting {
        pc: machine.pc + 1,
        locals: std::mem::replace(&mut machine.locals, locals),
    };
    machine.frames.push(waiting)?;
    machine.pc = entry;
    Ok(Outcome::Goes)
}

/// Calls a function of the module.
fn call_own(
    source: &Module,
    code: &FlatCode,
    machine: &mut MachineState,
    function_index: u32,
    func_type: &FuncType,
) -> Result<Outcome, AllocError>
    requires own { length source.now.imports ≤ function_index }
    requires pc { machine.old.pc < 2 ^ 63 }
    requires moves { CanMove (calls source.now code.now false (Some func_type.now) function_index) machine.old }
    ensures { IfOk result (λ o. Moves (calls source.now code.now false (Some func_type.now) function_index)
        machine.old o machine.new) }
{
    let own = function_index as usize - source.imports.as_slice().len();
    match source.functions.as_slice().get(own) {
        None => unreachable!(),
        Some(function) => match code.entries.as_slice().get(own) {
            None => unreachable!(),
            Some(entry) => enter(machine, function, *entry, func_type),
        },
    }
}

/// Calls a function, whose type is `func_type`.
fn call_of_type(
    source: &Module,
    code: &FlatCode,
    machine: &mut MachineState,
    function_index: u32,
    func_type: &FuncType,
) -> Result<Outcome, AllocError>
    requires pc { machine.old.pc < 2 ^ 63 }
    requires moves { CanMove (calls source.now code.now (is_import source.now function_index) (Some func_type.now) function_index)
        machine.old }
    ensures { IfOk result (λ o. Moves (calls source.now code.now (is_import source.now function_index)
        (Some func_type.now) function_index) machine.old o machine.new) }
{
    if is_import(source, function_index) {
        ask(machine, function_index, func_type)
    } else {
        call_own(source, code, machine, function_index, func_type)
    }
}

/// Calls the function of the index.
pub fn call(
    source: &Module,
    code: &FlatCode,
    machine: &mut MachineState,
    function_index: u32,
) -> Result<Outcome, AllocError>
    requires pc { machine.old.pc < 2 ^ 63 }
    requires moves { CanMove (calls_at source.now code.now function_index) machine.old }
    ensures { IfOk result (λ o. Moves (calls_at source.now code.now function_index) machine.old o machine.new) }
{
    match function_type(source, function_index) {
        None => unreachable!(),
        Some(func_type) => call_of_type(source, code, machine, function_index, func_type),
    }
}

/// Calls a function for `call_indirect`, or traps if its type is not `wanted`. Types are compared by structure.
fn call_typed(
    source: &Module,
    code: &FlatCode,
    machine: &mut MachineState,
    function_index: u32,
    wanted: &FuncType,
) -> Result<Outcome, AllocError>
    requires pc { machine.old.pc < 2 ^ 63 }
    requires moves { CanMove (calls_typed source.now code.now wanted.now (function_type source.now function_index) function_index)
        machine.old }
    ensures { IfOk result (λ o. Moves (calls_typed source.now code.now wanted.now
        (function_type source.now function_index) function_index) machine.old o machine.new) }
{
    match function_type(source, function_index) {
        None => unreachable!(),
        Some(func_type) => {
            if same_function_type(wanted, func_type) {
                call(source, code, machine, function_index)
            } else {
                Ok(Outcome::Traps(TrapKind::IndirectType))
            }
        }
    }
}

/// Calls the function that a table element holds, or traps if the element is empty.
fn call_element(
    source: &Module,
    code: &FlatCode,
    machine: &mut MachineState,
    element: Option<u32>,
    wanted: &FuncType,
) -> Result<Outcome, AllocError>
    requires pc { machine.old.pc < 2 ^ 63 }
    requires moves { CanMove (calls_element source.now code.now wanted.now (Some element)) machine.old }
    ensures { IfOk result (λ o. Moves (calls_element source.now code.now wanted.now (Some element)) machine.old o machine.new) }
{
    match element {
        None => Ok(Outcome::Traps(TrapKind::EmptyElement)),
        Some(function_index) => call_typed(source, code, machine, function_index, wanted),
    }
}

/// Calls the function of the table element of the index, whose type has to be `wanted`.
pub fn call_indirect(
    source: &Module,
    code: &FlatCode,
    machine: &mut MachineState,
    index: u32,
    wanted: &FuncType,
) -> Result<Outcome, AllocError>
    requires pc { machine.old.pc < 2 ^ 63 }
    requires moves { CanMove (calls_indirect source.now code.now (Some wanted.now) index) machine.old }
    ensures { IfOk result (λ o. Moves (calls_indirect source.now code.now (Some wanted.now) index) machine.old o machine.new) }
{
    match machine.store.element(index) {
        None => Ok(Outcome::Traps(TrapKind::OutOfBounds)),
        Some(element) => call_element(source, code, machine, element, wanted),
    }
}

/// Calls an import that the module exports, from outside the module.
pub fn call_import(
    source: &Module,
    machine: &mut MachineState,
    function_index: u32,
) -> Result<Outcome, AllocError>
    requires pc { machine.old.pc < 2 ^ 63 }
    requires moves { CanMove (asks_from_outside (function_type source.now function_index) function_index) machine.old }
    ensures { IfOk result (λ o. Moves (asks_from_outside (function_type source.now function_index) function_index)
        machine.old o machine.new) }
{
    match function_type(source, function_index) {
        None => unreachable!(),
        Some(func_type) => ask(machine, function_index, func_type),
    }
}
