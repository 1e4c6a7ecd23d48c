//! Instructions without control flow: the next instruction follows, or they trap.

ghost use Rattle.std.specs.Prelude.{◌≡◌, ◌≢◌, ◌<◌, ◌^◌, ◌∷◌, List, length, slice_get, IfOk, OnOk, IfSome, Some, None};
ghost use Rattle.wasm_spec.specs.Integers.{width};
ghost use Rattle.wasm_spec.specs.Typing.{numeric_signature, store_type, converted_from, converted_to};
ghost use Rattle.wasm_spec.specs.Stores.{value_of};
ghost use Rattle.wasm_spec.specs.declared.types.Taken.TheVariants as taken;
ghost use Rattle.wasm_spec.specs.declared.types.ValueType.TheVariants.{I32 as Narrow};
ghost use Rattle.wasm_spec.specs.declared.values.Value.{Value as Operand};
ghost use Rattle.wasm_spec.specs.Stores.{Store as Contents};
ghost use Rattle.wasm_spec.specs.declared.instructions.Plain.TheVariants as plain;
ghost use Rattle.wasm_code.specs.Ops.{plain_of};
ghost use Rattle.wasm_spec.specs.declared.instructions.Numeric.{Numeric as Operation};
ghost use Rattle.wasm_spec.specs.declared.instructions.Numeric.TheVariants as numeric;
ghost use Rattle.wasm_spec.specs.Effects.{effect_of, numeric_effect, gives};
ghost use Rattle.wasm_machine.specs.Numbers.{HasTop, HasPair};
ghost use Rattle.wasm_machine.specs.MachineState.{CanApply, IsEffect};

use crate::operands::Operands;
use crate::store::Store;
use std::alloc::AllocError;
use wasm_code::{Op, converted_from, converted_to, load_type, store_type};
use wasm_num::{binary, compared, convert, load, tested, unary};
use wasm_spec::{
    Binary, Comparison, Conversion, LoadKind, MemArg, TrapKind, Unary, Value, ValueType,
};

/// Returns the number as a value of the type.
fn value_of(value_type: ValueType, number: u64) -> Value
    requires { number < 2 ^ width value_type }
    ensures { result ≡ value_of value_type number }
{
    match value_type {
        ValueType::I32 => Value::I32(number as u32),
        ValueType::I64 => Value::I64(number),
    }
}

/// Pops the topmost operand, which has the type.
fn pop_number(operands: &mut Operands, value_type: ValueType) -> u64
    requires { HasTop value_type operands.old }
    ensures number { operands.old ≡ value_of value_type result ∷ operands.new }
    ensures fits { result < 2 ^ width value_type }
{
    match value_type {
        ValueType::I32 => u64::from(operands.pop32()),
        ValueType::I64 => operands.pop64(),
    }
}

/// Returns the number of the topmost operand, which has the type.
fn top_number(operands: &Operands, value_type: ValueType) -> u64
    requires { HasTop value_type operands.now }
    ensures number { (below : List Operand) × (operands.now ≡ value_of value_type result ∷ below) }
    ensures fits { result < 2 ^ width value_type }
{
    match value_type {
        ValueType::I32 => u64::from(operands.top32()),
        ValueType::I64 => operands.top64(),
    }
}

/// Replaces the topmost operand by the result of a numeric instruction, which has the type, or returns its trap if it has no
/// result.
fn give(given: ValueType, number: Option<u64>, operands: &mut Operands) -> Option<TrapKind>
    requires fits { IfSome number (λ n. n < 2 ^ width given) }
    requires some { 0 < length operands.old }
    ensures { (o : Operation) (v : Operand) (below locals : List Operand) (store : Contents)
        → (numeric_signature o).gives ≡ Some given → operands.old ≡ v ∷ below
        → IsEffect (gives o number below locals store) result operands.new locals store }
{
    match number {
        None => Some(TrapKind::Arithmetic),
        Some(number) => {
            operands.replace(value_of(given, number));
            None
        }
    }
}

/// Executes a test.
fn apply_test(operand: ValueType, operands: &mut Operands) -> Option<TrapKind>
    requires { HasTop operand operands.old }
    ensures { (locals : List Operand) (store : Contents) → IsEffect (numeric_effect (numeric.Eqz operand)
        (taken.One operand) operands.old locals store) result operands.new locals store }
{
    let number = top_number(operands, operand);
    give(ValueType::I32, Some(tested(operand, number)), operands)
}

/// Executes an operation on one operand.
fn apply_unary(operand: ValueType, operation: Unary, operands: &mut Operands) -> Option<TrapKind>
    requires { HasTop operand operands.old }
    ensures { (locals : List Operand) (store : Contents) → IsEffect (numeric_effect (numeric.Unary operand operation)
        (taken.One operand) operands.old locals store) result operands.new locals store }
{
    let number = top_number(operands, operand);
    give(operand, Some(unary(operand, operation, number)), operands)
}

/// Executes a conversion from a type to a type.
fn apply_conversion(
    operation: Conversion,
    operand: ValueType,
    given: ValueType,
    operands: &mut Operands,
) -> Option<TrapKind>
    requires from { converted_from operation ≡ operand }
    requires to { converted_to operation ≡ given }
    requires top { HasTop operand operands.old }
    ensures { (locals : List Operand) (store : Contents) → IsEffect (numeric_effect (numeric.Convert operation)
        (taken.One operand) operands.old locals store) result operands.new locals store }
{
    let number = top_number(operands, operand);
    give(given, Some(convert(operation, number)), operands)
}

/// Executes a load.
fn apply_load(
    kind: LoadKind,
    argument: MemArg,
    operands: &mut Operands,
    store: &Store,
) -> Option<TrapKind>
    requires { HasTop Narrow operands.old }
    ensures { (locals : List Operand)
        → IsEffect (effect_of (plain.Load kind argument) operands.old locals store.now) result operands.new locals store.now }
{
    let address = operands.top32();
    match load(kind, store.memory(), address, argument.offset) {
        None => Some(TrapKind::OutOfBounds),
        Some(number) => {
            operands.replace(value_of(load_type(kind), number));
            None
        }
    }
}

/// Executes a comparison of the type.
///
/// `WIDE` changes no result. It makes an instance for each type, so that LLVM compiles the code of each with its width.
fn comparison_at<const WIDE: bool>(
    operand: ValueType,
    operation: Comparison,
    operands: &mut Operands,
) -> Option<TrapKind>
    requires { HasPair operand operand operands.old }
    ensures { (locals : List Operand) (store : Contents) → IsEffect (numeric_effect (numeric.Compare operand operation)
        (taken.Two operand operand) operands.old locals store) result operands.new locals store }
{
    let second = pop_number(operands, operand);
    let first = top_number(operands, operand);
    let result = compared::<WIDE>(operand, operation, first, second);
    give(ValueType::I32, Some(result), operands)
}

/// Executes a comparison.
fn apply_comparison(
    operand: ValueType,
    operation: Comparison,
    operands: &mut Operands,
) -> Option<TrapKind>
    requires { HasPair operand operand operands.old }
    ensures { (locals : List Operand) (store : Contents) → IsEffect (numeric_effect (numeric.Compare operand operation)
        (taken.Two operand operand) operands.old locals store) result operands.new locals store }
{
    match operand {
        ValueType::I32 => comparison_at::<false>(ValueType::I32, operation, operands),
        ValueType::I64 => comparison_at::<true>(ValueType::I64, operation, operands),
    }
}

/// Executes an operation on two operands of the type.
///
/// `WIDE` changes no result. It makes an instance for each type, so that LLVM compiles the code of each with its width.
fn binary_at<const WIDE: bool>(
    operand: ValueType,
    operation: Binary,
    operands: &mut Operands,
) -> Option<TrapKind>
    requires { HasPair operand operand operands.old }
    ensures { (locals : List Operand) (store : Contents) → IsEffect (numeric_effect (numeric.Binary operand operation)
        (taken.Two operand operand) operands.old locals store) result operands.new locals store }
{
    let second = pop_number(operands, operand);
    let first = top_number(operands, operand);
    give(
        operand,
        binary::<WIDE>(operand, operation, first, second),
        operands,
    )
}

/// Executes an operation on two operands.
fn apply_binary(operand: ValueType, operation: Binary, operands: &mut Operands) -> Option<TrapKind>
    requires { HasPair operand operand operands.old }
    ensures { (locals : List Operand) (store : Contents) → IsEffect (numeric_effect (numeric.Binary operand operation)
        (taken.Two operand operand) operands.old locals store) result operands.new locals store }
{
    match operand {
        ValueType::I32 => binary_at::<false>(ValueType::I32, operation, operands),
        ValueType::I64 => binary_at::<true>(ValueType::I64, operation, operands),
    }
}

/// Executes a store.
fn apply_store(
    kind: wasm_spec::StoreKind,
    argument: MemArg,
    operands: &mut Operands,
    store: &mut Store,
) -> Option<TrapKind>
    requires { HasPair (store_type kind) Narrow operands.old }
    ensures { (locals : List Operand) → IsEffect
        (effect_of (plain.Store kind argument) operands.old locals store.old) result operands.new locals store.new }
{
    let number = pop_number(operands, store_type(kind));
    let address = operands.pop32();
    match store.write(kind, address, argument.offset, number) {
        None => Some(TrapKind::OutOfBounds),
        Some(()) => None,
    }
}

/// Executes `select`.
fn apply_select(operands: &mut Operands) -> Result<(), AllocError>
    requires { (locals : List Operand) × (store : Contents) × CanApply (effect_of plain.Select operands.old locals store) }
    ensures { OnOk result ((locals : List Operand) (store : Contents)
        → IsEffect (effect_of plain.Select operands.old locals store) None operands.new locals store) }
{
    let number = operands.pop32();
    let second = operands.pop();
    let first = operands.pop();
    if 1 <= number {
        operands.push(first)
    } else {
        operands.push(second)
    }
}

/// Returns the local of the index, if there is one.
fn local_at(locals: &[Value], index: u32) -> Option<Value>
    ensures { result ≡ slice_get locals.now index }
{
    locals.get(index as usize).copied()
}

/// Executes an instruction other than `memory.grow` that never branches. Returns the trap if it traps.
pub fn apply(
    op: &Op,
    operands: &mut Operands,
    locals: &mut Vec<Value>,
    store: &mut Store,
) -> Result<Option<TrapKind>, AllocError>
    requires other { plain_of op.now ≢ plain.MemoryGrow }
    requires able { CanApply (effect_of (plain_of op.now) operands.old locals.old.items store.old) }
    ensures { IfOk result (λ trap. IsEffect
        (effect_of (plain_of op.now) operands.old locals.old.items store.old) trap operands.new locals.new.items store.new) }
{
    match *op {
        Op::Nop => {}
        Op::Drop => {
            let _ = operands.pop();
        }
        Op::Select => apply_select(operands)?,
        Op::LocalGet(index) => match local_at(locals, index) {
            Some(value) => operands.push(value)?,
            None => unreachable!(),
        },
        Op::LocalSet(index) => locals[index as usize] = operands.pop(),
        Op::LocalTee(index) => {
            let Some(value) = operands.top() else {
                unreachable!()
            };
            locals[index as usize] = value;
        }
        Op::GlobalGet(index) => match store.global(index) {
            Some(value) => operands.push(value)?,
            None => unreachable!(),
        },
        Op::GlobalSet(index) => {
            let value = operands.pop();
            store.set_global(index, value);
        }
        Op::Load(kind, argument) => return Ok(apply_load(kind, argument, operands, store)),
        Op::Store(kind, argument) => return Ok(apply_store(kind, argument, operands, store)),
        Op::MemorySize => operands.push(Value::I32(store.pages()))?,
        Op::I32Const(number) => operands.push(Value::I32(number))?,
        Op::I64Const(number) => operands.push(Value::I64(number))?,
        Op::Test(operand) => return Ok(apply_test(operand, operands)),
        Op::Compare(operand, operation) => return Ok(apply_comparison(
            operand, operation, operands,
        )),
        Op::Unary(operand, operation) => return Ok(apply_unary(operand, operation, operands)),
        Op::Binary(operand, operation) => return Ok(apply_binary(operand, operation, operands)),
        Op::Convert(operation) => return Ok(apply_conversion(
            operation,
            converted_from(operation),
            converted_to(operation),
            operands,
        )),
        _ => unreachable!(),
    }
    Ok(None)
}
