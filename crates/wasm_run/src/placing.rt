//! The machine at the start of a call.

ghost use Rattle.std.specs.Prelude.{◌≡◌, ℕ, List, replicate, slice_get, Option, Some, IsSome, IfOk, option_copied};
ghost use Rattle.wasm_spec.specs.declared.values.Value.TheVariants as value;
ghost use Rattle.wasm_spec.specs.Instances.{Ready, start_of};
ghost use Rattle.wasm_code.specs.Placed.{IsCompiled};
ghost use Rattle.wasm_run.specs.declared.instance.CallPhase.{CallPhase as Phase_};
ghost use Rattle.wasm_run.specs.Suspended.{suspended};
ghost use Rattle.wasm_run.specs.Able.{Begins, BeginsIn};

use std::alloc::{AllocError, Global};
use wasm_code::FlatCode;
use wasm_machine::{Frames, MachineState, Operands, Store, add_locals, is_import};
use wasm_spec::{Function, Module, Value};

fn function_at(source: &Module, index: usize) -> Option<&Function>
    ensures { option_copied result ≡ slice_get source.now.functions index }
{
    source.functions.as_slice().get(index)
}

fn entry_at(code: &FlatCode, index: usize) -> Option<usize>
    ensures { result ≡ slice_get code.now.entries index }
{
    code.entries.as_slice().get(index).copied()
}

/// Returns the machine at the start of a function of the module, with these values as its arguments.
fn placed_in(
    source: &Module,
    code: &FlatCode,
    index: usize,
    mut values: Vec<Value>,
    store: Store,
) -> Result<MachineState, AllocError>
    requires function { IsSome (slice_get source.now.functions index) }
    requires entry { IsSome (slice_get code.now.entries index) }
    ensures store { IfOk result (λ r. r.store ≡ store) }
    ensures begins { IfOk result (λ r. (p : Phase_) → BeginsIn (suspended source.now code.now p r) index values.items) }
{
    let Some(function) = function_at(source, index) else {
        unreachable!()
    };
    let Some(pc) = entry_at(code, index) else {
        unreachable!()
    };
    let alloc = *values.allocator();
    add_locals(&mut values, function)?;
    Ok(MachineState {
        pc,
        operands: Operands::new(alloc),
        locals: values,
        frames: Frames::new(alloc),
        store,
        left: u64::MAX,
    })
}

/// Returns `count` zeros of type `i64`.
fn zeros(alloc: Global, count: usize) -> Result<Vec<Value>, AllocError>
    ensures { IfOk result (λ v. v.items ≡ replicate count (value.I64 0)) }
{
    let mut values = Vec::new(alloc);
    values.resize(count, Value::I64(0))?;
    Ok(values)
}

/// Returns the machine at the start of a call of the function. Zeros stand for the arguments, so that `Instance::start`
/// allocates no memory.
pub fn placed(
    alloc: Global,
    source: &Module,
    code: &FlatCode,
    function: u32,
    arity: usize,
    store: Store,
) -> Result<MachineState, AllocError>
    requires compiled { IsCompiled source.now code.now }
    requires begins { (export : List ℕ) × (start_of source.now export arity ≡ Ready function store) }
    ensures store { IfOk result (λ r. r.store ≡ store) }
    ensures begins { IfOk result (λ r. (p : Phase_) → Begins (suspended source.now code.now p r) function (replicate arity 0)) }
{
    let values = zeros(alloc, arity)?;
    if is_import(source, function) {
        return Ok(MachineState {
            pc: 2 * function as usize,
            operands: Operands::from_vec(values),
            locals: Vec::new(alloc),
            frames: Frames::new(alloc),
            store,
            left: u64::MAX,
        });
    }
    let index = function as usize - source.imports.as_slice().len();
    placed_in(source, code, index, values, store)
}
