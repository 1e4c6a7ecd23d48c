//! Values of constant expressions: initial values of globals, and offsets of segments (core section 3.3.7).

ghost use Rattle.std.specs.Prelude.{◌≡◌, ◌++◌, [], option_to_list, IfOk, OnOk};
ghost use Rattle.wasm_spec.specs.Instances.{constant_plain, constant_value, offset_of, first_values};

use std::alloc::{AllocError, Global};
use wasm_spec::{Body, Instr, Plain, Value};

/// Returns the value of a constant instruction, or `None` for any other instruction.
fn constant_plain(globals: &[Value], plain: Plain) -> Option<Value>
    ensures { result ≡ constant_plain globals.now plain }
{
    match plain {
        Plain::I32Const(number) => Some(Value::I32(number)),
        Plain::I64Const(number) => Some(Value::I64(number)),
        Plain::GlobalGet(index) => globals.get(index as usize).copied(),
        _ => None,
    }
}

/// Returns the value of a constant expression, or `None` if the body is no constant expression.
fn constant_value(globals: &[Value], body: &Body) -> Option<Value>
    ensures { result ≡ constant_value globals.now body.now }
{
    let instrs = body.as_slice();
    if instrs.len() != 1 {
        return None;
    }
    match &instrs[0] {
        Instr::Plain(plain) => constant_plain(globals, *plain),
        _ => None,
    }
}

/// Returns the offset of a segment.
pub fn offset_of(globals: &[Value], body: &Body) -> Option<u32>
    ensures { result ≡ offset_of globals.now body.now }
{
    match constant_value(globals, body) {
        None => None,
        Some(Value::I32(number)) => Some(number),
        Some(Value::I64(_)) => None,
    }
}

/// Pushes the initial value of a global.
fn push_first(values: &mut Vec<Value>, global: &wasm_spec::Global) -> Result<(), AllocError>
    ensures { OnOk result (values.new.items ≡ values.old.items ++ option_to_list (constant_value [] global.now.init)) }
{
    match constant_value(&[], &global.init) {
        None => Ok(()),
        Some(value) => {
            values.push(value)?;
            Ok(())
        }
    }
}

/// Returns the initial values of globals.
pub fn first_values(alloc: Global, globals: &[wasm_spec::Global]) -> Result<Vec<Value>, AllocError>
    ensures { IfOk result (λ v. v.items ≡ first_values globals.now) }
{
    let mut values = Vec::new(alloc);
    for global in globals {
        push_first(&mut values, global)?;
    }
    Ok(values)
}
