//! Instructions (core section 5.4).

ghost use Rattle.std.specs.Prelude.{◌≡◌, ◌<◌, ◌≤◌, length, slice_get};
ghost use Rattle.wasm_read.specs.Gives.{Gives};
ghost use Rattle.wasm_read.specs.Reading.{mem_arg_at, parametric_at, variable_at, memory_at, numeric_at, plain_at, control_at};
ghost use Rattle.wasm_read.specs.Reading.{single_at};
ghost use Rattle.wasm_spec.specs.Opcodes.{load_of, store_of, numeric_of, sign_extension_of, value_type_of, block_type_of};

use crate::binary::vector;
use crate::error::ReadModErr;
use crate::input::Input;
use std::alloc::Global;
use wasm_spec::{
    ARITHMETIC, COMPARISONS, Control, Conversion, LoadKind, MemArg, Numeric, Plain,
    SIGN_EXTENSIONS, Sign, StoreKind, ValueType,
};

/// Returns the value type that a byte encodes (core section 5.3.1).
pub fn value_type_of(byte: u8) -> Option<ValueType>
    ensures { result ≡ value_type_of byte }
{
    match byte {
        0x7F => Some(ValueType::I32),
        0x7E => Some(ValueType::I64),
        _ => None,
    }
}

/// Returns the result type of a block that a byte encodes (core section 5.3.2).
pub fn block_type_of(byte: u8) -> Option<Option<ValueType>>
    ensures { result ≡ block_type_of byte }
{
    match byte {
        0x40 => Some(None),
        0x7F => Some(Some(ValueType::I32)),
        0x7E => Some(Some(ValueType::I64)),
        _ => None,
    }
}

/// Returns the load that an opcode encodes.
fn load_of(opcode: u8) -> Option<LoadKind>
    ensures { result ≡ load_of opcode }
{
    match opcode {
        0x28 => Some(LoadKind::I32),
        0x29 => Some(LoadKind::I64),
        0x2C => Some(LoadKind::I32From8(Sign::Signed)),
        0x2D => Some(LoadKind::I32From8(Sign::Unsigned)),
        0x2E => Some(LoadKind::I32From16(Sign::Signed)),
        0x2F => Some(LoadKind::I32From16(Sign::Unsigned)),
        0x30 => Some(LoadKind::I64From8(Sign::Signed)),
        0x31 => Some(LoadKind::I64From8(Sign::Unsigned)),
        0x32 => Some(LoadKind::I64From16(Sign::Signed)),
        0x33 => Some(LoadKind::I64From16(Sign::Unsigned)),
        0x34 => Some(LoadKind::I64From32(Sign::Signed)),
        0x35 => Some(LoadKind::I64From32(Sign::Unsigned)),
        _ => None,
    }
}

/// Returns the store that an opcode encodes.
fn store_of(opcode: u8) -> Option<StoreKind>
    ensures { result ≡ store_of opcode }
{
    match opcode {
        0x36 => Some(StoreKind::I32),
        0x37 => Some(StoreKind::I64),
        0x3A => Some(StoreKind::I32To8),
        0x3B => Some(StoreKind::I32To16),
        0x3C => Some(StoreKind::I64To8),
        0x3D => Some(StoreKind::I64To16),
        0x3E => Some(StoreKind::I64To32),
        _ => None,
    }
}

/// Returns the instruction at an index of a table of opcodes.
fn row_item(row: &[Numeric], index: usize) -> Option<Numeric>
    ensures { result ≡ slice_get row.now index }
{
    row.get(index).copied()
}

/// Returns the numeric instruction that an opcode encodes.
fn numeric_of(opcode: u8) -> Option<Numeric>
    ensures { result ≡ numeric_of opcode }
{
    if opcode < 0x45 {
        return None;
    }
    if opcode < 0x67 {
        return row_item(&COMPARISONS, opcode as usize - 0x45);
    }
    if opcode < 0xA7 {
        return row_item(&ARITHMETIC, opcode as usize - 0x67);
    }
    match opcode {
        0xA7 => Some(Numeric::Convert(Conversion::I32Wrap)),
        0xAC => Some(Numeric::Convert(Conversion::I64Extend(Sign::Signed))),
        0xAD => Some(Numeric::Convert(Conversion::I64Extend(Sign::Unsigned))),
        _ => sign_extension_of(opcode),
    }
}

/// Returns the sign extension that an opcode encodes.
fn sign_extension_of(opcode: u8) -> Option<Numeric>
    ensures { result ≡ sign_extension_of opcode }
{
    if opcode < 0xC0 {
        return None;
    }
    row_item(&SIGN_EXTENSIONS, opcode as usize - 0xC0)
}

/// Reads an alignment and an offset.
#[tactic(auto, unfolding(crate::specs::Reading::mem_arg_at))]
fn mem_arg(input: &mut Input<'_>) -> Result<MemArg, ReadModErr>
    ensures { Gives mem_arg_at input.old input.new result }
{
    let align = input.u32()?;
    let offset = input.u32()?;
    Ok(MemArg { align, offset })
}

#[tactic(auto, unfolding(crate::specs::Reading::parametric_at))]
fn parametric(input: &Input<'_>, opcode: u8) -> Result<Plain, ReadModErr>
    ensures { Gives (parametric_at opcode) input.now input.now result }
{
    let _ = input;
    match opcode {
        0x01 => Ok(Plain::Nop),
        0x1A => Ok(Plain::Drop),
        0x1B => Ok(Plain::Select),
        _ => Err(ReadModErr::NotAModule),
    }
}

#[tactic(auto, unfolding(crate::specs::Reading::variable_at))]
fn variable(input: &mut Input<'_>, opcode: u8) -> Result<Plain, ReadModErr>
    ensures { Gives (variable_at opcode) input.old input.new result }
{
    match opcode {
        0x20 => Ok(Plain::LocalGet(input.u32()?)),
        0x21 => Ok(Plain::LocalSet(input.u32()?)),
        0x22 => Ok(Plain::LocalTee(input.u32()?)),
        0x23 => Ok(Plain::GlobalGet(input.u32()?)),
        0x24 => Ok(Plain::GlobalSet(input.u32()?)),
        _ => Err(ReadModErr::NotAModule),
    }
}

#[tactic(auto, unfolding(crate::specs::Reading::memory_at))]
fn memory(input: &mut Input<'_>, opcode: u8) -> Result<Plain, ReadModErr>
    ensures { Gives (memory_at opcode) input.old input.new result }
{
    if opcode < 0x36 {
        let load = load_of(opcode).ok_or(ReadModErr::NotAModule)?;
        return Ok(Plain::Load(load, mem_arg(input)?));
    }
    if opcode < 0x3F {
        let store = store_of(opcode).ok_or(ReadModErr::NotAModule)?;
        return Ok(Plain::Store(store, mem_arg(input)?));
    }
    match opcode {
        0x3F => {
            input.expect(0x00)?;
            Ok(Plain::MemorySize)
        }
        0x40 => {
            input.expect(0x00)?;
            Ok(Plain::MemoryGrow)
        }
        _ => Err(ReadModErr::NotAModule),
    }
}

#[tactic(auto, unfolding(crate::specs::Reading::numeric_at))]
fn numeric(input: &mut Input<'_>, opcode: u8) -> Result<Plain, ReadModErr>
    ensures { Gives (numeric_at opcode) input.old input.new result }
{
    match opcode {
        0x41 => Ok(Plain::I32Const(input.i32()?)),
        0x42 => Ok(Plain::I64Const(input.i64()?)),
        _ => Ok(Plain::Numeric(numeric_of(opcode).ok_or(ReadModErr::NotAModule)?)),
    }
}

/// Reads the immediates of an instruction that never branches, after its opcode.
#[tactic(auto, unfolding(crate::specs::Reading::plain_at))]
pub fn plain(input: &mut Input<'_>, opcode: u8) -> Result<Plain, ReadModErr>
    ensures { Gives (plain_at opcode) input.old input.new result }
{
    if opcode < 0x20 {
        return parametric(input, opcode);
    }
    if opcode < 0x28 {
        return variable(input, opcode);
    }
    if opcode < 0x41 {
        return memory(input, opcode);
    }
    numeric(input, opcode)
}

/// Reads the immediates of a control instruction with no instructions inside, after its opcode.
#[tactic(auto, unfolding(crate::specs::Reading::control_at))]
pub fn control(alloc: Global, input: &mut Input<'_>, opcode: u8) -> Result<Control, ReadModErr>
    ensures { Gives (control_at opcode) input.old input.new result }
{
    match opcode {
        0x00 => Ok(Control::Unreachable),
        0x0C => Ok(Control::Br(input.u32()?)),
        0x0D => Ok(Control::BrIf(input.u32()?)),
        0x0E => {
            let labels = vector(alloc, input)?;
            Ok(Control::BrTable(labels, input.u32()?))
        }
        0x0F => Ok(Control::Return),
        0x10 => Ok(Control::Call(input.u32()?)),
        0x11 => {
            let type_index = input.u32()?;
            input.expect(0x00)?;
            Ok(Control::CallIndirect(type_index))
        }
        _ => Err(ReadModErr::NotAModule),
    }
}
