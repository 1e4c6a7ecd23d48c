//! Types, and the items of sections (core sections 5.3 and 5.5).

ghost use Rattle.std.specs.Prelude.{◌≡◌, ◌+◌, ◌^◌, nat_lt};
ghost use Rattle.wasm_spec.specs.Binary.{locals_count};
ghost use Rattle.wasm_spec.specs.Opcodes.{mutability_of, export_kind_of};
ghost use Rattle.wasm_read.specs.Gives.{Gives};
ghost use Rattle.wasm_read.specs.Reading.{u32_at, value_type_at, func_type_at, limits_at, limits_behind, table_at, import_at};
ghost use Rattle.wasm_read.specs.Reading.{global_at, export_at, element_at, data_at, locals_at, func_at, sized_at};

use crate::binary::{Binary, vector};
use crate::code::expression;
use crate::error::ReadModErr;
use crate::input::Input;
use crate::instructions::value_type_of;
use std::alloc::Global;
use wasm_spec::{
    Body, Data, Element, Export, ExportKind, FuncType, Import, Items, Locals, Mutability,
    ResizableLimits, TableType, ValueType,
};

impl Binary for u32 {
    ghost read_at = { u32_at };

    fn read(_alloc: Global, input: &mut Input<'_>) -> Result<u32, ReadModErr> {
        input.u32()
    }
}

impl Binary for ValueType {
    ghost read_at = { value_type_at };

    fn read(_alloc: Global, input: &mut Input<'_>) -> Result<ValueType, ReadModErr> {
        let byte = input.byte()?;
        value_type_of(byte).ok_or(ReadModErr::NotAModule)
    }
}

#[tactic(auto, unfolding(crate::specs::Reading::func_type_at))]
impl Binary for FuncType {
    ghost read_at = { func_type_at };

    fn read(alloc: Global, input: &mut Input<'_>) -> Result<FuncType, ReadModErr> {
        input.expect(0x60)?;
        let params = vector(alloc, input)?;
        let results = vector(alloc, input)?;
        Ok(FuncType { params, results })
    }
}

/// Reads limits (core section 5.3.4) after the byte that says whether there is a maximum.
fn limits(input: &mut Input<'_>, kind: u8) -> Result<ResizableLimits, ReadModErr>
    ensures { Gives (limits_behind kind) input.old input.new result }
{
    match kind {
        0x00 => {
            let min = input.u32()?;
            Ok(ResizableLimits { min, max: None })
        }
        0x01 => {
            let min = input.u32()?;
            let max = input.u32()?;
            Ok(ResizableLimits {
                min,
                max: Some(max),
            })
        }
        _ => Err(ReadModErr::NotAModule),
    }
}

#[tactic(auto, unfolding(crate::specs::Reading::limits_at))]
impl Binary for ResizableLimits {
    ghost read_at = { limits_at };

    fn read(_alloc: Global, input: &mut Input<'_>) -> Result<ResizableLimits, ReadModErr> {
        let kind = input.byte()?;
        limits(input, kind)
    }
}

#[tactic(auto, unfolding(crate::specs::Reading::table_at))]
impl Binary for TableType {
    ghost read_at = { table_at };

    fn read(alloc: Global, input: &mut Input<'_>) -> Result<TableType, ReadModErr> {
        input.expect(0x70)?;
        let limits = ResizableLimits::read(alloc, input)?;
        Ok(TableType { limits })
    }
}

#[tactic(auto, unfolding(crate::specs::Reading::import_at))]
impl Binary for Import {
    ghost read_at = { import_at };

    fn read(alloc: Global, input: &mut Input<'_>) -> Result<Import, ReadModErr> {
        let module = input.owned_name(alloc)?;
        let name = input.owned_name(alloc)?;
        input.expect(0x00)?;
        let type_index = input.u32()?;
        Ok(Import {
            module,
            name,
            type_index,
        })
    }
}

/// Returns the mutability that a byte encodes (core section 5.3.7).
fn mutability_of(byte: u8) -> Option<Mutability>
    ensures { result ≡ mutability_of byte }
{
    match byte {
        0x00 => Some(Mutability::Constant),
        0x01 => Some(Mutability::Variable),
        _ => None,
    }
}

#[tactic(auto, unfolding(crate::specs::Reading::global_at))]
impl Binary for wasm_spec::Global {
    ghost read_at = { global_at };

    fn read(alloc: Global, input: &mut Input<'_>) -> Result<wasm_spec::Global, ReadModErr> {
        let value_type = ValueType::read(alloc, input)?;
        let byte = input.byte()?;
        let mutability = mutability_of(byte).ok_or(ReadModErr::NotAModule)?;
        let init = expression(alloc, input)?;
        Ok(wasm_spec::Global {
            value_type,
            mutability,
            init,
        })
    }
}

/// Returns the kind of export that a byte encodes (core section 5.5.10).
fn export_kind_of(byte: u8) -> Option<ExportKind>
    ensures { result ≡ export_kind_of byte }
{
    match byte {
        0x00 => Some(ExportKind::Function),
        0x01 => Some(ExportKind::Table),
        0x02 => Some(ExportKind::Memory),
        0x03 => Some(ExportKind::Global),
        _ => None,
    }
}

#[tactic(auto, unfolding(crate::specs::Reading::export_at))]
impl Binary for Export {
    ghost read_at = { export_at };

    fn read(alloc: Global, input: &mut Input<'_>) -> Result<Export, ReadModErr> {
        let name = input.owned_name(alloc)?;
        let byte = input.byte()?;
        let kind = export_kind_of(byte).ok_or(ReadModErr::NotAModule)?;
        let index = input.u32()?;
        Ok(Export { name, kind, index })
    }
}

#[tactic(auto, unfolding(crate::specs::Reading::element_at))]
impl Binary for Element {
    ghost read_at = { element_at };

    fn read(alloc: Global, input: &mut Input<'_>) -> Result<Element, ReadModErr> {
        let table = input.u32()?;
        let offset = expression(alloc, input)?;
        let functions = vector(alloc, input)?;
        Ok(Element {
            table,
            offset,
            functions,
        })
    }
}

#[tactic(auto, unfolding(crate::specs::Reading::data_at))]
impl Binary for Data {
    ghost read_at = { data_at };

    fn read(alloc: Global, input: &mut Input<'_>) -> Result<Data, ReadModErr> {
        let memory = input.u32()?;
        let offset = expression(alloc, input)?;
        let bytes = input.owned_bytes(alloc)?;
        Ok(Data {
            memory,
            offset,
            bytes,
        })
    }
}

#[tactic(auto, unfolding(crate::specs::Reading::locals_at))]
impl Binary for Locals {
    ghost read_at = { locals_at };

    fn read(alloc: Global, input: &mut Input<'_>) -> Result<Locals, ReadModErr> {
        let count = input.u32()?;
        let value_type = ValueType::read(alloc, input)?;
        Ok(Locals { count, value_type })
    }
}

/// Returns whether there are fewer than 2^32 locals.
fn are_few(groups: &[Locals]) -> bool
    ensures { result ≡ nat_lt (locals_count groups.now) (2 ^ 32) }
{
    let mut count = 0;
    for group in groups {
        count += u64::from(group.count);
        if count > u64::from(u32::MAX) {
            return false;
        }
    }
    true
}

/// Reads the locals and the body of a function.
#[tactic(auto, unfolding(crate::specs::Reading::func_at))]
fn func(alloc: Global, input: &mut Input<'_>) -> Result<(Items<Locals>, Body), ReadModErr>
    ensures { Gives func_at input.old input.new result }
{
    let locals = vector(alloc, input)?;
    let body = expression(alloc, input)?;
    if are_few(locals.as_slice()) {
        Ok((locals, body))
    } else {
        Err(ReadModErr::NotAModule)
    }
}

// An item of the code section: the size in bytes, the locals and the body of a function.
#[tactic(auto, unfolding(crate::specs::Reading::sized_at))]
impl Binary for (Items<Locals>, Body) {
    ghost read_at = { sized_at func_at };

    fn read(alloc: Global, input: &mut Input<'_>) -> Result<(Items<Locals>, Body), ReadModErr> {
        let mut content = Input::new(input.bytes()?);
        let func = func(alloc, &mut content)?;
        content.finish()?;
        Ok(func)
    }
}
