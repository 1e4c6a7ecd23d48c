//! The start of a call: the exported function and the initial store (core section 4.5.4).

ghost use Rattle.std.specs.Prelude.{◌≡◌, ◌≤◌, Some, IfOk};
ghost use Rattle.wasm_spec.specs.Typing.{Typed};
ghost use Rattle.wasm_spec.specs.Instances.{table_of, memory_of, empty_store, segments_fit, start_filled, start_function};
ghost use Rattle.wasm_spec.specs.Instances.{start_of};
ghost use Rattle.wasm_run.specs.Begun.{IsStart, IsFirstStore};

use crate::constants::first_values;
use crate::error::StartErr;
use crate::export::{function_named, has_arity};
use crate::segments::{data_fit, elements_fit, put_data, put_elements};
use std::alloc::{AllocError, Global};
use wasm_code::function_type;
use wasm_machine::{PAGE_BYTES, Store};
use wasm_spec::{Module, ResizableLimits, TableType, Value};

/// The largest size of any memory, in pages.
const MOST_PAGES: u32 = 64;

/// The start of a call: the index of the called function, and the initial store.
#[derive(Drop)]
pub struct Beginning {
    pub function: u32,
    pub store: Store,
}

/// Returns a table of empty elements.
fn first_table(alloc: Global, table_type: Option<TableType>) -> Result<Vec<Option<u32>>, AllocError>
    ensures { IfOk result (λ v. v.items ≡ table_of table_type) }
{
    let mut table = Vec::new(alloc);
    if let Some(table_type) = table_type {
        table.resize(table_type.limits.min as usize, None)?;
    }
    Ok(table)
}

/// Returns a memory of zeros.
fn first_memory(alloc: Global, limits: Option<ResizableLimits>) -> Result<Vec<u8>, AllocError>
    ensures { IfOk result (λ v. v.items ≡ (memory_of limits).bytes) }
{
    let mut memory = Vec::new(alloc);
    if let Some(limits) = limits {
        memory.resize(limits.min as usize * PAGE_BYTES, 0)?;
    }
    Ok(memory)
}

/// Returns the largest size that the memory can grow to, in pages.
fn most_pages(limits: Option<ResizableLimits>) -> u32
    ensures value { result ≡ (memory_of limits).most_pages }
    ensures few { result ≤ 64 }
{
    match limits {
        None => 0,
        Some(limits) => limits.max.unwrap_or(MOST_PAGES).min(MOST_PAGES),
    }
}

/// Returns whether all segments fit.
fn segments_fit(source: &Module, globals: &[Value], table: &[Option<u32>], memory: &[u8]) -> bool
    ensures { result ≡ segments_fit source.now
        (record { memory = record { bytes = memory.now; most_pages = 0 }; globals = globals.now; table = table.now }) }
{
    elements_fit(globals, table, source.elements.as_slice())
        && data_fit(globals, memory, source.data.as_slice())
}

/// Returns the initial store, with all segments copied into it.
fn first_store(alloc: Global, source: &Module) -> Result<Store, StartErr>
    requires { Typed source.now }
    ensures { IsFirstStore source.now result }
{
    let limits = source.memories.as_slice().first().copied();
    let globals = first_values(alloc, source.globals.as_slice())?;
    let mut table = first_table(alloc, source.tables.as_slice().first().copied())?;
    let mut memory = first_memory(alloc, limits)?;
    if !segments_fit(source, &globals, &table, &memory) {
        return Err(StartErr::Segment);
    }
    put_elements(alloc, &globals, &mut table, source.elements.as_slice())?;
    put_data(&globals, &mut memory, source.data.as_slice());
    Ok(Store::new(memory, most_pages(limits), globals, table))
}

/// Returns the start of a call of a function whose arity is right.
fn begin_filled(alloc: Global, source: &Module, function: u32) -> Result<Beginning, StartErr>
    requires { Typed source.now }
    ensures { IsStart (start_filled source.now function (empty_store source.now)) result }
{
    let store = first_store(alloc, source)?;
    Ok(Beginning { function, store })
}

/// Returns the start of a call of a function, if its arity is right.
fn begin_function(
    alloc: Global,
    source: &Module,
    function: u32,
    arity: usize,
) -> Result<Beginning, StartErr>
    requires { Typed source.now }
    ensures { IsStart (start_function source.now arity (Some function)) result }
{
    let Some(func_type) = function_type(source, function) else {
        return Err(StartErr::WrongArity);
    };
    if !has_arity(arity, func_type) {
        return Err(StartErr::WrongArity);
    }
    begin_filled(alloc, source, function)
}

/// Returns the start of a call of the export. A missing export is reported first, then a wrong arity, then a segment
/// that does not fit.
pub fn begin(
    alloc: Global,
    source: &Module,
    export: &[u8],
    arity: usize,
) -> Result<Beginning, StartErr>
    requires { Typed source.now }
    ensures { IsStart (start_of source.now export.now arity) result }
{
    match function_named(export, source.exports.as_slice()) {
        None => Err(StartErr::Missing),
        Some(function) => begin_function(alloc, source, function, arity),
    }
}
