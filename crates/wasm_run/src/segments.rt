//! Element and data segments (core section 4.5.4).

ghost use Rattle.std.specs.Prelude.{◌≡◌, ◌+◌, ◌≤◌, ◌&&◌, true, map, length, Some, IfOk, OnOk};
ghost use Rattle.std.specs.List.{list_all};
ghost use Rattle.wasm_spec.specs.declared.module.Element.{Element as Element_};
ghost use Rattle.wasm_spec.specs.declared.module.Data.{Data as Data_};
ghost use Rattle.wasm_spec.specs.Stores.{overwritten};
ghost use Rattle.wasm_spec.specs.Instances.{offset_of, fits, put, with_elements, with_data};

use crate::constants::offset_of;
use std::alloc::{AllocError, Global};
use wasm_spec::{Data, Element, Value};

/// Overwrites the items from the offset on.
fn overwrite<T: Copy + Drop>(items: &mut [T], offset: usize, news: &[T])
    requires { offset + length news.now ≤ length items.old }
    ensures { items.new ≡ overwritten items.old offset news.now }
{
    items[offset..offset + news.len()].copy_from_slice(news);
}

/// Returns whether an element segment fits.
pub fn element_fits(globals: &[Value], table: &[Option<u32>], element: &Element) -> bool
    ensures { result ≡ fits table.now (offset_of globals.now element.now.offset) (length element.now.functions) }
{
    match offset_of(globals, &element.offset) {
        None => false,
        Some(offset) => offset as usize + element.functions.as_slice().len() <= table.len(),
    }
}

/// Returns whether all element segments fit.
pub fn elements_fit(globals: &[Value], table: &[Option<u32>], elements: &[Element]) -> bool
    ensures { result ≡ list_all (λ (e : Element_). fits table.now (offset_of globals.now e.offset) (length e.functions))
        elements.now }
{
    elements
        .iter()
        .all(|element| element_fits(globals, table, element))
}

/// Returns whether a data segment fits.
pub fn data_fit_one(globals: &[Value], memory: &[u8], segment: &Data) -> bool
    ensures { result ≡ fits memory.now (offset_of globals.now segment.now.offset) (length segment.now.bytes) }
{
    match offset_of(globals, &segment.offset) {
        None => false,
        Some(offset) => offset as usize + segment.bytes.as_slice().len() <= memory.len(),
    }
}

/// Returns whether all data segments fit.
pub fn data_fit(globals: &[Value], memory: &[u8], segments: &[Data]) -> bool
    ensures { result ≡ list_all (λ (d : Data_). fits memory.now (offset_of globals.now d.offset) (length d.bytes)) segments.now }
{
    segments
        .iter()
        .all(|segment| data_fit_one(globals, memory, segment))
}

/// Returns table elements that hold these functions.
fn set_elements(alloc: Global, functions: &[u32]) -> Result<Vec<Option<u32>>, AllocError>
    ensures { IfOk result (λ v. v.items ≡ map Some functions.now) }
{
    functions
        .iter()
        .map(|function| Some(*function))
        .collect(alloc)
}

/// Copies an element segment, which fits, into the table.
fn put_element(
    alloc: Global,
    globals: &[Value],
    table: &mut [Option<u32>],
    element: &Element,
) -> Result<(), AllocError>
    requires { fits table.old (offset_of globals.now element.now.offset) (length element.now.functions) ≡ true }
    ensures { OnOk result (table.new ≡ put table.old (offset_of globals.now element.now.offset)
        (map Some element.now.functions)) }
{
    match offset_of(globals, &element.offset) {
        None => unreachable!(),
        Some(offset) => {
            let elements = set_elements(alloc, element.functions.as_slice())?;
            overwrite(table, offset as usize, elements.as_slice());
            Ok(())
        }
    }
}

/// Copies element segments, which fit, into the table.
pub fn put_elements(
    alloc: Global,
    globals: &[Value],
    table: &mut [Option<u32>],
    elements: &[Element],
) -> Result<(), AllocError>
    requires { list_all (λ (e : Element_). fits table.old (offset_of globals.now e.offset) (length e.functions)) elements.now
        ≡ true }
    ensures { OnOk result (table.new ≡ with_elements globals.now table.old elements.now) }
{
    for element in elements {
        put_element(alloc, globals, table, element)?;
    }
    Ok(())
}

/// Copies a data segment, which fits, into the memory.
fn put_segment(globals: &[Value], memory: &mut [u8], segment: &Data)
    requires { fits memory.old (offset_of globals.now segment.now.offset) (length segment.now.bytes) ≡ true }
    ensures { memory.new ≡ put memory.old (offset_of globals.now segment.now.offset) segment.now.bytes }
{
    match offset_of(globals, &segment.offset) {
        None => unreachable!(),
        Some(offset) => overwrite(memory, offset as usize, segment.bytes.as_slice()),
    }
}

/// Copies data segments, which fit, into the memory.
pub fn put_data(globals: &[Value], memory: &mut [u8], segments: &[Data])
    requires { list_all (λ (d : Data_). fits memory.old (offset_of globals.now d.offset) (length d.bytes)) segments.now ≡ true }
    ensures { memory.new ≡ with_data globals.now memory.old segments.now }
{
    for segment in segments {
        put_segment(globals, memory, segment);
    }
}
