//! Sections and modules (core sections 5.5.2 to 5.5.15).

ghost use Rattle.std.specs.Prelude.{◌≡◌, IfOk, length, map, slice_get};
ghost use Rattle.wasm_spec.specs.declared.module.Module.{Module};
ghost use Rattle.wasm_spec.specs.Binary.{MAGIC, ModuleBytes};
ghost use Rattle.wasm_read.specs.Gives.{Gives, GivesAs, Skips, Is, IsAs, IsUnlessMemory};
ghost use Rattle.wasm_read.specs.Sections.{sections_view};
ghost use Rattle.wasm_read.specs.Reading.{expect_all, vector_at, sized_at, custom_at, at_custom, customs_at, section_behind};
ghost use Rattle.wasm_read.specs.Reading.{section_at, sections_at, all_sections_at, functions_of, module_at};

use crate::binary::{Binary, vector};
use crate::error::ReadModErr;
use crate::input::Input;
use std::alloc::Global;
use wasm_spec::{
    Body, Data, Element, Export, FuncType, Function, Import, Items, Locals, Module,
    ResizableLimits, TableType,
};

/// The contents of a module's sections.
#[derive(Drop)]
pub struct Sections {
    pub types: Items<FuncType>,
    pub imports: Items<Import>,
    pub type_indices: Items<u32>,
    pub tables: Items<TableType>,
    pub memories: Items<ResizableLimits>,
    pub globals: Items<wasm_spec::Global>,
    pub exports: Items<Export>,
    pub elements: Items<Element>,
    pub funcs: Items<(Items<Locals>, Body)>,
    pub data: Items<Data>,
}

/// Reads the module that the bytes encode (core section 5.5.15). No byte may follow it.
///
/// Returns `NotAModule` exactly if the bytes encode no module.
pub fn read_module(alloc: Global, bytes: &[u8]) -> Result<Module, ReadModErr>
    // The bytes encode the returned module.
    ensures found { IfOk result (λ m. ModuleBytes m bytes.now) }
    // The reader returns every module that the bytes encode, unless it runs out of memory.
    ensures only { (m : Module) → ModuleBytes m bytes.now → IsUnlessMemory m result }
{
    whole_module(alloc, bytes)
}

/// Does the same as `read_module`, with a contract that names the reading function.
#[tactic(auto, unfolding(crate::specs::Reading::module_at))]
fn whole_module(alloc: Global, bytes: &[u8]) -> Result<Module, ReadModErr>
    ensures { Is (module_at bytes.now) result }
{
    let sections = all_sections(alloc, bytes)?;
    let functions = functions(alloc, sections.type_indices, sections.funcs)?;
    Ok(Module {
        types: sections.types,
        imports: sections.imports,
        functions,
        tables: sections.tables,
        memories: sections.memories,
        globals: sections.globals,
        exports: sections.exports,
        elements: sections.elements,
        data: sections.data,
    })
}

/// Reads the preamble and the sections.
fn all_sections(alloc: Global, bytes: &[u8]) -> Result<Sections, ReadModErr>
    ensures { IsAs sections_view (all_sections_at bytes.now) result }
{
    let mut input = Input::new(bytes);
    preamble(&mut input)?;
    customs(&mut input)?;
    let sections = read_sections(alloc, &mut input)?;
    input.finish()?;
    Ok(sections)
}

/// Reads the preamble: "\0asm" and version 1.
fn preamble(input: &mut Input<'_>) -> Result<(), ReadModErr>
    ensures { Skips (expect_all MAGIC) input.old input.new result }
{
    input.expect(0x00)?;
    input.expect(0x61)?;
    input.expect(0x73)?;
    input.expect(0x6D)?;
    input.expect(0x01)?;
    input.expect(0x00)?;
    input.expect(0x00)?;
    input.expect(0x00)
}

/// Skips custom sections.
fn customs(input: &mut Input<'_>) -> Result<(), ReadModErr>
    ensures { Skips customs_at input.old input.new result }
{
    while at_custom(input) {
        input.byte()?;
        custom(input)?;
    }
    Ok(())
}

/// Returns whether a custom section follows.
fn at_custom(input: &Input<'_>) -> bool
    ensures { result ≡ at_custom input.now }
{
    match input.peek() {
        Some(number) => number == 0x00,
        None => false,
    }
}

/// Reads a custom section after its id, and returns its name.
#[tactic(auto, unfolding(crate::specs::Reading::sized_at, crate::specs::Reading::custom_at))]
fn custom<'a>(input: &mut Input<'a>) -> Result<&'a [u8], ReadModErr>
    ensures { GivesAs (λ s. s.now) (sized_at custom_at) input.old input.new result }
{
    let content = input.bytes()?;
    Input::new(content).name()
}

/// Reads the section with this id. If another section or none follows, returns no items.
#[tactic(auto, unfolding(crate::specs::Reading::section_at))]
fn section<T: Binary + Drop>(
    alloc: Global,
    input: &mut Input<'_>,
    number: u8,
) -> Result<Items<T>, ReadModErr>
    ensures { Gives (section_at number T.read_at) input.old input.new result }
{
    match input.peek() {
        Some(next) if next == number => {
            input.byte()?;
            section_content(alloc, input)
        }
        _ => Ok(Items::from_vec(Vec::new(alloc))),
    }
}

/// Reads a section after its id, and skips the custom sections after it.
fn section_content<T: Binary + Drop>(
    alloc: Global,
    input: &mut Input<'_>,
) -> Result<Items<T>, ReadModErr>
    ensures { Gives (section_behind T.read_at) input.old input.new result }
{
    let items = sized_vector(alloc, input)?;
    customs(input)?;
    Ok(items)
}

/// Reads the size of a vector in bytes, and then the vector.
#[tactic(auto, unfolding(crate::specs::Reading::sized_at))]
fn sized_vector<T: Binary + Drop>(
    alloc: Global,
    input: &mut Input<'_>,
) -> Result<Items<T>, ReadModErr>
    ensures { Gives (sized_at (vector_at T.read_at)) input.old input.new result }
{
    let mut content = Input::new(input.bytes()?);
    let items = vector(alloc, &mut content)?;
    content.finish()?;
    Ok(items)
}

/// Pairs the types of the functions with their locals and bodies. Rejects different numbers of them.
fn functions(
    alloc: Global,
    type_indices: Items<u32>,
    funcs: Items<(Items<Locals>, Body)>,
) -> Result<Items<Function>, ReadModErr>
    ensures { Is (functions_of type_indices funcs) result }
{
    let indices = type_indices.as_slice();
    let mut funcs = funcs.into_vec();
    if indices.len() != funcs.len() {
        return Err(ReadModErr::NotAModule);
    }
    let mut functions = Vec::new(alloc);
    while let Some((locals, body)) = funcs.pop() {
        functions.push(Function {
            type_index: indices[funcs.len()],
            locals,
            body,
        })?;
    }
    functions.reverse();
    Ok(Items::from_vec(functions))
}

/// Reads the sections in the order of their ids, each at most once.
#[tactic(auto, unfolding(crate::specs::Reading::sections_at))]
fn read_sections(alloc: Global, input: &mut Input<'_>) -> Result<Sections, ReadModErr>
    ensures { GivesAs sections_view sections_at input.old input.new result }
{
    let types = section(alloc, input, 1)?;
    let imports = section(alloc, input, 2)?;
    let type_indices = section(alloc, input, 3)?;
    let tables = section(alloc, input, 4)?;
    let memories = section(alloc, input, 5)?;
    let globals = section(alloc, input, 6)?;
    let exports = section(alloc, input, 7)?;
    let elements = section(alloc, input, 9)?;
    let funcs = section(alloc, input, 10)?;
    let data = section(alloc, input, 11)?;
    Ok(Sections {
        types,
        imports,
        type_indices,
        tables,
        memories,
        globals,
        exports,
        elements,
        funcs,
        data,
    })
}
