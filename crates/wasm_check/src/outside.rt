//! The rules outside function bodies (core sections 3.2, 3.3.7 and 3.4).

ghost use Rattle.std.specs.Prelude.{◌≡◌, ◌+◌, ◌&&◌, nat_lt, length, slice_get, [], ◌∷◌};
ghost use Rattle.std.specs.List.{list_all};
ghost use Rattle.wasm_spec.specs.declared.module.Import.{Import};
ghost use Rattle.wasm_spec.specs.declared.module.Function.{Function};
ghost use Rattle.wasm_spec.specs.Typing.{constant_type, constant_of, constant_global, count_of};
ghost use Rattle.module_spec.specs.Outside.{is_type, type_ok, max_ok, limits_ok, table_ok, memory_ok, global_ok, functions_ok};
ghost use Rattle.module_spec.specs.Outside.{element_ok, data_ok, export_ok, types_ok, sizes_ok, values_ok, rules_ok};

use crate::operands::same_type;
use wasm_spec::{
    Body, Data, Element, Export, ExportKind, FuncType, Global, Instr, Module, Mutability, Plain,
    ResizableLimits, TableType, ValueType,
};

/// The largest initial size of a memory, in pages.
const MOST_PAGES: u32 = 64;

/// The largest initial size of a table, in elements.
const MOST_ELEMENTS: u32 = 65_536;

/// Returns the type of a constant global, or `None` for a variable one.
fn constant_global(global: &Global) -> Option<ValueType>
    ensures { result ≡ constant_global global.now }
{
    match global.mutability {
        Mutability::Constant => Some(global.value_type),
        Mutability::Variable => None,
    }
}

/// Returns the type of a constant instruction, or `None` for any other instruction.
fn constant_of(globals: &[Global], plain: Plain) -> Option<ValueType>
    ensures { result ≡ constant_of globals.now plain }
{
    match plain {
        Plain::I32Const(_) => Some(ValueType::I32),
        Plain::I64Const(_) => Some(ValueType::I64),
        Plain::GlobalGet(index) => constant_global(globals.get(index as usize)?),
        _ => None,
    }
}

/// Returns the type of a constant expression, or `None` if the body is no constant expression.
fn constant_type(globals: &[Global], body: &Body) -> Option<ValueType>
    ensures { result ≡ constant_type globals.now body.now }
{
    let instrs = body.as_slice();
    if instrs.len() != 1 {
        return None;
    }
    match &instrs[0] {
        Instr::Plain(plain) => constant_of(globals, *plain),
        _ => None,
    }
}

fn is_type(known: Option<ValueType>, value_type: ValueType) -> bool
    ensures { result ≡ is_type known value_type }
{
    match known {
        None => false,
        Some(known) => same_type(known, value_type),
    }
}

fn type_ok(func_type: &FuncType) -> bool
    ensures { result ≡ type_ok func_type.now }
{
    func_type.results.as_slice().len() <= 1
}

fn max_ok(min: u32, most: u64, max: Option<u32>) -> bool
    ensures { result ≡ max_ok min most max }
{
    match max {
        None => true,
        Some(max) => min <= max && u64::from(max) <= most,
    }
}

fn table_ok(table: &TableType) -> bool
    ensures { result ≡ table_ok table.now }
{
    let limits = table.limits;
    limits.min <= MOST_ELEMENTS && max_ok(limits.min, 1 << 32, limits.max)
}

fn memory_ok(limits: &ResizableLimits) -> bool
    ensures { result ≡ memory_ok limits.now }
{
    limits.min <= MOST_PAGES && max_ok(limits.min, 1 << 16, limits.max)
}

fn global_ok(global: &Global) -> bool
    ensures { result ≡ global_ok global.now }
{
    is_type(constant_type(&[], &global.init), global.value_type)
}

/// Returns the number of functions, imports included.
fn function_count(module: &Module) -> usize
    ensures { result ≡ length module.now.imports + length module.now.functions }
{
    module.imports.as_slice().len() + module.functions.as_slice().len()
}

fn functions_ok(count: usize, functions: &[u32]) -> bool
    ensures { result ≡ functions_ok count functions.now }
{
    functions
        .iter()
        .all(|function| (*function as usize) < count)
}

fn element_ok(module: &Module, element: &Element) -> bool
    ensures { result ≡ element_ok module.now element.now }
{
    let offset = constant_type(module.globals.as_slice(), &element.offset);
    (element.table as usize) < module.tables.as_slice().len()
        && is_type(offset, ValueType::I32)
        && functions_ok(function_count(module), element.functions.as_slice())
}

fn data_ok(module: &Module, data: &Data) -> bool
    ensures { result ≡ data_ok module.now «data».now }
{
    let offset = constant_type(module.globals.as_slice(), &data.offset);
    (data.memory as usize) < module.memories.as_slice().len() && is_type(offset, ValueType::I32)
}

fn count_of(module: &Module, kind: ExportKind) -> usize
    ensures { result ≡ count_of module.now kind }
{
    match kind {
        ExportKind::Function => function_count(module),
        ExportKind::Table => module.tables.as_slice().len(),
        ExportKind::Memory => module.memories.as_slice().len(),
        ExportKind::Global => module.globals.as_slice().len(),
    }
}

fn export_ok(module: &Module, export: &Export) -> bool
    ensures { result ≡ export_ok module.now export.now }
{
    (export.index as usize) < count_of(module, export.kind)
}

fn all_types(module: &Module) -> bool
    ensures { result ≡ list_all type_ok module.now.types }
{
    module
        .types
        .as_slice()
        .iter()
        .all(|func_type| type_ok(func_type))
}

fn all_imports(module: &Module) -> bool
    ensures { result ≡ list_all (λ (i : Import). nat_lt i.type_index (length module.now.types)) module.now.imports }
{
    let count = module.types.as_slice().len();
    let imports = module.imports.as_slice();
    imports
        .iter()
        .all(|import| (import.type_index as usize) < count)
}

fn all_functions(module: &Module) -> bool
    ensures { result ≡ list_all (λ (f : Function). nat_lt f.type_index (length module.now.types)) module.now.functions }
{
    let count = module.types.as_slice().len();
    let functions = module.functions.as_slice();
    functions
        .iter()
        .all(|function| (function.type_index as usize) < count)
}

fn all_tables(module: &Module) -> bool
    ensures { result ≡ list_all table_ok module.now.tables }
{
    module.tables.as_slice().iter().all(|table| table_ok(table))
}

fn all_memories(module: &Module) -> bool
    ensures { result ≡ list_all memory_ok module.now.memories }
{
    module
        .memories
        .as_slice()
        .iter()
        .all(|memory| memory_ok(memory))
}

fn all_globals(module: &Module) -> bool
    ensures { result ≡ list_all global_ok module.now.globals }
{
    module
        .globals
        .as_slice()
        .iter()
        .all(|global| global_ok(global))
}

fn all_elements(module: &Module) -> bool
    ensures { result ≡ list_all (element_ok module.now) module.now.elements }
{
    let elements = module.elements.as_slice();
    elements.iter().all(|element| element_ok(module, element))
}

fn all_data(module: &Module) -> bool
    ensures { result ≡ list_all (data_ok module.now) module.now.data }
{
    let segments = module.data.as_slice();
    segments.iter().all(|segment| data_ok(module, segment))
}

fn all_exports(module: &Module) -> bool
    ensures { result ≡ list_all (export_ok module.now) module.now.exports }
{
    let exports = module.exports.as_slice();
    exports.iter().all(|export| export_ok(module, export))
}

/// Returns whether all types are valid, and each import and function names one of them.
fn types_ok(module: &Module) -> bool
    ensures { result ≡ types_ok module.now }
{
    all_types(module) && all_imports(module) && all_functions(module)
}

/// Returns whether the numbers and sizes of functions, tables and memories are allowed.
fn sizes_ok(module: &Module) -> bool
    ensures { result ≡ sizes_ok module.now }
{
    function_count(module) < 1 << 32
        && module.tables.as_slice().len() <= 1
        && all_tables(module)
        && module.memories.as_slice().len() <= 1
        && all_memories(module)
}

/// Returns whether initial values of globals, segments and indices of exports are valid.
fn values_ok(module: &Module) -> bool
    ensures { result ≡ values_ok module.now }
{
    all_globals(module) && all_elements(module) && all_data(module) && all_exports(module)
}

/// Returns whether all rules outside function bodies hold, except that names of exports differ.
pub fn rules_hold(module: &Module) -> bool
    ensures { result ≡ rules_ok module.now }
{
    types_ok(module) && sizes_ok(module) && values_ok(module)
}
