//! The types of a module's functions, and of the operands and results of loads, stores and conversions.

ghost use Rattle.std.specs.Prelude.{◌≡◌, slice_get, option_copied};
ghost use Rattle.wasm_spec.specs.Typing.{function_indices, function_type, load_type, store_type, converted_from, converted_to};

use wasm_spec::{Conversion, FuncType, LoadKind, Module, StoreKind, ValueType};

/// Returns the type index of the function with this index, imports counted first.
pub fn type_index_at(module: &Module, index: usize) -> Option<u32>
    ensures { result ≡ slice_get (function_indices «module».now) index }
{
    let imports = module.imports.as_slice();
    if index < imports.len() {
        Some(imports[index].type_index)
    } else {
        let function = module.functions.as_slice().get(index - imports.len())?;
        Some(function.type_index)
    }
}

/// Returns the function type with this index.
pub fn type_at(module: &Module, index: u32) -> Option<&FuncType>
    ensures { option_copied result ≡ slice_get «module».now.types index }
{
    module.types.as_slice().get(index as usize)
}

/// Returns the type of the function with this index, imports counted first.
pub fn function_type(module: &Module, index: u32) -> Option<&FuncType>
    ensures { option_copied result ≡ function_type «module».now index }
{
    let type_index = type_index_at(module, index as usize)?;
    type_at(module, type_index)
}

/// Returns the type of a load's result.
pub fn load_type(load: LoadKind) -> ValueType
    ensures { result ≡ load_type load }
{
    match load {
        LoadKind::I32 | LoadKind::I32From8(_) | LoadKind::I32From16(_) => ValueType::I32,
        LoadKind::I64 | LoadKind::I64From8(_) | LoadKind::I64From16(_) | LoadKind::I64From32(_) =>
            ValueType::I64,
    }
}

/// Returns the type of the value that a store writes.
pub fn store_type(store: StoreKind) -> ValueType
    ensures { result ≡ store_type store }
{
    match store {
        StoreKind::I32 | StoreKind::I32To8 | StoreKind::I32To16 => ValueType::I32,
        StoreKind::I64 | StoreKind::I64To8 | StoreKind::I64To16 | StoreKind::I64To32 =>
            ValueType::I64,
    }
}

/// Returns the type of a conversion's operand.
pub fn converted_from(conversion: Conversion) -> ValueType
    ensures { result ≡ converted_from conversion }
{
    match conversion {
        Conversion::I64Extend(_) | Conversion::I32Extend8 | Conversion::I32Extend16 => {
            ValueType::I32
        }
        Conversion::I32Wrap
        | Conversion::I64Extend8
        | Conversion::I64Extend16
        | Conversion::I64Extend32 => ValueType::I64,
    }
}

/// Returns the type of a conversion's result.
pub fn converted_to(conversion: Conversion) -> ValueType
    ensures { result ≡ converted_to conversion }
{
    match conversion {
        Conversion::I32Wrap | Conversion::I32Extend8 | Conversion::I32Extend16 => ValueType::I32,
        Conversion::I64Extend(_)
        | Conversion::I64Extend8
        | Conversion::I64Extend16
        | Conversion::I64Extend32 => ValueType::I64,
    }
}
