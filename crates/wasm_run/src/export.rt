//! The exported function that is called.

ghost use Rattle.std.specs.Prelude.{◌≡◌, replicate, Some};
ghost use Rattle.wasm_spec.specs.declared.types.ValueType.TheVariants.{I64};
ghost use Rattle.wasm_spec.specs.Meaning.{same_type, same_types};
ghost use Rattle.wasm_spec.specs.Instances.{function_exported, function_named, has_arity};

use wasm_check::same_name;
use wasm_spec::{Export, ExportKind, FuncType, ValueType};

/// Returns the index of the function that an export names, if it names a function.
fn function_exported(export: &Export) -> Option<u32>
    ensures { result ≡ function_exported export.now.kind export.now.index }
{
    match export.kind {
        ExportKind::Function => Some(export.index),
        ExportKind::Table => None,
        ExportKind::Memory => None,
        ExportKind::Global => None,
    }
}

/// Returns the index of the function that is exported under the name.
pub fn function_named(name: &[u8], exports: &[Export]) -> Option<u32>
    ensures { result ≡ function_named name.now exports.now }
{
    for export in exports {
        if same_name(export.name.as_slice(), name) {
            return function_exported(export);
        }
    }
    None
}

fn is_word(value_type: ValueType) -> bool
    ensures { result ≡ same_type value_type I64 }
{
    value_type == ValueType::I64
}

/// Returns whether the types are `count` times `i64`.
fn are_words(count: usize, types: &[ValueType]) -> bool
    ensures { result ≡ same_types types.now (replicate count I64) }
{
    if types.len() != count {
        return false;
    }
    for value_type in types {
        if !is_word(*value_type) {
            return false;
        }
    }
    true
}

/// Returns whether the function type is `arity` times `i64` to one `i64`.
pub fn has_arity(arity: usize, func_type: &FuncType) -> bool
    ensures { result ≡ has_arity arity (Some func_type.now) }
{
    are_words(arity, func_type.params.as_slice()) && are_words(1, func_type.results.as_slice())
}
