//! Linking of a module with the host interface.

ghost use Rattle.std.specs.Prelude.{◌≡◌, option_map};
ghost use Rattle.std.specs.List.{list_all};
ghost use Rattle.wasm_spec.specs.declared.types.ValueType.TheVariants.{I64};
ghost use Rattle.host_interface.specs.Rows.{host_rows, row_of};
ghost use Rattle.module_spec.specs.Check.{same_type as same};
ghost use Rattle.module_spec.specs.Linking.{one_i64, type_matches, with_type, find_row, import_row};

use crate::operands::same_type;
use host_interface::{TableRow, row_named};
use wasm_code::type_at;
use wasm_spec::{FuncType, Import, Module, ValueType};

/// Returns whether the types are a single `i64`.
fn one_i64(types: &[ValueType]) -> bool
    ensures { result ≡ one_i64 types.now }
{
    match types {
        [only] => same_type(*only, ValueType::I64),
        _ => false,
    }
}

/// Returns whether all types are `i64`.
fn all_i64(types: &[ValueType]) -> bool
    ensures { result ≡ list_all (λ p. same p I64) types.now }
{
    types
        .iter()
        .all(|value_type| same_type(*value_type, ValueType::I64))
}

/// Returns whether a function type is `arity` times `i64` to one `i64`.
fn type_matches(arity: usize, func_type: &FuncType) -> bool
    ensures { result ≡ type_matches arity func_type.now }
{
    let params = func_type.params.as_slice();
    params.len() == arity && all_i64(params) && one_i64(func_type.results.as_slice())
}

/// Returns the row if its host import has this type.
fn with_type(row: Option<TableRow>, func_type: &FuncType) -> Option<TableRow>
    ensures { option_map row_of result ≡ with_type (option_map row_of row.entry) func_type.now }
{
    match row {
        Some(row) => {
            if type_matches(row.arguments.len(), func_type) {
                Some(row)
            } else {
                None
            }
        }
        None => None,
    }
}

/// Returns the row whose host import an import of this type is.
fn find_row(import: &Import, func_type: &FuncType) -> Option<TableRow>
    ensures { option_map row_of result ≡ find_row host_rows «import».now func_type.now }
{
    with_type(
        row_named(import.module.as_slice(), import.name.as_slice()),
        func_type,
    )
}

/// Returns the row of the host interface for an import of the module, if the interface has the import with its type.
/// O(log rows) comparisons of names.
pub fn host_row(module: &Module, import: &Import) -> Option<TableRow>
    ensures { option_map row_of result ≡ import_row host_rows module.now «import».now }
{
    match type_at(module, import.type_index) {
        Some(func_type) => find_row(import, func_type),
        None => None,
    }
}
