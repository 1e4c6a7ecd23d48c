//! Imports by their names.

ghost use Rattle.std.specs.Prelude.{◌≡◌, IfSome, IfNone, map, false, slice_get};
ghost use Rattle.std.specs.Cmp.Lexicographic.{slice_cmp};
ghost use Rattle.std.specs.List.{find, list_any};
ghost use Rattle.std.specs.Option.{option_map};
ghost use Rattle.std.specs.Ordering.{nat_cmp};
ghost use Rattle.std.specs.Str.{bytes_eq};
ghost use Rattle.host_interface.specs.Order.{IsOrder, name_at, row_of_module};
ghost use Rattle.host_interface.specs.Rows.{host_rows, row_of, rows_of};
ghost use Rattle.host_interface.specs.Named.{is_named, import_named};

use crate::import::HostImport;
use crate::rows::{BY_NAME, HOST_ROWS, TableRow};
use std::cmp::Ordering;

/// Returns the name of the row of an index, or no bytes if there is no such row.
fn name_at(table: &[TableRow], index: u8) -> &'static [u8]
    ensures { result.now ≡ name_at (rows_of table.now) index }
{
    match table.get(index as usize) {
        Some(row) => row.name.as_bytes(),
        None => b"",
    }
}

/// Returns the index of the row with this name, if there is one. O(log rows) comparisons.
fn index_of(table: &[TableRow], order: &[u8], name: &[u8]) -> Option<u8>
    requires { IsOrder (rows_of table.now) order.now }
    ensures some { IfSome result (λ index. name_at (rows_of table.now) index ≡ name.now) }
    ensures none { IfNone result (list_any (bytes_eq name.now) (map (name_at (rows_of table.now)) order.now) ≡ false) }
{
    let beside = |index: &u8| -> Ordering
        ensures { result ≡ slice_cmp nat_cmp (name_at (rows_of table.entry.now) index.now) name.entry.now }
    { name_at(table, *index).cmp(name) };
    match order.binary_search_by(beside) {
        Ok(place) => Some(order[place]),
        Err(_) => None,
    }
}

/// Returns the row of an index, if the row is of this module.
fn row_of_module(table: &[TableRow], index: u8, module: &[u8]) -> Option<TableRow>
    ensures { option_map row_of result ≡ row_of_module (slice_get (rows_of table.now) index) «module».now }
{
    match table.get(index as usize) {
        Some(row) => {
            if row.letter.as_bytes() == module {
                Some(*row)
            } else {
                None
            }
        }
        None => None,
    }
}

/// Returns the row with this module and this name.
fn row_in(table: &[TableRow], order: &[u8], module: &[u8], name: &[u8]) -> Option<TableRow>
    requires { IsOrder (rows_of table.now) order.now }
    ensures { option_map row_of result ≡ find (is_named «module».now name.now) (rows_of table.now) }
{
    match index_of(table, order, name) {
        Some(index) => row_of_module(table, index, module),
        None => None,
    }
}

/// Returns the row of the host interface with this module and this name, if there is one. O(log rows) comparisons of
/// names.
pub fn row_named(module: &[u8], name: &[u8]) -> Option<TableRow>
    ensures { option_map row_of result ≡ find (is_named «module».now name.now) host_rows }
{
    row_in(&HOST_ROWS, &BY_NAME, module, name)
}

/// Returns the function of the host interface with this module and this name, if there is one. O(log rows) comparisons of
/// names.
pub fn import_named(module: &[u8], name: &[u8]) -> Option<HostImport>
    ensures { result ≡ import_named «module».now name.now }
{
    match row_named(module, name) {
        Some(row) => Some(row.import),
        None => None,
    }
}
