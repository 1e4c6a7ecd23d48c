//! Linked modules.

ghost use Rattle.std.specs.Prelude.{◌≡◌, ◌<◌, length, Some, option_map};
ghost use Rattle.host_interface.specs.Rows.{host_rows, row_of};
ghost use Rattle.module_spec.specs.Linking.{Linked};
ghost use Rattle.wasm_spec.specs.Typing.{Typed};
ghost use Rattle.module_spec.specs.Loading.{row_at};

use host_interface::TableRow;
use std::marker::Model;
use wasm_check::ValidModule;

/// A valid module whose imports are host imports, with the row of each. Only `load` makes one.
#[derive(Drop)]
pub struct LinkedModule {
    pub(crate) valid: ValidModule,
    /// The rows of the imports, in their order: so a call of an import looks up no name.
    pub(crate) rows: Vec<TableRow>,
}

impl Model for LinkedModule {
    ghost use Rattle.wasm_spec.specs.declared.module.Module.{Module};
    ghost use Rattle.wasm_spec.specs.contracts.module.Module as modules;

    ghost Value = { Module };

    ghost coded = { modules.the_row.coded };

    ghost use Rattle.module_spec.specs.Linking.{Linked};
    ghost use Rattle.wasm_spec.specs.Typing.{Typed};
    ghost use Rattle.host_interface.specs.Rows.{host_rows, rows_of};
    ghost use Rattle.module_loader.specs.Results.{HasRows};

    ghost view = { λ m. m.valid };

    ghost invariant = { λ m. Typed m.valid × Linked host_rows m.valid × HasRows m.valid (rows_of m.rows.items) };
}

impl LinkedModule {
    /// Returns the valid module.
    pub fn valid(&self) -> &ValidModule
        ensures module { result.now ≡ self.now }
        ensures typed { Typed self.now }
        ensures linked { Linked host_rows self.now }
    {
        &self.valid
    }

    /// Returns the row of the host interface for the import of the index.
    pub fn row(&self, import: u32) -> TableRow
        requires { «import» < length self.now.imports }
        ensures { row_at self.now «import» ≡ Some (row_of result) }
    {
        self.rows[import as usize]
    }
}
