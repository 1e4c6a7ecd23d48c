//! Loading of a module from its bytes.

ghost use Rattle.std.specs.Prelude.{◌≡◌, ◌<◌, ◌^◌, length, IfOk, IfErr};
ghost use Rattle.wasm_spec.specs.Binary.{ModuleBytes};
ghost use Rattle.wasm_spec.specs.Typing.{Typed};
ghost use Rattle.host_interface.specs.Rows.{host_rows, rows_of};
ghost use Rattle.module_spec.specs.Linking.{Linked};
ghost use Rattle.module_spec.specs.declared.flaw.Flaw.TheVariants.{Unlinked};
ghost use Rattle.module_loader.specs.declared.error.LoadErr.TheVariants.{Flawed};
ghost use Rattle.module_loader.specs.Results.{HasRows, IsLoadedUnlessMemory, IsModuleOf, ReportsFlaw, ReportsIll};
ghost use Rattle.module_loader.specs.Results.{ReportsUnlinked, Gives};
ghost use Rattle.module_spec.specs.Loading.{loaded, module_of};

use crate::error::LoadErr;
use crate::linked::LinkedModule;
use host_interface::TableRow;
use module_spec::Flaw;
use std::alloc::Global;
use wasm_check::{CheckErr, ValidModule, check, host_row};
use wasm_read::{ReadModErr, read_module};
use wasm_spec::Module;

/// Loads the module that the bytes encode, or reports its first flaw. The bytes are read first, then the module is
/// validated, then its imports are linked.
pub fn load(alloc: Global, bytes: &[u8]) -> Result<LinkedModule, LoadErr>
    // The module or the flaw is that of the bytes.
    ensures encoded { IsLoadedUnlessMemory bytes.now result }
    // The result is the defined one.
    ensures given { Gives (loaded bytes.now) result }
    ensures module { IsModuleOf (module_of bytes.now) result }
{
    linked_of(alloc, bytes)
}

fn linked_of(alloc: Global, bytes: &[u8]) -> Result<LinkedModule, LoadErr>
    ensures { IsLoadedUnlessMemory bytes.now result }
{
    let valid = valid_of(alloc, bytes)?;
    match link(alloc, &valid) {
        Ok(rows) => Ok(LinkedModule { valid, rows }),
        Err(error) => Err(error),
    }
}

/// Reads and validates the module that the bytes encode.
fn valid_of(alloc: Global, bytes: &[u8]) -> Result<ValidModule, LoadErr>
    ensures encoded { IfOk result (λ m. ModuleBytes m bytes.now) }
    ensures valid { IfOk result Typed }
    ensures flawed { IfErr result (ReportsFlaw bytes.now) }
{
    let module = read(alloc, bytes)?;
    validate(alloc, module)
}

fn read(alloc: Global, bytes: &[u8]) -> Result<Module, LoadErr>
    ensures encoded { IfOk result (λ m. ModuleBytes m bytes.now) }
    ensures flawed { IfErr result (ReportsFlaw bytes.now) }
{
    match read_module(alloc, bytes) {
        Ok(module) => Ok(module),
        Err(ReadModErr::NotAModule) => Err(LoadErr::Flawed(Flaw::NotAModule)),
        Err(ReadModErr::NoMemory) => Err(LoadErr::NoMemory),
    }
}

fn validate(alloc: Global, module: Module) -> Result<ValidModule, LoadErr>
    ensures same { IfOk result (λ m. m ≡ «module») }
    ensures valid { IfOk result Typed }
    ensures ill { IfErr result (ReportsIll «module») }
{
    match check(alloc, module) {
        Ok(valid) => Ok(valid),
        Err(CheckErr::Ill { func }) => Err(LoadErr::Flawed(Flaw::Ill { func })),
        Err(CheckErr::NoMemory) => Err(LoadErr::NoMemory),
    }
}

/// Links the imports of a valid module with the host interface. Returns the row of each, in their order, or the index of
/// the first import that the interface does not have with its type.
pub fn link(alloc: Global, module: &ValidModule) -> Result<Vec<TableRow>, LoadErr>
    ensures linked { IfOk result (λ _. Linked host_rows module.now) }
    ensures rows { IfOk result (λ rows. HasRows module.now (rows_of rows.items)) }
    ensures unlinked { IfErr result (ReportsUnlinked module.now) }
{
    rows_of(alloc, module.module())
}

/// Returns the row of each import, found once.
fn rows_of(alloc: Global, module: &Module) -> Result<Vec<TableRow>, LoadErr>
    requires { length module.now.imports < 2 ^ 32 }
    ensures linked { IfOk result (λ _. Linked host_rows module.now) }
    ensures rows { IfOk result (λ rows. HasRows module.now (rows_of rows.items)) }
    ensures unlinked { IfErr result (ReportsUnlinked module.now) }
{
    let mut rows = Vec::new(alloc);
    for (index, import) in module.imports.as_slice().iter().enumerate() {
        match host_row(module, import) {
            Some(row) => rows.push(row)?,
            None => return Err(unlinked(index as u32)),
        }
    }
    Ok(rows)
}

fn unlinked(import: u32) -> LoadErr
    ensures { result ≡ Flawed (Unlinked «import») }
{
    LoadErr::Flawed(Flaw::Unlinked { import })
}
