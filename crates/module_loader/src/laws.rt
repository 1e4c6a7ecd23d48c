//! Laws of loading. Each law is the contract of a function with an empty body.

ghost use Rattle.module_loader.specs.Results.{IsExact, ModuleOfIsExact};

/// The defined result of loading is exactly the one that the standard's relations allow.
pub fn loaded_is_exact()
    ensures { IsExact }
{}

/// Bytes have a module exactly if they encode it, it is valid, and its imports are host imports.
pub fn module_of_is_exact()
    ensures { ModuleOfIsExact }
{}
