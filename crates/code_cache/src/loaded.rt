//! A code with the module that it encodes.

ghost use Rattle.std.specs.Prelude.{◌≡◌, IfOk};
ghost use Rattle.module_spec.specs.Loading.{module_of};

use byte_list::Blob;
use module_loader::{LinkedModule, LoadErr, load};
use std::alloc::{AllocError, Global};

/// A code, and the valid, linked module that it encodes, if it encodes one. The type says that the module is the code's: so a
/// `Loaded` that comes from another thread needs no trust.
#[derive(Drop)]
pub struct Loaded {
    pub code: Blob,
    pub module: Option<LinkedModule>,
    pub ghost meant: { module_of «code» ≡ «module» },
}

/// Loads the valid, linked module that a code encodes, if it encodes one.
fn module_of(alloc: Global, code: &[u8]) -> Result<Option<LinkedModule>, AllocError>
    ensures { IfOk result (λ m. module_of code.now ≡ m) }
{
    match load(alloc, code) {
        Ok(module) => Ok(Some(module)),
        Err(LoadErr::Flawed(_)) => Ok(None),
        Err(LoadErr::NoMemory) => Err(AllocError),
    }
}

impl Loaded {
    /// Loads a code, and keeps a copy of it.
    pub fn of(alloc: Global, code: &[u8]) -> Result<Loaded, AllocError>
        ensures { IfOk result (λ loaded. loaded.code ≡ code.now) }
    {
        let copy = Vec::from_slice(alloc, code)?;
        let module = module_of(alloc, code)?;
        Ok(Loaded {
            code: Blob::from_vec(copy),
            module,
        })
    }
}
