//! The verdict on a WebAssembly module from its bytes: its sizes if this host accepts it, or else its first flaw.
#![tactic(auto)]

ghost use Rattle.std.specs.Prelude.{◌≡◌, IfOk};
ghost use Rattle.module_vet.specs.Line.{valid_line};
ghost use Rattle.module_vet.specs.Verdict.{GivesVerdict, IsExact, IsVerdictUnlessMemory, least_pages, sizes_of, verdict_of};

pub use module_loader::LoadErr as VetErr;
use module_loader::load;
pub use module_spec::Flaw;
use std::alloc::{AllocError, Global};
use text_lines::push_number;
use wasm_spec::{Module, ResizableLimits};

/// The sizes of a module that the host accepts.
#[derive(Clone, Copy, Debug, PartialEq, Eq)]
pub struct Sizes {
    /// The number of its functions, without imports.
    pub functions: usize,
    pub imports: usize,
    pub exports: usize,
    /// The initial size of its memory in pages of 64 KiB, 0 without a memory.
    pub pages: u32,
}

/// Reports the sizes of the module that the bytes encode, or its first flaw. The bytes are read first, then the module
/// is validated, then its imports are linked.
pub fn vet(alloc: Global, bytes: &[u8]) -> Result<Sizes, VetErr>
    // The verdict is true of the module that the bytes encode.
    ensures verdict { IsVerdictUnlessMemory bytes.now result }
    // The verdict is the defined one.
    ensures given { GivesVerdict (verdict_of bytes.now) result }
{
    judged(alloc, bytes)
}

fn judged(alloc: Global, bytes: &[u8]) -> Result<Sizes, VetErr>
    ensures { IsVerdictUnlessMemory bytes.now result }
{
    match load(alloc, bytes) {
        Ok(linked) => Ok(sizes_of(linked.valid().module())),
        Err(error) => Err(error),
    }
}

fn sizes_of(module: &Module) -> Sizes
    ensures { result ≡ sizes_of «module».now }
{
    Sizes {
        functions: module.functions.as_slice().len(),
        imports: module.imports.as_slice().len(),
        exports: module.exports.as_slice().len(),
        pages: least_pages(module.memories.as_slice()),
    }
}

fn least_pages(memories: &[ResizableLimits]) -> u32
    ensures { result ≡ least_pages memories.now }
{
    match memories {
        [] => 0,
        [first, ..] => first.min,
    }
}

/// Returns the line that reports an accepted module.
pub fn valid_line(alloc: Global, sizes: &Sizes) -> Result<Vec<u8>, AllocError>
    ensures { IfOk result (λ v. v.items ≡ valid_line sizes.now) }
{
    let mut line = Vec::from_slice(alloc, b"valid: ")?;
    push_number(&mut line, sizes.functions as u64, b" functions, ")?;
    push_number(&mut line, sizes.imports as u64, b" imports, ")?;
    push_number(&mut line, sizes.exports as u64, b" exports, ")?;
    push_number(&mut line, sizes.pages as u64, b" pages\n")?;
    Ok(line)
}

/// The defined verdict on bytes is exactly the one that the standard's relations allow.
pub fn verdict_is_exact()
    ensures { IsExact }
{}
