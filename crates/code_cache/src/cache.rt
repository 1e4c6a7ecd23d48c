//! The codes that threads share.

ghost use Rattle.std.specs.Prelude.{◌≡◌, ◌<◌, IfOk, IfSome, IfNone, Some, slice_get, vec_len};
ghost use Rattle.code_cache.specs.Cached.{AreRising, HasNone, IsAt, IsFound, IsMeant};

use crate::loaded::Loaded;
use once_cell::race::OnceBox;
use std::alloc::{AllocError, Global};
use value_types::Hash;

/// A borrowed code, with its hash.
#[derive(Clone, Copy)]
pub struct Code<'a> {
    pub hash: Hash,
    pub code: &'a [u8],
}

/// What a cache has for a slot.
#[derive(Drop)]
pub enum Got<'a> {
    /// The slot's code, as some thread loaded it.
    Shared(&'a Loaded),
    /// The slot's cell has other bytes: `mine` is the slot's code, loaded for this call.
    Made { mine: Loaded, other: &'a Loaded },
}

/// Codes sorted by their hashes. Each has a slot: its index. A code is loaded where it is first needed, and then kept.
///
/// Threads share a cache. Two that need a code at the same time may both load it, and one of the modules is dropped. No thread
/// waits for another one.
#[derive(Drop)]
pub struct Cache<'a> {
    pub codes: Vec<Code<'a>>,
    cells: Vec<OnceBox<Loaded>>,
    pub ghost rising: { AreRising codes.items },
    pub ghost even: { vec_len cells ≡ vec_len codes },
}

/// Loads a code onto the heap.
fn boxed(alloc: Global, code: &[u8]) -> Result<Box<Loaded>, AllocError> {
    let loaded = Loaded::of(alloc, code)?;
    let held = Box::new(alloc, loaded)?;
    Ok(held)
}

/// Makes empty cells.
fn cells_for(alloc: Global, count: usize) -> Result<Vec<OnceBox<Loaded>>, AllocError>
    ensures { IfOk result (λ cells. vec_len cells ≡ count) }
{
    let mut cells = Vec::with_capacity(alloc, count)?;
    for _slot in 0..count {
        cells.push(OnceBox::new(alloc))?;
    }
    Ok(cells)
}

/// Returns a code as a cell has it. An empty cell is set.
fn find_in<'a>(alloc: Global, cell: &'a OnceBox<Loaded>, code: &[u8]) -> Result<Got<'a>, AllocError>
    ensures code { IfOk result (IsFound code.now) }
    ensures module { IfOk result (IsMeant code.now) }
{
    let loaded = cell.get_or_try_init(|| boxed(alloc, code))?;
    if loaded.code.as_slice() == code {
        return Ok(Got::Shared(loaded));
    }
    Ok(Got::Made {
        mine: Loaded::of(alloc, code)?,
        other: loaded,
    })
}

impl<'a> Cache<'a> {
    /// Makes a cache of codes that are sorted by their hashes. It loads none of them yet.
    pub fn of(alloc: Global, codes: Vec<Code<'a>>) -> Result<Cache<'a>, AllocError>
        requires { AreRising codes.items }
        ensures { IfOk result (λ cache. cache.codes ≡ codes.entry) }
    {
        let cells = cells_for(alloc, codes.len())?;
        Ok(Cache { codes, cells })
    }

    /// Returns the slot of a hash. It takes no memory, and O(log n) comparisons of hashes.
    pub fn slot_of(&self, hash: &Hash) -> Option<usize>
        ensures some { IfSome result (IsAt self.now.codes.items hash.now) }
        ensures none { IfNone result (HasNone self.now.codes.items hash.now) }
    {
        let hash_of = |code: &Code<'_>| -> [u8; 32]
            ensures { result ≡ code.entry.now.hash.0 }
        { code.hash.0 };
        let found = self.codes.as_slice().binary_search_by_key(&hash.0, hash_of);
        match found {
            Ok(slot) => Some(slot),
            Err(_) => None,
        }
    }

    /// Finds the code of a slot with its module. If no thread has loaded the code yet, this one does.
    pub fn find(&self, alloc: Global, slot: usize) -> Result<Got<'_>, AllocError>
        requires { slot < vec_len self.now.codes }
        ensures code { (code : Code) → slice_get self.now.codes.items slot ≡ Some code → IfOk result (IsFound code.code.now) }
        ensures module { (code : Code) → slice_get self.now.codes.items slot ≡ Some code → IfOk result (IsMeant code.code.now) }
    {
        find_in(alloc, &self.cells[slot], self.codes[slot].code)
    }
}
