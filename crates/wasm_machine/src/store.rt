//! The memory, globals and table of an instance.

ghost use Rattle.std.specs.Prelude.{◌≡◌, ◌≤◌, ◌<◌, ◌+◌, ◌*◌, ◌%◌, ◌++◌, length, replicate, slice_get, slice_set, IsSome, Some};
ghost use Rattle.std.specs.Prelude.{None, IfSome, IfNone, MatchOption, OnOk, OnErr, option_copied};
ghost use Rattle.wasm_spec.specs.Memory.{loaded, stored};
ghost use Rattle.wasm_spec.specs.Stores.{PAGE, pages, with_bytes};
ghost use Rattle.std.specs.Borrow.{sem};
ghost use Rattle.wasm_machine.specs.Lending.{LendsMemory};

use std::alloc::AllocError;
use std::marker::Model;
use wasm_spec::Value;

/// The size of a page, in bytes.
pub const PAGE_BYTES: usize = 65_536;

/// The memory, the globals and the table of an instance.
#[derive(Drop)]
pub struct Store {
    memory: Vec<u8>,
    most_pages: u32,
    globals: Vec<Value>,
    table: Vec<Option<u32>>,
}

impl Model for Store {
    ghost use Rattle.wasm_spec.specs.Stores.{Store};

    ghost Value = { Store };

    ghost use Rattle.std.specs.Prelude.{◌≡◌, ◌≤◌, ◌*◌, ◌%◌, length};
    ghost use Rattle.wasm_spec.specs.Stores.{PAGE};

    ghost view = { λ s. record {
      memory = record { bytes = s.memory.items; most_pages = s.most_pages };
      globals = s.globals.items;
      table = s.table.items;
    } };

    ghost invariant = { λ s. (s.most_pages ≤ 64) × (length s.memory.items ≤ 64 * 65536) × (length s.memory.items % 65536 ≡ 0) };
}

impl Store {
    /// Makes a store of these parts. Allocates no memory.
    pub fn new(
        memory: Vec<u8>,
        most_pages: u32,
        globals: Vec<Value>,
        table: Vec<Option<u32>>,
    ) -> Store
        requires few { most_pages ≤ 64 }
        requires small { length memory.items ≤ 64 * 65536 }
        requires whole { length memory.items % 65536 ≡ 0 }
        ensures { result ≡ record {
          memory = record { bytes = memory.items; most_pages = most_pages };
          globals = globals.items;
          table = table.items;
        } }
    {
        Store {
            memory,
            most_pages,
            globals,
            table,
        }
    }

    /// Returns the bytes of the memory.
    pub fn memory(&self) -> &[u8]
        ensures { result.now ≡ self.now.memory.bytes }
    {
        &self.memory
    }

    /// Returns the bytes of the memory, 64 pages at most, for writing.
    pub fn memory_mut(&mut self) -> &mut [u8]
        ensures* writes_back { sem 𝓛 (LendsMemory self.entry result) }
        ensures value { result.now ≡ self.old.memory.bytes }
        ensures small { length result.now ≤ 64 * 65536 }
    {
        &mut self.memory
    }

    /// Returns the size of the memory, in pages.
    pub fn pages(&self) -> u32
        ensures { result ≡ pages self.now.memory }
    {
        (self.memory.len() / PAGE_BYTES) as u32
    }

    /// Returns the largest size that the memory can grow to, in pages.
    pub fn most_pages(&self) -> u32
        ensures value { result ≡ self.now.memory.most_pages }
        ensures few { result ≤ 64 }
    {
        self.most_pages
    }

    /// Stores the integer, of which a narrow store takes the lowest bytes. Returns `None` and changes nothing if a byte
    /// would lie outside the memory.
    pub fn write(
        &mut self,
        kind: wasm_spec::StoreKind,
        address: u32,
        offset: u32,
        number: u64,
    ) -> Option<()>
        ensures { MatchOption result
            ((stored self.old.memory.bytes kind address offset number ≡ None) × (self.new ≡ self.old))
            (λ _. (stored self.old.memory.bytes kind address offset number ≡ Some self.new.memory.bytes)
            × (self.new ≡ with_bytes self.new.memory.bytes self.old)) }
    {
        wasm_num::store(kind, &mut self.memory, address, offset, number)
    }

    /// Returns the value of the global of the index, if there is one.
    pub fn global(&self, index: u32) -> Option<Value>
        ensures { result ≡ slice_get self.now.globals index }
    {
        self.globals.get(index as usize).copied()
    }

    /// Sets the value of a global.
    pub fn set_global(&mut self, index: u32, value: Value)
        requires { index < length self.old.globals }
        ensures { self.new ≡ record self.old { globals = slice_set self.old.globals index value } }
    {
        self.globals[index as usize] = value;
    }

    /// Returns the table element of the index, if there is one. An element that was never set holds `None`.
    pub fn element(&self, index: u32) -> Option<Option<u32>>
        ensures { result ≡ slice_get self.now.table index }
    {
        self.table.get(index as usize).copied()
    }

    /// Grows the memory by `more` pages of zeros.
    pub fn grow(&mut self, more: u32) -> Result<(), AllocError>
        requires { pages self.old.memory + more ≤ 64 }
        ensures { OnOk result (self.new ≡ with_bytes (self.old.memory.bytes ++ replicate (more * PAGE) 0) self.old) }
    {
        let length = self.memory.len() + more as usize * PAGE_BYTES;
        self.memory.resize(length, 0)
    }
}
