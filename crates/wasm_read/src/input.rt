//! The input of the reader, and the primitive parts of the format (core sections 5.1 and 5.2).

ghost use Rattle.std.specs.Prelude.{◌≡◌, ◌<◌, ◌≤◌, ◌==◌, length, IfOk, slice_get, option_copied};
ghost use Rattle.wasm_read.specs.Gives.{Gives, GivesAs, Ends, Skips, IsUnlessMemory};
ghost use Rattle.wasm_read.specs.Reading.{byte_at, behind_at, expect as expect_at, u32_at, integer_at, bytes_at, name_at};
ghost use Rattle.wasm_read.specs.Reading.{split_at};

use crate::error::ReadModErr;
use crate::numbers::{signed, unsigned};
use std::alloc::Global;
use std::marker::Model;
use wasm_spec::Blob;

/// The bytes that are still to be read. Contracts see it as their list.
#[derive(Drop)]
pub struct Input<'a> {
    rest: &'a [u8],
}

impl<'a> Model for Input<'a> {
    ghost use Rattle.std.specs.Prelude.{List, ℕ};

    ghost Value = { List ℕ };

    ghost view = { λ i. i.rest.now };
}

impl<'a> Input<'a> {
    /// Starts reading at the first of these bytes.
    pub fn new(bytes: &'a [u8]) -> Self
        ensures { result ≡ bytes.now }
    {
        Input { rest: bytes }
    }

    /// Returns the next byte without reading it.
    pub fn peek(&self) -> Option<u8>
        ensures { result ≡ slice_get self.now 0 }
    {
        self.rest.first().copied()
    }

    /// Reads the next byte (core section 5.2.1). Returns `NotAModule` at the end of the input.
    pub fn byte(&mut self) -> Result<u8, ReadModErr>
        ensures { Gives byte_at self.old self.new result }
    {
        let (first, rest) = self.rest.split_first().ok_or(ReadModErr::NotAModule)?;
        self.rest = rest;
        Ok(*first)
    }

    /// Reads this byte, and rejects any other.
    pub fn expect(&mut self, byte: u8) -> Result<(), ReadModErr>
        ensures { Skips (expect_at byte) self.old self.new result }
    {
        match self.rest.split_first() {
            Some((first, rest)) if *first == byte => {
                self.rest = rest;
                Ok(())
            }
            _ => Err(ReadModErr::NotAModule),
        }
    }

    /// Reads a `u32` of at most five bytes (core section 5.2.2).
    #[tactic(auto, unfolding(crate::specs::Reading::u32_at))]
    pub fn u32(&mut self) -> Result<u32, ReadModErr>
        ensures { Gives u32_at self.old self.new result }
    {
        let (value, rest) = unsigned(self.rest, 32).ok_or(ReadModErr::NotAModule)?;
        self.rest = rest;
        Ok(value as u32)
    }

    /// Reads an `i32` of at most five bytes (core section 5.2.2), as an unsigned number.
    #[tactic(auto, unfolding(crate::specs::Reading::integer_at))]
    pub fn i32(&mut self) -> Result<u32, ReadModErr>
        ensures { Gives (integer_at 32) self.old self.new result }
    {
        let (value, rest) = signed(self.rest, 32).ok_or(ReadModErr::NotAModule)?;
        self.rest = rest;
        Ok(value as u32)
    }

    /// Reads an `i64` of at most ten bytes (core section 5.2.2), as an unsigned number.
    #[tactic(auto, unfolding(crate::specs::Reading::integer_at))]
    pub fn i64(&mut self) -> Result<u64, ReadModErr>
        ensures { Gives (integer_at 64) self.old self.new result }
    {
        let (value, rest) = signed(self.rest, 64).ok_or(ReadModErr::NotAModule)?;
        self.rest = rest;
        Ok(value)
    }

    /// Reads a vector of bytes and lends them from the input.
    #[tactic(auto, unfolding(crate::specs::Reading::bytes_at))]
    pub fn bytes(&mut self) -> Result<&'a [u8], ReadModErr>
        ensures { GivesAs (λ s. s.now) bytes_at self.old self.new result }
    {
        let count = self.u32()? as usize;
        if count > self.rest.len() {
            return Err(ReadModErr::NotAModule);
        }
        let (bytes, rest) = self.rest.split_at(count);
        self.rest = rest;
        Ok(bytes)
    }

    /// Reads a name (core section 5.2.4), whose bytes must be UTF-8, and lends it from the input.
    #[tactic(auto, unfolding(crate::specs::Reading::name_at))]
    pub fn name(&mut self) -> Result<&'a [u8], ReadModErr>
        ensures { GivesAs (λ s. s.now) name_at self.old self.new result }
    {
        let bytes = self.bytes()?;
        match str::from_utf8(bytes) {
            Ok(_) => Ok(bytes),
            Err(_) => Err(ReadModErr::NotAModule),
        }
    }

    /// Reads a vector of bytes and copies them.
    pub fn owned_bytes(&mut self, alloc: Global) -> Result<Blob, ReadModErr>
        ensures { Gives bytes_at self.old self.new result }
    {
        let bytes = self.bytes()?;
        owned(alloc, bytes)
    }

    /// Reads a name and copies it.
    pub fn owned_name(&mut self, alloc: Global) -> Result<Blob, ReadModErr>
        ensures { Gives name_at self.old self.new result }
    {
        let name = self.name()?;
        owned(alloc, name)
    }

    /// Rejects any bytes that are still unread.
    pub fn finish(&self) -> Result<(), ReadModErr>
        ensures { Ends self.now result }
    {
        if self.rest.is_empty() {
            Ok(())
        } else {
            Err(ReadModErr::NotAModule)
        }
    }
}

/// Copies these bytes.
fn owned(alloc: Global, bytes: &[u8]) -> Result<Blob, ReadModErr>
    ensures { IsUnlessMemory bytes.now result }
{
    Ok(Blob::from_vec(Vec::from_slice(alloc, bytes)?))
}
