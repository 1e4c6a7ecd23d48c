//! The file that was read last, which stays open, so that a file is opened once for all of its pieces.

ghost use Rattle.std.specs.Prelude.{◌≡◌, ◌≢◌, ◌+◌, ◌-◌, ◌^◌, ◌≤◌, min, length, vec_capacity, None, Some, IfOk, IfSome, IsSome};
ghost use Rattle.std.specs.Prelude.{OnOk};

use crate::Word;
use std::alloc::{AllocError, Global};
use std::io;
use std::io::{Read, Seek, SeekFrom};

/// An open file, and the offset of its next read.
#[derive(Drop)]
pub struct Handle<F> {
    file: F,
    offset: u64,
}

/// The file that was read last, if it is open, and the room for its name.
#[derive(Drop)]
pub struct LastFile<F> {
    open: Option<Handle<F>>,
    // The name of the open file.
    name: Vec<u8>,
}

impl<F> Handle<F> {
    /// A file that was opened now.
    pub fn new(file: F) -> Handle<F>
        ensures { result.offset ≡ 0 }
    {
        Handle { file, offset: 0 }
    }
}

impl<F: Read + Seek> Handle<F> {
    /// Reads from an offset.
    pub fn read_at(&mut self, at: u64, buf: &mut [u8]) -> io::Result<usize>
        ensures within { IfOk result (λ n. n ≤ length buf.new) }
        ensures offset { IfOk result (λ n. self.new.offset ≡ min (at + n) (2 ^ 64 - 1)) }
    {
        self.seek_to(at)?;
        let n = self.file.read(buf)?;
        self.offset = self.offset.saturating_add(n as u64);
        Ok(n)
    }

    /// Moves to an offset.
    fn seek_to(&mut self, at: u64) -> io::Result<()>
        ensures offset { OnOk result (self.new.offset ≡ at) }
        // If the file's position is known and was right, it is at the offset now.
        ensures position { OnOk result
            (F.stream_position self.old.file ≡ Some self.old.offset → F.stream_position self.new.file ≡ Some at) }
    {
        if self.offset != at {
            self.file.seek(SeekFrom::Start(at))?;
            self.offset = at;
        }
        Ok(())
    }
}

impl<F: Drop> LastFile<F> {
    ghost use Rattle.edge_io.specs.LastFile.{kept_of};

    /// No open file, and room for a name of this many bytes.
    pub fn new(alloc: Global, longest: usize) -> Result<LastFile<F>, AllocError>
        ensures none { IfOk result (λ last. kept_of last ≡ None) }
        ensures room { IfOk result (λ last. longest ≤ vec_capacity last.name) }
    {
        let name = Vec::with_capacity(alloc, longest)?;
        Ok(LastFile { open: None, name })
    }

    /// Takes the open file if it has this name. A file with another name is closed.
    pub fn take(&mut self, name: &Word) -> Option<Handle<F>>
        ensures named { IfSome result (λ handle. kept_of self.old ≡ Some (name.now, handle)) }
        ensures none { kept_of self.new ≡ None }
        ensures room { vec_capacity self.new.name ≡ vec_capacity self.old.name }
    {
        let open = self.open.take();
        if self.name.as_slice() == name.as_str().as_bytes() {
            open
        } else {
            None
        }
    }

    /// Keeps an open file under its name. Takes no memory: if the room is too small for the name, the file is closed.
    pub fn keep(&mut self, name: &Word, handle: Handle<F>)
        ensures named { IfSome (kept_of self.new) (λ kept. kept ≡ (name.now, handle)) }
        ensures kept { length name.now ≤ vec_capacity self.old.name → IsSome (kept_of self.new) }
        ensures room { vec_capacity self.old.name ≤ vec_capacity self.new.name }
    {
        self.close();
        let name = name.as_str().as_bytes();
        if name.len() > self.name.capacity() {
            return;
        }
        self.name.clear();
        if self.name.extend_from_slice(name).is_ok() {
            self.open = Some(handle);
        }
    }

    /// Closes the open file.
    pub fn close(&mut self)
        ensures none { kept_of self.new ≡ None }
        ensures room { vec_capacity self.new.name ≡ vec_capacity self.old.name }
    {
        self.open = None;
    }
}
