//! Sources of XDR items.

ghost use Rattle.std.specs.Prelude.{◌≡◌, ◌≤◌, ◌+◌, ◌++◌, OnOk, length};
ghost use Rattle.std.specs.Int.{w32, w64, cast_signed};
ghost use Rattle.xdr_spec.specs.Format.{word_at, number64_at, boolean_at, fixed_opaque_at, opaque_at, as_read};
ghost use Rattle.xdr_core.specs.Reads.{Reads, Fills, Appends, finish_at};
ghost use Rattle.xdr_core.specs.Sources.{Source, IsTold, GoesOn, in_memory};

use crate::cursor::Cursor;
use crate::error::{NoMemory, ReadXdr};
use std::alloc::Global;

/// A source of XDR items, read one after another.
pub trait Words {
    /// An offset to go back to, if the source can go back.
    type Mark: Drop;

    /// The type of what no call changes.
    ghost Kept: { Type 0 };

    /// The bytes that are left, if they are told, and what calls do to all else.
    ghost seen: { Self → Source Kept };

    /// The mark is one of this source.
    ghost IsMark: { Self.Mark → Self → Type 0 };

    /// The source stands where it stood, if it can go back.
    ghost Stays: { Self → Self → Type 0 };

    /// Returns the byte offset in the input.
    fn place(&self) -> u64
        ensures { IsTold (seen self.now) → result ≡ (seen self.now).input.place };

    /// Marks the offset where the source stands.
    fn mark(&self) -> Self::Mark
        ensures { IsMark result self.now };

    /// Goes back to a mark, if the source can go back.
    fn back(&mut self, mark: Self::Mark)
        ensures stays { (start : Self) → IsMark mark start → Stays start self.new }
        ensures on { GoesOn (seen self.old).standing (seen self.new).standing };

    /// Reads an unsigned integer (RFC 4506, section 4.2).
    fn u32(&mut self) -> Result<u32, ReadXdr>
        ensures { Reads word_at (seen self.old) (seen self.new) result };

    /// Reads an integer (RFC 4506, section 4.1).
    fn i32(&mut self) -> Result<i32, ReadXdr>
        ensures { Reads (λ i. as_read (cast_signed w32) (word_at i)) (seen self.old) (seen self.new) result };

    /// Reads an unsigned hyper integer (RFC 4506, section 4.5).
    fn u64(&mut self) -> Result<u64, ReadXdr>
        ensures { Reads number64_at (seen self.old) (seen self.new) result };

    /// Reads a hyper integer (RFC 4506, section 4.5).
    fn i64(&mut self) -> Result<i64, ReadXdr>
        ensures { Reads (λ i. as_read (cast_signed w64) (number64_at i)) (seen self.old) (seen self.new) result };

    /// Reads a boolean (RFC 4506, section 4.4). It refuses a word other than 0 and 1.
    fn boolean(&mut self) -> Result<bool, ReadXdr>
        ensures { Reads boolean_at (seen self.old) (seen self.new) result };

    /// Fills a slice of at most 64 bytes (RFC 4506, section 4.9). It refuses padding other than 0.
    fn fill(&mut self, to: &mut [u8]) -> Result<(), ReadXdr>
        requires { length to.old ≤ 64 }
        ensures len { length to.new ≡ length to.old }
        ensures read { Fills (fixed_opaque_at (length to.old)) (seen self.old) (seen self.new) to.new result };

    /// Appends `n` bytes (RFC 4506, section 4.9). It refuses padding other than 0.
    fn fixed_into(&mut self, n: usize, to: &mut Vec<u8>) -> Result<(), ReadXdr>
        ensures read { Appends (fixed_opaque_at n) (seen self.old) (seen self.new) to.old.items to.new.items result }
        // Also if the bytes are not told.
        ensures len { OnOk result (length to.new.items ≡ length to.old.items + n) };

    /// Reads a length of at most `max`, and appends as many bytes (RFC 4506, sections 4.10 and 4.11). It refuses a greater length
    /// at its word.
    fn opaque_into(&mut self, max: u32, to: &mut Vec<u8>) -> Result<(), ReadXdr>
        ensures read { Appends (opaque_at max) (seen self.old) (seen self.new) to.old.items to.new.items result }
        // Also if the bytes are not told.
        ensures len { OnOk result (length to.new.items ≤ length to.old.items + max) };

    /// Checks that no bytes are left. It refuses the first byte that is left.
    fn finish(&mut self) -> Result<(), ReadXdr>
        ensures { Reads finish_at (seen self.old) (seen self.new) result };
}

/// Appends bytes to others. If they are the last to come, the vector takes no more room than they need.
pub fn append_piece(to: &mut Vec<u8>, bytes: &[u8], last: bool) -> Result<(), NoMemory>
    ensures { OnOk result (to.new.items ≡ to.old.items ++ bytes.now) }
{
    if last {
        to.reserve_exact(bytes.len())?;
    }
    to.extend_from_slice(bytes)?;
    Ok(())
}

impl<'a> Words for Cursor<'a> {
    type Mark = Cursor<'a>;

    ghost Kept = { Unit {0} };

    ghost seen = { in_memory };

    ghost IsMark = { λ mark input. mark ≡ input };

    ghost Stays = { λ old new. new ≡ old };

    fn place(&self) -> u64 {
        Cursor::place(self)
    }

    fn mark(&self) -> Cursor<'a> {
        self.at_same_place()
    }

    fn back(&mut self, mark: Cursor<'a>) {
        *self = mark;
    }

    fn u32(&mut self) -> Result<u32, ReadXdr> {
        Ok(Cursor::u32(self)?)
    }

    fn i32(&mut self) -> Result<i32, ReadXdr> {
        Ok(Cursor::i32(self)?)
    }

    fn u64(&mut self) -> Result<u64, ReadXdr> {
        Ok(Cursor::u64(self)?)
    }

    fn i64(&mut self) -> Result<i64, ReadXdr> {
        Ok(Cursor::i64(self)?)
    }

    fn boolean(&mut self) -> Result<bool, ReadXdr> {
        Ok(Cursor::boolean(self)?)
    }

    fn fill(&mut self, to: &mut [u8]) -> Result<(), ReadXdr> {
        to.copy_from_slice(self.fixed(to.len())?);
        Ok(())
    }

    fn fixed_into(&mut self, n: usize, to: &mut Vec<u8>) -> Result<(), ReadXdr> {
        let bytes = self.fixed(n)?;
        append_piece(to, bytes, true)?;
        Ok(())
    }

    fn opaque_into(&mut self, max: u32, to: &mut Vec<u8>) -> Result<(), ReadXdr> {
        let bytes = self.opaque(max)?;
        append_piece(to, bytes, true)?;
        Ok(())
    }

    fn finish(&mut self) -> Result<(), ReadXdr> {
        Cursor::finish(self)?;
        Ok(())
    }
}
