//! A file that is poured.

ghost use Rattle.std.specs.Prelude.{◌≡◌, ◌+◌, ◌<◌, ◌≤◌, ◌^◌, ◌%◌, nat_lt, length, IfOk, IfSome, IsSomeAnd, IsOk, OnOk, OnErr};
ghost use Rattle.std.specs.FinMap.{get};
ghost use Rattle.edge_io.specs.Contents.{IsPiece, IsThere};
ghost use Rattle.edge_io.specs.Counts.{ChangesOnlyCount, Rose};
ghost use Rattle.xdr_core.specs.Sources.{GoesOn, Halts};
ghost use Rattle.xdr_core.specs.Poured.{Pours};
ghost use Rattle.file_pour.specs.Poured.{IsShort, seen_of};

use edge_io::{Failed, Files, Word};
use xdr_core::{Pour, Stopped};

/// The most bytes that a file may have.
const LIMIT: u64 = 1 << 30;

/// How many bytes are taken at once from the rest of a file, which nobody reads.
const CHUNK: usize = 1 << 16;

/// Pours a file from its start to its end. It stops at a failed call, and at a byte at offset 2^30.
#[derive(Drop)]
pub struct FilePour<'a, F> {
    files: &'a mut F,
    // Only its last three bits matter. So it always gives the number of a file option.
    option: u8,
    name: &'a Word,
    // The offset of the byte that is poured next.
    at: u64,
    // How many calls for the file had failed before the first one.
    start: u64,
    // How often it stopped at a byte at offset 2^30.
    longs: u64,
}

impl<'a, F: Files> FilePour<'a, F> {
    /// A pour at the start of a file.
    pub fn new(files: &'a mut F, option: u8, name: &'a Word) -> FilePour<'a, F>
        requires { option < 8 }
        ensures same_reference { result.files.ghost_name ≡ files.entry.ghost_name }
        ensures files { result.files.now ≡ files.entry.now }
        ensures option { result.option % 8 ≡ option }
        ensures name { result.name.now ≡ name.now }
        ensures at { result.at ≡ 0 }
        ensures start { result.start ≡ F.faults files.entry.now option }
        ensures longs { result.longs ≡ 0 }
    {
        let start = files.faults(option);
        FilePour {
            files,
            option,
            name,
            at: 0,
            start,
            longs: 0,
        }
    }

    /// Whether it stopped at a byte at offset 2^30.
    pub fn is_long(&self) -> bool
        ensures { result ≡ nat_lt 0 self.now.longs }
    {
        self.longs > 0
    }

    /// Pours the next bytes.
    fn take(&mut self, buf: &mut [u8]) -> Result<usize, Stopped>
        ensures same_reference { self.new.files.ghost_name ≡ self.old.files.ghost_name }
        ensures len { length buf.new ≡ length buf.old }
        ensures within { IfOk result (λ n. n ≤ length buf.new) }
        ensures on { IfOk result (λ n. self.new.at ≡ self.old.at + n) }
        ensures below { IfOk result (λ n. 0 < n → self.old.at < 2 ^ 30) }
        ensures poured { IfOk result (Pours (seen_of F.contents F.faults F.steady self.old)
            (seen_of F.contents F.faults F.steady self.new) buf.new) }
        ensures end { IfOk result (λ n. n ≡ 0 → 0 < length buf.old → IsShort (F.contents self.new.files.now) self.new.name.now) }
        ensures ok { OnOk result (GoesOn (seen_of F.contents F.faults F.steady self.old).standing
            (seen_of F.contents F.faults F.steady self.new).standing) }
        ensures err { OnErr result (Halts (seen_of F.contents F.faults F.steady self.old).standing
            (seen_of F.contents F.faults F.steady self.new).standing) }
    {
        if self.at < LIMIT {
            let room = buf.len().min((LIMIT - self.at) as usize);
            let n = piece(
                self.files,
                self.option,
                self.name,
                self.at,
                &mut buf[..room],
            )?;
            self.at += n as u64;
            return Ok(n);
        }
        let end = self.at.min(LIMIT);
        let mut byte = [0; 1];
        if piece(self.files, self.option, self.name, end, &mut byte)? > 0 {
            self.longs = self.longs.saturating_add(1);
            return Err(Stopped);
        }
        Ok(0)
    }

    /// Takes the file to its end.
    pub fn drain(&mut self) -> Result<(), Stopped>
        ensures same_reference { self.new.files.ghost_name ≡ self.old.files.ghost_name }
        ensures end { OnOk result (IsShort (F.contents self.new.files.now) self.new.name.now) }
        ensures ok { OnOk result (GoesOn (seen_of F.contents F.faults F.steady self.old).standing
            (seen_of F.contents F.faults F.steady self.new).standing) }
        ensures err { OnErr result (Halts (seen_of F.contents F.faults F.steady self.old).standing
            (seen_of F.contents F.faults F.steady self.new).standing) }
    {
        let mut buf = [0; CHUNK];
        while self.take(&mut buf)? > 0 {}
        Ok(())
    }
}

/// Copies the bytes of a file from an offset into the start of the buffer.
fn piece<F: Files>(
    files: &mut F,
    option: u8,
    name: &Word,
    at: u64,
    buf: &mut [u8],
) -> Result<usize, Stopped>
    ensures len { length buf.new ≡ length buf.old }
    ensures within { IfOk result (λ n. n ≤ length buf.new) }
    ensures read { IfOk result (λ n. IfSome (F.contents files.old) (λ m. IsSomeAnd (get m name.now) (λ bytes.
        IsPiece bytes at buf.new n))) }
    ensures same { F.contents files.new ≡ F.contents files.old }
    ensures counts { ChangesOnlyCount (option % 8) (F.faults files.old) (F.faults files.new) }
    ensures cause { OnErr result (Rose (F.faults files.old (option % 8)) (F.faults files.new (option % 8))) }
    ensures steady { F.steady files.old → IsThere (F.contents files.old) name.now →
        IsOk result × F.steady files.new × (F.faults files.new (option % 8) ≡ F.faults files.old (option % 8)) }
{
    match files.piece(option % 8, name, at, buf) {
        Ok(n) => Ok(n),
        Err(Failed) => Err(Stopped),
    }
}

impl<'a, F: Files> Pour for FilePour<'a, F> {
    ghost use Rattle.file_pour.specs.Poured.{Unchanged};

    ghost Kept = { Unchanged };

    ghost seen = { seen_of F.contents F.faults F.steady };

    fn stops(&self) -> u64 {
        self.files
            .faults(self.option % 8)
            .saturating_add(self.longs)
    }

    fn pour(&mut self, buf: &mut [u8]) -> Result<usize, Stopped> {
        self.take(buf)
    }
}
