//! Reads a whole file of at most 2^30 bytes.

ghost use Rattle.std.specs.Prelude.{◌≡◌, ◌+◌, ◌<◌, ◌≤◌, ◌^◌, ◌++◌, ◌↔◌, List, ℕ, length, take, drop, IsTrue, IfOk, IfSome};
ghost use Rattle.std.specs.Prelude.{IsSomeAnd, OnErr, IsOk, IsErrOf};
ghost use Rattle.std.specs.FinMap as map;
ghost use Rattle.edge_io.specs.Contents.{IsThere, OnContent};
ghost use Rattle.edge_io.specs.Counts.{ChangesOnlyCount, Rose};
ghost use Rattle.edge_io.specs.Whole.{OnFault, ReadsWhole, IsPrefixOf};

use crate::{Blob, Failed, Files, ReadErr, Word};
use std::alloc::Global;

const LIMIT: usize = 1 << 30;

const CHUNK: usize = 1 << 16;

/// Reads a file of at most 2^30 bytes. It asks for the byte at offset 2^30 first; if the file has it, the file is too long.
/// Fault comes only if a piece could not be read.
pub fn read_whole<F: Files>(
    alloc: Global,
    files: &mut F,
    file: u8,
    name: &Word,
) -> Result<Blob, ReadErr>
    requires { file < 8 }

    ensures whole { IfSome (F.contents files.old) (λ m. ReadsWhole result (map.get m name.now)) }
    ensures small { IfOk result (λ blob. length blob ≤ 2 ^ 30) }
    ensures same { F.contents files.new ≡ F.contents files.old }

    ensures counts { ChangesOnlyCount file (F.faults files.old) (F.faults files.new) }
    ensures cause { OnFault result (Rose (F.faults files.old file) (F.faults files.new file)) }
    ensures steady { F.steady files.old → IsThere (F.contents files.old) name.now →
        OnFault result ⊥ × F.steady files.new × (F.faults files.new file ≡ F.faults files.old file) }
{
    match reaches(files, file, name, LIMIT as u64) {
        Err(Failed) => Err(ReadErr::Fault),
        Ok(true) => Err(ReadErr::TooLong),
        Ok(false) => {
            let bytes = read_to_limit(alloc, files, file, name)?;
            let blob = Blob::new(bytes);
            Ok(blob)
        }
    }
}

/// Whether the file has a byte at an offset.
fn reaches<F: Files>(files: &mut F, file: u8, name: &Word, at: u64) -> Result<bool, Failed>
    requires { file < 8 }

    ensures there { IfOk result (λ there. IfSome (F.contents files.old) (λ m.
        IsSomeAnd (map.get m name.now) (λ bytes. IsTrue there ↔ (at < length bytes)))) }
    ensures same { F.contents files.new ≡ F.contents files.old }

    ensures counts { ChangesOnlyCount file (F.faults files.old) (F.faults files.new) }
    ensures cause { OnErr result (Rose (F.faults files.old file) (F.faults files.new file)) }
    ensures steady { F.steady files.old → IsThere (F.contents files.old) name.now →
        IsOk result × F.steady files.new × (F.faults files.new file ≡ F.faults files.old file) }
{
    let mut byte = [0; 1];
    let n = files.piece(file, name, at, &mut byte)?;
    Ok(n > 0)
}

/// Reads the bytes up to the limit.
fn read_to_limit<F: Files>(
    alloc: Global,
    files: &mut F,
    file: u8,
    name: &Word,
) -> Result<Vec<u8>, ReadErr>
    requires { file < 8 }

    ensures whole { IfOk result
        (λ v. OnContent (F.contents files.old) name.now (λ whole. length whole ≤ 2 ^ 30 → v.items ≡ whole)) }
    ensures small { IfOk result (λ v. length v.items ≤ 2 ^ 30) }
    ensures not_long { IsErrOf result ReadErr.TooLong → ⊥ }
    ensures same { F.contents files.new ≡ F.contents files.old }

    ensures counts { ChangesOnlyCount file (F.faults files.old) (F.faults files.new) }
    ensures cause { OnFault result (Rose (F.faults files.old file) (F.faults files.new file)) }
    ensures steady { F.steady files.old → IsThere (F.contents files.old) name.now →
        OnFault result ⊥ × F.steady files.new × (F.faults files.new file ≡ F.faults files.old file) }
{
    let mut bytes = Vec::new(alloc);
    let mut buf = [0; CHUNK];
    while bytes.len() < LIMIT {
        let room = CHUNK.min(LIMIT - bytes.len());
        match append_piece(files, file, name, &mut bytes, &mut buf[..room]) {
            Err(error) => return Err(error),
            Ok(0) => break,
            Ok(_) => {}
        }
    }
    Ok(bytes)
}

/// Appends the next piece to the bytes, and returns its length.
fn append_piece<F: Files>(
    files: &mut F,
    file: u8,
    name: &Word,
    bytes: &mut Vec<u8>,
    buf: &mut [u8],
) -> Result<usize, ReadErr>
    requires file { file < 8 }
    requires room { 0 < length buf.old }

    ensures prefix { IfOk result (λ n. OnContent (F.contents files.old) name.now (λ whole.
        IsPrefixOf bytes.old.items whole → IsPrefixOf bytes.new.items whole)) }
    ensures end { IfOk result (λ n. n ≡ 0 →
        OnContent (F.contents files.old) name.now (λ whole. length whole ≤ length bytes.old.items)) }
    ensures longer { IfOk result (λ n. length bytes.new.items ≡ length bytes.old.items + n) }
    ensures within { IfOk result (λ n. n ≤ length buf.old) }
    ensures not_long { IsErrOf result ReadErr.TooLong → ⊥ }
    ensures same { F.contents files.new ≡ F.contents files.old }

    ensures counts { ChangesOnlyCount file (F.faults files.old) (F.faults files.new) }
    ensures cause { OnFault result (Rose (F.faults files.old file) (F.faults files.new file)) }
    ensures steady { F.steady files.old → IsThere (F.contents files.old) name.now →
        OnFault result ⊥ × F.steady files.new × (F.faults files.new file ≡ F.faults files.old file) }
{
    let Ok(n) = files.piece(file, name, bytes.len() as u64, buf) else {
        return Err(ReadErr::Fault);
    };
    let Ok(()) = bytes.extend_from_slice(&buf[..n]) else {
        return Err(ReadErr::NoMemory);
    };
    Ok(n)
}
