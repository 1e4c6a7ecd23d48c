//! Files in memory.

ghost use Rattle.std.specs.Prelude.{◌≡◌, ℕ, ◌+◌, ◌<◌, ◌≤◌, ◌^◌, ◌↔◌, [], Some, None, refl, length, max};
ghost use Rattle.std.specs.Prelude.{option_map, IfSome, IfOk, IsOk, IsErr, IsErrOf, OnOk, OnErr, ◌⊎◌};
ghost use Rattle.std.specs.FinMap as map;
ghost use Rattle.edge_io.specs.Contents.{IsPiece, IsThere, OnContent, Reads, Stores, put};
ghost use Rattle.edge_io.specs.Counts.{ChangesOnlyCount, OnFailed, RaisesOnly, Rose, UnlessFailed};
ghost use Rattle.edge_io.specs.MemFiles.{CopiesPiece};
ghost use Rattle.edge_io.specs.Stored.{files_of};

use crate::turns::{is_listed, raise};
use crate::{EdgeErr, Failed, Files, Word};
use std::alloc::{AllocError, Global};

/// One file in memory.
#[derive(Drop)]
pub struct Stored {
    name: Word,
    bytes: Vec<u8>,
}

/// Files in memory. The calls of `piece` and `store` are numbered together from 0. The calls with listed numbers fail, and every
/// `piece` of a missing file.
#[derive(Drop)]
pub struct MemFiles {
    alloc: Global,
    // The newest bytes of a name come first.
    stored: Vec<Stored>,
    counts: [u64; 8],
    calls: u64,
    failing: Vec<u64>,
    // How many bytes a piece may have beyond its first.
    beyond: usize,
}

impl MemFiles {
    ghost use Rattle.edge_io.specs.MemFiles.{calls_of, contents_of, failing_of, faults_of, most_of, IsSteady, IsSameBesides};

    /// No files; the calls of these numbers will fail. A piece is cut by its buffer alone.
    pub fn new(alloc: Global, failing: Vec<u64>) -> MemFiles
        ensures contents { contents_of result ≡ Some map.empty }
        ensures counts { (file : ℕ) → faults_of result file ≡ 0 }
        ensures calls { calls_of result ≡ 0 }
        ensures listed { failing_of result ≡ failing.items }
        ensures steady { failing.items ≡ [] → IsSteady result }
        ensures most { most_of result ≡ 2 ^ 64 }
    {
        MemFiles {
            alloc,
            stored: Vec::new(alloc),
            counts: [0; 8],
            calls: 0,
            failing,
            beyond: usize::MAX,
        }
    }

    /// Puts a file into memory. This is none of the numbered calls.
    pub fn put(&mut self, name: &Word, bytes: &[u8]) -> Result<(), AllocError>
        ensures ok { OnOk result (contents_of self.new ≡ put (contents_of self.old) name.now bytes.now) }
        ensures err { OnErr result (contents_of self.new ≡ contents_of self.old) }
        ensures same { IsSameBesides self.old self.new }
        ensures most { most_of self.new ≡ most_of self.old }
    {
        keep(self.alloc, &mut self.stored, name, bytes)
    }

    /// Lets each piece have at most so many bytes, but one in any case.
    pub fn cut(&mut self, most: usize)
        ensures most { most_of self.new ≡ max most 1 }
        ensures contents { contents_of self.new ≡ contents_of self.old }
        ensures same { IsSameBesides self.old self.new }
    {
        self.beyond = most.saturating_sub(1);
    }

    /// The bytes of a file.
    pub fn bytes(&self, name: &Word) -> Option<&[u8]>
        ensures { IfSome (contents_of self.now) (λ m. option_map (λ b. b.now) result ≡ map.get m name.now) }
    {
        find_bytes(&self.stored, name)
    }
}

impl Files for MemFiles {
    ghost use Rattle.edge_io.specs.MemFiles.{contents_of, faults_of, most_of, CountsCall, FailsNext, IsMissing, IsSteady};

    ghost contents = { contents_of };

    ghost faults = { faults_of };

    ghost steady = { IsSteady };

    ghost steady_tells = { λ m steady. refl };

    ghost steady_below = { λ m file steady. steady.1 file };

    fn faults(&self, file: u8) -> u64 {
        self.counts[file as usize]
    }

    fn piece(&mut self, file: u8, name: &Word, at: u64, buf: &mut [u8]) -> Result<usize, Failed>
        requires { file < 8 }

        ensures within { IfOk result (λ n. n ≤ length buf.new) }
        ensures read { Reads (contents_of self.old) name.now at buf.new result }
        ensures same { contents_of self.new ≡ contents_of self.old }

        ensures counts { ChangesOnlyCount file (faults_of self.old) (faults_of self.new) }
        ensures cause { OnErr result (Rose (faults_of self.old file) (faults_of self.new file)) }
        ensures steady { IsSteady self.old → IsThere (contents_of self.old) name.now →
            IsOk result × IsSteady self.new × (faults_of self.new file ≡ faults_of self.old file) }

        // The call fails exactly if it is listed or the file is missing. Then the count rises by one.
        ensures exact { IsErr result ↔ (FailsNext self.old ⊎ IsMissing self.old name.now) }
        ensures raised { OnErr result (RaisesOnly file (faults_of self.old) (faults_of self.new)) }
        ensures kept { OnOk result ((k : ℕ) → faults_of self.new k ≡ faults_of self.old k) }
        ensures counted { CountsCall self.old self.new }

        // A piece has all bytes from the offset on that fit into the buffer, but at most as many as `cut` lets it have.
        ensures copied { IfOk result (λ n. OnContent (contents_of self.old) name.now (λ bytes.
            CopiesPiece bytes at (most_of self.old) buf.old buf.new n)) }
    {
        if is_listed(&mut self.calls, &self.failing) {
            raise(&mut self.counts, file);
            return Err(Failed);
        }
        match find_bytes(&self.stored, name) {
            Some(bytes) => Ok(copy_from(bytes, at as usize, self.beyond, buf)),
            None => {
                raise(&mut self.counts, file);
                Err(Failed)
            }
        }
    }

    fn store(&mut self, file: u8, name: &Word, bytes: &[u8]) -> Result<(), EdgeErr>
        requires { file < 8 }

        ensures stored { Stores result name.now bytes.now (contents_of self.old) (contents_of self.new) }

        ensures counts { ChangesOnlyCount file (faults_of self.old) (faults_of self.new) }
        ensures cause { OnFailed result (Rose (faults_of self.old file) (faults_of self.new file)) }
        ensures steady { IsSteady self.old →
            OnFailed result ⊥ × IsSteady self.new × (faults_of self.new file ≡ faults_of self.old file) }

        // The call fails exactly if it is listed. Only then the count rises, by one.
        ensures exact { IsErrOf result EdgeErr.Failed ↔ FailsNext self.old }
        ensures raised { OnFailed result (RaisesOnly file (faults_of self.old) (faults_of self.new)) }
        ensures kept { UnlessFailed result ((k : ℕ) → faults_of self.new k ≡ faults_of self.old k) }
        ensures counted { CountsCall self.old self.new }
    {
        if is_listed(&mut self.calls, &self.failing) {
            // A failing store leaves the first half of the bytes.
            let half = &bytes[..bytes.len() / 2];
            let _ = keep(self.alloc, &mut self.stored, name, half);
            raise(&mut self.counts, file);
            return Err(EdgeErr::Failed);
        }
        match keep(self.alloc, &mut self.stored, name, bytes) {
            Ok(()) => Ok(()),
            Err(AllocError) => Err(EdgeErr::NoMemory),
        }
    }
}

fn find_bytes<'a>(stored: &'a [Stored], name: &Word) -> Option<&'a [u8]>
    ensures { option_map (λ b. b.now) result ≡ map.get (files_of stored.now) name.now }
{
    for file in stored {
        if file.name.as_str() == name.as_str() {
            return Some(file.bytes.as_slice());
        }
    }
    None
}

/// Copies the bytes from an offset, as many as fit but at most so many beyond the first, and returns their number.
fn copy_from(bytes: &[u8], at: usize, beyond: usize, buf: &mut [u8]) -> usize
    ensures within { result ≤ length buf.new }
    ensures piece { IsPiece bytes.now at buf.new result }
    ensures copied { CopiesPiece bytes.now at (beyond + 1) buf.old buf.new result }
{
    if at >= bytes.len() {
        return 0;
    }
    let rest = &bytes[at..];
    let n = rest.len().min(buf.len()).min(beyond.saturating_add(1));
    buf[..n].copy_from_slice(&rest[..n]);
    n
}

fn keep(
    alloc: Global,
    stored: &mut Vec<Stored>,
    name: &Word,
    bytes: &[u8],
) -> Result<(), AllocError>
    ensures ok { OnOk result (files_of stored.new.items ≡ map.insert (files_of stored.old.items) name.now bytes.now) }
    ensures err { OnErr result (stored.new.items ≡ stored.old.items) }
{
    let name = name.clone()?;
    let bytes = bytes.to_vec(alloc)?;
    stored.insert(0, Stored { name, bytes })?;
    Ok(())
}
