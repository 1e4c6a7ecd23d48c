//! The operating system's files and standard output. No contract says what they hold.

ghost use Rattle.std.specs.Prelude.{◌≡◌, ◌<◌, ℕ, ◌≤◌, length, slice_index, vec_capacity, None, Ok, IfOk, IsOk, IsSome, OnOk};
ghost use Rattle.std.specs.Prelude.{OnErr};
ghost use Rattle.std.specs.Io.KnownBytes.{Appends};
ghost use Rattle.edge_io.specs.Contents.{IsThere, Reads, Stores};
ghost use Rattle.edge_io.specs.Counts.{ChangesOnlyCount, OnFailed, RaisesOnly, Rose, UnlessFailed, raised};
ghost use Rattle.edge_io.specs.Text.{Says};

use crate::disk::replace;
use crate::last_file::{Handle, LastFile};
use crate::real_disk::{BESIDE, RealDisk, follow, write_whole};
use crate::turns::raise;
use crate::{EdgeErr, Failed, Files, Say, Word};
use std::alloc::{AllocError, Global};
use std::fs::Permissions;
use std::io::Write;
use std::os::unix::fs::MetadataExt;
use std::{fs, io, rt};

/// The operating system's files. The reason of a failed call goes to the standard error.
#[derive(Drop)]
pub struct RealFiles<R: rt::Files + Drop> {
    rt: R,
    alloc: Global,
    counts: [u64; 8],
    last: LastFile<R::File>,
    // The path of the file that is stored, and the name of the file beside it.
    path: String,
    beside: String,
}

/// How a file is stored.
#[derive(Drop)]
enum Way {
    /// What is at the name is written over: it is no plain file, or it has other names, too.
    InPlace,
    /// The plain file at the name is replaced by one with this mode. None: no file is there.
    Replace(Option<Permissions>),
}

/// Standard output.
#[derive(Drop)]
pub struct StdSay<R: Print + Drop> {
    rt: R,
    count: u64,
}

impl<R: rt::Files + Eprint + Drop> RealFiles<R> {
    ghost use Rattle.edge_io.specs.LastFile.{kept_of, IsBehind};

    /// Files without failed calls and without an open file. `longest` is the length of the longest file name in bytes. This call
    /// takes the room for it. Later only a store takes memory, to a symbolic link or a longer name: a lack of memory is never a
    /// failed call. A file with a longer name is not kept open, so each of its pieces opens it again.
    pub fn new(rt: R, alloc: Global, longest: usize) -> Result<RealFiles<R>, AllocError>
        ensures counts { IfOk result (λ files. (file : ℕ) → ⟦<RealFiles<R> as Files>⟧.faults files file ≡ 0) }
        ensures room { IfOk result (λ files. longest ≤ vec_capacity files.last.name) }
    {
        Ok(RealFiles {
            rt,
            alloc,
            counts: [0; 8],
            last: LastFile::new(alloc, longest)?,
            path: String::with_capacity(alloc, longest)?,
            beside: String::with_capacity(alloc, longest.saturating_add(BESIDE))?,
        })
    }

    /// Reads from an offset.
    fn read_at(&mut self, name: &Word, at: u64, buf: &mut [u8]) -> io::Result<usize>
        ensures within { IfOk result (λ n. n ≤ length buf.new) }
        ensures behind { IfOk result (λ n. IsBehind (kept_of self.new.last) name.now at n) }
        ensures stays { OnOk result (length name.now ≤ vec_capacity self.old.last.name → IsSome (kept_of self.new.last)) }
        ensures counts { self.new.counts ≡ self.old.counts }
    {
        let mut handle = match self.last.take(name) {
            Some(handle) => handle,
            None => Handle::new(fs::open(&self.rt, name.as_str())?),
        };
        let n = handle.read_at(at, buf)?;
        self.last.keep(name, handle);
        Ok(n)
    }

    /// How the file of a name is stored, and the path of the file that is replaced. Changes no file.
    fn find_way(&mut self, name: &Word) -> io::Result<Way>
        ensures last { self.new.last ≡ self.old.last }
        ensures counts { self.new.counts ≡ self.old.counts }
    {
        let name = name.as_str();
        let mode = match fs::metadata(&self.rt, name) {
            Ok(about) if !about.is_file() || about.nlink() != 1 => return Ok(Way::InPlace),
            Ok(about) => Some(about.permissions()),
            Err(error) if error.kind() == io::ErrorKind::NotFound => None,
            Err(error) => return Err(error),
        };
        self.path.clear();
        self.path.push_str(name)?;
        follow(&self.rt, self.alloc, &mut self.path)?;
        self.beside.clear();
        self.beside.reserve(self.path.len().saturating_add(BESIDE))?;
        if mode.is_some() {
            // A file that may not be written is not replaced.
            fs::OpenOptions::new()
                .write(true)
                .open(&self.rt, self.path.as_str())?;
        }
        Ok(Way::Replace(mode))
    }

    /// Stores the bytes.
    fn write_file(&mut self, name: &Word, way: Way, bytes: &[u8]) -> io::Result<()>
        ensures last { self.new.last ≡ self.old.last }
        ensures counts { self.new.counts ≡ self.old.counts }
    {
        match way {
            Way::InPlace => {
                let mut file = fs::create(&self.rt, name.as_str())?;
                write_whole(&mut file, bytes)
            }
            Way::Replace(mode) => {
                let mut disk = RealDisk::new(&self.rt, self.path.as_str(), mode, &mut self.beside);
                replace(&mut disk, bytes)
            }
        }
    }
}

/// The outcome of a call for a file option. Counts a failure, and says its reason on the standard error.
fn counted<T>(
    rt: &impl Eprint,
    counts: &mut [u64; 8],
    file: u8,
    name: &Word,
    outcome: io::Result<T>,
) -> Result<T, Failed>
    requires { file < 8 }
    ensures ok { IfOk result (λ x. outcome ≡ Ok x) }
    ensures raised { OnErr result (RaisesOnly file (λ k. slice_index counts.old k) (λ k. slice_index counts.new k)) }
    ensures only { ChangesOnlyCount file (λ k. slice_index counts.old k) (λ k. slice_index counts.new k) }
    ensures kept { OnOk result (counts.new ≡ counts.old) }
{
    match outcome {
        Ok(value) => Ok(value),
        Err(error) => {
            let _ = eprintln!(rt; "{}: {error}", name.as_str());
            raise(counts, file);
            Err(Failed)
        }
    }
}

/// Prints all of the bytes. Counts a failure.
fn say_to<W: Write>(out: &mut W, count: &mut u64, bytes: &[u8]) -> Result<(), Failed>
    ensures said { OnOk result (Appends (W.contents out.old) (W.contents out.new) bytes.now) }
    ensures raised { OnErr result (count.new ≡ raised count.old) }
    ensures kept { OnOk result (count.new ≡ count.old) }
    ensures counts { count.old ≤ count.new }
{
    match write_whole(out, bytes) {
        Ok(()) => Ok(()),
        Err(_) => {
            *count = count.saturating_add(1);
            Err(Failed)
        }
    }
}

impl<R: Print + Drop> StdSay<R> {
    /// An output without failed calls.
    pub fn new(rt: R) -> StdSay<R>
        ensures { ⟦<StdSay<R> as Say>⟧.faults result ≡ 0 }
    {
        StdSay { rt, count: 0 }
    }
}

impl<R: rt::Files + Eprint + Drop> Files for RealFiles<R> {
    ghost use Rattle.edge_io.specs.LastFile.{kept_of, IsBehind};

    ghost contents = { λ _. None };

    ghost faults = { λ f file. slice_index f.counts file };

    ghost steady = { λ _. ⊥ };

    ghost steady_tells = { λ f steady. absurd steady };

    ghost steady_below = { λ f file steady. absurd steady };

    fn faults(&self, file: u8) -> u64 {
        self.counts[file as usize]
    }

    fn piece(&mut self, file: u8, name: &Word, at: u64, buf: &mut [u8]) -> Result<usize, Failed>
        requires { file < 8 }

        ensures within { IfOk result (λ n. n ≤ length buf.new) }
        ensures read { Reads None name.now at buf.new result }
        ensures same { ⟦<RealFiles<R> as Files>⟧.contents self.new ≡ ⟦<RealFiles<R> as Files>⟧.contents self.old }

        ensures counts { ChangesOnlyCount file (⟦<RealFiles<R> as Files>⟧.faults self.old)
            (⟦<RealFiles<R> as Files>⟧.faults self.new) }
        ensures cause { OnErr result
            (Rose (⟦<RealFiles<R> as Files>⟧.faults self.old file) (⟦<RealFiles<R> as Files>⟧.faults self.new file)) }
        ensures steady { ⊥ → IsThere None name.now → IsOk result × ⊥
            × (⟦<RealFiles<R> as Files>⟧.faults self.new file ≡ ⟦<RealFiles<R> as Files>⟧.faults self.old file) }

        // The file stays open if there is room for its name. Then it is that of the name, and its next read begins behind the
        // piece.
        ensures behind { IfOk result (λ n. IsBehind (kept_of self.new.last) name.now at n) }
        ensures stays { OnOk result (length name.now ≤ vec_capacity self.old.last.name → IsSome (kept_of self.new.last)) }

        // The count rises by one exactly if the call fails.
        ensures raised { OnErr result
            (RaisesOnly file (⟦<RealFiles<R> as Files>⟧.faults self.old) (⟦<RealFiles<R> as Files>⟧.faults self.new)) }
        ensures kept { OnOk result ((k : ℕ)
            → ⟦<RealFiles<R> as Files>⟧.faults self.new k ≡ ⟦<RealFiles<R> as Files>⟧.faults self.old k) }
    {
        let outcome = self.read_at(name, at, buf);
        counted(&self.rt, &mut self.counts, file, name, outcome)
    }

    fn store(&mut self, file: u8, name: &Word, bytes: &[u8]) -> Result<(), EdgeErr>
        requires { file < 8 }

        ensures stored { Stores result name.now bytes.now None None }

        ensures counts { ChangesOnlyCount file (⟦<RealFiles<R> as Files>⟧.faults self.old)
            (⟦<RealFiles<R> as Files>⟧.faults self.new) }
        ensures cause { OnFailed result
            (Rose (⟦<RealFiles<R> as Files>⟧.faults self.old file) (⟦<RealFiles<R> as Files>⟧.faults self.new file)) }
        ensures steady { ⊥ → OnFailed result ⊥ × ⊥
            × (⟦<RealFiles<R> as Files>⟧.faults self.new file ≡ ⟦<RealFiles<R> as Files>⟧.faults self.old file) }

        // No file stays open.
        ensures none { kept_of self.new.last ≡ None }

        // The count rises by one exactly if the call returns Failed.
        ensures raised { OnFailed result
            (RaisesOnly file (⟦<RealFiles<R> as Files>⟧.faults self.old) (⟦<RealFiles<R> as Files>⟧.faults self.new)) }
        ensures kept { UnlessFailed result ((k : ℕ)
            → ⟦<RealFiles<R> as Files>⟧.faults self.new k ≡ ⟦<RealFiles<R> as Files>⟧.faults self.old k) }
    {
        self.last.close();
        let outcome = match self.find_way(name) {
            Ok(way) => self.write_file(name, way, bytes),
            Err(error) if error.kind() == io::ErrorKind::OutOfMemory => {
                return Err(EdgeErr::NoMemory);
            }
            Err(error) => Err(error),
        };
        counted(&self.rt, &mut self.counts, file, name, outcome)?;
        Ok(())
    }
}

impl<R: Print + Drop> Say for StdSay<R> {
    ghost text = { λ _. None };

    ghost faults = { λ s. s.count };

    ghost steady = { λ _. ⊥ };

    ghost steady_tells = { λ s steady. absurd steady };

    ghost steady_below = { λ s steady. absurd steady };

    fn faults(&self) -> u64 {
        self.count
    }

    fn say(&mut self, bytes: &[u8]) -> Result<(), EdgeErr>
        ensures said { Says result bytes.now None None }

        ensures counts { ⟦<StdSay<R> as Say>⟧.faults self.old ≤ ⟦<StdSay<R> as Say>⟧.faults self.new }
        ensures cause { OnFailed result (Rose (⟦<StdSay<R> as Say>⟧.faults self.old) (⟦<StdSay<R> as Say>⟧.faults self.new)) }
        ensures steady { ⊥ → OnFailed result ⊥ × ⊥
            × (⟦<StdSay<R> as Say>⟧.faults self.new ≡ ⟦<StdSay<R> as Say>⟧.faults self.old) }

        // The count rises by one exactly if the call fails.
        ensures raised { OnErr result (⟦<StdSay<R> as Say>⟧.faults self.new ≡ raised (⟦<StdSay<R> as Say>⟧.faults self.old)) }
        ensures kept { OnOk result (⟦<StdSay<R> as Say>⟧.faults self.new ≡ ⟦<StdSay<R> as Say>⟧.faults self.old) }
    {
        say_to(&mut io::writer(&self.rt), &mut self.count, bytes)?;
        Ok(())
    }
}
