//! Commands over files on disk, in the folder that the program runs in.

use crate::outcome::{name_in, push_outcome, push_stored};
use case_text::CaseErr;
use edge_io::{MemSay, OpenGate, RealFiles, Word, longest};
use soroban_top::soroban;
use std::alloc::Global;
use std::fs;
use std::fs::OpenFile;
use std::rt::Runtime;
use std::thread::Threads;

/// The names of the files that cases left on disk.
#[derive(Drop)]
pub struct Disk {
    left: Vec<String>,
}

/// One byte more than a command reads of a file.
const TOO_LONG: u64 = (1 << 30) + 1;

/// Files from this size on are not compared.
const LONG: u64 = 1 << 20;

impl Disk {
    /// Makes the record of files on disk, of which no case has left one.
    pub fn new(alloc: Global) -> Disk {
        Disk {
            left: Vec::new(alloc),
        }
    }

    /// Removes the files that cases left.
    pub fn clear<R: Runtime>(&mut self, rt: &R, alloc: Global) {
        for name in &self.left {
            // A case may have removed it.
            let _ = fs::remove_file(rt, name.as_str());
        }
        self.left = Vec::new(alloc);
    }

    /// Writes a file, which `clear` removes.
    pub fn put<R: Runtime>(
        &mut self,
        rt: &R,
        alloc: Global,
        name: &str,
        bytes: &[u8],
    ) -> Result<(), CaseErr> {
        self.left.push(String::from_str(alloc, name)?)?;
        fs::write(rt, name, bytes)?;
        Ok(())
    }

    /// Puts a file of zeros there that no command reads.
    pub fn put_too_long<R: Runtime>(
        &mut self,
        rt: &R,
        alloc: Global,
        name: &str,
    ) -> Result<(), CaseErr> {
        self.left.push(String::from_str(alloc, name)?)?;
        let file = fs::create(rt, name)?;
        file.set_len(TOO_LONG)?;
        Ok(())
    }

    /// Removes a file, which has to be there.
    pub fn remove<R: Runtime>(&mut self, rt: &R, name: &str) -> Result<(), CaseErr> {
        fs::remove_file(rt, name)?;
        Ok(())
    }

    /// Runs a command over the files on disk, and appends its outcome.
    pub fn run<T: Threads + Sync, R: Runtime + AllocGlobal>(
        &mut self,
        threads: &T,
        rt: &R,
        alloc: Global,
        words: &[Word],
        out: &mut String,
    ) -> Result<(), CaseErr> {
        let before = contents(rt, alloc, words)?;
        run_over(threads, rt, alloc, words, out)?;
        for (it, before) in words.iter().zip(before.iter()) {
            self.push_file(rt, alloc, name_in(it), slice(before), out)?;
        }
        Ok(())
    }

    /// Appends a line if the file of this name is not what it was, and keeps its name.
    fn push_file<R: Runtime + AllocGlobal>(
        &mut self,
        rt: &R,
        alloc: Global,
        name: &str,
        before: Option<&[u8]>,
        out: &mut String,
    ) -> Result<(), CaseErr> {
        let after = content(rt, name);
        if push_stored(alloc, out, name, before, slice(&after))? {
            self.left.push(String::from_str(alloc, name)?)?;
        }
        Ok(())
    }
}

/// Runs a command over the files on disk, and appends its status and what it said.
fn run_over<T: Threads + Sync, R: Runtime + AllocGlobal>(
    threads: &T,
    rt: &R,
    alloc: Global,
    words: &[Word],
    out: &mut String,
) -> Result<(), CaseErr> {
    let mut files = RealFiles::new(rt.clone()?, alloc, longest(words))?;
    let mut say = MemSay::new(alloc, Vec::new(alloc));
    let status = soroban(threads, alloc, words, &mut files, &mut say, &OpenGate);
    push_outcome(out, &status, say.text())
}

fn slice(content: &Option<Vec<u8>>) -> Option<&[u8]> {
    content.as_ref().map(|bytes| bytes.as_slice())
}

/// What a file holds, if it can be read and has less than 2^20 bytes.
fn content<R: Runtime + AllocGlobal>(rt: &R, name: &str) -> Option<Vec<u8>> {
    let size = fs::metadata(rt, name).ok()?.len();
    if size < LONG {
        fs::read(rt, name).ok()
    } else {
        None
    }
}

/// What the files named by the words hold.
fn contents<R: Runtime + AllocGlobal>(
    rt: &R,
    alloc: Global,
    words: &[Word],
) -> Result<Vec<Option<Vec<u8>>>, CaseErr> {
    let mut contents = Vec::new(alloc);
    for it in words {
        contents.push(content(rt, name_in(it)))?;
    }
    Ok(contents)
}
