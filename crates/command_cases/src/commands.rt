//! The kinds of cases: lines that prepare what commands find, and their runs.

ghost use denote.Param.Send.{IsSync};

use crate::disk::Disk;
use crate::memory::Memory;
use crate::words::{hex_digits, words_of};
use case_text::{Case, CaseErr, Fragments, Judge, first_word};
use edge_io::Word;
use std::alloc::Global;
use std::fs;
use std::rt::Runtime;
use std::thread::Threads;

/// How often a cluster looks for others that are to meet it.
const MEETING_TURNS: u32 = 100_000_000;

/// How often a cluster looks for others that cannot meet it.
const MISSING_TURNS: u32 = 1_000_000;

/// Which files the next lines prepare and the next commands find.
#[derive(Clone, Copy)]
enum Place {
    Memory,
    Disk,
}

/// The files that commands find, in memory and on disk.
#[derive(Drop)]
pub struct Commands {
    place: Place,
    memory: Memory,
    disk: Disk,
}

impl Commands {
    /// Makes the files of no case. Commands begin with those in memory.
    pub fn new(alloc: Global) -> Commands {
        Commands {
            place: Place::Memory,
            memory: Memory::new(alloc),
            disk: Disk::new(alloc),
        }
    }

    /// Removes the files that cases left on disk, and forgets those in memory.
    pub fn clear<R: Runtime>(&mut self, rt: &R, alloc: Global) {
        self.place = Place::Memory;
        self.memory = Memory::new(alloc);
        self.disk.clear(rt, alloc);
    }

    /// Puts a file there, for the commands that follow.
    fn put<R: Runtime>(
        &mut self,
        rt: &R,
        alloc: Global,
        name: &str,
        bytes: Vec<u8>,
    ) -> Result<(), CaseErr> {
        match self.place {
            Place::Memory => self.memory.put(alloc, name, bytes),
            Place::Disk => self.disk.put(rt, alloc, name, &bytes),
        }
    }

    fn remove<R: Runtime>(&mut self, rt: &R, name: &str) -> Result<(), CaseErr> {
        match self.place {
            Place::Memory => self.memory.remove(name),
            Place::Disk => self.disk.remove(rt, name),
        }
    }

    /// Runs a command, and appends its outcome.
    fn run<T: Threads + Sync, R: Runtime + AllocGlobal>(
        &mut self,
        threads: &T,
        rt: &R,
        alloc: Global,
        words: &[Word],
        out: &mut String,
    ) -> Result<(), CaseErr> {
        match self.place {
            Place::Memory => self.memory.run(threads, alloc, words, out),
            Place::Disk => self.disk.run(threads, rt, alloc, words, out),
        }
    }

    /// A line that prepares what the commands that follow find.
    fn prepare<R: Runtime + AllocGlobal>(
        &mut self,
        rt: &R,
        alloc: Global,
        fragments: &Fragments,
        case: Case,
    ) -> Result<(), CaseErr> {
        let (name, rest) = first_word(case.words);
        match case.kind {
            "use" => self.use_files(case.words),
            "long" => self.disk.put_too_long(rt, alloc, case.words),
            "no" => self.remove(rt, case.words),
            "fail" => self.memory.fail(name, rest),
            "pieces" => self.memory.cut(case.words),
            "keep" => self.memory.keep(),
            "meet" => self.memory.meet(MEETING_TURNS, case.words),
            "miss" => self.memory.meet(MISSING_TURNS, case.words),
            kind => {
                let bytes = content(rt, alloc, fragments, kind, rest)?;
                self.put(rt, alloc, name, bytes)
            }
        }
    }

    /// `memory` or `disk`: which files the lines that follow mean.
    fn use_files(&mut self, word: &str) -> Result<(), CaseErr> {
        self.place = match word {
            "memory" => Place::Memory,
            "disk" => Place::Disk,
            _ => return Err(CaseErr::Lacks("the word memory or disk")),
        };
        Ok(())
    }
}

impl Judge for Commands {
    fn begin_table<R: Runtime + AllocGlobal>(&mut self, rt: &R, alloc: Global) {
        self.clear(rt, alloc);
    }

    fn outcome<R: Runtime + AllocGlobal + Threads + Sync>(
        &mut self,
        rt: &R,
        alloc: Global,
        fragments: &Fragments,
        case: Case,
        out: &mut String,
    ) -> Result<(), CaseErr>
        requires sync { IsSync R.row }
    {
        match case.kind {
            "run" => {
                let words = words_of(alloc, fragments, case.words)?;
                self.run(rt, rt, alloc, &words, out)
            }
            "why" | "said" => {
                let words = words_of(alloc, fragments, case.words)?;
                self.memory.run_why(alloc, case.kind, &words, out)
            }
            _ => self.prepare(rt, alloc, fragments, case),
        }
    }
}

/// The bytes that a line puts into a file: those that it spells, or those of a file of the tables' folder, of hex digits or as
/// it is.
fn content<R: Runtime + AllocGlobal>(
    rt: &R,
    alloc: Global,
    fragments: &Fragments,
    kind: &str,
    rest: &str,
) -> Result<Vec<u8>, CaseErr> {
    match kind {
        "file" => fragments.bytes(alloc, rest),
        "hex" => hex_digits(alloc, fs::read_to_string(rt, rest)?.as_str()),
        "copy" => Ok(fs::read(rt, rest)?),
        _ => Err(CaseErr::Lacks("a kind of case")),
    }
}
