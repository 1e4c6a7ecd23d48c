//! Commands over files in memory, whose calls may fail.

use crate::outcome::{name_in, push_outcome, push_stored};
use crate::why::run_why;
use crate::words::word;
use case_text::{CaseErr, number, push_str};
use edge_io::{Gate, MeetGate, MemFiles, MemSay, OpenGate, Word};
use soroban_top::soroban;
use std::alloc::Global;
use std::collections::BTreeMap;
use std::mem;
use std::thread::Threads;

/// The files that each command finds, the numbers of the calls that fail in the next one, and the clusters that meet in it.
#[derive(Drop)]
pub struct Memory {
    files: BTreeMap<String, Vec<u8>>,
    failing_calls: Vec<u64>,
    failing_says: Vec<u64>,
    /// Bit n is for cluster n. If no cluster is to meet others, it is 0.
    meeting: u64,
    turns: u32,
    /// The most bytes that a call reads in the next command.
    piece: usize,
    /// Whether the next command's files stay.
    keeps: bool,
}

impl Memory {
    /// Makes a memory without files, in which no call fails and no clusters meet.
    pub fn new(alloc: Global) -> Memory {
        Memory {
            files: BTreeMap::new(alloc),
            failing_calls: Vec::new(alloc),
            failing_says: Vec::new(alloc),
            meeting: 0,
            turns: 0,
            piece: usize::MAX,
            keeps: false,
        }
    }

    /// NUMBER: each call reads at most so many bytes in the next command.
    pub fn cut(&mut self, text: &str) -> Result<(), CaseErr> {
        self.piece = number(text)? as usize;
        Ok(())
    }

    /// The files that the next command stores stay for those that follow.
    pub fn keep(&mut self) -> Result<(), CaseErr> {
        self.keeps = true;
        Ok(())
    }

    /// Puts a file there, for all commands that follow.
    pub fn put(&mut self, alloc: Global, name: &str, bytes: Vec<u8>) -> Result<(), CaseErr> {
        self.files.insert(String::from_str(alloc, name)?, bytes)?;
        Ok(())
    }

    /// Removes a file, which has to be there.
    pub fn remove(&mut self, name: &str) -> Result<(), CaseErr> {
        match self.files.remove(name) {
            Some(_) => Ok(()),
            None => Err(CaseErr::Lacks("a file of that name")),
        }
    }

    /// WHICH NUMBERS: the calls of these numbers fail in the next command.
    pub fn fail(&mut self, which: &str, numbers: &str) -> Result<(), CaseErr> {
        match which {
            "files" => push_numbers(&mut self.failing_calls, numbers),
            "say" => push_numbers(&mut self.failing_says, numbers),
            _ => Err(CaseErr::Lacks("the word files or say")),
        }
    }

    /// CLUSTERS: these meet in the next command. Each waits for all others, for at most so many turns.
    pub fn meet(&mut self, turns: u32, clusters: &str) -> Result<(), CaseErr> {
        let mut meeting: u64 = 0;
        for text in clusters.split(' ') {
            let cluster = number(text)?;
            if cluster >= 64 {
                return Err(CaseErr::Lacks("a cluster below 64"));
            }
            meeting |= 1 << cluster;
        }
        self.meeting = meeting;
        self.turns = turns;
        Ok(())
    }

    /// Runs a command over a copy of the files, and appends its outcome. If clusters are to meet in it, the last line is `met` or
    /// `missed`.
    pub fn run<T: Threads + Sync>(
        &mut self,
        threads: &T,
        alloc: Global,
        words: &[Word],
        out: &mut String,
    ) -> Result<(), CaseErr> {
        let meeting = mem::replace(&mut self.meeting, 0);
        if meeting == 0 {
            return self.run_at(threads, alloc, words, &OpenGate, out);
        }
        let gate = MeetGate::new(meeting, self.turns);
        self.run_at(threads, alloc, words, &gate, out)?;
        push_str(out, if gate.met() { "met\n" } else { "missed\n" })
    }

    /// Runs a command whose workers enter a gate.
    fn run_at<T: Threads + Sync, G: Gate + Sync>(
        &mut self,
        threads: &T,
        alloc: Global,
        words: &[Word],
        gate: &G,
        out: &mut String,
    ) -> Result<(), CaseErr> {
        let failing_calls = mem::replace(&mut self.failing_calls, Vec::new(alloc));
        let failing_says = mem::replace(&mut self.failing_says, Vec::new(alloc));
        let mut files = MemFiles::new(alloc, failing_calls);
        files.cut(mem::replace(&mut self.piece, usize::MAX));
        let mut say = MemSay::new(alloc, failing_says);
        self.run_over(threads, alloc, words, &mut files, &mut say, gate, out)?;
        if mem::replace(&mut self.keeps, false) {
            self.take(alloc, words, &files)?;
        }
        Ok(())
    }

    /// Puts there what the files named by the words hold.
    fn take(&mut self, alloc: Global, words: &[Word], files: &MemFiles) -> Result<(), CaseErr> {
        for it in words {
            let name = word(alloc, name_in(it))?;
            if let Some(bytes) = files.bytes(&name) {
                self.put(alloc, name_in(it), Vec::from_slice(alloc, bytes)?)?;
            }
        }
        Ok(())
    }

    fn run_over<T: Threads + Sync, G: Gate + Sync>(
        &self,
        threads: &T,
        alloc: Global,
        words: &[Word],
        files: &mut MemFiles,
        say: &mut MemSay,
        gate: &G,
        out: &mut String,
    ) -> Result<(), CaseErr> {
        self.copy_into(alloc, files)?;
        let status = soroban(threads, alloc, words, files, say, gate);
        push_outcome(out, &status, say.text())?;
        self.push_changed(alloc, words, files, out)
    }

    /// Runs `soroban_why` over a copy of the files, and appends its outcome.
    pub fn run_why(
        &self,
        alloc: Global,
        kind: &str,
        words: &[Word],
        out: &mut String,
    ) -> Result<(), CaseErr> {
        let mut files = MemFiles::new(alloc, Vec::new(alloc));
        let mut say = MemSay::new(alloc, Vec::new(alloc));
        self.run_why_over(alloc, kind, words, &mut files, &mut say, out)
    }

    fn run_why_over(
        &self,
        alloc: Global,
        kind: &str,
        words: &[Word],
        files: &mut MemFiles,
        say: &mut MemSay,
        out: &mut String,
    ) -> Result<(), CaseErr> {
        self.copy_into(alloc, files)?;
        run_why(alloc, kind, words, files, say, out)
    }

    fn copy_into(&self, alloc: Global, files: &mut MemFiles) -> Result<(), CaseErr> {
        for (name, bytes) in &self.files {
            files.put(&word(alloc, name.as_str())?, bytes)?;
        }
        Ok(())
    }

    /// Appends a line for each file named by the words that is not what it was.
    fn push_changed(
        &self,
        alloc: Global,
        words: &[Word],
        files: &MemFiles,
        out: &mut String,
    ) -> Result<(), CaseErr> {
        for it in words {
            self.push_file(alloc, files, &word(alloc, name_in(it))?, out)?;
        }
        Ok(())
    }

    fn push_file(
        &self,
        alloc: Global,
        files: &MemFiles,
        name: &Word,
        out: &mut String,
    ) -> Result<(), CaseErr> {
        let before = self.files.get(name.as_str()).map(|bytes| bytes.as_slice());
        let _is_changed = push_stored(alloc, out, name.as_str(), before, files.bytes(name))?;
        Ok(())
    }
}

fn push_numbers(failing: &mut Vec<u64>, numbers: &str) -> Result<(), CaseErr> {
    failing.clear();
    for text in numbers.split(' ') {
        failing.push(number(text)?)?;
    }
    Ok(())
}
