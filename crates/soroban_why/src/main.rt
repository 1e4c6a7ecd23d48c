//! The program: runs `why` on the process's words, over the operating system's files and standard output.
#![tactic(auto)]

use edge_io::{RealFiles, StdSay, Word, longest};
use std::alloc::AllocError;
use std::process::ExitCode;
use std::rt::{Env, Runtime};
use why_top::why;

/// The exit code when memory runs out, or the words cannot be read.
const NO_MEMORY: u8 = 5;

fn main(rt: HostRuntime) -> ExitCode {
    match run(&rt) {
        Ok(code) => ExitCode::from(code),
        Err(AllocError) => ExitCode::from(NO_MEMORY),
    }
}

fn run<R: Runtime + AllocGlobal>(rt: &R) -> Result<u8, AllocError> {
    let alloc = rt.alloc();
    let mut say = StdSay::new(rt.clone()?);
    let words = words(rt)?;
    let mut files = RealFiles::new(rt.clone()?, alloc, longest(&words))?;
    Ok(why(alloc, &words, &mut files, &mut say))
}

/// The words after the program's name. Words that are not text are none.
fn words(rt: &(impl Env + AllocGlobal)) -> Result<Vec<Word>, AllocError> {
    let mut words = Vec::new(rt.alloc());
    if let Ok(args) = std::env::args(rt) {
        for word in args.skip(1) {
            words.push(Word::new(word))?;
        }
    }
    Ok(words)
}
