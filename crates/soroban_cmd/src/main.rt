//! The program: runs `soroban` on the process's words, over the operating system's files and standard output.
#![tactic(auto)]

use edge_io::{OpenGate, RealFiles, StdSay, Word, longest};
use soroban_top::{Status, finish, soroban};
use std::alloc::AllocError;
use std::io;
use std::process::ExitCode;
use std::rt::{Env, Runtime};
use std::thread::Threads;

fn main(rt: HostRuntime) -> ExitCode {
    let status = match run(&rt) {
        Ok(status) => status,
        Err(AllocError) => Status::NoMemory,
    };
    ExitCode::from(status.code())
}

fn run<R: Runtime + AllocGlobal + Threads + Sync>(rt: &R) -> Result<Status, AllocError> {
    let alloc = rt.alloc();
    let mut say = StdSay::new(rt.clone()?);
    let status = match begin(rt) {
        Ok((words, mut files)) => soroban(rt, alloc, &words, &mut files, &mut say, &OpenGate),
        Err(status) => finish(alloc, Err(status), &mut say),
    };
    Ok(status)
}

/// The words, and files with room for the names that these words can give.
fn begin<R: Runtime + AllocGlobal>(rt: &R) -> Result<(Vec<Word>, RealFiles<R>), Status> {
    let words = words(rt)?;
    let files = RealFiles::new(rt.clone()?, rt.alloc(), longest(&words))?;
    Ok((words, files))
}

/// The words after the program's name. Words that are not text are wrong words.
fn words(rt: &(impl Env + AllocGlobal)) -> Result<Vec<Word>, Status> {
    let args = match std::env::args(rt) {
        Ok(args) => args,
        Err(error) if error.kind() == io::ErrorKind::OutOfMemory => return Err(Status::NoMemory),
        Err(_) => return Err(Status::Usage),
    };
    let mut words = Vec::new(rt.alloc());
    for word in args.skip(1) {
        words.push(Word::new(word))?;
    }
    Ok(words)
}
