//! Cases of modules: judgements and calls.

use crate::calls;
use case_text::{Case, CaseErr, Fragments, first_word, push_str};
use module_loader::{LoadErr, link};
use module_vet::{Flaw, VetErr, valid_line, vet};
use std::alloc::Global;
use std::fmt::Write;
use wasm_check::{CheckErr, ValidModule, check};
use wasm_read::{ReadModErr, read_module};
use wasm_spec::Module;

/// A kind and the kind's words behind MODULE.
#[derive(Clone, Copy)]
pub struct Asked<'a> {
    pub kind: &'a str,
    pub rest: &'a str,
}

/// A kind, MODULE and the kind's other words.
pub fn module_case(
    alloc: Global,
    fragments: &Fragments,
    case: Case,
    out: &mut String,
) -> Result<(), CaseErr> {
    let (module, rest) = first_word(case.words);
    let module = fragments.bytes(alloc, module)?;
    let kind = case.kind;
    push_judged(alloc, &module, Asked { kind, rest }, out)
}

/// Reads a module, and appends what is asked of it.
pub fn push_judged(
    alloc: Global,
    module: &[u8],
    asked: Asked,
    out: &mut String,
) -> Result<(), CaseErr> {
    match read_module(alloc, module) {
        Ok(module) => push_checked(alloc, module, asked, out),
        Err(ReadModErr::NotAModule) => push_not_valid(out, asked.kind, Flaw::NotAModule),
        Err(ReadModErr::NoMemory) => Err(CaseErr::NoMemory),
    }
}

fn push_checked(
    alloc: Global,
    module: Module,
    asked: Asked,
    out: &mut String,
) -> Result<(), CaseErr> {
    match check(alloc, module) {
        Ok(valid) => push_valid(alloc, &valid, asked, out),
        Err(CheckErr::Ill { func }) => push_not_valid(out, asked.kind, Flaw::Ill { func }),
        Err(CheckErr::NoMemory) => Err(CaseErr::NoMemory),
    }
}

fn push_not_valid(out: &mut String, kind: &str, flaw: Flaw) -> Result<(), CaseErr> {
    match (kind, flaw) {
        ("check", Flaw::Ill { .. }) => push_str(out, "ill typed\n"),
        ("check" | "flaw", flaw) => push_flaw(out, flaw),
        _ => Err(CaseErr::Lacks("a valid module")),
    }
}

fn push_valid(
    alloc: Global,
    module: &ValidModule,
    asked: Asked,
    out: &mut String,
) -> Result<(), CaseErr> {
    match asked.kind {
        "check" | "flaw" => push_str(out, "valid\n"),
        "link" => push_link(alloc, out, module),
        kind => calls::call_case(alloc, module, kind, asked.rest, out),
    }
}

fn push_link(alloc: Global, out: &mut String, module: &ValidModule) -> Result<(), CaseErr> {
    match link(alloc, module) {
        Ok(_rows) => push_str(out, "linked\n"),
        Err(LoadErr::Flawed(flaw)) => push_flaw(out, flaw),
        Err(LoadErr::NoMemory) => Err(CaseErr::NoMemory),
    }
}

/// MODULE: the line of sizes that `vet` says, or why this host does not take the module.
pub fn vet_case(
    alloc: Global,
    fragments: &Fragments,
    words: &str,
    out: &mut String,
) -> Result<(), CaseErr> {
    match vet(alloc, &fragments.bytes(alloc, words)?) {
        Ok(sizes) => push_line(out, &valid_line(alloc, &sizes)?),
        Err(VetErr::Flawed(flaw)) => push_flaw(out, flaw),
        Err(VetErr::NoMemory) => Err(CaseErr::NoMemory),
    }
}

/// Appends a line of text.
pub fn push_line(out: &mut String, line: &[u8]) -> Result<(), CaseErr> {
    let line = std::str::from_utf8(line)
        .ok()
        .ok_or(CaseErr::Lacks("text in its line"))?;
    push_str(out, line)
}

fn push_flaw(out: &mut String, flaw: Flaw) -> Result<(), CaseErr> {
    match flaw {
        Flaw::NotAModule => push_str(out, "not a module\n"),
        Flaw::Ill { func: Some(func) } => Ok(writeln!(out, "ill typed function {func}")?),
        Flaw::Ill { func: None } => push_str(out, "ill typed outside of functions\n"),
        Flaw::Unlinked { import } => Ok(writeln!(out, "unlinked import {import}")?),
    }
}
