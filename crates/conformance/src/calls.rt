//! Calls of the exports of modules, up to the first event or on behind the answers of imports.

ghost use Rattle.std.specs.Prelude.{◌≡◌, OnOk, IfOk};
ghost use Rattle.std.specs.Bool.{OnTrue};
ghost use Rattle.wasm_run.specs.declared.instance.CallPhase.TheVariants as phase;
ghost use Rattle.wasm_spec.specs.Code.{BlockType};

use crate::events::{Shown, budget_of, push_event};
use budget_meter::Budget;
use case_text::{CaseErr, count, first_word, hex_number, hex_numbers, number, push_hex, push_str};
use std::alloc::Global;
use wasm_check::ValidModule;
use wasm_run::{Event, Instance, StartErr};

/// A call of an export: EXPORT ARG.., the LIMIT of its budget, and the rounds behind its first event.
#[derive(Clone, Copy)]
struct Call<'a> {
    words: &'a str,
    limit: u64,
    shown: Shown,
    rounds: &'a str,
}

/// `call` and `sums` LIMIT EXPORT ARG.., `begin` EXPORT COUNT, or `hosted` EXPORT ARG.. | LIMIT | ROUND | ROUND ..
pub fn call_case(
    alloc: Global,
    module: &ValidModule,
    kind: &str,
    rest: &str,
    out: &mut String,
) -> Result<(), CaseErr> {
    match kind {
        "begin" => push_beginning(alloc, module, rest, out),
        "hosted" => push_called(alloc, module, hosted(rest)?, out),
        "call" => push_called(alloc, module, alone(rest, Shown::Alone)?, out),
        "export" => push_called(alloc, module, unlimited(rest), out),
        _ => push_called(alloc, module, alone(rest, Shown::WithSums)?, out),
    }
}

fn hosted(rest: &str) -> Result<Call<'_>, CaseErr> {
    let (words, rest) = rest.split_once(" | ").ok_or(CaseErr::Lacks("a budget"))?;
    let (limit, rounds) = rest.split_once(" | ").unwrap_or((rest, ""));
    Ok(Call {
        words,
        limit: number(limit)?,
        shown: Shown::WithSums,
        rounds,
    })
}

fn alone(rest: &str, shown: Shown) -> Result<Call<'_>, CaseErr> {
    let (limit, words) = first_word(rest);
    Ok(Call {
        words,
        limit: number(limit)?,
        shown,
        rounds: "",
    })
}

fn unlimited(words: &str) -> Call<'_> {
    Call {
        words,
        limit: u64::MAX,
        shown: Shown::WithSums,
        rounds: "",
    }
}

/// EXPORT COUNT: whether the export may be called with so many arguments.
fn push_beginning(
    alloc: Global,
    module: &ValidModule,
    rest: &str,
    out: &mut String,
) -> Result<(), CaseErr> {
    let (export, args) = first_word(rest);
    push_str(out, beginning(alloc, module, export, count(args)?)?)
}

fn beginning(
    alloc: Global,
    module: &ValidModule,
    export: &str,
    args: usize,
) -> Result<&'static str, CaseErr> {
    match Instance::new(alloc, module, export.as_bytes(), args) {
        Ok(_) => Ok("begins\n"),
        Err(StartErr::Missing) => Ok("missing\n"),
        Err(StartErr::WrongArity) => Ok("arity\n"),
        Err(StartErr::Segment) => Ok("segment\n"),
        Err(StartErr::NoMemory) => Err(CaseErr::NoMemory),
    }
}

/// Appends the events of a call.
fn push_called(
    alloc: Global,
    module: &ValidModule,
    call: Call,
    out: &mut String,
) -> Result<(), CaseErr> {
    let (export, words) = first_word(call.words);
    let args = hex_numbers(alloc, words)?;
    call_with(alloc, module, export, &args, call, out)
}

fn call_with(
    alloc: Global,
    module: &ValidModule,
    export: &str,
    args: &[u64],
    call: Call,
    out: &mut String,
) -> Result<(), CaseErr> {
    match Instance::new(alloc, module, export.as_bytes(), args.len()) {
        Ok(mut instance) => {
            instance.start(args);
            push_events(alloc, &mut instance, call, out)
        }
        Err(StartErr::NoMemory) => Err(CaseErr::NoMemory),
        Err(_) => Err(CaseErr::Lacks("an export that can be called")),
    }
}

/// ROUND | ROUND ..: the event of each, and the first one under a budget of so many instructions.
///
/// A ROUND is an import's ANSWER and the LIMIT of the budget from then on, or `same`. Behind them stand OFFSET HEX if the host
/// writes to the memory before it answers. The round `memory OFFSET COUNT` shows bytes of the memory.
fn push_events(
    alloc: Global,
    instance: &mut Instance,
    call: Call,
    out: &mut String,
) -> Result<(), CaseErr>
    requires { instance.old.phase ≡ phase.Ready }
{
    let mut budget = budget_of(call.limit);
    let mut is_asked = step(instance, &mut budget, call.shown, out)?;
    for round in call.rounds.split(" | ") {
        if let Some(range) = round.strip_prefix("memory ") {
            push_memory(alloc, out, instance.memory(), range)?;
        } else if is_asked && !round.is_empty() {
            answer_round(alloc, instance, &mut budget, round)?;
            is_asked = step(instance, &mut budget, call.shown, out)?;
        } else if !round.is_empty() {
            return Err(CaseErr::Lacks("a call that asks an import"));
        }
    }
    Ok(())
}

/// Goes on to the next event and appends its line. Returns whether an import is asked.
fn step(
    instance: &mut Instance,
    budget: &mut Budget,
    shown: Shown,
    out: &mut String,
) -> Result<bool, CaseErr>
    requires { instance.old.phase ≡ phase.Ready }
    ensures { IfOk result (λ is_asked. OnTrue is_asked ((r : BlockType) × (instance.new.phase ≡ phase.Waiting r))) }
{
    let event = instance.step_to(budget)?;
    let is_asked = matches!(event, Event::HostCall { .. });
    push_event(out, &event, budget.spent(), shown)?;
    Ok(is_asked)
}

/// Gives the ANSWER of a round, and changes the budget.
fn answer_round(
    alloc: Global,
    instance: &mut Instance,
    budget: &mut Budget,
    round: &str,
) -> Result<(), CaseErr>
    requires { (r : BlockType) × (instance.old.phase ≡ phase.Waiting r) }
    ensures { OnOk result (instance.new.phase ≡ phase.Ready) }
{
    let (answer_word, rest) = first_word(round);
    let (limit, write) = first_word(rest);
    if limit != "same" {
        *budget = budget_of(number(limit)?);
    }
    answer(alloc, instance, hex_number(answer_word)?, write)
}

/// Gives an import's answer, after the host has written to the memory: OFFSET HEX, or nothing.
fn answer(alloc: Global, instance: &mut Instance, answer: u64, write: &str) -> Result<(), CaseErr>
    requires { (r : BlockType) × (instance.old.phase ≡ phase.Waiting r) }
    ensures { OnOk result (instance.new.phase ≡ phase.Ready) }
{
    if !write.is_empty() {
        write_at(alloc, instance.memory_mut(), write)?;
    }
    instance.give(answer);
    Ok(())
}

/// OFFSET HEX: overwrites bytes of the memory.
fn write_at(alloc: Global, memory: &mut [u8], write: &str) -> Result<(), CaseErr> {
    let (offset, digits) = first_word(write);
    let start = count(offset)?;
    overwrite(memory, start, &hex::decode(alloc, digits)?)
}

fn overwrite(memory: &mut [u8], start: usize, bytes: &[u8]) -> Result<(), CaseErr> {
    let end = start.saturating_add(bytes.len());
    let part = memory
        .get_mut(start..end)
        .ok_or(CaseErr::Lacks("so many bytes of memory"))?;
    part.copy_from_slice(bytes);
    Ok(())
}

/// OFFSET COUNT: appends bytes of the memory.
fn push_memory(alloc: Global, out: &mut String, memory: &[u8], range: &str) -> Result<(), CaseErr> {
    let (offset, length) = first_word(range);
    let start = count(offset)?;
    let end = start.saturating_add(count(length)?);
    let bytes = memory
        .get(start..end)
        .ok_or(CaseErr::Lacks("so many bytes of memory"))?;
    push_hex(alloc, out, bytes)?;
    push_str(out, "\n")
}
