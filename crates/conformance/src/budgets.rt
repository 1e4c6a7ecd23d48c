//! Charges of a budget.

use crate::errors::spelled;
use budget_meter::{Budget, Kind, Limits, Used};
use case_text::{CaseErr, Fragments, first_word, number, push_str};
use ledger_types::Settings;
use std::alloc::Global;
use std::fmt::Write;
use value_xdr::decode;

/// SETTINGS LIMIT KIND:INPUT KIND:INPUT ..: whether each charge fits a budget of so many instructions at the settings' terms
/// and memory limit, and what the budget has spent then.
pub fn charges(
    alloc: Global,
    fragments: &Fragments,
    words: &str,
    out: &mut String,
) -> Result<(), CaseErr> {
    let (settings, rest) = first_word(words);
    let (limit, charges) = first_word(rest);
    let settings = settings_of(alloc, &fragments.bytes(alloc, settings)?)?;
    let limits = Limits {
        instructions: number(limit)?,
        memory: settings.memory_limit,
    };
    charge_all(&mut budget_of(settings, limits)?, charges, out)
}

/// The settings that bytes spell.
pub fn settings_of(alloc: Global, bytes: &[u8]) -> Result<Settings, CaseErr> {
    spelled(decode::<Settings>(alloc, bytes), "settings")
}

/// A budget with these limits, at the settings' terms.
pub fn budget_of(settings: Settings, limits: Limits) -> Result<Budget, CaseErr> {
    if settings.terms.wasm_insn_exec.instructions.constant == 0 {
        return Err(CaseErr::Lacks("an instruction that costs something"));
    }
    Ok(Budget::new(limits, settings.terms))
}

fn charge_all(budget: &mut Budget, charges: &str, out: &mut String) -> Result<(), CaseErr> {
    for charge in charges.split(' ') {
        push_charged(budget, charge, out)?;
    }
    push_sums(out, budget.spent())
}

/// Appends the line of what a budget has spent.
pub fn push_sums(out: &mut String, used: Used) -> Result<(), CaseErr> {
    let (instructions, memory) = (used.instructions, used.memory);
    writeln!(out, "instructions {instructions} memory {memory}")?;
    Ok(())
}

fn push_charged(budget: &mut Budget, charge: &str, out: &mut String) -> Result<(), CaseErr> {
    let (kind, input) = work_of(charge)?;
    let fits = budget.charge(kind, input).is_ok();
    push_str(out, if fits { "fits " } else { "spent " })
}

/// KIND:INPUT: a kind of work and its input.
fn work_of(charge: &str) -> Result<(Kind, u64), CaseErr> {
    let (name, input) = charge
        .split_once(':')
        .ok_or(CaseErr::Lacks("a kind of work and its input"))?;
    Ok((kind_of(name)?, number(input)?))
}

fn kind_of(name: &str) -> Result<Kind, CaseErr> {
    match name {
        "WasmInsnExec" => Ok(Kind::WasmInsnExec),
        "MemAlloc" => Ok(Kind::MemAlloc),
        "MemCpy" => Ok(Kind::MemCpy),
        "MemCmp" => Ok(Kind::MemCmp),
        "DispatchHostFunction" => Ok(Kind::DispatchHostFunction),
        "VisitObject" => Ok(Kind::VisitObject),
        "ValSer" => Ok(Kind::ValSer),
        "ValDeser" => Ok(Kind::ValDeser),
        "ComputeSha256Hash" => Ok(Kind::ComputeSha256Hash),
        "VmInstantiation" => Ok(Kind::VmInstantiation),
        "InvokeVmFunction" => Ok(Kind::InvokeVmFunction),
        _ => Err(CaseErr::Lacks("a kind of work")),
    }
}
