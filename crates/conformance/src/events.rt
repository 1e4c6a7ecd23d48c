//! The events of a call, and its budget.

ghost use Rattle.std.specs.Prelude.{◌≡◌};

use crate::budgets::push_sums;
use budget_meter::{Budget, KindTerms, Limits, LinearCost, Terms, Used};
use case_text::{CaseErr, push_str};
use std::fmt::Write;
use wasm_run::Event;
use wasm_spec::TrapKind;

/// What is shown of an event.
#[derive(Clone, Copy)]
pub enum Shown {
    Alone,
    /// With what the budget has spent.
    WithSums,
}

/// Appends the line of an event.
pub fn push_event(
    out: &mut String,
    event: &Event,
    used: Used,
    shown: Shown,
) -> Result<(), CaseErr> {
    push_kind(out, event)?;
    match shown {
        Shown::Alone => push_str(out, "\n"),
        Shown::WithSums => {
            out.push_str(", ")?;
            push_sums(out, used)
        }
    }
}

fn push_kind(out: &mut String, event: &Event) -> Result<(), CaseErr> {
    match event {
        Event::Done(number) => Ok(write!(out, "done {number:x}")?),
        Event::Trap(kind) => {
            out.push_str("trap ")?;
            push_str(out, trap_name(*kind))
        }
        Event::Spent => push_str(out, "spent"),
        Event::HostCall { import, args } => {
            write!(out, "asks {import}")?;
            push_words(out, args.as_slice())
        }
    }
}

fn push_words(out: &mut String, words: &[u64]) -> Result<(), CaseErr> {
    for word in words {
        write!(out, " {word:x}")?;
    }
    Ok(())
}

fn trap_name(kind: TrapKind) -> &'static str {
    match kind {
        TrapKind::Unreachable => "unreachable",
        TrapKind::OutOfBounds => "bounds",
        TrapKind::Arithmetic => "arithmetic",
        TrapKind::IndirectType => "type",
        TrapKind::EmptyElement => "empty",
        TrapKind::CallDepth => "depth",
    }
}

fn terms(constant: u32, linear: u32, memory_constant: u32, memory_linear: u32) -> KindTerms
    ensures { result.instructions.constant ≡ constant }
{
    KindTerms {
        instructions: LinearCost { constant, linear },
        memory: LinearCost {
            constant: memory_constant,
            linear: memory_linear,
        },
    }
}

/// A budget of so many instructions, and of the memory of 640 pages.
pub fn budget_of(instructions: u64) -> Budget {
    budget_within(Limits {
        instructions,
        memory: 41_943_040,
    })
}

/// A budget within limits. An instruction costs one, and a page of memory its bytes and 16.
pub fn budget_within(limits: Limits) -> Budget {
    let other = terms(10, 128, 0, 0);
    let all = Terms {
        wasm_insn_exec: terms(1, 0, 0, 0),
        mem_alloc: terms(0, 0, 16, 128),
        mem_cpy: other,
        mem_cmp: other,
        dispatch_host_function: other,
        visit_object: other,
        val_ser: other,
        val_deser: other,
        compute_sha256_hash: other,
        vm_instantiation: other,
        invoke_vm_function: other,
    };
    Budget::new(limits, all)
}
