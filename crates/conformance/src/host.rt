//! Cases of the functions that a contract's code calls: words, functions over values, and functions over the ledger.

mod calls;
mod frames;
mod ledger_calls;
mod ledger_outcomes;
mod ledger_prepared;
mod ledger_states;
mod outcomes;
mod prepared;
mod words;

use budget_meter::Limits;
pub use calls::Frame;
use case_text::{Case, CaseErr, Fragments, first_word, number};
pub use frames::show_value;
pub use prepared::Prepared;
use std::alloc::Global;

/// The limits of a budget that nothing spends.
pub const NO_LIMITS: Limits = Limits {
    instructions: u64::MAX,
    memory: u64::MAX,
};

/// `small VALUE`, `word WORD`, `host CALL`, or `within INSTRUCTIONS MEMORY CALL`.
pub fn host_case(
    alloc: Global,
    prepared: &Prepared,
    fragments: &Fragments,
    case: Case,
    out: &mut String,
) -> Result<(), CaseErr> {
    match case.kind {
        "small" => words::small(alloc, fragments, case.words, out),
        "word" => words::word(alloc, case.words, out),
        "host" => any_call(alloc, prepared, NO_LIMITS, case.words, out),
        _ => within(alloc, prepared, case.words, out),
    }
}

/// INSTRUCTIONS MEMORY CALL: a call under these limits.
fn within(
    alloc: Global,
    prepared: &Prepared,
    words: &str,
    out: &mut String,
) -> Result<(), CaseErr> {
    let (instructions, rest) = first_word(words);
    let (memory, rest) = first_word(rest);
    let limits = Limits {
        instructions: number(instructions)?,
        memory: number(memory)?,
    };
    any_call(alloc, prepared, limits, rest, out)
}

/// A call of a function over values, or calls of functions over the ledger.
fn any_call(
    alloc: Global,
    prepared: &Prepared,
    limits: Limits,
    words: &str,
    out: &mut String,
) -> Result<(), CaseErr> {
    if ledger_calls::names_ledger_call(words) {
        ledger_calls::ledger_calls(alloc, prepared, limits, words, out)
    } else {
        calls::call(alloc, prepared, limits, words, out)
    }
}
