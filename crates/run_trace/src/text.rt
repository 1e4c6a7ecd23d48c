//! Lines for a person.

use crate::line::{Ending, Line, Manner, What};
use crate::names::{access_name, outcome_name};
use crate::short::{
    push_address, push_call, push_error, push_function, push_key, push_met, push_value, push_values,
};
use crate::tested::Tested;
use budget_meter::Used;
use contract_storage::{Access, Met, Outcome};
use invoke_types::{ContractEvent, Function};
use ledger_types::LedgerKey;
use std::alloc::{AllocError, Global};
use text_lines::push_number;
use value_types::ScAddress;

/// Appends each line with two spaces for each call around it, and then how many lines are left out, if any.
pub fn push_lines(
    alloc: Global,
    out: &mut Vec<u8>,
    lines: &[Line],
    left_out: u64,
) -> Result<(), AllocError> {
    let mut tested = Tested::new();
    for line in lines {
        tested.see(&line.what);
        push_line(alloc, out, line, tested)?;
    }
    if left_out > 0 {
        out.extend_from_slice(b"left out ")?;
        push_number(out, left_out, b" lines\n")?;
    }
    Ok(())
}

/// Appends a line for each key of an archived entry.
pub fn push_archived(
    alloc: Global,
    out: &mut Vec<u8>,
    keys: &[LedgerKey],
) -> Result<(), AllocError> {
    for key in keys {
        out.extend_from_slice(b"archived ")?;
        push_key(alloc, out, key)?;
        out.extend_from_slice(b"\n")?;
    }
    Ok(())
}

/// Appends a line for each event.
pub fn push_events(
    alloc: Global,
    out: &mut Vec<u8>,
    events: &[ContractEvent],
) -> Result<(), AllocError> {
    for event in events {
        push_event(alloc, out, event)?;
        out.extend_from_slice(b"\n")?;
    }
    Ok(())
}

fn push_indent(out: &mut Vec<u8>, depth: usize) -> Result<(), AllocError> {
    for _ in 0..depth {
        out.extend_from_slice(b"  ")?;
    }
    Ok(())
}

fn push_line(
    alloc: Global,
    out: &mut Vec<u8>,
    line: &Line,
    tested: Tested,
) -> Result<(), AllocError> {
    push_indent(out, line.depth)?;
    match &line.what {
        What::Called {
            address,
            function,
            args,
        } => {
            out.extend_from_slice(b"call ")?;
            push_call(alloc, out, address, function.as_slice(), args.as_slice())?;
        }
        What::Accessed {
            access,
            key,
            outcome,
        } => push_access(alloc, out, *access, key, *outcome)?,
        What::Demanded {
            address,
            function,
            met,
        } => push_demand(alloc, out, address, function, *met)?,
        What::Emitted(event) => push_event(alloc, out, event)?,
        What::Ended {
            ending,
            took,
            manner,
        } => {
            push_manner(out, line.depth, *manner, tested.reason(ending))?;
            push_end(alloc, out, ending, *took)?;
        }
    }
    out.extend_from_slice(b"\n")
}

fn push_access(
    alloc: Global,
    out: &mut Vec<u8>,
    access: Access,
    key: &LedgerKey,
    outcome: Outcome,
) -> Result<(), AllocError> {
    out.extend_from_slice(access_name(access).as_bytes())?;
    out.extend_from_slice(b" ")?;
    push_key(alloc, out, key)?;
    out.extend_from_slice(b": ")?;
    out.extend_from_slice(outcome_name(access, outcome).as_bytes())
}

fn push_demand(
    alloc: Global,
    out: &mut Vec<u8>,
    address: &ScAddress,
    function: &Function,
    met: Met,
) -> Result<(), AllocError> {
    out.extend_from_slice(b"demand ")?;
    push_address(alloc, out, address)?;
    out.extend_from_slice(b" ")?;
    push_function(alloc, out, function)?;
    out.extend_from_slice(b": ")?;
    push_met(out, met)
}

fn push_event(alloc: Global, out: &mut Vec<u8>, event: &ContractEvent) -> Result<(), AllocError> {
    out.extend_from_slice(b"event ")?;
    if let Some(contract) = event.contract_id {
        push_address(alloc, out, &ScAddress::Contract(contract))?;
        out.extend_from_slice(b" ")?;
    }
    out.extend_from_slice(b"[")?;
    push_values(alloc, out, event.topics.as_slice())?;
    out.extend_from_slice(b"] ")?;
    push_value(alloc, out, &event.data)
}

/// What stands before the end of a call: why it did not run, or a word if it is the frame of a constructor.
fn push_manner(
    out: &mut Vec<u8>,
    depth: usize,
    manner: Manner,
    reason: &str,
) -> Result<(), AllocError> {
    match manner {
        Manner::Run => Ok(()),
        Manner::Constructor => out.extend_from_slice(b"frame "),
        Manner::NotRun => {
            out.extend_from_slice(b"not run: ")?;
            out.extend_from_slice(reason.as_bytes())?;
            out.extend_from_slice(b"\n")?;
            push_indent(out, depth)
        }
    }
}

fn push_end(
    alloc: Global,
    out: &mut Vec<u8>,
    ending: &Ending,
    took: Used,
) -> Result<(), AllocError> {
    match ending {
        Ending::Value(value) => {
            out.extend_from_slice(b"return ")?;
            push_value(alloc, out, value)?;
        }
        Ending::Failed(error) => {
            out.extend_from_slice(b"fail ")?;
            push_error(out, *error)?;
        }
        Ending::Spent => out.extend_from_slice(b"fail budget")?,
        Ending::Undeclared(key) => {
            out.extend_from_slice(b"fail undeclared ")?;
            push_key(alloc, out, key)?;
        }
        Ending::Archived(key) => {
            out.extend_from_slice(b"fail archived ")?;
            push_key(alloc, out, key)?;
        }
        Ending::NoMemory => out.extend_from_slice(b"fail no memory")?,
    }
    out.extend_from_slice(b", ")?;
    push_number(out, took.instructions, b" instructions, ")?;
    push_number(out, took.memory, b" memory")
}
