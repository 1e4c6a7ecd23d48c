//! The lines that show a result: its codes, and what its run took.
#![tactic(auto)]

ghost use Rattle.std.specs.Prelude.{◌≡◌, ◌++◌, OnOk, codes};
ghost use Rattle.tx_results.specs.Results.{outcome_in};
ghost use Rattle.apply_spec.specs.SimulationFile.{outcome_text, result_text, invoke_text, extend_text, inner_text};
ghost use Rattle.apply_spec.specs.SimulationFile.{operation_text, first_text, operations_text, result_line, used_line};

use budget_meter::Used;
use std::alloc::AllocError;
use text_lines::push_number;
use tx_results::{
    EnvelopeOutcome, ExtendResult, InnerResult, InvokeResult, OperationResult, TransactionOutcome,
};

/// The result code of a transaction, as text.
fn outcome_text(outcome: &TransactionOutcome) -> &'static [u8]
    ensures { result.now ≡ outcome_text outcome.now }
{
    match outcome {
        TransactionOutcome::Success(_) => b"0",
        TransactionOutcome::Failed(_) => b"-1",
        TransactionOutcome::TooEarly => b"-2",
        TransactionOutcome::TooLate => b"-3",
        TransactionOutcome::MissingOperation => b"-4",
        TransactionOutcome::Malformed => b"-16",
        TransactionOutcome::SorobanInvalid => b"-17",
    }
}

/// The result code of an envelope, as text. Of a fee bump it is the outer one.
fn result_text(outcome: &EnvelopeOutcome) -> &'static [u8]
    ensures { result.now ≡ result_text outcome.now }
{
    match outcome {
        EnvelopeOutcome::Transaction(outcome) => outcome_text(outcome),
        EnvelopeOutcome::FeeBumpInnerSuccess(_) => b"1",
        EnvelopeOutcome::FeeBumpInnerFailed(_) => b"-13",
    }
}

/// The outcome of the transaction in an envelope.
fn outcome_in(outcome: &EnvelopeOutcome) -> &TransactionOutcome
    ensures { result.now ≡ outcome_in outcome.now }
{
    match outcome {
        EnvelopeOutcome::Transaction(outcome) => outcome,
        EnvelopeOutcome::FeeBumpInnerSuccess(inner) => &inner.result.outcome,
        EnvelopeOutcome::FeeBumpInnerFailed(inner) => &inner.result.outcome,
    }
}

fn invoke_text(result_of_invoke: &InvokeResult) -> &'static [u8]
    ensures { result.now ≡ invoke_text result_of_invoke.now }
{
    match result_of_invoke {
        InvokeResult::Success(_) => b"0",
        InvokeResult::Malformed => b"-1",
        InvokeResult::Trapped => b"-2",
        InvokeResult::ResourceLimitExceeded => b"-3",
        InvokeResult::EntryArchived => b"-4",
    }
}

fn extend_text(result_of_extend: ExtendResult) -> &'static [u8]
    ensures { result.now ≡ extend_text result_of_extend }
{
    match result_of_extend {
        ExtendResult::Success => b"0",
        ExtendResult::Malformed => b"-1",
    }
}

/// The code of an operation's result, as text.
fn operation_text(result_of_operation: &OperationResult) -> &'static [u8]
    ensures { result.now ≡ operation_text result_of_operation.now }
{
    match result_of_operation {
        OperationResult::Inner(InnerResult::Invoke(invoked)) => invoke_text(invoked),
        OperationResult::Inner(InnerResult::Extend(extended)) => extend_text(*extended),
        OperationResult::NotSupported => b"-3",
    }
}

/// The code of the first operation's result, or `-` if there is none.
fn operations_text(outcome: &TransactionOutcome) -> &'static [u8]
    ensures { result.now ≡ operations_text outcome.now }
{
    match outcome {
        TransactionOutcome::Success(results) => first_text(results.as_slice()),
        TransactionOutcome::Failed(results) => first_text(results.as_slice()),
        TransactionOutcome::TooEarly
        | TransactionOutcome::TooLate
        | TransactionOutcome::MissingOperation
        | TransactionOutcome::Malformed
        | TransactionOutcome::SorobanInvalid => b"-",
    }
}

fn first_text(results: &[OperationResult]) -> &'static [u8]
    ensures { result.now ≡ first_text results.now }
{
    match results {
        [] => b"-",
        [first, ..] => operation_text(first),
    }
}

/// Appends `TX OP`: the code of the result, and that of the first operation.
pub fn push_codes(line: &mut Vec<u8>, outcome: &EnvelopeOutcome) -> Result<(), AllocError>
    ensures { OnOk result (line.new.items ≡ line.old.items
        ++ (result_text outcome.now ++ (codes " " ++ operations_text (outcome_in outcome.now)))) }
{
    line.extend_from_slice(result_text(outcome))?;
    line.extend_from_slice(b" ")?;
    line.extend_from_slice(operations_text(outcome_in(outcome)))
}

/// Appends `result TX OP`.
pub fn push_result(lines: &mut Vec<u8>, outcome: &EnvelopeOutcome) -> Result<(), AllocError>
    ensures { OnOk result (lines.new.items ≡ lines.old.items ++ result_line outcome.now) }
{
    lines.extend_from_slice(b"result ")?;
    push_codes(lines, outcome)?;
    lines.extend_from_slice(b"\n")
}

/// Appends `used I instructions, M memory`.
pub fn push_used(lines: &mut Vec<u8>, used: Used) -> Result<(), AllocError>
    ensures { OnOk result (lines.new.items ≡ lines.old.items ++ used_line used) }
{
    lines.extend_from_slice(b"used ")?;
    push_number(lines, used.instructions, b" instructions, ")?;
    push_number(lines, used.memory, b" memory\n")?;
    Ok(())
}
