//! The end of every command: printing the lines of its status.

ghost use Rattle.std.specs.Prelude.{◌≡◌, ◌⊎◌, ◌≤◌, ◌++◌, IfOk};
ghost use Rattle.edge_io.specs.Counts.{OnFailed, Rose};
ghost use Rattle.command_io.specs.Lines.{Finishes, HasSayCause, IsStatusAfter, SaysLines, conflict_line, ill_line, line_of};
ghost use Rattle.command_io.specs.Lines.{list_line, name_of, number_of, unfit_line};
ghost use Rattle.command_io.specs.Steps.{status_of, viewed};

use crate::Status;
use change_log::ListIndex;
use edge_io::{EdgeErr, Say, Word};
use itoa::Buffer;
use ledger_spec::LedgerWhy;
use std::alloc::{AllocError, Global};
use text_lines::{push_hex, push_number};
use xdr_spec::Why;

/// Prints the lines of a command: its own lines if it is done, otherwise the line of its status. Returns the final status, which
/// is that of the failure if the lines could not be printed.
pub fn finish<S: Say>(alloc: Global, outcome: Result<Vec<u8>, Status>, say: &mut S) -> Status
    ensures said { Finishes (viewed (λ v. v.items) outcome) result (S.text say.old) (S.text say.new) }
    ensures cause { HasSayCause (viewed (λ v. v.items) outcome) (S.faults say.old) (S.faults say.new) result }
    ensures counts { S.faults say.old ≤ S.faults say.new }
    ensures steady { S.steady say.old → S.faults say.new ≡ S.faults say.old }
    ensures steady_exact { S.steady say.old →
        (result ≡ status_of (viewed (λ v. v.items) outcome)) ⊎ (result ≡ Status.NoMemory) }
{
    match outcome {
        Ok(lines) => unless_unsaid(alloc, Status::Done, say_part(say, &lines)),
        Err(status) => {
            let said = say_status(alloc, say, &status);
            unless_unsaid(alloc, status, said)
        }
    }
}

/// The final status of a command, by how the printing of its lines went.
fn unless_unsaid(alloc: Global, status: Status, said: Result<(), EdgeErr>) -> Status
    ensures { IsStatusAfter said status result }
{
    match said {
        Ok(()) => status,
        Err(EdgeErr::Failed) => Status::Fault {
            name: Word::empty(alloc),
        },
        Err(EdgeErr::NoMemory) => Status::NoMemory,
    }
}

/// Prints the line of a status. Takes memory for the line of a conflict alone.
fn say_status<S: Say>(alloc: Global, say: &mut S, status: &Status) -> Result<(), EdgeErr>
    ensures said { SaysLines result (line_of status.now) (S.text say.old) (S.text say.new) }
    ensures counts { S.faults say.old ≤ S.faults say.new }
    ensures cause { OnFailed result (Rose (S.faults say.old) (S.faults say.new)) }
    ensures steady { S.steady say.old → OnFailed result ⊥ × S.steady say.new × (S.faults say.new ≡ S.faults say.old) }
{
    let mut digits = Buffer::new();
    match status {
        Status::Done => Ok(()),
        Status::Usage => say_part(say, b"usage\n"),
        Status::Fault { name } => say_parts(say, b"fault on ", name.as_str().as_bytes(), b"\n"),
        Status::TooLong { name } => say_parts(say, b"too long: ", name.as_str().as_bytes(), b"\n"),
        Status::Ledger { why, at } => {
            let at = digits.format(*at);
            say_parts(say, number_of(*why), at.as_bytes(), b"\n")
        }
        Status::Verdicts { at } => {
            let at = digits.format(*at);
            say_parts(say, b"verdicts refused at ", at.as_bytes(), b"\n")
        }
        Status::Malformed { at, why } => {
            let at = digits.format(*at);
            say_parts(say, b"refused at ", at.as_bytes(), name_of(*why))
        }
        Status::NotBase64 { name } => {
            say_parts(say, b"not base64: ", name.as_str().as_bytes(), b"\n")
        }
        Status::Conflict { stage, a, b, key } => {
            say_conflict(alloc, say, *stage, *a, *b, key.as_slice())
        }
        Status::Schedule { at } => {
            let at = digits.format(*at);
            say_parts(say, b"schedule refused at ", at.as_bytes(), b"\n")
        }
        Status::Incomplete { stage } => {
            let stage = digits.format(*stage);
            say_parts(
                say,
                b"schedule not complete: stage ",
                stage.as_bytes(),
                b"\n",
            )
        }
        Status::Unfit { at } => say_unfit(alloc, say, *at),
        Status::NotAModule => say_part(say, b"not a module\n"),
        Status::Ill { func } => say_ill(say, *func),
        Status::Unlinked { import } => {
            let number = digits.format(*import);
            say_parts(say, b"unlinked: import ", number.as_bytes(), b"\n")
        }
        Status::NoMemory => say_part(say, b"no memory\n"),
    }
}

/// Prints the line of a conflict.
fn say_conflict<S: Say>(
    alloc: Global,
    say: &mut S,
    stage: u64,
    a: u64,
    b: u64,
    key: &[u8],
) -> Result<(), EdgeErr>
    ensures said { SaysLines result (conflict_line stage a b key.now) (S.text say.old) (S.text say.new) }
    ensures counts { S.faults say.old ≤ S.faults say.new }
    ensures cause { OnFailed result (Rose (S.faults say.old) (S.faults say.new)) }
    ensures steady { S.steady say.old → OnFailed result ⊥ × S.steady say.new × (S.faults say.new ≡ S.faults say.old) }
{
    match conflict_line(alloc, stage, a, b, key) {
        Ok(line) => say_part(say, &line),
        Err(_) => Err(EdgeErr::NoMemory),
    }
}

fn conflict_line(
    alloc: Global,
    stage: u64,
    a: u64,
    b: u64,
    key: &[u8],
) -> Result<Vec<u8>, AllocError>
    ensures { IfOk result (λ v. v.items ≡ conflict_line stage a b key.now) }
{
    let mut line = Vec::from_slice(alloc, b"conflict: stage ")?;
    push_number(&mut line, stage, b", clusters ")?;
    push_number(&mut line, a, b" and ")?;
    push_number(&mut line, b, b", key ")?;
    push_hex(alloc, &mut line, key, b"\n")?;
    Ok(line)
}

/// Prints the line of a log that does not fit.
fn say_unfit<S: Say>(alloc: Global, say: &mut S, at: Option<ListIndex>) -> Result<(), EdgeErr>
    ensures said { SaysLines result (unfit_line at) (S.text say.old) (S.text say.new) }
    ensures counts { S.faults say.old ≤ S.faults say.new }
    ensures cause { OnFailed result (Rose (S.faults say.old) (S.faults say.new)) }
    ensures steady { S.steady say.old → OnFailed result ⊥ × S.steady say.new × (S.faults say.new ≡ S.faults say.old) }
{
    match at {
        None => say_part(say, b"log does not fit: header\n"),
        Some(at) => say_list(alloc, say, at),
    }
}

fn say_list<S: Say>(alloc: Global, say: &mut S, at: ListIndex) -> Result<(), EdgeErr>
    ensures said { SaysLines result (list_line at) (S.text say.old) (S.text say.new) }
    ensures counts { S.faults say.old ≤ S.faults say.new }
    ensures cause { OnFailed result (Rose (S.faults say.old) (S.faults say.new)) }
    ensures steady { S.steady say.old → OnFailed result ⊥ × S.steady say.new × (S.faults say.new ≡ S.faults say.old) }
{
    match list_line(alloc, at) {
        Ok(line) => say_part(say, &line),
        Err(_) => Err(EdgeErr::NoMemory),
    }
}

fn list_line(alloc: Global, at: ListIndex) -> Result<Vec<u8>, AllocError>
    ensures { IfOk result (λ v. v.items ≡ list_line at) }
{
    let mut line = Vec::from_slice(alloc, b"log does not fit: stage ")?;
    push_number(&mut line, at.stage as u64, b", place ")?;
    push_number(&mut line, at.list as u64, b"\n")?;
    Ok(line)
}

/// Prints the line of an ill-typed module.
fn say_ill<S: Say>(say: &mut S, func: Option<u32>) -> Result<(), EdgeErr>
    ensures said { SaysLines result (ill_line func) (S.text say.old) (S.text say.new) }
    ensures counts { S.faults say.old ≤ S.faults say.new }
    ensures cause { OnFailed result (Rose (S.faults say.old) (S.faults say.new)) }
    ensures steady { S.steady say.old → OnFailed result ⊥ × S.steady say.new × (S.faults say.new ≡ S.faults say.old) }
{
    let mut digits = Buffer::new();
    match func {
        None => say_part(say, b"ill typed: module\n"),
        Some(func) => {
            let number = digits.format(func);
            say_parts(say, b"ill typed: function ", number.as_bytes(), b"\n")
        }
    }
}

/// The start of the line of a refused ledger, up to the number of the reason.
fn number_of(why: LedgerWhy) -> &'static [u8]
    ensures { result.now ≡ number_of why }
{
    match why {
        LedgerWhy::Xdr => b"ledger refused: 1 at ",
        LedgerWhy::Order => b"ledger refused: 2 at ",
        LedgerWhy::TtlHash => b"ledger refused: 3 at ",
        LedgerWhy::CodeHash => b"ledger refused: 4 at ",
        LedgerWhy::Settings => b"ledger refused: 5 at ",
        LedgerWhy::SeqEnd => b"ledger refused: 6 at ",
    }
}

/// The end of the line of a refusal, with the name of its reason.
fn name_of(why: Why) -> &'static [u8]
    ensures { result.now ≡ name_of why }
{
    match why {
        Why::End => b": end\n",
        Why::Padding => b": padding\n",
        Why::Boolean => b": bool\n",
        Why::Tag => b": tag\n",
        Why::Limit => b": limit\n",
        Why::Depth => b": depth\n",
        Why::Trailing => b": trailing\n",
    }
}

/// Prints three parts of a line, one after another.
fn say_parts<S: Say>(say: &mut S, before: &[u8], middle: &[u8], after: &[u8]) -> Result<(), EdgeErr>
    ensures said { SaysLines result (before.now ++ middle.now ++ after.now) (S.text say.old) (S.text say.new) }
    ensures counts { S.faults say.old ≤ S.faults say.new }
    ensures cause { OnFailed result (Rose (S.faults say.old) (S.faults say.new)) }
    ensures steady { S.steady say.old → OnFailed result ⊥ × S.steady say.new × (S.faults say.new ≡ S.faults say.old) }
{
    say_two(say, before, middle)?;
    say_part(say, after)
}

fn say_two<S: Say>(say: &mut S, before: &[u8], after: &[u8]) -> Result<(), EdgeErr>
    ensures said { SaysLines result (before.now ++ after.now) (S.text say.old) (S.text say.new) }
    ensures counts { S.faults say.old ≤ S.faults say.new }
    ensures cause { OnFailed result (Rose (S.faults say.old) (S.faults say.new)) }
    ensures steady { S.steady say.old → OnFailed result ⊥ × S.steady say.new × (S.faults say.new ≡ S.faults say.old) }
{
    say_part(say, before)?;
    say_part(say, after)
}

fn say_part<S: Say>(say: &mut S, lines: &[u8]) -> Result<(), EdgeErr>
    ensures said { SaysLines result lines.now (S.text say.old) (S.text say.new) }
    ensures counts { S.faults say.old ≤ S.faults say.new }
    ensures cause { OnFailed result (Rose (S.faults say.old) (S.faults say.new)) }
    ensures steady { S.steady say.old → OnFailed result ⊥ × S.steady say.new × (S.faults say.new ≡ S.faults say.old) }
{
    say.say(lines)
}
